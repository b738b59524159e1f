// The guards of the steps.
ghost use Rattle.std.specs.Prelude.{◌≡◌, true, false, length, MatchResult, Some, None, nat_lt, ◌&&◌};
ghost use Rattle.job_core.specs.Machine.{is_seat, Guard, waits, holds, does_fail, does_not_fail, has_seen_below, turn_is_free, has_turn, is_not_entered, all_finished, no_turn_is_out, is_in_range, guards, first_failing, refusal};
ghost use Rattle.job_core.specs.Guards.{IsTested};

use super::JobState;
use crate::{JobStep, Kept};

impl JobState {
    /// Whether the step is allowed, or else what the first guard that fails found.
    pub(super) fn allows(&self, step: JobStep) -> Result<(), Kept>
        ensures { MatchResult result (λ _. refusal self.now step ≡ None) (λ kept. refusal self.now step ≡ Some kept) }
    {
        test(!self.closed, Kept::Closed)?;
        test(self.is_in_range(step), Kept::Range)?;
        self.guards(step)
    }

    fn guards(&self, step: JobStep) -> Result<(), Kept>
        ensures { MatchResult result (λ _. first_failing (guards self.now step) ≡ None) (λ kept. first_failing (guards self.now step) ≡ Some kept) }
    {
        match step {
            JobStep::Take { seat: _, piece } => self.waits(piece),
            JobStep::Fail { seat, piece } => {
                self.holds(seat, piece)?;
                self.does_fail(piece)
            }
            JobStep::Look { seat: _ } => Ok(()),
            JobStep::Skip { seat, piece } => {
                self.holds(seat, piece)?;
                self.has_seen_below(seat, piece)
            }
            JobStep::Turn { seat: _, shard } => self.turn_is_free(shard),
            JobStep::Enter { seat, shard, piece } => {
                self.has_turn(seat, shard)?;
                self.holds(seat, piece)?;
                self.does_not_fail(piece)?;
                self.is_not_entered(shard, piece)
            }
            JobStep::Close => {
                self.all_finished()?;
                self.no_turn_is_out()
            }
        }
    }

    fn is_in_range(&self, step: JobStep) -> bool
        ensures { result ≡ is_in_range self.now step }
    {
        match step {
            JobStep::Take { seat, piece } => self.has_seat(seat) && self.has_piece(piece),
            JobStep::Fail { seat, piece } => self.has_seat(seat) && self.has_piece(piece),
            JobStep::Look { seat } => self.has_seat(seat),
            JobStep::Skip { seat, piece } => self.has_seat(seat) && self.has_piece(piece),
            JobStep::Turn { seat, shard } => self.has_seat(seat) && self.has_shard(shard),
            JobStep::Enter { seat, shard, piece } => {
                self.has_seat(seat) && self.has_shard(shard) && self.has_piece(piece)
            }
            JobStep::Close => true,
        }
    }

    fn has_seat(&self, seat: u32) -> bool
        ensures { result ≡ nat_lt seat (length self.now.seen) }
    {
        (seat as usize) < self.seen.len()
    }

    fn has_piece(&self, piece: u32) -> bool
        ensures { result ≡ nat_lt piece (length self.now.fails) }
    {
        (piece as usize) < self.fails.len()
    }

    fn has_shard(&self, shard: u32) -> bool
        ensures { result ≡ nat_lt shard (length self.now.turns) }
    {
        (shard as usize) < self.turns.len()
    }

    /// The piece waits.
    fn waits(&self, piece: u32) -> Result<(), Kept>
        ensures { IsTested (waits self.now piece) result }
    {
        let waits = self.place_of(piece).is_waiting();
        test(waits, Kept::Waits(waits))
    }

    /// The seat holds the piece.
    fn holds(&self, seat: u32, piece: u32) -> Result<(), Kept>
        ensures { IsTested (holds self.now seat piece) result }
    {
        let holder = self.place_of(piece).holder();
        test(is_seat(seat, holder), Kept::HeldBy(holder))
    }

    /// The piece fails.
    fn does_fail(&self, piece: u32) -> Result<(), Kept>
        ensures { IsTested (does_fail self.now piece) result }
    {
        let fails = self.fails_at(piece);
        test(fails, Kept::Fails(fails))
    }

    /// The piece doesn't fail.
    fn does_not_fail(&self, piece: u32) -> Result<(), Kept>
        ensures { IsTested (does_not_fail self.now piece) result }
    {
        let fails = self.fails_at(piece);
        test(!fails, Kept::Fails(fails))
    }

    /// The seat has seen a failure before the piece.
    fn has_seen_below(&self, seat: u32, piece: u32) -> Result<(), Kept>
        ensures { IsTested (has_seen_below self.now seat piece) result }
    {
        let seen = self.seen_by(seat);
        test(seen < piece, Kept::Seen(seen))
    }

    /// No seat has the turn of the shard.
    fn turn_is_free(&self, shard: u32) -> Result<(), Kept>
        ensures { IsTested (turn_is_free self.now shard) result }
    {
        let turn = self.turn_of(shard);
        test(turn.is_none(), Kept::TurnOf(turn))
    }

    /// The seat has the turn of the shard.
    fn has_turn(&self, seat: u32, shard: u32) -> Result<(), Kept>
        ensures { IsTested (has_turn self.now seat shard) result }
    {
        let turn = self.turn_of(shard);
        test(is_seat(seat, turn), Kept::TurnOf(turn))
    }

    /// The piece isn't entered in the shard.
    fn is_not_entered(&self, shard: u32, piece: u32) -> Result<(), Kept>
        ensures { IsTested (is_not_entered self.now shard piece) result }
    {
        let entered = self.is_entered(shard, piece);
        test(!entered, Kept::Entered(entered))
    }

    /// Each piece is finished.
    fn all_finished(&self) -> Result<(), Kept>
        ensures { IsTested (all_finished self.now) result }
    {
        match self.least_unfinished() {
            Some(piece) => Err(Kept::Unfinished { piece }),
            None => Ok(()),
        }
    }

    /// Every turn is free.
    fn no_turn_is_out(&self) -> Result<(), Kept>
        ensures { IsTested (no_turn_is_out self.now) result }
    {
        let turn = self.first_turn_out();
        test(turn.is_none(), Kept::TurnOf(turn))
    }
}

/// A guard with this test, and what it found.
fn test(holds: bool, kept: Kept) -> Result<(), Kept>
    ensures { IsTested (holds, kept) result }
{
    if holds { Ok(()) } else { Err(kept) }
}

fn is_seat(seat: u32, other: Option<u32>) -> bool
    ensures { result ≡ is_seat seat other }
{
    match other {
        Some(other) => other == seat,
        None => false,
    }
}
