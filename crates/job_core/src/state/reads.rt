// What is read of a state, by number. A number out of range reads as nothing.
ghost use Rattle.std.specs.Prelude.{◌≡◌, false, slice_index_or};
ghost use Rattle.job_core.specs.Machine.{place_of, fails_at, seen_by, turn_of, is_entered, in_every, is_finished, least_unfinished, first_turn_out};

use super::JobState;
use crate::place::Place;

impl JobState {
    pub(super) fn place_of(&self, piece: u32) -> Place
        ensures { result ≡ place_of self.now piece }
    {
        match self.places.get(piece as usize) {
            Some(place) => *place,
            None => Place::Waiting,
        }
    }

    pub(super) fn fails_at(&self, piece: u32) -> bool
        ensures { result ≡ fails_at self.now piece }
    {
        match self.fails.get(piece as usize) {
            Some(fails) => *fails,
            None => false,
        }
    }

    pub(super) fn seen_by(&self, seat: u32) -> u32
        ensures { result ≡ seen_by self.now seat }
    {
        match self.seen.get(seat as usize) {
            Some(seen) => *seen,
            None => 0,
        }
    }

    pub(super) fn turn_of(&self, shard: u32) -> Option<u32>
        ensures { result ≡ turn_of self.now shard }
    {
        match self.turns.get(shard as usize) {
            Some(turn) => *turn,
            None => None,
        }
    }

    pub(super) fn is_entered(&self, shard: u32, piece: u32) -> bool
        ensures { result ≡ is_entered self.now shard piece }
    {
        match self.entered.get(shard as usize) {
            Some(row) => is_entered_in(row, piece),
            None => false,
        }
    }

    pub(super) fn is_entered_everywhere(&self, piece: u32) -> bool
        ensures { result ≡ in_every piece self.now.entered }
    {
        for row in &self.entered {
            if !is_entered_in(row, piece) {
                return false;
            }
        }
        true
    }

    pub(super) fn is_finished(&self, piece: u32) -> bool
        ensures { result ≡ is_finished self.now piece }
    {
        match self.place_of(piece) {
            Place::Waiting => false,
            Place::Held { seat: _ } => !self.fails_at(piece) && self.is_entered_everywhere(piece),
            Place::Reported => true,
            Place::Skipped => true,
        }
    }

    pub(super) fn least_unfinished(&self) -> Option<u32>
        ensures { result ≡ least_unfinished self.now }
    {
        for piece in 0..self.fails.len() as u32 {
            if !self.is_finished(piece) {
                return Some(piece);
            }
        }
        None
    }

    pub(super) fn first_turn_out(&self) -> Option<u32>
        ensures { result ≡ first_turn_out self.now.turns }
    {
        for turn in &self.turns {
            if turn.is_some() {
                return *turn;
            }
        }
        None
    }
}

fn is_entered_in(row: &[bool], piece: u32) -> bool
    ensures { result ≡ slice_index_or row.now piece false }
{
    match row.get(piece as usize) {
        Some(entered) => *entered,
        None => false,
    }
}
