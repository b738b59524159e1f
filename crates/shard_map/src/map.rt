//! The calls.
ghost use Rattle.std.specs.Prelude.{◌≡◌, ℕ, ◌+◌, ◌*◌, ◌<◌, ◌≤◌, ◌||◌, true, false, length, Contains, IfOk, MatchResult, MatchBool, replicate};
ghost use Rattle.shard_map.specs.Views.{rest_of, half_of, joined};
ghost use Rattle.shard_map.specs.Seats.{IsSeatOf, MatchEntering, HasEntered, WasFilled, WasBusy};

use crate::entering::Entering;
use crate::handles::{MapSeat, ShardMap};
use crate::marks::{blank, has_mark, mark_at, unite};
use crate::view::{Halves, Weighs};
use job_core::Piecework;
use std::alloc::AllocError;

impl<J: Piecework> MapSeat<J> {
    /// The seat's share. The seat that was opened with the map has 2^40, which is all.
    pub fn share(&self) -> u64
        ensures { result ≡ self.now.view.share }
    {
        self.share
    }
}

impl<J: Piecework> ShardMap<J> {
    /// The number of pieces of the map's job.
    pub fn pieces(&self) -> u32
        ensures count { result ≡ J.count self.now.job }
        ensures most { result ≤ 4096 }
    {
        self.pieces
    }

    /// The number of shards.
    pub fn shards(&self) -> u32
        ensures count { result ≡ J.shard_count self.now.job }
        ensures range { (0 < result) × (result ≤ 64) }
    {
        self.shards
    }

    /// Enters the part that a piece gives for a shard, in one turn of the shard, or hands it back.
    pub fn try_enter(
        &self,
        seat: &mut MapSeat<J>,
        shard: u32,
        piece: u32,
        part: J::Part,
    ) -> Entering<J::Part>
    where
        J::Part: Drop,
        requires seat { IsSeatOf self.now seat.old }
        requires range { (shard < J.shard_count self.now.job) × (piece < J.count self.now.job) }
        requires part { (J.fails self.now.job piece ≡ false) × (part ≡ J.part self.now.job shard piece) }
        ensures seat { IsSeatOf self.now seat.new }
        ensures outcome { MatchEntering result
            (HasEntered seat.old.view seat.new.view shard piece)
            (λ kept. (kept ≡ part) × WasFilled seat.old.view seat.new.view shard piece)
            (λ kept seen. (kept ≡ part) × WasBusy seat.old.view seat.new.view shard seen) }
    {
        let seen = self.look(&mut seat.seat, shard);
        if seen % 2 == 1 {
            return Entering::Busy { part, seen };
        }
        let runs = match self.take_turn(&mut seat.seat, shard, seen) {
            Ok(runs) => runs,
            Err(seen) => return Entering::Busy { part, seen },
        };
        match self.use_turn(&mut seat.seat, shard, piece, part, runs) {
            Some(part) => Entering::Filled { part },
            None => {
                let at = mark_at(seat.pieces, shard, piece);
                seat.marks[at] = true;
                Entering::Entered
            }
        }
    }

    /// Whether the seat's list has the pair.
    pub fn entered(&self, seat: &MapSeat<J>, shard: u32, piece: u32) -> bool
        ensures { MatchBool result (Contains seat.now.view.pairs (shard, piece)) (Contains seat.now.view.pairs (shard, piece) → ⊥) }
    {
        has_mark(&seat.marks, seat.pieces, shard, piece)
    }

    /// A further seat, with half of this one's share, rounded down, and an empty list. This one keeps the rest.
    ///
    /// # Errors
    ///
    /// `AllocError` where there is no memory. The seat is then as it was.
    pub fn split(&self, seat: &mut MapSeat<J>) -> Result<MapSeat<J>, AllocError>
        requires seat { IsSeatOf self.now seat.old }
        requires share { 2 ≤ seat.old.view.share }
        ensures seat { IsSeatOf self.now seat.new }
        ensures made { MatchResult result
            (λ made. IsSeatOf self.now made × (seat.new.view ≡ rest_of seat.old.view) × (made.view ≡ half_of seat.old.view))
            (λ _. seat.new ≡ seat.old) }
    {
        let marks = blank(self.alloc, self.shards as usize * self.pieces as usize)?;
        let lists = Vec::with_capacity(self.alloc, self.shards as usize)?;
        let share = seat.share / 2;
        let half = self.table.shared.split_seat::<Halves>(&mut seat.seat);
        seat.share -= share;
        Ok(MapSeat {
            seat: half,
            share,
            pieces: self.pieces,
            marks,
            lists,
        })
    }

    /// Ends the other seat. This one then has both shares and both lists.
    pub fn join(&self, seat: &mut MapSeat<J>, other: MapSeat<J>)
    where
        J::Part: Drop,
        requires seats { IsSeatOf self.now seat.old × IsSeatOf self.now other }
        ensures seat { IsSeatOf self.now seat.new }
        ensures view { seat.new.view ≡ joined seat.old.view other.view }
    {
        let MapSeat {
            seat: other,
            share,
            pieces: _,
            marks,
            lists,
        } = other;
        drop(lists);
        self.table.shared.join_seat::<Halves>(&mut seat.seat, other);
        self.table.shared.load::<Weighs>(&mut seat.seat, 0);
        seat.share += share;
        unite(&mut seat.marks, &marks);
    }
}
