//! What a worker does with a piece: it enters its parts, and keeps those that it couldn't enter.
ghost use Rattle.std.specs.Prelude.{◌≡◌, ℕ, ◌<◌, ◌≤◌, false, All, IfOk, MatchOption, length, vec_capacity};
ghost use Rattle.shard_map.specs.Seats.{IsSeatOf, MatchEntering};
ghost use Rattle.shard_map.specs.Views.{whole};
ghost use Rattle.phase_enter.specs.Entries.{AreParts, Has, Grows, IsKept, IsCovered, TookCareOf};

use crate::parts::Parts;
use job_core::Piecework;
use ld_io::{Gate, Phase};
use shard_map::{Entering, MapSeat, ShardMap};
use std::alloc::{AllocError, Global};
use steal_pool::{Work, WorkStop};

/// How often a worker tries to enter a part.
const TRIES: u32 = 8;

/// What a worker brings back of a piece.
#[derive(Drop)]
pub(crate) struct Answer<P, R> {
    /// The parts that it couldn't enter, with their shards.
    pub(crate) kept: Vec<(u32, P)>,
    pub(crate) rest: R,
}

/// Enters the parts of pieces in a map, and tells a gate of each that entered.
#[derive(Drop)]
pub(crate) struct Enters<'a, J: Piecework, G> {
    pub(crate) map: &'a ShardMap<J>,
    pub(crate) phase: Phase,
    pub(crate) gate: &'a G,
}

impl<'a, J: Parts, G: Gate> Enters<'a, J, G> {
    /// Tries once to enter a part.
    pub(crate) fn enter(
        &self,
        seat: &mut MapSeat<J>,
        shard: u32,
        piece: u32,
        part: J::Part,
    ) -> Entering<J::Part>
    where
        J::Part: Drop,
        requires seat { IsSeatOf self.now.map.now seat.old }
        requires range { (shard < J.shard_count self.now.map.now.job) × (piece < J.count self.now.map.now.job) }
        requires part { (J.fails self.now.map.now.job piece ≡ false) × (part ≡ J.part self.now.map.now.job shard piece) }
        ensures seat { IsSeatOf self.now.map.now seat.new }
        ensures grows { Grows seat.old seat.new }
        ensures outcome { MatchEntering result
            (Has seat.new shard piece)
            (λ kept. (kept ≡ part) × (seat.old.view.share ≡ whole → Has seat.new shard piece))
            (λ kept seen. (kept ≡ part) × (seat.old.view.share ≡ whole → ⊥)) }
    {
        let outcome = self.map.try_enter(seat, shard, piece, part);
        self.tell(&outcome, shard, piece);
        outcome
    }

    /// Tells the gate of a part that entered.
    fn tell(&self, outcome: &Entering<J::Part>, shard: u32, piece: u32) {
        if let Entering::Entered = outcome {
            self.gate.entered(self.phase, shard, piece);
        }
    }

    /// Tries to enter a part, again where the shard is busy. Gives back a part that it didn't enter.
    fn try_part(
        &self,
        seat: &mut MapSeat<J>,
        shard: u32,
        piece: u32,
        mut part: J::Part,
    ) -> Option<J::Part>
    where
        J::Part: Drop,
        requires seat { IsSeatOf self.now.map.now seat.old }
        requires range { (shard < J.shard_count self.now.map.now.job) × (piece < J.count self.now.map.now.job) }
        requires part { (J.fails self.now.map.now.job piece ≡ false) × (part ≡ J.part self.now.map.now.job shard piece) }
        ensures seat { IsSeatOf self.now.map.now seat.new }
        ensures grows { Grows seat.old seat.new }
        ensures outcome { MatchOption result (Has seat.new shard piece) (λ kept. kept ≡ J.part self.now.map.now.job shard piece) }
    {
        for _ in 0..TRIES {
            match self.enter(seat, shard, piece, part) {
                Entering::Entered => return None,
                Entering::Filled { part: kept } => return Some(kept),
                Entering::Busy {
                    part: kept,
                    seen: _,
                } => part = kept,
            }
        }
        Some(part)
    }

    /// Enters a part, or keeps it.
    fn enter_next(
        &self,
        seat: &mut MapSeat<J>,
        shard: u32,
        piece: u32,
        part: J::Part,
        kept: &mut Vec<(u32, J::Part)>,
    )
    where
        J::Part: Drop,
        requires seat { IsSeatOf self.now.map.now seat.old }
        requires range { (shard < J.shard_count self.now.map.now.job) × (piece < J.count self.now.map.now.job) }
        requires part { (J.fails self.now.map.now.job piece ≡ false) × (part ≡ J.part self.now.map.now.job shard piece) }
        requires room { length kept.old.items < vec_capacity kept.old }
        ensures seat { IsSeatOf self.now.map.now seat.new }
        ensures grows { Grows seat.old seat.new }
        ensures outcome { TookCareOf seat.new shard piece part kept.old.items kept.new.items }
        ensures room { vec_capacity kept.new ≡ vec_capacity kept.old }
    {
        if let Some(part) = self.try_part(seat, shard, piece, part) {
            kept.push_reserved((shard, part));
        }
    }

    /// Enters the parts of a piece, and gives back those that it kept, for which room is made first.
    fn enter_parts(
        &self,
        alloc: Global,
        seat: &mut MapSeat<J>,
        piece: u32,
        parts: Vec<J::Part>,
    ) -> Result<Vec<(u32, J::Part)>, AllocError>
    where
        J::Part: Drop,
        requires seat { IsSeatOf self.now.map.now seat.old }
        requires piece { (piece < J.count self.now.map.now.job) × (J.fails self.now.map.now.job piece ≡ false) }
        requires parts { AreParts (J.shard_count self.now.map.now.job) (J.part self.now.map.now.job) piece parts.items }
        ensures seat { IsSeatOf self.now.map.now seat.new }
        ensures grows { Grows seat.old seat.new }
        ensures kept { IfOk result (λ kept. All (IsKept (J.shard_count self.now.map.now.job) (J.part self.now.map.now.job) piece) kept.items) }
        ensures covered { IfOk result (λ kept. IsCovered (J.shard_count self.now.map.now.job) seat.new piece kept.items) }
    {
        let mut kept = Vec::with_capacity(alloc, self.map.shards() as usize)?;
        let mut shard = 0;
        for part in parts {
            self.enter_next(seat, shard, piece, part, &mut kept);
            shard += 1;
        }
        Ok(kept)
    }
}

impl<'a, J: Parts, G: Gate> Work<J> for Enters<'a, J, G>
where
    J::Part: Drop,
    J::Rest: Drop,
{
    type Answer = Answer<J::Part, J::Rest>;

    type Error = ();

    type Seat = MapSeat<J>;

    ghost use Rattle.std.specs.Prelude.{◌≡◌, All, refl};
    ghost use Rattle.shard_map.specs.Seats.{IsSeatOf};
    ghost use Rattle.steal_pool.specs.Works.{NoneFails};
    ghost use Rattle.phase_enter.specs.Entries.{Grows, grows_itself, grows_then, IsKept, IsCovered};

    ghost fits = { λ w j s. NoneFails (J.count j) (J.fails j) × (w.map.now.job ≡ j) × IsSeatOf w.map.now s };

    ghost good = { λ w j piece answer. (answer.rest ≡ J.rest j piece) × All (IsKept (J.shard_count j) (J.part j) piece) answer.kept.items };

    ghost bad = { λ w j piece error. Unit {0} };

    ghost done = { λ w s piece answer. IsCovered (J.shard_count w.map.now.job) s piece answer.kept.items };

    ghost same = { λ w s t. Grows s t };

    fn perform(
        &self,
        alloc: Global,
        job: &J,
        seat: &mut MapSeat<J>,
        piece: u32,
    ) -> Result<Answer<J::Part, J::Rest>, WorkStop<()>> {
        let Ok((parts, rest)) = job.parts(alloc, piece) else {
            return Err(WorkStop::OutOfMemory);
        };
        let Ok(kept) = self.enter_parts(alloc, seat, piece, parts) else {
            return Err(WorkStop::OutOfMemory);
        };
        Ok(Answer { kept, rest })
    }

    ghost same_itself = { λ w s. grows_itself s };

    ghost same_then = { λ w a b c p q. grows_then a b c p q };
}
