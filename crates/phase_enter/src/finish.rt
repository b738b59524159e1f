//! What is done when the workers have ended.
ghost use Rattle.std.specs.Prelude.{◌≡◌, ℕ, ◌<◌, ◌≤◌, [], false, All, length, vec_capacity};
ghost use Rattle.shard_map.specs.Seats.{IsSeatOf};
ghost use Rattle.shard_map.specs.Views.{whole};
ghost use Rattle.steal_pool.specs.Works.{NoneFails};
ghost use Rattle.phase_enter.specs.Entries.{Has, Grows, HasAll, IsKept, AreEntered, AreRests, AreAnswers};

use crate::enters::{Answer, Enters};
use crate::parts::Parts;
use ld_io::Gate;
use shard_map::MapSeat;

impl<'a, J: Parts, G: Gate> Enters<'a, J, G> {
    /// Enters a part with the seat that has the whole share, unless its pair is in the seat's list.
    fn finish_part(&self, seat: &mut MapSeat<J>, shard: u32, piece: u32, part: J::Part)
    where
        J::Part: Drop,
        requires seat { IsSeatOf self.now.map.now seat.old × (seat.old.view.share ≡ whole) }
        requires range { (shard < J.shard_count self.now.map.now.job) × (piece < J.count self.now.map.now.job) }
        requires part { (J.fails self.now.map.now.job piece ≡ false) × (part ≡ J.part self.now.map.now.job shard piece) }
        ensures seat { IsSeatOf self.now.map.now seat.new × (seat.new.view.share ≡ whole) }
        ensures grows { Grows seat.old seat.new }
        ensures has { Has seat.new shard piece }
    {
        if !self.map.entered(seat, shard, piece) {
            self.enter(seat, shard, piece, part);
        }
    }

    /// Enters the parts of a piece that were kept.
    fn finish_piece(&self, seat: &mut MapSeat<J>, piece: u32, kept: Vec<(u32, J::Part)>)
    where
        J::Part: Drop,
        requires seat { IsSeatOf self.now.map.now seat.old × (seat.old.view.share ≡ whole) }
        requires piece { (piece < J.count self.now.map.now.job) × (J.fails self.now.map.now.job piece ≡ false) }
        requires kept { All (IsKept (J.shard_count self.now.map.now.job) (J.part self.now.map.now.job) piece) kept.items }
        ensures seat { IsSeatOf self.now.map.now seat.new × (seat.new.view.share ≡ whole) }
        ensures grows { Grows seat.old seat.new }
        ensures has { AreEntered seat.new piece kept.items }
    {
        for (shard, part) in kept {
            self.finish_part(seat, shard, piece, part);
        }
    }

    /// Enters all parts that were kept, and lays the rests into a list, for which there is room.
    pub(crate) fn finish(
        &self,
        seat: &mut MapSeat<J>,
        answers: Vec<(u32, Answer<J::Part, J::Rest>)>,
        mut rests: Vec<J::Rest>,
    ) -> Vec<J::Rest>
    where
        J::Part: Drop,
        J::Rest: Drop,
        requires seat { IsSeatOf self.now.map.now seat.old × (seat.old.view.share ≡ whole) }
        requires fails { NoneFails (J.count self.now.map.now.job) (J.fails self.now.map.now.job) }
        requires answers { AreAnswers (J.shard_count self.now.map.now.job) (J.count self.now.map.now.job) (J.part self.now.map.now.job) (J.rest self.now.map.now.job) seat.old answers.items }
        requires rests { (rests.items ≡ []) × (length answers.items ≤ vec_capacity rests) }
        ensures seat { IsSeatOf self.now.map.now seat.new × (seat.new.view.share ≡ whole) }
        ensures grows { Grows seat.old seat.new }
        ensures has { HasAll (J.shard_count self.now.map.now.job) (J.count self.now.map.now.job) seat.new }
        ensures rests { AreRests (J.count self.now.map.now.job) (J.rest self.now.map.now.job) result.items }
    {
        for (piece, answer) in answers {
            let Answer { kept, rest } = answer;
            self.finish_piece(seat, piece, kept);
            rests.push_reserved(rest);
        }
        rests
    }
}
