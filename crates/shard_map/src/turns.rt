//! The steps of a call on one shard.
ghost use Rattle.std.specs.Prelude.{◌≡◌, ◌≢◌, ℕ, ◌+◌, ◌%◌, ◌<◌, ◌≤◌, [], ◌∷◌, length, true, false, None, Some, Contains, MatchOption, MatchResult, insert, vec_capacity};
ghost use Rattle.shard_map.specs.Views.{covers, Rises, spans, new_pieces, pairs_of, has_read, has_taken, has_ended, keep_of, whole};
ghost use Rattle.shard_map.specs.Rule.{Learns, IsRun};

use crate::handles::ShardMap;
use crate::runs::put;
use crate::view::{Ends, Reads, Takes, View};
use atomic_table::Seat;
use job_core::Piecework;

impl<J: Piecework> ShardMap<J> {
    /// Reads the word of a shard.
    pub(crate) fn look(&self, seat: &mut Seat<Option<Vec<J::Part>>, View<J>>, shard: u32) -> u64
        requires seat { (seat.old.table_id ≡ self.now.which) × (seat.old.me.1 ≡ []) × (seat.old.me.0.turn ≡ None) }
        requires range { shard < J.shard_count self.now.job }
        ensures same { seat.new.table_id ≡ seat.old.table_id }
        ensures read { (seat.new.me.1 ≡ []) × (seat.new.me.0 ≡ has_read seat.old.me.0 shard result) }
        ensures whole { seat.old.me.0.share ≡ whole → result % 2 ≡ 0 }
    {
        self.table.shared.load::<Reads>(seat, shard as usize)
    }

    /// Takes the turn of a shard from an even word, and the runs out of its slot.
    ///
    /// # Errors
    ///
    /// What the word was, where it had changed.
    pub(crate) fn take_turn(
        &self,
        seat: &mut Seat<Option<Vec<J::Part>>, View<J>>,
        shard: u32,
        even: u64,
    ) -> Result<Vec<J::Part>, u64>
        requires seat { (seat.old.table_id ≡ self.now.which) × (seat.old.me.1 ≡ []) × (seat.old.me.0.turn ≡ None) × (seat.old.me.0.job ≡ Some self.now.job) }
        requires range { (shard < J.shard_count self.now.job) × (shard < length seat.old.me.0.keeps) }
        requires some { 0 < seat.old.me.0.share }
        requires even { even % 2 ≡ 0 }
        ensures same { seat.new.table_id ≡ seat.old.table_id }
        ensures took { MatchResult result
            (λ runs. (seat.new.me.1 ≡ (shard, None) ∷ []) × (seat.new.me.0 ≡ has_taken seat.old.me.0 shard even (even + 1) (spans J.Part.start_of J.Part.end_of runs.items)) × Learns J.count J.shard_count J.fails J.part J.Part.start_of J.Part.end_of J.Part.both self.now.job seat.old.me.0 shard runs)
            (λ found. (seat.new.me.1 ≡ []) × (seat.new.me.0 ≡ has_read seat.old.me.0 shard found) × (found ≢ even) × (seat.old.me.0.share ≡ whole → (keep_of seat.old.me.0 shard).left ≢ Some even)) }
    {
        let at = shard as usize;
        let shared = &self.table.shared;
        let found = shared.compare_exchange::<Takes>(seat, at, even, even + 1);
        if found != even {
            return Err(found);
        }
        Ok(shared.exchange(seat, at, None).unwrap())
    }

    /// Puts the runs back and gives the turn back.
    pub(crate) fn end_turn(
        &self,
        seat: &mut Seat<Option<Vec<J::Part>>, View<J>>,
        shard: u32,
        runs: Vec<J::Part>,
    )
    where
        J::Part: Drop,
        requires seat { (seat.old.table_id ≡ self.now.which) × (seat.old.me.1 ≡ (shard, None) ∷ []) × (seat.old.me.0.turn ≡ Some shard) }
        requires range { shard < J.shard_count self.now.job }
        requires some { 0 < seat.old.me.0.share }
        requires rises { Rises 0 (spans J.Part.start_of J.Part.end_of runs.items) }
        requires own { (x : J.Part) → Contains runs.items x → IsRun J.count J.shard_count J.fails J.part J.Part.start_of J.Part.end_of J.Part.both self.now.job shard x }
        requires room { J.count self.now.job < vec_capacity runs }
        requires grows { (p : ℕ) → covers (keep_of seat.old.me.0 shard).began p ≡ true → covers (spans J.Part.start_of J.Part.end_of runs.items) p ≡ true }
        ensures same { seat.new.table_id ≡ seat.old.table_id }
        ensures ended { (seat.new.me.1 ≡ []) × (left : ℕ) × (seat.new.me.0 ≡ has_ended seat.old.me.0 shard left (spans J.Part.start_of J.Part.end_of runs.items) (pairs_of shard (new_pieces (keep_of seat.old.me.0 shard).began (spans J.Part.start_of J.Part.end_of runs.items)))) }
    {
        let at = shard as usize;
        let shared = &self.table.shared;
        drop(shared.exchange(seat, at, Some(runs)));
        shared.fetch_add::<Ends>(seat, at, 1);
    }

    /// Puts the part in its place among the runs, gives them and the turn back, and hands the part back where its place
    /// was filled.
    pub(crate) fn use_turn(
        &self,
        seat: &mut Seat<Option<Vec<J::Part>>, View<J>>,
        shard: u32,
        piece: u32,
        part: J::Part,
        mut runs: Vec<J::Part>,
    ) -> Option<J::Part>
    where
        J::Part: Drop,
        requires seat { (seat.old.table_id ≡ self.now.which) × (seat.old.me.1 ≡ (shard, None) ∷ []) × (seat.old.me.0.turn ≡ Some shard) }
        requires range { (shard < J.shard_count self.now.job) × (piece < J.count self.now.job) }
        requires some { 0 < seat.old.me.0.share }
        requires part { (J.fails self.now.job piece ≡ false) × (part ≡ J.part self.now.job shard piece) }
        requires began { (keep_of seat.old.me.0 shard).began ≡ spans J.Part.start_of J.Part.end_of runs.items }
        requires rises { Rises 0 (spans J.Part.start_of J.Part.end_of runs.items) }
        requires own { (x : J.Part) → Contains runs.items x → IsRun J.count J.shard_count J.fails J.part J.Part.start_of J.Part.end_of J.Part.both self.now.job shard x }
        requires room { J.count self.now.job < vec_capacity runs }
        ensures same { seat.new.table_id ≡ seat.old.table_id }
        ensures carried { seat.new.me.1 ≡ [] }
        ensures ended { (left : ℕ) × MatchOption result
            ((covers (keep_of seat.old.me.0 shard).began piece ≡ false) × (at : ℕ) × (seat.new.me.0 ≡ has_ended seat.old.me.0 shard left (insert (keep_of seat.old.me.0 shard).began at (piece, piece + 1)) ((shard, piece) ∷ [])))
            (λ kept. (kept ≡ part) × (covers (keep_of seat.old.me.0 shard).began piece ≡ true) × (seat.new.me.0 ≡ has_ended seat.old.me.0 shard left (keep_of seat.old.me.0 shard).began [])) }
    {
        let kept = put(&mut runs, piece, part);
        self.end_turn(seat, shard, runs);
        kept
    }
}
