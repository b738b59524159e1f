//! How a map ends.
ghost use Rattle.std.specs.Prelude.{◌≡◌, ℕ, ◌≤◌, [], map, vec_len, vec_capacity};
ghost use Rattle.std.specs.Mem.Slots.{slots_items, slots_len, IsFull};
ghost use Rattle.shard_map.specs.Rule.{home_runs, gathered, IsClosed};
ghost use Rattle.shard_map.specs.Seats.{IsSeatOf};

use crate::handles::{MapSeat, ShardMap};
use atomic_table::Closed;
use job_core::Piecework;
use std::alloc::Global;

/// The runs of a slot that is at home, or none where a seat was let go in the middle of its turn.
fn runs_of<P: Drop>(alloc: Global, word: u64, slot: Option<Vec<P>>) -> Vec<P>
    ensures { result.items ≡ home_runs word slot }
{
    let Some(runs) = slot else {
        return Vec::new(alloc);
    };
    if word % 2 == 0 { runs } else { Vec::new(alloc) }
}

/// The runs of each shard, laid into the lists, for which there is room.
fn take_all<P: Drop>(
    alloc: Global,
    mut closed: Closed<Option<Vec<P>>, Global>,
    mut lists: Vec<Vec<P>>,
) -> Vec<Vec<P>>
    requires counts { slots_len closed.words ≡ slots_len closed.slots }
    requires full { IsFull closed.words × IsFull closed.slots }
    requires room { (lists.items ≡ []) × (slots_len closed.slots ≤ vec_capacity lists) }
    ensures { map (λ runs. runs.items) result.items ≡ gathered (slots_items closed.words) (slots_items closed.slots) }
{
    for at in 0..closed.slot_count() {
        let word = closed.word(at);
        let slot = closed.take(at);
        lists.push_reserved(runs_of(alloc, word, slot));
    }
    closed.free();
    lists
}

impl<J: Piecework> ShardMap<J> {
    /// The runs of each shard, in order of shards: they ascend, stand apart, and each covers at least one piece and is just
    /// what the job's parts of its pieces come to. Where the seat is whole, each pair of its list is in just one run.
    pub fn close(self, seat: MapSeat<J>) -> Vec<Vec<J::Part>>
    where
        J::Part: Drop,
        requires seat { IsSeatOf self seat }
        ensures { IsClosed J.count J.shard_count J.fails J.part J.Part.start_of J.Part.end_of J.Part.both self.job seat.view (map (λ runs. runs.items) result.items) }
    {
        let ShardMap {
            table,
            pieces: _,
            shards: _,
            alloc,
        } = self;
        let MapSeat {
            seat,
            share: _,
            pieces: _,
            marks,
            lists,
        } = seat;
        drop(marks);
        take_all(alloc, table.close_with(seat), lists)
    }
}
