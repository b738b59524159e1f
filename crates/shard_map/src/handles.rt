//! The map, and a seat.
use crate::view::{Turns, View};
use atomic_table::{Seat, Table};
use job_core::Piecework;
use std::alloc::Global;
use std::marker::Model;

/// The shards of a job, each with the parts that came into it.
#[derive(Drop)]
pub struct ShardMap<J: Piecework> {
    pub(crate) table: Table<Option<Vec<J::Part>>, View<J>, J, Turns, Global>,
    pub(crate) pieces: u32,
    pub(crate) shards: u32,
    pub(crate) alloc: Global,
}

impl<J: Piecework> Model for ShardMap<J> {
    ghost use Rattle.std.specs.Prelude.{◌≡◌, ◌≤◌, ◌<◌};
    ghost use Rattle.shard_map.specs.Seats.{Shared, shared};

    ghost Value = { Shared J };

    ghost view = { λ m. shared m.table.shared.table_id m.table.shared.key };

    ghost invariant = { λ m. (m.table.shared.table_id.words ≡ J.shard_count m.table.shared.key) × (m.table.shared.table_id.slots ≡ J.shard_count m.table.shared.key) × (m.pieces ≡ J.count m.table.shared.key) × (m.shards ≡ J.shard_count m.table.shared.key) × (0 < m.shards) × (m.shards ≤ 64) × (m.pieces ≤ 4096) };
}

/// The right to enter parts in a [`ShardMap`], with the list of the pairs that it entered. It goes with a worker.
#[derive(Drop)]
pub struct MapSeat<J: Piecework> {
    pub(crate) seat: Seat<Option<Vec<J::Part>>, View<J>>,
    pub(crate) share: u64,
    pub(crate) pieces: u32,
    // a mark for each pair: all pieces of the first shard, then those of the next
    pub(crate) marks: Vec<bool>,
    // room for what `close` gives
    pub(crate) lists: Vec<Vec<J::Part>>,
}

impl<J: Piecework> Model for MapSeat<J> {
    ghost use Rattle.std.specs.Prelude.{◌≡◌, [], vec_capacity};
    ghost use Rattle.shard_map.specs.Seats.{Seen, seen, Fits};

    ghost Value = { Seen J };

    ghost view = { λ s. seen s.seat.table_id s.seat.me.0 };

    ghost invariant = { λ s. (s.seat.me.1 ≡ []) × (s.lists.items ≡ []) × Fits J.count J.shard_count s.seat.me.0 s.share s.pieces s.marks.items (vec_capacity s.lists) };
}
