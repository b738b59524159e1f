//! How a map is made.
ghost use Rattle.std.specs.Prelude.{◌≡◌, ℕ, ◌+◌, ◌<◌, ◌≤◌, All, length, IfOk, vec_len};
ghost use Rattle.shard_map.specs.Views.{opened};
ghost use Rattle.shard_map.specs.Rule.{IsFresh};
ghost use Rattle.shard_map.specs.Seats.{IsSeatOf};

use crate::handles::{MapSeat, ShardMap};
use crate::marks::blank;
use atomic_table::Table;
use job_core::Piecework;
use std::alloc::{AllocError, Global};

/// The share of the first seat: all of it.
const WHOLE: u64 = 1 << 40;

/// The most shards that a job may have here.
const MOST_SHARDS: usize = 64;

/// A slot without runs for each shard, with room in each.
fn new_slots<P: Drop>(
    alloc: Global,
    shards: usize,
    room: usize,
) -> Result<Vec<Option<Vec<P>>>, AllocError>
    ensures count { IfOk result (λ slots. length slots.items ≡ shards) }
    ensures fresh { IfOk result (λ slots. All (IsFresh room) slots.items) }
{
    let mut slots = Vec::with_capacity(alloc, shards)?;
    for _ in 0..shards {
        slots.push(Some(Vec::with_capacity(alloc, room)?))?;
    }
    Ok(slots)
}

impl<J: Piecework> ShardMap<J> {
    /// The map of a job, into which nothing came yet, and its first seat, which has all of the share and an empty list.
    /// All memory that entering takes is taken here: in each shard there is a place for each piece.
    ///
    /// # Errors
    ///
    /// `AllocError` where there is no memory.
    pub fn open(alloc: Global, job: &J) -> Result<(ShardMap<J>, MapSeat<J>), AllocError>
    where
        J::Part: Drop,
        requires shards { (0 < J.shard_count job.now) × (J.shard_count job.now ≤ 64) }
        requires pieces { J.count job.now ≤ 4096 }
        ensures { IfOk result (λ made. IsSeatOf made.0 made.1 × (made.0.job ≡ job.now) × (made.1.view ≡ opened job.now (J.shard_count job.now))) }
    {
        let pieces = job.pieces();
        let shards = job.shards();
        let marks = blank(alloc, shards as usize * pieces as usize)?;
        let lists = Vec::with_capacity(alloc, shards as usize)?;
        let slots = new_slots(alloc, shards as usize, pieces as usize + 1)?;
        let words = [0u64; MOST_SHARDS];
        match Table::new(alloc, &words[..shards as usize], slots, job) {
            Ok((table, seat)) => {
                let map = ShardMap {
                    table,
                    pieces,
                    shards,
                    alloc,
                };
                let seat = MapSeat {
                    seat,
                    share: WHOLE,
                    pieces,
                    marks,
                    lists,
                };
                Ok((map, seat))
            }
            Err(_) => Err(AllocError),
        }
    }
}
