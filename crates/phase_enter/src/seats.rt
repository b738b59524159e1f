//! A seat for each worker, and all of them in one again.
ghost use Rattle.std.specs.Prelude.{◌≡◌, ◌+◌, ◌<◌, ◌≤◌, All, IfOk, OnOk, length, vec_len};
ghost use Rattle.shard_map.specs.Seats.{IsSeatOf};
ghost use Rattle.phase_enter.specs.Entries.{shares, halved, Joined};

use job_core::Piecework;
use shard_map::{MapSeat, ShardMap};
use std::alloc::{AllocError, Global};

/// Splits so many seats off a seat.
pub(crate) fn split_all<J: Piecework>(
    alloc: Global,
    map: &ShardMap<J>,
    seat: &mut MapSeat<J>,
    workers: u32,
) -> Result<Vec<MapSeat<J>>, AllocError>
where
    J::Part: Drop,
    requires seat { IsSeatOf map.now seat.old }
    requires share { halved workers ≤ seat.old.view.share }
    ensures seat { OnOk result (IsSeatOf map.now seat.new) }
    ensures count { IfOk result (λ made. vec_len made ≡ workers) }
    ensures seats { IfOk result (λ made. All (IsSeatOf map.now) made.items) }
    ensures share { IfOk result (λ made. seat.new.view.share + shares made.items ≡ seat.old.view.share) }
{
    let mut seats = Vec::with_capacity(alloc, workers as usize)?;
    for _ in 0..workers {
        seats.push(map.split(seat)?)?;
    }
    Ok(seats)
}

/// Joins the other seats into a seat.
pub(crate) fn join_all<J: Piecework>(
    map: &ShardMap<J>,
    seat: &mut MapSeat<J>,
    others: Vec<MapSeat<J>>,
)
where
    J::Part: Drop,
    requires seat { IsSeatOf map.now seat.old }
    requires others { All (IsSeatOf map.now) others.items }
    ensures seat { IsSeatOf map.now seat.new }
    ensures joined { Joined seat.old others.items seat.new }
{
    for other in others {
        map.join(seat, other);
    }
}
