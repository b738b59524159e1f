// The map in shards, on one thread: two seats that take turns in each order.
ghost use Rattle.std.specs.Prelude.{◌≡◌, ◌<◌};
ghost use Rattle.shard_map.specs.Seats.{IsSeatOf};

use crate::job::Span;
use crate::spread::Spread;
use shard_map::{Entering, MapSeat, ShardMap};
use std::alloc::{AllocError, Global};
use std::test::Fail;

/// What a try came to.
#[derive(Clone, Copy, Debug, PartialEq, Eq)]
enum Came {
    Entered,
    Filled,
    Busy,
    /// The part that was handed back isn't the one that was given.
    Wrong,
}

/// What is told, where the part that was handed back is that of the piece.
fn handed_back(part: Span, piece: u32, came: Came) -> Came {
    if part.first == piece && part.end > piece {
        came
    } else {
        Came::Wrong
    }
}

/// Tries once to enter a piece in a shard.
fn enter(map: &ShardMap<Spread>, seat: &mut MapSeat<Spread>, shard: u32, piece: u32) -> Came
    requires seat { IsSeatOf map.now seat.old }
    requires range { (shard < map.now.job.shards) × (piece < map.now.job.pieces) × (piece < 100) }
    ensures seat { IsSeatOf map.now seat.new }
{
    let part = Span {
        first: piece,
        end: piece + 1,
    };
    match map.try_enter(seat, shard, piece, part) {
        Entering::Entered => Came::Entered,
        Entering::Filled { part } => handed_back(part, piece, Came::Filled),
        Entering::Busy { part, seen: _ } => handed_back(part, piece, Came::Busy),
    }
}

/// One of the two seats enters a pair, and then the other one tries it. Whether they came to what they should.
fn enter_by_one(
    map: &ShardMap<Spread>,
    first: &mut MapSeat<Spread>,
    second: &mut MapSeat<Spread>,
    shard: u32,
    piece: u32,
) -> bool
    requires seats { IsSeatOf map.now first.old × IsSeatOf map.now second.old }
    requires range { (shard < map.now.job.shards) × (piece < map.now.job.pieces) × (piece < 100) }
    ensures seats { IsSeatOf map.now first.new × IsSeatOf map.now second.new }
{
    let came = enter(map, first, shard, piece);
    let again = enter(map, second, shard, piece);
    let listed = map.entered(first, shard, piece) && !map.entered(second, shard, piece);
    came == Came::Entered && again == Came::Filled && listed
}

/// Enters the pairs of two shards and three pieces in an order and by seats that the number tells.
fn enter_all_by(
    map: &ShardMap<Spread>,
    a: &mut MapSeat<Spread>,
    b: &mut MapSeat<Spread>,
    number: u32,
) -> bool
    requires seats { IsSeatOf map.now a.old × IsSeatOf map.now b.old }
    requires job { (map.now.job.shards ≡ 2) × (map.now.job.pieces ≡ 3) }
    requires number { number < 64 }
    ensures seats { IsSeatOf map.now a.new × IsSeatOf map.now b.new }
{
    let mut fine = true;
    for turn in 0..6u32 {
        let pair = (turn * 5 + number) % 6;
        let was_fine = if (number >> turn) % 2 == 0 {
            enter_by_one(map, a, b, pair / 3, pair % 3)
        } else {
            enter_by_one(map, b, a, pair / 3, pair % 3)
        };
        fine = fine && was_fine;
    }
    fine
}

/// Whether a shard has the pieces 0, 1 and 2, in order.
fn has_three(runs: &Vec<Span>) -> bool {
    runs.len() == 3
        && runs.iter().enumerate().all(|(place, run)| run.first as usize == place
            && run.end as usize == place + 1)
}

/// Two seats enter all pairs, one takes in the other, and the map is closed.
fn run(alloc: Global, number: u32) -> Result<bool, AllocError>
    requires { number < 64 }
{
    let job = Spread {
        pieces: 3,
        shards: 2,
    };
    let (map, mut a) = ShardMap::open(alloc, &job)?;
    let mut b = map.split(&mut a)?;
    let fine = enter_all_by(&map, &mut a, &mut b, number);
    map.join(&mut a, b);
    let whole = a.share() == 1 << 40 && map.entered(&a, 1, 2) && !map.entered(&a, 2, 0);
    let lists = map.close(a);
    Ok(fine && whole && lists.len() == 2 && lists.iter().all(has_three))
}

#[test]
fn two_seats_in_each_order(rt: HostRuntime) -> Result<(), Fail> {
    for number in 0..64u32 {
        let fine = run(rt.alloc(), number)?;
        assert!(rt; fine);
    }
    Ok(())
}

/// A seat that has half of the share closes; the other was let go.
#[test]
fn a_seat_that_is_not_whole_closes(rt: HostRuntime) -> Result<(), Fail> {
    let job = Spread {
        pieces: 3,
        shards: 1,
    };
    let (map, mut a) = ShardMap::open(rt.alloc(), &job)?;
    let mut b = map.split(&mut a)?;
    let first = enter(&map, &mut a, 0, 2);
    let second = enter(&map, &mut b, 0, 0);
    drop(a);
    let half = b.share();
    let lists = map.close(b);
    assert!(rt; first == Came::Entered && second == Came::Entered && half == 1 << 39);
    assert!(rt; lists.len() == 1 && lists[0].len() == 2 && lists[0][1].first == 2);
    Ok(())
}

/// A seat enters what others left, one of which was let go. What that one entered stays.
#[test]
fn a_seat_enters_what_others_left(rt: HostRuntime) -> Result<(), Fail> {
    let job = Spread {
        pieces: 3,
        shards: 1,
    };
    let (map, mut a) = ShardMap::open(rt.alloc(), &job)?;
    let mut b = map.split(&mut a)?;
    let mut c = map.split(&mut a)?;
    let first = enter(&map, &mut b, 0, 1) == Came::Entered
        && enter(&map, &mut c, 0, 2) == Came::Entered;
    map.join(&mut a, b);
    drop(c);
    let again = enter(&map, &mut a, 0, 1) == Came::Filled
        && enter(&map, &mut a, 0, 2) == Came::Filled;
    let last = enter(&map, &mut a, 0, 0);
    let lists = map.close(a);
    assert!(rt; first && again && last == Came::Entered);
    assert!(rt; lists.len() == 1 && lists.iter().all(has_three));
    Ok(())
}
