// Jobs whose parts enter a map, with workers in threads.
ghost use Rattle.std.specs.Prelude.{◌≡◌, ◌<◌, ◌≤◌};

use crate::patched::{Patch, Patched, fills};
use crate::watch::Watch;
use ld_io::{Gate, OpenGate, Phase};
use phase_enter::{AllEntered, enter_all};
use shard_map::ShardMap;
use std::alloc::{AllocError, Global};
use std::sync::Wait;
use std::sync::atomic::Ordering;
use std::test::Fail;
use std::thread::Threads;

/// Whether a run is the part that the piece of that number gives to a shard.
fn is_part(run: &Patch, shard: usize, place: usize) -> bool {
    let Ok(shard) = u32::try_from(shard) else {
        return false;
    };
    run.first as usize == place
        && u64::from(run.end) == u64::from(run.first) + 1
        && run.filled == fills(shard, run.first)
}

/// Whether a shard has the part of each piece, in order.
fn has_all(runs: &Vec<Patch>, shard: usize, pieces: u32) -> bool {
    runs.len() == pieces as usize
        && runs
            .iter()
            .enumerate()
            .all(|(place, run)| is_part(run, shard, place))
}

fn are_in_order(rests: &[u32]) -> bool {
    rests
        .iter()
        .enumerate()
        .all(|(place, rest)| *rest as usize == place)
}

/// Enters all parts of a job, and closes the map. Whether all of them are there, in order, and the seat has the whole share.
fn run<G: Gate + Sync, R: Threads + Wait + Sync>(
    rt: &R,
    alloc: Global,
    job: &Patched,
    workers: u32,
    gate: &G,
) -> Result<bool, AllocError>
    requires workers { (0 < workers) × (workers ≤ 16) }
    requires shards { (0 < job.now.shards) × (job.now.shards ≤ 64) }
    requires pieces { job.now.pieces ≤ 4096 }
{
    let (map, seat) = ShardMap::open(alloc, job)?;
    let AllEntered { seat, rests } = enter_all(
        rt,
        alloc,
        job,
        Phase::Map,
        workers,
        &map,
        seat,
        gate,
    )?;
    let whole = seat.share() == 1 << 40;
    let lists = map.close(seat);
    let entered = lists
        .iter()
        .enumerate()
        .all(|(shard, runs)| has_all(runs, shard, job.pieces));
    Ok(
        whole
            && entered
            && lists.len() == job.shards as usize
            && rests.len() == job.pieces as usize
            && are_in_order(rests.as_slice()),
    )
}

/// A job that is refused no memory.
fn patched(pieces: u32, shards: u32) -> Patched
    ensures pieces { result.pieces ≡ pieces }
    ensures shards { result.shards ≡ shards }
{
    Patched {
        pieces,
        shards,
        refused_at: None,
    }
}

/// Workers, pieces and shards at the ends.
const SIZES: [(u32, u32, u32); 7] = [
    (1, 0, 1),
    (16, 0, 64),
    (16, 1, 1),
    (16, 1, 64),
    (1, 4096, 1),
    (16, 4096, 2),
    (4, 100, 64),
];

#[test]
fn jobs_at_the_ends_enter(rt: HostRuntime) -> Result<(), Fail> {
    for (workers, pieces, shards) in &SIZES {
        let job = patched(*pieces, *shards);
        let entered = run(&rt, rt.alloc(), &job, *workers, &OpenGate)?;
        assert!(rt; entered);
    }
    Ok(())
}

/// Whether all parts enter in 250 runs with 16 workers, of pieces and shards that follow from the number.
fn all_enter<R: Threads + Wait + Sync>(
    rt: &R,
    alloc: Global,
    from: u32,
) -> Result<bool, AllocError> {
    let mut state = from;
    for _ in 0..250u32 {
        state = state.wrapping_mul(1_664_525).wrapping_add(1_013_904_223);
        let job = patched(state >> 26, (state >> 18) % 16 + 1);
        if !run(rt, alloc, &job, 16, &OpenGate)? {
            return Ok(false);
        }
    }
    Ok(true)
}

#[test]
fn all_parts_enter_in_250_runs(rt: HostRuntime) -> Result<(), Fail> {
    assert!(rt; all_enter(&rt, rt.alloc(), 1)?);
    Ok(())
}

#[test]
fn all_parts_enter_in_the_next_250_runs(rt: HostRuntime) -> Result<(), Fail> {
    assert!(rt; all_enter(&rt, rt.alloc(), 2)?);
    Ok(())
}

#[test]
fn all_parts_enter_in_further_250_runs(rt: HostRuntime) -> Result<(), Fail> {
    assert!(rt; all_enter(&rt, rt.alloc(), 3)?);
    Ok(())
}

#[test]
fn all_parts_enter_in_the_last_250_runs(rt: HostRuntime) -> Result<(), Fail> {
    assert!(rt; all_enter(&rt, rt.alloc(), 4)?);
    Ok(())
}

#[test]
fn want_of_memory_in_any_piece_ends_the_entering(rt: HostRuntime) -> Result<(), Fail> {
    for piece in 0..20u32 {
        let job = Patched {
            pieces: 20,
            shards: 3,
            refused_at: Some(piece),
        };
        let entered = run(&rt, rt.alloc(), &job, 4, &OpenGate);
        assert!(rt; entered.is_err());
    }
    Ok(())
}

/// One worker is held in piece 0 until another has ended piece 1, whose parts were entered by then.
#[test]
fn parts_enter_while_another_worker_is_held(rt: HostRuntime) -> Result<(), Fail> {
    let gate = Watch::new();
    let entered = run(&rt, rt.alloc(), &patched(4, 16), 2, &gate)?;
    assert!(rt; entered && gate.met.load(Ordering::SeqCst) == 1);
    assert!(rt; gate.entered.load(Ordering::SeqCst) == 64);
    assert!(rt; gate.in_time.load(Ordering::SeqCst) == 16);
    Ok(())
}
