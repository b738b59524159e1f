//! Performs a job in pieces, so that `bench/calls.py` can measure what threads gain and cost.
//!
//! `pool_bench PIECES ROUNDS WORKERS SHARDS` performs so many pieces, each so many rounds of arithmetic, by so many
//! workers. With shards, each piece's parts enter a map, which is then closed. It writes how many parts are in the map,
//! or how many answers came where there are no shards, and the nanoseconds that it took to standard error. It ends with
//! status 1 where it can't.
#![tactic(auto)]

ghost use Rattle.std.specs.Prelude.{◌≡◌, ◌<◌, ◌≤◌, IfSome};

mod grind;

use grind::{Grind, Rounds};
use ld_io::{OpenGate, Phase};
use phase_enter::{AllEntered, enter_all};
use shard_map::ShardMap;
use std::alloc::Global;
use std::env;
use std::process::ExitCode;
use std::sync::Wait;
use std::thread::Threads;
use std::time::Instant;
use steal_pool::run_pieces;

fn main(rt: HostRuntime) -> ExitCode {
    let Some((job, workers)) = words(&rt) else {
        return ExitCode::FAILURE;
    };
    let Ok(start) = Instant::now(&rt) else {
        return ExitCode::FAILURE;
    };
    let Some(count) = performed(&rt, rt.alloc(), &job, workers) else {
        return ExitCode::FAILURE;
    };
    match tell(&rt, count, start) {
        Some(()) => ExitCode::SUCCESS,
        None => ExitCode::FAILURE,
    }
}

/// The job that the words tell, and the number of workers.
fn words(rt: &HostRuntime) -> Option<(Grind, u32)>
    ensures { IfSome result (λ told. (told.0.pieces ≤ 4096) × (told.0.shards ≤ 64) × (0 < told.1) × (told.1 ≤ 16)) }
{
    let job = Grind {
        pieces: number(rt, 1)?,
        rounds: number(rt, 2)?,
        shards: number(rt, 4)?,
    };
    let workers = number(rt, 3)?;
    if job.pieces > 4096 || job.shards > 64 || workers == 0 || workers > 16 {
        return None;
    }
    Some((job, workers))
}

/// Writes what came of the job, and how long it took.
fn tell(rt: &HostRuntime, count: usize, start: Instant) -> Option<()> {
    let time = start.elapsed(rt).ok()?.as_nanos();
    println!(rt; "{count}").ok()?;
    eprintln!(rt; "{time}").ok()
}

/// The word of that number, as a number.
fn number(rt: &HostRuntime, at: usize) -> Option<u32> {
    env::args(rt).ok()?.nth(at)?.as_str().parse::<u32>().ok()
}

/// How many parts, or answers, come of the job.
fn performed<R: Threads + Wait + Sync>(
    rt: &R,
    alloc: Global,
    job: &Grind,
    workers: u32,
) -> Option<usize>
    requires workers { (0 < workers) × (workers ≤ 16) }
    requires job { (job.now.pieces ≤ 4096) × (job.now.shards ≤ 64) }
{
    if job.shards == 0 {
        return answered(rt, alloc, job, workers);
    }
    let (map, seat) = ShardMap::open(alloc, job).ok()?;
    let AllEntered { seat, rests: _ } = enter_all(
        rt,
        alloc,
        job,
        Phase::Map,
        workers,
        &map,
        seat,
        &OpenGate,
    ).ok()?;
    let mut count = 0usize;
    for runs in &map.close(seat) {
        count = count.saturating_add(runs.len());
    }
    Some(count)
}

/// How many pieces were answered.
fn answered<R: Threads + Wait + Sync>(
    rt: &R,
    alloc: Global,
    job: &Grind,
    workers: u32,
) -> Option<usize>
    requires workers { (0 < workers) × (workers ≤ 16) }
    requires job { job.now.pieces ≤ 4096 }
{
    let seats = vec![in alloc; (); workers as usize].ok()?;
    let ran = run_pieces(rt, alloc, job, Phase::Expand, &Rounds, seats, &OpenGate).ok()?;
    Some(ran.answers.len())
}
