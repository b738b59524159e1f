//! The call.
ghost use Rattle.std.specs.Prelude.{◌≡◌, ℕ, ◌<◌, ◌≤◌, All, IfOk, MatchResult, length, vec_len};
ghost use Rattle.first_error.specs.Word.{IsSeatOf as IsErrSeatOf};
ghost use Rattle.steal_pool.specs.Pools.{IsSeatOf};
ghost use Rattle.steal_pool.specs.Works.{IfStopped, SameSeats, HasRan, HasFailed};
ghost use Rattle.steal_pool.specs.Workers.{Fine, IsNew};
ghost use Rattle.steal_pool.specs.Gathers.{seats_of, IsGathered};

use crate::crew::Crew;
use crate::finish::finish;
use crate::fork::fork;
use crate::gather::{Gathered, all_back, gather};
use crate::pool::{Pool, PoolSeat};
use crate::work::{Ran, Stop, Work};
use crate::worker::Worker;
use first_error::{ErrSeat, FirstError};
use job_core::Piecework;
use ld_io::{Gate, Phase};
use std::alloc::{AllocError, Global};
use std::sync::Wait;
use std::thread::Threads;

/// A worker for each seat, which has performed nothing.
fn new_workers<P: Piecework, W, G, R, A: Drop, E: Drop, S: Drop>(
    crew: &Crew<P, W, G, R>,
    mut errors: ErrSeat<P>,
    mut pieces: Vec<PoolSeat>,
    seats: Vec<S>,
) -> Result<Vec<Worker<P, A, E, S>>, AllocError>
    requires errors { IsErrSeatOf crew.now.least.now errors }
    requires pieces { All (IsSeatOf crew.now.pool.now) pieces.items }
    requires count { length pieces.items ≡ length seats.items }
    ensures seats { IfOk result (λ workers. seats_of workers.items ≡ seats.items) }
    ensures new { IfOk result (λ workers. All (IsNew crew.now.pool.now crew.now.least.now) workers.items) }
{
    let mut workers = Vec::with_capacity(crew.alloc, seats.len())?;
    for seat in seats {
        workers.push(Worker {
            seat,
            pieces: pieces.pop().unwrap(),
            errors: crew.least.split(&mut errors),
            answers: Vec::new(crew.alloc),
            failure: None,
        })?;
    }
    Ok(workers)
}

/// Lets the workers perform the pieces, each in a thread of its own, and puts together what they have.
fn run_workers<P: Piecework + Sync, W: Work<P> + Sync, G: Gate + Sync, R: Threads + Wait + Sync>(
    crew: &Crew<P, W, G, R>,
    workers: Vec<Worker<P, W::Answer, W::Error, W::Seat>>,
) -> Result<Gathered<W::Answer, W::Error, W::Seat>, AllocError>
where
    P::Part: Send,
    W::Answer: Drop + Send,
    W::Error: Drop + Send,
    W::Seat: Drop + Send,
    requires some { 0 < length workers.items }
    requires job { (crew.now.least.now.job ≡ crew.now.job.now) × (crew.now.pool.now.pieces ≡ P.count crew.now.job.now) }
    requires fits { All (W.fits crew.now.work.now crew.now.job.now) (seats_of workers.items) }
    requires new { All (IsNew crew.now.pool.now crew.now.least.now) workers.items }
    ensures fine { IfOk result (IsGathered (P.count crew.now.job.now) (P.fails crew.now.job.now) (W.fits crew.now.work.now crew.now.job.now) (W.good crew.now.work.now crew.now.job.now) (W.bad crew.now.work.now crew.now.job.now) (W.done crew.now.work.now)) }
    ensures same { IfOk result (λ gathered. SameSeats (W.same crew.now.work.now) (seats_of workers.items) gathered.seats.items) }
{
    let backs = fork(crew.rt, crew, workers)?;
    let workers = all_back(crew.alloc, backs)?;
    gather(crew.alloc, crew.job.pieces() as usize, workers)
}

/// Performs the pieces of a job, with a worker for each seat. The answer is that of one worker who takes the pieces in
/// order and stops at the first that fails. A worker skips a piece only after it has seen a lesser one that fails. One
/// worker is the caller's thread, and where a thread can't be started the caller does its work too. The gate is told of
/// each piece that is performed. The call joins its threads, so it returns only if each `perform` and the gate do.
///
/// # Errors
///
/// - `Stop::Failed` exactly where a piece of the job fails, want of memory aside: with the first such piece, an error of
///   its own, and the answers of all pieces before it.
/// - `Stop::OutOfMemory` where there is no memory.
pub fn run_pieces<P: Piecework + Sync, W: Work<P> + Sync, G: Gate + Sync, R: Threads + Wait + Sync>(
    rt: &R,
    alloc: Global,
    job: &P,
    phase: Phase,
    work: &W,
    seats: Vec<W::Seat>,
    gate: &G,
) -> Result<Ran<W::Answer, W::Seat>, Stop<W::Answer, W::Error>>
where
    P::Part: Send,
    W::Answer: Drop + Send,
    W::Error: Drop + Send,
    W::Seat: Drop + Send,
    requires seats { (0 < vec_len seats) × (vec_len seats ≤ 16) }
    requires fits { All (W.fits work.now job.now) seats.items }
    requires pieces { P.count job.now ≤ 4096 }
    ensures { MatchResult result
        (λ ran. HasRan (P.count job.now) (P.fails job.now) (W.fits work.now job.now) (W.good work.now job.now) (W.done work.now) (W.same work.now) seats.items ran)
        (λ stop. IfStopped stop (HasFailed (P.count job.now) (P.fails job.now) (W.good work.now job.now) (W.bad work.now job.now))) }
{
    let Ok((pool, pieces)) = Pool::open(alloc, job.pieces(), seats.len() as u32) else {
        return Err(Stop::OutOfMemory);
    };
    let Ok((least, errors)) = FirstError::open(alloc, job) else {
        return Err(Stop::OutOfMemory);
    };
    let crew = Crew {
        rt,
        alloc,
        job,
        phase,
        work,
        gate,
        pool: &pool,
        least: &least,
    };
    let Ok(workers) = new_workers(&crew, errors, pieces, seats) else {
        return Err(Stop::OutOfMemory);
    };
    let Ok(gathered) = run_workers(&crew, workers) else {
        return Err(Stop::OutOfMemory);
    };
    finish(&crew, gathered)
}
