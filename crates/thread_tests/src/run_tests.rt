// Jobs run with workers in threads.
ghost use Rattle.std.specs.Prelude.{◌≡◌, ◌<◌, ◌≤◌, IfOk, length, vec_len};

use crate::job::{Doubles, Meeting, Periodic, Tally};
use ld_io::{Gate, OpenGate, Phase};
use std::alloc::{AllocError, Global};
use std::sync::Wait;
use std::sync::atomic::Ordering;
use std::test::Fail;
use std::thread::Threads;
use steal_pool::{Ran, Stop, run_pieces};

/// What a run came to.
#[derive(Clone, Copy, Debug, PartialEq, Eq)]
pub(crate) enum Came {
    /// So many answers, each twice its place, and the seats in order.
    Ran(usize),
    /// This piece failed with its own error, and all before it are answered.
    Failed(u32),
    OutOfMemory,
    /// An answer, an error or a seat is not what it should be.
    Wrong,
}

/// Whether the answers are those of the pieces from 0 on.
fn are_doubles(answers: &[(u32, u64)]) -> bool {
    answers.iter().enumerate().all(|(place, answer)| answer.0 as usize == place
        && answer.1 == 2 * u64::from(answer.0))
}

fn are_in_order(seats: &[Tally]) -> bool {
    seats
        .iter()
        .enumerate()
        .all(|(place, seat)| seat.worker as usize == place)
}

fn came_of(came: Result<Ran<u64, Tally>, Stop<u64, u32>>) -> Came {
    match came {
        Ok(ran) => {
            if are_doubles(ran.answers.as_slice()) && are_in_order(ran.seats.as_slice()) {
                Came::Ran(ran.answers.len())
            } else {
                Came::Wrong
            }
        }
        Err(
            Stop::Failed {
                piece,
                error,
                before,
            },
        ) => {
            if error == piece && before.len() == piece as usize && are_doubles(before.as_slice()) {
                Came::Failed(piece)
            } else {
                Came::Wrong
            }
        }
        Err(Stop::OutOfMemory) => Came::OutOfMemory,
    }
}

/// A seat for each of so many workers.
fn seats(alloc: Global, workers: u32) -> Result<Vec<Tally>, AllocError>
    ensures { IfOk result (λ made. vec_len made ≡ workers) }
{
    let mut made = Vec::new(alloc);
    for worker in 0..workers {
        made.push(Tally {
            worker,
            performed: 0,
        })?;
    }
    Ok(made)
}

/// What a job comes to with so many workers.
pub(crate) fn run<G: Gate + Sync, R: Threads + Wait + Sync>(
    rt: &R,
    alloc: Global,
    job: &Periodic,
    work: &Doubles,
    workers: u32,
    gate: &G,
) -> Result<Came, AllocError>
    requires workers { (0 < workers) × (workers ≤ 16) }
    requires pieces { job.now.pieces ≤ 4096 }
{
    let seats = seats(alloc, workers)?;
    Ok(came_of(run_pieces(rt, alloc, job, Phase::Expand, work, seats, gate)))
}

/// What the job comes to when its pieces are taken in order.
fn expected(job: &Periodic) -> Came {
    for piece in 0..job.pieces {
        if job.fails(piece) {
            return Came::Failed(piece);
        }
    }
    Came::Ran(job.pieces as usize)
}

pub(crate) const OPEN: Doubles = Doubles { refused_at: None };

/// Jobs at the ends: no piece, one, as many as there may be, none fails, all fail, the last alone fails.
const JOBS: [(u32, Periodic); 8] = [
    (
        1,
        Periodic {
            pieces: 0,
            period: 0,
            at: 0,
        },
    ),
    (
        16,
        Periodic {
            pieces: 0,
            period: 0,
            at: 0,
        },
    ),
    (
        16,
        Periodic {
            pieces: 1,
            period: 0,
            at: 0,
        },
    ),
    (
        16,
        Periodic {
            pieces: 1,
            period: 1,
            at: 0,
        },
    ),
    (
        1,
        Periodic {
            pieces: 4096,
            period: 0,
            at: 0,
        },
    ),
    (
        16,
        Periodic {
            pieces: 4096,
            period: 1,
            at: 0,
        },
    ),
    (
        16,
        Periodic {
            pieces: 4096,
            period: 4096,
            at: 4095,
        },
    ),
    (
        2,
        Periodic {
            pieces: 4096,
            period: 4096,
            at: 4095,
        },
    ),
];

#[test]
fn jobs_at_the_ends(rt: HostRuntime) -> Result<(), Fail> {
    for (workers, job) in &JOBS {
        let came = run(&rt, rt.alloc(), job, &OPEN, *workers, &OpenGate)?;
        assert!(rt; came == expected(job));
    }
    Ok(())
}

#[test]
fn a_job_with_random_failures_has_one_answer(rt: HostRuntime) -> Result<(), Fail> {
    let mut state = 1u32;
    for _ in 0..1_000u32 {
        state = state.wrapping_mul(1_664_525).wrapping_add(1_013_904_223);
        let job = Periodic {
            pieces: state >> 26,
            period: (state >> 16) % 64,
            at: (state >> 8) % 64,
        };
        let came = run(&rt, rt.alloc(), &job, &OPEN, 16, &OpenGate)?;
        assert!(rt; came == expected(&job));
    }
    Ok(())
}

#[test]
fn want_of_memory_in_any_piece_is_answered(rt: HostRuntime) -> Result<(), Fail> {
    let job = Periodic {
        pieces: 20,
        period: 0,
        at: 0,
    };
    for piece in 0..20u32 {
        let work = Doubles {
            refused_at: Some(piece),
        };
        let came = run(&rt, rt.alloc(), &job, &work, 4, &OpenGate)?;
        assert!(rt; came == Came::OutOfMemory);
    }
    Ok(())
}

#[test]
fn two_workers_meet_in_two_pieces(rt: HostRuntime) -> Result<(), Fail> {
    let job = Periodic {
        pieces: 20,
        period: 0,
        at: 0,
    };
    let gate = Meeting::new();
    let came = run(&rt, rt.alloc(), &job, &OPEN, 2, &gate)?;
    assert!(rt; came == Came::Ran(20) && gate.met.load(Ordering::SeqCst) == 1);
    assert!(rt; gate.begun.load(Ordering::SeqCst) == 20 && gate.ended.load(Ordering::SeqCst) == 20);
    Ok(())
}
