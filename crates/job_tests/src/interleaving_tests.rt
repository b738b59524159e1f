// Every interleaving of two seats over three pieces, of which one fails, and two shards.
//
// A run is any list of allowed steps that ends with Close, but for a Look that changes nothing. No step is made twice
// in a run, beside Turn, so a state is known by the steps that were made and the turns that are out: one bit for each.
// The runs are counted by length: each state that runs of one length reach is made anew and takes every allowed step.
ghost use Rattle.std.specs.Prelude.{◌<◌, ◌≤◌};

use job_core::{JobState, JobStep, Outcome};
use std::alloc::Global;
use std::collections::BTreeMap;
use std::process::Abort;
use std::test::Fail;

const STEPS: u32 = 37;

const LONGEST: u32 = 20;

/// The steps by number. Those that were made, turns that are out among them, can be made again in this order.
fn step_of(number: u32) -> JobStep {
    match number {
        0..=5 => JobStep::Take {
            seat: number / 3,
            piece: number % 3,
        },
        6..=11 => JobStep::Fail {
            seat: (number - 6) / 3,
            piece: number % 3,
        },
        12..=13 => JobStep::Look { seat: number - 12 },
        14..=25 => JobStep::Enter {
            seat: (number - 14) / 6,
            shard: (number - 14) / 3 % 2,
            piece: (number - 14) % 3,
        },
        26..=31 => JobStep::Skip {
            seat: (number - 26) / 3,
            piece: (number - 26) % 3,
        },
        32..=35 => JobStep::Turn {
            seat: (number - 32) / 2,
            shard: number % 2,
        },
        _ => JobStep::Close,
    }
}

fn has(made: u64, number: u32) -> bool
    requires { number < 64 }
{
    made >> number & 1 == 1
}

/// Just one of two steps was made.
fn once(made: u64, first: u32, second: u32) -> bool
    requires first { first < 64 }
    requires second { second < 64 }
{
    has(made, first) != has(made, second)
}

fn never_both(made: u64, first: u32, second: u32) -> bool
    requires first { first < 64 }
    requires second { second < 64 }
{
    !has(made, first) || !has(made, second)
}

/// What the theorem says of one piece.
fn is_settled(failing: u32, made: u64, piece: u32) -> bool
    requires { piece < 3 }
{
    let entered = once(made, 14 + piece, 20 + piece) && once(made, 17 + piece, 23 + piece);
    let reported = once(made, 6 + piece, 9 + piece);
    let skipped = once(made, 26 + piece, 29 + piece);
    once(made, piece, 3 + piece)
        && never_both(made, 14 + piece, 20 + piece)
        && never_both(made, 17 + piece, 23 + piece)
        && (entered && piece != failing
            || reported && piece == failing
            || skipped && piece > failing)
}

/// A Look teaches nothing before the failure is reported, or a second time.
fn is_idle(made: u64, number: u32) -> bool
    requires { number < 64 }
{
    number / 2 == 6 && (has(made, number) || made & 0b1111_1100_0000 == 0)
}

/// The steps that were made once this one is too: an entry gives the turn back.
fn made_with(made: u64, number: u32) -> u64
    requires { number < 64 }
{
    let made = made | 1 << number;
    match number {
        14..=25 => made & !(1 << (32 + (number - 14) / 3)),
        _ => made,
    }
}

/// The job after these steps.
fn replay<R: Abort>(rt: &R, alloc: Global, failing: u32, made: u64) -> Result<JobState, Fail> {
    let mut job = JobState::start(alloc, &[failing == 0, failing == 1, failing == 2], 2, 2)?;
    for number in 0..STEPS {
        if has(made, number) {
            let step = step_of(number);
            if let JobStep::Enter {
                seat,
                shard,
                piece: _,
            } = step
            {
                assert_eq!(rt; job.step(JobStep::Turn { seat, shard }), Ok(()));
            }
            assert_eq!(rt; job.step(step), Ok(()), "{step:?} again");
        }
    }
    Ok(job)
}

/// Puts the runs that are one step longer into `next`, and gives how many of them end.
fn lengthen<R: Abort>(
    rt: &R,
    alloc: Global,
    failing: u32,
    (made, runs): (u64, u64),
    next: &mut BTreeMap<u64, u64>,
) -> Result<u64, Fail> {
    let mut ended = 0;
    let mut job = replay(rt, alloc, failing, made)?;
    for number in 0..STEPS {
        let step = step_of(number);
        if is_idle(made, number) || job.step(step).is_err() {
            continue;
        }
        assert!(rt; !has(made, number), "{step:?} is made twice");
        if job.finished() {
            assert_eq!(rt; job.outcome(), Outcome::FirstFailure { piece: failing });
            for piece in 0..3 {
                assert!(rt;
                    is_settled(failing, made, piece),
                    "piece {piece} after {made:b}"
                );
            }
            ended = runs;
        } else {
            let with = made_with(made, number);
            let so_far = next.get(&with).copied().unwrap_or(0);
            next.insert(with, so_far.wrapping_add(runs))?;
        }
        job = replay(rt, alloc, failing, made)?;
    }
    Ok(ended)
}

/// How many runs there are that end, each as the theorem says.
fn runs_that_end<R: Abort>(rt: &R, alloc: Global, failing: u32) -> Result<u64, Fail> {
    let mut ended = 0u64;
    let mut level = BTreeMap::new(alloc);
    level.insert(0, 1)?;
    for _ in 0..LONGEST {
        let mut next = BTreeMap::new(alloc);
        for (made, runs) in level {
            ended = ended.wrapping_add(lengthen(rt, alloc, failing, (made, runs), &mut next)?);
        }
        level = next;
    }
    assert!(rt; level.is_empty(), "a run is longer");
    Ok(ended)
}

// The counts are those of another program, written from the table of guards and effects.
#[test]
fn every_interleaving_ends_as_the_theorem_says(rt: HostRuntime) -> Result<(), Fail> {
    for (failing, count) in &[(0, 918_324_256), (1, 294_715_456), (2, 97_827_840)] {
        let ended = runs_that_end(&rt, rt.alloc(), *failing)?;
        assert_eq!(rt; ended, *count, "piece {failing} fails");
    }
    Ok(())
}
