use job_core::JobStep::{Close, Enter, Fail as Report, Skip, Take, Turn};
use job_core::{JobState, JobStep, Kept, NotAllowed, Outcome};
use std::alloc::Global;
use std::process::Abort;
use std::test::Fail;

const TAKE: JobStep = Take { seat: 0, piece: 0 };

const ENTER: JobStep = Enter {
    seat: 0,
    shard: 0,
    piece: 0,
};

const TO_THE_FAILURE: [JobStep; 5] = [
    TAKE,
    Turn { seat: 0, shard: 0 },
    ENTER,
    Take { seat: 0, piece: 1 },
    Report { seat: 0, piece: 1 },
];

// Makes the steps, each of which is allowed.
fn make<R: Abort>(rt: &R, job: &mut JobState, steps: &[JobStep]) {
    for step in steps {
        assert_eq!(rt; job.step(*step), Ok(()), "{step:?}");
    }
}

// Whether the step is refused for this.
fn is_refused(job: &mut JobState, step: JobStep, kept: Kept) -> bool {
    job.step(step) == Err(NotAllowed { step, kept })
}

#[test]
fn a_job_with_one_failure_ends_with_it(rt: HostRuntime) -> Result<(), Fail> {
    let mut job = JobState::start(rt.alloc(), &[false, true], 1, 1)?;
    assert!(rt; is_refused(&mut job, ENTER, Kept::TurnOf(None)));
    make(&rt, &mut job, &TO_THE_FAILURE);
    assert!(rt; job.outcome() == Outcome::Unclosed);
    make(&rt, &mut job, &[Close]);
    assert!(rt; job.finished() && job.outcome() == Outcome::FirstFailure { piece: 1 });
    assert!(rt; is_refused(&mut job, TAKE, Kept::Closed));
    Ok(())
}

// Of three pieces the second fails. Two seats, two shards. Each row: what is allowed first, the step that is refused,
// which breaks more than one guard where it can, and what the first of them found.
const REFUSALS: [(&str, &[JobStep], JobStep, Kept); 15] = [
    (
        "seat out of range",
        &[TAKE],
        Take { seat: 2, piece: 0 },
        Kept::Range,
    ),
    (
        "piece out of range",
        &[],
        Enter {
            seat: 0,
            shard: 0,
            piece: 3,
        },
        Kept::Range,
    ),
    (
        "shard out of range",
        &[Turn { seat: 0, shard: 1 }],
        Turn { seat: 0, shard: 2 },
        Kept::Range,
    ),
    (
        "taken",
        &[TAKE],
        Take { seat: 1, piece: 0 },
        Kept::Waits(false),
    ),
    (
        "fail, not held",
        &[],
        Report { seat: 0, piece: 0 },
        Kept::HeldBy(None),
    ),
    (
        "fail, held by another",
        &[TAKE],
        Report { seat: 1, piece: 0 },
        Kept::HeldBy(Some(0)),
    ),
    (
        "fail, but it passes",
        &[TAKE],
        Report { seat: 0, piece: 0 },
        Kept::Fails(false),
    ),
    (
        "skip, not held",
        &[],
        Skip { seat: 1, piece: 0 },
        Kept::HeldBy(None),
    ),
    (
        "skip, nothing seen",
        &[Take { seat: 1, piece: 0 }],
        Skip { seat: 1, piece: 0 },
        Kept::Seen(3),
    ),
    (
        "turn, out",
        &[Turn { seat: 1, shard: 0 }],
        Turn { seat: 0, shard: 0 },
        Kept::TurnOf(Some(1)),
    ),
    (
        "enter, no turn",
        &[],
        Enter {
            seat: 0,
            shard: 0,
            piece: 1,
        },
        Kept::TurnOf(None),
    ),
    (
        "enter, not held",
        &[Turn { seat: 0, shard: 0 }],
        Enter {
            seat: 0,
            shard: 0,
            piece: 1,
        },
        Kept::HeldBy(None),
    ),
    (
        "enter, but it fails",
        &[Turn { seat: 0, shard: 0 }, Take { seat: 0, piece: 1 }],
        Enter {
            seat: 0,
            shard: 0,
            piece: 1,
        },
        Kept::Fails(true),
    ),
    (
        "enter, again",
        &[
            TAKE,
            Turn { seat: 0, shard: 0 },
            ENTER,
            Turn { seat: 0, shard: 0 },
        ],
        ENTER,
        Kept::Entered(true),
    ),
    (
        "close, a turn out too",
        &[Turn { seat: 1, shard: 1 }],
        Close,
        Kept::Unfinished { piece: 0 },
    ),
];

// What the step answers after these, which are allowed.
fn last_answer<R: Abort>(
    rt: &R,
    alloc: Global,
    before: &[JobStep],
    step: JobStep,
) -> Result<Result<(), NotAllowed>, Fail> {
    let mut job = JobState::start(alloc, &[false, true, false], 2, 2)?;
    make(rt, &mut job, before);
    Ok(job.step(step))
}

#[test]
fn the_first_guard_that_fails_is_named(rt: HostRuntime) -> Result<(), Fail> {
    for (name, before, step, kept) in &REFUSALS {
        let answer = last_answer(&rt, rt.alloc(), before, *step)?;
        let want = NotAllowed {
            step: *step,
            kept: *kept,
        };
        assert_eq!(rt; answer, Err(want), "{name}");
    }
    Ok(())
}

#[test]
fn a_turn_that_is_out_is_named(rt: HostRuntime) -> Result<(), Fail> {
    let mut job = JobState::start(rt.alloc(), &[], 2, 2)?;
    make(&rt, &mut job, &[Turn { seat: 1, shard: 1 }]);
    assert!(rt; is_refused(&mut job, Close, Kept::TurnOf(Some(1))));
    Ok(())
}

#[test]
fn a_closed_job_is_named(rt: HostRuntime) -> Result<(), Fail> {
    let mut job = JobState::start(rt.alloc(), &[], 2, 2)?;
    make(&rt, &mut job, &[Close]);
    assert!(rt; job.outcome() == Outcome::AllEntered);
    assert!(rt; is_refused(&mut job, Take { seat: 9, piece: 9 }, Kept::Closed));
    Ok(())
}

#[test]
fn a_refused_step_is_said_in_words(rt: HostRuntime) -> Result<(), Fail> {
    for (kept, words) in &[
        (Kept::Waits(false), "whether the piece waits: false"),
        (Kept::HeldBy(Some(3)), "the piece is held by seat 3"),
        (Kept::TurnOf(None), "the turn is with no seat"),
        (Kept::Unfinished { piece: 7 }, "piece 7 is not finished"),
    ] {
        let refusal = NotAllowed {
            step: Close,
            kept: *kept,
        };
        let said = refusal.to_string(rt.alloc())?;
        assert!(rt;
            said.as_str().strip_prefix("Close is not allowed: ") == Some(*words),
            "{words}"
        );
    }
    Ok(())
}
