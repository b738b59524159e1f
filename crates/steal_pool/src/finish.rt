//! What the caller does once the workers are back.
ghost use Rattle.std.specs.Prelude.{◌≡◌, ℕ, ◌<◌, ◌≤◌, ◌^◌, All, IfOk, IfErr, IfSome, MatchOption, MatchResult, OnOk, length, true};
ghost use Rattle.steal_pool.specs.Works.{IfFailed, IfStopped, IsHeldAnswer, AllAnswered, StillSeats, HasRan, HasFailed};
ghost use Rattle.steal_pool.specs.Gathers.{IsGathered};
ghost use Rattle.steal_pool.specs.Pools.{Each};

use crate::crew::{Crew, perform};
use crate::gather::Gathered;
use crate::work::{Ran, Stop, Work, WorkStop};
use job_core::Piecework;
use ld_io::Gate;

/// The answer of a piece: the one that came back, or else the caller performs the piece, with the first seat.
fn answer<P: Piecework, W: Work<P>, G: Gate, R>(
    crew: &Crew<P, W, G, R>,
    seats: &mut Vec<W::Seat>,
    piece: u32,
    slot: Option<W::Answer>,
) -> Result<W::Answer, WorkStop<W::Error>>
    requires piece { piece < P.count crew.now.job.now }
    requires some { 0 < length seats.old.items }
    requires fits { All (W.fits crew.now.work.now crew.now.job.now) seats.old.items }
    requires slot { IfSome slot (IsHeldAnswer (P.fails crew.now.job.now) (W.good crew.now.work.now crew.now.job.now) (W.done crew.now.work.now) seats.old.items piece) }
    ensures seats { StillSeats (W.fits crew.now.work.now crew.now.job.now) (W.done crew.now.work.now) (W.same crew.now.work.now) seats.old.items seats.new.items }
    ensures answer { IfOk result (IsHeldAnswer (P.fails crew.now.job.now) (W.good crew.now.work.now crew.now.job.now) (W.done crew.now.work.now) seats.new.items piece) }
    ensures error { IfErr result (λ stop. IfFailed stop (λ error. (P.fails crew.now.job.now piece ≡ true) × W.bad crew.now.work.now crew.now.job.now piece error)) }
{
    match slot {
        Some(answer) => Ok(answer),
        None => perform(crew, &mut seats[0], piece),
    }
}

/// The number of the piece that failed, or the number of pieces.
fn end_of<E>(failure: &Option<(u32, E)>, pieces: u32) -> u32
    ensures { MatchOption failure.now (result ≡ pieces) (λ x. result ≡ x.0) }
{
    match failure {
        Some((piece, _)) => *piece,
        None => pieces,
    }
}

/// Answers the pieces of some slots, in order.
fn answer_all<P: Piecework, W: Work<P>, G: Gate, R>(
    crew: &Crew<P, W, G, R>,
    seats: &mut Vec<W::Seat>,
    slots: Vec<Option<W::Answer>>,
) -> Result<Vec<(u32, W::Answer)>, Stop<W::Answer, W::Error>>
where
    W::Answer: Drop,
    W::Error: Drop,
    requires pieces { length slots.items ≤ P.count crew.now.job.now }
    requires small { P.count crew.now.job.now < 2 ^ 32 }
    requires some { 0 < length seats.old.items }
    requires fits { All (W.fits crew.now.work.now crew.now.job.now) seats.old.items }
    requires slots { Each (λ piece slot. IfSome slot (IsHeldAnswer (P.fails crew.now.job.now) (W.good crew.now.work.now crew.now.job.now) (W.done crew.now.work.now) seats.old.items piece)) slots.items }
    ensures seats { OnOk result (StillSeats (W.fits crew.now.work.now crew.now.job.now) (W.done crew.now.work.now) (W.same crew.now.work.now) seats.old.items seats.new.items) }
    ensures told { MatchResult result
        (λ answers. AllAnswered (P.fails crew.now.job.now) (W.good crew.now.work.now crew.now.job.now) (W.done crew.now.work.now) seats.new.items (length slots.items) answers.items)
        (λ stop. IfStopped stop (HasFailed (P.count crew.now.job.now) (P.fails crew.now.job.now) (W.good crew.now.work.now crew.now.job.now) (W.bad crew.now.work.now crew.now.job.now))) }
{
    let Ok(mut answers) = Vec::with_capacity(crew.alloc, slots.len()) else {
        return Err(Stop::OutOfMemory);
    };
    for slot in slots {
        let piece = answers.len() as u32;
        match answer(crew, seats, piece, slot) {
            Ok(answer) => {
                if answers.push((piece, answer)).is_err() {
                    return Err(Stop::OutOfMemory);
                }
            }
            Err(WorkStop::Failed(error)) => {
                return Err(Stop::Failed {
                    piece,
                    error,
                    before: answers,
                });
            }
            Err(WorkStop::OutOfMemory) => return Err(Stop::OutOfMemory),
        }
    }
    Ok(answers)
}

/// What the job comes to. Nothing is left in the deques here, since each worker has come back with its deques empty; what
/// a worker skipped has no answer. All pieces before the least failure that came back are answered, in order: where no answer
/// came back, the caller performs the piece. So whatever a worker has skipped, the answer is that of one worker who takes
/// the pieces in order.
///
/// # Errors
///
/// - `Stop::Failed` exactly where a piece fails, want of memory aside.
/// - `Stop::OutOfMemory` where there is no memory.
pub(crate) fn finish<P: Piecework, W: Work<P>, G: Gate, R>(
    crew: &Crew<P, W, G, R>,
    gathered: Gathered<W::Answer, W::Error, W::Seat>,
) -> Result<Ran<W::Answer, W::Seat>, Stop<W::Answer, W::Error>>
where
    W::Answer: Drop,
    W::Error: Drop,
    W::Seat: Drop,
    requires { IsGathered (P.count crew.now.job.now) (P.fails crew.now.job.now) (W.fits crew.now.work.now crew.now.job.now) (W.good crew.now.work.now crew.now.job.now) (W.bad crew.now.work.now crew.now.job.now) (W.done crew.now.work.now) gathered }
    ensures { MatchResult result
        (λ ran. HasRan (P.count crew.now.job.now) (P.fails crew.now.job.now) (W.fits crew.now.work.now crew.now.job.now) (W.good crew.now.work.now crew.now.job.now) (W.done crew.now.work.now) (W.same crew.now.work.now) gathered.seats.items ran)
        (λ stop. IfStopped stop (HasFailed (P.count crew.now.job.now) (P.fails crew.now.job.now) (W.good crew.now.work.now crew.now.job.now) (W.bad crew.now.work.now crew.now.job.now))) }
{
    let Gathered {
        mut seats,
        mut slots,
        failure,
    } = gathered;
    let end = end_of(&failure, crew.job.pieces());
    slots.truncate(end as usize);
    let answers = answer_all(crew, &mut seats, slots)?;
    match failure {
        None => Ok(Ran { answers, seats }),
        Some((piece, error)) => Err(Stop::Failed {
            piece,
            error,
            before: answers,
        }),
    }
}
