//! What each worker does.
ghost use Rattle.std.specs.Prelude.{◌≡◌, ℕ, ◌<◌, true, false, IfOk, IfErr, OnOk};
ghost use Rattle.steal_pool.specs.Works.{IfFailed};
ghost use Rattle.steal_pool.specs.Workers.{Fine};

use crate::fork::Shift;
use crate::pool::Pool;
use crate::work::{Work, WorkStop};
use crate::worker::Worker;
use first_error::FirstError;
use job_core::Piecework;
use ld_io::{Gate, Phase};
use std::alloc::{AllocError, Global};
use std::sync::Wait;

/// What all workers of a job share.
#[derive(Drop)]
pub(crate) struct Crew<'a, P: Piecework, W, G, R> {
    pub(crate) rt: &'a R,
    pub(crate) alloc: Global,
    pub(crate) job: &'a P,
    pub(crate) phase: Phase,
    pub(crate) work: &'a W,
    pub(crate) gate: &'a G,
    pub(crate) pool: &'a Pool,
    pub(crate) least: &'a FirstError<P>,
}

/// Performs a piece.
pub(crate) fn perform<P: Piecework, W: Work<P>, G: Gate, R>(
    crew: &Crew<P, W, G, R>,
    seat: &mut W::Seat,
    piece: u32,
) -> Result<W::Answer, WorkStop<W::Error>>
    requires piece { piece < P.count crew.now.job.now }
    requires fits { W.fits crew.now.work.now crew.now.job.now seat.old }
    ensures fits { W.fits crew.now.work.now crew.now.job.now seat.new }
    ensures same { W.same crew.now.work.now seat.old seat.new }
    ensures kept { (earlier : ℕ) (answer : W.Answer) → W.done crew.now.work.now seat.old earlier answer → W.done crew.now.work.now seat.new earlier answer }
    ensures answer { IfOk result (λ answer. (P.fails crew.now.job.now piece ≡ false) × W.good crew.now.work.now crew.now.job.now piece answer × W.done crew.now.work.now seat.new piece answer) }
    ensures error { IfErr result (λ stop. IfFailed stop (λ error. (P.fails crew.now.job.now piece ≡ true) × W.bad crew.now.work.now crew.now.job.now piece error)) }
{
    crew.gate.before(crew.phase, piece);
    let answer = crew.work.perform(crew.alloc, crew.job, seat, piece);
    crew.gate.after(crew.phase, piece);
    answer
}

/// Performs a piece, and keeps its answer or reports that it fails.
fn perform_one<P: Piecework, W: Work<P>, G: Gate, R>(
    crew: &Crew<P, W, G, R>,
    worker: &mut Worker<P, W::Answer, W::Error, W::Seat>,
    piece: u32,
) -> Result<(), AllocError>
where
    W::Answer: Drop,
    W::Error: Drop,
    requires piece { piece < P.count crew.now.job.now }
    requires job { crew.now.least.now.job ≡ crew.now.job.now }
    requires fine { Fine (P.count crew.now.job.now) (P.fails crew.now.job.now) (W.fits crew.now.work.now crew.now.job.now) (W.good crew.now.work.now crew.now.job.now) (W.bad crew.now.work.now crew.now.job.now) (W.done crew.now.work.now) crew.now.pool.now crew.now.least.now worker.old }
    ensures same { W.same crew.now.work.now worker.old.seat worker.new.seat }
    ensures fine { OnOk result (Fine (P.count crew.now.job.now) (P.fails crew.now.job.now) (W.fits crew.now.work.now crew.now.job.now) (W.good crew.now.work.now crew.now.job.now) (W.bad crew.now.work.now crew.now.job.now) (W.done crew.now.work.now) crew.now.pool.now crew.now.least.now worker.new) }
{
    match perform(crew, &mut worker.seat, piece) {
        Ok(answer) => worker.answers.push((piece, answer))?,
        Err(WorkStop::Failed(error)) => {
            crew.least.report(&mut worker.errors, piece);
            worker.failure = Some((piece, error));
        }
        Err(WorkStop::OutOfMemory) => return Err(AllocError),
    }
    Ok(())
}

impl<'a, P: Piecework, W: Work<P>, G: Gate, R: Wait> Shift for Crew<'a, P, W, G, R>
where
    W::Answer: Drop,
    W::Error: Drop,
    W::Seat: Drop,
{
    type Start = Worker<P, W::Answer, W::Error, W::Seat>;

    type Back = Result<Worker<P, W::Answer, W::Error, W::Seat>, AllocError>;

    ghost accepts = { λ c w. (c.least.now.job ≡ c.job.now) × (c.pool.now.pieces ≡ P.count c.job.now) × Fine (P.count c.job.now) (P.fails c.job.now) (W.fits c.work.now c.job.now) (W.good c.work.now c.job.now) (W.bad c.work.now c.job.now) (W.done c.work.now) c.pool.now c.least.now w };

    ghost gives = { λ c w back. IfOk back (λ b. W.same c.work.now w.seat b.seat × Fine (P.count c.job.now) (P.fails c.job.now) (W.fits c.work.now c.job.now) (W.good c.work.now c.job.now) (W.bad c.work.now c.job.now) (W.done c.work.now) c.pool.now c.least.now b) };

    /// Takes pieces until none is left. A piece is skipped only where a lesser one was seen to fail.
    fn run(
        &self,
        mut worker: Worker<P, W::Answer, W::Error, W::Seat>,
    ) -> Result<Worker<P, W::Answer, W::Error, W::Seat>, AllocError> {
        for _ in self.rt.forever() {
            let Some(piece) = self.pool.next_piece(self.rt, &mut worker.pieces) else {
                break;
            };
            if let Some(known) = self.least.least(&mut worker.errors) {
                if known < piece {
                    continue;
                }
            }
            perform_one(self, &mut worker, piece)?;
        }
        Ok(worker)
    }
}
