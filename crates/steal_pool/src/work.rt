//! What is done with a piece, and what a job comes to.
ghost use Rattle.std.specs.Prelude.{◌≡◌, ℕ, ◌<◌, true, false, IfOk, IfErr};
ghost use Rattle.steal_pool.specs.Works.{IfFailed};

use job_core::Piecework;
use std::alloc::Global;

/// Why [`Work::perform`] gave no answer.
#[derive(Drop)]
pub enum WorkStop<E> {
    /// The piece fails in the job.
    Failed(E),
    /// There was no memory.
    OutOfMemory,
}

/// What is done with each piece of a job. A worker goes from piece to piece with a seat, which may hold what it has
/// gathered, and rights in things that workers share.
pub trait Work<P: Piecework> {
    /// What a piece that doesn't fail comes to.
    type Answer;
    /// Why a piece fails.
    type Error;
    /// What a worker has with it.
    type Seat;

    // The seat can be used with the job.
    ghost fits: { Self → P → Self.Seat → Type 0 };

    // What a piece may be answered with.
    ghost good: { Self → P → ℕ → Self.Answer → Type 0 };

    // Which error a piece that fails may have.
    ghost bad: { Self → P → ℕ → Self.Error → Type 0 };

    // What an answer leaves in the seat, and later calls keep.
    ghost done: { Self → Self.Seat → ℕ → Self.Answer → Type 0 };

    // What no call changes of a seat.
    ghost same: { Self → Self.Seat → Self.Seat → Type 0 };

    /// Performs a piece.
    ///
    /// # Errors
    ///
    /// - `WorkStop::Failed` exactly where the piece fails in the job, want of memory aside.
    /// - `WorkStop::OutOfMemory` where there is no memory.
    fn perform(
        &self,
        alloc: Global,
        job: &P,
        seat: &mut Self::Seat,
        piece: u32,
    ) -> Result<Self::Answer, WorkStop<Self::Error>>
        requires piece { piece < P.count job.now }
        requires fits { fits self.now job.now seat.old }
        ensures fits { fits self.now job.now seat.new }
        ensures same { same self.now seat.old seat.new }
        ensures kept { (earlier : ℕ) (answer : Self.Answer) → done self.now seat.old earlier answer → done self.now seat.new earlier answer }
        ensures answer { IfOk result (λ answer. (P.fails job.now piece ≡ false) × good self.now job.now piece answer × done self.now seat.new piece answer) }
        ensures error { IfErr result (λ stop. IfFailed stop (λ error. (P.fails job.now piece ≡ true) × bad self.now job.now piece error)) };

    ghost same_itself: { (work : Self) (seat : Self.Seat) → same work seat seat };

    ghost same_then: { (work : Self) (a b c : Self.Seat) → same work a b → same work b c → same work a c };
}

/// What a job comes to of which no piece fails.
#[derive(Drop)]
pub struct Ran<A, S> {
    /// Each piece with its answer, in order.
    pub answers: Vec<(u32, A)>,
    /// The seats that were handed in, in their order.
    pub seats: Vec<S>,
}

/// Why a job came to no answer.
#[derive(Drop)]
pub enum Stop<A, E> {
    /// The first piece that fails, with its error, and the answers of all pieces before it, in order.
    Failed {
        piece: u32,
        error: E,
        before: Vec<(u32, A)>,
    },
    /// There was no memory.
    OutOfMemory,
}
