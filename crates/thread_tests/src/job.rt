// A job whose failing pieces are known, and what is done with its pieces.
ghost use Rattle.std.specs.Prelude.{◌≡◌};
ghost use Rattle.thread_tests.specs.Jobs.{is_failing};

use job_core::{Merge, Piecework, Unmerged};
use ld_io::{Gate, Phase};
use std::alloc::Global;
use std::sync::atomic::{AtomicU64, Ordering};
use steal_pool::{Work, WorkStop};

/// The pieces from one number to before another.
#[derive(Drop)]
pub struct Span {
    pub first: u32,
    pub end: u32,
}

impl Merge for Span {
    ghost use Rattle.std.specs.Prelude.{refl};
    ghost use Rattle.thread_tests.specs.Jobs.{span, over};

    ghost valid = { λ s. Unit {0} };

    ghost nothing = { λ at. span at at };

    ghost start_of = { λ s. s.first };

    ghost end_of = { λ s. s.end };

    ghost both = { over };

    fn empty(_alloc: Global, at: u32) -> Span {
        Span { first: at, end: at }
    }

    fn first(&self) -> u32 {
        self.first
    }

    fn end(&self) -> u32 {
        self.end
    }

    fn merge(self, _alloc: Global, next: Span) -> Result<Span, Unmerged<Span>> {
        Ok(Span {
            first: self.first,
            end: next.end,
        })
    }

    ghost nothing_covers = { λ at. (refl, refl) };

    ghost nothing_valid = { λ at. tt };

    ghost both_covers = { λ a b e. (refl, refl) };

    ghost both_valid = { λ a b v w e. tt };

    ghost left_nothing = { λ a v. refl };

    ghost right_nothing = { λ a v. refl };

    ghost associative = { λ a b c u v w e f. refl };
}

/// A job of so many pieces, of which those fail that leave `at` when they are divided by `period`.
#[derive(Drop)]
pub struct Periodic {
    pub pieces: u32,
    pub period: u32,
    pub at: u32,
}

impl Periodic {
    /// Whether a piece fails.
    pub fn fails(&self, piece: u32) -> bool
        ensures { result ≡ is_failing self.now.period self.now.at piece }
    {
        self.period != 0 && piece % self.period == self.at
    }
}

impl Piecework for Periodic {
    type Part = Span;

    ghost use Rattle.std.specs.Prelude.{◌+◌, refl};
    ghost use Rattle.thread_tests.specs.Jobs.{span, is_failing};

    ghost count = { λ j. j.pieces };

    ghost shard_count = { λ j. 0 };

    ghost fails = { λ j piece. is_failing j.period j.at piece };

    ghost part = { λ j shard piece. span piece (piece + 1) };

    fn pieces(&self) -> u32 {
        self.pieces
    }

    fn shards(&self) -> u32 {
        0
    }

    ghost part_covers = { λ j shard piece s p e. (refl, refl) };

    ghost part_valid = { λ j shard piece s p e. tt };
}

/// Doubles the number of each piece. It is refused memory at one piece.
#[derive(Drop)]
pub struct Doubles {
    pub refused_at: Option<u32>,
}

/// A worker's number, and how many pieces it has performed.
#[derive(Drop)]
pub struct Tally {
    pub worker: u32,
    pub performed: u64,
}

impl Work<Periodic> for Doubles {
    type Answer = u64;

    type Error = u32;

    type Seat = Tally;

    ghost use Rattle.std.specs.Prelude.{◌≡◌, ◌*◌, refl};
    ghost use Rattle.std.proofs.Common.{◌∙◌};

    ghost fits = { λ w j s. Unit {0} };

    ghost good = { λ w j piece answer. answer ≡ 2 * piece };

    ghost bad = { λ w j piece error. error ≡ piece };

    ghost done = { λ w s piece answer. Unit {0} };

    ghost same = { λ w s t. t.worker ≡ s.worker };

    fn perform(
        &self,
        _alloc: Global,
        job: &Periodic,
        seat: &mut Tally,
        piece: u32,
    ) -> Result<u64, WorkStop<u32>> {
        seat.performed = seat.performed.wrapping_add(1);
        if self.refused_at == Some(piece) {
            return Err(WorkStop::OutOfMemory);
        }
        if job.fails(piece) {
            return Err(WorkStop::Failed(piece));
        }
        Ok(2 * u64::from(piece))
    }

    ghost same_itself = { λ w s. refl };

    ghost same_then = { λ w a b c p q. q ∙ p };
}

/// Holds the first piece that is begun until another is, for a while, and counts.
#[derive(Drop)]
pub struct Meeting {
    pub begun: AtomicU64,
    pub ended: AtomicU64,
    pub met: AtomicU64,
}

impl Meeting {
    pub fn new() -> Meeting {
        Meeting {
            begun: AtomicU64::new(0),
            ended: AtomicU64::new(0),
            met: AtomicU64::new(0),
        }
    }
}

impl Gate for Meeting {
    fn before(&self, _phase: Phase, _piece: u32) {
        if self.begun.fetch_add(1, Ordering::SeqCst) > 0 {
            return;
        }
        for _ in 0..100_000_000u64 {
            if self.begun.load(Ordering::SeqCst) > 1 {
                self.met.store(1, Ordering::SeqCst);
                return;
            }
            std::thread::yield_now();
        }
    }

    fn after(&self, _phase: Phase, _piece: u32) {
        self.ended.fetch_add(1, Ordering::SeqCst);
    }

    fn entered(&self, _phase: Phase, _shard: u32, _piece: u32) {}
}
