//! A job whose pieces take as long as is wanted.
ghost use Rattle.std.specs.Prelude.{◌≡◌, ◌+◌, ◌<◌, ◌^◌, ℕ, Some, IfOk, length, slice_get};
ghost use Rattle.pool_bench.specs.Spans.{span};

use job_core::{Merge, Piecework, Unmerged};
use phase_enter::Parts;
use std::alloc::{AllocError, Global};
use steal_pool::{Work, WorkStop};

/// The pieces from one number to before another.
#[derive(Drop)]
pub struct Span {
    pub first: u32,
    pub end: u32,
}

impl Merge for Span {
    ghost use Rattle.std.specs.Prelude.{refl};
    ghost use Rattle.pool_bench.specs.Spans.{span, over};

    ghost valid = { λ s. Unit {0} };

    ghost nothing = { λ at. span at at };

    ghost start_of = { λ s. s.first };

    ghost end_of = { λ s. s.end };

    ghost both = { over };

    fn empty(_alloc: Global, at: u32) -> Span {
        Span { first: at, end: at }
    }

    fn first(&self) -> u32 {
        self.first
    }

    fn end(&self) -> u32 {
        self.end
    }

    fn merge(self, _alloc: Global, next: Span) -> Result<Span, Unmerged<Span>> {
        Ok(Span {
            first: self.first,
            end: next.end,
        })
    }

    ghost nothing_covers = { λ at. (refl, refl) };

    ghost nothing_valid = { λ at. tt };

    ghost both_covers = { λ a b e. (refl, refl) };

    ghost both_valid = { λ a b v w e. tt };

    ghost left_nothing = { λ a v. refl };

    ghost right_nothing = { λ a v. refl };

    ghost associative = { λ a b c u v w e f. refl };
}

/// A job of so many pieces, rounds for each, and shards.
#[derive(Drop)]
pub struct Grind {
    pub pieces: u32,
    pub rounds: u32,
    pub shards: u32,
}

impl Grind {
    /// Makes the rounds of a piece. Whether they came to 0, which they can't.
    fn comes_to_zero(&self, piece: u32) -> bool {
        let mut state = u64::from(piece).wrapping_add(1);
        for _ in 0..self.rounds {
            state ^= state << 13;
            state ^= state >> 7;
            state ^= state << 17;
        }
        state == 0
    }
}

impl Piecework for Grind {
    type Part = Span;

    ghost use Rattle.std.specs.Prelude.{◌+◌, false, refl};
    ghost use Rattle.pool_bench.specs.Spans.{span};

    ghost count = { λ j. j.pieces };

    ghost shard_count = { λ j. j.shards };

    ghost fails = { λ j piece. false };

    ghost part = { λ j shard piece. span piece (piece + 1) };

    fn pieces(&self) -> u32 {
        self.pieces
    }

    fn shards(&self) -> u32 {
        self.shards
    }

    ghost part_covers = { λ j shard piece s p e. (refl, refl) };

    ghost part_valid = { λ j shard piece s p e. tt };
}

/// The parts of a piece, one for each shard.
fn parts_of(alloc: Global, shards: u32, piece: u32) -> Result<Vec<Span>, AllocError>
    requires { piece + 1 < 2 ^ 32 }
    ensures count { IfOk result (λ made. length made.items ≡ shards) }
    ensures each { IfOk result (λ made. (shard : ℕ) (x : Span) → slice_get made.items shard ≡ Some x → x ≡ span piece (piece + 1)) }
{
    let mut parts = Vec::with_capacity(alloc, shards as usize)?;
    for _ in 0..shards {
        parts.push(Span {
            first: piece,
            end: piece + 1,
        })?;
    }
    Ok(parts)
}

impl Parts for Grind {
    type Rest = u32;

    ghost rest = { λ j piece. piece };

    fn parts(&self, alloc: Global, piece: u32) -> Result<(Vec<Span>, u32), AllocError> {
        prove!(piece < self.pieces);
        if self.comes_to_zero(piece) {
            return Err(AllocError);
        }
        Ok((parts_of(alloc, self.shards, piece)?, piece))
    }
}

/// Performs the pieces without a map.
pub struct Rounds;

impl Work<Grind> for Rounds {
    type Answer = u32;

    type Error = ();

    type Seat = ();

    ghost use Rattle.std.specs.Prelude.{◌≡◌};

    ghost fits = { λ w j s. Unit {0} };

    ghost good = { λ w j piece answer. answer ≡ piece };

    ghost bad = { λ w j piece error. Unit {0} };

    ghost done = { λ w s piece answer. Unit {0} };

    ghost same = { λ w s t. Unit {0} };

    fn perform(
        &self,
        _alloc: Global,
        job: &Grind,
        _seat: &mut (),
        piece: u32,
    ) -> Result<u32, WorkStop<()>> {
        if job.comes_to_zero(piece) {
            return Err(WorkStop::OutOfMemory);
        }
        Ok(piece)
    }

    ghost same_itself = { λ w s. tt };

    ghost same_then = { λ w a b c p q. tt };
}
