// A job with shards whose pieces give their parts at once. Some parts are empty.
ghost use Rattle.std.specs.Prelude.{◌≡◌, ◌+◌, ◌<◌, ◌^◌, ℕ, Some, IfOk, length, slice_get};
ghost use Rattle.thread_tests.specs.Patches.{is_filled, patch_of};

use job_core::{Merge, Piecework, Unmerged};
use phase_enter::Parts;
use std::alloc::{AllocError, Global};

/// The pieces from one number to before another, and whether one of them gave something.
#[derive(Drop)]
pub struct Patch {
    pub first: u32,
    pub end: u32,
    pub filled: bool,
}

impl Merge for Patch {
    ghost use Rattle.std.specs.Prelude.{refl, false};
    ghost use Rattle.thread_tests.specs.Patches.{patch, over, or_nothing, or_assoc};

    ghost valid = { λ s. Unit {0} };

    ghost nothing = { λ at. patch at at false };

    ghost start_of = { λ s. s.first };

    ghost end_of = { λ s. s.end };

    ghost both = { over };

    fn empty(_alloc: Global, at: u32) -> Patch {
        Patch {
            first: at,
            end: at,
            filled: false,
        }
    }

    fn first(&self) -> u32 {
        self.first
    }

    fn end(&self) -> u32 {
        self.end
    }

    fn merge(self, _alloc: Global, next: Patch) -> Result<Patch, Unmerged<Patch>> {
        Ok(Patch {
            first: self.first,
            end: next.end,
            filled: self.filled || next.filled,
        })
    }

    ghost nothing_covers = { λ at. (refl, refl) };

    ghost nothing_valid = { λ at. tt };

    ghost both_covers = { λ a b e. (refl, refl) };

    ghost both_valid = { λ a b v w e. tt };

    ghost left_nothing = { λ a v. refl };

    ghost right_nothing = { λ a v. or_nothing a };

    ghost associative = { λ a b c u v w e f. or_assoc a b c };
}

/// A job of so many pieces and shards. It is refused memory at one piece.
#[derive(Drop)]
pub struct Patched {
    pub pieces: u32,
    pub shards: u32,
    pub refused_at: Option<u32>,
}

/// Whether a piece gives something to a shard.
pub fn fills(shard: u32, piece: u32) -> bool
    ensures { result ≡ is_filled shard piece }
{
    (u64::from(shard) + u64::from(piece)) % 3 != 0
}

impl Piecework for Patched {
    type Part = Patch;

    ghost use Rattle.std.specs.Prelude.{◌+◌, false, refl};
    ghost use Rattle.thread_tests.specs.Patches.{patch_of};

    ghost count = { λ j. j.pieces };

    ghost shard_count = { λ j. j.shards };

    ghost fails = { λ j piece. false };

    ghost part = { λ j shard piece. patch_of shard piece };

    fn pieces(&self) -> u32 {
        self.pieces
    }

    fn shards(&self) -> u32 {
        self.shards
    }

    ghost part_covers = { λ j shard piece s p e. (refl, refl) };

    ghost part_valid = { λ j shard piece s p e. tt };
}

/// The parts of a piece.
fn patches_of(alloc: Global, shards: u32, piece: u32) -> Result<Vec<Patch>, AllocError>
    requires { piece + 1 < 2 ^ 32 }
    ensures count { IfOk result (λ made. length made.items ≡ shards) }
    ensures each { IfOk result (λ made. (shard : ℕ) (x : Patch) → slice_get made.items shard ≡ Some x → x ≡ patch_of shard piece) }
{
    let mut parts = Vec::with_capacity(alloc, shards as usize)?;
    for shard in 0..shards {
        parts.push(Patch {
            first: piece,
            end: piece + 1,
            filled: fills(shard, piece),
        })?;
    }
    Ok(parts)
}

impl Parts for Patched {
    type Rest = u32;

    ghost rest = { λ j piece. piece };

    fn parts(&self, alloc: Global, piece: u32) -> Result<(Vec<Patch>, u32), AllocError> {
        prove!(piece < self.pieces);
        if self.refused_at == Some(piece) {
            return Err(AllocError);
        }
        Ok((patches_of(alloc, self.shards, piece)?, piece))
    }
}
