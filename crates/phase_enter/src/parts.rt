//! Jobs that tell what a piece gives.
ghost use Rattle.std.specs.Prelude.{◌≡◌, ℕ, ◌<◌, false, IfOk};
ghost use Rattle.phase_enter.specs.Entries.{AreParts};

use job_core::Piecework;
use std::alloc::{AllocError, Global};

/// A job whose pieces give their parts all at once, and something beside them.
pub trait Parts: Piecework {
    /// What a piece gives beside its parts.
    type Rest;

    // What a piece gives beside its parts: the job, the piece.
    ghost rest: { Self → ℕ → Self.Rest };

    /// The parts of a piece that doesn't fail, one for each shard, in order of shards, and the rest.
    ///
    /// # Errors
    ///
    /// `AllocError` where there is no memory.
    fn parts(&self, alloc: Global, piece: u32) -> Result<(Vec<Self::Part>, Self::Rest), AllocError>
        requires piece { (piece < Self.count self.now) × (Self.fails self.now piece ≡ false) }
        ensures parts { IfOk result (λ made. AreParts (Self.shard_count self.now) (Self.part self.now) piece made.0.items) }
        ensures rest { IfOk result (λ made. made.1 ≡ rest self.now piece) };
}
