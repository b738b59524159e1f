//! Jobs that come in pieces.
ghost use Rattle.std.specs.Prelude.{◌≡◌, ℕ, ◌+◌, ◌<◌, Bool, false};

use crate::merge::Merge;

/// A job in pieces. A piece fails, or it gives a part for each shard. Neither depends on when or by whom the piece is
/// performed, so both are meanings of the job.
pub trait Piecework {
    /// What a piece gives for one shard.
    type Part: Merge;

    // The number of pieces.
    ghost count: { Self → ℕ };

    // The number of shards.
    ghost shard_count: { Self → ℕ };

    // Whether a piece fails.
    ghost fails: { Self → ℕ → Bool };

    // The part that a shard gets of a piece: the job, the shard, the piece.
    ghost part: { Self → ℕ → ℕ → Self.Part };

    /// The number of pieces.
    fn pieces(&self) -> u32
        ensures { result ≡ count self.now };

    /// The number of shards.
    fn shards(&self) -> u32
        ensures { result ≡ shard_count self.now };

    // The part of a piece that doesn't fail covers just that piece.
    ghost part_covers: { (job : Self) (shard piece : ℕ) → shard < shard_count job → piece < count job → fails job piece ≡ false → (Self.Part.start_of (part job shard piece) ≡ piece) × (Self.Part.end_of (part job shard piece) ≡ piece + 1) };

    ghost part_valid: { (job : Self) (shard piece : ℕ) → shard < shard_count job → piece < count job → fails job piece ≡ false → Self.Part.valid (part job shard piece) };
}
