// A job with shards, no piece of which fails.
ghost use Rattle.std.specs.Prelude.{◌≡◌};

use crate::job::Span;
use job_core::Piecework;

/// A job of so many pieces and shards. What a piece gives to a shard is the piece itself.
#[derive(Drop)]
pub struct Spread {
    pub pieces: u32,
    pub shards: u32,
}

impl Piecework for Spread {
    type Part = Span;

    ghost use Rattle.std.specs.Prelude.{◌+◌, false, refl};
    ghost use Rattle.thread_tests.specs.Jobs.{span};

    ghost count = { λ j. j.pieces };

    ghost shard_count = { λ j. j.shards };

    ghost fails = { λ j piece. false };

    ghost part = { λ j shard piece. span piece (piece + 1) };

    fn pieces(&self) -> u32 {
        self.pieces
    }

    fn shards(&self) -> u32 {
        self.shards
    }

    ghost part_covers = { λ j shard piece s p e. (refl, refl) };

    ghost part_valid = { λ j shard piece s p e. tt };
}
