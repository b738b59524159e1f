//! The job machine: what several seats may do with the pieces of one job, in which order, and what the job comes to.
//!
//! A seat takes a piece that waits. A piece that fails is reported. Any other is entered in every shard, each time
//! under that shard's turn, unless an earlier piece is seen to have failed: then it may be skipped.
//!
//! [`Piecework`] is such a job as a trait, with its parts for each shard, and [`Merge`] says how neighbouring parts come
//! together.
#![tactic(auto)]

mod merge;
mod piecework;
mod place;
mod runs;
mod saying;
mod state;

pub use merge::{Merge, Unmerged};
pub use piecework::Piecework;
pub use runs::every_closed_run;
pub use state::JobState;
use thiserror::Error;

/// A step of the machine. Seats, pieces and shards go by number, from 0 on.
#[derive(Clone, Copy, Debug, PartialEq, Eq)]
pub enum JobStep {
    /// The seat takes a piece that waits, and holds it from then on.
    Take { seat: u32, piece: u32 },
    /// The seat reports that a piece that it holds fails.
    Fail { seat: u32, piece: u32 },
    /// The seat looks at the least failure so far.
    Look { seat: u32 },
    /// The seat gives up a piece that it holds, having seen an earlier one fail.
    Skip { seat: u32, piece: u32 },
    /// The seat takes the turn of a shard.
    Turn { seat: u32, shard: u32 },
    /// The seat enters a piece that it holds in a shard whose turn it has, and gives the turn back.
    Enter { seat: u32, shard: u32, piece: u32 },
    /// The job ends.
    Close,
}

/// What the first guard that failed found in the state.
#[derive(Clone, Copy, Debug, PartialEq, Eq)]
pub enum Kept {
    /// A number of the step is out of range.
    Range,
    /// Whether the piece waits.
    Waits(bool),
    /// The seat that holds the piece.
    HeldBy(Option<u32>),
    /// Whether the piece fails.
    Fails(bool),
    /// The least failure that the seat has seen, or the number of pieces.
    Seen(u32),
    /// The seat that has the shard's turn.
    TurnOf(Option<u32>),
    /// Whether the piece is entered in the shard.
    Entered(bool),
    /// The least piece that is not finished.
    Unfinished { piece: u32 },
    /// The job is closed.
    Closed,
}

/// A step that was refused, and why.
#[derive(Clone, Copy, Debug, PartialEq, Eq, Error)]
#[error("{step:?} is not allowed: {kept}")]
pub struct NotAllowed {
    /// The step.
    pub step: JobStep,
    /// What the first guard that failed found.
    pub kept: Kept,
}

/// What a job has come to.
#[derive(Clone, Copy, Debug, PartialEq, Eq)]
pub enum Outcome {
    /// The job isn't closed yet.
    Unclosed,
    /// No piece fails, and each is entered in every shard.
    AllEntered,
    /// This piece fails, and none before it does.
    FirstFailure { piece: u32 },
}
