//! Runs of neighbouring chunks: what their operations add to a node map in a shard, put together in any order.
//!
//! A [`Run`] is a [`Merge`](job_core::Merge) value. The later of two runs moves into the earlier one, in a time linear in the later one, and
//! nothing is copied or compared but the keys of nodes and graphs. All growth comes before the first move, so a refusal of memory leaves both
//! runs as they were.
#![tactic(auto)]

mod adding;
mod conflict;
mod merging;
mod run;

pub use conflict::{ConflictAt, first_conflict};
pub use run::{Run, merge_next, merge_range};
