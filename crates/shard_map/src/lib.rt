//! Shards into which the parts of a job's pieces come, from several threads and in any order, each just once.
//!
//! A shard has a word and a slot. The word is odd while one thread has the shard's turn; that thread alone then works
//! on the slot, which has the runs of the shard in ascending order. Who takes part has a [`MapSeat`], with a list of the
//! pairs of shard and piece that it entered. A seat has a share; beside one that has all of it no other seat is left,
//! so it is never kept waiting. The rule that holds between any two steps stands in `specs/Rule.antt`.
#![tactic(auto)]

mod close;
mod entering;
mod handles;
mod map;
mod marks;
mod open;
mod runs;
mod turns;
mod view;

pub use entering::Entering;
pub use handles::{MapSeat, ShardMap};
pub use view::{Keep, View};
