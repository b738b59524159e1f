//! All pieces of a job enter a map in shards, by workers in threads.
//!
//! A job of this kind tells what a piece gives: a part for each shard, and a rest. [`enter_all`] has workers perform the
//! pieces and enter their parts as they go. A part whose shard is busy for long is kept, and enters once the workers
//! have ended. So in the end each part is in the map, whatever the workers' order was.
#![tactic(auto)]

mod enters;
mod finish;
mod parts;
mod phase;
mod seats;

pub use parts::Parts;
pub use phase::{AllEntered, enter_all};
