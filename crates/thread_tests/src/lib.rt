//! Tests of what threads stand on, through its public calls: the error word, the pool, the map in shards, and jobs run and entered
//! with workers in threads.
#![tactic(auto)]

#[cfg(test)]
mod deep_tests;
#[cfg(test)]
mod enter_tests;
mod job;
#[cfg(test)]
mod map_tests;
mod patched;
#[cfg(test)]
mod run_tests;
mod spread;
mod watch;
#[cfg(test)]
mod word_tests;

pub use job::{Doubles, Meeting, Periodic, Span, Tally};
pub use patched::{Patch, Patched, fills};
pub use spread::Spread;
pub use watch::Watch;
