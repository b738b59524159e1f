//! Tests of the sources, sinks and folders of `ld_io`, through its public functions.
#![tactic(auto)]

#[cfg(test)]
mod folder_tests;
#[cfg(test)]
mod memory_tests;
#[cfg(test)]
mod stream_tests;
