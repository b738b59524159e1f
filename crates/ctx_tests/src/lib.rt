//! Tests of the types and the store of contexts, through their public functions.
#![tactic(auto)]

#[cfg(test)]
mod expansion_tests;
#[cfg(test)]
mod fixtures;
#[cfg(test)]
mod store_tests;
#[cfg(test)]
mod term_tests;
