//! Tests of reading and writing JSON, and of its canonical text. They call the public functions alone.
#![tactic(auto)]

#[cfg(test)]
mod canonical_tests;
#[cfg(test)]
mod corpus;
#[cfg(test)]
mod list_tests;
#[cfg(test)]
mod reading_tests;
#[cfg(test)]
mod tree_tests;
