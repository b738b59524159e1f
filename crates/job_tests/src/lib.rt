//! Tests of the job machine, through its public calls: worked examples, and every interleaving of a small job.
#![tactic(auto)]

#[cfg(test)]
mod example_tests;
#[cfg(test)]
mod interleaving_tests;
