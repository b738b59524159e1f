//! Tests of texts.
#![tactic(auto)]

#[cfg(test)]
mod order;
#[cfg(test)]
mod sizes;
