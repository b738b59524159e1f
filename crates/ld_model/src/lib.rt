//! The definitions that the other crates' contracts speak of: what a JSON tree is, what its text is, how blank nodes
//! are labelled, and what node map generation and flattening give.
//!
//! `specs/` has them, a file for each notion, and `proofs/` their laws and worked examples. There is no code here.
#![tactic(auto)]
