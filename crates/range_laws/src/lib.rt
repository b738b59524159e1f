//! Laws of expansion, as `expand_model` defines it (JSON-LD 1.1 API, section 5.1): what expansion with ranges of items that are answered
//! from elsewhere has to do with plain expansion.
//!
//! There is no code here. `specs/` says when answers are right, and `proofs/` that expansion with right answers is expansion, its first error
//! too.
#![tactic(auto)]
