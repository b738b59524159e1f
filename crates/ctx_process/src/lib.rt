//! Context processing (JSON-LD 1.1 API, section 4.1).
//!
//! [`process`] gives the active context that a local context makes of another one, or the standard's error code. Its contract
//! says that it is the definition `process` of `ctx_model`, which follows the standard step by step.
//!
//! Term creation is `ctx_terms`, which is handed a call that tries a scoped context. So the functions of `processing` that call
//! themselves are those for items and for remote and scoped contexts.
//!
//! There is no `specs/` here: the contracts name steps of `ctx_model`, and `Answers` and the views of `ctx_entries`.
#![tactic(auto)]

mod map;
mod processing;

pub use ctx_entries::ContextStop;
pub use processing::{Flags, process};
