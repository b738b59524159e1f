//! Term creation (JSON-LD 1.1 API, section 4.2.2, "Create Term Definition"), with IRI expansion by a local context (section
//! 5.2.2), which may have to create a term first.
//!
//! [`create_terms`] creates the terms of a local context. A scoped context is tried by a call that is given; so nothing here
//! processes contexts. Creating a term may need another term, whose creation is handed on as a closure: only `create` and
//! `create_undefined` of `creation` call themselves.
//!
//! Of `specs/`, a reviewer reads `Calls.antt`, which says what the given call has to do. `View.antt` stands between calls.
#![tactic(auto)]

mod container;
mod creation;
mod expansion;
mod finish;
mod mapping;
mod start;
mod term;

pub use creation::create_terms;
