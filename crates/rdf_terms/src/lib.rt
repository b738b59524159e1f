//! RDF terms and quads (RDF 1.1 Concepts), and the lexical forms that JSON-LD's conversion to RDF gives literals.
//!
//! A [`Term`] is an IRI, a blank node or a literal; a [`Quad`] is a triple with the name of its graph, if it has one.
//! `specs/Quad.antt` says which quads are valid.
#![tactic(auto)]

mod language;
mod laws;
mod number;
mod term;

pub use language::is_language_tag;
pub use laws::{double_text_cuts_only_zeros, valid_quads_are_named};
pub use number::double_text;
pub use term::{Quad, Term};
