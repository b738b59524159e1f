//! The terminals of RDF 1.1 N-Quads, section 4, each read from a place in some bytes.
//!
//! Each call answers `None` exactly where no such terminal begins at the place, and else its value and the place behind
//! it. `specs/Terminals.antt` says what each terminal is.
#![tactic(auto)]

mod enclosed;
mod escape;
mod iri;
mod label;
mod language;
mod place;
mod string;

pub use enclosed::Enclosed;
pub use iri::iriref_at;
pub use label::label_at;
pub use language::langtag_at;
pub use string::string_at;
