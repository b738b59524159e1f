//! IRI references: their five parts, and a reference resolved against a base (RFC 3986).
#![tactic(auto)]

mod dots;
mod reference;
mod resolution;

pub use reference::{Parts, has_scheme, is_well_formed, split};
pub use resolution::resolve;
