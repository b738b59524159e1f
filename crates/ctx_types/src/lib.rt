//! Active contexts and their term definitions (JSON-LD 1.1 API, section 4.1), and IRI expansion where there is no local
//! context (section 5.2).
//!
//! An [`ActiveContext`] is copied in a time that does not grow with the number of its terms: [`Terms`] and the previous
//! contexts have several owners, and a change of terms makes anew no more than it touches. Contracts see [`Terms`]
//! as a list of pairs of term and definition, in strictly ascending order of the terms' bytes, and what is [`Shared`] as
//! the value itself.
#![tactic(auto)]

mod branch;
mod context;
mod definition;
mod expansion;
mod shared;
mod terms;

pub use context::{ActiveContext, Previous};
pub use definition::{Side, Slot, TermDef, same_text};
pub use expansion::{
    as_iri, by_definition, colon_parts, expand_iri, has_keyword_form, is_keyword, is_whole, joined,
};
pub use shared::Shared;
pub use terms::Terms;
