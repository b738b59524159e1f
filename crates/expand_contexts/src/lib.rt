//! The contexts with which a value is expanded (JSON-LD 1.1 API, section 5.1.2, steps 3, 4.2, 7 to 12 and 13.8.3): leaving a context that
//! isn't propagated, property-scoped contexts, a map's own `@context`, and type-scoped contexts.
//!
//! A loop over the items of an array keeps a [`Memo`]: the last contexts that were made there, so that a context that repeats from item to
//! item is processed once.
#![tactic(auto)]

mod active;
mod entering;
mod memo;
mod scoped;
mod terms;
mod typing;

pub use active::Active;
pub use entering::{Entered, enter, index_context, lent_scope, scalar_context};
pub use memo::Memo;
