//! The parts of context processing that process no other context and create no term (JSON-LD 1.1 API, section 4.1.2).
//!
//! `settings` takes the base IRI, the vocabulary mapping, the default language and the default base direction of a local
//! context, `items` has what null, `@propagate` and `@version` do, and `remote` finds remote and imported contexts in the store.
//!
//! There is no `specs/` here: each contract names a step of `ctx_model`.
#![tactic(auto)]

mod items;
mod remote;
mod settings;

pub use items::{carried, is_known_version, nullify, propagates_in};
pub use remote::{chain_with, import, load, resolve_by};
pub use settings::take_settings;
