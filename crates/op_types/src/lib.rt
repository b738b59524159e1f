//! Names, entries and operations: what a chunk of an expanded document says of the node map, before labels are issued (JSON-LD 1.1 API,
//! section 7.2).
//!
//! Contracts see a [`Name`] by `name_view`, an [`Entry`] by `entry_view` and an [`Op`] by `op_view`, which give what `op_model` defines;
//! [`Entries`] and [`Ops`] are lists of these. Names are keys of maps: they are equal and hashed as the definitions tell them apart.
#![tactic(auto)]

mod entry;
mod name;
mod op;
mod walking;

pub use entry::{Entries, Entry};
pub use name::{Name, NodeKey};
pub use op::{Op, Ops};
pub use walking::{EntriesIntoIter, EntriesIter, OpsIntoIter, OpsIter};
