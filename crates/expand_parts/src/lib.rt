//! The parts of expansion that expand nothing themselves (JSON-LD 1.1 API, sections 5.1.2 and 5.3): value expansion, entries whose values are
//! told as they stand, what is made of the outcomes of others, and the tests of a whole map.
//!
//! A map that is being made is a [`Draft`], into which entries can be put in any order.
#![tactic(auto)]

mod entries;
mod indexes;
mod items;
mod keywords;
mod properties;

pub use entries::{add, begin, finish, tell};
pub use expand_entries::{finish_map, keyword_entry};
pub use expand_types::PartStop;
pub use expand_values::{Draft, add_value, expand_value, join, scalar_value};
pub use indexes::add_index;
pub use items::{has_lists, splice, whole_items};
