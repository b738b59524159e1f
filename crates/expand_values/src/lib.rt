//! Values of expansion: value expansion (JSON-LD 1.1 API, section 5.3), and what puts values into arrays and maps.
//!
//! A map that is being made is a [`Draft`], into which entries can be put in any order.
#![tactic(auto)]

mod draft;
mod kinds;
mod lists;
mod members;
mod scalars;

pub use draft::Draft;
pub use kinds::{is_list_object, is_lone, is_node_object, is_null, is_text, is_value_object};
pub use lists::{as_items, graph_object, join, list_object, one_item, values_of};
pub use members::{add_all, add_value, has, put_text, values_taken};
pub use scalars::{direction_for, expand_value, is_kind, literal, scalar_value, string_object};
