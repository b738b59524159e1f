//! JSON trees, and the two lists that they are made of.
//!
//! A [`Tree`] is a JSON value (RFC 8259) whose numbers are whole, or the number 1.1. Contracts see a [`Text`] as its
//! bytes, [`Trees`] as a list of trees, and [`Members`] as a list of pairs of key and tree whose keys strictly ascend.
#![tactic(auto)]

mod building;
mod copying;
mod equality;
mod value;
mod walking;
mod weighing;

pub use ld_text::Text;
pub use value::{Members, Tree, Trees};
pub use walking::{Entries, IntoEntries, IntoValues, Values};
pub use weighing::weight;
