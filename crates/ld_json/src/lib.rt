//! JSON texts: reading a text as a tree, the places of a document, and the compact text of a tree.
//!
//! The trees and their lists are those of `ld_tree`, which stand here under their own names too.
#![tactic(auto)]

mod by_tokens;
mod by_value;
mod laws;
mod location;
mod marks;
mod numbers;
mod pointer;
mod reading;
mod saying;
mod token_numbers;
mod writing;

pub use laws::named_byte_begins_the_first_refused_number;
pub use ld_tree::{Entries, IntoEntries, IntoValues, Members, Text, Tree, Trees, Values, weight};
pub use location::{Place, Step};
pub use pointer::pointer_of;
pub use reading::{ReadRefusal, read_tree};
pub use writing::text_of;
