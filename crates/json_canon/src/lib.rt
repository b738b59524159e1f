//! Canonical JSON: the one text of a tree that the JSON Canonicalization Scheme gives (RFC 8785).
//!
//! [`canonical`] writes it. [`less_utf16`] is the order in which it puts the members of an object.
#![tactic(auto)]

mod laws;
mod order;
mod writing;

pub use laws::{canonical_text_reads_back, less_utf16_orders_texts, members_are_sorted};
pub use order::less_utf16;
pub use writing::canonical;
