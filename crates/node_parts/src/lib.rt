//! The node map of an expanded document, made of parts (JSON-LD 1.1 API, section 7.2).
//!
//! The document's items are divided into chunks. Each chunk's operations are summed behind those of the chunks before it, and the names
//! that need labels are noted in the order of first use, which numbers the labels; then the sum is put under labels. [`node_map_by_parts`] has
//! the same contract as generation at once.
#![tactic(auto)]

mod digest;
mod parts;

pub use parts::node_map_by_parts;
