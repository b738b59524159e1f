//! The sum of a chunk of an expanded document (JSON-LD 1.1 API, section 7.2), made on the way through its items, which stay: several threads can
//! have chunks of one document at once.
//!
//! `chunk_ops` goes through a chunk and notes an operation for each step of node map generation, and `subtree_summary` makes sums of a list of
//! operations. [`summarise_chunk`] goes through the chunk as `chunk_ops` does, and tells the sums at once what it would have noted. No list
//! of operations is made, values are copied and texts shared only where a sum keeps them, and the outcome is the same. [`sum_chunk`] does so behind
//! what earlier chunks said, so that chunks are summed one after another with nothing to merge.
#![tactic(auto)]

mod chunks;
mod summing;

pub use chunks::{sum_chunk, summarise_chunk};
