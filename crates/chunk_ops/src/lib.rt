//! The operations of a chunk of an expanded document (JSON-LD 1.1 API, section 7.2), from that chunk alone.
//!
//! Node map generation issues labels as it goes, so each part of a document waits for those before it. What is noted here has names in
//! place of labels: [`ops_of`] goes through a [`Chunk`] as generation would, and notes each step that would change the node map. So chunks
//! may be taken in any order, and by several threads. [`shard_of`] divides what they say among shards, by nodes.
#![tactic(auto)]

mod chunk;
mod notes;
mod operations;
mod shard;

pub use chunk::{Chunk, ops_of};
pub use operations::{
    add_entry, add_type, append_list, ensure_graph, ensure_node, ensure_property, set_index,
    use_label,
};
pub use shard::shard_of;
