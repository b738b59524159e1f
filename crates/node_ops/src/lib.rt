//! Node map generation (JSON-LD 1.1 API, section 7.2).
//!
//! [`into_node_map`] makes the node map of an expanded document, and takes the document apart for it; [`node_map`] does so with a copy.
//!
//! What a part of a document says of a node map has its calls and types here, too: [`ops_of`] gives the operations of a [`Chunk`], with
//! [`Name`]s in place of labels, and [`shard_of`] the shard that a node falls in.
#![tactic(auto)]

mod generation;
mod labels;
mod nodes;

pub use chunk_ops::{Chunk, ops_of, shard_of};
pub use generation::{into_node_map, node_map};
pub use node_types::{Conflict, MapStop, NodeMap, label_text};
pub use op_types::{Entries, Entry, Name, Op, Ops};
