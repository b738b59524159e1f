//! Labels of blank nodes, numbered once all of a document's chunks have told which names they use (JSON-LD 1.1 API, section 7.4), and the node
//! map that comes of the chunks' sums under these labels.
//!
//! [`number_labels`] numbers the labels. [`rename`] makes of a run, which is what all chunks say in a shard, the shard of the node map, whose
//! nodes are finished, and [`join_shards`] puts the shards together and sorts the nodes by their ids. Contracts see [`Labels`] as the names that have labels, in the order of first use; the number of
//! a name is its place among them.
#![tactic(auto)]

mod finishing;
mod joining;
mod labels;
mod numbering;
mod renaming;
mod runs;
mod shard;

pub use joining::join_shards;
pub use labels::Labels;
pub use numbering::number_labels;
pub use runs::rename;
pub use shard::{NodeShard, PlacedConflict};
