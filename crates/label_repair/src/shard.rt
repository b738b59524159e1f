// Shards of a node map.
use ld_tree::{Text, Tree};
use node_types::Conflict;
use std::collections::BTreeMap;

/// The conflict of two indexes of a node, and where it is.
#[derive(Drop)]
pub struct PlacedConflict {
    /// The chunk of the operation that sets the second index.
    pub chunk: u32,
    /// The number of that operation, from 0, among all of the chunk.
    pub op: u64,
    /// The node by its label, and both indexes.
    pub conflict: Conflict,
}

/// The nodes of a graph, each by its id as JSON, in any order.
pub(crate) type Pairs = Vec<(Text, Tree)>;

/// The nodes of graphs, by the labels of the graphs.
pub(crate) type PairGraphs = BTreeMap<Text, Pairs>;

/// A shard of a node map: the graphs, each with the nodes that fall in the shard, and the first conflict in them. The nodes are finished. They
/// stand as they were finished: whoever puts shards together sorts them by their ids, once.
#[derive(Drop)]
pub struct NodeShard {
    pub(crate) graphs: PairGraphs,
    pub(crate) conflict: Option<PlacedConflict>,
}
