// What node map generation gives.
ghost use Rattle.std.specs.Prelude.{◌≡◌};

use ld_tree::{Members, Text};
use std::alloc::AllocError;
use thiserror::Error;

/// What node map generation gives: for each name of a graph its nodes, each at its id. The default graph's name is
/// `@default`.
#[derive(Drop)]
pub struct NodeMap {
    /// The graphs, each a map from ids to nodes.
    pub graphs: Members,
}

/// Two different `@index` of one node (JSON-LD 1.1 API, section 7.2, step 6.8). Of several conflicts it is the first one on the way
/// through the document.
#[derive(Debug, Drop, Error)]
#[error("conflicting indexes at {}", .node.as_str())]
pub struct Conflict {
    /// The node's id, as it is in the node map.
    pub node: Text,
    /// The index that it had.
    pub first: Text,
    /// The different one.
    pub second: Text,
}

/// Why there is no node map.
#[derive(Debug, Drop, Error)]
pub enum MapStop {
    /// Two different indexes of one node.
    #[error(transparent)]
    Conflict(Conflict),
    /// Memory was refused, or more labels than a `u64` can count would have to be issued.
    #[error("out of memory")]
    OutOfMemory,
}

impl From<AllocError> for MapStop {
    ghost use Rattle.node_types.specs.declared.generated.MapStop.TheVariants.{OutOfMemory};

    ghost from_gives = { λ _ e. e ≡ OutOfMemory };

    fn from(_error: AllocError) -> MapStop {
        MapStop::OutOfMemory
    }
}
