// Outcomes of node map generation, as texts.

use ld_json::{Tree, text_of};
use node_ops::{MapStop, NodeMap};
use std::alloc::{AllocError, Global};

/// A node map, with its count of labels, or else the conflict.
#[derive(Drop)]
pub(crate) struct Outcome {
    /// Its text.
    pub(crate) text: String,
    /// Whether it is a conflict.
    pub(crate) is_conflict: bool,
}

/// The outcome of generation, where so many labels were issued.
pub(crate) fn outcome_of(
    alloc: Global,
    made: Result<NodeMap, MapStop>,
    labels: u64,
) -> Result<Outcome, AllocError> {
    match made {
        Ok(map) => Ok(Outcome {
            text: map_text(alloc, map, labels)?,
            is_conflict: false,
        }),
        Err(stop) => Ok(Outcome {
            text: stop_text(alloc, stop)?,
            is_conflict: true,
        }),
    }
}

fn map_text(alloc: Global, map: NodeMap, labels: u64) -> Result<String, AllocError> {
    let bytes = text_of(alloc, &Tree::Map(map.graphs))?;
    let text = str::from_utf8(bytes.as_slice()).unwrap_or("no text");
    format!(in alloc; "{labels} labels, {text}")
}

fn stop_text(alloc: Global, stop: MapStop) -> Result<String, AllocError> {
    match stop {
        MapStop::Conflict(conflict) => {
            let node = conflict.node.as_str();
            let first = conflict.first.as_str();
            let second = conflict.second.as_str();
            format!(in alloc; "conflicting indexes at {node}: {first} and {second}")
        }
        MapStop::OutOfMemory => Err(AllocError),
    }
}
