// Node map generation.
ghost use Rattle.std.specs.Prelude.{◌≡◌, Ok, IfOk, MatchResult};
ghost use Rattle.node_model.specs.Generating.{generate, outcome};
ghost use Rattle.node_ops.specs.Views.{state_view};
ghost use Rattle.node_types.specs.Views.{Stops};

use crate::nodes::Nodes;
use ld_tree::{Text, Trees};
use node_types::{MapStop, NodeMap};
use node_walk::walk_document;
use std::alloc::{AllocError, Global};

/// The node map of the items of an expanded document, and how many labels were issued for it (JSON-LD 1.1 API, section 7.2).
///
/// # Errors
///
/// `Conflict` where a node has two different indexes (step 6.8), and `OutOfMemory`.
pub fn node_map(alloc: Global, items: &Trees) -> Result<(NodeMap, u64), MapStop>
    ensures { MatchResult result (λ r. generate items.now ≡ Ok (record { graphs = r.0.graphs; issued = r.1 })) (Stops (generate items.now)) }
{
    let copy = copy_of(alloc, items)?;
    into_node_map(alloc, copy)
}

fn copy_of(alloc: Global, items: &Trees) -> Result<Trees, AllocError>
    ensures { IfOk result (λ copy. copy ≡ items.now) }
{
    let mut copy = Trees::with_capacity(alloc, items.len())?;
    for item in items {
        copy.push(item.copy(alloc)?)?;
    }
    Ok(copy)
}

/// The same as [`node_map`], of items that are taken apart: what they say of the nodes is moved and not copied.
///
/// # Errors
///
/// `Conflict` where a node has two different indexes (step 6.8), and `OutOfMemory`.
pub fn into_node_map(alloc: Global, items: Trees) -> Result<(NodeMap, u64), MapStop>
    ensures { MatchResult result (λ r. generate items ≡ Ok (record { graphs = r.0.graphs; issued = r.1 })) (Stops (generate items)) }
{
    let default_graph = Text::new(alloc, "@default")?;
    let mut nodes = Nodes::new(alloc, &default_graph)?;
    walk_document(alloc, &mut nodes, &default_graph, items)?;
    finished(alloc, nodes)
}

/// The first conflict, or else the node map.
fn finished(alloc: Global, nodes: Nodes) -> Result<(NodeMap, u64), MapStop>
    ensures { MatchResult result (λ r. outcome (state_view nodes).conflict (state_view nodes) ≡ Ok (record { graphs = r.0.graphs; issued = r.1 }))
        (Stops (outcome (state_view nodes).conflict (state_view nodes))) }
{
    let Nodes {
        graphs,
        labels,
        conflict,
    } = nodes;
    if let Some(conflict) = conflict {
        return Err(MapStop::Conflict(conflict));
    }
    let issued = labels.into_count();
    let graphs = graphs.into_members(alloc)?;
    Ok((NodeMap { graphs }, issued))
}
