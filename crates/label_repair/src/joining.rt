// Shards put together.
ghost use Rattle.std.specs.Prelude.{◌≡◌, Ok, MatchResult, IfOk, OnOk};
ghost use Rattle.node_model.specs.Maps.{with_at};
ghost use Rattle.ld_tree.specs.Built.{put_all, built};
ghost use Rattle.sum_model.specs.Conflicts.{is_before};
ghost use Rattle.shard_model.specs.Joined.{earlier_of};
ghost use Rattle.label_repair.specs.Finished.{graph_put, pairs_put, default_pairs, graph_trees, outcome_of, finished_joined};
ghost use Rattle.label_repair.specs.Shards.{place_of, conflict_in, pairs_view, built_view, shards_view, StopsJoined};

use crate::finishing::put_graph;
use crate::shard::{NodeShard, PairGraphs, Pairs, PlacedConflict};
use ld_tree::{Members, Text, Tree};
use node_types::{MapStop, NodeMap};
use std::alloc::{AllocError, Global};
use std::collections::BTreeMap;

/// The node map whose shards these are: each graph has the nodes that any shard has in it, and the default graph is there in any case. No node
/// of a graph should be in two of them; else the later shard's is taken. It takes n log n steps at most, in however many shards the nodes are.
///
/// # Errors
///
/// `Conflict` where a shard has one, the earliest by chunk and operation (JSON-LD 1.1 API, section 7.2, step 6.8), and `OutOfMemory`.
pub fn join_shards(alloc: Global, shards: Vec<NodeShard>) -> Result<NodeMap, MapStop>
    ensures { MatchResult result (λ map. finished_joined (shards_view shards.items) ≡ Ok map.graphs) (StopsJoined (finished_joined (shards_view shards.items))) }
{
    let mut graphs = default_graph(alloc)?;
    let mut conflict = None;
    for shard in shards {
        let NodeShard {
            graphs: more,
            conflict: later,
        } = shard;
        add_graphs(&mut graphs, more)?;
        conflict = the_earlier(conflict, later);
    }
    outcome(alloc, conflict, graphs)
}

/// The first conflict, or else the node map.
fn outcome(
    alloc: Global,
    conflict: Option<PlacedConflict>,
    graphs: PairGraphs,
) -> Result<NodeMap, MapStop>
    ensures { MatchResult result (λ map. outcome_of (conflict_in conflict) (built_view graphs.entries) ≡ Ok map.graphs) (StopsJoined (outcome_of (conflict_in conflict) (built_view graphs.entries))) }
{
    match conflict {
        Some(placed) => Err(MapStop::Conflict(placed.conflict)),
        None => Ok(NodeMap {
            graphs: maps_of(alloc, graphs)?,
        }),
    }
}

/// Each graph as a map of its nodes. Where the ids of a graph ascend they are left as they are, and else sorted once.
fn maps_of(alloc: Global, graphs: PairGraphs) -> Result<Members, AllocError>
    ensures { IfOk result (λ ms. ms ≡ graph_trees (built_view graphs.entries)) }
{
    let mut members = Members::with_capacity(alloc, graphs.len())?;
    for (name, pairs) in graphs {
        let nodes = Members::from_pairs(pairs)?;
        members.set(name, Tree::Map(nodes))?;
    }
    Ok(members)
}

/// The default graph, and nothing in it.
#[tactic(auto, unfolding(node_model::specs::Maps::with_at))]
fn default_graph(alloc: Global) -> Result<PairGraphs, AllocError>
    ensures { IfOk result (λ g. built_view g.entries ≡ default_pairs) }
{
    let mut graphs = BTreeMap::new(alloc);
    put_graph(&mut graphs, Text::new(alloc, "@default")?, Vec::new(alloc))?;
    Ok(graphs)
}

fn the_earlier(a: Option<PlacedConflict>, b: Option<PlacedConflict>) -> Option<PlacedConflict>
    ensures { conflict_in result ≡ earlier_of (conflict_in a) (conflict_in b) }
{
    match (a, b) {
        (Some(a), Some(b)) => {
            if comes_before(&b, &a) {
                Some(b)
            } else {
                Some(a)
            }
        }
        (Some(a), None) => Some(a),
        (None, b) => b,
    }
}

fn comes_before(a: &PlacedConflict, b: &PlacedConflict) -> bool
    ensures { result ≡ is_before (place_of a.now) (place_of b.now) }
{
    a.chunk < b.chunk || a.chunk == b.chunk && a.op < b.op
}

fn add_graphs(graphs: &mut PairGraphs, more: PairGraphs) -> Result<(), AllocError>
    ensures { OnOk result (built_view graphs.new.entries ≡ pairs_put (built_view more.entries) (built_view graphs.old.entries)) }
{
    for (name, pairs) in more {
        add_graph(graphs, name, pairs)?;
    }
    Ok(())
}

fn add_graph(graphs: &mut PairGraphs, name: Text, more: Pairs) -> Result<(), AllocError>
    ensures { OnOk result (built_view graphs.new.entries ≡ graph_put name (built (pairs_view more)) (built_view graphs.old.entries)) }
{
    if let Some(pairs) = graphs.get_mut(&name) {
        add_nodes(pairs, more)?;
        return Ok(());
    }
    put_graph(graphs, name, more)?;
    Ok(())
}

/// Moves nodes behind those of a graph. Where there are none yet, they are taken as they are.
fn add_nodes(pairs: &mut Pairs, more: Pairs) -> Result<(), AllocError>
    ensures { OnOk result (built (pairs_view pairs.new) ≡ put_all (built (pairs_view more)) (built (pairs_view pairs.old))) }
{
    if pairs.is_empty() {
        *pairs = more;
        return Ok(());
    }
    let mut more = more;
    pairs.append(&mut more)?;
    Ok(())
}
