// Nodes, finished one after another as they stand in a part.
ghost use Rattle.std.specs.Prelude.{◌≡◌, ◌≤◌, ◌^◌, ◌∷◌, [], length, IfOk, OnOk};
ghost use Rattle.std.specs.List.{AllByRecursion};
ghost use Rattle.ld_tree.specs.Built.{built};
ghost use Rattle.ld_tree.specs.View.{member_view};
ghost use Rattle.node_model.specs.AsTrees.{node_pair};
ghost use Rattle.node_model.specs.Maps.{with_at};
ghost use Rattle.op_laws.specs.Own.{HasOwn};
ghost use Rattle.op_model.specs.Running.{label_in};
ghost use Rattle.op_types.specs.View.{name_view, names_view, key_view};
ghost use Rattle.shard_model.specs.Own.{PartHasOwn, NodeHasOwn, SumHasOwn};
ghost use Rattle.shard_model.specs.Renamed.{node_renamed, renamed};
ghost use Rattle.subtree_summary.specs.Log.{part_entry_view};
ghost use Rattle.subtree_summary.specs.Parts.{part_view, nodes_view};
ghost use Rattle.label_repair.specs.Finished.{graphs_finished, graph_put};
ghost use Rattle.label_repair.specs.Made.{graphs_made, nodes_made};
ghost use Rattle.label_repair.specs.Shards.{pairs_view, built_view};

use crate::labels::Labels;
use crate::renaming::{label, node_of};
use crate::shard::{PairGraphs, Pairs};
use indexmap::{IndexMap, IndexSet};
use ld_tree::{Text, Tree};
use node_logs::members_of;
use op_types::{Name, NodeKey};
use std::alloc::{AllocError, Global};
use std::collections::BTreeMap;
use subtree_summary::{Keyed, Part, PartEntry};

/// The graphs and nodes that a part says are there, under labels. Each node is finished before the next one, and what was said of it given back,
/// so that no more than one of them stands in both forms.
pub(crate) fn finish_part(
    alloc: Global,
    part: Part,
    labels: &Labels,
) -> Result<PairGraphs, AllocError>
    requires own { SumHasOwn labels.now (part_view part) }
    requires few { length labels.now ≤ 2 ^ 64 }
    ensures { IfOk result (λ m. built_view m.entries ≡ graphs_finished (renamed labels.now (part_view part))) }
{
    let Part { graphs, nodes } = part;
    let mut made = BTreeMap::new(alloc);
    make_graphs(alloc, &mut made, labels, graphs)?;
    finish_nodes(alloc, &mut made, labels, nodes)?;
    Ok(made)
}

fn make_graphs(
    alloc: Global,
    made: &mut PairGraphs,
    labels: &Labels,
    graphs: IndexSet<Name, Keyed>,
) -> Result<(), AllocError>
    requires { AllByRecursion (HasOwn labels.now) (names_view graphs.keys) }
    ensures { OnOk result (built_view made.new.entries ≡ graphs_made labels.now (names_view graphs.keys) (built_view made.old.entries)) }
{
    for graph in graphs {
        make_graph(alloc, made, labels, &graph)?;
    }
    Ok(())
}

fn make_graph(
    alloc: Global,
    made: &mut PairGraphs,
    labels: &Labels,
    graph: &Name,
) -> Result<(), AllocError>
    requires { HasOwn labels.now (name_view graph.now) }
    ensures { OnOk result (built_view made.new.entries ≡ graph_put (label_in labels.now (name_view graph.now)) [] (built_view made.old.entries)) }
{
    let name = label(alloc, labels, graph)?;
    note_graph(alloc, made, name)?;
    Ok(())
}

/// Makes a graph, where there is none of this name.
fn note_graph(alloc: Global, made: &mut PairGraphs, name: Text) -> Result<(), AllocError>
    ensures { OnOk result (built_view made.new.entries ≡ graph_put name [] (built_view made.old.entries)) }
{
    if let Some(_pairs) = made.get_mut(&name) {
        return Ok(());
    }
    put_graph(made, name, Vec::new(alloc))?;
    Ok(())
}

fn finish_nodes(
    alloc: Global,
    made: &mut PairGraphs,
    labels: &Labels,
    nodes: IndexMap<NodeKey, PartEntry, Keyed>,
) -> Result<(), AllocError>
    requires own { AllByRecursion (NodeHasOwn labels.now) (nodes_view nodes.entries) }
    requires few { length labels.now ≤ 2 ^ 64 }
    ensures { OnOk result (built_view made.new.entries ≡ nodes_made labels.now (nodes_view nodes.entries) (built_view made.old.entries)) }
{
    for (key, entry) in nodes {
        finish_node(alloc, made, labels, key, entry)?;
    }
    Ok(())
}

fn finish_node(
    alloc: Global,
    made: &mut PairGraphs,
    labels: &Labels,
    key: NodeKey,
    entry: PartEntry,
) -> Result<(), AllocError>
    requires own { NodeHasOwn labels.now (key_view key, part_entry_view entry) }
    requires few { length labels.now ≤ 2 ^ 64 }
    ensures { OnOk result (built_view made.new.entries ≡ graph_put (label_in labels.now (name_view key.graph)) (node_pair (label_in labels.now (name_view key.node), node_renamed labels.now (part_entry_view entry)) ∷ []) (built_view made.old.entries)) }
{
    let NodeKey { graph, node } = key;
    let graph = label(alloc, labels, &graph)?;
    let id = label(alloc, labels, &node)?;
    let pair = finished(alloc, labels, id, entry)?;
    put_pair(alloc, made, graph, pair)?;
    Ok(())
}

/// A node, by its id as JSON.
fn finished(
    alloc: Global,
    labels: &Labels,
    id: Text,
    entry: PartEntry,
) -> Result<(Text, Tree), AllocError>
    requires own { PartHasOwn labels.now (part_entry_view entry) }
    requires few { length labels.now ≤ 2 ^ 64 }
    ensures { IfOk result (λ p. member_view p ≡ node_pair (id, node_renamed labels.now (part_entry_view entry))) }
{
    let node = node_of(alloc, labels, entry)?;
    let members = members_of(alloc, &id, node)?;
    Ok((id, Tree::Map(members)))
}

/// Puts a node behind those of a graph, which is made where it is missing.
fn put_pair(
    alloc: Global,
    made: &mut PairGraphs,
    graph: Text,
    pair: (Text, Tree),
) -> Result<(), AllocError>
    ensures { OnOk result (built_view made.new.entries ≡ graph_put graph (member_view pair ∷ []) (built_view made.old.entries)) }
{
    if let Some(pairs) = made.get_mut(&graph) {
        pairs.push(pair)?;
        return Ok(());
    }
    let mut pairs = Vec::new(alloc);
    pairs.push(pair)?;
    put_graph(made, graph, pairs)?;
    Ok(())
}

/// Puts the nodes of a graph at its name, in place of those that are there.
pub(crate) fn put_graph(graphs: &mut PairGraphs, name: Text, pairs: Pairs) -> Result<(), AllocError>
    ensures { OnOk result (built_view graphs.new.entries ≡ with_at name (built (pairs_view pairs)) (built_view graphs.old.entries)) }
{
    match graphs.insert(name, pairs) {
        Ok(_) => Ok(()),
        Err(_) => Err(AllocError),
    }
}
