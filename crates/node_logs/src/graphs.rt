// The graphs in which it is noted what was told of nodes.
ghost use Rattle.std.specs.Prelude.{◌≡◌, OnOk, IfOk};
ghost use Rattle.node_model.specs.NodeMap.{on_graph, on_node, with_node, node_in, graph_in};
ghost use Rattle.node_model.specs.Maps.{with_at};
ghost use Rattle.node_logs.specs.Log.{node_view, node_told};
ghost use Rattle.node_logs.specs.Views.{graph_view, graphs_view};

use crate::node::Node;
use ld_tree::Text;
use std::alloc::{AllocError, Global};
use std::collections::BTreeMap;

/// The nodes of a graph, by their ids. By bytes, so that no ids that somebody chose make it slow.
pub(crate) type Graph = BTreeMap<Text, Node>;

/// The graphs of a node map, by their names.
pub(crate) type Graphs = BTreeMap<Text, Graph>;

/// Notes what was told of a node of a graph.
pub(crate) fn note(
    alloc: Global,
    graphs: &mut Graphs,
    graph: &Text,
    id: &Text,
    node: Node,
) -> Result<(), AllocError>
    ensures { OnOk result (graphs_view graphs.new.entries ≡ on_node graph.now id.now (node_told node) (graphs_view graphs.old.entries)) }
{
    if let Some(nodes) = graphs.get_mut(graph) {
        note_in(nodes, id, node)?;
        return Ok(());
    }
    let mut nodes = BTreeMap::new(alloc);
    note_in(&mut nodes, id, node)?;
    put_graph(graphs, graph.copy()?, nodes)?;
    Ok(())
}

fn note_in(nodes: &mut Graph, id: &Text, node: Node) -> Result<(), AllocError>
    ensures { OnOk result (graph_view nodes.new.entries ≡ with_node id.now (node_told node) (graph_view nodes.old.entries)) }
{
    if let Some(noted) = nodes.get_mut(id) {
        noted.tell_all(node)?;
        return Ok(());
    }
    put_node(nodes, id.copy()?, node)?;
    Ok(())
}

/// Makes a graph, where there is none of this name. Fails only where memory is refused.
pub(crate) fn note_graph(alloc: Global, graphs: &mut Graphs, graph: &Text) -> Result<(), AllocError>
    ensures { OnOk result (graphs_view graphs.new.entries ≡ on_graph graph.now (λ nodes. nodes) (graphs_view graphs.old.entries)) }
{
    if let Some(_nodes) = graphs.get_mut(graph) {
        return Ok(());
    }
    put_graph(graphs, graph.copy()?, BTreeMap::new(alloc))?;
    Ok(())
}

/// Puts a graph at its name, in place of what may stand there. Fails only where memory is refused.
pub(crate) fn put_graph(graphs: &mut Graphs, name: Text, nodes: Graph) -> Result<(), AllocError>
    ensures { OnOk result (graphs_view graphs.new.entries ≡ with_at name (graph_view nodes.entries) (graphs_view graphs.old.entries)) }
{
    match graphs.insert(name, nodes) {
        Ok(_) => Ok(()),
        Err(_) => Err(AllocError),
    }
}

/// Puts a node at its id, in place of what may stand there. Fails only where memory is refused.
pub(crate) fn put_node(nodes: &mut Graph, id: Text, node: Node) -> Result<(), AllocError>
    ensures { OnOk result (graph_view nodes.new.entries ≡ with_at id (node_view node) (graph_view nodes.old.entries)) }
{
    match nodes.insert(id, node) {
        Ok(_) => Ok(()),
        Err(_) => Err(AllocError),
    }
}

/// The index that was noted of a node of a graph.
pub(crate) fn noted_index(
    graphs: &Graphs,
    graph: &Text,
    id: &Text,
) -> Result<Option<Text>, AllocError>
    ensures { IfOk result (λ i. i ≡ (node_in id.now (graph_in graph.now (graphs_view graphs.now.entries))).index) }
{
    let Some(nodes) = graphs.get(graph) else {
        return Ok(None);
    };
    let Some(node) = nodes.get(id) else {
        return Ok(None);
    };
    match &node.index {
        Some(index) => Ok(Some(index.copy()?)),
        None => Ok(None),
    }
}
