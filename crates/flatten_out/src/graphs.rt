// The graphs of a node map, put into the default graph.
ghost use Rattle.std.specs.Prelude.{◌≡◌, IfOk, OnOk, Some};
ghost use Rattle.std.specs.Option.{option_map};
ghost use Rattle.ld_model.specs.Tree.{array, members_of, object, put, trees_of};
ghost use Rattle.ld_model.specs.Keys.{default_graph, graph_key};
ghost use Rattle.ld_model.specs.NodeMap.{new_node, node_or_new};
ghost use Rattle.ld_model.specs.Flatten.{graph_into, graph_of, graphs_into, nodes_of};
ghost use Rattle.ld_tree.specs.View.{members_view, view};
ghost use Rattle.flatten_out.specs.Only.{graph_turn};

use crate::nodes::nodes_of;
use ld_tree::{Members, Text, Tree, Trees};
use std::alloc::{AllocError, Global};
use std::collections::BTreeMap;
use std::mem;

/// The nodes of the default graph, each at its id, while other graphs are put into it: ordered, so that names of graphs in any order take
/// the same time.
type Nodes = BTreeMap<Text, Tree>;

/// The nodes of a graph; none where there is no such graph.
pub(crate) fn graph_of(alloc: Global, graph: Option<Tree>) -> Members
    ensures { result ≡ graph_of (option_map view graph) }
{
    match graph {
        Some(Tree::Map(nodes)) => nodes,
        _ => Members::new(alloc),
    }
}

/// The nodes of the default graph, with each other graph's nodes under `@graph` at the node of its name.
pub(crate) fn graphs_into(
    alloc: Global,
    graphs: Members,
    nodes: Members,
) -> Result<Members, AllocError>
    ensures { IfOk result (λ ms. ms ≡ graphs_into graphs nodes) }
{
    let mut held = held_nodes(alloc, nodes)?;
    for (name, graph) in graphs {
        graph_turn(alloc, &mut held, name, graph)?;
    }
    let nodes = members_of(alloc, held)?;
    Ok(nodes)
}

/// The default graph itself is passed over.
fn graph_turn(alloc: Global, nodes: &mut Nodes, name: Text, graph: Tree) -> Result<(), AllocError>
    ensures { OnOk result (members_view nodes.new.entries ≡ graph_turn (name, view graph) (members_view nodes.old.entries)) }
{
    if name.as_str() == "@default" {
        return Ok(());
    }
    graph_into(alloc, nodes, name, graph)?;
    Ok(())
}

/// A graph's nodes go under `@graph` at the node of its name (section 7.1, step 4).
fn graph_into(alloc: Global, nodes: &mut Nodes, name: Text, graph: Tree) -> Result<(), AllocError>
    ensures { OnOk result (members_view nodes.new.entries ≡ graph_into (name, view graph) (members_view nodes.old.entries)) }
{
    let inside = nodes_of(alloc, graph_of(alloc, Some(graph)))?;
    if let Some(held) = nodes.get_mut(&name) {
        let node = node_or_new(alloc, &name, mem::replace(held, Tree::Null))?;
        *held = with_graph(alloc, node, inside)?;
        return Ok(());
    }
    let node = new_node(alloc, &name)?;
    let made = with_graph(alloc, node, inside)?;
    put_node(nodes, name, made)?;
    Ok(())
}

/// A node with these nodes under `@graph`.
fn with_graph(alloc: Global, mut node: Members, inside: Trees) -> Result<Tree, AllocError>
    ensures { IfOk result (λ t. view t ≡ object (members_of (put graph_key (array (trees_of inside)) node))) }
{
    node.put(alloc, "@graph", Tree::Items(inside))?;
    Ok(Tree::Map(node))
}

fn node_or_new(alloc: Global, id: &Text, node: Tree) -> Result<Members, AllocError>
    ensures { IfOk result (λ ms. ms ≡ node_or_new id.now (Some (view node))) }
{
    match node {
        Tree::Map(members) => Ok(members),
        _ => new_node(alloc, id),
    }
}

/// A node with nothing but its id.
fn new_node(alloc: Global, id: &Text) -> Result<Members, AllocError>
    ensures { IfOk result (λ ms. ms ≡ new_node id.now) }
{
    let mut node = Members::with_capacity(alloc, 2)?;
    node.put(alloc, "@id", Tree::Str(id.copy()?))?;
    Ok(node)
}

fn put_node(nodes: &mut Nodes, id: Text, node: Tree) -> Result<(), AllocError>
    ensures { OnOk result (members_view nodes.new.entries ≡ put id (view node) (members_view nodes.old.entries)) }
{
    match nodes.insert(id, node) {
        Ok(_) => Ok(()),
        Err(_) => Err(AllocError),
    }
}

fn held_nodes(alloc: Global, nodes: Members) -> Result<Nodes, AllocError>
    ensures { IfOk result (λ held. members_view held.entries ≡ nodes) }
{
    let mut held = BTreeMap::new(alloc);
    for (id, node) in nodes {
        put_node(&mut held, id, node)?;
    }
    Ok(held)
}

fn members_of(alloc: Global, nodes: Nodes) -> Result<Members, AllocError>
    ensures { IfOk result (λ ms. ms ≡ members_view nodes.entries) }
{
    let mut members = Members::with_capacity(alloc, nodes.len())?;
    for (id, node) in nodes {
        members.set(id, node)?;
    }
    Ok(members)
}
