// The nodes of a graph that the outcome has.
ghost use Rattle.std.specs.Prelude.{◌≡◌, ◌++◌, ◌∷◌, [], ℕ, List, IfOk, OnOk};
ghost use Rattle.ld_model.specs.Flatten.{has_more, nodes_of};
ghost use Rattle.ld_tree.specs.View.{view};

use ld_tree::{Members, Tree, Trees};
use std::alloc::{AllocError, Global};

/// The nodes of a graph in the order of their ids, but those with nothing but an id. They are moved.
pub(crate) fn nodes_of(alloc: Global, graph: Members) -> Result<Trees, AllocError>
    ensures { IfOk result (λ nodes. nodes ≡ nodes_of graph) }
{
    let mut nodes = Trees::with_capacity(alloc, outcome_len(&graph))?;
    for (_, node) in graph {
        add_node(&mut nodes, node)?;
    }
    Ok(nodes)
}

/// How many nodes of a graph have more than their id, so that room is made for no others.
fn outcome_len(graph: &Members) -> usize {
    graph.iter().filter(|m| has_more(m.1)).count()
}

/// Appends a node, unless it has nothing but its id.
fn add_node(nodes: &mut Trees, node: Tree) -> Result<(), AllocError>
    ensures { OnOk result ((id : List ℕ) → nodes.new ≡ nodes.old ++ nodes_of ((id, view node) ∷ [])) }
{
    if !has_more(&node) {
        return Ok(());
    }
    nodes.push(node)?;
    Ok(())
}

/// Whether a node has more than its id.
fn has_more(node: &Tree) -> bool
    ensures { (id : List ℕ) → result ≡ has_more (id, view node.now) }
{
    match node {
        Tree::Map(members) => members.len() > 1,
        _ => false,
    }
}
