// What is done at a node object before what stands in it, and where values, lists and nodes go.
ghost use Rattle.std.specs.Prelude.{◌≡◌, List, [], ◌∷◌, OnOk, IfOk, map as each};
ghost use Rattle.std.specs.Option.{option_map};
ghost use Rattle.ld_model.specs.Tree.{trees_of};
ghost use Rattle.ld_tree.specs.View.{view};
ghost use Rattle.node_model.specs.Walk as definitions;
ghost use Rattle.node_model.specs.Walk.{names, text_in, texts_in, texts_of, types_into, index_into, node_into};
ghost use Rattle.node_walk.specs.Seen.{to_view};
ghost use Rattle.node_walk.specs.Found.{next_name, entered_by, graph_made};

use crate::gathering::{Gather, To};
use crate::parts::Head;
use ld_tree::{Text, Tree, Trees};
use std::alloc::{AllocError, Global};

/// Enters a node object: the names of its types are made one after another, then its node, then a reference to it where it goes; its
/// types and its index are added last (steps 3 and 6.1 to 6.8). It gives the node's name.
pub(crate) fn enter<'a, G: Gather>(
    alloc: Global,
    map: &mut G,
    graph: &'a G::Name,
    to: To<&'a G::Name>,
    gathered: &mut G::Items,
    head: Head,
) -> Result<G::Name, AllocError>
    ensures { IfOk result (λ n. (G.name n, record { state = G.state map.new; items = G.items gathered.new }) ≡ entered_by G.steps (G.name graph.now) (to_view G.name to.entry) (option_map view head.types) head.id head.index (record { state = G.state map.old; items = G.items gathered.old })) }
{
    let Head { types, id, index } = head;
    let types = names_of(alloc, map, types)?;
    let node = map.node(alloc, graph, id)?;
    refer(alloc, map, graph, to, gathered, &node)?;
    add_types(alloc, map, graph, &node, types)?;
    add_index(alloc, map, graph, &node, index)?;
    Ok(node)
}

/// The names of the types that `@type` has.
fn names_of<G: Gather>(
    alloc: Global,
    map: &mut G,
    types: Option<Tree>,
) -> Result<Vec<G::Name>, AllocError>
    ensures { IfOk result (λ ns. (each G.name ns.items, G.state map.new) ≡ names G.steps (texts_of (option_map view types)) (G.state map.old)) }
{
    let mut made = Vec::new(alloc);
    match types {
        Some(tree) => match tree {
            Tree::Items(trees) => names_in(alloc, map, trees),
            Tree::Str(text) => {
                made.push(map.named(alloc, text)?)?;
                Ok(made)
            }
            _ => Ok(made),
        },
        None => Ok(made),
    }
}

/// The names that the texts in an array stand for, one after another.
fn names_in<G: Gather>(alloc: Global, map: &mut G, trees: Trees) -> Result<Vec<G::Name>, AllocError>
    ensures { IfOk result (λ ns. (each G.name ns.items, G.state map.new) ≡ names G.steps (texts_in (trees_of trees)) (G.state map.old)) }
{
    let mut made = Vec::new(alloc);
    for tree in trees {
        push_name(alloc, map, &mut made, tree)?;
    }
    Ok(made)
}

/// Appends the name of a text; anything else is passed over.
fn push_name<G: Gather>(
    alloc: Global,
    map: &mut G,
    made: &mut Vec<G::Name>,
    tree: Tree,
) -> Result<(), AllocError>
    ensures { OnOk result ((each G.name made.new.items, G.state map.new) ≡ next_name G.steps (each G.name made.old.items) (text_in (Some (view tree))) (G.state map.old)) }
{
    match tree {
        Tree::Str(text) => {
            made.push(map.named(alloc, text)?)?;
            Ok(())
        }
        _ => Ok(()),
    }
}

fn add_types<G: Gather>(
    alloc: Global,
    map: &mut G,
    graph: &G::Name,
    node: &G::Name,
    types: Vec<G::Name>,
) -> Result<(), AllocError>
    ensures { OnOk result (G.state map.new ≡ types_into G.steps (G.name graph.now) (G.name node.now) (each G.name types.items) (G.state map.old)) }
{
    for type_name in types {
        map.add_type(alloc, graph, node, type_name)?;
    }
    Ok(())
}

fn add_index<G: Gather>(
    alloc: Global,
    map: &mut G,
    graph: &G::Name,
    node: &G::Name,
    index: Option<Text>,
) -> Result<(), AllocError>
    ensures { OnOk result (G.state map.new ≡ index_into G.steps (G.name graph.now) (G.name node.now) index (G.state map.old)) }
{
    match index {
        Some(text) => {
            map.set_index(alloc, graph, node, text)?;
            Ok(())
        }
        None => Ok(()),
    }
}

/// A reference to a node, where the node goes (steps 6.5 and 6.6).
fn refer<'a, G: Gather>(
    alloc: Global,
    map: &mut G,
    graph: &'a G::Name,
    to: To<&'a G::Name>,
    gathered: &mut G::Items,
    node: &G::Name,
) -> Result<(), AllocError>
    ensures { OnOk result (record { state = G.state map.new; items = G.items gathered.new } ≡ node_into G.steps (G.name graph.now) (to_view G.name to.entry) (G.name node.now) (record { state = G.state map.old; items = G.items gathered.old })) }
{
    match to {
        To::Nowhere => Ok(()),
        To::Under(subject, property) => {
            map.add_reference(alloc, graph, subject, property, node)?;
            Ok(())
        }
        To::InList => {
            map.push_reference(alloc, gathered, node)?;
            Ok(())
        }
        To::Reverse(subject, property) => {
            map.add_reference(alloc, graph, node, property, subject)?;
            Ok(())
        }
    }
}

/// Whether a value or a list can go there.
pub(crate) fn takes_values<'a, G: Gather>(to: To<&'a G::Name>) -> bool
    ensures { result ≡ definitions.takes_values (to_view G.name to.entry) }
{
    match to {
        To::Under(_, _) => true,
        To::InList => true,
        _ => false,
    }
}

/// A value object, where it goes (step 4).
pub(crate) fn add_value<'a, G: Gather>(
    alloc: Global,
    map: &mut G,
    graph: &'a G::Name,
    to: To<&'a G::Name>,
    gathered: &mut G::Items,
    value: Tree,
) -> Result<(), AllocError>
    ensures { OnOk result (record { state = G.state map.new; items = G.items gathered.new } ≡ definitions.value_into G.steps (G.name graph.now) (to_view G.name to.entry) (G.steps.value (view value)) (record { state = G.state map.old; items = G.items gathered.old })) }
{
    match to {
        To::Under(subject, property) => {
            map.add_value(alloc, graph, subject, property, value)?;
            Ok(())
        }
        To::InList => {
            map.push_value(gathered, value)?;
            Ok(())
        }
        _ => Ok(()),
    }
}

/// A list, where it goes (steps 5.3 and 5.4).
pub(crate) fn add_list<'a, G: Gather>(
    alloc: Global,
    map: &mut G,
    graph: &'a G::Name,
    to: To<&'a G::Name>,
    gathered: &mut G::Items,
    list: G::Items,
) -> Result<(), AllocError>
    ensures { OnOk result (record { state = G.state map.new; items = G.items gathered.new } ≡ definitions.list_into G.steps (G.name graph.now) (to_view G.name to.entry) (G.items list) (record { state = G.state map.old; items = G.items gathered.old })) }
{
    match to {
        To::Under(subject, property) => {
            map.append(alloc, graph, subject, property, list)?;
            Ok(())
        }
        To::InList => {
            map.push_list(alloc, gathered, list)?;
            Ok(())
        }
        _ => Ok(()),
    }
}

/// The graph that a node names, where it has `@graph`, though nothing may be in it (step 6.10).
pub(crate) fn add_graph<G: Gather>(
    alloc: Global,
    map: &mut G,
    node: &G::Name,
    inner: &Option<Tree>,
) -> Result<(), AllocError>
    ensures { OnOk result (G.state map.new ≡ graph_made G.steps (G.name node.now) (option_map view inner.now) (G.state map.old)) }
{
    if inner.is_some() {
        map.graph(alloc, node)?;
    }
    Ok(())
}
