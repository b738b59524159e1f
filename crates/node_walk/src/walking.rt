// The traversal of a document, which is used up on the way.
ghost use Rattle.std.specs.Prelude.{◌≡◌, [], OnOk};
ghost use Rattle.std.specs.Option.{option_map};
ghost use Rattle.ld_model.specs.Tree.{array, trees_of, members_of};
ghost use Rattle.ld_tree.specs.View.{view};
ghost use Rattle.node_model.specs.Walk as definitions;
ghost use Rattle.node_model.specs.Walk.{nowhere};
ghost use Rattle.node_walk.specs.Seen.{to_view};
ghost use Rattle.node_walk.specs.Found.{found_into, map_into, list_object, node_object, property_into, reverse_property_into};

use crate::entering::{add_graph, add_list, add_value, enter, takes_values};
use crate::gathering::{Gather, To};
use crate::parts::{has_key, inside_of, list_of, take_head};
use ctx_types::is_keyword;
use ld_tree::{Members, Text, Tree, Trees};
use std::alloc::{AllocError, Global};

/// Goes through the items of an expanded document in a graph, and has `map` do what node map generation does on the way (JSON-LD 1.1 API,
/// section 7.2). The items are used up: what is kept of them is moved. The time grows with their size, beside what `map` takes, and the
/// depth of calls with their depth.
///
/// # Errors
///
/// `AllocError` where memory is refused. The map is left with a part of the document then.
pub fn walk_document<'a, G: Gather>(
    alloc: Global,
    map: &mut G,
    graph: &'a G::Name,
    items: Trees,
) -> Result<(), AllocError>
    ensures { OnOk result (G.state map.new ≡ (definitions.walk G.steps (G.name graph.now) nowhere (array (trees_of items)) (record { state = G.state map.old; items = [] })).state) }
{
    let mut gathered = map.no_items(alloc);
    walk_items(alloc, map, graph, To::Nowhere, &mut gathered, items)?;
    Ok(())
}

/// Goes through some items that stand one after another and go to the same place, as a part of an array does (step 1). What goes into a
/// list is appended to `gathered`. It is otherwise as [`walk_document`].
///
/// # Errors
///
/// `AllocError` where memory is refused. The map and the list are left with a part of the items then.
#[cycle(walk)]
pub fn walk_items<'a, G: Gather>(
    alloc: Global,
    map: &mut G,
    graph: &'a G::Name,
    to: To<&'a G::Name>,
    gathered: &mut G::Items,
    items: Trees,
) -> Result<(), AllocError>
    ensures { OnOk result (record { state = G.state map.new; items = G.items gathered.new } ≡ definitions.walk_all G.steps (G.name graph.now) (to_view G.name to.entry) (trees_of items) (record { state = G.state map.old; items = G.items gathered.old })) }
{
    for item in items {
        walk_element(alloc, map, graph, to, gathered, item)?;
    }
    Ok(())
}

/// An element (steps 1 to 6).
#[cycle(walk)]
fn walk_element<'a, G: Gather>(
    alloc: Global,
    map: &mut G,
    graph: &'a G::Name,
    to: To<&'a G::Name>,
    gathered: &mut G::Items,
    element: Tree,
) -> Result<(), AllocError>
    ensures { OnOk result (record { state = G.state map.new; items = G.items gathered.new } ≡ definitions.walk G.steps (G.name graph.now) (to_view G.name to.entry) (view element) (record { state = G.state map.old; items = G.items gathered.old })) }
{
    match element {
        Tree::Items(items) => {
            walk_items(alloc, map, graph, to, gathered, items)?;
            Ok(())
        }
        Tree::Map(members) => {
            walk_map(alloc, map, graph, to, gathered, members)?;
            Ok(())
        }
        _ => Ok(()),
    }
}

/// What a key has.
#[cycle(walk)]
fn walk_found<'a, G: Gather>(
    alloc: Global,
    map: &mut G,
    graph: &'a G::Name,
    to: To<&'a G::Name>,
    gathered: &mut G::Items,
    found: Option<Tree>,
) -> Result<(), AllocError>
    ensures { OnOk result (record { state = G.state map.new; items = G.items gathered.new } ≡ found_into G.steps (G.name graph.now) (to_view G.name to.entry) (option_map view found) (record { state = G.state map.old; items = G.items gathered.old })) }
{
    match found {
        Some(element) => {
            walk_element(alloc, map, graph, to, gathered, element)?;
            Ok(())
        }
        None => Ok(()),
    }
}

/// A value object (step 4), a list object (step 5) or a node object (step 6).
#[cycle(walk)]
fn walk_map<'a, G: Gather>(
    alloc: Global,
    map: &mut G,
    graph: &'a G::Name,
    to: To<&'a G::Name>,
    gathered: &mut G::Items,
    members: Members,
) -> Result<(), AllocError>
    ensures { OnOk result (record { state = G.state map.new; items = G.items gathered.new } ≡ map_into G.steps (G.name graph.now) (to_view G.name to.entry) members (record { state = G.state map.old; items = G.items gathered.old })) }
{
    if has_key(&members, "@value") {
        add_value(alloc, map, graph, to, gathered, Tree::Map(members))?;
        return Ok(());
    }
    if has_key(&members, "@list") {
        walk_list(alloc, map, graph, to, gathered, members)?;
        return Ok(());
    }
    walk_node(alloc, map, graph, to, gathered, members)?;
    Ok(())
}

/// A list object (step 5).
#[cycle(walk)]
fn walk_list<'a, G: Gather>(
    alloc: Global,
    map: &mut G,
    graph: &'a G::Name,
    to: To<&'a G::Name>,
    gathered: &mut G::Items,
    members: Members,
) -> Result<(), AllocError>
    ensures { OnOk result (record { state = G.state map.new; items = G.items gathered.new } ≡ list_object G.steps (G.name graph.now) (to_view G.name to.entry) members (record { state = G.state map.old; items = G.items gathered.old })) }
{
    if !takes_values::<G>(to) {
        return Ok(());
    }
    let mut list = map.no_items(alloc);
    walk_found(alloc, map, graph, To::InList, &mut list, list_of(members))?;
    add_list(alloc, map, graph, to, gathered, list)?;
    Ok(())
}

/// A node object (step 6).
#[cycle(walk)]
fn walk_node<'a, G: Gather>(
    alloc: Global,
    map: &mut G,
    graph: &'a G::Name,
    to: To<&'a G::Name>,
    gathered: &mut G::Items,
    mut members: Members,
) -> Result<(), AllocError>
    ensures { OnOk result (record { state = G.state map.new; items = G.items gathered.new } ≡ node_object G.steps (G.name graph.now) (to_view G.name to.entry) members (record { state = G.state map.old; items = G.items gathered.old })) }
{
    let head = take_head(&mut members);
    let node = enter(alloc, map, graph, to, gathered, head)?;
    let inside = inside_of(alloc, members);
    walk_reverse_properties(alloc, map, graph, &node, gathered, inside.turned)?;
    add_graph(alloc, map, &node, &inside.graph)?;
    walk_found(alloc, map, &node, To::Nowhere, gathered, inside.graph)?;
    walk_found(alloc, map, graph, To::Nowhere, gathered, inside.included)?;
    walk_properties(alloc, map, graph, &node, gathered, inside.properties)?;
    Ok(())
}

/// The reverse properties of a node (step 6.9).
#[cycle(walk)]
fn walk_reverse_properties<'a, G: Gather>(
    alloc: Global,
    map: &mut G,
    graph: &'a G::Name,
    node: &'a G::Name,
    gathered: &mut G::Items,
    members: Members,
) -> Result<(), AllocError>
    ensures { OnOk result (record { state = G.state map.new; items = G.items gathered.new } ≡ definitions.walk_reverse_properties G.steps (G.name graph.now) (G.name node.now) (members_of members) (record { state = G.state map.old; items = G.items gathered.old })) }
{
    for (key, value) in members {
        walk_reverse_property(alloc, map, graph, node, gathered, key, value)?;
    }
    Ok(())
}

#[cycle(walk)]
fn walk_reverse_property<'a, G: Gather>(
    alloc: Global,
    map: &mut G,
    graph: &'a G::Name,
    node: &'a G::Name,
    gathered: &mut G::Items,
    key: Text,
    value: Tree,
) -> Result<(), AllocError>
    ensures { OnOk result (record { state = G.state map.new; items = G.items gathered.new } ≡ reverse_property_into G.steps (G.name graph.now) (G.name node.now) key (view value) (record { state = G.state map.old; items = G.items gathered.old })) }
{
    if is_keyword(key.as_str()) {
        return Ok(());
    }
    let property = map.named(alloc, key)?;
    walk_element(
        alloc,
        map,
        graph,
        To::Reverse(node, &property),
        gathered,
        value,
    )?;
    Ok(())
}

/// The properties of a node, which are its entries that are no keywords (step 6.12).
#[cycle(walk)]
fn walk_properties<'a, G: Gather>(
    alloc: Global,
    map: &mut G,
    graph: &'a G::Name,
    node: &'a G::Name,
    gathered: &mut G::Items,
    members: Members,
) -> Result<(), AllocError>
    ensures { OnOk result (record { state = G.state map.new; items = G.items gathered.new } ≡ definitions.walk_properties G.steps (G.name graph.now) (G.name node.now) (members_of members) (record { state = G.state map.old; items = G.items gathered.old })) }
{
    for (key, value) in members {
        walk_property(alloc, map, graph, node, gathered, key, value)?;
    }
    Ok(())
}

#[cycle(walk)]
fn walk_property<'a, G: Gather>(
    alloc: Global,
    map: &mut G,
    graph: &'a G::Name,
    node: &'a G::Name,
    gathered: &mut G::Items,
    key: Text,
    value: Tree,
) -> Result<(), AllocError>
    ensures { OnOk result (record { state = G.state map.new; items = G.items gathered.new } ≡ property_into G.steps (G.name graph.now) (G.name node.now) key (view value) (record { state = G.state map.old; items = G.items gathered.old })) }
{
    if is_keyword(key.as_str()) {
        return Ok(());
    }
    let property = map.property(alloc, graph, node, key)?;
    walk_element(
        alloc,
        map,
        graph,
        To::Under(node, &property),
        gathered,
        value,
    )?;
    Ok(())
}
