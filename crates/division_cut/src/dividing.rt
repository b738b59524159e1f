// The traversal of an expanded document that divides it (JSON-LD 1.1 API, section 7.2).
ghost use Rattle.std.specs.Prelude.{◌≡◌, ◌≤◌, ◌<◌, ◌^◌, true, OnOk, IfOk, IsTrue};
ghost use Rattle.std.specs.Option.{option_map};
ghost use Rattle.ld_model.specs.Tree.{array, members_of, object, trees_of};
ghost use Rattle.ld_tree.specs.View.{view, trees_view};
ghost use Rattle.node_model.specs.Walk.{walk};
ghost use Rattle.node_walk.specs.Seen.{to_view};
ghost use Rattle.node_walk.specs.Found.{members_in};
ghost use Rattle.op_types.specs.View.{name_view};
ghost use Rattle.division_model.specs.Dividing as model;
ghost use Rattle.division_model.specs.Dividing.{divide, outside_lists, spine_noting};
ghost use Rattle.division_model.specs.ByWeight.{are_few, by_weight};
ghost use Rattle.division_cut.specs.Found.{entered_at, found_divided, members_or_none, property_divided, reverse_property_divided};
ghost use Rattle.division_cut.specs.Standing.{Makes, is_outside};
ghost use Rattle.division_cut.specs.Turns.{first_after, turned};
ghost use Rattle.division_cut.specs.Views.{division_view, mark_view};

use crate::division::Division;
use crate::marking::{Mark, is_cut, is_whole, mark_of};
use ctx_types::is_keyword;
use ld_tree::{Members, Text, Tree};
use node_visit::{Visit, add_graph, enter, found_at, head_of, visit_items};
use node_walk::To;
use op_types::{Entries, Name};
use std::alloc::{AllocError, Global};
use std::slice;

/// An element (steps 1 to 6). Once there are too many chunks, nothing more is divided.
#[cycle(dividing)]
pub(crate) fn divide_element<'a, 'd>(
    alloc: Global,
    limit: u64,
    division: &mut Division<'d>,
    graph: &'a Name,
    to: To<&'a Name>,
    element: &'d Tree,
) -> Result<(), AllocError>
    requires { IsTrue (is_outside (to_view name_view to)) }
    ensures { OnOk result (Makes (division_view division.old) (division_view division.new)
        (divide (by_weight limit) (name_view graph.now) (to_view name_view to.entry) (view element.now))) }
{
    if division.is_over() {
        return Ok(());
    }
    match element {
        Tree::Items(items) => {
            divide_items(alloc, limit, division, graph, to, items.as_slice())?;
            Ok(())
        }
        Tree::Map(members) => {
            divide_map(alloc, limit, division, graph, to, element, members)?;
            Ok(())
        }
        _ => Ok(()),
    }
}

/// The items of an array (step 1): those that are opened, and between them ranges.
#[cycle(dividing)]
pub(crate) fn divide_items<'a, 'd>(
    alloc: Global,
    limit: u64,
    division: &mut Division<'d>,
    graph: &'a Name,
    to: To<&'a Name>,
    items: &'d [Tree],
) -> Result<(), AllocError>
    requires { IsTrue (is_outside (to_view name_view to)) }
    ensures { OnOk result (Makes (division_view division.old) (division_view division.new)
        (divide (by_weight limit) (name_view graph.now) (to_view name_view to.entry) (array (trees_of (trees_view items.now))))) }
{
    let cut = is_cut(limit, items);
    let mut first = 0usize;
    let mut sum = None;
    for (number, item) in items.iter().enumerate() {
        if division.is_over() {
            return Ok(());
        }
        let marked = mark_of(cut, limit, sum, item);
        let taken = &items[first..number];
        divide_item(alloc, limit, division, graph, to, taken, marked.mark, item)?;
        first = first_behind(marked.mark, first, number);
        sum = marked.sum;
    }
    division.range(alloc, graph, to, &items[first..])?;
    Ok(())
}

/// An item with its mark, behind those in the range under way: the range ends, unless the item is in it too.
#[cycle(dividing)]
fn divide_item<'a, 'd>(
    alloc: Global,
    limit: u64,
    division: &mut Division<'d>,
    graph: &'a Name,
    to: To<&'a Name>,
    taken: &'d [Tree],
    mark: Mark,
    item: &'d Tree,
) -> Result<(), AllocError>
    requires { IsTrue (is_outside (to_view name_view to)) }
    ensures { OnOk result (Makes (division_view division.old) (division_view division.new)
        (turned limit (name_view graph.now) (to_view name_view to.entry) (mark_view mark) (trees_view taken.now) (view item.now))) }
{
    match mark {
        Mark::Opened => {
            division.range(alloc, graph, to, taken)?;
            divide_element(alloc, limit, division, graph, to, item)?;
            Ok(())
        }
        Mark::Begins => {
            division.range(alloc, graph, to, taken)?;
            Ok(())
        }
        Mark::Continues => Ok(()),
    }
}

/// The number of the first item of the range under way, behind the item with this number and mark.
fn first_behind(mark: Mark, first: usize, number: usize) -> usize
    requires before { first ≤ number }
    requires small { number < 2 ^ 63 }
    ensures { result ≡ first_after (mark_view mark) first number }
{
    match mark {
        Mark::Opened => number + 1,
        Mark::Begins => number,
        Mark::Continues => first,
    }
}

/// A value object or a list object, which stays whole (steps 4 and 5), or a node object (step 6).
#[cycle(dividing)]
fn divide_map<'a, 'd>(
    alloc: Global,
    limit: u64,
    division: &mut Division<'d>,
    graph: &'a Name,
    to: To<&'a Name>,
    element: &'d Tree,
    members: &'d Members,
) -> Result<(), AllocError>
    requires outside { IsTrue (is_outside (to_view name_view to)) }
    requires map { view element.now ≡ object (members_of members.now) }
    requires few { are_few (division_view division.old).chunks ≡ true }
    ensures { OnOk result (Makes (division_view division.old) (division_view division.new)
        (divide (by_weight limit) (name_view graph.now) (to_view name_view to.entry) (object (members_of members.now)))) }
{
    if is_whole(members) {
        visit_whole(alloc, division, graph, to, element)?;
        return Ok(());
    }
    let node = enter_node(alloc, division, graph, to, members)?;
    let turned = map_in(found_at(members, "@reverse"));
    divide_reverse_properties(alloc, limit, division, graph, &node, turned)?;
    let inner = found_at(members, "@graph");
    add_graph(alloc, division, &node, inner)?;
    divide_found(alloc, limit, division, &node, inner)?;
    let included = found_at(members, "@included");
    divide_found(alloc, limit, division, graph, included)?;
    divide_properties(alloc, limit, division, graph, &node, members)?;
    Ok(())
}

/// An element that stays whole, in the spine under way.
fn visit_whole<'a, 'd>(
    alloc: Global,
    division: &mut Division<'d>,
    graph: &'a Name,
    to: To<&'a Name>,
    element: &Tree,
) -> Result<(), AllocError>
    ensures { OnOk result (division_view division.new ≡ (walk spine_noting (name_view graph.now) (to_view name_view to.entry) (view element.now) (outside_lists (division_view division.old))).state) }
{
    let mut gathered = Entries::new(alloc);
    let elements = slice::from_ref(element);
    visit_items(alloc, division, graph, to, &mut gathered, elements)?;
    Ok(())
}

/// A node object before what stands in it (steps 3 and 6.1 to 6.8). It gives the node's name.
fn enter_node<'a, 'd>(
    alloc: Global,
    division: &mut Division<'d>,
    graph: &'a Name,
    to: To<&'a Name>,
    members: &Members,
) -> Result<Name, AllocError>
    ensures { IfOk result (λ n. (name_view n, division_view division.new) ≡ entered_at (name_view graph.now) (to_view name_view to.entry) members.now (division_view division.old)) }
{
    let mut gathered = Entries::new(alloc);
    let node = enter(alloc, division, graph, to, &mut gathered, head_of(members))?;
    Ok(node)
}

/// The map that a key has.
fn map_in<'d>(found: Option<&'d Tree>) -> Option<&'d Members>
    ensures { members_or_none (option_map (λ ms. ms.now) result) ≡ members_in (option_map (λ t. view t.now) found.entry) }
{
    match found {
        Some(tree) => match tree {
            Tree::Map(members) => Some(members),
            _ => None,
        },
        None => None,
    }
}

/// What a key has that is about no node (steps 6.10 and 6.11).
#[cycle(dividing)]
fn divide_found<'a, 'd>(
    alloc: Global,
    limit: u64,
    division: &mut Division<'d>,
    graph: &'a Name,
    found: Option<&'d Tree>,
) -> Result<(), AllocError>
    ensures { OnOk result (Makes (division_view division.old) (division_view division.new)
        (found_divided limit (name_view graph.now) (option_map (λ t. view t.now) found.entry))) }
{
    match found {
        Some(element) => {
            divide_element(alloc, limit, division, graph, To::Nowhere, element)?;
            Ok(())
        }
        None => Ok(()),
    }
}

/// The reverse properties of a node (step 6.9).
#[cycle(dividing)]
fn divide_reverse_properties<'a, 'd>(
    alloc: Global,
    limit: u64,
    division: &mut Division<'d>,
    graph: &'a Name,
    node: &'a Name,
    turned: Option<&'d Members>,
) -> Result<(), AllocError>
    ensures { OnOk result (Makes (division_view division.old) (division_view division.new)
        (model.divide_reverse_properties (by_weight limit) (name_view graph.now) (name_view node.now) (members_or_none (option_map (λ ms. ms.now) turned.entry)))) }
{
    let Some(members) = turned else {
        return Ok(());
    };
    for (key, value) in members {
        divide_reverse_property(alloc, limit, division, graph, node, key, value)?;
    }
    Ok(())
}

#[cycle(dividing)]
fn divide_reverse_property<'a, 'd>(
    alloc: Global,
    limit: u64,
    division: &mut Division<'d>,
    graph: &'a Name,
    node: &'a Name,
    key: &Text,
    value: &'d Tree,
) -> Result<(), AllocError>
    ensures { OnOk result (Makes (division_view division.old) (division_view division.new)
        (reverse_property_divided limit (name_view graph.now) (name_view node.now) key.now (view value.now))) }
{
    if is_keyword(key.as_str()) {
        return Ok(());
    }
    let property = division.named(alloc, key)?;
    let to = To::Reverse(node, &property);
    divide_element(alloc, limit, division, graph, to, value)?;
    Ok(())
}

/// The properties of a node, which are its entries that are no keywords (step 6.12).
#[cycle(dividing)]
fn divide_properties<'a, 'd>(
    alloc: Global,
    limit: u64,
    division: &mut Division<'d>,
    graph: &'a Name,
    node: &'a Name,
    members: &'d Members,
) -> Result<(), AllocError>
    ensures { OnOk result (Makes (division_view division.old) (division_view division.new)
        (model.divide_properties (by_weight limit) (name_view graph.now) (name_view node.now) (members_of members.now))) }
{
    for (key, value) in members {
        divide_property(alloc, limit, division, graph, node, key, value)?;
    }
    Ok(())
}

#[cycle(dividing)]
fn divide_property<'a, 'd>(
    alloc: Global,
    limit: u64,
    division: &mut Division<'d>,
    graph: &'a Name,
    node: &'a Name,
    key: &Text,
    value: &'d Tree,
) -> Result<(), AllocError>
    ensures { OnOk result (Makes (division_view division.old) (division_view division.new)
        (property_divided limit (name_view graph.now) (name_view node.now) key.now (view value.now))) }
{
    if is_keyword(key.as_str()) {
        return Ok(());
    }
    let property = division.property(alloc, graph, node, key)?;
    let to = To::Under(node, &property);
    divide_element(alloc, limit, division, graph, to, value)?;
    Ok(())
}
