// The node map, made of what was told: a node after another, each given back before the next one is made.
ghost use Rattle.std.specs.Prelude.{◌≡◌, [], ◌∷◌, ◌++◌, map, OnOk, IfOk};
ghost use Rattle.ld_model.specs.Tree.{put, array, trees_of, text};
ghost use Rattle.ld_model.specs.Keys.{id_key};
ghost use Rattle.node_model.specs.AsTrees.{index_put, types_put, properties_put, node_members, node_pair, graph_pairs};
ghost use Rattle.node_logs.specs.Log.{node_view, all_told, types_told, properties_told};
ghost use Rattle.node_logs.specs.Views.{graph_view, graphs_view, shown};
ghost use Rattle.node_logs.specs.Merged.{pair_of, properties_ascend, is_first_after, trees_told};

use crate::graphs::{Graph, Graphs};
use crate::node::{Node, Told};
use crate::repeats::without_repeats;
use ld_tree::{Members, Text, Tree, Trees};
use std::alloc::{AllocError, Global};
use std::collections::BTreeMap;

/// The graphs as JSON, each a map from the ids of its nodes to the nodes. Each graph and node is given back once it is finished.
///
/// # Errors
///
/// `AllocError` where memory is refused.
pub(crate) fn graphs_of(alloc: Global, graphs: Graphs) -> Result<Members, AllocError>
    ensures { IfOk result (λ ms. ms ≡ graph_pairs (graphs_view graphs.entries)) }
{
    let mut members = Members::with_capacity(alloc, graphs.len())?;
    for (name, nodes) in graphs {
        let nodes = nodes_of(alloc, nodes)?;
        members.set(name, Tree::Map(nodes))?;
    }
    Ok(members)
}

/// The nodes of a graph, by their ids.
fn nodes_of(alloc: Global, nodes: Graph) -> Result<Members, AllocError>
    ensures { IfOk result (λ ms. ms ≡ map node_pair (graph_view nodes.entries)) }
{
    let mut members = Members::with_capacity(alloc, nodes.len())?;
    for (id, node) in nodes {
        let node = members_of(alloc, &id, node)?;
        members.set(id, Tree::Map(node))?;
    }
    Ok(members)
}

/// What was told of the node with this id, as JSON: the members of its object, each property with its entries in the order in which they were
/// told (JSON-LD 1.1 API, section 7.2). Types and entries stand once, and properties in the order of their names.
///
/// # Errors
///
/// `AllocError` where memory is refused.
pub fn members_of(alloc: Global, id: &Text, node: Node) -> Result<Members, AllocError>
    ensures { IfOk result (λ ms. ms ≡ node_members id.now (node_view node)) }
{
    let Node { types, index, told } = node;
    let properties = merged(alloc, told)?;
    let mut members = Members::with_capacity(alloc, count_of(&index, &types, &properties))?;
    members.put(alloc, "@id", Tree::Str(id.copy()?))?;
    put_index(alloc, &mut members, index)?;
    put_types(alloc, &mut members, types)?;
    put_properties(alloc, &mut members, properties)?;
    Ok(members)
}

/// How many members the object of a node has. A document has many nodes, so none of them gets room that it doesn't need.
fn count_of(index: &Option<Text>, types: &Vec<Text>, properties: &Vec<Told>) -> usize {
    let keywords = 1 + index.is_some() as usize + !types.is_empty() as usize;
    properties.len().saturating_add(keywords)
}

#[tactic(auto, unfolding(ld_model::specs::Tree::put))]
fn put_index(alloc: Global, members: &mut Members, index: Option<Text>) -> Result<(), AllocError>
    ensures { OnOk result (members.new ≡ index_put index members.old) }
{
    match index {
        Some(index) => {
            members.put(alloc, "@index", Tree::Str(index))?;
            Ok(())
        }
        None => Ok(()),
    }
}

fn put_types(alloc: Global, members: &mut Members, types: Vec<Text>) -> Result<(), AllocError>
    ensures { OnOk result (members.new ≡ types_put (types_told types.items []) members.old) }
{
    let texts = texts_of(alloc, types)?;
    if texts.is_empty() {
        return Ok(());
    }
    let once = without_repeats(alloc, texts)?;
    members.put(alloc, "@type", Tree::Items(once))?;
    Ok(())
}

fn texts_of(alloc: Global, types: Vec<Text>) -> Result<Trees, AllocError>
    ensures { IfOk result (λ ts. ts ≡ map text types.items) }
{
    let mut texts = Trees::with_capacity(alloc, types.len())?;
    for name in types {
        texts.push(Tree::Str(name))?;
    }
    Ok(texts)
}

fn put_properties(
    alloc: Global,
    members: &mut Members,
    properties: Vec<Told>,
) -> Result<(), AllocError>
    ensures { OnOk result (members.new ≡ properties_put (map pair_of properties.items) members.old) }
{
    for told in properties {
        put_property(alloc, members, told)?;
    }
    Ok(())
}

#[tactic(auto, unfolding(ld_model::specs::Tree::put))]
fn put_property(alloc: Global, members: &mut Members, told: Told) -> Result<(), AllocError>
    ensures { OnOk result (members.new ≡ put told.property (array (trees_of (all_told told.entries []))) members.old) }
{
    let Told { property, entries } = told;
    let once = without_repeats(alloc, entries)?;
    members.set(property, Tree::Items(once))?;
    Ok(())
}

/// What was told of each property, in the order of the properties, each of which stands once. It mostly is so already.
fn merged(alloc: Global, log: Vec<Told>) -> Result<Vec<Told>, AllocError>
    ensures { IfOk result (λ ts. map pair_of ts.items ≡ properties_told log.items []) }
{
    if ascend(log.as_slice()) {
        return Ok(log);
    }
    let values = values_of(alloc, log)?;
    let merged = log_of(alloc, values)?;
    Ok(merged)
}

/// Whether each property comes before the next.
fn ascend(log: &[Told]) -> bool
    ensures { result ≡ properties_ascend log.now }
{
    let mut rest = log;
    while let [first, tail @ ..] = rest {
        if !comes_before(first, tail) {
            return false;
        }
        rest = tail;
    }
    true
}

fn comes_before(first: &Told, tail: &[Told]) -> bool
    ensures { result ≡ is_first_after first.now.property tail.now }
{
    match tail.first() {
        Some(second) => first.property.compare(second.property.as_str()).is_lt(),
        None => true,
    }
}

fn values_of(alloc: Global, log: Vec<Told>) -> Result<BTreeMap<Text, Trees>, AllocError>
    ensures { IfOk result (λ values. shown trees_told values.entries ≡ properties_told log.items []) }
{
    let mut values = BTreeMap::new(alloc);
    for told in log {
        add(&mut values, told)?;
    }
    Ok(values)
}

/// Puts what was told of a property behind what was told of it before.
fn add(values: &mut BTreeMap<Text, Trees>, told: Told) -> Result<(), AllocError>
    ensures { OnOk result (shown trees_told values.new.entries ≡ properties_told (told ∷ []) (shown trees_told values.old.entries)) }
{
    let Told { property, entries } = told;
    if let Some(held) = values.get_mut(&property) {
        append(held, entries)?;
        return Ok(());
    }
    match values.insert(property, entries) {
        Ok(_) => Ok(()),
        Err(_) => Err(AllocError),
    }
}

fn append(held: &mut Trees, entries: Trees) -> Result<(), AllocError>
    ensures { OnOk result (held.new ≡ held.old ++ entries) }
{
    for entry in entries {
        held.push(entry)?;
    }
    Ok(())
}

fn log_of(alloc: Global, values: BTreeMap<Text, Trees>) -> Result<Vec<Told>, AllocError>
    ensures { IfOk result (λ ts. map pair_of ts.items ≡ shown trees_told values.entries) }
{
    let mut log = Vec::with_capacity(alloc, values.len())?;
    for (property, entries) in values {
        log.push(Told { property, entries })?;
    }
    Ok(log)
}
