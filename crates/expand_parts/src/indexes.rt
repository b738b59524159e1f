// Maps of indexes, ids and types.
ghost use Rattle.std.specs.Prelude.{◌≡◌, IfOk, OnOk};
ghost use Rattle.std.specs.List.{list_all};
ghost use Rattle.std.specs.Option.{option_map};
ghost use Rattle.ld_model.specs.Tree as model;
ghost use Rattle.ld_tree.specs.View.{view};
ghost use Rattle.ctx_types.specs.ContextView.{settings_view};
ghost use Rattle.expand_model.specs.Indexes as indexes;
ghost use Rattle.expand_types.specs.Answers.{Answers};
ghost use Rattle.expand_model.specs.Values.{expand_value};
ghost use Rattle.expand_types.specs.View.{definition_in};

use crate::items::splice;
use crate::properties::container_of;
use case_tables::{Code, Shape};
use ctx_entries::is_one_of;
use ctx_types::{ActiveContext, TermDef, expand_iri};
use expand_types::{PartStop, expands_to};
use expand_values::{
    as_items, graph_object, has, join, one_item, put_text, scalar_value, values_taken,
};
use ld_text::Text;
use ld_tree::{Members, Tree, Trees};
use std::alloc::{AllocError, Global};

/// The entries that a graph object may have.
const GRAPH_KEYS: [&str; 3] = ["@graph", "@id", "@index"];

/// Adds the items that the value at an index came to, each with what the index adds to it (JSON-LD 1.1 API, section 5.1.2, step 13.8.3.7).
///
/// `context` and `definition` are those of the map that has the property, `lists` whether the property has a list container where the value
/// was expanded, `value` is the value at the index and `outcome` what it came to.
#[tactic(auto, unfolding(expand_model::specs::Indexes::index_added))]
pub fn add_index(
    alloc: Global,
    context: &ActiveContext,
    definition: Option<&TermDef>,
    lists: bool,
    index: &str,
    value: &Tree,
    outcome: Tree,
    out: Trees,
) -> Result<Trees, PartStop>
    ensures { Answers result (λ ts. ts) (indexes.index_added (settings_view context.now) (definition_in definition.entry) lists index.now (view value.now) (view outcome) out) }
{
    let items = index_items(alloc, lists, value, outcome)?;
    let mut out = out;
    index_each(alloc, context, definition, index, items, &mut out)?;
    Ok(out)
}

/// The items that a value at an index comes to, which is expanded as an array.
#[tactic(auto, unfolding(expand_model::specs::Rules::spliced))]
fn index_items(alloc: Global, lists: bool, value: &Tree, outcome: Tree) -> Result<Trees, AllocError>
    ensures { IfOk result (λ ts. ts ≡ indexes.index_items lists (view value.now) (view outcome)) }
{
    match value {
        Tree::Items(_) => as_items(alloc, outcome),
        _ => splice(alloc, lists, Trees::new(alloc), outcome),
    }
}

fn index_each(
    alloc: Global,
    context: &ActiveContext,
    definition: Option<&TermDef>,
    index: &str,
    items: Trees,
    out: &mut Trees,
) -> Result<(), PartStop>
    ensures { Answers result (λ _. out.new) (indexes.each_indexed (settings_view context.now) (definition_in definition.entry) index.now items out.old) }
{
    for item in items {
        let item = indexed(alloc, context, definition, index, item)?;
        out.push(item)?;
    }
    Ok(())
}

/// An item, in the active context of the map that has the property. An index that expands to `@none` adds nothing.
#[tactic(auto, unfolding(expand_model::specs::Indexes::indexed))]
fn indexed(
    alloc: Global,
    context: &ActiveContext,
    definition: Option<&TermDef>,
    index: &str,
    item: Tree,
) -> Result<Tree, PartStop>
    ensures { Answers result view (indexes.indexed (settings_view context.now) (definition_in definition.entry) index.now (view item)) }
{
    let item = in_graph(alloc, container_of(definition), item)?;
    if expands_to(context, "@none", index) {
        return Ok(item);
    }
    with_index(alloc, context, definition, index, item)
}

/// An item of a graph container is a graph object (step 13.8.3.7.1).
fn in_graph(alloc: Global, shape: Shape, item: Tree) -> Result<Tree, AllocError>
    ensures { IfOk result (λ t. view t ≡ indexes.in_graph shape (view item)) }
{
    if shape.graph && !is_graph_object(&item) {
        return graph_object(alloc, item);
    }
    Ok(item)
}

#[tactic(auto, using(expand_values::proofs::Puts::listed))]
fn is_graph_object(value: &Tree) -> bool
    ensures { result ≡ indexes.is_graph_object (view value.now) }
{
    match value {
        Tree::Map(members) => has(members, "@graph") && has_graph_keys(members),
        _ => false,
    }
}

fn has_graph_keys(members: &Members) -> bool
    ensures { result ≡ list_all indexes.is_graph_key members.now }
{
    for (key, value) in members {
        if !is_graph_key(key, value) {
            return false;
        }
    }
    true
}

fn is_graph_key(key: &Text, _value: &Tree) -> bool
    ensures { result ≡ indexes.is_graph_key (key.now, view _value.now) }
{
    is_one_of(key.as_str(), &GRAPH_KEYS)
}

fn with_index(
    alloc: Global,
    context: &ActiveContext,
    definition: Option<&TermDef>,
    index: &str,
    item: Tree,
) -> Result<Tree, PartStop>
    ensures { Answers result view (indexes.with_index (settings_view context.now) (definition_in definition.entry) index.now (view item)) }
{
    match item {
        Tree::Map(members) => index_members(alloc, context, definition, index, members),
        other => Ok(other),
    }
}

fn index_members(
    alloc: Global,
    context: &ActiveContext,
    definition: Option<&TermDef>,
    index: &str,
    members: Members,
) -> Result<Tree, PartStop>
    ensures { Answers result view (indexes.members_indexed (settings_view context.now) (definition_in definition.entry) index.now members) }
{
    let mut members = members;
    let shape = container_of(definition);
    let key = index_key(definition);
    by_container(alloc, context, &shape, key, index, &mut members)?;
    Ok(Tree::Map(members))
}

/// The entry that an item gets for its index.
fn index_key<'a>(definition: Option<&'a TermDef>) -> &'a str
    ensures { result.now ≡ indexes.index_key (definition_in definition.entry) }
{
    match definition {
        None => "@index",
        Some(definition) => match &definition.index {
            None => "@index",
            Some(key) => key.as_str(),
        },
    }
}

/// What the index adds to an item: the first of these that the container asks for (steps 13.8.3.7.2 to 13.8.3.7.5).
#[tactic(auto, unfolding(ld_model::specs::Tree::put))]
fn by_container(
    alloc: Global,
    context: &ActiveContext,
    shape: &Shape,
    key: &str,
    index: &str,
    members: &mut Members,
) -> Result<(), PartStop>
    ensures { Answers result (λ _. members.new) (indexes.by_container (settings_view context.now) shape.now key.now index.now members.old) }
{
    if shape.index && key != "@index" {
        return by_property(alloc, context, key, index, members);
    }
    if shape.index && !has(members, "@index") {
        put_text(alloc, members, "@index", Some(Text::new(alloc, index)?))?;
        return Ok(());
    }
    if shape.id && !has(members, "@id") {
        let id = expand_iri(alloc, context, index, true, false)?;
        put_text(alloc, members, "@id", id)?;
        return Ok(());
    }
    if shape.types {
        add_type(alloc, context, index, members)?;
    }
    Ok(())
}

/// An index that is the value of a property (step 13.8.3.7.2). No value object gets one.
fn by_property(
    alloc: Global,
    context: &ActiveContext,
    key: &str,
    index: &str,
    members: &mut Members,
) -> Result<(), PartStop>
    ensures { Answers result (λ _. members.new) (indexes.by_property (settings_view context.now) key.now index.now members.old) }
{
    let is_value = has(members, "@value");
    let property = expand_iri(alloc, context, key, false, true)?;
    let value = index_value(alloc, context, key, index)?;
    put_before(alloc, &property, value, members)?;
    if is_value && has_named(&property, members) {
        return Err(PartStop::Refused(Code::InvalidValueObject));
    }
    Ok(())
}

fn index_value(
    alloc: Global,
    context: &ActiveContext,
    key: &str,
    index: &str,
) -> Result<Option<Tree>, AllocError>
    ensures { IfOk result (λ v. option_map view v ≡ expand_value (settings_view context.now) key.now (model.text index.now)) }
{
    let index = Tree::Str(Text::new(alloc, index)?);
    scalar_value(alloc, context, key, &index)
}

/// A value stands before those of a key. [Ours: nothing is put where either is null.]
#[tactic(auto, unfolding(ld_model::specs::Tree::put))]
fn put_before(
    alloc: Global,
    property: &Option<Text>,
    value: Option<Tree>,
    members: &mut Members,
) -> Result<(), AllocError>
    ensures { OnOk result (members.new ≡ indexes.put_before property.now (option_map view value) members.old) }
{
    let Some(property) = property else {
        return Ok(());
    };
    let Some(value) = value else {
        return Ok(());
    };
    let held = values_taken(alloc, members, property.as_str())?;
    let all = join(one_item(alloc, value)?, held)?;
    members.set(property.copy()?, Tree::Items(all))
}

fn has_named(property: &Option<Text>, members: &Members) -> bool
    ensures { result ≡ indexes.has_named property.now members.now }
{
    match property {
        None => false,
        Some(property) => has(members, property.as_str()),
    }
}

/// The expanded index stands before the types.
fn add_type(
    alloc: Global,
    context: &ActiveContext,
    index: &str,
    members: &mut Members,
) -> Result<(), AllocError>
    ensures { OnOk result (members.new ≡ indexes.type_before (settings_view context.now) index.now members.old) }
{
    let kind = expand_iri(alloc, context, index, false, true)?;
    let key = Some(Text::new(alloc, "@type")?);
    put_before(alloc, &key, as_value(kind), members)
}

fn as_value(text: Option<Text>) -> Option<Tree>
    ensures { option_map view result ≡ option_map model.text text }
{
    match text {
        None => None,
        Some(text) => Some(Tree::Str(text)),
    }
}
