// Entries whose keys are properties (JSON-LD 1.1 API, section 5.1.2, steps 13.5 to 13.14).
ghost use Rattle.std.specs.Prelude.{◌≡◌, IfOk, OnOk, map};
ghost use Rattle.std.specs.List.{list_any};
ghost use Rattle.std.specs.Option.{option_map};
ghost use Rattle.ctx_types.specs.ContextView.{settings_view};
ghost use Rattle.ld_tree.specs.View.{view};
ghost use Rattle.expand_model.specs.Properties as properties;
ghost use Rattle.expand_model.specs.Scope as scope;
ghost use Rattle.expand_types.specs.Answers.{Answers};
ghost use Rattle.expand_types.specs.View.{definition_in};

use case_tables::{Code, Shape};
use ctx_types::{ActiveContext, TermDef};
use expand_entries::value_unexpanded;
use expand_types::PartStop;
use expand_values::{
    Draft, add_all, as_items, graph_object, is_list_object, is_null, is_value_object, list_object,
    values_of,
};
use ld_text::Text;
use ld_tree::{Members, Tree, Trees};
use std::alloc::{AllocError, Global};

/// A property whose value isn't expanded.
#[tactic(auto, unfolding(expand_model::specs::Properties::property_told))]
pub(crate) fn tell_property(
    alloc: Global,
    context: &ActiveContext,
    definition: Option<&TermDef>,
    property: &Text,
    value: &Tree,
    made: &mut Draft,
) -> Result<(), PartStop>
    ensures { Answers result (λ _. made.new) (properties.property_told (settings_view context.now) (definition_in definition.entry) property.now (view value.now) made.old) }
{
    let told = value_unexpanded(alloc, context, definition, value)?;
    add_property(alloc, definition, property.copy()?, told, made)
}

/// What is made of the outcome of a property's value (steps 13.10 to 13.14).
#[tactic(auto, unfolding(expand_model::specs::Properties::property_added))]
pub(crate) fn add_property(
    alloc: Global,
    definition: Option<&TermDef>,
    property: Text,
    outcome: Tree,
    made: &mut Draft,
) -> Result<(), PartStop>
    ensures { Answers result (λ _. made.new) (properties.property_added (definition_in definition.entry) property (view outcome) made.old) }
{
    if is_null(&outcome) {
        return Ok(());
    }
    let shape = container_of(definition);
    let value = listed(alloc, shape, outcome)?;
    let value = graphed(alloc, shape, value)?;
    add_directed(alloc, definition, property, value, made)
}

/// The container mapping of a definition.
pub(crate) fn container_of(definition: Option<&TermDef>) -> Shape
    ensures { result ≡ scope.container_of (definition_in definition.entry) }
{
    match definition {
        None => Shape::none(),
        Some(definition) => definition.container,
    }
}

/// Under a list container, what is no list object becomes one (step 13.11).
fn listed(alloc: Global, shape: Shape, value: Tree) -> Result<Tree, AllocError>
    ensures { IfOk result (λ t. view t ≡ properties.listed shape (view value)) }
{
    if shape.list && !is_list_object(&value) {
        return list_object(alloc, as_items(alloc, value)?);
    }
    Ok(value)
}

/// Under a graph container without ids and indexes, each item becomes a graph object (step 13.12).
fn graphed(alloc: Global, shape: Shape, value: Tree) -> Result<Tree, AllocError>
    ensures { IfOk result (λ t. view t ≡ properties.graphed shape (view value)) }
{
    if shape.graph && !(shape.id || shape.index) {
        let graphs = graph_objects(alloc, as_items(alloc, value)?)?;
        return Ok(Tree::Items(graphs));
    }
    Ok(value)
}

fn graph_objects(alloc: Global, items: Trees) -> Result<Trees, AllocError>
    ensures { IfOk result (λ ts. ts ≡ map scope.graph_object items) }
{
    let mut graphs = Trees::with_capacity(alloc, items.len())?;
    for item in items {
        graphs.push(graph_object(alloc, item)?)?;
    }
    Ok(graphs)
}

/// A reverse property goes to `@reverse`, and any other to its own entry (steps 13.13 and 13.14).
fn add_directed(
    alloc: Global,
    definition: Option<&TermDef>,
    property: Text,
    value: Tree,
    made: &mut Draft,
) -> Result<(), PartStop>
    ensures { Answers result (λ _. made.new) (properties.directed (definition_in definition.entry) property (view value) made.old) }
{
    if is_reverse(definition) {
        return reverse(alloc, property, as_items(alloc, value)?, made);
    }
    made.add_all(property, values_of(alloc, value)?)?;
    Ok(())
}

fn is_reverse(definition: Option<&TermDef>) -> bool
    ensures { result ≡ properties.is_reverse (definition_in definition.entry) }
{
    match definition {
        None => false,
        Some(definition) => definition.reverse,
    }
}

/// Adds nodes to the entry of a property in `@reverse`. [Ours: the map and its entry are made only when there is a value.]
#[tactic(auto, unfolding(expand_model::specs::Properties::reverse_added))]
pub(crate) fn reverse(
    alloc: Global,
    property: Text,
    nodes: Trees,
    made: &mut Draft,
) -> Result<(), PartStop>
    ensures { Answers result (λ _. made.new) (properties.reverse_added property nodes made.old) }
{
    if has_irreversible(&nodes) {
        return Err(PartStop::Refused(Code::InvalidReversePropertyValue));
    }
    put_reverse(alloc, property, nodes, made)?;
    Ok(())
}

fn has_irreversible(values: &Trees) -> bool
    ensures { result ≡ list_any properties.is_irreversible values.now }
{
    for value in values {
        if is_irreversible(value) {
            return true;
        }
    }
    false
}

fn is_irreversible(value: &Tree) -> bool
    ensures { result ≡ properties.is_irreversible (view value.now) }
{
    is_value_object(value) || is_list_object(value)
}

fn put_reverse(
    alloc: Global,
    property: Text,
    nodes: Trees,
    made: &mut Draft,
) -> Result<(), AllocError>
    ensures { OnOk result (made.new ≡ properties.reverse_put property nodes made.old) }
{
    if nodes.is_empty() {
        return Ok(());
    }
    let key = Text::new(alloc, "@reverse")?;
    let mut reversed = reversed_in(alloc, made.taken(&key));
    add_all(alloc, &mut reversed, property, nodes)?;
    made.put(key, Tree::Map(reversed))
}

/// The members of what stands at `@reverse`.
pub(crate) fn reversed_in(alloc: Global, held: Option<Tree>) -> Members
    ensures { result ≡ properties.reverses_of (option_map view held) }
{
    match held {
        None => Members::new(alloc),
        Some(value) => members_in(alloc, value),
    }
}

fn members_in(alloc: Global, value: Tree) -> Members
    ensures { result ≡ scope.members_in (view value) }
{
    match value {
        Tree::Map(members) => members,
        _ => Members::new(alloc),
    }
}
