// Entries whose keys are keywords (JSON-LD 1.1 API, section 5.1.2, step 13.4).
ghost use Rattle.std.specs.Prelude.{◌≡◌, ◌&&◌, Some, OnOk, codes, not};
ghost use Rattle.std.specs.List.{list_all};
ghost use Rattle.std.specs.Option.{option_map};
ghost use Rattle.ctx_types.specs.ContextView.{settings_view};
ghost use Rattle.ld_model.specs.Tree as model;
ghost use Rattle.ld_tree.specs.View.{view};
ghost use Rattle.ctx_model.specs.Words.{same_text};
ghost use Rattle.expand_model.specs.Keywords as keywords;
ghost use Rattle.expand_model.specs.Scope as scope;
ghost use Rattle.expand_types.specs.Answers.{Answers};
ghost use Rattle.expand_types.specs.View.{word_view};
ghost use Rattle.expand_parts.specs.Reverse.{reversed_member};

use crate::properties::{reverse, reversed_in};
use case_tables::{Code, Keyword};
use expand_entries::keyword_entry;
use expand_types::{MapScope, PartStop};
use expand_values::{Draft, as_items, is_node_object, values_of};
use ld_text::Text;
use ld_tree::{Members, Tree, Trees};
use std::alloc::{AllocError, Global};

/// No keyword stands in a map under `@reverse`, and none comes twice but `@included` and `@type` (steps 13.4.1 and 13.4.2).
pub(crate) fn begin_keyword(
    property: Option<&str>,
    word: Keyword,
    made: &Draft,
) -> Result<(), PartStop>
    ensures { Answers result (λ x. x) (keywords.keyword_begun (word_view property.entry) word made.now) }
{
    if is_reverse(property) {
        return Err(PartStop::Refused(Code::InvalidReversePropertyMap));
    }
    if may_repeat(word) {
        return Ok(());
    }
    if made.has(word.name())? {
        return Err(PartStop::Refused(Code::CollidingKeywords));
    }
    Ok(())
}

fn is_reverse(property: Option<&str>) -> bool
    ensures { result ≡ same_text (word_view property.entry) (Some (codes "@reverse")) }
{
    match property {
        None => false,
        Some(property) => property == "@reverse",
    }
}

fn may_repeat(word: Keyword) -> bool
    ensures { result ≡ keywords.may_repeat word }
{
    match word {
        Keyword::Included => true,
        Keyword::TypeWord => true,
        _ => false,
    }
}

/// A keyword whose value isn't expanded. [Ours: keywords that have no meaning in a node object are dropped, those of framing too.]
#[tactic(auto, unfolding(expand_model::specs::Keywords::keyword_told))]
pub(crate) fn tell_keyword(
    alloc: Global,
    scope: &MapScope<'_>,
    word: Keyword,
    value: &Tree,
    made: &mut Draft,
) -> Result<(), PartStop>
    ensures { Answers result (λ _. made.new) (keywords.keyword_told (settings_view scope.now.context.now) (settings_view scope.now.types.now) scope.now.json (word_view scope.now.property) word (view value.now) made.old) }
{
    begin_keyword(scope.property, word, made)?;
    test_told(word)?;
    let told = keyword_entry(alloc, scope.context, scope.types, word, value, scope.json)?;
    put_keyword(alloc, word, told, made)?;
    Ok(())
}

/// The value of `@reverse` is a map, which is expanded (step 13.4.13.1).
fn test_told(word: Keyword) -> Result<(), PartStop>
    ensures { Answers result (λ x. x) (keywords.may_be_told word) }
{
    match word {
        Keyword::Reverse => Err(PartStop::Refused(Code::InvalidReverseValue)),
        _ => Ok(()),
    }
}

/// The value is the entry's (step 13.4.16).
#[tactic(auto, unfolding(expand_model::specs::Keywords::keyword_put))]
fn put_keyword(
    alloc: Global,
    word: Keyword,
    told: Option<Tree>,
    made: &mut Draft,
) -> Result<(), AllocError>
    ensures { OnOk result (made.new ≡ keywords.keyword_put word (option_map view told) made.old) }
{
    let Some(value) = told else {
        return Ok(());
    };
    match word {
        Keyword::TypeWord => put_type(alloc, value, made),
        _ => made.put(Text::new(alloc, word.name())?, value),
    }
}

/// A later `@type` is appended to the earlier, as an array.
fn put_type(alloc: Global, value: Tree, made: &mut Draft) -> Result<(), AllocError>
    ensures { OnOk result (made.new ≡ keywords.type_put (view value) made.old) }
{
    let key = Text::new(alloc, "@type")?;
    if made.has("@type")? {
        return made.add_all(key, values_of(alloc, value)?);
    }
    made.put(key, value)
}

/// What is made of the outcome of a keyword's value.
#[tactic(auto, unfolding(expand_model::specs::Keywords::keyword_added))]
pub(crate) fn add_keyword(
    alloc: Global,
    word: Keyword,
    outcome: Tree,
    made: &mut Draft,
) -> Result<(), PartStop>
    ensures { Answers result (λ _. made.new) (keywords.keyword_added word (view outcome) made.old) }
{
    match word {
        Keyword::Graph => Ok(put_items(alloc, "@graph", outcome, made)?),
        Keyword::Included => include(alloc, outcome, made),
        Keyword::List => Ok(put_items(alloc, "@list", outcome, made)?),
        Keyword::Set => Ok(made.put(Text::new(alloc, "@set")?, outcome)?),
        Keyword::Reverse => reverse_map(alloc, outcome, made),
        _ => Ok(()),
    }
}

/// Puts a value that is made an array.
fn put_items(alloc: Global, word: &str, outcome: Tree, made: &mut Draft) -> Result<(), AllocError>
    ensures { OnOk result (made.new ≡ model.put word.now (model.array (model.trees_of (scope.as_items (view outcome)))) made.old) }
{
    let items = as_items(alloc, outcome)?;
    made.put(Text::new(alloc, word)?, Tree::Items(items))
}

/// `@included` has node objects (step 13.4.6). [Ours: null is none.]
fn include(alloc: Global, outcome: Tree, made: &mut Draft) -> Result<(), PartStop>
    ensures { Answers result (λ _. made.new) (keywords.included_added (view outcome) made.old) }
{
    if !may_be_included(&outcome) {
        return Err(PartStop::Refused(Code::InvalidIncludedValue));
    }
    let nodes = values_of(alloc, outcome)?;
    made.add_all(Text::new(alloc, "@included")?, nodes)?;
    Ok(())
}

fn may_be_included(outcome: &Tree) -> bool
    ensures { result ≡ (not (scope.is_null (view outcome.now)) && list_all scope.is_node_object (scope.values_of (view outcome.now))) }
{
    match outcome {
        Tree::Null => false,
        Tree::Items(nodes) => are_node_objects(nodes),
        node => is_node_object(node),
    }
}

fn are_node_objects(nodes: &Trees) -> bool
    ensures { result ≡ list_all scope.is_node_object nodes.now }
{
    for node in nodes {
        if !is_node_object(node) {
            return false;
        }
    }
    true
}

/// The outcome of a map at `@reverse`: what stands reversed in it is a property again, and all else is reversed (steps 13.4.13.3 and
/// 13.4.13.4).
#[tactic(auto, unfolding(expand_model::specs::Keywords::reverse_map_added))]
fn reverse_map(alloc: Global, outcome: Tree, made: &mut Draft) -> Result<(), PartStop>
    ensures { Answers result (λ _. made.new) (keywords.reverse_map_added (view outcome) made.old) }
{
    match outcome {
        Tree::Map(members) => reverse_members(alloc, members, made),
        _ => Ok(()),
    }
}

fn reverse_members(alloc: Global, members: Members, made: &mut Draft) -> Result<(), PartStop>
    ensures { Answers result (λ _. made.new) (keywords.each_reversed members (keywords.forward_added (keywords.reversed_in members) made.old)) }
{
    let mut members = members;
    let forward = reversed_in(alloc, members.take("@reverse"));
    add_forward(alloc, forward, made)?;
    reverse_each(alloc, members, made)
}

fn add_forward(alloc: Global, members: Members, made: &mut Draft) -> Result<(), AllocError>
    ensures { OnOk result (made.new ≡ keywords.forward_added members made.old) }
{
    for (property, value) in members {
        made.add_all(property, values_of(alloc, value)?)?;
    }
    Ok(())
}

fn reverse_each(alloc: Global, members: Members, made: &mut Draft) -> Result<(), PartStop>
    ensures { Answers result (λ _. made.new) (keywords.each_reversed members made.old) }
{
    for (property, value) in members {
        reverse_member(alloc, property, value, made)?;
    }
    Ok(())
}

fn reverse_member(
    alloc: Global,
    property: Text,
    value: Tree,
    made: &mut Draft,
) -> Result<(), PartStop>
    ensures { Answers result (λ _. made.new) (reversed_member (property, view value) made.old) }
{
    if property.as_str() == "@reverse" {
        return Ok(());
    }
    reverse(alloc, property, values_of(alloc, value)?, made)
}
