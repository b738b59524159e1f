// The tests of what the entries of a map came to (JSON-LD 1.1 API, section 5.1.2, steps 15 to 19).
ghost use Rattle.std.specs.Prelude.{◌≡◌, Some, None, true, false, IfOk, codes, if◌then◌else◌};
ghost use Rattle.std.specs.List.{list_all};
ghost use Rattle.std.specs.Option.{option_map, option_map_or};
ghost use Rattle.ld_model.specs.Tree as model;
ghost use Rattle.ld_model.specs.Tree.{member_at, members_of, object};
ghost use Rattle.ld_tree.specs.View.{view};
ghost use Rattle.expand_model.specs.Finish as last;
ghost use Rattle.ctx_entries.specs.View.{tree_view};
ghost use Rattle.expand_types.specs.Answers.{Answers};
ghost use Rattle.expand_types.specs.View.{word_view};
ghost use Rattle.expand_entries.specs.Finish.{begins_at, is_array, is_lone_type, is_plain, says_nothing, unless_nothing};

use case_tables::Code;
use ctx_entries::is_one_of;
use expand_types::{PartStop, is_top};
use expand_values::{add_all, has, is_lone, is_null, is_text};
use iri_ref::has_scheme;
use ld_text::Text;
use ld_tree::{Members, Tree, Trees};
use std::alloc::{AllocError, Global};

/// The entries that a value object may have.
const VALUE_KEYS: [&str; 5] = ["@direction", "@index", "@language", "@type", "@value"];

/// The entries that a set or list object may have.
const SET_KEYS: [&str; 3] = ["@index", "@list", "@set"];

/// What a map comes to under its active property: None where it is dropped.
pub fn finish_map(
    alloc: Global,
    entries: Members,
    property: Option<&Text>,
) -> Result<Option<Tree>, PartStop>
    ensures { Answers result (λ v. option_map view v) (last.finish_map entries (word_view property.entry)) }
{
    match property {
        None => finish_entries(alloc, entries, None),
        Some(property) => finish_entries(alloc, entries, Some(property.as_str())),
    }
}

/// The same, for a property that is lent as a string.
#[tactic(auto, unfolding(expand_model::specs::Finish::finish_map))]
pub fn finish_entries(
    alloc: Global,
    entries: Members,
    property: Option<&str>,
) -> Result<Option<Tree>, PartStop>
    ensures { Answers result (λ v. option_map view v) (last.finish_map entries (word_view property.entry)) }
{
    if are_plain(&entries) {
        return Ok(unless_nothing(property, entries));
    }
    let finished = by_value(alloc, entries)?;
    Ok(unless_dropped(property, finished))
}

/// Whether no key but `@id` may be a keyword: of such a map nothing is tested but what it is at the top of a graph.
fn are_plain(entries: &Members) -> bool
    ensures { result ≡ list_all is_plain entries.now }
{
    for (key, value) in entries {
        if !is_plain(key, value) {
            return false;
        }
    }
    true
}

fn is_plain(key: &Text, _value: &Tree) -> bool
    ensures { result ≡ is_plain (key.now, view _value.now) }
{
    !begins_at(key.as_str()) || key.as_str() == "@id"
}

/// Whether a text begins as keywords do.
fn begins_at(text: &str) -> bool
    ensures { result ≡ begins_at text.now }
{
    match text.as_bytes().split_first() {
        Some((first, _)) => *first == b'@',
        None => false,
    }
}

/// What such a map comes to.
fn unless_nothing(property: Option<&str>, entries: Members) -> Option<Tree>
    ensures { option_map view result ≡ unless_nothing (word_view property.entry) entries }
{
    if says_nothing(property, &entries) {
        return None;
    }
    Some(Tree::Map(entries))
}

fn says_nothing(property: Option<&str>, entries: &Members) -> bool
    ensures { result ≡ says_nothing (word_view property.entry) entries.now }
{
    is_top(property) && (entries.is_empty() || is_lone(entries, "@id"))
}

fn by_value(alloc: Global, entries: Members) -> Result<Option<Tree>, PartStop>
    ensures { Answers result (λ v. option_map view v) (last.by_value (member_at (codes "@value") entries) entries) }
{
    let Some(value) = entries.get("@value") else {
        let entries = with_types(alloc, entries)?;
        return node_finished(entries);
    };
    let stays = value_stays(value, &entries)?;
    if stays {
        Ok(Some(Tree::Map(entries)))
    } else {
        Ok(None)
    }
}

/// Whether a map with this `@value` stays (step 15).
fn value_stays(value: &Tree, entries: &Members) -> Result<bool, PartStop>
    ensures { Answers result (λ stays. if stays then Some (object (members_of entries.now)) else None) (last.value_finished (view value.now) entries.now) }
{
    if !are_value_entries(entries) {
        return Err(PartStop::Refused(Code::InvalidValueObject));
    }
    if is_json(entries.get("@type")) {
        return Ok(true);
    }
    literal_stays(value, entries)
}

/// Step 15.1.
fn are_value_entries(entries: &Members) -> bool
    ensures { result ≡ last.are_value_entries entries.now }
{
    has_value_keys(entries)
        && !(has(entries, "@type") && (has(entries, "@language") || has(entries, "@direction")))
}

fn has_value_keys(entries: &Members) -> bool
    ensures { result ≡ list_all last.is_value_key entries.now }
{
    for (key, value) in entries {
        if !is_value_key(key, value) {
            return false;
        }
    }
    true
}

fn is_value_key(key: &Text, _value: &Tree) -> bool
    ensures { result ≡ last.is_value_key (key.now, view _value.now) }
{
    is_one_of(key.as_str(), &VALUE_KEYS)
}

/// Step 15.2: the type of a JSON literal.
fn is_json(kind: Option<&Tree>) -> bool
    ensures { result ≡ option_map_or last.is_json_word (tree_view kind.entry) false }
{
    match kind {
        None => false,
        Some(kind) => is_json_word(kind),
    }
}

fn is_json_word(kind: &Tree) -> bool
    ensures { result ≡ last.is_json_word (view kind.now) }
{
    match kind {
        Tree::Str(text) => text.as_str() == "@json",
        _ => false,
    }
}

/// Whether a map that is no JSON literal stays (step 15.3).
fn literal_stays(value: &Tree, entries: &Members) -> Result<bool, PartStop>
    ensures { Answers result (λ stays. if stays then Some (object (members_of entries.now)) else None) (last.literal_finished (view value.now) entries.now) }
{
    if is_null(value) {
        return Ok(false);
    }
    test_literal(value, entries)?;
    Ok(true)
}

/// Steps 15.4 and 15.5.
fn test_literal(value: &Tree, entries: &Members) -> Result<(), PartStop>
    ensures { Answers result (λ _. Some (object (members_of entries.now))) (last.literal_tested (view value.now) entries.now) }
{
    if has(entries, "@language") && !is_text(value) {
        return Err(PartStop::Refused(Code::InvalidLanguageTaggedValue));
    }
    if !may_be_kind(entries.get("@type")) {
        return Err(PartStop::Refused(Code::InvalidTypedValue));
    }
    Ok(())
}

fn may_be_kind(kind: Option<&Tree>) -> bool
    ensures { result ≡ option_map_or last.is_datatype (tree_view kind.entry) true }
{
    match kind {
        None => true,
        Some(kind) => is_datatype(kind),
    }
}

/// A datatype has the form of an IRI, and is no blank node identifier.
fn is_datatype(kind: &Tree) -> bool
    ensures { result ≡ last.is_datatype (view kind.now) }
{
    match kind {
        Tree::Str(text) => has_scheme(text.as_str()) && !text.is_blank(),
        _ => false,
    }
}

/// The types of a node object stand in an array (step 16).
fn with_types(alloc: Global, entries: Members) -> Result<Members, AllocError>
    ensures { IfOk result (λ ms. ms ≡ last.types_array (member_at (codes "@type") entries) entries) }
{
    if !has_lone_type(&entries) {
        return Ok(entries);
    }
    let mut entries = entries;
    add_all(
        alloc,
        &mut entries,
        Text::new(alloc, "@type")?,
        Trees::new(alloc),
    )?;
    Ok(entries)
}

fn has_lone_type(entries: &Members) -> bool
    ensures { result ≡ is_lone_type (member_at (codes "@type") entries.now) }
{
    match entries.get("@type") {
        None => false,
        Some(kind) => !is_array(kind),
    }
}

fn is_array(value: &Tree) -> bool
    ensures { result ≡ is_array (view value.now) }
{
    matches!(value, Tree::Items(_))
}

/// Steps 17 to 17.2.
fn node_finished(entries: Members) -> Result<Option<Tree>, PartStop>
    ensures { Answers result (λ v. option_map view v) (last.node_finished entries) }
{
    if is_set_or_list(&entries) && !are_set_entries(&entries) {
        return Err(PartStop::Refused(Code::InvalidSetOrListObject));
    }
    Ok(without_set(entries))
}

fn is_set_or_list(entries: &Members) -> bool
    ensures { result ≡ last.is_set_or_list entries.now }
{
    has(entries, "@set") || has(entries, "@list")
}

/// Beside `@set` or `@list` only `@index` may stand.
fn are_set_entries(entries: &Members) -> bool
    ensures { result ≡ last.are_set_entries entries.now }
{
    has_set_keys(entries) && !(has(entries, "@list") && has(entries, "@set"))
}

fn has_set_keys(entries: &Members) -> bool
    ensures { result ≡ list_all last.is_set_key entries.now }
{
    for (key, value) in entries {
        if !is_set_key(key, value) {
            return false;
        }
    }
    true
}

fn is_set_key(key: &Text, _value: &Tree) -> bool
    ensures { result ≡ last.is_set_key (key.now, view _value.now) }
{
    is_one_of(key.as_str(), &SET_KEYS)
}

/// A set is its items (step 17.2).
fn without_set(entries: Members) -> Option<Tree>
    ensures { option_map view result ≡ last.set_taken (member_at (codes "@set") entries) entries }
{
    if !has(&entries, "@set") {
        return Some(Tree::Map(entries));
    }
    let mut entries = entries;
    unless_null(entries.take("@set")?)
}

fn unless_null(value: Tree) -> Option<Tree>
    ensures { (r : model.Pairs) → option_map view result ≡ last.set_taken (Some (view value)) r }
{
    match value {
        Tree::Null => None,
        other => Some(other),
    }
}

fn unless_dropped(property: Option<&str>, value: Option<Tree>) -> Option<Tree>
    ensures { option_map view result ≡ last.unless_dropped (word_view property.entry) (option_map view value) }
{
    let value = value?;
    if is_dropped(property, &value) {
        return None;
    }
    Some(value)
}

/// Whether a map says nothing, or nothing at the top of a graph (steps 18 and 19).
#[tactic(auto, using(expand_values::proofs::Puts::listed))]
fn is_dropped(property: Option<&str>, value: &Tree) -> bool
    ensures { result ≡ last.is_dropped (word_view property.entry) (view value.now) }
{
    match value {
        Tree::Map(entries) => {
            is_lone(entries, "@language") || (is_top(property) && is_free(entries))
        }
        _ => false,
    }
}

fn is_free(entries: &Members) -> bool
    ensures { result ≡ last.is_free entries.now }
{
    entries.is_empty() || has(entries, "@value") || has(entries, "@list") || is_lone(entries, "@id")
}
