// What the values of keywords become (JSON-LD 1.1 API, section 5.1.2, step 13.4).
ghost use Rattle.std.specs.Prelude.{◌≡◌, ◌||◌, [], ◌∷◌, ◌++◌, IfOk, OnOk, codes};
ghost use Rattle.std.specs.List.{filter_map, list_all};
ghost use Rattle.std.specs.Option.{option_map};
ghost use Rattle.std.specs.Str.{bytes_eq};
ghost use Rattle.ld_model.specs.Tree as model;
ghost use Rattle.ld_tree.specs.View.{view};
ghost use Rattle.ctx_types.specs.ContextView.{settings_view};
ghost use Rattle.expand_model.specs.Keywords as keywords;
ghost use Rattle.expand_model.specs.Scope as scope;
ghost use Rattle.expand_types.specs.Answers.{Answers};

use case_tables::{Code, Keyword};
use ctx_types::{ActiveContext, expand_iri};
use expand_types::PartStop;
use expand_values::is_text;
use ld_tree::{Tree, Trees};
use std::alloc::{AllocError, Global};

/// What the value of a keyword becomes, for `@id`, `@type`, `@value`, `@language`, `@direction` and `@index` (JSON-LD 1.1 API, section 5.1.2,
/// step 13.4): None where nothing is added.
#[tactic(auto, unfolding(expand_model::specs::Keywords::keyword_entry))]
pub fn keyword_entry(
    alloc: Global,
    context: &ActiveContext,
    types: &ActiveContext,
    key: Keyword,
    value: &Tree,
    json: bool,
) -> Result<Option<Tree>, PartStop>
    ensures { Answers result (λ v. option_map view v) (keywords.keyword_entry (settings_view context.now) (settings_view types.now) key (view value.now) json) }
{
    match key {
        Keyword::Id => id_told(alloc, context, value),
        Keyword::TypeWord => type_told(alloc, types, value),
        Keyword::Value => value_told(alloc, json, value),
        Keyword::Language => language_told(value),
        Keyword::Direction => direction_told(value),
        Keyword::Index => index_told(value),
        _ => Ok(None),
    }
}

/// `@id` (step 13.4.3). [Ours: an id that expands to null is not added.]
fn id_told(alloc: Global, context: &ActiveContext, value: &Tree) -> Result<Option<Tree>, PartStop>
    ensures { Answers result (λ v. option_map view v) (keywords.id_told (settings_view context.now) (view value.now)) }
{
    match value {
        Tree::Str(text) => match expand_iri(alloc, context, text.as_str(), true, false)? {
            None => Ok(None),
            Some(iri) => Ok(Some(Tree::Str(iri))),
        },
        _ => Err(PartStop::Refused(Code::InvalidIdValue)),
    }
}

/// `@type`, in the type-scoped context (step 13.4.4). [Ours: a type that expands to null is dropped, and a lone one adds no entry.]
fn type_told(alloc: Global, types: &ActiveContext, value: &Tree) -> Result<Option<Tree>, PartStop>
    ensures { Answers result (λ v. option_map view v) (keywords.type_told (settings_view types.now) (view value.now)) }
{
    match value {
        Tree::Str(_) => Ok(type_in(alloc, types, value)?),
        Tree::Items(values) => types_told(alloc, types, values),
        _ => Err(PartStop::Refused(Code::InvalidTypeValue)),
    }
}

fn types_told(
    alloc: Global,
    types: &ActiveContext,
    values: &Trees,
) -> Result<Option<Tree>, PartStop>
    ensures { Answers result (λ v. option_map view v) (keywords.type_told (settings_view types.now) (model.array (model.trees_of values.now))) }
{
    if !are_texts(values) {
        return Err(PartStop::Refused(Code::InvalidTypeValue));
    }
    let items = types_in(alloc, types, values)?;
    Ok(Some(Tree::Items(items)))
}

fn are_texts(values: &Trees) -> bool
    ensures { result ≡ list_all scope.is_text values.now }
{
    for value in values {
        if !is_text(value) {
            return false;
        }
    }
    true
}

fn types_in(alloc: Global, types: &ActiveContext, values: &Trees) -> Result<Trees, AllocError>
    ensures { IfOk result (λ ts. ts ≡ filter_map (keywords.type_in (settings_view types.now)) values.now) }
{
    let mut items = Trees::with_capacity(alloc, values.len())?;
    for value in values {
        push_type(alloc, types, &mut items, value)?;
    }
    Ok(items)
}

fn push_type(
    alloc: Global,
    types: &ActiveContext,
    items: &mut Trees,
    value: &Tree,
) -> Result<(), AllocError>
    ensures { OnOk result (items.new ≡ items.old ++ filter_map (keywords.type_in (settings_view types.now)) (view value.now ∷ [])) }
{
    match type_in(alloc, types, value)? {
        None => Ok(()),
        Some(item) => items.push(item),
    }
}

fn type_in(alloc: Global, types: &ActiveContext, value: &Tree) -> Result<Option<Tree>, AllocError>
    ensures { IfOk result (λ v. option_map view v ≡ keywords.type_in (settings_view types.now) (view value.now)) }
{
    match value {
        Tree::Str(text) => match expand_iri(alloc, types, text.as_str(), true, true)? {
            None => Ok(None),
            Some(iri) => Ok(Some(Tree::Str(iri))),
        },
        _ => Ok(None),
    }
}

/// `@value` (step 13.4.7). Null is kept for now.
fn value_told(alloc: Global, json: bool, value: &Tree) -> Result<Option<Tree>, PartStop>
    ensures { Answers result (λ v. option_map view v) (keywords.value_told json (view value.now)) }
{
    if !(json || is_scalar_or_null(value)) {
        return Err(PartStop::Refused(Code::InvalidValueObjectValue));
    }
    let value = value.copy(alloc)?;
    Ok(Some(value))
}

fn is_scalar_or_null(value: &Tree) -> bool
    ensures { result ≡ keywords.is_scalar_or_null (view value.now) }
{
    match value {
        Tree::Items(_) => false,
        Tree::Map(_) => false,
        _ => true,
    }
}

/// `@language` (step 13.4.8). [Ours: it is kept as written.]
fn language_told(value: &Tree) -> Result<Option<Tree>, PartStop>
    ensures { Answers result (λ v. option_map view v) (keywords.language_told (view value.now)) }
{
    match value {
        Tree::Str(text) => Ok(Some(Tree::Str(text.copy()?))),
        _ => Err(PartStop::Refused(Code::InvalidLanguageTaggedString)),
    }
}

/// `@direction` (step 13.4.9).
fn direction_told(value: &Tree) -> Result<Option<Tree>, PartStop>
    ensures { Answers result (λ v. option_map view v) (keywords.direction_told (view value.now)) }
{
    match value {
        Tree::Str(text) => {
            if !is_direction(text.as_str()) {
                return Err(PartStop::Refused(Code::InvalidBaseDirection));
            }
            Ok(Some(Tree::Str(text.copy()?)))
        }
        _ => Err(PartStop::Refused(Code::InvalidBaseDirection)),
    }
}

fn is_direction(text: &str) -> bool
    ensures { result ≡ (bytes_eq text.now (codes "ltr") || bytes_eq text.now (codes "rtl")) }
{
    text == "ltr" || text == "rtl"
}

/// `@index` (step 13.4.10).
fn index_told(value: &Tree) -> Result<Option<Tree>, PartStop>
    ensures { Answers result (λ v. option_map view v) (keywords.index_told (view value.now)) }
{
    match value {
        Tree::Str(text) => Ok(Some(Tree::Str(text.copy()?))),
        _ => Err(PartStop::Refused(Code::InvalidIndexValue)),
    }
}
