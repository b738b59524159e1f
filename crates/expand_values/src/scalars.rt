// Value expansion (JSON-LD 1.1 API, section 5.3.2).
ghost use Rattle.std.specs.Prelude.{◌≡◌, [], ◌∷◌, IfOk, codes};
ghost use Rattle.std.specs.Option.{option_map};
ghost use Rattle.ld_model.specs.Tree as model;
ghost use Rattle.ld_model.specs.Tree.{object, members_of, put};
ghost use Rattle.ld_tree.specs.View.{view};
ghost use Rattle.ctx_types.specs.ContextView.{settings_view};
ghost use Rattle.ctx_model.specs.Words.{among};
ghost use Rattle.expand_model.specs.Scope as scope;
ghost use Rattle.expand_model.specs.Values as values;
ghost use Rattle.expand_types.specs.View.{definition_in, word_view};

use crate::lists::one_entry;
use crate::members::put_text;
use ctx_types::{ActiveContext, Side, Slot, TermDef, expand_iri};
use expand_types::is_text as is_word;
use ld_text::Text;
use ld_tree::{Members, Tree};
use std::alloc::{AllocError, Global};

/// Value expansion of a scalar for a property. None where a text stands for an IRI that is null.
pub fn expand_value(
    alloc: Global,
    context: &ActiveContext,
    property: &Text,
    value: &Tree,
) -> Result<Option<Tree>, AllocError>
    ensures { IfOk result (λ v. option_map view v ≡ values.expand_value (settings_view context.now) property.now (view value.now)) }
{
    scalar_value(alloc, context, property.as_str(), value)
}

/// The same, for a property that is lent as a string.
#[tactic(auto, unfolding(expand_model::specs::Values::expand_value))]
pub fn scalar_value(
    alloc: Global,
    context: &ActiveContext,
    property: &str,
    value: &Tree,
) -> Result<Option<Tree>, AllocError>
    ensures { IfOk result (λ v. option_map view v ≡ values.expand_value (settings_view context.now) property.now (view value.now)) }
{
    value_in(alloc, context, context.terms.get(property), value)
}

/// A value for a property with this definition.
fn value_in(
    alloc: Global,
    context: &ActiveContext,
    definition: Option<&TermDef>,
    value: &Tree,
) -> Result<Option<Tree>, AllocError>
    ensures { IfOk result (λ v. option_map view v ≡ values.value_in (settings_view context.now) (definition_in definition.entry) (view value.now)) }
{
    match value {
        Tree::Str(text) => text_in(alloc, context, definition, text),
        other => {
            let literal = value_object(alloc, context, definition, other.copy(alloc)?)?;
            Ok(Some(literal))
        }
    }
}

fn text_in(
    alloc: Global,
    context: &ActiveContext,
    definition: Option<&TermDef>,
    text: &Text,
) -> Result<Option<Tree>, AllocError>
    ensures { IfOk result (λ v. option_map view v ≡ values.value_in (settings_view context.now) (definition_in definition.entry) (model.text text.now)) }
{
    if is_kind("@id", definition) {
        return reference(alloc, context, false, text);
    }
    if is_kind("@vocab", definition) {
        return reference(alloc, context, true, text);
    }
    let literal = value_object(alloc, context, definition, Tree::Str(text.copy()?))?;
    Ok(Some(literal))
}

/// Whether the type mapping of a definition is this one.
pub fn is_kind(kind: &str, definition: Option<&TermDef>) -> bool
    ensures { result ≡ values.is_kind kind.now (definition_in definition.entry) }
{
    match definition {
        None => false,
        Some(definition) => is_word(&definition.kind, kind),
    }
}

/// A text as the IRI of a node (steps 1 and 2). [Ours: a text that expands to null has no value.]
fn reference(
    alloc: Global,
    context: &ActiveContext,
    vocab: bool,
    text: &Text,
) -> Result<Option<Tree>, AllocError>
    ensures { IfOk result (λ v. option_map view v ≡ values.reference (settings_view context.now) vocab text.now) }
{
    match expand_iri(alloc, context, text.as_str(), true, vocab)? {
        None => Ok(None),
        Some(iri) => {
            let node = one_entry(alloc, "@id", Tree::Str(iri))?;
            Ok(Some(node))
        }
    }
}

/// A value object (steps 3 to 6).
#[tactic(auto, unfolding(expand_model::specs::Values::value_object))]
fn value_object(
    alloc: Global,
    context: &ActiveContext,
    definition: Option<&TermDef>,
    value: Tree,
) -> Result<Tree, AllocError>
    ensures { IfOk result (λ t. view t ≡ values.value_object (settings_view context.now) (definition_in definition.entry) (view value)) }
{
    match datatype_of(definition) {
        None => untyped_value(alloc, context, definition, value),
        Some(datatype) => literal(alloc, datatype.copy()?, value),
    }
}

/// The type mapping of a definition, where it is a datatype (step 4).
fn datatype_of<'a>(definition: Option<&'a TermDef>) -> Option<&'a Text>
    ensures { word_view result ≡ values.datatype_of (values.kind_of (definition_in definition.entry)) }
{
    match definition {
        None => None,
        Some(definition) => datatype_in(&definition.kind),
    }
}

fn datatype_in(kind: &Option<Text>) -> Option<&Text>
    ensures { word_view result ≡ values.datatype_of kind.now }
{
    match kind {
        None => None,
        Some(kind) => {
            if is_no_datatype(kind.as_str()) {
                None
            } else {
                Some(kind)
            }
        }
    }
}

fn is_no_datatype(kind: &str) -> bool
    ensures { result ≡ among kind.now (codes "@id" ∷ codes "@vocab" ∷ codes "@none" ∷ []) }
{
    kind == "@id" || kind == "@vocab" || kind == "@none"
}

/// A value with its datatype.
#[tactic(auto, unfolding(ld_model::specs::Tree::put))]
pub fn literal(alloc: Global, datatype: Text, value: Tree) -> Result<Tree, AllocError>
    ensures { IfOk result (λ t. view t ≡ object (members_of (put (codes "@type") (model.text datatype) (put (codes "@value") (view value) [])))) }
{
    let mut members = Members::with_capacity(alloc, 2)?;
    members.put(alloc, "@value", value)?;
    members.put(alloc, "@type", Tree::Str(datatype))?;
    Ok(Tree::Map(members))
}

fn untyped_value(
    alloc: Global,
    context: &ActiveContext,
    definition: Option<&TermDef>,
    value: Tree,
) -> Result<Tree, AllocError>
    ensures { IfOk result (λ t. view t ≡ values.untyped_value (settings_view context.now) (definition_in definition.entry) (view value)) }
{
    match value {
        Tree::Str(text) => text_value(alloc, context, definition, text),
        other => one_entry(alloc, "@value", other),
    }
}

/// A text with the language and the direction of its property (step 5).
fn text_value(
    alloc: Global,
    context: &ActiveContext,
    definition: Option<&TermDef>,
    text: Text,
) -> Result<Tree, AllocError>
    ensures { IfOk result (λ t. view t ≡ values.text_value (settings_view context.now) (definition_in definition.entry) text) }
{
    let language = language_for(context, definition)?;
    let direction = direction_for(alloc, context, definition)?;
    string_object(alloc, text, language, direction)
}

/// A text with a language and a direction, where there are any.
#[tactic(auto, unfolding(ld_model::specs::Tree::put))]
pub fn string_object(
    alloc: Global,
    text: Text,
    language: Option<Text>,
    direction: Option<Text>,
) -> Result<Tree, AllocError>
    ensures { IfOk result (λ t. view t ≡ object (members_of (values.put_text (codes "@direction") direction (values.put_text (codes "@language") language (put (codes "@value") (model.text text) []))))) }
{
    let entries = 1 + usize::from(language.is_some()) + usize::from(direction.is_some());
    let mut members = Members::with_capacity(alloc, entries)?;
    members.put(alloc, "@value", Tree::Str(text))?;
    put_text(alloc, &mut members, "@language", language)?;
    put_text(alloc, &mut members, "@direction", direction)?;
    Ok(Tree::Map(members))
}

/// The language that a text gets: the definition's, or the default one where the definition says nothing of it.
fn language_for(
    context: &ActiveContext,
    definition: Option<&TermDef>,
) -> Result<Option<Text>, AllocError>
    ensures { IfOk result (λ l. l ≡ values.language_for (settings_view context.now) (definition_in definition.entry)) }
{
    match definition {
        None => copied(&context.language),
        Some(definition) => match &definition.language {
            Slot::Absent => copied(&context.language),
            Slot::Null => Ok(None),
            Slot::Is(language) => Ok(Some(language.copy()?)),
        },
    }
}

fn copied(text: &Option<Text>) -> Result<Option<Text>, AllocError>
    ensures { IfOk result (λ t. t ≡ text.now) }
{
    match text {
        None => Ok(None),
        Some(text) => Ok(Some(text.copy()?)),
    }
}

/// The base direction that a text gets, as it is written: the definition's, or the default one where the definition says nothing of it.
pub fn direction_for(
    alloc: Global,
    context: &ActiveContext,
    definition: Option<&TermDef>,
) -> Result<Option<Text>, AllocError>
    ensures { IfOk result (λ d. d ≡ values.direction_for (settings_view context.now) (definition_in definition.entry)) }
{
    match side_for(context, definition) {
        None => Ok(None),
        Some(side) => Ok(Some(Text::new(alloc, side_name(side))?)),
    }
}

fn side_for(context: &ActiveContext, definition: Option<&TermDef>) -> Option<Side>
    ensures { option_map values.side_name result ≡ values.direction_for (settings_view context.now) (definition_in definition.entry) }
{
    match definition {
        None => context.side,
        Some(definition) => match &definition.side {
            Slot::Absent => context.side,
            Slot::Null => None,
            Slot::Is(side) => Some(*side),
        },
    }
}

fn side_name(side: Side) -> &'static str
    ensures { result.now ≡ values.side_name side }
{
    match side {
        Side::Ltr => "ltr",
        Side::Rtl => "rtl",
    }
}
