// The parts of a term definition that create no other term (JSON-LD 1.1 API, section 4.2.2).
ghost use Rattle.std.specs.Prelude.{◌≡◌, ◌++◌, [], ◌∷◌, Some, IfOk, codes};
ghost use Rattle.std.specs.List.{list_all};
ghost use Rattle.ld_model.specs.Tree as model;
ghost use Rattle.ld_model.specs.Tree.{member_at};
ghost use Rattle.ctx_model.specs.Words.{among};
ghost use Rattle.ld_tree.specs.View.{view};
ghost use Rattle.ctx_types.specs.ContextView.{settings_view};
ghost use Rattle.ctx_types.specs.View.{definition_view};
ghost use Rattle.ctx_entries.specs.Answers.{Answers};
ghost use Rattle.ctx_model.specs.Definition as steps;
ghost use Rattle.ctx_entries.specs.View.{mapping_view, tree_view};
ghost use Rattle.std.specs.Option.{option_map};

use crate::stop::ContextStop;
use crate::words::{
    ends_in_delimiter, has_colon_or_slash, has_slash, is_iri, is_one_of, is_some_keyword,
};
use case_tables::{Code, Shape};
use ctx_types::{ActiveContext, Side, Slot, TermDef, expand_iri, is_keyword, joined};
use ld_tree::{Members, Text, Tree};
use std::alloc::{AllocError, Global};

/// The keys that an expanded term definition may have: step 26.
const KNOWN_ENTRIES: [&str; 11] = [
    "@id",
    "@reverse",
    "@container",
    "@context",
    "@direction",
    "@index",
    "@language",
    "@nest",
    "@prefix",
    "@protected",
    "@type",
];

/// An IRI mapping, or null, and the prefix flag.
#[derive(Drop)]
pub struct Mapped {
    pub iri: Option<Text>,
    pub prefix: bool,
}

/// What the steps for the IRI mapping come to (14 to 18).
#[derive(Drop)]
pub enum IriMapping {
    /// The term maps to this.
    Maps(Mapped),
    /// The term is left without a definition.
    LeavesOut,
}

/// The value of a key in a definition. Null and a text are maps with that `@id`: steps 7 to 9.
pub fn definition_entry<'a>(value: &'a Tree, key: &str) -> Option<&'a Tree>
    ensures { tree_view result ≡ member_at key.now (steps.entries_of (view value.now)) }
{
    match value {
        Tree::Map(entries) => entries.get(key),
        Tree::Null => id_alone(value, key),
        Tree::Str(_) => id_alone(value, key),
        _ => None,
    }
}

fn id_alone<'a>(value: &'a Tree, key: &str) -> Option<&'a Tree>
    ensures { tree_view result ≡ member_at key.now ((codes "@id", view value.now) ∷ []) }
{
    if key.cmp("@id").is_eq() {
        Some(value)
    } else {
        None
    }
}

/// Whether a value defines a term: it is null, a text or a map.
pub fn is_definition(value: &Tree) -> bool
    ensures { result ≡ steps.is_definition (view value.now) }
{
    match value {
        Tree::Null => true,
        Tree::Str(_) => true,
        Tree::Map(_) => true,
        _ => false,
    }
}

/// Whether a term with this value is simple.
pub fn is_simple(value: &Tree) -> bool
    ensures { result ≡ steps.is_simple (view value.now) }
{
    match value {
        Tree::Str(_) => true,
        _ => false,
    }
}

/// Whether `@type` may be defined by a value: step 4.
pub fn may_define_type(value: &Tree) -> bool
    ensures { result ≡ steps.may_define_type (view value.now) }
{
    match value {
        Tree::Map(entries) => entries.len() > 0 && are_type_entries(entries),
        _ => false,
    }
}

fn are_type_entries(entries: &Members) -> bool
    ensures { result ≡ list_all steps.is_type_entry entries.now }
{
    for (key, value) in entries {
        if !is_type_entry(key, value) {
            return false;
        }
    }
    true
}

fn is_type_entry(key: &Text, value: &Tree) -> bool
    ensures { result ≡ steps.is_type_entry (key.now, view value.now) }
{
    key.as_str() == "@protected" || key.as_str() == "@container" && is_set_word(value)
}

fn is_set_word(value: &Tree) -> bool
    ensures { result ≡ steps.is_set_word (view value.now) }
{
    match value {
        Tree::Str(text) => text.as_str() == "@set",
        _ => false,
    }
}

/// Whether the definition is protected: step 11.
pub fn protected_by(protected: bool, value: Option<&Tree>) -> Result<bool, Code>
    ensures { result ≡ steps.protected_by protected (tree_view value.entry) }
{
    match value {
        None => Ok(protected),
        Some(value) => match value {
            Tree::Truth(truth) => Ok(*truth),
            _ => Err(Code::InvalidProtectedValue),
        },
    }
}

/// Whether an expanded text may be a type mapping: step 12.4.
pub fn may_be_kind(iri: &Option<Text>) -> bool
    ensures { result ≡ steps.may_be_kind iri.now }
{
    match iri {
        Some(text) => is_kind_word(text.as_str()) || is_iri(iri),
        None => false,
    }
}

fn is_kind_word(text: &str) -> bool
    ensures { result ≡ among text.now (codes "@id" ∷ codes "@json" ∷ codes "@none" ∷ codes "@vocab" ∷ []) }
{
    text == "@id" || text == "@json" || text == "@none" || text == "@vocab"
}

/// The container of a reverse property: step 13.5.
pub fn reverse_container(value: Option<&Tree>) -> Result<Shape, Code>
    ensures { result ≡ steps.reverse_container (tree_view value.entry) }
{
    match value {
        None => Ok(Shape::none()),
        Some(value) => match value {
            Tree::Null => Ok(Shape::none()),
            Tree::Str(word) => reverse_word(word.as_str()),
            _ => Err(Code::InvalidReverseProperty),
        },
    }
}

fn reverse_word(word: &str) -> Result<Shape, Code>
    ensures { result ≡ steps.reverse_word word.now }
{
    if word == "@set" {
        Ok(Shape {
            set: true,
            ..Shape::none()
        })
    } else if word == "@index" {
        Ok(Shape {
            index: true,
            ..Shape::none()
        })
    } else {
        Err(Code::InvalidReverseProperty)
    }
}

/// A reverse property, with the settings made so far: step 13.6.
pub fn reverse_definition(
    protected: bool,
    kind: Option<Text>,
    iri: Option<Text>,
    container: Shape,
) -> TermDef
    ensures { definition_view result ≡ steps.reverse_definition protected kind iri container }
{
    TermDef {
        mapping: iri,
        prefix: false,
        protected,
        reverse: true,
        base: None,
        local: None,
        container,
        side: Slot::Absent,
        index: None,
        language: Slot::Absent,
        nest: None,
        kind,
    }
}

/// Whether a term may stand before the colon of a compact IRI: step 14.2.5.
pub fn can_be_prefix(simple: bool, term: &str, iri: &Option<Text>) -> bool
    ensures { result ≡ steps.can_be_prefix simple term.now iri.now }
{
    match iri {
        Some(iri) => {
            simple
                && !has_colon_or_slash(term)
                && (iri.is_blank() || ends_in_delimiter(iri.as_str()))
        }
        None => false,
    }
}

/// What a prefix with this definition maps to and the suffix, or the term: step 15.
pub fn mapped_by_prefix(
    alloc: Global,
    term: &str,
    suffix: &str,
    definition: Option<&TermDef>,
) -> Result<Text, AllocError>
    ensures { IfOk result (λ iri. iri ≡ steps.mapped_by_prefix term.now suffix.now (option_map (λ d. definition_view d.now) definition.entry)) }
{
    match definition {
        None => Text::new(alloc, term),
        Some(definition) => match &definition.mapping {
            None => Text::new(alloc, term),
            Some(iri) => joined(alloc, iri.as_str(), suffix),
        },
    }
}

/// The IRI mapping of a term without a colon after its first character: steps 16 to 18.
#[tactic(auto, unfolding(ctx_model::specs::Definition::without_colon))]
pub fn without_colon(
    alloc: Global,
    context: &ActiveContext,
    term: &str,
) -> Result<IriMapping, ContextStop>
    ensures { Answers result mapping_view (steps.without_colon (settings_view context.now) term.now) }
{
    if has_slash(term) {
        return by_path(alloc, context, term);
    }
    if term == "@type" {
        return Ok(IriMapping::Maps(Mapped {
            iri: Some(Text::new(alloc, term)?),
            prefix: false,
        }));
    }
    by_vocabulary(alloc, &context.vocab, term)
}

fn by_path(alloc: Global, context: &ActiveContext, term: &str) -> Result<IriMapping, ContextStop>
    ensures { Answers result mapping_view (steps.by_path (settings_view context.now) term.now) }
{
    let iri = expand_iri(alloc, context, term, false, true)?;
    if is_iri(&iri) {
        Ok(IriMapping::Maps(Mapped { iri, prefix: false }))
    } else {
        Err(ContextStop::Refused(Code::InvalidIriMapping))
    }
}

fn by_vocabulary(alloc: Global, vocab: &Option<Text>, term: &str) -> Result<IriMapping, ContextStop>
    ensures { Answers result mapping_view (steps.by_vocabulary vocab.now term.now) }
{
    match vocab {
        Some(vocab) => {
            let iri = joined(alloc, vocab.as_str(), term)?;
            Ok(IriMapping::Maps(Mapped {
                iri: Some(iri),
                prefix: false,
            }))
        }
        None => Err(ContextStop::Refused(Code::InvalidIriMapping)),
    }
}

/// The index mapping: step 20.
pub fn index_of(
    alloc: Global,
    context: &ActiveContext,
    container: Shape,
    value: Option<&Tree>,
) -> Result<Option<Text>, ContextStop>
    ensures { Answers result (λ t. t) (steps.index_of (settings_view context.now) container (tree_view value.entry)) }
{
    match value {
        None => Ok(None),
        Some(value) => match value {
            Tree::Str(text) => index_named(alloc, context, container, text),
            _ => Err(ContextStop::Refused(Code::InvalidTermDefinition)),
        },
    }
}

fn index_named(
    alloc: Global,
    context: &ActiveContext,
    container: Shape,
    text: &Text,
) -> Result<Option<Text>, ContextStop>
    ensures { Answers result (λ t. t) (steps.index_of (settings_view context.now) container (Some (model.text text.now))) }
{
    let iri = expand_iri(alloc, context, text.as_str(), false, true)?;
    if container.index && is_iri(&iri) {
        Ok(Some(text.copy()?))
    } else {
        Err(ContextStop::Refused(Code::InvalidTermDefinition))
    }
}

/// The language mapping, where the definition has no `@type`: step 22.
pub fn language_of(typed: bool, value: Option<&Tree>) -> Result<Slot<Text>, ContextStop>
    ensures { Answers result (λ s. s) (steps.language_of typed (tree_view value.entry)) }
{
    match value {
        None => Ok(Slot::Absent),
        Some(value) => {
            if typed {
                Ok(Slot::Absent)
            } else {
                match value {
                    Tree::Null => Ok(Slot::Null),
                    Tree::Str(text) => Ok(Slot::Is(text.copy()?)),
                    _ => Err(ContextStop::Refused(Code::InvalidLanguageMapping)),
                }
            }
        }
    }
}

/// The base direction of this name.
pub fn side_named(name: &str) -> Result<Side, Code>
    ensures { result ≡ steps.side_named name.now }
{
    if name == "ltr" {
        Ok(Side::Ltr)
    } else if name == "rtl" {
        Ok(Side::Rtl)
    } else {
        Err(Code::InvalidBaseDirection)
    }
}

/// The direction mapping, where the definition has no `@type`: step 23.
pub fn side_of(typed: bool, value: Option<&Tree>) -> Result<Slot<Side>, Code>
    ensures { result ≡ steps.side_of typed (tree_view value.entry) }
{
    match value {
        None => Ok(Slot::Absent),
        Some(value) => {
            if typed {
                Ok(Slot::Absent)
            } else {
                match value {
                    Tree::Null => Ok(Slot::Null),
                    Tree::Str(text) => Ok(Slot::Is(side_named(text.as_str())?)),
                    _ => Err(Code::InvalidBaseDirection),
                }
            }
        }
    }
}

/// The nest value: step 24.
pub fn nest_of(value: Option<&Tree>) -> Result<Option<Text>, ContextStop>
    ensures { Answers result (λ t. t) (steps.nest_of (tree_view value.entry)) }
{
    match value {
        None => Ok(None),
        Some(value) => match value {
            Tree::Str(text) => {
                if !is_keyword(text.as_str()) || text.as_str() == "@nest" {
                    Ok(Some(text.copy()?))
                } else {
                    Err(ContextStop::Refused(Code::InvalidNestValue))
                }
            }
            _ => Err(ContextStop::Refused(Code::InvalidNestValue)),
        },
    }
}

/// The prefix flag: step 25.
pub fn prefix_of(
    term: &str,
    iri: &Option<Text>,
    flag: bool,
    value: Option<&Tree>,
) -> Result<bool, Code>
    ensures { result ≡ steps.prefix_of term.now iri.now flag (tree_view value.entry) }
{
    match value {
        None => Ok(flag),
        Some(value) => {
            if has_colon_or_slash(term) {
                Err(Code::InvalidTermDefinition)
            } else {
                flag_of(iri, value)
            }
        }
    }
}

fn flag_of(iri: &Option<Text>, value: &Tree) -> Result<bool, Code>
    ensures { result ≡ steps.flag_of iri.now (view value.now) }
{
    match value {
        Tree::Truth(truth) => {
            if *truth && is_some_keyword(iri) {
                Err(Code::InvalidTermDefinition)
            } else {
                Ok(*truth)
            }
        }
        _ => Err(Code::InvalidPrefixValue),
    }
}

/// Whether a definition has no entries but those that it may have: step 26.
pub fn has_known_entries(value: &Tree) -> bool
    ensures { result ≡ list_all steps.is_known_entry (steps.entries_of (view value.now)) }
{
    match value {
        Tree::Map(entries) => are_known_entries(entries),
        _ => true,
    }
}

fn are_known_entries(entries: &Members) -> bool
    ensures { result ≡ list_all steps.is_known_entry entries.now }
{
    for (key, value) in entries {
        if !is_known_entry(key, value) {
            return false;
        }
    }
    true
}

fn is_known_entry(key: &Text, _value: &Tree) -> bool
    ensures { result ≡ steps.is_known_entry (key.now, view _value.now) }
{
    is_one_of(key.as_str(), &KNOWN_ENTRIES)
}
