// What keys expand to.
ghost use Rattle.std.specs.Prelude.{◌≡◌, ◌++◌, IfOk, IsFalse, IsTrue, Some, codes, false, true};
ghost use Rattle.std.specs.List.{list_any};
ghost use Rattle.std.specs.Option.{option_map, option_and_then};
ghost use Rattle.std.specs.Str.{bytes_eq};
ghost use Rattle.iri_ref.specs.Parts.{colon};
ghost use Rattle.ld_tree.specs.View.{view};
ghost use Rattle.ctx_types.specs.Context.{Settings, Text as Words};
ghost use Rattle.ctx_types.specs.ContextView.{settings_view};
ghost use Rattle.ctx_types.specs.Expansion.{keywords};
ghost use Rattle.ctx_types.specs.Expansion as steps;
ghost use Rattle.ctx_model.specs.Words.{same_text};
ghost use Rattle.expand_model.specs.Scope as scope;
ghost use Rattle.expand_model.specs.Contexts.{is_alone};
ghost use Rattle.expand_model.specs.Entries as entries;
ghost use Rattle.expand_types.specs.View.{definition_in, word_view};

use case_tables::{Keyword, Shape, keyword_of};
use ctx_types::{
    ActiveContext, TermDef, colon_parts, expand_iri, has_keyword_form, is_keyword, is_whole,
};
use expand_model::{Name, Task};
use iri_ref::has_scheme;
use ld_text::Text;
use ld_tree::{Members, Tree};
use std::alloc::{AllocError, Global};

/// What the key of an entry stands for in a context (JSON-LD 1.1 API, section 5.1.2, steps 13.1 to 13.4).
#[tactic(auto, unfolding(expand_model::specs::Entries::name_of))]
pub fn name_of(alloc: Global, context: &ActiveContext, key: &str) -> Result<Name, AllocError>
    ensures { IfOk result (λ n. n ≡ entries.name_of (settings_view context.now) key.now) }
{
    if has_keyword_form(key) {
        return Ok(keyword_named(key));
    }
    if is_bare(context) {
        return Ok(named(Text::new(alloc, key)?));
    }
    match expand_iri(alloc, context, key, false, true)? {
        None => Ok(Name::Dropped),
        Some(iri) => Ok(named(iri)),
    }
}

/// Whether a context has neither terms nor a vocabulary: any text stands for itself there, but for those of a keyword's form.
fn is_bare(context: &ActiveContext) -> bool
    ensures { IsTrue result → (t : Words) → IsFalse (steps.has_keyword_form t) → steps.expand_iri (settings_view context.now) false true t ≡ Some t }
{
    match &context.vocab {
        Some(_) => false,
        None => context.terms.len() == 0,
    }
}

/// What a key of a keyword's form is as the name of an entry, in any context: one that is no keyword stands for null.
fn keyword_named(key: &str) -> Name
    ensures { (c : Settings) → IsTrue (steps.has_keyword_form key.now) → result ≡ entries.name_of c key.now }
{
    match key {
        "@context" => Name::Dropped,
        "@id" => Name::Keyword(Keyword::Id),
        "@type" => Name::Keyword(Keyword::TypeWord),
        "@value" => Name::Keyword(Keyword::Value),
        _ => rarely_named(key),
    }
}

/// The same, for a key that is none of those that stand in most maps.
fn rarely_named(key: &str) -> Name
    ensures { IsFalse (bytes_eq key.now (codes "@context")) → (c : Settings) → IsTrue (steps.has_keyword_form key.now) → result ≡ entries.name_of c key.now }
{
    match keyword_of(key) {
        Some(word) => Name::Keyword(word),
        None => Name::Dropped,
    }
}

/// What an IRI, a blank node identifier or a keyword is as the name of an entry.
fn named(iri: Text) -> Name
    ensures { result ≡ entries.name_as (entries.word_among iri keywords) iri }
{
    match keyword_of(iri.as_str()) {
        Some(word) => Name::Keyword(word),
        None => property_named(iri),
    }
}

fn property_named(iri: Text) -> Name
    ensures { result ≡ entries.property_named iri }
{
    if has_colon(iri.as_str()) {
        Name::Property(iri)
    } else {
        Name::Dropped
    }
}

fn has_colon(text: &str) -> bool
    ensures { result ≡ list_any colon text.now }
{
    text.bytes().any(|byte| byte == b':')
}

/// How the value of an entry is treated, whose key stands for `name` and has this definition, in a map under `property` (JSON-LD 1.1
/// API, section 5.1.2, steps 13.4 to 13.9). It takes no memory.
#[tactic(auto, unfolding(expand_model::specs::Entries::task_of))]
pub fn task_of(
    property: Option<&str>,
    definition: Option<&TermDef>,
    name: &Name,
    value: &Tree,
) -> Task
    ensures { result ≡ entries.task_of (word_view property.entry) (definition_in definition.entry) name.now (view value.now) }
{
    match name {
        Name::Dropped => Task::Tells,
        Name::Keyword(word) => keyword_task(property, *word, value),
        Name::Property(_) => property_task(definition, value),
    }
}

fn keyword_task(property: Option<&str>, word: Keyword, value: &Tree) -> Task
    ensures { result ≡ entries.keyword_task (word_view property.entry) word (view value.now) }
{
    match word {
        Keyword::Graph => Task::Expands,
        Keyword::Included => Task::Expands,
        Keyword::List => if is_top(property) {
            Task::Tells
        } else {
            Task::Expands
        },
        Keyword::Set => Task::Expands,
        Keyword::Reverse => if is_map(value) {
            Task::Expands
        } else {
            Task::Tells
        },
        _ => Task::Tells,
    }
}

fn property_task(definition: Option<&TermDef>, value: &Tree) -> Task
    ensures { result ≡ entries.property_task (definition_in definition.entry) (view value.now) }
{
    match definition {
        None => Task::Expands,
        Some(definition) => {
            if is_text(&definition.kind, "@json") {
                return Task::Tells;
            }
            container_task(&definition.container, value)
        }
    }
}

fn container_task(shape: &Shape, value: &Tree) -> Task
    ensures { result ≡ entries.container_task shape.now (view value.now) }
{
    if is_map(value) && shape.language {
        return Task::Tells;
    }
    if is_map(value) && (shape.index || shape.types || shape.id) {
        return Task::Indexes;
    }
    Task::Expands
}

fn is_map(value: &Tree) -> bool
    ensures { result ≡ scope.is_map (view value.now) }
{
    matches!(value, Tree::Map(_))
}

/// Whether the active property is null or `@graph`: what stands there is at the top of a graph.
pub fn is_top(property: Option<&str>) -> bool
    ensures { result ≡ scope.is_top (word_view property.entry) }
{
    match property {
        None => true,
        Some(property) => property == "@graph",
    }
}

/// Whether the text is there, and is this word.
pub fn is_text(text: &Option<Text>, word: &str) -> bool
    ensures { result ≡ same_text text.now (Some word.now) }
{
    match text {
        None => false,
        Some(text) => text.as_str() == word,
    }
}

/// Whether a key of the map expands to `word` in a context.
pub fn has_key(context: &ActiveContext, word: &str, members: &Members) -> bool
    ensures { result ≡ scope.has_key (settings_view context.now) word.now members.now }
{
    for (key, _) in members {
        if expands_to(context, word, key.as_str()) {
            return true;
        }
    }
    false
}

/// Whether the map has one entry, and its key expands to `word` in a context.
pub fn is_alone(context: &ActiveContext, word: &str, members: &Members) -> bool
    ensures { result ≡ is_alone (settings_view context.now) word.now members.now }
{
    if members.len() != 1 {
        return false;
    }
    match members.at(0) {
        None => false,
        Some((key, _)) => expands_to(context, word, key.as_str()),
    }
}

/// Whether a text expands to `word` in a context, with the vocabulary and without the document's base (JSON-LD 1.1 API, section 5.2.2).
/// It takes no memory.
pub fn expands_to(context: &ActiveContext, word: &str, text: &str) -> bool
    ensures { result ≡ scope.expands_to (settings_view context.now) word.now text.now }
{
    if has_keyword_form(text) {
        return text == word && is_keyword(text);
    }
    if is_bare(context) {
        return text == word;
    }
    match context.terms.get(text) {
        Some(definition) => is_text(&definition.mapping, word),
        None => stands_for(context, word, text),
    }
}

/// Whether a text for which no term stands is `word` as an IRI.
fn stands_for(context: &ActiveContext, word: &str, text: &str) -> bool
    ensures { result ≡ bytes_eq (steps.as_iri (settings_view context.now) false true text.now) word.now }
{
    if let Some(stands) = parts_stand(context, word, text) {
        return stands;
    }
    match &context.vocab {
        Some(vocab) => are_joined(word, vocab.as_str(), text),
        None => text == word,
    }
}

/// The same by the parts of the text around its first colon, where they make it an IRI.
fn parts_stand(context: &ActiveContext, word: &str, text: &str) -> Option<bool>
    ensures { result ≡ option_map (λ iri. bytes_eq iri word.now) (option_and_then (steps.by_parts (settings_view context.now) text.now) (steps.colon_parts text.now)) }
{
    let (prefix, suffix) = colon_parts(text)?;
    if is_whole(prefix, suffix) {
        return Some(text == word);
    }
    match prefix_stands(context.terms.get(prefix), word, suffix) {
        Some(stands) => Some(stands),
        None => form_stands(word, text),
    }
}

fn prefix_stands(definition: Option<&TermDef>, word: &str, suffix: &str) -> Option<bool>
    ensures { result ≡ option_map (λ iri. bytes_eq iri word.now) (steps.by_prefix suffix.now (definition_in definition.entry)) }
{
    let definition = definition?;
    if !definition.prefix {
        return None;
    }
    match &definition.mapping {
        None => None,
        Some(iri) => Some(are_joined(word, iri.as_str(), suffix)),
    }
}

fn form_stands(word: &str, text: &str) -> Option<bool>
    ensures { result ≡ option_map (λ iri. bytes_eq iri word.now) (steps.by_form text.now) }
{
    if has_scheme(text) {
        Some(text == word)
    } else {
        None
    }
}

/// Whether `word` is `front` and behind it `rest`.
fn are_joined(word: &str, front: &str, rest: &str) -> bool
    ensures { result ≡ bytes_eq (front.now ++ rest.now) word.now }
{
    match word.strip_prefix(front) {
        None => false,
        Some(tail) => tail == rest,
    }
}
