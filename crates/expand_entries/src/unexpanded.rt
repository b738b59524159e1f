// Values of properties that are told as they stand (JSON-LD 1.1 API, section 5.1.2, steps 13.6 and 13.7).
ghost use Rattle.std.specs.Prelude.{◌≡◌, ◌∷◌, ◌++◌, [], IfOk, OnOk};
ghost use Rattle.std.specs.List.{filter_map, flat_map, list_all};
ghost use Rattle.ctx_types.specs.ContextView.{settings_view};
ghost use Rattle.ld_tree.specs.View.{view};
ghost use Rattle.expand_model.specs.Properties as properties;
ghost use Rattle.expand_model.specs.Scope as scope;
ghost use Rattle.expand_types.specs.Answers.{Answers};
ghost use Rattle.expand_types.specs.View.{definition_in};
ghost use Rattle.expand_entries.specs.Strings.{strings_array};

use case_tables::Code;
use ctx_types::{ActiveContext, TermDef};
use expand_types::{PartStop, expands_to};
use expand_values::{direction_for, is_kind, is_null, is_text, literal, string_object};
use ld_text::Text;
use ld_tree::{Members, Tree, Trees};
use std::alloc::{AllocError, Global};

/// The value of a property that isn't expanded: a JSON literal, or the strings of a language map.
pub fn value_unexpanded(
    alloc: Global,
    context: &ActiveContext,
    definition: Option<&TermDef>,
    value: &Tree,
) -> Result<Tree, PartStop>
    ensures { Answers result view (properties.value_unexpanded (settings_view context.now) (definition_in definition.entry) (view value.now)) }
{
    if is_kind("@json", definition) {
        let json = json_literal(alloc, value)?;
        return Ok(json);
    }
    language_value(alloc, context, definition, value)
}

fn json_literal(alloc: Global, value: &Tree) -> Result<Tree, AllocError>
    ensures { IfOk result (λ t. view t ≡ properties.json_literal (view value.now)) }
{
    literal(alloc, Text::new(alloc, "@json")?, value.copy(alloc)?)
}

#[tactic(auto, unfolding(expand_model::specs::Properties::language_map))]
fn language_value(
    alloc: Global,
    context: &ActiveContext,
    definition: Option<&TermDef>,
    value: &Tree,
) -> Result<Tree, PartStop>
    ensures { Answers result view (properties.language_value (settings_view context.now) (definition_in definition.entry) (view value.now)) }
{
    match value {
        Tree::Map(languages) => strings_array(alloc, context, definition, languages),
        _ => Ok(Tree::Items(Trees::new(alloc))),
    }
}

fn strings_array(
    alloc: Global,
    context: &ActiveContext,
    definition: Option<&TermDef>,
    languages: &Members,
) -> Result<Tree, PartStop>
    ensures { Answers result view (strings_array (settings_view context.now) (definition_in definition.entry) languages.now) }
{
    let strings = language_map(alloc, context, definition, languages)?;
    Ok(Tree::Items(strings))
}

/// The strings of a language map, language by language; null is passed over.
#[tactic(auto, unfolding(expand_model::specs::Properties::language_map))]
fn language_map(
    alloc: Global,
    context: &ActiveContext,
    definition: Option<&TermDef>,
    languages: &Members,
) -> Result<Trees, PartStop>
    ensures { Answers result (λ ts. ts) (properties.language_map (settings_view context.now) (definition_in definition.entry) languages.now) }
{
    if !are_language_values(languages) {
        return Err(PartStop::Refused(Code::InvalidLanguageMapValue));
    }
    let strings = strings_in(alloc, context, definition, languages)?;
    Ok(strings)
}

fn are_language_values(languages: &Members) -> bool
    ensures { result ≡ list_all (λ e. list_all properties.is_language_value (scope.values_of e.1)) languages.now }
{
    for (_, value) in languages {
        if !has_language_values(value) {
            return false;
        }
    }
    true
}

fn has_language_values(value: &Tree) -> bool
    ensures { result ≡ list_all properties.is_language_value (scope.values_of (view value.now)) }
{
    match value {
        Tree::Items(items) => are_null_or_texts(items),
        other => is_language_value(other),
    }
}

fn are_null_or_texts(items: &Trees) -> bool
    ensures { result ≡ list_all properties.is_language_value items.now }
{
    for item in items {
        if !is_language_value(item) {
            return false;
        }
    }
    true
}

fn is_language_value(value: &Tree) -> bool
    ensures { result ≡ properties.is_language_value (view value.now) }
{
    is_null(value) || is_text(value)
}

fn strings_in(
    alloc: Global,
    context: &ActiveContext,
    definition: Option<&TermDef>,
    languages: &Members,
) -> Result<Trees, AllocError>
    ensures { IfOk result (λ ts. ts ≡ flat_map (properties.language_strings (settings_view context.now) (definition_in definition.entry)) languages.now) }
{
    let mut strings = Trees::new(alloc);
    for (language, value) in languages {
        push_strings(alloc, context, definition, language, value, &mut strings)?;
    }
    Ok(strings)
}

/// The strings of one language, behind others.
fn push_strings(
    alloc: Global,
    context: &ActiveContext,
    definition: Option<&TermDef>,
    language: &Text,
    value: &Tree,
    strings: &mut Trees,
) -> Result<(), AllocError>
    ensures { OnOk result (strings.new ≡ strings.old ++ properties.language_strings (settings_view context.now) (definition_in definition.entry) (language.now, view value.now)) }
{
    match value {
        Tree::Items(items) => push_each(alloc, context, definition, language, items, strings),
        other => push_string(alloc, context, definition, language, other, strings),
    }
}

fn push_each(
    alloc: Global,
    context: &ActiveContext,
    definition: Option<&TermDef>,
    language: &Text,
    items: &Trees,
    strings: &mut Trees,
) -> Result<(), AllocError>
    ensures { OnOk result (strings.new ≡ strings.old ++ filter_map (properties.language_string (settings_view context.now) (definition_in definition.entry) language.now) items.now) }
{
    for item in items {
        push_string(alloc, context, definition, language, item, strings)?;
    }
    Ok(())
}

fn push_string(
    alloc: Global,
    context: &ActiveContext,
    definition: Option<&TermDef>,
    language: &Text,
    value: &Tree,
    strings: &mut Trees,
) -> Result<(), AllocError>
    ensures { OnOk result (strings.new ≡ strings.old ++ filter_map (properties.language_string (settings_view context.now) (definition_in definition.entry) language.now) (view value.now ∷ [])) }
{
    match value {
        Tree::Str(text) => {
            let language = language_unless_none(context, language)?;
            let direction = direction_for(alloc, context, definition)?;
            let string = string_object(alloc, text.copy()?, language, direction)?;
            strings.push(string)
        }
        _ => Ok(()),
    }
}

/// [Ours: languages are kept as written.]
fn language_unless_none(
    context: &ActiveContext,
    language: &Text,
) -> Result<Option<Text>, AllocError>
    ensures { IfOk result (λ l. l ≡ properties.language_unless_none (settings_view context.now) language.now) }
{
    if expands_to(context, "@none", language.as_str()) {
        return Ok(None);
    }
    Ok(Some(language.copy()?))
}
