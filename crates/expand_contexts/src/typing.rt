// Type-scoped contexts, and the input type.
ghost use Rattle.std.specs.Prelude.{◌≡◌, ◌-◌, length, map, slice_get, IfSome, Ok, Some};
ghost use Rattle.std.specs.List.{filter_map, list_any};
ghost use Rattle.std.specs.Option.{option_map};
ghost use Rattle.ctx_types.specs.ContextView.{context_view, settings_view};
ghost use Rattle.ld_model.specs.Tree.{Pairs};
ghost use Rattle.ld_tree.specs.View.{view};
ghost use Rattle.expand_model.specs.Contexts as contexts;
ghost use Rattle.expand_model.specs.Scope.{values_of, Options as OptionsData};
ghost use Rattle.expand_types.specs.Answers.{Answers};
ghost use Rattle.expand_types.specs.View.{options_view};
ghost use Rattle.expand_contexts.specs.Memo.{IsTyped};
ghost use Rattle.expand_contexts.specs.Types.{first_type, is_json_text, is_scoped, typing};
ghost use Rattle.expand_contexts.specs.View.{made_view, typing_view};

use crate::active::made_or;
use crate::memo::Typed;
use crate::scoped::by_scoped;
use crate::terms::{have_scoped, is_scoped, sorted_terms};
use ctx_types::ActiveContext;
use expand_types::{Options, PartStop, expands_to};
use ld_tree::{Entries, Members, Tree, Trees};
use std::alloc::Global;

/// What the types of a map come to.
#[derive(Drop)]
pub(crate) struct Typing {
    /// What type-scoped contexts made of the type-scoped context, where there are some.
    pub(crate) made: Option<ActiveContext>,
    /// Whether the input type is `@json`.
    pub(crate) json: bool,
}

/// What the types of a map come to in a type-scoped context. What its first types make of that is taken from the memo, where they are the
/// same.
pub(crate) fn typed<'x>(
    alloc: Global,
    options: &Options<'_>,
    types: &ActiveContext,
    memo: &mut Option<Typed<'x>>,
    members: &'x Members,
) -> Result<Typing, PartStop>
    requires { IsTyped (options_view options.now) (context_view types.now) memo.old }
    ensures recalls { IsTyped (options_view options.now) (context_view types.now) memo.new }
    ensures typed { Answers result (typing_view (context_view types.now)) (typing (options_view options.now) (context_view types.now) members.now) }
{
    let mut entries = members.iter();
    let Some(value) = next_type(types, &mut entries) else {
        return Ok(Typing {
            made: None,
            json: false,
        });
    };
    let made = typed_first(alloc, options, types, memo, value)?;
    let made = typed_rest(alloc, options, types, entries, made)?;
    let json = is_json_now(types, &made, value, members);
    Ok(Typing { made, json })
}

/// Whether the input type of a map is `@json`, where its types make no context: None where they may. It takes no memory.
pub(crate) fn json_unless_typed(types: &ActiveContext, members: &Members) -> Option<bool>
    ensures { (o : OptionsData) → IfSome result (λ json. typing o (context_view types.now) members.now ≡ Ok (context_view types.now, json)) }
{
    let mut entries = members.iter();
    let Some(value) = next_type(types, &mut entries) else {
        return Some(false);
    };
    if has_scoped_type(types, value) {
        return None;
    }
    let None = next_type(types, &mut entries) else {
        return None;
    };
    Some(is_last_json(types, value))
}

/// Whether a type among the values of an entry has a scoped context.
fn has_scoped_type(types: &ActiveContext, value: &Tree) -> bool
    ensures { result ≡ list_any (is_scoped (settings_view types.now)) (values_of (view value.now)) }
{
    match value {
        Tree::Items(items) => have_scoped(types, items),
        other => is_scoped(types, other),
    }
}

/// The value of the next entry whose key expands to `@type`. The entries up to it are taken off.
fn next_type<'a>(context: &ActiveContext, entries: &mut Entries<'a>) -> Option<&'a Tree>
    ensures { option_map (λ t. (view t.now, entries.new)) result ≡ first_type (settings_view context.now) entries.old }
{
    while let Some((key, value)) = entries.next() {
        if expands_to(context, "@type", key.as_str()) {
            return Some(value);
        }
    }
    None
}

/// What the types of the first entry make of the type-scoped context.
fn typed_first<'x>(
    alloc: Global,
    options: &Options<'_>,
    types: &ActiveContext,
    memo: &mut Option<Typed<'x>>,
    value: &'x Tree,
) -> Result<Option<ActiveContext>, PartStop>
    requires { IsTyped (options_view options.now) (context_view types.now) memo.old }
    ensures recalls { IsTyped (options_view options.now) (context_view types.now) memo.new }
    ensures typed { Answers result (λ m. made_view m (context_view types.now)) (contexts.typed_by_all (options_view options.now) (context_view types.now) (contexts.type_terms (view value.now)) (context_view types.now)) }
{
    if let Some(last) = memo {
        if last.value.same(value) {
            return Ok(Some(last.context.copy(alloc)?));
        }
    }
    let made = typed_by_value(alloc, options, types, value, None)?;
    if let Some(context) = &made {
        *memo = Some(Typed {
            value: &*value,
            context: context.copy(alloc)?,
        });
    }
    Ok(made)
}

/// What the types of further entries make of what those before them made.
fn typed_rest(
    alloc: Global,
    options: &Options<'_>,
    types: &ActiveContext,
    entries: Entries<'_>,
    made: Option<ActiveContext>,
) -> Result<Option<ActiveContext>, PartStop>
    ensures { Answers result (λ m. made_view m (context_view types.now)) (contexts.typed (options_view options.now) (context_view types.now) entries.entry (made_view made (context_view types.now))) }
{
    let mut made = made;
    for (key, value) in entries {
        made = typed_by_entry(alloc, options, types, key.as_str(), value, made)?;
    }
    Ok(made)
}

#[tactic(auto, unfolding(expand_model::specs::Contexts::typed_by_entry))]
fn typed_by_entry(
    alloc: Global,
    options: &Options<'_>,
    types: &ActiveContext,
    key: &str,
    value: &Tree,
    made: Option<ActiveContext>,
) -> Result<Option<ActiveContext>, PartStop>
    ensures { Answers result (λ m. made_view m (context_view types.now)) (contexts.typed_by_entry (options_view options.now) (context_view types.now) (key.now, view value.now) (made_view made (context_view types.now))) }
{
    if expands_to(made_or(&made, types), "@type", key) {
        typed_by_value(alloc, options, types, value, made)
    } else {
        Ok(made)
    }
}

/// What the types of one entry make.
#[tactic(auto, unfolding(expand_model::specs::Contexts::type_terms))]
fn typed_by_value(
    alloc: Global,
    options: &Options<'_>,
    types: &ActiveContext,
    value: &Tree,
    made: Option<ActiveContext>,
) -> Result<Option<ActiveContext>, PartStop>
    ensures { Answers result (λ m. made_view m (context_view types.now)) (contexts.typed_by_all (options_view options.now) (context_view types.now) (contexts.type_terms (view value.now)) (made_view made (context_view types.now))) }
{
    match value {
        Tree::Str(term) => typed_by(alloc, options, types, term.as_str(), made),
        Tree::Items(items) => typed_by_items(alloc, options, types, items, made),
        _ => Ok(made),
    }
}

/// What the types of an array make. No memory is taken where none has a scoped context.
fn typed_by_items(
    alloc: Global,
    options: &Options<'_>,
    types: &ActiveContext,
    items: &Trees,
    made: Option<ActiveContext>,
) -> Result<Option<ActiveContext>, PartStop>
    ensures { Answers result (λ m. made_view m (context_view types.now)) (contexts.typed_by_all (options_view options.now) (context_view types.now) (contexts.ascending (filter_map contexts.text_in items.now)) (made_view made (context_view types.now))) }
{
    if !have_scoped(types, items) {
        return Ok(made);
    }
    let terms = sorted_terms(alloc, items)?;
    typed_by_each(alloc, options, types, terms, made)
}

fn typed_by_each(
    alloc: Global,
    options: &Options<'_>,
    types: &ActiveContext,
    terms: Vec<&str>,
    made: Option<ActiveContext>,
) -> Result<Option<ActiveContext>, PartStop>
    ensures { Answers result (λ m. made_view m (context_view types.now)) (contexts.typed_by_all (options_view options.now) (context_view types.now) (map (λ t. t.now) terms.entry.items) (made_view made (context_view types.now))) }
{
    let mut made = made;
    for term in terms {
        made = typed_by(alloc, options, types, term, made)?;
    }
    Ok(made)
}

/// What one type makes: the scoped context of its definition in the type-scoped context.
#[tactic(auto, unfolding(expand_model::specs::Contexts::typed_by))]
fn typed_by(
    alloc: Global,
    options: &Options<'_>,
    types: &ActiveContext,
    term: &str,
    made: Option<ActiveContext>,
) -> Result<Option<ActiveContext>, PartStop>
    ensures { Answers result (λ m. made_view m (context_view types.now)) (contexts.typed_by (options_view options.now) (context_view types.now) term.now (made_view made (context_view types.now))) }
{
    let definition = types.terms.get(term);
    let context = made_or(&made, types);
    match by_scoped(alloc, options, false, false, definition, context)? {
        None => Ok(made),
        Some(context) => Ok(Some(context)),
    }
}

/// Whether the input type is `@json` in the context that the types left, where `value` is that of the first entry whose key expands to
/// `@type` in the type-scoped context. Where nothing was made it is the first one in that context, too.
fn is_json_now(
    types: &ActiveContext,
    made: &Option<ActiveContext>,
    value: &Tree,
    members: &Members,
) -> bool
    ensures { (rest : Pairs) → first_type (settings_view types.now) members.now ≡ Some (view value.now, rest) → result ≡ contexts.is_json (made_view made.now (context_view types.now)).current members.now }
{
    match made {
        None => is_last_json(types, value),
        Some(context) => is_json(context, members),
    }
}

/// Whether the input type is `@json`: that of the first entry whose key expands to `@type`.
fn is_json(context: &ActiveContext, members: &Members) -> bool
    ensures { result ≡ contexts.is_json (settings_view context.now) members.now }
{
    match next_type(context, &mut members.iter()) {
        None => false,
        Some(value) => is_last_json(context, value),
    }
}

/// Whether the last value is a text that expands to `@json`.
fn is_last_json(context: &ActiveContext, value: &Tree) -> bool
    ensures { result ≡ contexts.last_is_json (settings_view context.now) (values_of (view value.now)) }
{
    match value {
        Tree::Items(items) => match last_of(items) {
            None => false,
            Some(last) => is_json_text(context, last),
        },
        _ => is_json_text(context, value),
    }
}

fn last_of(items: &Trees) -> Option<&Tree>
    ensures { option_map (λ t. view t.now) result ≡ slice_get items.now (length items.now - 1) }
{
    items.get(items.len().saturating_sub(1))
}

fn is_json_text(context: &ActiveContext, value: &Tree) -> bool
    ensures { result ≡ is_json_text (settings_view context.now) (view value.now) }
{
    match value {
        Tree::Str(text) => expands_to(context, "@json", text.as_str()),
        _ => false,
    }
}
