// The type mapping and the IRI mapping of a term (JSON-LD 1.1 API, section 4.2.2, steps 12 to 18), which may need other terms.
ghost use Rattle.std.specs.Prelude.{◌≡◌};
ghost use Rattle.ld_tree.specs.View.{view};
ghost use Rattle.ctx_entries.specs.Answers.{Gives, Leaves};
ghost use Rattle.ctx_terms.specs.Calls.{Creates};
ghost use Rattle.ctx_model.specs.Creation as steps;
ghost use Rattle.ctx_model.specs.Definition.{entries_of, is_simple};
ghost use Rattle.ctx_entries.specs.View.{local_view, mapping_view, state_view, tree_view};
ghost use Rattle.ctx_entries.specs.Left.{in_local, creation, scoped_view};

use crate::expansion::{create_pending, expand};
use crate::finish::store;
use crate::term::{Settled, Term};
use case_tables::Code;
use ctx_entries::{
    ContextStop, IriMapping, LocalContext, Mapped, Progress, can_be_prefix, definition_entry,
    has_inner_colon, has_slash, is_iri_or_blank, is_simple, is_some_keyword, is_word,
    mapped_by_prefix, mark, may_be_kind, reverse_container, reverse_definition, without_colon,
};
use ctx_types::{Shared, colon_parts, has_keyword_form, is_keyword, is_whole, same_text};
use ld_tree::{Text, Tree};
use std::alloc::Global;

/// The type mapping: step 12.
pub(crate) fn kind_of<C: Fn(&mut Progress, &str, &Tree) -> Result<(), ContextStop>>(
    alloc: Global,
    create: &C,
    local: &LocalContext<'_>,
    state: &mut Progress,
    value: Option<&Tree>,
) -> Result<Option<Text>, ContextStop>
    requires callable { C.IsAlwaysCallable create.now }
    requires creates { Creates (C.post create.now) local.now }
    ensures { Gives result (λ k. k) (state_view state.new) (in_local local.now steps.kind_of (tree_view value.entry) (state_view state.old)) }
{
    match value {
        None => Ok(None),
        Some(value) => kind_valued(alloc, create, local, state, value),
    }
}

fn kind_valued<C: Fn(&mut Progress, &str, &Tree) -> Result<(), ContextStop>>(
    alloc: Global,
    create: &C,
    local: &LocalContext<'_>,
    state: &mut Progress,
    value: &Tree,
) -> Result<Option<Text>, ContextStop>
    requires callable { C.IsAlwaysCallable create.now }
    requires creates { Creates (C.post create.now) local.now }
    ensures { Gives result (λ k. k) (state_view state.new) (in_local local.now steps.kind_valued (view value.now) (state_view state.old)) }
{
    match value {
        Tree::Str(text) => kind_named(alloc, create, local, state, text.as_str()),
        _ => Err(ContextStop::Refused(Code::InvalidTypeMapping)),
    }
}

fn kind_named<C: Fn(&mut Progress, &str, &Tree) -> Result<(), ContextStop>>(
    alloc: Global,
    create: &C,
    local: &LocalContext<'_>,
    state: &mut Progress,
    text: &str,
) -> Result<Option<Text>, ContextStop>
    requires callable { C.IsAlwaysCallable create.now }
    requires creates { Creates (C.post create.now) local.now }
    ensures { Gives result (λ k. k) (state_view state.new) (in_local local.now steps.kind_named text.now (state_view state.old)) }
{
    let iri = expand(alloc, create, local, state, text)?;
    if may_be_kind(&iri) {
        Ok(iri)
    } else {
        Err(ContextStop::Refused(Code::InvalidTypeMapping))
    }
}

/// A reverse property: step 13.
#[tactic(auto, unfolding(ctx_model::specs::Creation::reverse_created))]
pub(crate) fn create_reverse<C: Fn(&mut Progress, &str, &Tree) -> Result<(), ContextStop>>(
    alloc: Global,
    create: &C,
    local: &LocalContext<'_>,
    state: &mut Progress,
    term: &Term<'_>,
    reverse: &Tree,
    settled: Settled,
) -> Result<(), ContextStop>
    requires callable { C.IsAlwaysCallable create.now }
    requires creates { Creates (C.post create.now) local.now }
    ensures { Leaves result (state_view state.new) (in_local local.now steps.reverse_created term.now.name.now (view reverse.now) (entries_of (view term.now.value.now)) settled.protected settled.kind (state_view state.old)) }
{
    if !is_reverse_alone(term.value) {
        return Err(ContextStop::Refused(Code::InvalidReverseProperty));
    }
    match reverse {
        Tree::Str(text) => {
            if has_keyword_form(text.as_str()) {
                mark(alloc, state, term.name, true)?;
                Ok(())
            } else {
                reverse_named(alloc, create, local, state, term, text.as_str(), settled)
            }
        }
        _ => Err(ContextStop::Refused(Code::InvalidIriMapping)),
    }
}

fn is_reverse_alone(value: &Tree) -> bool
    ensures { result ≡ steps.is_reverse_alone (entries_of (view value.now)) }
{
    definition_entry(value, "@id").is_none() && definition_entry(value, "@nest").is_none()
}

fn reverse_named<C: Fn(&mut Progress, &str, &Tree) -> Result<(), ContextStop>>(
    alloc: Global,
    create: &C,
    local: &LocalContext<'_>,
    state: &mut Progress,
    term: &Term<'_>,
    text: &str,
    settled: Settled,
) -> Result<(), ContextStop>
    requires callable { C.IsAlwaysCallable create.now }
    requires creates { Creates (C.post create.now) local.now }
    ensures { Leaves result (state_view state.new) (in_local local.now steps.reverse_named term.now.name.now text.now (entries_of (view term.now.value.now)) settled.protected settled.kind (state_view state.old)) }
{
    let iri = expand(alloc, create, local, state, text)?;
    if !is_iri_or_blank(&iri) {
        return Err(ContextStop::Refused(Code::InvalidIriMapping));
    }
    let container = reverse_container(definition_entry(term.value, "@container"))?;
    let definition = reverse_definition(settled.protected, settled.kind, iri, container);
    store(alloc, state, term.name, Shared::new(alloc, definition)?)?;
    Ok(())
}

/// The IRI mapping and the prefix flag of a term with this value: steps 14 to 18.
pub(crate) fn mapping_for<C: Fn(&mut Progress, &str, &Tree) -> Result<(), ContextStop>>(
    alloc: Global,
    create: &C,
    local: &LocalContext<'_>,
    state: &mut Progress,
    term: &Term<'_>,
) -> Result<IriMapping, ContextStop>
    requires callable { C.IsAlwaysCallable create.now }
    requires creates { Creates (C.post create.now) local.now }
    ensures { Gives result mapping_view (state_view state.new) (in_local local.now steps.mapping_for term.now.name.now (view term.now.value.now) (state_view state.old)) }
{
    let id = other_id(term.name, definition_entry(term.value, "@id"));
    mapping_of(alloc, create, local, state, term, id)
}

#[tactic(auto, unfolding(ctx_model::specs::Creation::mapping_of))]
fn mapping_of<C: Fn(&mut Progress, &str, &Tree) -> Result<(), ContextStop>>(
    alloc: Global,
    create: &C,
    local: &LocalContext<'_>,
    state: &mut Progress,
    term: &Term<'_>,
    id: Option<&Tree>,
) -> Result<IriMapping, ContextStop>
    requires callable { C.IsAlwaysCallable create.now }
    requires creates { Creates (C.post create.now) local.now }
    ensures { Gives result mapping_view (state_view state.new) (in_local local.now steps.mapping_of term.now.name.now (is_simple (view term.now.value.now)) (tree_view id.entry) (state_view state.old)) }
{
    match id {
        Some(id) => id_mapping(alloc, create, local, state, term, id),
        None => term_mapping(alloc, create, local, state, term.name),
    }
}

/// The `@id` of a definition, where it differs from the term.
fn other_id<'a>(term: &str, id: Option<&'a Tree>) -> Option<&'a Tree>
    ensures { tree_view result ≡ steps.other_id term.now (tree_view id.entry) }
{
    match id {
        None => None,
        Some(id) => match id {
            Tree::Str(text) => {
                if text.as_str() == term {
                    None
                } else {
                    Some(id)
                }
            }
            _ => Some(id),
        },
    }
}

/// Step 14, for an `@id` that differs from the term.
#[tactic(auto, unfolding(ctx_model::specs::Creation::id_mapping))]
fn id_mapping<C: Fn(&mut Progress, &str, &Tree) -> Result<(), ContextStop>>(
    alloc: Global,
    create: &C,
    local: &LocalContext<'_>,
    state: &mut Progress,
    term: &Term<'_>,
    id: &Tree,
) -> Result<IriMapping, ContextStop>
    requires callable { C.IsAlwaysCallable create.now }
    requires creates { Creates (C.post create.now) local.now }
    ensures { Gives result mapping_view (state_view state.new) (in_local local.now steps.id_mapping term.now.name.now (is_simple (view term.now.value.now)) (view id.now) (state_view state.old)) }
{
    match id {
        Tree::Null => Ok(IriMapping::Maps(Mapped {
            iri: None,
            prefix: false,
        })),
        Tree::Str(text) => {
            if is_reserved(text.as_str()) {
                Ok(IriMapping::LeavesOut)
            } else {
                id_named(alloc, create, local, state, term, text.as_str())
            }
        }
        _ => Err(ContextStop::Refused(Code::InvalidIriMapping)),
    }
}

/// Whether an `@id` has the form of a keyword and is none.
fn is_reserved(text: &str) -> bool
    ensures { result ≡ steps.is_reserved text.now }
{
    has_keyword_form(text) && !is_keyword(text)
}

/// Whether a term has a slash, or a colon that is neither its first nor its last character.
fn is_compared(term: &str) -> bool
    ensures { result ≡ steps.is_compared term.now }
{
    has_slash(term) || has_inner_colon(term)
}

/// Steps 14.2.3 to 14.2.5.
fn id_named<C: Fn(&mut Progress, &str, &Tree) -> Result<(), ContextStop>>(
    alloc: Global,
    create: &C,
    local: &LocalContext<'_>,
    state: &mut Progress,
    term: &Term<'_>,
    text: &str,
) -> Result<IriMapping, ContextStop>
    requires callable { C.IsAlwaysCallable create.now }
    requires creates { Creates (C.post create.now) local.now }
    ensures { Gives result mapping_view (state_view state.new) (in_local local.now steps.id_named term.now.name.now (is_simple (view term.now.value.now)) text.now (state_view state.old)) }
{
    let iri = expand(alloc, create, local, state, text)?;
    if !is_some_keyword(&iri) && !is_iri_or_blank(&iri) {
        return Err(ContextStop::Refused(Code::InvalidIriMapping));
    }
    if is_word(&iri, "@context") {
        return Err(ContextStop::Refused(Code::InvalidKeywordAlias));
    }
    agree(alloc, create, local, state, term.name, &iri)?;
    let prefix = can_be_prefix(is_simple(term.value), term.name, &iri);
    Ok(IriMapping::Maps(Mapped { iri, prefix }))
}

/// A term in the form of an IRI, or with a slash, has to expand to its mapping: step 14.2.4.
#[tactic(auto, unfolding(ctx_model::specs::Creation::agreeing))]
fn agree<C: Fn(&mut Progress, &str, &Tree) -> Result<(), ContextStop>>(
    alloc: Global,
    create: &C,
    local: &LocalContext<'_>,
    state: &mut Progress,
    term: &str,
    iri: &Option<Text>,
) -> Result<(), ContextStop>
    requires callable { C.IsAlwaysCallable create.now }
    requires creates { Creates (C.post create.now) local.now }
    ensures { Leaves result (state_view state.new) (in_local local.now steps.agreeing term.now iri.now (state_view state.old)) }
{
    if is_compared(term) {
        mark(alloc, state, term, true)?;
        own_agrees(alloc, create, local, state, term, iri)
    } else {
        Ok(())
    }
}

fn own_agrees<C: Fn(&mut Progress, &str, &Tree) -> Result<(), ContextStop>>(
    alloc: Global,
    create: &C,
    local: &LocalContext<'_>,
    state: &mut Progress,
    term: &str,
    iri: &Option<Text>,
) -> Result<(), ContextStop>
    requires callable { C.IsAlwaysCallable create.now }
    requires creates { Creates (C.post create.now) local.now }
    ensures { Leaves result (state_view state.new) (in_local local.now steps.own_agrees term.now iri.now (state_view state.old)) }
{
    let own = expand(alloc, create, local, state, term)?;
    if same_text(&own, iri) {
        Ok(())
    } else {
        Err(ContextStop::Refused(Code::InvalidIriMapping))
    }
}

/// The IRI mapping that the term itself gives: steps 15 to 18.
#[tactic(auto, unfolding(ctx_model::specs::Creation::term_mapping))]
fn term_mapping<C: Fn(&mut Progress, &str, &Tree) -> Result<(), ContextStop>>(
    alloc: Global,
    create: &C,
    local: &LocalContext<'_>,
    state: &mut Progress,
    term: &str,
) -> Result<IriMapping, ContextStop>
    requires callable { C.IsAlwaysCallable create.now }
    requires creates { Creates (C.post create.now) local.now }
    ensures { Gives result mapping_view (state_view state.new) (in_local local.now steps.term_mapping term.now (state_view state.old)) }
{
    match colon_parts(term) {
        None => without_colon(alloc, &state.context, term),
        Some((prefix, suffix)) => {
            colon_mapping(alloc, create, local, state, term, prefix, suffix)
        }
    }
}

fn colon_mapping<C: Fn(&mut Progress, &str, &Tree) -> Result<(), ContextStop>>(
    alloc: Global,
    create: &C,
    local: &LocalContext<'_>,
    state: &mut Progress,
    term: &str,
    prefix: &str,
    suffix: &str,
) -> Result<IriMapping, ContextStop>
    requires callable { C.IsAlwaysCallable create.now }
    requires creates { Creates (C.post create.now) local.now }
    ensures { Gives result mapping_view (state_view state.new) (in_local local.now steps.colon_mapping term.now (prefix.now, suffix.now) (state_view state.old)) }
{
    if is_whole(prefix, suffix) {
        return Ok(IriMapping::Maps(Mapped {
            iri: Some(Text::new(alloc, term)?),
            prefix: false,
        }));
    }
    create_pending(create, local, state, prefix)?;
    let iri = mapped_by_prefix(alloc, term, suffix, state.context.terms.get(prefix))?;
    Ok(IriMapping::Maps(Mapped {
        iri: Some(iri),
        prefix: false,
    }))
}
