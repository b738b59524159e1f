// The last steps of term creation (JSON-LD 1.1 API, section 4.2.2, steps 19 to 28).
ghost use Rattle.std.specs.Prelude.{◌≡◌, Result, IfOk, OnOk};
ghost use Rattle.case_tables.specs.declared.code.Code.{Code};
ghost use Rattle.ctx_types.specs.Context.{Context};
ghost use Rattle.std.specs.Option.{option_map};
ghost use Rattle.ld_tree.specs.View.{view};
ghost use Rattle.ctx_types.specs.ContextView.{context_view};
ghost use Rattle.ctx_types.specs.View.{definition_view};
ghost use Rattle.ctx_entries.specs.Answers.{Answers, Leaves, Tries};
ghost use Rattle.ctx_terms.specs.Calls.{TriesScoped};
ghost use Rattle.ctx_model.specs.Definition as steps;
ghost use Rattle.ctx_model.specs.State as states;
ghost use Rattle.ctx_entries.specs.View.{local_view, mapping_view, state_view, tree_view};
ghost use Rattle.ctx_entries.specs.Left.{scoped_view};
ghost use Rattle.ctx_terms.specs.View.{previous_view, tags_view};

use crate::container::with_container;
use crate::term::{Settled, Term};
use case_tables::{Code, Shape};
use ctx_entries::{
    ContextStop, IriMapping, LocalContext, Mapped, Progress, definition_entry, has_known_entries,
    index_of, language_of, mark, nest_of, prefix_of, side_of,
};
use ctx_types::{ActiveContext, Shared, Side, Slot, TermDef};
use ld_tree::{Text, Tree};
use std::alloc::{AllocError, Global};

/// Completes a definition and stores it, or leaves the term out.
#[tactic(auto, unfolding(ctx_model::specs::Definition::finished))]
pub(crate) fn finish<T: Fn(u32, &ActiveContext, &Tree) -> Result<(), ContextStop>>(
    alloc: Global,
    tries: &T,
    local: &LocalContext<'_>,
    state: &mut Progress,
    term: &Term<'_>,
    settled: Settled,
    previous: &Option<Shared<TermDef>>,
    mapping: IriMapping,
) -> Result<(), ContextStop>
    requires callable { T.IsAlwaysCallable tries.now }
    requires tries { TriesScoped (T.post tries.now) local.now.ask.now }
    ensures { Leaves result (state_view state.new) (steps.finished (λ c v. scoped_view local.now c v) (local_view local.now) term.now.name.now (steps.entries_of (view term.now.value.now)) settled.protected settled.kind (previous_view previous.now) (mapping_view mapping) (state_view state.old)) }
{
    match mapping {
        IriMapping::LeavesOut => {
            mark(alloc, state, term.name, true)?;
            Ok(())
        }
        IriMapping::Maps(mapped) => {
            let definition = complete(alloc, tries, local, &state.context, term, settled, mapped)?;
            let definition = kept(alloc, local.ask.overrides, previous, definition)?;
            store(alloc, state, term.name, definition)?;
            Ok(())
        }
    }
}

/// The definition whole: steps 19 to 26.
#[tactic(auto, unfolding(ctx_model::specs::Definition::completed))]
fn complete<T: Fn(u32, &ActiveContext, &Tree) -> Result<(), ContextStop>>(
    alloc: Global,
    tries: &T,
    local: &LocalContext<'_>,
    context: &ActiveContext,
    term: &Term<'_>,
    settled: Settled,
    mapped: Mapped,
) -> Result<TermDef, ContextStop>
    requires callable { T.IsAlwaysCallable tries.now }
    requires tries { TriesScoped (T.post tries.now) local.now.ask.now }
    ensures { Answers result definition_view (steps.completed (λ c v. scoped_view local.now c v) (local_view local.now) term.now.name.now (steps.entries_of (view term.now.value.now)) settled.protected settled.kind mapped.iri mapped.prefix (context_view context.now)) }
{
    let Settled { protected, kind } = settled;
    let contents = with_container(alloc, definition_entry(term.value, "@container"), kind)?;
    let index = index_of(
        alloc,
        context,
        contents.0,
        definition_entry(term.value, "@index"),
    )?;
    try_scoped(
        tries,
        local,
        context,
        definition_entry(term.value, "@context"),
    )?;
    let tags = tags_of(term.value)?;
    describe(alloc, local, term, protected, mapped, contents, index, tags)
}

/// The language mapping, the direction mapping and the nest value.
#[derive(Drop)]
struct Tags {
    language: Slot<Text>,
    side: Slot<Side>,
    nest: Option<Text>,
}

/// Steps 22 to 24.
fn tags_of(value: &Tree) -> Result<Tags, ContextStop>
    ensures { Answers result tags_view (steps.tags_of (steps.entries_of (view value.now))) }
{
    tags_where(definition_entry(value, "@type").is_some(), value)
}

fn tags_where(typed: bool, value: &Tree) -> Result<Tags, ContextStop>
    ensures { Answers result tags_view (steps.tags_where typed (steps.entries_of (view value.now))) }
{
    let language = language_of(typed, definition_entry(value, "@language"))?;
    let side = side_of(typed, definition_entry(value, "@direction"))?;
    let nest = nest_of(definition_entry(value, "@nest"))?;
    Ok(Tags {
        language,
        side,
        nest,
    })
}

/// The definition with all its settings: steps 25 and 26.
fn describe(
    alloc: Global,
    local: &LocalContext<'_>,
    term: &Term<'_>,
    protected: bool,
    mapped: Mapped,
    contents: (Shape, Option<Text>),
    index: Option<Text>,
    tags: Tags,
) -> Result<TermDef, ContextStop>
    ensures { Answers result definition_view (steps.described (λ c v. scoped_view local.now c v) (local_view local.now) term.now.name.now (steps.entries_of (view term.now.value.now)) protected mapped.iri mapped.prefix contents index (tags_view tags)) }
{
    let prefix = prefix_of(
        term.name,
        &mapped.iri,
        mapped.prefix,
        definition_entry(term.value, "@prefix"),
    )?;
    if !has_known_entries(term.value) {
        return Err(ContextStop::Refused(Code::InvalidTermDefinition));
    }
    let scoped = definition_entry(term.value, "@context");
    let base = scoped_base(local, scoped)?;
    let context = copied(alloc, scoped)?;
    let (container, kind) = contents;
    Ok(TermDef {
        mapping: mapped.iri,
        prefix,
        protected,
        reverse: false,
        base,
        local: context,
        container,
        side: tags.side,
        index,
        language: tags.language,
        nest: tags.nest,
        kind,
    })
}

/// Tries the scoped context, where there is one: step 21.
fn try_scoped<T: Fn(u32, &ActiveContext, &Tree) -> Result<(), ContextStop>>(
    tries: &T,
    local: &LocalContext<'_>,
    context: &ActiveContext,
    scoped: Option<&Tree>,
) -> Result<(), ContextStop>
    requires callable { T.IsAlwaysCallable tries.now }
    requires tries { TriesScoped (T.post tries.now) local.now.ask.now }
    ensures { Answers result (λ u. u) (steps.context_tried (λ c v. scoped_view local.now c v) (local_view local.now) (context_view context.now) (tree_view scoped.entry)) }
{
    match scoped {
        None => Ok(()),
        Some(scoped) => as_scoped(tries(local.room, context, scoped)),
    }
}

/// A refused scoped context is refused as one.
fn as_scoped(tried: Result<(), ContextStop>) -> Result<(), ContextStop>
    ensures { (d : Result Context Code) → Tries tried d → Answers result (λ u. u) (steps.scoped_tried d) }
{
    match tried {
        Ok(_) => Ok(()),
        Err(ContextStop::OutOfMemory) => Err(ContextStop::OutOfMemory),
        Err(ContextStop::Refused(_)) => Err(ContextStop::Refused(Code::InvalidScopedContext)),
    }
}

/// The base URL of a scoped context.
fn scoped_base(local: &LocalContext<'_>, scoped: Option<&Tree>) -> Result<Option<Text>, AllocError>
    ensures { IfOk result (λ b. b ≡ steps.base_of (λ c v. scoped_view local.now c v) (local_view local.now) (tree_view scoped.entry)) }
{
    match scoped {
        None => Ok(None),
        Some(_) => match local.ask.base {
            None => Ok(None),
            Some(base) => Ok(Some(base.copy()?)),
        },
    }
}

fn copied(alloc: Global, value: Option<&Tree>) -> Result<Option<Tree>, AllocError>
    ensures { IfOk result (λ t. option_map view t ≡ tree_view value.entry) }
{
    match value {
        None => Ok(None),
        Some(value) => Ok(Some(value.copy(alloc)?)),
    }
}

/// The new definition, or the previous one where that is protected and the same: step 27.
fn kept(
    alloc: Global,
    overrides: bool,
    previous: &Option<Shared<TermDef>>,
    definition: TermDef,
) -> Result<Shared<TermDef>, ContextStop>
    ensures { Answers result definition_view (steps.kept overrides (previous_view previous.now) (definition_view definition)) }
{
    match previous {
        None => Ok(Shared::new(alloc, definition)?),
        Some(previous) => {
            if overrides || !previous.get().protected {
                Ok(Shared::new(alloc, definition)?)
            } else if previous.get().same_but_protected(&definition) {
                Ok(previous.share()?)
            } else {
                Err(ContextStop::Refused(Code::ProtectedTermRedefinition))
            }
        }
    }
}

/// Gives a term its definition: step 28.
pub(crate) fn store(
    alloc: Global,
    state: &mut Progress,
    term: &str,
    definition: Shared<TermDef>,
) -> Result<(), AllocError>
    ensures { OnOk result (state_view state.new ≡ states.stored term.now (definition_view definition) (state_view state.old)) }
{
    let key = Text::new(alloc, term)?;
    state.context.terms.put(alloc, key, definition)?;
    state.defined.set(alloc, term, true)?;
    Ok(())
}
