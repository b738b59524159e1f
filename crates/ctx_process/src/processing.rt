// Context processing (JSON-LD 1.1 API, section 4.1.2).
ghost use Rattle.std.specs.Prelude.{◌≡◌, ◌≤◌, [], Result};
ghost use Rattle.case_tables.specs.declared.code.Code.{Code};
ghost use Rattle.ctx_types.specs.Context.{Context};
ghost use Rattle.ld_tree.specs.View.{view};
ghost use Rattle.ctx_types.specs.ContextView.{context_view};
ghost use Rattle.ctx_model.specs.Process as steps;
ghost use Rattle.ctx_entries.specs.Answers.{Answers, Leaves, Tries};
ghost use Rattle.ctx_entries.specs.Left.{in_call, processing, remote_in, scoped_in, with_scoped};
ghost use Rattle.ctx_entries.specs.View.{ask_view, text_view};

use crate::map::take_entries;
use case_tables::Code;
use ctx_entries::{Ask, ContextStop, Marks, Progress, among};
use ctx_settings::{carried, chain_with, load, nullify, propagates_in, resolve_by};
use ctx_store::Store;
use ctx_types::ActiveContext;
use ld_tree::{Members, Text, Tree, Trees};
use std::alloc::Global;

/// How many remote contexts a chain may have.
const REMOTE_CONTEXTS: u32 = 32;

/// How many scoped contexts may be under way.
const SCOPED_CONTEXTS: u32 = 128;

/// How many terms and contexts may be under way, each for the sake of the one before: what the stack is sure to hold.
const CALLS: u32 = 1_250;

/// How a local context is processed.
#[derive(Clone, Copy, Debug, PartialEq, Eq)]
pub struct Flags {
    /// Protected terms may be defined anew, as by the scoped context of a property.
    pub override_protected: bool,
    /// The context holds for nodes further down, too. Where it does not, the result remembers the active context.
    pub propagate: bool,
    /// Remote contexts that are under way already are processed again. It is false for a scoped context that is tried.
    pub validate_scoped: bool,
}

/// Processes a local context (JSON-LD 1.1 API, section 4.1.2): gives the active context that it makes of `active`.
///
/// `local` is null, a text, a map, or an array of these, as it stands under `@context`. `base` is the base URL of the document
/// or file that it stands in; a relative `@import` or IRI of a context is resolved against it, and a relative `@base` against
/// the base IRI of the active context. Remote and imported contexts come from `store` alone, and their trees are not copied.
///
/// It takes a time that grows with the size of the local context and with that of the contexts that it names, and with the
/// logarithm of the number of terms for each term that is created or looked up. `active` itself is copied in constant time.
///
/// # Limits
///
/// A chain has at most 32 remote contexts, and at most 128 scoped contexts are under way. At most 1,250 calls are under way, each
/// for the sake of the one before: a term that is created, or a remote or scoped context that is processed. That is what the
/// stack is sure to hold.
///
/// # Errors
///
/// - `Refused` exactly where the definition ends in that error, but for want of memory. The 33rd remote context of a chain is
///   `context overflow`, the 129th scoped context under way is `invalid scoped context`, and an IRI without a scheme, or one
///   that the store doesn't have or has as unreadable, is `loading remote context failed`.
/// - `OutOfMemory` where memory is refused, and where the 1,251st call would be under way: such a context has an answer by the
///   definition, and is counted as one for which there is no memory.
#[tactic(auto, unfolding(ctx_model::specs::Process::process))]
pub fn process(
    alloc: Global,
    active: &ActiveContext,
    local: &Tree,
    base: Option<&Text>,
    store: &Store,
    flags: Flags,
) -> Result<ActiveContext, ContextStop>
    ensures { Answers result context_view (steps.process store.now (record { active = context_view active.now; base = text_view base.entry; remotes = []; overrides = flags.override_protected; propagates = flags.propagate; validates = flags.validate_scoped }) (view local.now)) }
{
    let ask = Ask {
        store,
        active,
        base,
        remotes: &[],
        overrides: flags.override_protected,
        propagates: flags.propagate,
        validates: flags.validate_scoped,
        remote_left: REMOTE_CONTEXTS,
        scoped_left: SCOPED_CONTEXTS,
        room: CALLS,
    };
    process_within(alloc, &ask, local)
}

/// Processes a local context with what is left of the limits.
#[cycle(contexts)]
fn process_within(alloc: Global, ask: &Ask<'_>, local: &Tree) -> Result<ActiveContext, ContextStop>
    ensures { Answers result context_view (processing ask.now (view local.now)) }
{
    let propagates = propagates_in(ask.propagates, local);
    let context = carried(alloc, propagates, ask.active)?;
    let mut state = Progress {
        context,
        defined: Marks::new(alloc),
    };
    take_items(alloc, ask, local, propagates, &mut state)?;
    Ok(state.context)
}

/// Takes the items of a local context: those of an array, or itself: step 4.
#[cycle(contexts)]
fn take_items(
    alloc: Global,
    ask: &Ask<'_>,
    local: &Tree,
    propagates: bool,
    state: &mut Progress,
) -> Result<(), ContextStop>
    ensures { Leaves result (context_view state.new.context) (in_call ask.now steps.items_taken propagates (ask_view ask.now) (steps.items_of (view local.now)) (context_view state.old.context)) }
{
    match local {
        Tree::Items(items) => take_each(alloc, ask, items, propagates, state),
        _ => take_item(alloc, ask, local, propagates, state),
    }
}

/// Takes items in their order: step 5.
#[cycle(contexts)]
fn take_each(
    alloc: Global,
    ask: &Ask<'_>,
    items: &Trees,
    propagates: bool,
    state: &mut Progress,
) -> Result<(), ContextStop>
    ensures { Leaves result (context_view state.new.context) (in_call ask.now steps.items_taken propagates (ask_view ask.now) items.now (context_view state.old.context)) }
{
    for item in items {
        take_item(alloc, ask, item, propagates, state)?;
    }
    Ok(())
}

/// Takes an item: null, the IRI of a remote context, or a map: step 5.
#[cycle(contexts)]
#[tactic(auto, unfolding(ctx_model::specs::Process::item_taken))]
fn take_item(
    alloc: Global,
    ask: &Ask<'_>,
    item: &Tree,
    propagates: bool,
    state: &mut Progress,
) -> Result<(), ContextStop>
    ensures { Leaves result (context_view state.new.context) (in_call ask.now steps.item_taken propagates (ask_view ask.now) (view item.now) (context_view state.old.context)) }
{
    match item {
        Tree::Null => nullify(alloc, ask, propagates, &mut state.context),
        Tree::Str(text) => take_remote(alloc, ask, text.as_str(), state),
        Tree::Map(own) => take_map(alloc, ask, own, state),
        _ => Err(ContextStop::Refused(Code::InvalidLocalContext)),
    }
}

/// Takes a remote context, unless it is under way already and scoped contexts are not validated: step 5.2.
#[cycle(contexts)]
#[tactic(auto, unfolding(ctx_model::specs::Process::remote_taken))]
fn take_remote(
    alloc: Global,
    ask: &Ask<'_>,
    text: &str,
    state: &mut Progress,
) -> Result<(), ContextStop>
    ensures { Leaves result (context_view state.new.context) (steps.remote_taken ask.now.store.now (λ b o. remote_in ask.now b o) (ask_view ask.now) (steps.resolved_by (text_view ask.now.base) text.now) (context_view state.old.context)) }
{
    let iri = resolve_by(alloc, ask.base, text)?;
    if !ask.validates && among(iri.as_str(), ask.remotes) {
        return Ok(());
    }
    state.context = process_remote(alloc, ask, &iri, &state.context)?;
    Ok(())
}

/// Processes a remote context: steps 5.2.3 to 5.2.6.
#[cycle(contexts)]
fn process_remote(
    alloc: Global,
    ask: &Ask<'_>,
    iri: &Text,
    context: &ActiveContext,
) -> Result<ActiveContext, ContextStop>
    ensures { Answers result context_view (remote_in ask.now (steps.remote_ask (ask_view ask.now) iri.now (context_view context.now)) (steps.loaded ask.now.store.now iri.now)) }
{
    if ask.remote_left == 0 {
        return Err(ContextStop::Refused(Code::ContextOverflow));
    }
    if ask.room == 0 {
        return Err(ContextStop::OutOfMemory);
    }
    let local = load(ask.store, iri.as_str())?;
    let remotes = chain_with(alloc, ask.remotes, iri)?;
    let remote = Ask {
        store: ask.store,
        active: &*context,
        base: Some(&*iri),
        remotes: remotes.as_slice(),
        overrides: false,
        propagates: true,
        validates: ask.validates,
        remote_left: ask.remote_left - 1,
        scoped_left: ask.scoped_left,
        room: ask.room - 1,
    };
    process_within(alloc, &remote, local)
}

/// Takes a map, whose terms may have scoped contexts that are tried: steps 5.5 to 5.13.
#[cycle(contexts)]
fn take_map(
    alloc: Global,
    ask: &Ask<'_>,
    own: &Members,
    state: &mut Progress,
) -> Result<(), ContextStop>
    ensures { Leaves result (context_view state.new.context) (with_scoped ask.now steps.map_taken (ask_view ask.now) own.now (context_view state.old.context)) }
{
    let try_scoped = |room: u32, context: &ActiveContext, scoped: &Tree| -> Result<(), ContextStop>
        ensures { Tries result (scoped_in ask.entry.now (context_view context.now) (view scoped.now)) }
    { try_context(alloc, ask, room, context, scoped) };
    take_entries(alloc, &try_scoped, ask, own, state)
}

/// Tries a scoped context (JSON-LD 1.1 API, section 4.2.2, step 21), where `room` more calls may be under way.
#[cycle(contexts)]
fn try_context(
    alloc: Global,
    ask: &Ask<'_>,
    room: u32,
    context: &ActiveContext,
    scoped: &Tree,
) -> Result<(), ContextStop>
    ensures { Tries result (scoped_in ask.now (context_view context.now) (view scoped.now)) }
{
    if ask.scoped_left == 0 {
        return Err(ContextStop::Refused(Code::InvalidScopedContext));
    }
    let room = least(room, ask.room);
    if room == 0 {
        return Err(ContextStop::OutOfMemory);
    }
    let inner = Ask {
        store: ask.store,
        active: &*context,
        base: ask.base,
        remotes: ask.remotes,
        overrides: true,
        propagates: true,
        validates: false,
        remote_left: ask.remote_left,
        scoped_left: ask.scoped_left - 1,
        room: room - 1,
    };
    tried(process_within(alloc, &inner, scoped))
}

fn least(a: u32, b: u32) -> u32
    ensures { result ≤ b }
{
    if a < b { a } else { b }
}

/// Whether a context was processed, whatever it is.
fn tried(outcome: Result<ActiveContext, ContextStop>) -> Result<(), ContextStop>
    ensures { (d : Result Context Code) → Answers outcome context_view d → Tries result d }
{
    match outcome {
        Ok(_) => Ok(()),
        Err(stop) => Err(stop),
    }
}
