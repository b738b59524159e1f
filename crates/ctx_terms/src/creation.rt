// Term creation (JSON-LD 1.1 API, section 4.2.2), where a term that is needed on the way is created by a call that is given.
ghost use Rattle.std.specs.Prelude.{◌≡◌, ◌<◌, None, codes};
ghost use Rattle.ld_model.specs.Tree.{member_at};
ghost use Rattle.ld_tree.specs.View.{view};
ghost use Rattle.ctx_model.specs.Definition.{entries_of};
ghost use Rattle.ctx_model.specs.Creation as steps;
ghost use Rattle.ctx_model.specs.Process as process;
ghost use Rattle.ctx_model.specs.State as states;
ghost use Rattle.ctx_entries.specs.Answers.{Leaves};
ghost use Rattle.ctx_entries.specs.View.{pairs_view, state_view};
ghost use Rattle.ctx_entries.specs.Left.{in_local, creation};
ghost use Rattle.ctx_terms.specs.Calls.{Creates, TriesScoped};
ghost use Rattle.ctx_terms.specs.View.{previous_view};

use crate::finish::finish;
use crate::mapping::{create_reverse, kind_of, mapping_for};
use crate::start::{Start, begin};
use crate::term::{Settled, Term};
use case_tables::Code;
use ctx_entries::{ContextStop, LocalContext, Progress, definition_entry, is_one_of, protected_by};
use ctx_types::{ActiveContext, Shared, TermDef};
use ld_tree::{Text, Tree};
use std::alloc::Global;

/// The keys of a local context that define no term (JSON-LD 1.1 API, section 4.1.2, step 5.13).
const SETTINGS: [&str; 8] = [
    "@base",
    "@direction",
    "@import",
    "@language",
    "@propagate",
    "@protected",
    "@version",
    "@vocab",
];

/// Creates the terms of a local context, in the order of its keys (JSON-LD 1.1 API, section 4.1.2, step 5.13).
///
/// `entries` are those of the local context. `tries` tries a scoped context, and is told how many calls may still be under way.
///
/// # Errors
///
/// - `Refused` exactly where term creation ends in that error.
/// - `OutOfMemory` where memory is refused, where `tries` answers so, or where more terms would be under way, each for the sake
///   of the one before, than `local.room` says.
pub fn create_terms<T: Fn(u32, &ActiveContext, &Tree) -> Result<(), ContextStop>>(
    alloc: Global,
    tries: &T,
    local: &LocalContext<'_>,
    state: &mut Progress,
    entries: &[(&Text, &Tree)],
) -> Result<(), ContextStop>
    requires callable { T.IsAlwaysCallable tries.now }
    requires tries { TriesScoped (T.post tries.now) local.now.ask.now }
    ensures { Leaves result (state_view state.new) (process.terms_created (λ t v s. creation local.now t v s) (pairs_view entries.now) (state_view state.old)) }
{
    for entry in entries {
        create_entry(alloc, tries, local, state, entry.0.as_str(), entry.1)?;
    }
    Ok(())
}

/// Creates the term of an entry, where its key defines one.
fn create_entry<T: Fn(u32, &ActiveContext, &Tree) -> Result<(), ContextStop>>(
    alloc: Global,
    tries: &T,
    local: &LocalContext<'_>,
    state: &mut Progress,
    key: &str,
    value: &Tree,
) -> Result<(), ContextStop>
    requires callable { T.IsAlwaysCallable tries.now }
    requires tries { TriesScoped (T.post tries.now) local.now.ask.now }
    ensures { Leaves result (state_view state.new) (process.entry_created (λ t v s. creation local.now t v s) (key.now, view value.now) (state_view state.old)) }
{
    if is_term_key(key) {
        create(alloc, tries, local, state, key, value)
    } else {
        Ok(())
    }
}

fn is_term_key(key: &str) -> bool
    ensures { result ≡ process.is_term_key key.now }
{
    !is_one_of(key, &SETTINGS)
}

/// Creates a term, unless that was done already: step 1.
#[cycle(terms)]
fn create<T: Fn(u32, &ActiveContext, &Tree) -> Result<(), ContextStop>>(
    alloc: Global,
    tries: &T,
    local: &LocalContext<'_>,
    state: &mut Progress,
    term: &str,
    value: &Tree,
) -> Result<(), ContextStop>
    requires callable { T.IsAlwaysCallable tries.now }
    requires tries { TriesScoped (T.post tries.now) local.now.ask.now }
    ensures { Leaves result (state_view state.new) (creation local.now term.now (view value.now) (state_view state.old)) }
{
    match state.defined.get(term) {
        Some(done) => {
            if done {
                Ok(())
            } else {
                Err(ContextStop::Refused(Code::CyclicIriMapping))
            }
        }
        None => {
            if local.left == 0 {
                return Err(ContextStop::Refused(Code::CyclicIriMapping));
            }
            if local.room == 0 {
                return Err(ContextStop::OutOfMemory);
            }
            create_undefined(alloc, tries, local, state, term, value)
        }
    }
}

/// Creates a term of which `defined` says nothing.
#[cycle(terms)]
fn create_undefined<T: Fn(u32, &ActiveContext, &Tree) -> Result<(), ContextStop>>(
    alloc: Global,
    tries: &T,
    local: &LocalContext<'_>,
    state: &mut Progress,
    term: &str,
    value: &Tree,
) -> Result<(), ContextStop>
    requires callable { T.IsAlwaysCallable tries.now }
    requires tries { TriesScoped (T.post tries.now) local.now.ask.now }
    requires left { 0 < local.now.left }
    requires room { 0 < local.now.room }
    requires undone { states.mark_of term.now (state_view state.old) ≡ None }
    ensures { Leaves result (state_view state.new) (creation local.now term.now (view value.now) (state_view state.old)) }
{
    let below = LocalContext {
        ask: &*local.ask,
        entries: &*local.entries,
        protected: local.protected,
        left: local.left - 1,
        room: local.room - 1,
    };
    let create_pending = |state: &mut Progress, term: &str, value: &Tree| -> Result<(), ContextStop>
        requires callable { T.IsAlwaysCallable tries.now }
        requires tries { TriesScoped (T.post tries.now) below.ask.now }
        ensures { Leaves result (state_view state.new) (creation below.entry term.now (view value.now) (state_view state.old)) }
    { create(alloc, tries, &below, state, term, value) };
    let term = Term { name: term, value };
    create_new(alloc, &create_pending, tries, &below, state, &term)
}

/// Creates a term of which `defined` says nothing: steps 2 to 28.
#[tactic(auto, unfolding(ctx_model::specs::Creation::create_new))]
fn create_new<
    C: Fn(&mut Progress, &str, &Tree) -> Result<(), ContextStop>,
    T: Fn(u32, &ActiveContext, &Tree) -> Result<(), ContextStop>,
>(
    alloc: Global,
    create: &C,
    tries: &T,
    local: &LocalContext<'_>,
    state: &mut Progress,
    term: &Term<'_>,
) -> Result<(), ContextStop>
    requires callable { C.IsAlwaysCallable create.now × T.IsAlwaysCallable tries.now }
    requires creates { Creates (C.post create.now) local.now }
    requires tries { TriesScoped (T.post tries.now) local.now.ask.now }
    ensures { Leaves result (state_view state.new) (in_local local.now steps.create_new term.now.name.now (view term.now.value.now) (state_view state.old)) }
{
    match begin(alloc, state, term.name, term.value)? {
        Start::Over => Ok(()),
        Start::GoesOn(previous) => define(alloc, create, tries, local, state, term, &previous),
    }
}

/// Defines a term anew: steps 10 to 28.
#[tactic(auto, unfolding(ctx_model::specs::Creation::defined_by))]
fn define<
    C: Fn(&mut Progress, &str, &Tree) -> Result<(), ContextStop>,
    T: Fn(u32, &ActiveContext, &Tree) -> Result<(), ContextStop>,
>(
    alloc: Global,
    create: &C,
    tries: &T,
    local: &LocalContext<'_>,
    state: &mut Progress,
    term: &Term<'_>,
    previous: &Option<Shared<TermDef>>,
) -> Result<(), ContextStop>
    requires callable { C.IsAlwaysCallable create.now × T.IsAlwaysCallable tries.now }
    requires creates { Creates (C.post create.now) local.now }
    requires tries { TriesScoped (T.post tries.now) local.now.ask.now }
    ensures { Leaves result (state_view state.new) (in_local local.now steps.defined_by term.now.name.now (view term.now.value.now) (previous_view previous.now) (state_view state.old)) }
{
    let protected = protected_by(local.protected, definition_entry(term.value, "@protected"))?;
    let kind = kind_of(
        alloc,
        create,
        local,
        state,
        definition_entry(term.value, "@type"),
    )?;
    let settled = Settled { protected, kind };
    direct(alloc, create, tries, local, state, term, settled, previous)
}

/// A reverse property or a forward one: steps 13 to 28.
#[tactic(auto, unfolding(ctx_model::specs::Creation::directed))]
fn direct<
    C: Fn(&mut Progress, &str, &Tree) -> Result<(), ContextStop>,
    T: Fn(u32, &ActiveContext, &Tree) -> Result<(), ContextStop>,
>(
    alloc: Global,
    create: &C,
    tries: &T,
    local: &LocalContext<'_>,
    state: &mut Progress,
    term: &Term<'_>,
    settled: Settled,
    previous: &Option<Shared<TermDef>>,
) -> Result<(), ContextStop>
    requires callable { C.IsAlwaysCallable create.now × T.IsAlwaysCallable tries.now }
    requires creates { Creates (C.post create.now) local.now }
    requires tries { TriesScoped (T.post tries.now) local.now.ask.now }
    ensures { Leaves result (state_view state.new) (in_local local.now steps.directed term.now.name.now (view term.now.value.now) (member_at (codes "@reverse") (entries_of (view term.now.value.now))) settled.protected settled.kind (previous_view previous.now) (state_view state.old)) }
{
    match definition_entry(term.value, "@reverse") {
        Some(reverse) => create_reverse(alloc, create, local, state, term, reverse, settled),
        None => forward(alloc, create, tries, local, state, term, settled, previous),
    }
}

fn forward<
    C: Fn(&mut Progress, &str, &Tree) -> Result<(), ContextStop>,
    T: Fn(u32, &ActiveContext, &Tree) -> Result<(), ContextStop>,
>(
    alloc: Global,
    create: &C,
    tries: &T,
    local: &LocalContext<'_>,
    state: &mut Progress,
    term: &Term<'_>,
    settled: Settled,
    previous: &Option<Shared<TermDef>>,
) -> Result<(), ContextStop>
    requires callable { C.IsAlwaysCallable create.now × T.IsAlwaysCallable tries.now }
    requires creates { Creates (C.post create.now) local.now }
    requires tries { TriesScoped (T.post tries.now) local.now.ask.now }
    ensures { Leaves result (state_view state.new) (in_local local.now steps.forward_created term.now.name.now (view term.now.value.now) settled.protected settled.kind (previous_view previous.now) (state_view state.old)) }
{
    let mapping = mapping_for(alloc, create, local, state, term)?;
    finish(alloc, tries, local, state, term, settled, previous, mapping)
}
