// A local context that is a map (JSON-LD 1.1 API, section 4.1.2, steps 5.5 to 5.13), where a scoped context is tried by a call
// that is given.
ghost use Rattle.std.specs.Prelude.{◌≡◌};
ghost use Rattle.ctx_types.specs.ContextView.{context_view};
ghost use Rattle.ctx_model.specs.Process as steps;
ghost use Rattle.ctx_entries.specs.Answers.{Leaves};
ghost use Rattle.ctx_entries.specs.Left.{with_scoped};
ghost use Rattle.ctx_entries.specs.View.{ask_view, entries_view};
ghost use Rattle.ctx_terms.specs.Calls.{TriesScoped};

use case_tables::Code;
use ctx_entries::{Ask, ContextEntries, ContextStop, LocalContext, Marks, Progress, is_true};
use ctx_settings::{import, is_known_version, take_settings};
use ctx_terms::create_terms;
use ctx_types::ActiveContext;
use ld_tree::{Members, Tree};
use std::alloc::Global;

/// Takes a map: steps 5.5 to 5.13.
#[tactic(auto, unfolding(ctx_model::specs::Process::map_taken))]
pub(crate) fn take_entries<T: Fn(u32, &ActiveContext, &Tree) -> Result<(), ContextStop>>(
    alloc: Global,
    tries: &T,
    ask: &Ask<'_>,
    own: &Members,
    state: &mut Progress,
) -> Result<(), ContextStop>
    requires callable { T.IsAlwaysCallable tries.now }
    requires tries { TriesScoped (T.post tries.now) ask.now }
    ensures { Leaves result (context_view state.new.context) (with_scoped ask.now steps.map_taken (ask_view ask.now) own.now (context_view state.old.context)) }
{
    if !is_known_version(own.get("@version")) {
        return Err(ContextStop::Refused(Code::InvalidVersionValue));
    }
    let imports = import(alloc, ask.store, ask.base, own.get("@import"))?;
    let entries = ContextEntries { own, imports };
    take_settings(alloc, ask.remotes, &entries, &mut state.context)?;
    create_all(alloc, tries, ask, &entries, state)
}

/// Creates the terms of a map, in the order of their keys: steps 5.12 and 5.13.
#[tactic(auto, unfolding(ctx_model::specs::Process::terms_taken))]
fn create_all<T: Fn(u32, &ActiveContext, &Tree) -> Result<(), ContextStop>>(
    alloc: Global,
    tries: &T,
    ask: &Ask<'_>,
    entries: &ContextEntries<'_>,
    state: &mut Progress,
) -> Result<(), ContextStop>
    requires callable { T.IsAlwaysCallable tries.now }
    requires tries { TriesScoped (T.post tries.now) ask.now }
    ensures { Leaves result (context_view state.new.context) (with_scoped ask.now steps.terms_taken (ask_view ask.now) (entries_view entries.now) (context_view state.old.context)) }
{
    let pairs = entries.all(alloc)?;
    let local = LocalContext {
        ask: &*ask,
        entries: &*entries,
        protected: is_true(entries.get("@protected")),
        left: pairs.len(),
        room: ask.room,
    };
    state.defined = Marks::new(alloc);
    create_terms(alloc, tries, &local, state, pairs.as_slice())?;
    Ok(())
}
