// The parts of context processing that process no other context (JSON-LD 1.1 API, section 4.1.2).
ghost use Rattle.std.specs.Prelude.{◌≡◌, IfOk};
ghost use Rattle.ld_tree.specs.View.{view};
ghost use Rattle.ctx_types.specs.Context.{initial};
ghost use Rattle.ctx_types.specs.ContextView.{context_view};
ghost use Rattle.ctx_entries.specs.Answers.{Leaves};
ghost use Rattle.ctx_model.specs.Process as steps;
ghost use Rattle.ctx_entries.specs.View.{ask_view, tree_view};

use case_tables::Code;
use ctx_entries::{Ask, ContextStop};
use ctx_types::{ActiveContext, Previous};
use ld_tree::{Text, Tree};
use std::alloc::{AllocError, Global};

/// Whether the context propagates: step 2.
pub fn propagates_in(propagates: bool, local: &Tree) -> bool
    ensures { result ≡ steps.propagates_in propagates (view local.now) }
{
    match local {
        Tree::Map(entries) => propagates_by(propagates, entries.get("@propagate")),
        _ => propagates,
    }
}

fn propagates_by(propagates: bool, value: Option<&Tree>) -> bool
    ensures { result ≡ steps.propagates_by propagates (tree_view value.entry) }
{
    match value {
        None => propagates,
        Some(value) => match value {
            Tree::Truth(truth) => *truth,
            _ => propagates,
        },
    }
}

/// A copy of the active context, which it remembers where it does not propagate: steps 1 and 3.
pub fn carried(
    alloc: Global,
    propagates: bool,
    active: &ActiveContext,
) -> Result<ActiveContext, AllocError>
    ensures { IfOk result (λ c. context_view c ≡ steps.with_previous propagates (context_view active.now)) }
{
    let copy = active.copy(alloc)?;
    if propagates || copy.previous.is_some() {
        return Ok(copy);
    }
    let mut context = copy;
    context.previous = Some(Previous::new(alloc, active.copy(alloc)?)?);
    Ok(context)
}

/// Null: a context without settings, where no protected term stands against it: step 5.1.
pub fn nullify(
    alloc: Global,
    ask: &Ask<'_>,
    propagates: bool,
    context: &mut ActiveContext,
) -> Result<(), ContextStop>
    ensures { Leaves result (context_view context.new) (steps.nullified propagates (ask_view ask.now) (context_view context.old)) }
{
    if !ask.overrides && ask.active.terms.has_protected() {
        return Err(ContextStop::Refused(Code::InvalidContextNullification));
    }
    let fresh = initial(alloc, &ask.active.original)?;
    let taken = std::mem::replace(context, fresh);
    if propagates {
        return Ok(());
    }
    context.previous = Some(Previous::new(alloc, taken)?);
    Ok(())
}

fn initial(alloc: Global, base: &Option<Text>) -> Result<ActiveContext, AllocError>
    ensures { IfOk result (λ c. context_view c ≡ initial base.now) }
{
    match base {
        Some(base) => ActiveContext::initial(alloc, Some(base)),
        None => ActiveContext::initial(alloc, None),
    }
}

/// Whether `@version` is absent or 1.1: step 5.5.
pub fn is_known_version(value: Option<&Tree>) -> bool
    ensures { result ≡ steps.is_known_version (tree_view value.entry) }
{
    match value {
        None => true,
        Some(value) => match value {
            Tree::OneOne => true,
            _ => false,
        },
    }
}
