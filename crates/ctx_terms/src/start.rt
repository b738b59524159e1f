// The first steps of term creation (JSON-LD 1.1 API, section 4.2.2, steps 2 to 9).
ghost use Rattle.ld_tree.specs.View.{view};
ghost use Rattle.ctx_entries.specs.Answers.{Gives};
ghost use Rattle.ctx_model.specs.Creation as steps;
ghost use Rattle.ctx_entries.specs.View.{state_view};
ghost use Rattle.ctx_terms.specs.View.{start_view};

use case_tables::Code;
use ctx_entries::{ContextStop, Progress, is_definition, mark, may_define_type};
use ctx_types::{Shared, TermDef, has_keyword_form, is_keyword};
use ld_tree::Tree;
use std::alloc::Global;

/// What the first steps come to.
#[derive(Drop)]
pub(crate) enum Start {
    /// Nothing more is to be done.
    Over,
    /// The term is defined anew, and had this definition.
    GoesOn(Option<Shared<TermDef>>),
}

#[tactic(auto, unfolding(ctx_model::specs::Creation::started))]
pub(crate) fn begin(
    alloc: Global,
    state: &mut Progress,
    term: &str,
    value: &Tree,
) -> Result<Start, ContextStop>
    ensures { Gives result start_view (state_view state.new) (steps.started term.now (view value.now) (state_view state.old)) }
{
    if term.is_empty() {
        return Err(ContextStop::Refused(Code::InvalidTermDefinition));
    }
    mark(alloc, state, term, false)?;
    allow(alloc, state, term, value)
}

/// Steps 4 to 9.
fn allow(
    alloc: Global,
    state: &mut Progress,
    term: &str,
    value: &Tree,
) -> Result<Start, ContextStop>
    ensures { Gives result start_view (state_view state.new) (steps.allowed term.now (view value.now) (state_view state.old)) }
{
    if term == "@type" {
        if may_define_type(value) {
            return remove(alloc, state, term, value);
        }
        return Err(ContextStop::Refused(Code::KeywordRedefinition));
    }
    if is_keyword(term) {
        return Err(ContextStop::Refused(Code::KeywordRedefinition));
    }
    if has_keyword_form(term) {
        mark(alloc, state, term, true)?;
        return Ok(Start::Over);
    }
    remove(alloc, state, term, value)
}

/// Steps 6 to 9.
fn remove(
    alloc: Global,
    state: &mut Progress,
    term: &str,
    value: &Tree,
) -> Result<Start, ContextStop>
    ensures { Gives result start_view (state_view state.new) (steps.removed term.now (view value.now) (state_view state.old)) }
{
    if !is_definition(value) {
        return Err(ContextStop::Refused(Code::InvalidTermDefinition));
    }
    let previous = state.context.terms.remove(alloc, term)?;
    Ok(Start::GoesOn(previous))
}
