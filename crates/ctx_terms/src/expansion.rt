// IRI expansion with a local context (JSON-LD 1.1 API, section 5.2.2): a term that a text needs is created first.
ghost use Rattle.std.specs.Prelude.{◌≡◌, true, false};
ghost use Rattle.ctx_types.specs.Expansion.{colon_parts};
ghost use Rattle.ctx_entries.specs.Answers.{Gives, Leaves};
ghost use Rattle.ctx_terms.specs.Calls.{Creates};
ghost use Rattle.ctx_model.specs.LocalExpansion as steps;
ghost use Rattle.ctx_entries.specs.View.{local_view, state_view};
ghost use Rattle.ctx_entries.specs.Left.{creation};

use ctx_entries::{ContextStop, LocalContext, Progress, is_undone};
use ctx_types::{as_iri, by_definition, colon_parts, has_keyword_form, is_keyword, is_whole};
use ld_tree::{Text, Tree};
use std::alloc::Global;

/// What a text stands for, with the vocabulary and not relative to the document.
#[tactic(auto, unfolding(ctx_model::specs::LocalExpansion::expand_iri))]
pub(crate) fn expand<C: Fn(&mut Progress, &str, &Tree) -> Result<(), ContextStop>>(
    alloc: Global,
    create: &C,
    local: &LocalContext<'_>,
    state: &mut Progress,
    text: &str,
) -> Result<Option<Text>, ContextStop>
    requires callable { C.IsAlwaysCallable create.now }
    requires creates { Creates (C.post create.now) local.now }
    ensures { Gives result (λ iri. iri) (state_view state.new) (steps.expand_iri (λ t v s. creation local.now t v s) (local_view local.now).entries false true text.now (state_view state.old)) }
{
    if is_keyword(text) {
        return Ok(Some(Text::new(alloc, text)?));
    }
    if has_keyword_form(text) {
        return Ok(None);
    }
    create_pending(create, local, state, text)?;
    match by_definition(true, state.context.terms.get(text))? {
        Some(iri) => Ok(iri),
        None => {
            create_prefix(create, local, state, text)?;
            Ok(Some(as_iri(alloc, &state.context, text, false, true)?))
        }
    }
}

/// Creates a term that the local context has and that `defined` does not have as created: step 3.
#[tactic(auto, unfolding(ctx_model::specs::LocalExpansion::created))]
pub(crate) fn create_pending<C: Fn(&mut Progress, &str, &Tree) -> Result<(), ContextStop>>(
    create: &C,
    local: &LocalContext<'_>,
    state: &mut Progress,
    term: &str,
) -> Result<(), ContextStop>
    requires callable { C.IsAlwaysCallable create.now }
    requires creates { Creates (C.post create.now) local.now }
    ensures { Leaves result (state_view state.new) (steps.created (λ t v s. creation local.now t v s) (local_view local.now).entries term.now (state_view state.old)) }
{
    match local.entries.get(term) {
        None => Ok(()),
        Some(value) => {
            if is_undone(state, term) {
                create(state, term, value)
            } else {
                Ok(())
            }
        }
    }
}

/// Creates the prefix of a text, where it has one that is pending: step 6.3.
#[tactic(auto, unfolding(ctx_model::specs::LocalExpansion::prefix_created))]
fn create_prefix<C: Fn(&mut Progress, &str, &Tree) -> Result<(), ContextStop>>(
    create: &C,
    local: &LocalContext<'_>,
    state: &mut Progress,
    text: &str,
) -> Result<(), ContextStop>
    requires callable { C.IsAlwaysCallable create.now }
    requires creates { Creates (C.post create.now) local.now }
    ensures { Leaves result (state_view state.new) (steps.prefix_created (λ t v s. creation local.now t v s) (local_view local.now).entries (colon_parts text.now) (state_view state.old)) }
{
    match colon_parts(text) {
        None => Ok(()),
        Some((prefix, suffix)) => {
            if is_whole(prefix, suffix) {
                Ok(())
            } else {
                create_pending(create, local, state, prefix)
            }
        }
    }
}
