// The settings of a local context that is a map (JSON-LD 1.1 API, section 4.1.2, steps 5.7 to 5.11).
ghost use Rattle.std.specs.Prelude.{◌≡◌, true};
ghost use Rattle.ctx_types.specs.Expansion.{expand_iri};
ghost use Rattle.ld_tree.specs.View.{view};
ghost use Rattle.ctx_types.specs.ContextView.{context_view};
ghost use Rattle.ctx_entries.specs.Answers.{Answers, Leaves};
ghost use Rattle.ctx_model.specs.Process as steps;
ghost use Rattle.ctx_entries.specs.View.{entries_view, tree_view};

use case_tables::Code;
use ctx_entries::{ContextEntries, ContextStop, is_absent_or_truth, is_iri_or_blank, side_named};
use ctx_types::{ActiveContext, expand_iri};
use iri_ref::{has_scheme, resolve};
use ld_tree::{Text, Tree};
use std::alloc::Global;

/// Takes the settings of a map into the context. `remotes` are the IRIs of the remote contexts in the chain.
#[tactic(auto, unfolding(ctx_model::specs::Process::settings_taken))]
pub fn take_settings(
    alloc: Global,
    remotes: &[Text],
    entries: &ContextEntries<'_>,
    context: &mut ActiveContext,
) -> Result<(), ContextStop>
    ensures { Leaves result (context_view context.new) (steps.settings_taken remotes.now (entries_view entries.now) (context_view context.old)) }
{
    set_base(alloc, remotes, entries.get("@base"), context)?;
    set_vocab(alloc, entries.get("@vocab"), context)?;
    set_language(entries.get("@language"), context)?;
    set_side(entries.get("@direction"), context)?;
    if is_absent_or_truth(entries.get("@propagate")) {
        Ok(())
    } else {
        Err(ContextStop::Refused(Code::InvalidPropagateValue))
    }
}

/// `@base`, where no remote context is in the chain: step 5.7.
fn set_base(
    alloc: Global,
    remotes: &[Text],
    value: Option<&Tree>,
    context: &mut ActiveContext,
) -> Result<(), ContextStop>
    ensures { Leaves result (context_view context.new) (steps.based remotes.now (tree_view value.entry) (context_view context.old)) }
{
    match value {
        None => Ok(()),
        Some(value) => {
            if remotes.is_empty() {
                base_on(alloc, value, context)
            } else {
                Ok(())
            }
        }
    }
}

fn base_on(alloc: Global, value: &Tree, context: &mut ActiveContext) -> Result<(), ContextStop>
    ensures { Leaves result (context_view context.new) (steps.based_on (view value.now) (context_view context.old)) }
{
    match value {
        Tree::Null => {
            context.base = None;
            Ok(())
        }
        Tree::Str(text) => {
            context.base = Some(new_base(alloc, text, &context.base)?);
            Ok(())
        }
        _ => Err(ContextStop::Refused(Code::InvalidBaseIri)),
    }
}

/// The new base IRI: the text itself, or resolved against the base IRI that stands.
fn new_base(alloc: Global, text: &Text, base: &Option<Text>) -> Result<Text, ContextStop>
    ensures { Answers result (λ b. b) (steps.new_base text.now base.now) }
{
    if has_scheme(text.as_str()) {
        return Ok(text.copy()?);
    }
    match base {
        Some(base) => Ok(resolve(alloc, base.as_str(), text.as_str())?),
        None => Err(ContextStop::Refused(Code::InvalidBaseIri)),
    }
}

/// `@vocab`, the vocabulary mapping: step 5.8.
fn set_vocab(
    alloc: Global,
    value: Option<&Tree>,
    context: &mut ActiveContext,
) -> Result<(), ContextStop>
    ensures { Leaves result (context_view context.new) (steps.vocab_set (tree_view value.entry) (context_view context.old)) }
{
    match value {
        None => Ok(()),
        Some(value) => match value {
            Tree::Null => {
                context.vocab = None;
                Ok(())
            }
            Tree::Str(text) => name_vocab(alloc, text.as_str(), context),
            _ => Err(ContextStop::Refused(Code::InvalidVocabMapping)),
        },
    }
}

fn name_vocab(alloc: Global, text: &str, context: &mut ActiveContext) -> Result<(), ContextStop>
    ensures { Leaves result (context_view context.new) (steps.vocab_named (expand_iri (context_view context.old).current true true text.now) (context_view context.old)) }
{
    let iri = expand_iri(alloc, &*context, text, true, true)?;
    if is_iri_or_blank(&iri) {
        context.vocab = iri;
        Ok(())
    } else {
        Err(ContextStop::Refused(Code::InvalidVocabMapping))
    }
}

/// `@language`, the default language: step 5.9.
fn set_language(value: Option<&Tree>, context: &mut ActiveContext) -> Result<(), ContextStop>
    ensures { Leaves result (context_view context.new) (steps.language_set (tree_view value.entry) (context_view context.old)) }
{
    match value {
        None => Ok(()),
        Some(value) => match value {
            Tree::Null => {
                context.language = None;
                Ok(())
            }
            Tree::Str(text) => {
                context.language = Some(text.copy()?);
                Ok(())
            }
            _ => Err(ContextStop::Refused(Code::InvalidDefaultLanguage)),
        },
    }
}

/// `@direction`, the default base direction: step 5.10.
fn set_side(value: Option<&Tree>, context: &mut ActiveContext) -> Result<(), ContextStop>
    ensures { Leaves result (context_view context.new) (steps.side_set (tree_view value.entry) (context_view context.old)) }
{
    match value {
        None => Ok(()),
        Some(value) => match value {
            Tree::Null => {
                context.side = None;
                Ok(())
            }
            Tree::Str(text) => {
                context.side = Some(side_named(text.as_str())?);
                Ok(())
            }
            _ => Err(ContextStop::Refused(Code::InvalidBaseDirection)),
        },
    }
}
