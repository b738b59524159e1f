// Contexts that are left, and local contexts that are processed.
ghost use Rattle.std.specs.Prelude.{◌≡◌, is_some};
ghost use Rattle.ctx_entries.specs.View.{tree_view};
ghost use Rattle.ctx_types.specs.ContextView.{context_view};
ghost use Rattle.ld_tree.specs.View.{view};
ghost use Rattle.expand_model.specs.Contexts as contexts;
ghost use Rattle.expand_types.specs.Answers.{Answers};
ghost use Rattle.expand_types.specs.View.{definition_in, options_view, scope_view, word_view};
ghost use Rattle.expand_contexts.specs.View.{made_view};

use crate::active::made_or;
use ctx_process::{Flags, process};
use ctx_types::{ActiveContext, TermDef};
use expand_types::{Options, PartStop, Scope, has_key, is_alone};
use ld_text::Text;
use ld_tree::{Members, Tree};
use std::alloc::Global;

/// The previous context of one, where it has one.
pub(crate) fn previous_or(context: &ActiveContext) -> &ActiveContext
    ensures { context_view result.now ≡ contexts.previous_or (context_view context.now) }
{
    match &context.previous {
        None => context,
        Some(previous) => previous.get(),
    }
}

/// The active context, or the previous one where it is left.
pub(crate) fn left(leaves: bool, context: &ActiveContext) -> &ActiveContext
    ensures { context_view result.now ≡ contexts.left leaves (context_view context.now) }
{
    if leaves {
        previous_or(context)
    } else {
        context
    }
}

/// Whether a map leaves the active context for its previous one. A context without a previous one is left by none, so that such a map's
/// keys aren't looked at.
pub(crate) fn leaves(members: &Members, scope: &Scope<'_>) -> bool
    ensures { contexts.left result (context_view scope.now.context.now) ≡ contexts.left (contexts.is_left members.now (scope_view scope.now)) (context_view scope.now.context.now) }
{
    match &scope.context.previous {
        None => false,
        Some(_) => is_left(members, scope),
    }
}

#[tactic(auto, unfolding(expand_model::specs::Contexts::is_left))]
fn is_left(members: &Members, scope: &Scope<'_>) -> bool
    ensures { result ≡ contexts.is_left members.now (scope_view scope.now) }
{
    !scope.from_map
        && !has_key(scope.context, "@value", members)
        && !is_alone(scope.context, "@id", members)
}

/// Whether a definition has a scoped context.
pub(crate) fn has_scoped(definition: Option<&TermDef>) -> bool
    ensures { result ≡ is_some (contexts.scoped_of (definition_in definition.entry)) }
{
    match definition {
        None => false,
        Some(definition) => definition.local.is_some(),
    }
}

/// What a property's scoped context and a map's own `@context` make of the active context, or of the one that it is left for; nothing
/// where there is neither.
#[tactic(auto, unfolding(expand_model::specs::Contexts::in_map, expand_model::specs::Contexts::in_property))]
pub(crate) fn made_in_map(
    alloc: Global,
    options: &Options<'_>,
    scope: &Scope<'_>,
    leaves: bool,
    local: Option<&Tree>,
) -> Result<Option<ActiveContext>, PartStop>
    ensures { Answers result (λ m. made_view m (contexts.left leaves (context_view scope.now.context.now))) (contexts.in_map (options_view options.now) (scope_view scope.now) leaves (tree_view local.entry)) }
{
    let start = left(leaves, scope.context);
    let scoped = by_scoped(alloc, options, true, true, scope.definition(), start)?;
    embedded(alloc, options, local, start, scoped)
}

/// What a map's own `@context` makes of what the steps before it made of a context.
fn embedded(
    alloc: Global,
    options: &Options<'_>,
    local: Option<&Tree>,
    start: &ActiveContext,
    made: Option<ActiveContext>,
) -> Result<Option<ActiveContext>, PartStop>
    ensures { Answers result (λ m. made_view m (context_view start.now)) (contexts.embedded (options_view options.now) (tree_view local.entry) (made_view made (context_view start.now))) }
{
    match local {
        None => Ok(made),
        Some(local) => {
            let context = made_or(&made, start);
            let made = processed(alloc, options, false, true, options.base, local, context)?;
            Ok(Some(made))
        }
    }
}

/// What the scoped context of a definition makes of a context; nothing where there is none.
pub(crate) fn by_scoped(
    alloc: Global,
    options: &Options<'_>,
    overrides: bool,
    propagates: bool,
    definition: Option<&TermDef>,
    context: &ActiveContext,
) -> Result<Option<ActiveContext>, PartStop>
    ensures { Answers result (λ m. made_view m (context_view context.now)) (contexts.by_scoped (options_view options.now) overrides propagates (contexts.scoped_of (definition_in definition.entry)) (context_view context.now)) }
{
    let Some(definition) = definition else {
        return Ok(None);
    };
    match &definition.local {
        None => Ok(None),
        Some(local) => {
            let base = definition.base.as_ref();
            let made = processed(alloc, options, overrides, propagates, base, local, context)?;
            Ok(Some(made))
        }
    }
}

/// Context processing of a local context with this base URL (JSON-LD 1.1 API, section 4.1.2).
#[tactic(auto, unfolding(expand_model::specs::Contexts::processed))]
fn processed(
    alloc: Global,
    options: &Options<'_>,
    overrides: bool,
    propagates: bool,
    base: Option<&Text>,
    local: &Tree,
    context: &ActiveContext,
) -> Result<ActiveContext, PartStop>
    ensures { Answers result context_view (contexts.processed (options_view options.now) overrides propagates (word_view base.entry) (view local.now) (context_view context.now)) }
{
    let flags = Flags {
        override_protected: overrides,
        propagate: propagates,
        validate_scoped: true,
    };
    match process(alloc, context, local, base, options.store, flags) {
        Ok(made) => Ok(made),
        Err(stop) => Err(PartStop::from(stop)),
    }
}
