// The contexts of a map, of a scalar, and of the values at an index.
ghost use Rattle.std.specs.Prelude.{◌≡◌, IfSome, Ok};
ghost use Rattle.ctx_types.specs.ContextView.{context_view};
ghost use Rattle.expand_model.specs.Contexts as contexts;
ghost use Rattle.expand_model.specs.Indexes as indexes;
ghost use Rattle.expand_model.specs.Scope.{container_of, definition_of, Options as OptionsData};
ghost use Rattle.expand_types.specs.Answers.{Answers};
ghost use Rattle.expand_types.specs.View.{definition_in, map_scope_view, options_view, scope_view, word_view};
ghost use Rattle.expand_contexts.specs.Memo.{MayRecall};
ghost use Rattle.expand_contexts.specs.View.{active_view, entered_view};

use crate::active::{Active, made_or};
use crate::memo::{Memo, recall};
use crate::scoped::{by_scoped, has_scoped, leaves, previous_or};
use crate::typing::{json_unless_typed, typed};
use case_tables::Shape;
use ctx_types::{ActiveContext, TermDef};
use expand_types::{MapScope, Options, PartStop, Scope};
use ld_tree::Members;
use std::alloc::Global;

/// The contexts of a map.
pub struct Entered<'a> {
    /// The type-scoped context.
    pub types: Active<'a>,
    /// What type-scoped contexts made of it, where there are some.
    pub typed: Option<ActiveContext>,
    /// Whether the input type is `@json`.
    pub json: bool,
    /// The active property of the map.
    pub property: Option<&'a str>,
}

// By hand, so that what is proved of a caller sees one drop, and not one for each value of a context.
impl<'a> Drop for Entered<'a> {
    fn drop(self) {
        let Entered {
            types: _,
            typed: _,
            json: _,
            property: _,
        } = self;
    }
}

impl<'a> Entered<'a> {
    /// What the entries of the map are expanded with.
    pub fn scope(&self) -> MapScope<'_>
        ensures { map_scope_view result ≡ entered_view self.now }
    {
        MapScope {
            context: made_or(&self.typed, self.types.get()),
            types: self.types.get(),
            json: self.json,
            property: self.property,
        }
    }
}

/// What the entries of a map are expanded with (JSON-LD 1.1 API, section 5.1.2, steps 7 to 12).
///
/// A context that the last item of the array made in the same way is taken from the memo. Where no local context is processed no memory is
/// taken. Each key is expanded once, and once more where the active context has a previous one or types make a context.
///
/// # Errors
///
/// - `Refused` exactly where context processing of a local context is, but for want of memory.
/// - `OutOfMemory` where memory is refused, or a limit of context processing is reached.
pub fn enter<'s, 'x>(
    alloc: Global,
    options: &Options<'_>,
    scope: &Scope<'s>,
    memo: &mut Memo<'x>,
    members: &'x Members,
) -> Result<Entered<'s>, PartStop>
    requires { MayRecall (options_view options.now) (scope_view scope.now) memo.old }
    ensures recalls { MayRecall (options_view options.now) (scope_view scope.now) memo.new }
    ensures entered { Answers result entered_view (contexts.entered (options_view options.now) members.now (scope_view scope.now)) }
{
    let leaves = leaves(members, scope);
    let local = members.get("@context");
    let mut last = recall(alloc, options, scope, memo.last.take(), leaves, local)?;
    let types = last.context(alloc, scope)?;
    let typing = typed(alloc, options, types.get(), &mut last.typed, members)?;
    memo.keep(last);
    Ok(Entered {
        types,
        typed: typing.made,
        json: typing.json,
        property: scope.property,
    })
}

/// What the entries of a map are expanded with, where no step on the way to them makes a context: None where one may. It takes no memory.
pub fn lent_scope<'s>(scope: &Scope<'s>, members: &Members) -> Option<MapScope<'s>>
    ensures { (o : OptionsData) → IfSome result (λ m. contexts.entered o members.now (scope_view scope.now) ≡ Ok (map_scope_view m)) }
{
    if leaves(members, scope) {
        return None;
    }
    if has_scoped(scope.definition()) {
        return None;
    }
    let None = members.get("@context") else {
        return None;
    };
    let json = json_unless_typed(scope.context, members)?;
    Some(MapScope {
        context: scope.context,
        types: scope.context,
        json,
        property: scope.property,
    })
}

/// The context of a scalar under a property (JSON-LD 1.1 API, section 5.1.2, step 4.2). Its errors are those of [`enter`].
pub fn scalar_context<'s>(
    alloc: Global,
    options: &Options<'_>,
    scope: &Scope<'s>,
    memo: &mut Memo<'_>,
) -> Result<Active<'s>, PartStop>
    requires { MayRecall (options_view options.now) (scope_view scope.now) memo.old }
    ensures recalls { MayRecall (options_view options.now) (scope_view scope.now) memo.new }
    ensures context { Answers result active_view (contexts.in_property (options_view options.now)
        (definition_of (word_view scope.now.property) (context_view scope.now.context.now)) (context_view scope.now.context.now)) }
{
    if !has_scoped(scope.definition()) {
        return Ok(Active::Lent(scope.context));
    }
    let last = recall(alloc, options, scope, memo.last.take(), false, None)?;
    let context = last.context(alloc, scope)?;
    memo.keep(last);
    Ok(context)
}

/// The context of the values at an index, under a property with this definition (JSON-LD 1.1 API, section 5.1.2, steps 13.8.3.1 to 13.8.3.3). Its errors
/// are those of [`enter`].
#[tactic(auto, unfolding(expand_model::specs::Indexes::index_context))]
pub fn index_context<'s>(
    alloc: Global,
    options: &Options<'_>,
    definition: Option<&TermDef>,
    index: &str,
    context: &'s ActiveContext,
) -> Result<Active<'s>, PartStop>
    ensures { Answers result active_view (indexes.index_context (options_view options.now) (definition_in definition.entry) index.now (context_view context.now)) }
{
    let shape = container_of(definition);
    let start = map_context(&shape, context);
    if !shape.types {
        return Ok(Active::Lent(start));
    }
    match by_scoped(alloc, options, false, true, start.terms.get(index), start)? {
        None => Ok(Active::Lent(start)),
        Some(made) => Ok(Active::Own(made)),
    }
}

/// The container mapping of a definition; no word where there is none.
fn container_of(definition: Option<&TermDef>) -> Shape
    ensures { result ≡ container_of (definition_in definition.entry) }
{
    match definition {
        None => Shape::none(),
        Some(definition) => definition.container,
    }
}

/// The context of a map of indexes, ids or types.
fn map_context<'a>(shape: &Shape, context: &'a ActiveContext) -> &'a ActiveContext
    ensures { context_view result.now ≡ indexes.map_context shape.now (context_view context.now) }
{
    if shape.id || shape.types {
        previous_or(context)
    } else {
        context
    }
}
