// The parts of expansion that expand nothing, each with the place of its error. A place is made only where there is an error.
ghost use Rattle.std.specs.Prelude.{◌≡◌, [], Err};
ghost use Rattle.ld_model.specs.Tree.{Pairs};
ghost use Rattle.ld_tree.specs.View.{view};
ghost use Rattle.ctx_types.specs.ContextView.{context_view};
ghost use Rattle.expand_model.specs.Scope.{in_key};
ghost use Rattle.expand_model.specs.Indexes.{index_under};
ghost use Rattle.expand_model.specs.Rules as rules;
ghost use Rattle.expand_types.specs.Answers as part;
ghost use Rattle.expand_types.specs.View.{definition_in, options_view, scope_view, trail_view};
ghost use Rattle.expand_contexts.specs.Memo.{MayRecall};
ghost use Rattle.expand_contexts.specs.View.{active_view, entered_view};
ghost use Rattle.tree_expand.specs.Outcomes.{ComesTo, IsAt, IsStopAt, Refuses};
ghost use Rattle.tree_expand.specs.View.{at_view, inside_view};

use crate::at::{At, Inside};
use crate::stop::ExpandStop;
use case_tables::Code;
use ctx_types::{ActiveContext, TermDef};
use expand_contexts::{Active, Entered, Memo, enter, index_context, scalar_context};
use expand_parts::{Draft, add, add_index, begin, finish, has_lists, scalar_value, tell};
use expand_types::{Name, Options, PartStop, Scope, Trail, has_key, is_top, place_of};
use ld_tree::{Members, Tree, Trees};
use std::alloc::Global;

/// What stops a part stops expansion, with the place at the end of the way.
fn located(alloc: Global, trail: &Trail<'_>, stop: PartStop) -> ExpandStop
    ensures { IsStopAt (trail_view trail.now) stop result }
{
    match stop {
        PartStop::OutOfMemory => ExpandStop::OutOfMemory,
        PartStop::Refused(code) => match place_of(alloc, trail) {
            Ok(place) => ExpandStop::Refused { code, place },
            Err(_) => ExpandStop::OutOfMemory,
        },
    }
}

/// The outcome of a part, whose error is at the end of the way.
fn at_end<T>(
    alloc: Global,
    trail: &Trail<'_>,
    outcome: Result<T, PartStop>,
) -> Result<T, ExpandStop>
    ensures { IsAt (trail_view trail.now) outcome result }
{
    match outcome {
        Ok(value) => Ok(value),
        Err(stop) => Err(located(alloc, trail, stop)),
    }
}

/// A scalar.
pub(crate) fn scalar(
    alloc: Global,
    options: &Options<'_>,
    at: &At<'_>,
    memo: &mut Memo<'_>,
    value: &Tree,
) -> Result<Tree, ExpandStop>
    requires { MayRecall (options_view options.now) (scope_view at.now.scope) memo.old }
    ensures recalls { MayRecall (options_view options.now) (scope_view at.now.scope) memo.new }
    ensures value { ComesTo result view (rules.scalar_at (options_view options.now) (view value.now) (at_view at.now)) }
{
    let outcome = scalar_in(alloc, options, &at.scope, memo, value);
    at_end(alloc, at.trail, outcome)
}

#[tactic(auto, unfolding(expand_model::specs::Rules::scalar))]
fn scalar_in(
    alloc: Global,
    options: &Options<'_>,
    scope: &Scope<'_>,
    memo: &mut Memo<'_>,
    value: &Tree,
) -> Result<Tree, PartStop>
    requires { MayRecall (options_view options.now) (scope_view scope.now) memo.old }
    ensures recalls { MayRecall (options_view options.now) (scope_view scope.now) memo.new }
    ensures value { part.Answers result view (rules.scalar (options_view options.now) (view value.now) (scope_view scope.now)) }
{
    let Some(property) = scope.property else {
        return Ok(Tree::Null);
    };
    if is_top(Some(property)) {
        return Ok(Tree::Null);
    }
    let active = scalar_context(alloc, options, scope, memo)?;
    match scalar_value(alloc, active.get(), property, value)? {
        None => Ok(Tree::Null),
        Some(value) => Ok(value),
    }
}

/// An empty list with room for that many items where memory allows it.
pub(crate) fn room_for(alloc: Global, items: usize) -> Trees
    ensures { result ≡ [] }
{
    match Trees::with_capacity(alloc, items) {
        Ok(trees) => trees,
        Err(_) => Trees::new(alloc),
    }
}

/// The contexts of a map. An error is at the map.
pub(crate) fn entered<'s, 'x>(
    alloc: Global,
    options: &Options<'_>,
    at: &At<'s>,
    memo: &mut Memo<'x>,
    members: &'x Members,
) -> Result<Entered<'s>, ExpandStop>
    requires { MayRecall (options_view options.now) (scope_view at.now.scope) memo.old }
    ensures recalls { MayRecall (options_view options.now) (scope_view at.now.scope) memo.new }
    ensures entered { ComesTo result (λ e. record { scope = entered_view e; place = (at_view at.now).place })
        (rules.entered_at (options_view options.now) members.now (at_view at.now)) }
{
    let outcome = enter(alloc, options, &at.scope, memo, members);
    at_end(alloc, at.trail, outcome)
}

/// What a map comes to. An error is at the map.
pub(crate) fn finished(alloc: Global, at: &At<'_>, made: Draft) -> Result<Tree, ExpandStop>
    ensures { ComesTo result view (rules.finished_at (at_view at.now) made) }
{
    let outcome = finish(alloc, made, at.scope.property);
    at_end(alloc, at.trail, outcome)
}

/// Whether an entry may stand in the map. An error is at the entry, as it is for all parts below that tell nothing else.
pub(crate) fn begun<'x>(
    alloc: Global,
    inside: &Inside<'x>,
    key: &'x str,
    name: &Name,
    made: &Draft,
) -> Result<(), ExpandStop>
    ensures { ComesTo result (λ x. x) (rules.begun_at name.now key.now (inside_view inside.now) made.now) }
{
    let outcome = begin(inside.scope.property, name, made);
    at_end(alloc, &Trail::InKey(inside.trail, key), outcome)
}

/// An entry whose value isn't expanded.
pub(crate) fn told<'x>(
    alloc: Global,
    inside: &Inside<'x>,
    key: &'x str,
    definition: Option<&TermDef>,
    name: &Name,
    value: &Tree,
    made: Draft,
) -> Result<Draft, ExpandStop>
    ensures { ComesTo result (λ d. d) (rules.told_at name.now (definition_in definition.entry) key.now (view value.now) (inside_view inside.now) made) }
{
    let outcome = tell(alloc, &inside.scope, definition, name, value, made);
    at_end(alloc, &Trail::InKey(inside.trail, key), outcome)
}

/// The outcome of an entry's value, added.
pub(crate) fn added<'x>(
    alloc: Global,
    inside: &Inside<'x>,
    key: &'x str,
    definition: Option<&TermDef>,
    name: Name,
    outcome: Tree,
    made: Draft,
) -> Result<Draft, ExpandStop>
    ensures { ComesTo result (λ d. d) (rules.added_at name (definition_in definition.entry) key.now (view outcome) (inside_view inside.now) made) }
{
    let outcome = add(alloc, definition, name, outcome, made);
    at_end(alloc, &Trail::InKey(inside.trail, key), outcome)
}

/// The context of a value at an index. An error is at the map that has the property.
pub(crate) fn index_active<'s>(
    alloc: Global,
    options: &Options<'_>,
    inside: &Inside<'s>,
    key: &'s str,
    index: &str,
) -> Result<Active<'s>, ExpandStop>
    ensures { ComesTo result (λ c. record { scope = index_under (active_view c) key.now; place = in_key index.now (in_key key.now (inside_view inside.now).place) })
        (rules.index_at (options_view options.now) index.now key.now (inside_view inside.now)) }
{
    let context = inside.scope.context;
    let outcome = index_context(alloc, options, context.terms.get(key), index, context);
    at_end(alloc, inside.trail, outcome)
}

/// What a value at an index is expanded with, in the context that was made for it.
pub(crate) fn index_scope<'a>(context: &'a ActiveContext, key: &'a str) -> Scope<'a>
    ensures { scope_view result ≡ index_under (context_view context.now) key.now }
{
    Scope {
        context,
        property: Some(key),
        from_map: true,
    }
}

/// The items so far, and those that a value at an index came to, which was expanded with `at`.
pub(crate) fn indexed<'x>(
    alloc: Global,
    inside: &Inside<'x>,
    key: &'x str,
    index: &str,
    value: &Tree,
    at: &At<'_>,
    outcome: Tree,
    out: Trees,
) -> Result<Trees, ExpandStop>
    ensures { ComesTo result (λ ts. ts) (rules.indexed_at index.now key.now (view value.now) (view outcome) (at_view at.now) (inside_view inside.now) out) }
{
    let context = inside.scope.context;
    let definition = context.terms.get(key);
    let lists = has_lists(&at.scope);
    let outcome = add_index(
        alloc, context, definition, lists, index, value, outcome, out,
    );
    at_end(alloc, &Trail::InKey(inside.trail, key), outcome)
}

/// Whether a map may be the value of a nest.
pub(crate) fn nestable<'x>(
    alloc: Global,
    inside: &Inside<'x>,
    key: &'x str,
    members: &Members,
) -> Result<(), ExpandStop>
    ensures { ComesTo result (λ x. x) (rules.nestable members.now key.now (inside_view inside.now)) }
{
    if has_key(inside.scope.context, "@value", members) {
        return Err(not_nestable(alloc, inside, key));
    }
    Ok(())
}

/// The error of what may not be the value of a nest.
pub(crate) fn not_nestable<'x>(alloc: Global, inside: &Inside<'x>, key: &'x str) -> ExpandStop
    ensures { Refuses {Y = Pairs} result (Err (rules.not_nestable key.now (inside_view inside.now))) }
{
    located(
        alloc,
        &Trail::InKey(inside.trail, key),
        PartStop::Refused(Code::InvalidNestValue),
    )
}
