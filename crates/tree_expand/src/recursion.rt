// The recursion of expansion (JSON-LD 1.1 API, section 5.1.2). Each value is lent, and so is the way to it; the map that is being made goes
// in and out.
ghost use Rattle.std.specs.Prelude.{◌≡◌, ◌+◌, ◌<◌, ◌^◌, [], length};
ghost use Rattle.ld_model.specs.Tree.{members_of, trees_of};
ghost use Rattle.ld_tree.specs.View.{trees_view, view};
ghost use Rattle.expand_model.specs.Over as over;
ghost use Rattle.expand_types.specs.View.{definition_in, map_scope_view, options_view, scope_view};
ghost use Rattle.expand_contexts.specs.Memo.{MayRecall};
ghost use Rattle.tree_expand.specs.Outcomes.{Gives};
ghost use Rattle.tree_expand.specs.View.{at_view, inside_view};
ghost use Rattle.tree_expand.specs.Walked.{walked};

use crate::at::{At, Inside};
use crate::parts::{
    added, begun, entered, finished, index_active, index_scope, indexed, nestable, not_nestable,
    room_for, scalar, told,
};
use crate::ranges::{Asked, Given, Ranges};
use crate::settling::settle;
use crate::stop::ExpandStop;
use ctx_types::TermDef;
use expand_contexts::{Memo, lent_scope};
use expand_parts::{Draft, has_lists, join, splice};
use expand_types::{MapScope, Name, Options, Task, Trail, expands_to, name_of, task_of, under};
use ld_tree::{Members, Tree, Trees};
use std::alloc::Global;

/// Expands a value. What contexts make is remembered for the value alone.
///
/// # Errors
///
/// - `Refused` where expansion fails: the first error in ascending order of keys, or the first one that `ranges` answers.
/// - `OutOfMemory` where memory is refused.
#[cycle(expansion)]
pub(crate) fn element<'x, R: Ranges>(
    alloc: Global,
    options: &Options<'_>,
    ranges: &mut R,
    at: &At<'_>,
    value: &'x Tree,
) -> Result<Tree, ExpandStop>
    ensures { Gives result view ranges.new
        (over.element_over (options_view options.now) R.asked R.settles (view value.now) (at_view at.now) ranges.old) }
{
    let mut memo = Memo::new();
    remembered(alloc, options, ranges, at, &mut memo, value)
}

/// Expands a value, with what the contexts of the items before it made.
#[cycle(expansion)]
fn remembered<'x, R: Ranges>(
    alloc: Global,
    options: &Options<'_>,
    ranges: &mut R,
    at: &At<'_>,
    memo: &mut Memo<'x>,
    value: &'x Tree,
) -> Result<Tree, ExpandStop>
    requires { MayRecall (options_view options.now) (scope_view at.now.scope) memo.old }
    ensures recalls { MayRecall (options_view options.now) (scope_view at.now.scope) memo.new }
    ensures value { Gives result view ranges.new
        (over.element_over (options_view options.now) R.asked R.settles (view value.now) (at_view at.now) ranges.old) }
{
    match value {
        Tree::Null => Ok(Tree::Null),
        Tree::Items(trees) => {
            let out = items(alloc, options, ranges, at, trees.as_slice(), 0)?;
            Ok(Tree::Items(out))
        }
        Tree::Map(members) => node(alloc, options, ranges, at, memo, members),
        _ => scalar(alloc, options, at, memo, &*value),
    }
}

/// Expands items of an array, the first of which has the number `first` (step 5).
#[cycle(expansion)]
pub(crate) fn items<R: Ranges>(
    alloc: Global,
    options: &Options<'_>,
    ranges: &mut R,
    at: &At<'_>,
    items: &[Tree],
    first: u64,
) -> Result<Trees, ExpandStop>
    requires { first + length items.now < 2 ^ 64 }
    ensures { Gives result (λ ts. ts) ranges.new
        (over.items_over (options_view options.now) R.asked R.settles (trees_of (trees_view items.now)) 0 first (at_view at.now) [] ranges.old) }
{
    let mut out = room_for(alloc, items.len());
    let mut more = 0usize;
    let mut memo = Memo::new();
    for (place, item) in items.iter().enumerate() {
        let number = first + place as u64;
        let turn = turn(
            alloc,
            options,
            ranges,
            at,
            &mut memo,
            &items[place..],
            item,
            number,
            more,
            out,
        )?;
        out = turn.0;
        more = turn.1;
    }
    Ok(out)
}

/// Takes an item: passes over it, where the range that it is in was answered, or does with it what `ranges` answers. Gives the items so far, and
/// how many items behind it are passed over.
#[cycle(expansion)]
fn turn<'x, R: Ranges>(
    alloc: Global,
    options: &Options<'_>,
    ranges: &mut R,
    at: &At<'_>,
    memo: &mut Memo<'x>,
    rest: &[Tree],
    item: &'x Tree,
    number: u64,
    more: usize,
    out: Trees,
) -> Result<(Trees, usize), ExpandStop>
    requires { MayRecall (options_view options.now) (scope_view at.now.scope) memo.old }
    ensures recalls { MayRecall (options_view options.now) (scope_view at.now.scope) memo.new }
    ensures value { Gives result (λ p. (p.0, p.1)) ranges.new
        (over.turn_over (options_view options.now) R.asked R.settles (trees_of (trees_view rest.now)) (view item.now) more number (at_view at.now) out ranges.old) }
{
    if more > 0 {
        return Ok((out, more - 1));
    }
    match ranges.ask(alloc, at, rest, number)? {
        Asked::Expands => {
            let out = one(alloc, options, ranges, at, memo, item, number, out)?;
            Ok((out, 0))
        }
        Asked::Tries(mark) => tried(
            alloc, options, ranges, at, memo, rest, item, number, mark, out,
        ),
        Asked::Answers(given) => {
            let Given { more, outcome } = given;
            match outcome {
                Ok(trees) => Ok((join(out, trees)?, more)),
                Err(refusal) => Err(ExpandStop::from(refusal)),
            }
        }
    }
}

/// Expands an item.
#[cycle(expansion)]
fn one<'x, R: Ranges>(
    alloc: Global,
    options: &Options<'_>,
    ranges: &mut R,
    at: &At<'_>,
    memo: &mut Memo<'x>,
    item: &'x Tree,
    number: u64,
    out: Trees,
) -> Result<Trees, ExpandStop>
    requires { MayRecall (options_view options.now) (scope_view at.now.scope) memo.old }
    ensures recalls { MayRecall (options_view options.now) (scope_view at.now.scope) memo.new }
    ensures value { Gives result (λ ts. ts) ranges.new
        (over.one_over (options_view options.now) R.asked R.settles (view item.now) number (at_view at.now) out ranges.old) }
{
    let trail = Trail::InItem(at.trail, number);
    let below = At {
        scope: at.scope,
        trail: &trail,
    };
    let outcome = remembered(alloc, options, ranges, &below, memo, item)?;
    Ok(splice(alloc, has_lists(&at.scope), out, outcome)?)
}

/// Tries an item.
#[cycle(expansion)]
fn tried<'x, R: Ranges>(
    alloc: Global,
    options: &Options<'_>,
    ranges: &mut R,
    at: &At<'_>,
    memo: &mut Memo<'x>,
    rest: &[Tree],
    item: &'x Tree,
    number: u64,
    mark: usize,
    out: Trees,
) -> Result<(Trees, usize), ExpandStop>
    requires { MayRecall (options_view options.now) (scope_view at.now.scope) memo.old }
    ensures recalls { MayRecall (options_view options.now) (scope_view at.now.scope) memo.new }
    ensures value { Gives result (λ p. (p.0, p.1)) ranges.new
        (over.tried_over (options_view options.now) R.asked R.settles (trees_of (trees_view rest.now)) (view item.now) mark number (at_view at.now) out ranges.old) }
{
    let trail = Trail::InItem(at.trail, number);
    let below = At {
        scope: at.scope,
        trail: &trail,
    };
    let outcome = remembered(alloc, options, ranges, &below, memo, item);
    settle(alloc, ranges, at, rest, number, mark, out, outcome)
}

/// Expands a map (steps 7 to 20).
#[cycle(expansion)]
#[tactic(auto, unfolding(expand_model::specs::Over::node))]
fn node<'x, R: Ranges>(
    alloc: Global,
    options: &Options<'_>,
    ranges: &mut R,
    at: &At<'_>,
    memo: &mut Memo<'x>,
    members: &'x Members,
) -> Result<Tree, ExpandStop>
    requires { MayRecall (options_view options.now) (scope_view at.now.scope) memo.old }
    ensures recalls { MayRecall (options_view options.now) (scope_view at.now.scope) memo.new }
    ensures value { Gives result view ranges.new
        (over.node (options_view options.now) (over.walk_over (options_view options.now) R.asked R.settles (members_of members.now) []) members.now (at_view at.now) ranges.old) }
{
    if let Some(scope) = lent_scope(&at.scope, members) {
        return mapped(alloc, options, ranges, at, &scope, members);
    }
    let entered = entered(alloc, options, at, memo, members)?;
    let scope = entered.scope();
    mapped(alloc, options, ranges, at, &scope, members)
}

/// Expands a map whose contexts are known.
#[cycle(expansion)]
fn mapped<'x, R: Ranges>(
    alloc: Global,
    options: &Options<'_>,
    ranges: &mut R,
    at: &At<'_>,
    scope: &MapScope<'_>,
    members: &'x Members,
) -> Result<Tree, ExpandStop>
    ensures { Gives result view ranges.new
        (walked (at_view at.now) (over.walk_over (options_view options.now) R.asked R.settles (members_of members.now) [] (record { scope = map_scope_view scope.now; place = (at_view at.now).place }) ranges.old)) }
{
    let inside = Inside {
        scope: *scope,
        trail: at.trail,
    };
    let made = walk(
        alloc,
        options,
        ranges,
        &inside,
        &*members,
        Draft::new(alloc, members.len()),
    )?;
    finished(alloc, at, made)
}

/// Treats the entries of a map, and then its nests.
#[cycle(expansion)]
fn walk<'x, R: Ranges>(
    alloc: Global,
    options: &Options<'_>,
    ranges: &mut R,
    inside: &Inside<'x>,
    members: &'x Members,
    made: Draft,
) -> Result<Draft, ExpandStop>
    ensures { Gives result (λ d. d) ranges.new
        (over.walk_over (options_view options.now) R.asked R.settles (members_of members.now) made (inside_view inside.now) ranges.old) }
{
    let made = entries(alloc, options, ranges, inside, members, made)?;
    nests(alloc, options, ranges, inside, members, made)
}

/// Treats the entries of a map, in ascending order of their keys (step 13).
#[cycle(expansion)]
fn entries<'x, R: Ranges>(
    alloc: Global,
    options: &Options<'_>,
    ranges: &mut R,
    inside: &Inside<'x>,
    members: &'x Members,
    made: Draft,
) -> Result<Draft, ExpandStop>
    ensures { Gives result (λ d. d) ranges.new
        (over.entries_over (options_view options.now) R.asked R.settles (members_of members.now) (inside_view inside.now) made ranges.old) }
{
    let mut made = made;
    for (key, value) in members {
        made = entry(alloc, options, ranges, inside, key.as_str(), value, made)?;
    }
    Ok(made)
}

/// Treats an entry.
#[cycle(expansion)]
#[tactic(auto, unfolding(expand_model::specs::Over::entry_over))]
fn entry<'x, R: Ranges>(
    alloc: Global,
    options: &Options<'_>,
    ranges: &mut R,
    inside: &Inside<'x>,
    key: &'x str,
    value: &'x Tree,
    made: Draft,
) -> Result<Draft, ExpandStop>
    ensures { Gives result (λ d. d) ranges.new
        (over.entry_over (options_view options.now)
        (over.element_over (options_view options.now) R.asked R.settles (view value.now))
        (over.indexes_over (options_view options.now) R.asked R.settles (view value.now) key.now)
        key.now (view value.now) (inside_view inside.now) made ranges.old) }
{
    let context = inside.scope.context;
    let name = name_of(alloc, context, &*key)?;
    let definition = context.terms.get(&*key);
    match task_of(inside.scope.property, definition, &name, &*value) {
        Task::Tells => told(alloc, &*inside, &*key, definition, &name, &*value, made),
        Task::Expands => value_taken(
            alloc, options, ranges, inside, key, definition, name, value, made,
        ),
        Task::Indexes => indexes_taken(
            alloc, options, ranges, inside, key, definition, name, value, made,
        ),
    }
}

/// Expands the value of an entry, and adds what it comes to.
#[cycle(expansion)]
fn value_taken<'x, R: Ranges>(
    alloc: Global,
    options: &Options<'_>,
    ranges: &mut R,
    inside: &Inside<'x>,
    key: &'x str,
    definition: Option<&TermDef>,
    name: Name,
    value: &'x Tree,
    made: Draft,
) -> Result<Draft, ExpandStop>
    ensures { Gives result (λ d. d) ranges.new
        (over.value_over (options_view options.now)
        (over.element_over (options_view options.now) R.asked R.settles (view value.now))
        name (definition_in definition.entry) key.now (inside_view inside.now) made ranges.old) }
{
    begun(alloc, &*inside, &*key, &name, &made)?;
    let trail = Trail::InKey(inside.trail, key);
    let below = At {
        scope: under(&name, &*key, &inside.scope),
        trail: &trail,
    };
    let outcome = element(alloc, options, ranges, &below, &*value)?;
    added(alloc, &*inside, &*key, definition, name, outcome, made)
}

/// Expands the values of a map of indexes, and adds the items that they come to.
#[cycle(expansion)]
fn indexes_taken<'x, R: Ranges>(
    alloc: Global,
    options: &Options<'_>,
    ranges: &mut R,
    inside: &Inside<'x>,
    key: &'x str,
    definition: Option<&TermDef>,
    name: Name,
    value: &'x Tree,
    made: Draft,
) -> Result<Draft, ExpandStop>
    ensures { Gives result (λ d. d) ranges.new
        (over.indexes_added (options_view options.now)
        (over.indexes_over (options_view options.now) R.asked R.settles (view value.now) key.now)
        name (definition_in definition.entry) key.now (inside_view inside.now) made ranges.old) }
{
    let out = indexes(alloc, options, ranges, inside, key, value)?;
    added(
        alloc,
        &*inside,
        &*key,
        definition,
        name,
        Tree::Items(out),
        made,
    )
}

/// Expands the values of a map of indexes (step 13.8). A value that is no map has none.
#[cycle(expansion)]
fn indexes<'x, R: Ranges>(
    alloc: Global,
    options: &Options<'_>,
    ranges: &mut R,
    inside: &Inside<'x>,
    key: &'x str,
    value: &'x Tree,
) -> Result<Trees, ExpandStop>
    ensures { Gives result (λ ts. ts) ranges.new
        (over.indexes_over (options_view options.now) R.asked R.settles (view value.now) key.now (inside_view inside.now) [] ranges.old) }
{
    match value {
        Tree::Map(members) => index_entries(alloc, options, ranges, inside, key, members),
        _ => Ok(Trees::new(alloc)),
    }
}

/// Expands the values at the indexes, in ascending order of the indexes.
#[cycle(expansion)]
fn index_entries<'x, R: Ranges>(
    alloc: Global,
    options: &Options<'_>,
    ranges: &mut R,
    inside: &Inside<'x>,
    key: &'x str,
    members: &'x Members,
) -> Result<Trees, ExpandStop>
    ensures { Gives result (λ ts. ts) ranges.new
        (over.index_entries_over (options_view options.now) R.asked R.settles (members_of members.now) key.now (inside_view inside.now) [] ranges.old) }
{
    let mut out = Trees::new(alloc);
    for (index, value) in members {
        out = index_entry(
            alloc,
            options,
            ranges,
            inside,
            key,
            index.as_str(),
            value,
            out,
        )?;
    }
    Ok(out)
}

/// Expands the value at an index.
#[cycle(expansion)]
fn index_entry<'x, R: Ranges>(
    alloc: Global,
    options: &Options<'_>,
    ranges: &mut R,
    inside: &Inside<'x>,
    key: &'x str,
    index: &'x str,
    value: &'x Tree,
    out: Trees,
) -> Result<Trees, ExpandStop>
    ensures { Gives result (λ ts. ts) ranges.new
        (over.index_entry_over (options_view options.now) R.asked R.settles (view value.now) index.now key.now (inside_view inside.now) out ranges.old) }
{
    let active = index_active(alloc, options, &*inside, &*key, &*index)?;
    let entry = Trail::InKey(inside.trail, key);
    let trail = Trail::InKey(&entry, index);
    let below = At {
        scope: index_scope(active.get(), &*key),
        trail: &trail,
    };
    let outcome = element(alloc, options, ranges, &below, &*value)?;
    indexed(
        alloc, &*inside, &*key, &*index, &*value, &below, outcome, out,
    )
}

/// Treats the nests of a map, in ascending order of their keys (step 14).
#[cycle(expansion)]
fn nests<'x, R: Ranges>(
    alloc: Global,
    options: &Options<'_>,
    ranges: &mut R,
    inside: &Inside<'x>,
    members: &'x Members,
    made: Draft,
) -> Result<Draft, ExpandStop>
    ensures { Gives result (λ d. d) ranges.new
        (over.nests_over (options_view options.now) R.asked R.settles (members_of members.now) (inside_view inside.now) made ranges.old) }
{
    let mut made = made;
    for (key, value) in members {
        made = nest(alloc, options, ranges, inside, key.as_str(), value, made)?;
    }
    Ok(made)
}

/// Treats an entry that may be a nest.
#[cycle(expansion)]
fn nest<'x, R: Ranges>(
    alloc: Global,
    options: &Options<'_>,
    ranges: &mut R,
    inside: &Inside<'x>,
    key: &'x str,
    value: &'x Tree,
    made: Draft,
) -> Result<Draft, ExpandStop>
    ensures { Gives result (λ d. d) ranges.new
        (over.nest_over (options_view options.now) R.asked R.settles key.now (view value.now) (inside_view inside.now) made ranges.old) }
{
    if !expands_to(inside.scope.context, "@nest", &*key) {
        return Ok(made);
    }
    nested(alloc, options, ranges, inside, key, value, made)
}

/// Treats a nest: its entries are entries of the map that has the nest.
#[cycle(expansion)]
fn nested<'x, R: Ranges>(
    alloc: Global,
    options: &Options<'_>,
    ranges: &mut R,
    inside: &Inside<'x>,
    key: &'x str,
    value: &'x Tree,
    made: Draft,
) -> Result<Draft, ExpandStop>
    ensures { Gives result (λ d. d) ranges.new
        (over.nested_over (options_view options.now) R.asked R.settles (view value.now) key.now (inside_view inside.now) made ranges.old) }
{
    match value {
        Tree::Null => Ok(made),
        Tree::Items(trees) => nest_items(
            alloc,
            options,
            ranges,
            inside,
            key,
            trees.as_slice(),
            made,
        ),
        Tree::Map(members) => {
            nestable(alloc, &*inside, &*key, members)?;
            let trail = Trail::InKey(inside.trail, key);
            let below = Inside {
                scope: inside.scope,
                trail: &trail,
            };
            walk(alloc, options, ranges, &below, &*members, made)
        }
        _ => Err(not_nestable(alloc, &*inside, &*key)),
    }
}

/// Treats the items of a nest.
#[cycle(expansion)]
fn nest_items<'x, R: Ranges>(
    alloc: Global,
    options: &Options<'_>,
    ranges: &mut R,
    inside: &Inside<'x>,
    key: &'x str,
    items: &'x [Tree],
    made: Draft,
) -> Result<Draft, ExpandStop>
    ensures { Gives result (λ d. d) ranges.new
        (over.nest_items_over (options_view options.now) R.asked R.settles (trees_of (trees_view items.now)) 0 key.now (inside_view inside.now) made ranges.old) }
{
    let mut made = made;
    for (number, item) in items.iter().enumerate() {
        made = nest_item(
            alloc,
            options,
            ranges,
            inside,
            key,
            number as u64,
            item,
            made,
        )?;
    }
    Ok(made)
}

/// Treats an item of a nest. An error is at the entry, as it is where the nest is a map.
#[cycle(expansion)]
fn nest_item<'x, R: Ranges>(
    alloc: Global,
    options: &Options<'_>,
    ranges: &mut R,
    inside: &Inside<'x>,
    key: &'x str,
    number: u64,
    item: &'x Tree,
    made: Draft,
) -> Result<Draft, ExpandStop>
    ensures { Gives result (λ d. d) ranges.new
        (over.nest_item_over (options_view options.now) R.asked R.settles (view item.now) number key.now (inside_view inside.now) made ranges.old) }
{
    match item {
        Tree::Map(members) => {
            nestable(alloc, &*inside, &*key, members)?;
            let entry = Trail::InKey(inside.trail, key);
            let trail = Trail::InItem(&entry, number);
            let below = Inside {
                scope: inside.scope,
                trail: &trail,
            };
            walk(alloc, options, ranges, &below, &*members, made)
        }
        _ => Err(not_nestable(alloc, &*inside, &*key)),
    }
}
