// Entries of a whole map.
ghost use Rattle.std.specs.Prelude.{◌≡◌, [], ◌∷◌, ◌++◌, IfOk, OnOk};
ghost use Rattle.std.specs.Option.{option_map, option_map_or};
ghost use Rattle.ld_model.specs.Tree as model;
ghost use Rattle.ld_model.specs.Tree.{array, member_at, put, trees_of};
ghost use Rattle.ld_tree.specs.View.{view};
ghost use Rattle.expand_model.specs.Scope as scope;
ghost use Rattle.expand_model.specs.Values as values;

use crate::lists::{join, one_item, values_of};
use ld_text::Text;
use ld_tree::{Members, Tree, Trees};
use std::alloc::{AllocError, Global};

/// Whether a map has this key.
pub fn has(members: &Members, key: &str) -> bool
    ensures { result ≡ scope.has key.now members.now }
{
    members.get(key).is_some()
}

/// Takes the value of a key, for which another one is put afterwards; None where there is no such key.
pub(crate) fn taken(members: &mut Members, key: &str) -> Option<Tree>
    ensures value { option_map view result ≡ member_at key.now members.old }
    ensures left { (t : model.Tree) → put key.now t members.new ≡ put key.now t members.old }
{
    members.take(key)
}

/// Takes the values of a key, for which others are put afterwards.
pub fn values_taken(alloc: Global, members: &mut Members, key: &str) -> Result<Trees, AllocError>
    ensures values { IfOk result (λ ts. ts ≡ scope.values_at key.now members.old) }
    ensures left { (t : model.Tree) → put key.now t members.new ≡ put key.now t members.old }
{
    match taken(members, key) {
        None => Ok(Trees::new(alloc)),
        Some(value) => values_of(alloc, value),
    }
}

/// Puts a text at a key, where there is one.
#[tactic(auto, unfolding(ld_model::specs::Tree::put))]
pub fn put_text(
    alloc: Global,
    members: &mut Members,
    key: &str,
    text: Option<Text>,
) -> Result<(), AllocError>
    ensures { OnOk result (members.new ≡ values.put_text key.now text members.old) }
{
    match text {
        None => Ok(()),
        Some(text) => members.put(alloc, key, Tree::Str(text)),
    }
}

/// Adds values to the entry of a key, which is an array from then on. Those that stand there are moved.
#[tactic(auto, unfolding(expand_model::specs::Values::add_all, ld_model::specs::Tree::put))]
pub fn add_all(
    alloc: Global,
    members: &mut Members,
    key: Text,
    more: Trees,
) -> Result<(), AllocError>
    ensures { OnOk result (members.new ≡ values.add_all key more members.old) }
{
    let held = values_taken(alloc, members, key.as_str())?;
    let all = join(held, more)?;
    members.set(key, Tree::Items(all))?;
    Ok(())
}

/// Adds a value to an entry of a map (the standard's Add Value): each item of an array in the same way, so an array in it gives its items,
/// too; and any other value itself. With `as_array` the entry is an array from then on; without, it is the value itself until a second
/// one comes.
#[tactic(auto, unfolding(expand_model::specs::Values::add_value))]
pub fn add_value(
    alloc: Global,
    map: Members,
    key: &Text,
    value: Tree,
    as_array: bool,
) -> Result<Members, AllocError>
    ensures { IfOk result (λ ms. ms ≡ values.add_value key.now (view value) as_array map) }
{
    let mut map = map;
    let added = added_values(alloc, value)?;
    if as_array {
        add_all(alloc, &mut map, key.copy()?, added)?;
        return Ok(map);
    }
    add_each(alloc, &mut map, key, added)?;
    Ok(map)
}

/// The values that are added for a value: for an array those of each of its items, and any other value itself.
fn added_values(alloc: Global, value: Tree) -> Result<Trees, AllocError>
    ensures { IfOk result (λ ts. ts ≡ values.added_values (view value)) }
{
    let mut added = Trees::new(alloc);
    gather(value, &mut added)?;
    Ok(added)
}

/// Puts the values that are added for a value behind others.
fn gather(value: Tree, added: &mut Trees) -> Result<(), AllocError>
    ensures { OnOk result (added.new ≡ added.old ++ values.added_values (view value)) }
{
    match value {
        Tree::Items(items) => {
            for item in items {
                gather(item, added)?;
            }
            Ok(())
        }
        other => added.push(other),
    }
}

fn add_each(alloc: Global, map: &mut Members, key: &Text, added: Trees) -> Result<(), AllocError>
    ensures { OnOk result (map.new ≡ values.add_each key.now added map.old) }
{
    for value in added {
        add_one(alloc, map, key, value)?;
    }
    Ok(())
}

#[tactic(auto, unfolding(ld_model::specs::Tree::put))]
fn add_one(alloc: Global, map: &mut Members, key: &Text, value: Tree) -> Result<(), AllocError>
    ensures { OnOk result (map.new ≡ values.add_one key.now (view value) map.old) }
{
    let held = taken(map, key.as_str());
    let all = beside(alloc, held, value)?;
    map.set(key.copy()?, all)?;
    Ok(())
}

/// A value beside what an entry has: the value itself where there is none, and else an array.
fn beside(alloc: Global, held: Option<Tree>, value: Tree) -> Result<Tree, AllocError>
    ensures { IfOk result (λ t. view t ≡ option_map_or (λ v. array (trees_of (scope.values_of v ++ view value ∷ []))) (option_map view held) (view value)) }
{
    match held {
        None => Ok(value),
        Some(held) => {
            let values = values_of(alloc, held)?;
            let all = join(values, one_item(alloc, value)?)?;
            Ok(Tree::Items(all))
        }
    }
}
