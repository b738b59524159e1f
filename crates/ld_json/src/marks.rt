// Where the number 1.1 stands.
ghost use Rattle.std.specs.Prelude.{◌≡◌, IfOk};
ghost use Rattle.ld_model.specs.Tree.{trees_of, members_of};
ghost use Rattle.ld_tree.specs.View.{view};
ghost use Rattle.ld_json.specs.Marks as marks;

use crate::location::{Place, Step};
use ld_tree::{Members, Text, Tree, Trees};
use std::alloc::{AllocError, Global};

/// The first place, in the order of keys and items, where the number 1.1 stands elsewhere than as the value of a key
/// `@version`; None where there is none.
#[cycle(marks)]
pub(crate) fn misplaced(alloc: Global, tree: &Tree) -> Result<Option<Place>, AllocError>
    ensures { IfOk result (λ p. p ≡ marks.misplaced (view tree.now)) }
{
    match tree {
        Tree::OneOne => Ok(Some(Place::new(alloc))),
        Tree::Items(trees) => misplaced_items(alloc, trees),
        Tree::Map(members) => misplaced_members(alloc, members),
        _ => Ok(None),
    }
}

#[cycle(marks)]
fn misplaced_items(alloc: Global, trees: &Trees) -> Result<Option<Place>, AllocError>
    ensures { IfOk result (λ p. p ≡ marks.misplaced_items 0 (trees_of trees.now)) }
{
    for number in 0..trees.len() {
        let Some(tree) = trees.get(number) else {
            return Ok(None);
        };
        if let Some(place) = misplaced(alloc, tree)? {
            return Ok(Some(place.under(Step::Item(number as u64))?));
        }
    }
    Ok(None)
}

#[cycle(marks)]
fn misplaced_members(alloc: Global, members: &Members) -> Result<Option<Place>, AllocError>
    ensures { IfOk result (λ p. p ≡ marks.misplaced_members (members_of members.now)) }
{
    for (key, tree) in members {
        if let Some(place) = misplaced_member(alloc, key, tree)? {
            return Ok(Some(place));
        }
    }
    Ok(None)
}

#[cycle(marks)]
fn misplaced_member(alloc: Global, key: &Text, tree: &Tree) -> Result<Option<Place>, AllocError>
    ensures { IfOk result (λ p. p ≡ marks.misplaced_member key.now (view tree.now)) }
{
    if is_version(key, tree) {
        return Ok(None);
    }
    match misplaced(alloc, tree)? {
        Some(place) => Ok(Some(place.under(Step::Key(key.copy()?))?)),
        None => Ok(None),
    }
}

fn is_version(key: &Text, tree: &Tree) -> bool
    ensures { result ≡ marks.is_version key.now (view tree.now) }
{
    match tree {
        Tree::OneOne => key.as_str() == "@version",
        _ => false,
    }
}
