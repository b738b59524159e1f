// Items of a document, found again at their place.
ghost use Rattle.std.specs.Prelude.{◌≡◌, ◌+◌, IfOk, take};
ghost use Rattle.ld_model.specs.Tree.{same_trees, trees_of};
ghost use Rattle.ld_tree.specs.View.{trees_view};

use ld_json::{Place, Step};
use ld_tree::Tree;
use std::alloc::AllocError;

/// The items of the array at a place; none where no array is there.
pub(crate) fn items_at<'t>(root: &'t Tree, place: &Place) -> &'t [Tree] {
    items_below(root, place.as_slice())
}

/// The items of the array to which these steps lead.
fn items_below<'t>(tree: &'t Tree, steps: &[Step]) -> &'t [Tree] {
    match steps.split_first() {
        None => items_of(tree),
        Some((step, rest)) => match step_to(tree, step) {
            None => &[],
            Some(value) => items_below(value, rest),
        },
    }
}

fn items_of(tree: &Tree) -> &[Tree] {
    match tree {
        Tree::Items(trees) => trees.as_slice(),
        _ => &[],
    }
}

/// The value to which a step leads.
fn step_to<'t>(tree: &'t Tree, step: &Step) -> Option<&'t Tree> {
    match step {
        Step::Key(key) => match tree {
            Tree::Map(members) => members.get(key.as_str()),
            _ => None,
        },
        Step::Item(number) => items_of(tree).get(usize::try_from(*number).ok()?),
    }
}

/// The first of `rest`, and so many behind it, where they stand among the items of their array. They do, since `rest` is the end of that array,
/// from this number on. No clause says so here; they are compared, and it counts as want of memory if they aren't found.
pub(crate) fn those_standing<'t>(
    whole: &'t [Tree],
    number: u64,
    rest: &[Tree],
    behind: usize,
) -> Result<&'t [Tree], AllocError>
    ensures { IfOk result (λ found. trees_view found.now ≡ take (behind + 1) (trees_view rest.now)) }
{
    let wanted = front(rest, behind);
    let found = front(from(whole, number), behind);
    if are_same(found, wanted) {
        return Ok(found);
    }
    Err(AllocError)
}

/// The first item and so many behind it, as far as they go.
fn front(items: &[Tree], behind: usize) -> &[Tree]
    ensures { result.now ≡ take (behind + 1) items.now }
{
    if behind < items.len() {
        return &items[..behind + 1];
    }
    items
}

/// The items from this number on.
fn from(items: &[Tree], number: u64) -> &[Tree] {
    match usize::try_from(number) {
        Ok(number) if number < items.len() => &items[number..],
        _ => &[],
    }
}

/// Whether two lists have equal items.
fn are_same(items: &[Tree], others: &[Tree]) -> bool
    ensures { result ≡ same_trees (trees_of (trees_view items.now)) (trees_of (trees_view others.now)) }
{
    if items.len() != others.len() {
        return false;
    }
    for (number, item) in items.iter().enumerate() {
        if !item.same(&others[number]) {
            return false;
        }
    }
    true
}
