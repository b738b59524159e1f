// What is done with an item of an array in planning, by weights.
ghost use Rattle.std.specs.Prelude.{◌≡◌, ◌+◌, ◌-◌, ◌^◌, min};
ghost use Rattle.ld_model.specs.Tree.{trees_of, trees_weight};
ghost use Rattle.ld_tree.specs.View.{trees_view, view};
ghost use Rattle.cut_model.specs.Planning as model;
ghost use Rattle.subtree_cut.specs.Choices.{choice_view, chosen_of};

use crate::weighing::with_weight;
use ld_tree::Tree;

/// What is done with an item.
#[derive(Clone, Copy)]
pub(crate) enum Choice {
    /// It is expanded.
    Walks,
    /// It is opened, if an array in it is cut.
    Tries,
    /// It is the first of an array that is passed over, with so many items behind it.
    Passes(usize),
    /// A range begins with it, with so many items behind it.
    Takes(usize),
}

/// What is done with the first of these items, which has this number in its array.
pub(crate) fn choose(limit: u64, rest: &[Tree], number: u64) -> Choice
    ensures { choice_view result ≡ chosen_of limit (trees_of (trees_view rest.now)) number }
{
    let Some((first, behind)) = rest.split_first() else {
        return Choice::Walks;
    };
    if number > 0 {
        return cut_choice(limit, first, behind);
    }
    if is_light(limit, rest) {
        return Choice::Passes(behind.len());
    }
    heavy_choice(limit, first, behind)
}

/// What is done with the first item of an array that weighs more than the limit.
fn heavy_choice(limit: u64, first: &Tree, behind: &[Tree]) -> Choice
    ensures { choice_view result ≡ model.heavy_choice limit (view first.now) (trees_of (trees_view behind.now)) }
{
    if behind.is_empty() {
        return Choice::Walks;
    }
    cut_choice(limit, first, behind)
}

/// What is done with an item of an array that is cut.
fn cut_choice(limit: u64, first: &Tree, behind: &[Tree]) -> Choice
    ensures { choice_view result ≡ model.cut_choice limit (view first.now) (trees_of (trees_view behind.now)) }
{
    let weighed = with_weight(limit, 0, first);
    if weighed <= limit {
        return Choice::Takes(taken_behind(limit, weighed, behind));
    }
    Choice::Tries
}

/// How many items a range takes behind those that it has, while their weights sum to at most the limit.
fn taken_behind(limit: u64, sum: u64, behind: &[Tree]) -> usize
    ensures { result ≡ model.taken_behind limit sum (trees_of (trees_view behind.now)) }
{
    let mut sum = sum;
    for (number, item) in behind.iter().enumerate() {
        sum = with_weight(limit, sum, item);
        if sum > limit {
            return number;
        }
    }
    behind.len()
}

/// Whether an array of these items weighs at most the limit.
fn is_light(limit: u64, items: &[Tree]) -> bool
    ensures { result ≡ model.is_light limit (1 + trees_weight (trees_of (trees_view items.now))) }
{
    let mut sum = 1u64;
    for item in items {
        sum = with_weight(limit, sum, item);
        if sum > limit {
            return false;
        }
    }
    sum <= limit
}
