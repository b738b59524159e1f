// Weights, as far as a limit.
ghost use Rattle.std.specs.Prelude.{◌≡◌, ◌+◌, min};
ghost use Rattle.ld_model.specs.Tree.{trees_of, members_of, trees_weight, members_weight, weight as weight_data};
ghost use Rattle.ld_tree.specs.View.{view};
ghost use Rattle.subtree_cut.specs.Choices.{end_of};

use ld_tree::{Members, Tree, Trees};

/// A sum with the weight of a tree. Where it comes to more than the limit it stands for any such number, and the rest isn't weighed.
#[cycle(weighing)]
pub(crate) fn with_weight(limit: u64, sum: u64, tree: &Tree) -> u64
    ensures { min result (end_of limit) ≡ min (sum + weight_data (view tree.now)) (end_of limit) }
{
    let sum = sum.saturating_add(1);
    match tree {
        Tree::Items(trees) => with_items(limit, sum, trees),
        Tree::Map(members) => with_values(limit, sum, members),
        _ => sum,
    }
}

#[cycle(weighing)]
fn with_items(limit: u64, sum: u64, trees: &Trees) -> u64
    ensures { min result (end_of limit) ≡ min (sum + trees_weight (trees_of trees.now)) (end_of limit) }
{
    let mut sum = sum;
    for tree in trees {
        if sum > limit {
            return sum;
        }
        sum = with_weight(limit, sum, tree);
    }
    sum
}

#[cycle(weighing)]
fn with_values(limit: u64, sum: u64, members: &Members) -> u64
    ensures { min result (end_of limit) ≡ min (sum + members_weight (members_of members.now)) (end_of limit) }
{
    let mut sum = sum;
    for (_, tree) in members {
        if sum > limit {
            return sum;
        }
        sum = with_weight(limit, sum, tree);
    }
    sum
}
