// How many values a tree has.
ghost use Rattle.std.specs.Prelude.{◌≡◌, ◌-◌, ◌^◌, min};
ghost use Rattle.ld_model.specs.Tree.{trees_of, members_of, trees_weight, members_weight};
ghost use Rattle.ld_model.specs.Tree as model;
ghost use Rattle.ld_tree.specs.View.{view};

use crate::value::{Members, Tree, Trees};

/// How many values a tree has in it, itself included and keys not counted; or 2^64 - 1 where there are more.
#[cycle(weighing)]
pub fn weight(tree: &Tree) -> u64
    ensures { result ≡ min (model.weight (view tree.now)) (2 ^ 64 - 1) }
{
    match tree {
        Tree::Items(trees) => items_weight(trees).saturating_add(1),
        Tree::Map(members) => pairs_weight(members).saturating_add(1),
        _ => 1,
    }
}

#[cycle(weighing)]
fn items_weight(trees: &Trees) -> u64
    ensures { result ≡ min (trees_weight (trees_of trees.now)) (2 ^ 64 - 1) }
{
    let mut sum = 0u64;
    for tree in trees {
        sum = sum.saturating_add(weight(tree));
    }
    sum
}

#[cycle(weighing)]
fn pairs_weight(members: &Members) -> u64
    ensures { result ≡ min (members_weight (members_of members.now)) (2 ^ 64 - 1) }
{
    let mut sum = 0u64;
    for (_, tree) in members {
        sum = sum.saturating_add(weight(tree));
    }
    sum
}
