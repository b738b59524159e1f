// The keys of each map of a document ascend.
ghost use Rattle.ld_model.specs.Tree.{AreAscending, members_of, trees_of};
ghost use Rattle.ld_tree.specs.View.{view};
ghost use Rattle.cut_model.specs.KeysAscend.{KeysAscend, KeysAscendInItems, KeysAscendInValues};

use ld_tree::{Members, Tree, Trees};

/// The keys of each map of a tree ascend, at any depth: each map of the code says so of its own. This walk gives nothing but that.
#[cycle(ascending)]
pub(crate) fn keys_ascend(tree: &Tree)
    ensures { KeysAscend (view tree.now) }
{
    match tree {
        Tree::Items(trees) => keys_ascend_in_items(trees),
        Tree::Map(members) => keys_ascend_in_values(members),
        _ => {}
    }
}

#[cycle(ascending)]
fn keys_ascend_in_items(trees: &Trees)
    ensures { KeysAscendInItems (trees_of trees.now) }
{
    for tree in trees {
        keys_ascend(tree);
    }
}

#[cycle(ascending)]
fn keys_ascend_in_values(members: &Members)
    ensures ascending { AreAscending members.now }
    ensures values { KeysAscendInValues (members_of members.now) }
{
    for (_, tree) in members {
        keys_ascend(tree);
    }
}
