// A total order of trees, so that a set can hold them.
ghost use Rattle.std.specs.Prelude.{◌≡◌};
ghost use Rattle.ld_model.specs.Tree.{trees_of, members_of, same_tree, byte_order};
ghost use Rattle.ld_tree.specs.View.{view};
ghost use Rattle.std.specs.Ordering.{as_partial_cmp, ordering_then};
ghost use Rattle.node_logs.specs.TreeOrder.{kind, tree_order, trees_order, members_order};

use ld_tree::{Members, Text, Tree, Trees};
use std::cmp::Ordering;
use std::marker::Model;

/// A borrowed tree, as a set of trees holds it: ordered by its kind, by what a text or a number is, and by the first part in which two
/// lists differ.
#[derive(Drop)]
pub(crate) struct Ranked<'a> {
    tree: &'a Tree,
}

impl<'a> Model for Ranked<'a> {
    ghost use Rattle.ld_model.specs.Tree.{Tree as TreeData};
    ghost use Rattle.ld_model.specs.TreeCode.{tree_code};
    ghost use Rattle.ld_tree.specs.View as trees;

    ghost Value = { TreeData };

    ghost coded = { tree_code };

    ghost view = { λ r. trees.view r.tree.now };
}

impl<'a> Ranked<'a> {
    /// A tree, borrowed.
    pub(crate) fn new(tree: &'a Tree) -> Ranked<'a>
        ensures { result ≡ view tree.now }
    {
        Ranked { tree }
    }
}

impl<'a> PartialEq for Ranked<'a> {
    ghost eq = { same_tree };

    ghost use Rattle.std.specs.Cmp.{partial_equiv_from_equiv};
    ghost use Rattle.node_logs.specs.TotalOrder.{same_tree-laws};

    ghost laws = { partial_equiv_from_equiv same_tree-laws };

    fn eq(&self, other: &Ranked<'a>) -> bool {
        self.tree.same(other.tree)
    }
}

impl<'a> Eq for Ranked<'a> {
    ghost use Rattle.node_logs.specs.TotalOrder.{same_tree-laws};

    ghost laws = { same_tree-laws };
}

impl<'a> Ord for Ranked<'a> {
    ghost cmp = { tree_order };

    ghost use Rattle.std.specs.Prelude.{refl};
    ghost use Rattle.node_logs.specs.TotalOrder.{tree_order-total, equal_where_tied};

    ghost total = { tree_order-total };

    ghost matches_partial_cmp = { λ x y. refl };

    ghost matches_eq = { equal_where_tied };

    fn cmp(&self, other: &Ranked<'a>) -> Ordering {
        compare(self.tree, other.tree)
    }
}

impl<'a> PartialOrd for Ranked<'a> {
    ghost partial_cmp = { as_partial_cmp tree_order };

    ghost use Rattle.node_logs.specs.TotalOrder.{tree_order-partial};

    ghost laws = { tree_order-partial };

    fn partial_cmp(&self, other: &Ranked<'a>) -> Option<Ordering> {
        Some(self.cmp(other))
    }
}

/// How a tree stands to another.
#[cycle(order)]
fn compare(a: &Tree, b: &Tree) -> Ordering
    ensures { result ≡ tree_order (view a.now) (view b.now) }
{
    match (a, b) {
        (Tree::Truth(a), Tree::Truth(b)) => a.cmp(b),
        (Tree::Whole(a), Tree::Whole(b)) => a.cmp(b),
        (Tree::Str(a), Tree::Str(b)) => a.compare(b.as_str()),
        (Tree::Items(a), Tree::Items(b)) => compare_items(a, b),
        (Tree::Map(a), Tree::Map(b)) => compare_members(a, b),
        _ => kind(a).cmp(&kind(b)),
    }
}

#[cycle(order)]
fn compare_items(a: &Trees, b: &Trees) -> Ordering
    ensures { result ≡ trees_order (trees_of a.now) (trees_of b.now) }
{
    let mut others = b.iter();
    for tree in a {
        let Some(other) = others.next() else {
            return Ordering::Greater;
        };
        let order = compare(tree, other);
        if !order.is_eq() {
            return order;
        }
    }
    match others.next() {
        Some(_) => Ordering::Less,
        None => Ordering::Equal,
    }
}

#[cycle(order)]
fn compare_members(a: &Members, b: &Members) -> Ordering
    ensures { result ≡ members_order (members_of a.now) (members_of b.now) }
{
    let mut others = b.iter();
    for (key, tree) in a {
        let Some((other_key, other)) = others.next() else {
            return Ordering::Greater;
        };
        let order = compare_member(key, tree, other_key, other);
        if !order.is_eq() {
            return order;
        }
    }
    match others.next() {
        Some(_) => Ordering::Less,
        None => Ordering::Equal,
    }
}

#[cycle(order)]
fn compare_member(key: &Text, tree: &Tree, other_key: &Text, other: &Tree) -> Ordering
    ensures { result ≡ ordering_then (byte_order key.now other_key.now) (tree_order (view tree.now) (view other.now)) }
{
    let order = key.compare(other_key.as_str());
    if !order.is_eq() {
        return order;
    }
    compare(tree, other)
}

/// Where the kind of a tree stands.
fn kind(tree: &Tree) -> u8
    ensures { result ≡ kind (view tree.now) }
{
    match tree {
        Tree::Null => 0,
        Tree::Truth(_) => 1,
        Tree::Whole(_) => 2,
        Tree::OneOne => 3,
        Tree::Str(_) => 4,
        Tree::Items(_) => 5,
        Tree::Map(_) => 6,
    }
}
