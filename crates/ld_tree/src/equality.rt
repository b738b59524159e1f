// When two trees are equal.
ghost use Rattle.std.specs.Prelude.{◌≡◌};
ghost use Rattle.ld_model.specs.Tree.{same_tree, same_trees, same_members, trees_of, members_of};
ghost use Rattle.ld_tree.specs.View.{view, trees_view, members_view};

use crate::value::Tree;
use ld_text::Text;

impl Tree {
    /// Whether two trees are equal: the same values at the same keys and places.
    #[cycle(same)]
    pub fn same(&self, other: &Tree) -> bool
        ensures { result ≡ same_tree (view self.now) (view other.now) }
    {
        match (self, other) {
            (Tree::Null, Tree::Null) => true,
            (Tree::Truth(a), Tree::Truth(b)) => *a == *b,
            (Tree::Whole(a), Tree::Whole(b)) => *a == *b,
            (Tree::OneOne, Tree::OneOne) => true,
            (Tree::Str(a), Tree::Str(b)) => a.as_str() == b.as_str(),
            (Tree::Items(a), Tree::Items(b)) => same_items(a.as_slice(), b.as_slice()),
            (Tree::Map(a), Tree::Map(b)) => same_pairs(a.as_slice(), b.as_slice()),
            _ => false,
        }
    }
}

#[cycle(same)]
fn same_items(a: &[Tree], b: &[Tree]) -> bool
    ensures { result ≡ same_trees (trees_of (trees_view a.now)) (trees_of (trees_view b.now)) }
{
    if a.len() != b.len() {
        return false;
    }
    for (number, x) in a.iter().enumerate() {
        if !x.same(&b[number]) {
            return false;
        }
    }
    true
}

#[cycle(same)]
fn same_pairs(a: &[(Text, Tree)], b: &[(Text, Tree)]) -> bool
    ensures { result ≡ same_members (members_of (members_view a.now)) (members_of (members_view b.now)) }
{
    if a.len() != b.len() {
        return false;
    }
    for (number, x) in a.iter().enumerate() {
        let y = &b[number];
        if x.0.as_str() != y.0.as_str() || !x.1.same(&y.1) {
            return false;
        }
    }
    true
}
