// Copies of trees.
ghost use Rattle.std.specs.Prelude.{◌≡◌, IfOk};
ghost use Rattle.ld_tree.specs.View.{view};

use crate::value::{Members, Tree, Trees};
use std::alloc::{AllocError, Global};

impl Tree {
    /// An equal tree, in memory of its own.
    pub fn copy(&self, alloc: Global) -> Result<Tree, AllocError>
        ensures { IfOk result (λ t. view t ≡ view self.now) }
    {
        match self {
            Tree::Null => Ok(Tree::Null),
            Tree::Truth(truth) => Ok(Tree::Truth(*truth)),
            Tree::Whole(number) => Ok(Tree::Whole(*number)),
            Tree::OneOne => Ok(Tree::OneOne),
            Tree::Str(text) => Ok(Tree::Str(text.copy()?)),
            Tree::Items(trees) => {
                let mut items = Trees::with_capacity(alloc, trees.len())?;
                for tree in trees {
                    items.push(tree.copy(alloc)?)?;
                }
                Ok(Tree::Items(items))
            }
            Tree::Map(members) => {
                let mut pairs = Members::with_capacity(alloc, members.len())?;
                for (key, tree) in members {
                    pairs.append(key.copy()?, tree.copy(alloc)?)?;
                }
                Ok(Tree::Map(pairs))
            }
        }
    }
}
