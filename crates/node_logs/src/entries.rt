// Entries of properties.
ghost use Rattle.std.specs.Prelude.{◌≡◌, IfOk};
ghost use Rattle.ld_model.specs.NodeMap.{reference};
ghost use Rattle.ld_tree.specs.View.{view};
ghost use Rattle.node_model.specs.NodeMap.{list_object};

use ld_tree::{Members, Text, Tree, Trees};
use std::alloc::{AllocError, Global};

/// A reference to a node: an object with nothing but its id.
pub fn reference(alloc: Global, node: &Text) -> Result<Tree, AllocError>
    ensures { IfOk result (λ t. view t ≡ reference node.now) }
{
    let mut members = Members::with_capacity(alloc, 1)?;
    members.put(alloc, "@id", Tree::Str(node.copy()?))?;
    Ok(Tree::Map(members))
}

/// A list object, with nothing but its list.
pub fn list_object(alloc: Global, items: Trees) -> Result<Tree, AllocError>
    ensures { IfOk result (λ t. view t ≡ list_object items) }
{
    let mut members = Members::with_capacity(alloc, 1)?;
    members.put(alloc, "@list", Tree::Items(items))?;
    Ok(Tree::Map(members))
}
