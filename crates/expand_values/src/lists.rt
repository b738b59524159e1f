// Values as the items of arrays, and maps of one entry.
ghost use Rattle.std.specs.Prelude.{◌≡◌, [], ◌∷◌, ◌++◌, IfOk};
ghost use Rattle.ld_tree.specs.View.{view};
ghost use Rattle.expand_model.specs.Scope as scope;

use ld_tree::{Members, Tree, Trees};
use std::alloc::{AllocError, Global};

/// The list of one item.
pub fn one_item(alloc: Global, item: Tree) -> Result<Trees, AllocError>
    ensures { IfOk result (λ ts. ts ≡ view item ∷ []) }
{
    let mut items = Trees::with_capacity(alloc, 1)?;
    items.push(item)?;
    Ok(items)
}

/// The items of both lists. An empty first list costs nothing.
pub fn join(first: Trees, more: Trees) -> Result<Trees, AllocError>
    ensures { IfOk result (λ ts. ts ≡ first ++ more) }
{
    if first.is_empty() {
        return Ok(more);
    }
    let mut items = first;
    for item in more {
        items.push(item)?;
    }
    Ok(items)
}

/// The items of an array, or the one value that isn't one.
pub fn values_of(alloc: Global, value: Tree) -> Result<Trees, AllocError>
    ensures { IfOk result (λ ts. ts ≡ scope.values_of (view value)) }
{
    match value {
        Tree::Items(items) => Ok(items),
        other => one_item(alloc, other),
    }
}

/// The items of a value that is made an array. [Ours: null is made the empty array.]
pub fn as_items(alloc: Global, value: Tree) -> Result<Trees, AllocError>
    ensures { IfOk result (λ ts. ts ≡ scope.as_items (view value)) }
{
    match value {
        Tree::Null => Ok(Trees::new(alloc)),
        Tree::Items(items) => Ok(items),
        other => one_item(alloc, other),
    }
}

/// A map with one entry.
#[tactic(auto, unfolding(ld_model::specs::Tree::put))]
pub(crate) fn one_entry(alloc: Global, key: &str, value: Tree) -> Result<Tree, AllocError>
    ensures { IfOk result (λ t. view t ≡ scope.one_entry key.now (view value)) }
{
    let mut members = Members::with_capacity(alloc, 1)?;
    members.put(alloc, key, value)?;
    Ok(Tree::Map(members))
}

/// The list object of these items (JSON-LD 1.1, section 4.3.1).
pub fn list_object(alloc: Global, items: Trees) -> Result<Tree, AllocError>
    ensures { IfOk result (λ t. view t ≡ scope.list_object items) }
{
    one_entry(alloc, "@list", Tree::Items(items))
}

/// The graph object of one item (JSON-LD 1.1, section 4.9).
pub fn graph_object(alloc: Global, item: Tree) -> Result<Tree, AllocError>
    ensures { IfOk result (λ t. view t ≡ scope.graph_object (view item)) }
{
    let items = one_item(alloc, item)?;
    one_entry(alloc, "@graph", Tree::Items(items))
}
