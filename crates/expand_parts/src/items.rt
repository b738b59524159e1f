// Items of arrays.
ghost use Rattle.std.specs.Prelude.{◌≡◌, ◌++◌, IfOk};
ghost use Rattle.ld_model.specs.Tree as model;
ghost use Rattle.ld_tree.specs.View.{view};
ghost use Rattle.expand_model.specs.Indexes.{has_lists};
ghost use Rattle.expand_model.specs.Rules as rules;
ghost use Rattle.expand_model.specs.Scope as scope;
ghost use Rattle.expand_types.specs.View.{scope_view};

use expand_types::Scope;
use expand_values::{as_items, is_lone, join, list_object};
use ld_tree::{Members, Tree, Trees};
use std::alloc::{AllocError, Global};

/// Whether the active property has a list container.
pub fn has_lists(scope: &Scope<'_>) -> bool
    ensures { result ≡ has_lists (scope_view scope.now) }
{
    match scope.definition() {
        None => false,
        Some(definition) => definition.container.list,
    }
}

/// The items so far, and those of an outcome (JSON-LD 1.1 API, section 5.1.2, steps 5.2.2 and 5.2.3).
#[tactic(auto, unfolding(expand_model::specs::Rules::spliced))]
pub fn splice(alloc: Global, lists: bool, out: Trees, outcome: Tree) -> Result<Trees, AllocError>
    ensures { IfOk result (λ ts. ts ≡ out ++ rules.spliced lists (view outcome)) }
{
    let mut out = out;
    match outcome {
        Tree::Null => Ok(out),
        Tree::Items(items) => splice_items(alloc, lists, out, items),
        item => {
            out.push(item)?;
            Ok(out)
        }
    }
}

#[tactic(auto, unfolding(expand_model::specs::Rules::spliced))]
fn splice_items(alloc: Global, lists: bool, out: Trees, items: Trees) -> Result<Trees, AllocError>
    ensures { IfOk result (λ ts. ts ≡ out ++ rules.spliced lists (model.array (model.trees_of items))) }
{
    if !lists {
        return join(out, items);
    }
    let mut out = out;
    out.push(list_object(alloc, items)?)?;
    Ok(out)
}

/// The items of the whole document: a map with just `@graph` is the items of that (JSON-LD 1.1 API, section 9.1.2, expand).
pub fn whole_items(alloc: Global, outcome: Tree) -> Result<Trees, AllocError>
    ensures { IfOk result (λ ts. ts ≡ rules.whole_items (view outcome)) }
{
    match outcome {
        Tree::Map(members) => as_items(alloc, graph_alone(members)),
        other => as_items(alloc, other),
    }
}

/// The value of `@graph`, where that is all that a map has, and else the map.
fn graph_alone(members: Members) -> Tree
    ensures { scope.as_items (view result) ≡ rules.whole_items (model.object (model.members_of members)) }
{
    let mut members = members;
    if !is_lone(&members, "@graph") {
        return Tree::Map(members);
    }
    match members.take("@graph") {
        None => Tree::Map(members),
        Some(graph) => graph,
    }
}
