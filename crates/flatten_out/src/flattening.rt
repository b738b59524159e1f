// The flattened form of a node map.
ghost use Rattle.std.specs.Prelude.{◌≡◌, IfOk};
ghost use Rattle.std.specs.Option.{option_map};
ghost use Rattle.ld_model.specs.Tree.{array, member_at, trees_of};
ghost use Rattle.ld_model.specs.Keys.{default_graph};
ghost use Rattle.ld_model.specs.Flatten.{flatten, graph_of, graphs_into, nodes_of};
ghost use Rattle.ld_tree.specs.View.{view};
ghost use Rattle.flatten_out.specs.Only.{is_only_default};

use crate::graphs::{graph_of, graphs_into};
use crate::nodes::nodes_of;
use ld_tree::{Members, Tree, Trees};
use node_types::NodeMap;
use std::alloc::{AllocError, Global};

/// The flattened form of a node map, as an array (JSON-LD 1.1 API, section 7.1, steps 3 to 7): the nodes of the default graph in the
/// order of their ids, without those that have nothing but their id. Each other graph stands under `@graph` at the node of its name, which
/// is made where there is none, in the same way.
///
/// # Errors
///
/// `AllocError` where memory is refused.
pub fn flatten(alloc: Global, map: &NodeMap) -> Result<Tree, AllocError>
    ensures { IfOk result (λ t. view t ≡ array (trees_of (flatten map.now.graphs))) }
{
    let graphs = copy_of(alloc, &map.graphs)?;
    let nodes = into_flattened(alloc, NodeMap { graphs })?;
    Ok(Tree::Items(nodes))
}

/// The same as [`flatten`], of a node map that is taken apart: its nodes are moved and not copied.
///
/// # Errors
///
/// `AllocError` where memory is refused.
pub fn into_flattened(alloc: Global, map: NodeMap) -> Result<Trees, AllocError>
    ensures { IfOk result (λ nodes. nodes ≡ flatten map.graphs) }
{
    let NodeMap { mut graphs } = map;
    let nodes = graph_of(alloc, graphs.take("@default"));
    if is_only_default(&graphs) {
        let outcome = nodes_of(alloc, nodes)?;
        return Ok(outcome);
    }
    let nodes = graphs_into(alloc, graphs, nodes)?;
    let outcome = nodes_of(alloc, nodes)?;
    Ok(outcome)
}

/// Whether there is no graph but the default one.
fn is_only_default(graphs: &Members) -> bool
    ensures { result ≡ is_only_default graphs.now }
{
    for (name, _) in graphs {
        if name.as_str() != "@default" {
            return false;
        }
    }
    true
}

fn copy_of(alloc: Global, members: &Members) -> Result<Members, AllocError>
    ensures { IfOk result (λ copy. copy ≡ members.now) }
{
    let mut copy = Members::with_capacity(alloc, members.len())?;
    for (key, value) in members {
        copy.set(key.copy()?, value.copy(alloc)?)?;
    }
    Ok(copy)
}
