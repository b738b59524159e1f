// A later part, added to an earlier one, which grows as it needs to.
ghost use Rattle.std.specs.Prelude.{◌≡◌, OnOk};
ghost use Rattle.op_model.specs.Names.{same_name};
ghost use Rattle.sum_model.specs.Joins.{lists_joined};
ghost use Rattle.sum_model.specs.Sums.{join};
ghost use Rattle.op_types.specs.View.{names_view};
ghost use Rattle.subtree_summary.specs.Parts.{part_view, nodes_view, nodes_joined};

use indexmap::{IndexMap, IndexSet};
use op_types::{Name, NodeKey};
use std::alloc::AllocError;
use subtree_summary::{Keyed, Part, PartEntry, put_node};

/// Moves the later part into the earlier one. Where memory is refused, some of the later part may be lost.
pub(crate) fn add_part(part: &mut Part, later: Part) -> Result<(), AllocError>
    ensures { OnOk result (part_view part.new ≡ join (part_view part.old) (part_view later)) }
{
    let Part { graphs, nodes } = later;
    add_graphs(&mut part.graphs, graphs)?;
    add_nodes(&mut part.nodes, nodes)?;
    Ok(())
}

fn add_graphs(
    graphs: &mut IndexSet<Name, Keyed>,
    later: IndexSet<Name, Keyed>,
) -> Result<(), AllocError>
    ensures { OnOk result (names_view graphs.new.keys ≡ lists_joined same_name (names_view graphs.old.keys) (names_view later.keys)) }
{
    for graph in later {
        graphs.insert(graph)?;
    }
    Ok(())
}

fn add_nodes(
    nodes: &mut IndexMap<NodeKey, PartEntry, Keyed>,
    later: IndexMap<NodeKey, PartEntry, Keyed>,
) -> Result<(), AllocError>
    ensures { OnOk result (nodes_view nodes.new.entries ≡ nodes_joined (nodes_view nodes.old.entries) (nodes_view later.entries)) }
{
    for (key, entry) in later {
        put_node(nodes, key, entry)?;
    }
    Ok(())
}
