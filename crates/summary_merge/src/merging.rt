// Two parts put together, with all growth first.
ghost use Rattle.std.specs.Prelude.{◌≡◌, ◌+◌, ◌<◌, ◌≤◌, [], ◌∷◌, false, length, OnOk, IfOk, IfErr};
ghost use Rattle.std.specs.Map.{lookup};
ghost use Rattle.indexmap.specs.IndexMap.{spare};
ghost use Rattle.indexmap.specs.IndexSet as sets;
ghost use Rattle.indexmap.specs.IndexSet.{insert_key};
ghost use Rattle.op_model.specs.Names.{same_name};
ghost use Rattle.sum_model.specs.Joins.{lists_joined};
ghost use Rattle.sum_model.specs.Sums.{join};
ghost use Rattle.op_types.specs.View.{names_view, key_view};
ghost use Rattle.op_types.specs.declared.name.NodeKey as code;
ghost use Rattle.subtree_summary.specs.Log.{part_entry_view};
ghost use Rattle.subtree_summary.specs.Parts.{same_code_name, same_code_key, part_view, nodes_view, nodes_joined, HasRoomAt};
ghost use Rattle.summary_merge.specs.Room.{HasRoomForAll, HasRoomForPart};

use indexmap::{IndexMap, IndexSet};
use op_types::{Name, NodeKey};
use std::alloc::AllocError;
use subtree_summary::{Keyed, Part, PartEntry, put_node};

/// Two parts that weren't put together, since there was no memory.
#[derive(Drop)]
pub(crate) struct Apart {
    pub(crate) earlier: Part,
    pub(crate) later: Part,
}

/// The earlier part with the later one moved into it, hashed as the earlier one is. Where memory is refused, both come back as they were.
pub(crate) fn merge_parts(earlier: Part, later: Part) -> Result<Part, Apart>
    ensures ok { IfOk result (λ part. part_view part ≡ join (part_view earlier) (part_view later)) }
    ensures err { IfErr result (λ apart. (part_view apart.earlier ≡ part_view earlier) × (part_view apart.later ≡ part_view later)) }
{
    let mut part = earlier;
    match make_room(&mut part, &later) {
        Ok(()) => {
            move_in(&mut part, later);
            Ok(part)
        }
        Err(_) => Err(Apart {
            earlier: part,
            later,
        }),
    }
}

/// Makes room for all of the later part. Whether memory is refused or not, the part stays.
fn make_room(part: &mut Part, later: &Part) -> Result<(), AllocError>
    ensures same { part_view part.new ≡ part_view part.old }
    ensures room { OnOk result (HasRoomForPart part.new later.now) }
{
    make_room_at_all(&mut part.nodes, &later.nodes)?;
    part.nodes.reserve(later.nodes.len())?;
    part.graphs.reserve(later.graphs.len())?;
    Ok(())
}

/// Makes room at each node that both have.
fn make_room_at_all(
    nodes: &mut IndexMap<NodeKey, PartEntry, Keyed>,
    later: &IndexMap<NodeKey, PartEntry, Keyed>,
) -> Result<(), AllocError>
    ensures same { nodes_view nodes.new.entries ≡ nodes_view nodes.old.entries }
    ensures room { OnOk result (HasRoomForAll nodes.new.entries later.now.entries) }
{
    for (key, entry) in later {
        make_room_at(nodes, key, entry)?;
    }
    Ok(())
}

/// Makes room at this node, where it is there.
fn make_room_at(
    nodes: &mut IndexMap<NodeKey, PartEntry, Keyed>,
    key: &NodeKey,
    later: &PartEntry,
) -> Result<(), AllocError>
    ensures same { nodes_view nodes.new.entries ≡ nodes_view nodes.old.entries }
    ensures others { (k : code.NodeKey) → same_code_key k key.now ≡ false → lookup (same_code_key k) nodes.new.entries ≡ lookup (same_code_key k) nodes.old.entries }
    ensures room { OnOk result (HasRoomAt nodes.new.entries key.now later.now) }
{
    match nodes.get_mut(key) {
        Some(entry) => {
            entry.make_room(later)?;
            return Ok(());
        }
        None => {}
    }
    Ok(())
}

/// Moves the later part in, for which there is room. It takes no memory.
fn move_in(part: &mut Part, later: Part)
    requires { HasRoomForPart part.old later }
    ensures { part_view part.new ≡ join (part_view part.old) (part_view later) }
{
    let Part { graphs, nodes } = later;
    move_graphs_in(&mut part.graphs, graphs);
    move_nodes_in(&mut part.nodes, nodes);
}

fn move_graphs_in(graphs: &mut IndexSet<Name, Keyed>, later: IndexSet<Name, Keyed>)
    requires { length later.keys ≤ sets.spare graphs.old }
    ensures { names_view graphs.new.keys ≡ lists_joined same_name (names_view graphs.old.keys) (names_view later.keys) }
{
    for graph in later {
        push_graph(graphs, graph);
    }
}

fn push_graph(graphs: &mut IndexSet<Name, Keyed>, graph: Name)
    requires { 0 < sets.spare graphs.old }
    ensures keys { graphs.new.keys ≡ insert_key same_code_name graphs.old.keys graph }
    ensures spare { sets.spare graphs.old ≤ sets.spare graphs.new + 1 }
{
    graphs.insert(graph).unwrap();
}

fn move_nodes_in(
    nodes: &mut IndexMap<NodeKey, PartEntry, Keyed>,
    later: IndexMap<NodeKey, PartEntry, Keyed>,
)
    requires { (length later.entries ≤ spare nodes.old) × HasRoomForAll nodes.old.entries later.entries }
    ensures { nodes_view nodes.new.entries ≡ nodes_joined (nodes_view nodes.old.entries) (nodes_view later.entries) }
{
    for (key, entry) in later {
        push_node(nodes, key, entry);
    }
}

fn push_node(nodes: &mut IndexMap<NodeKey, PartEntry, Keyed>, key: NodeKey, later: PartEntry)
    requires { (0 < spare nodes.old) × HasRoomAt nodes.old.entries key later }
    ensures joined { nodes_view nodes.new.entries ≡ nodes_joined (nodes_view nodes.old.entries) ((key_view key, part_entry_view later) ∷ []) }
    ensures others { (k : code.NodeKey) → same_code_key k key ≡ false → lookup (same_code_key k) nodes.new.entries ≡ lookup (same_code_key k) nodes.old.entries }
    ensures spare { spare nodes.old ≤ spare nodes.new + 1 }
{
    put_node(nodes, key, later).unwrap();
}
