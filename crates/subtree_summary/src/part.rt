// Parts: what operations say of graphs and nodes.
ghost use Rattle.std.specs.Prelude.{◌≡◌, [], ◌∷◌, ◌+◌, ◌<◌, ◌≤◌, Bool, true, false, Some, OnOk, IfOk, IsOk};
ghost use Rattle.std.specs.Map.{lookup, keys_of};
ghost use Rattle.indexmap.specs.IndexMap.{spare, index_map_len};
ghost use Rattle.op_model.specs.Names.{Name as Named};
ghost use Rattle.op_types.specs.View.{name_view, key_view};
ghost use Rattle.op_types.specs.declared.name.NodeKey as code;
ghost use Rattle.sum_model.specs.Sums.{bare, empty_sum, join, at_node, same_key};
ghost use Rattle.subtree_summary.specs.Log.{part_entry_view, said};
ghost use Rattle.subtree_summary.specs.Parts.{same_code_key, part_view, nodes_view, nodes_joined, key_in, all_fall, HasRoomAt};

use crate::entry::{PartEntry, Telling};
use crate::keyed::Keyed;
use indexmap::{IndexMap, IndexSet};
use op_types::{Name, NodeKey};
use std::alloc::{AllocError, Global};

/// What operations say of graphs and nodes, each in the order of first use. Both are looked up by hashes under a key.
#[derive(Drop)]
pub struct Part {
    /// The graphs that are made.
    pub graphs: IndexSet<Name, Keyed>,
    /// The nodes, each with what is said of it.
    pub nodes: IndexMap<NodeKey, PartEntry, Keyed>,
}

impl Part {
    /// What no operation says. What is added is hashed by this hasher.
    pub fn new(alloc: Global, hasher: Keyed) -> Part
        ensures { part_view result ≡ empty_sum }
    {
        Part {
            graphs: IndexSet::with_hasher(alloc, hasher),
            nodes: IndexMap::with_hasher(alloc, hasher),
        }
    }

    /// Notes that a graph is made. Its name is copied.
    pub(crate) fn add_graph(&mut self, graph: &Name) -> Result<(), AllocError>
        ensures nodes { self.new.nodes ≡ self.old.nodes }
        ensures said { OnOk result (part_view self.new ≡ join (part_view self.old) (record { graphs = name_view graph.now ∷ []; nodes = [] })) }
    {
        self.graphs.insert(graph.copy()?)?;
        Ok(())
    }

    /// The index at which a node stands. Where it isn't there it is put behind the others, with nothing said of it, and its names are copied.
    pub(crate) fn index_of(
        &mut self,
        alloc: Global,
        graph: &Name,
        node: &Name,
    ) -> Result<usize, AllocError>
        ensures fall { (here : Named → Bool) → here (name_view node.now) ≡ true → all_fall here (keys_of self.old.nodes.entries) ≡ true → all_fall here (keys_of self.new.nodes.entries) ≡ true }
        ensures said { OnOk result (part_view self.new ≡ join (part_view self.old) (at_node (name_view graph.now) (name_view node.now) bare)) }
        ensures key { IfOk result (λ i. key_in self.new.nodes.entries i ≡ Some (name_view graph.now, name_view node.now)) }
    {
        let key = key_of(graph, node)?;
        let next = self.nodes.len();
        match self.nodes.get_full(&key) {
            Some((index, _, _)) => return Ok(index),
            None => {}
        }
        self.nodes.insert(key, PartEntry::new(alloc))?;
        Ok(next)
    }

    /// Notes what is said of the node at this index.
    pub(crate) fn tell(
        &mut self,
        alloc: Global,
        index: usize,
        telling: Telling<'_>,
    ) -> Result<(), AllocError>
        requires { index < index_map_len self.old.nodes }
        ensures keys { keys_of self.new.nodes.entries ≡ keys_of self.old.nodes.entries }
        ensures said { OnOk result ((g n : Named) → key_in self.old.nodes.entries index ≡ Some (g, n) → part_view self.new ≡ join (part_view self.old) (at_node g n (said telling.entry))) }
    {
        let (_, entry) = self.nodes.pair_mut(index);
        entry.tell(alloc, telling)?;
        Ok(())
    }
}

/// The key of a node of a graph. The names are copied.
fn key_of(graph: &Name, node: &Name) -> Result<NodeKey, AllocError>
    ensures { IfOk result (λ k. key_view k ≡ (name_view graph.now, name_view node.now)) }
{
    Ok(NodeKey {
        graph: graph.copy()?,
        node: node.copy()?,
    })
}

/// Whether a key is that of this node of this graph. Nodes differ more often than graphs, so they are compared first.
pub(crate) fn is_key(key: &NodeKey, graph: &Name, node: &Name) -> bool
    ensures { result ≡ same_key (key_view key.now) (name_view graph.now, name_view node.now) }
{
    key.node == *node && key.graph == *graph
}

/// Puts what a later part says of a node behind what these nodes have of it, or behind the other nodes where it isn't there. It takes no
/// memory where there is room for it.
///
/// # Errors
///
/// Only where memory is refused; then some of the later part's may be lost.
pub fn put_node(
    nodes: &mut IndexMap<NodeKey, PartEntry, Keyed>,
    key: NodeKey,
    later: PartEntry,
) -> Result<(), AllocError>
    ensures joined { OnOk result (nodes_view nodes.new.entries ≡ nodes_joined (nodes_view nodes.old.entries) ((key_view key, part_entry_view later) ∷ [])) }
    ensures others { OnOk result ((k : code.NodeKey) → same_code_key k key ≡ false → lookup (same_code_key k) nodes.new.entries ≡ lookup (same_code_key k) nodes.old.entries) }
    ensures succeeds { 0 < spare nodes.old → HasRoomAt nodes.old.entries key later → IsOk result }
    ensures spare { spare nodes.old ≤ spare nodes.new + 1 }
{
    match nodes.get_mut(&key) {
        Some(entry) => {
            entry.append(later)?;
            return Ok(());
        }
        None => {}
    }
    nodes.insert(key, later)?;
    Ok(())
}
