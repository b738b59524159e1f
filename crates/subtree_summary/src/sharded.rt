// What is said in each shard.
ghost use Rattle.std.specs.Prelude.{ℕ, ◌≡◌, ◌<◌, length, Some, OnOk, IfOk, IfSome};
ghost use Rattle.sum_model.specs.Sums.{PartEntry, bare, join, empty_sum};
ghost use Rattle.op_types.specs.View.{name_view};
ghost use Rattle.subtree_summary.specs.Log.{said};
ghost use Rattle.subtree_summary.specs.Summing.{part_at, node_in, graph_in, key_at, AreInPlace};

use crate::entry::Telling;
use crate::keyed::Keyed;
use crate::part::{Part, is_key};
use crate::shards::shard_of;
use op_types::Name;
use std::alloc::{AllocError, Global};

/// Where a node stands.
#[derive(Clone, Copy)]
pub(crate) struct Row {
    /// The number of its shard.
    pub(crate) shard: usize,
    /// Its index among the nodes of that shard's part.
    pub(crate) index: usize,
}

/// What operations said so far, divided into shards.
#[derive(Drop)]
pub(crate) struct Sharded {
    /// How many shards there are.
    pub(crate) shards: u32,
    /// What was said in each shard.
    pub(crate) parts: Vec<Part>,
    /// Where the node stands of which something was said last. Operations of a node come in a row, so it is looked up once for the row.
    row: Option<Row>,
    /// Where the node stands of which something was said before that: the one in which a node is nested, once that node ends.
    before: Option<Row>,
    /// Where the node stands that was noted last, of which something is mostly said next.
    noted: Option<Row>,
    pub(crate) ghost some: { 0 < shards },
    pub(crate) ghost long: { length parts.items ≡ shards },
    pub(crate) ghost in_place: { AreInPlace shards parts.items },
}

impl Sharded {
    /// What no operation says, in so many shards.
    pub(crate) fn new(alloc: Global, shards: u32, hasher: Keyed) -> Result<Sharded, AllocError>
        requires { 0 < shards }
        ensures shards { IfOk result (λ s. s.shards ≡ shards) }
        ensures empty { IfOk result (λ s. (k : ℕ) → part_at s.parts.items k ≡ empty_sum) }
    {
        Ok(Sharded {
            shards,
            parts: empty_parts(alloc, shards, hasher)?,
            row: None,
            before: None,
            noted: None,
        })
    }

    /// Notes that a graph is made.
    pub(crate) fn make_graph(&mut self, graph: &Name) -> Result<(), AllocError>
        ensures kept { OnOk result (self.new.shards ≡ self.old.shards) }
        ensures said { OnOk result ((k : ℕ) → part_at self.new.parts.items k ≡ join (part_at self.old.parts.items k) (graph_in self.old.shards k (name_view graph.now))) }
    {
        let shard = shard_of(graph, self.shards) as usize;
        self.parts[shard].add_graph(graph)?;
        Ok(())
    }

    /// Where a node stands, once it is made where it wasn't there.
    pub(crate) fn make_node(
        &mut self,
        alloc: Global,
        graph: &Name,
        node: &Name,
    ) -> Result<Row, AllocError>
        ensures kept { OnOk result (self.new.shards ≡ self.old.shards) }
        ensures said { OnOk result ((k : ℕ) → part_at self.new.parts.items k ≡ join (part_at self.old.parts.items k) (node_in self.old.shards k (name_view graph.now, name_view node.now) bare)) }
        ensures key { IfOk result (λ r. key_at self.new.parts.items r.shard r.index ≡ Some (name_view graph.now, name_view node.now)) }
    {
        let shard = shard_of(node, self.shards) as usize;
        let index = self.parts[shard].index_of(alloc, graph, node)?;
        let row = Row { shard, index };
        self.noted = Some(row);
        Ok(row)
    }

    /// Notes what is said of a node.
    pub(crate) fn tell(
        &mut self,
        alloc: Global,
        graph: &Name,
        node: &Name,
        telling: Telling<'_>,
    ) -> Result<(), AllocError>
        ensures kept { OnOk result (self.new.shards ≡ self.old.shards) }
        ensures said { OnOk result ((k : ℕ) → part_at self.new.parts.items k ≡ join (part_at self.old.parts.items k) (node_in self.old.shards k (name_view graph.now, name_view node.now) (said telling.entry))) }
    {
        let row = self.row_at(alloc, graph, node)?;
        self.parts[row.shard].tell(alloc, row.index, telling)?;
        Ok(())
    }

    /// The parts, one for each shard.
    pub(crate) fn into_parts(self) -> Vec<Part>
        ensures parts { result ≡ self.parts }
        ensures length { length result.items ≡ self.shards }
    {
        let Sharded {
            shards: _,
            parts,
            row: _,
            before: _,
            noted: _,
        } = self;
        parts
    }

    /// Where a node stands. What was said last of all is mostly of the same node.
    fn row_at(&mut self, alloc: Global, graph: &Name, node: &Name) -> Result<Row, AllocError>
        ensures kept { OnOk result (self.new.shards ≡ self.old.shards) }
        ensures said { OnOk result ((k : ℕ) (e : PartEntry) → join (part_at self.new.parts.items k) (node_in self.old.shards k (name_view graph.now, name_view node.now) e) ≡ join (part_at self.old.parts.items k) (node_in self.old.shards k (name_view graph.now, name_view node.now) e)) }
        ensures key { IfOk result (λ r. key_at self.new.parts.items r.shard r.index ≡ Some (name_view graph.now, name_view node.now)) }
    {
        if let Some(row) = self.row_of(self.row, graph, node) {
            return Ok(row);
        }
        let row = self.other_row(alloc, graph, node)?;
        self.before = self.row;
        self.row = Some(row);
        Ok(row)
    }

    /// The same, where it isn't that node: it is looked up, unless it was noted last, or something was said of it before.
    fn other_row(&mut self, alloc: Global, graph: &Name, node: &Name) -> Result<Row, AllocError>
        ensures kept { OnOk result (self.new.shards ≡ self.old.shards) }
        ensures said { OnOk result ((k : ℕ) (e : PartEntry) → join (part_at self.new.parts.items k) (node_in self.old.shards k (name_view graph.now, name_view node.now) e) ≡ join (part_at self.old.parts.items k) (node_in self.old.shards k (name_view graph.now, name_view node.now) e)) }
        ensures key { IfOk result (λ r. key_at self.new.parts.items r.shard r.index ≡ Some (name_view graph.now, name_view node.now)) }
    {
        if let Some(row) = self.row_of(self.noted, graph, node) {
            return Ok(row);
        }
        if let Some(row) = self.row_of(self.before, graph, node) {
            return Ok(row);
        }
        let row = self.make_node(alloc, graph, node)?;
        Ok(row)
    }

    /// This row, where it is that of the node.
    fn row_of(&self, row: Option<Row>, graph: &Name, node: &Name) -> Option<Row>
        ensures { IfSome result (λ r. key_at self.now.parts.items r.shard r.index ≡ Some (name_view graph.now, name_view node.now)) }
    {
        let row = row?;
        let part = self.parts.get(row.shard)?;
        let (key, _) = part.nodes.get_index(row.index)?;
        if is_key(key, graph, node) {
            Some(row)
        } else {
            None
        }
    }
}

fn empty_parts(alloc: Global, shards: u32, hasher: Keyed) -> Result<Vec<Part>, AllocError>
    ensures length { IfOk result (λ parts. length parts.items ≡ shards) }
    ensures empty { IfOk result (λ parts. (k : ℕ) → part_at parts.items k ≡ empty_sum) }
{
    let mut parts = Vec::new(alloc);
    for _ in 0..shards {
        parts.push(Part::new(alloc, hasher))?;
    }
    Ok(parts)
}
