// Summing operations, one after another.
ghost use Rattle.std.specs.Prelude.{ℕ, ◌≡◌, ◌+◌, ◌≤◌, [], length, slice_get, OnOk, IfOk, IfSome};
ghost use Rattle.op_model.specs.Ops.{entries_of, use_label, ensure_graph, ensure_node, ensure_property, add_entry, append_list, add_type, set_index};
ghost use Rattle.op_model.specs.Running.{used, uses_of_all};
ghost use Rattle.sum_model.specs.Sums.{placed};
ghost use Rattle.op_types.specs.View.{name_view, entry_view, op_view};
ghost use Rattle.subtree_summary.specs.OnTheWay.{nothing_said, turned_to, tell, sums_view};
ghost use Rattle.subtree_summary.specs.Parts.{part_view, ArePartsOf};
ghost use Rattle.subtree_summary.specs.Uses.{uses_view};

use crate::entry::{IndexAt, Telling};
use crate::keyed::Keyed;
use crate::part::Part;
use crate::sharded::Sharded;
use crate::uses::{LabelUses, note_entries, note_entry};
use ld_tree::Text;
use op_types::{Entries, Entry, Name, Op, Ops};
use std::alloc::{AllocError, Global};

/// What the operations of a chunk add to a node map.
#[derive(Drop)]
pub struct Summary {
    /// What they add in each shard.
    pub parts: Vec<Part>,
    /// The names in them that need labels.
    pub uses: LabelUses,
}

/// What the operations of a chunk said so far. They are told one after another, by a method for each kind (JSON-LD 1.1 API, section 7.2), and
/// names are copied only where they are kept.
///
/// A method fails only where memory is refused, or where there would be more operations than 64 bits can count, which no run lives to see. What
/// was said is of no use then.
#[derive(Drop)]
pub struct Sums {
    /// The number of the chunk.
    chunk: u32,
    /// How many of its operations there were so far.
    number: u64,
    /// What they said in each shard.
    sharded: Sharded,
    /// The names in them that need labels.
    uses: LabelUses,
}

/// The sums of the operations of the chunk with this number, one for each of so many shards, and the names in them that need labels, in the
/// order of first use. What is said is moved and not copied. It takes a time linear in the operations, as long as few of their names collide
/// under the key of the hasher. The key has no say in what comes out.
///
/// # Errors
///
/// Only where memory is refused.
pub fn summarise_all(
    alloc: Global,
    ops: Ops,
    chunk: u32,
    shards: u32,
    hasher: Keyed,
) -> Result<Summary, AllocError>
    requires { (1 ≤ shards) × (shards ≤ 64) }
    ensures parts { IfOk result (λ s. ArePartsOf shards (placed chunk ops) s.parts.items) }
    ensures uses { IfOk result (λ s. uses_view s.uses ≡ used [] (uses_of_all ops)) }
{
    let mut sums = Sums::new(alloc, chunk, shards, hasher)?;
    for op in ops {
        sums.add(alloc, op)?;
    }
    Ok(sums.into_summary())
}

/// The same of operations that stay. Trees in them are copied.
///
/// Names are hashed under the empty key, which everyone knows: a document whose names were chosen to collide under it makes each look-up go through
/// all of them, so that summing takes a time quadratic in the names. Operations of a document that isn't trusted want [`summarise_all`], with a key
/// of their own.
///
/// # Errors
///
/// Only where memory is refused.
pub fn summarise(alloc: Global, ops: &Ops, chunk: u32, shards: u32) -> Result<Summary, AllocError>
    requires { (1 ≤ shards) × (shards ≤ 64) }
    ensures parts { IfOk result (λ s. ArePartsOf shards (placed chunk ops.now) s.parts.items) }
    ensures uses { IfOk result (λ s. uses_view s.uses ≡ used [] (uses_of_all ops.now)) }
{
    let summary = summarise_all(alloc, ops.copy(alloc)?, chunk, shards, Keyed::new(&[]))?;
    Ok(summary)
}

impl Sums {
    /// What no operation of the chunk with this number says, in so many shards. Names are hashed by this hasher.
    pub fn new(alloc: Global, chunk: u32, shards: u32, hasher: Keyed) -> Result<Sums, AllocError>
        requires { (1 ≤ shards) × (shards ≤ 64) }
        ensures { IfOk result (λ s. sums_view s ≡ nothing_said chunk shards) }
    {
        Ok(Sums {
            chunk,
            number: 0,
            sharded: Sharded::new(alloc, shards, hasher)?,
            uses: LabelUses::new(alloc, hasher),
        })
    }

    /// Turns to the chunk with this number, whose operations are told from here on. What was said before stays.
    pub fn turn_to(&mut self, chunk: u32)
        ensures { sums_view self.new ≡ turned_to chunk (sums_view self.old) }
    {
        self.chunk = chunk;
        self.number = 0;
    }

    /// Notes that a label of the document is needed: that of a type, or of a reverse property.
    pub fn use_label(&mut self, name: &Name) -> Result<(), AllocError>
        ensures { OnOk result (sums_view self.new ≡ tell (use_label (name_view name.now)) (sums_view self.old)) }
    {
        self.uses.note_name(name)?;
        self.number = after(self.number)?;
        Ok(())
    }

    /// Notes that a graph is there (step 6.10).
    pub fn ensure_graph(&mut self, graph: &Name) -> Result<(), AllocError>
        ensures { OnOk result (sums_view self.new ≡ tell (ensure_graph (name_view graph.now)) (sums_view self.old)) }
    {
        self.uses.note_name(graph)?;
        self.sharded.make_graph(graph)?;
        self.number = after(self.number)?;
        Ok(())
    }

    /// Notes that a node of a graph is there (steps 6.3 and 6.4).
    pub fn ensure_node(
        &mut self,
        alloc: Global,
        graph: &Name,
        node: &Name,
    ) -> Result<(), AllocError>
        ensures { OnOk result (sums_view self.new ≡ tell (ensure_node (name_view graph.now) (name_view node.now)) (sums_view self.old)) }
    {
        self.uses.note_node(graph, node)?;
        self.sharded.make_node(alloc, graph, node)?;
        self.number = after(self.number)?;
        Ok(())
    }

    /// Notes that a node has a property (step 6.12.2).
    pub fn ensure_property(
        &mut self,
        alloc: Global,
        graph: &Name,
        node: &Name,
        property: &Name,
    ) -> Result<(), AllocError>
        ensures { OnOk result (sums_view self.new ≡ tell (ensure_property (name_view graph.now) (name_view node.now) (name_view property.now)) (sums_view self.old)) }
    {
        self.uses.note_names(graph, node, property)?;
        let telling = Telling::Property(property);
        self.sharded.tell(alloc, graph, node, telling)?;
        self.number = after(self.number)?;
        Ok(())
    }

    /// Notes a value or a reference of a property (steps 4.1.2, 6.5.2 and 6.6.2.2).
    pub fn add_entry(
        &mut self,
        alloc: Global,
        graph: &Name,
        node: &Name,
        property: &Name,
        entry: Entry,
    ) -> Result<(), AllocError>
        ensures { OnOk result (sums_view self.new ≡ tell (add_entry (name_view graph.now) (name_view node.now) (name_view property.now) (entry_view entry)) (sums_view self.old)) }
    {
        self.uses.note_names(graph, node, property)?;
        note_entry(&mut self.uses, &entry)?;
        let telling = Telling::Entry(property, entry);
        self.sharded.tell(alloc, graph, node, telling)?;
        self.number = after(self.number)?;
        Ok(())
    }

    /// Notes a list of a property (step 5.3).
    pub fn append_list(
        &mut self,
        alloc: Global,
        graph: &Name,
        node: &Name,
        property: &Name,
        list: Entries,
    ) -> Result<(), AllocError>
        ensures { OnOk result (sums_view self.new ≡ tell (append_list (name_view graph.now) (name_view node.now) (name_view property.now) (entries_of list)) (sums_view self.old)) }
    {
        self.uses.note_names(graph, node, property)?;
        note_entries(&mut self.uses, &list)?;
        let telling = Telling::Entry(property, Entry::List(list));
        self.sharded.tell(alloc, graph, node, telling)?;
        self.number = after(self.number)?;
        Ok(())
    }

    /// Notes a type of a node (step 6.7).
    pub fn add_type(
        &mut self,
        alloc: Global,
        graph: &Name,
        node: &Name,
        name: Name,
    ) -> Result<(), AllocError>
        ensures { OnOk result (sums_view self.new ≡ tell (add_type (name_view graph.now) (name_view node.now) (name_view name)) (sums_view self.old)) }
    {
        self.uses.note_names(graph, node, &name)?;
        let telling = Telling::TypeName(name);
        self.sharded.tell(alloc, graph, node, telling)?;
        self.number = after(self.number)?;
        Ok(())
    }

    /// Notes the index of a node (step 6.8).
    pub fn set_index(
        &mut self,
        alloc: Global,
        graph: &Name,
        node: &Name,
        index: Text,
    ) -> Result<(), AllocError>
        ensures { OnOk result (sums_view self.new ≡ tell (set_index (name_view graph.now) (name_view node.now) index) (sums_view self.old)) }
    {
        self.uses.note_node(graph, node)?;
        let telling = Telling::Index(IndexAt::new(self.chunk, self.number, index));
        self.sharded.tell(alloc, graph, node, telling)?;
        self.number = after(self.number)?;
        Ok(())
    }

    /// What was said, as parts of so many shards and names that need labels.
    pub fn into_summary(self) -> Summary
        ensures parts { (length result.parts.items ≡ (sums_view self).shards) × ((k : ℕ) → IfSome (slice_get result.parts.items k) (λ p. part_view p ≡ (sums_view self).said k)) }
        ensures uses { uses_view result.uses ≡ (sums_view self).names }
    {
        let Sums {
            chunk: _,
            number: _,
            sharded,
            uses,
        } = self;
        let parts = sharded.into_parts();
        Summary { parts, uses }
    }

    /// Notes what an operation says.
    fn add(&mut self, alloc: Global, op: Op) -> Result<(), AllocError>
        ensures { OnOk result (sums_view self.new ≡ tell (op_view op) (sums_view self.old)) }
    {
        match op {
            Op::UseLabel { name } => self.use_label(&name)?,
            Op::EnsureGraph { graph } => self.ensure_graph(&graph)?,
            Op::EnsureNode { graph, node } => self.ensure_node(alloc, &graph, &node)?,
            Op::EnsureProperty {
                graph,
                node,
                property,
            } => self.ensure_property(alloc, &graph, &node, &property)?,
            Op::AddEntry {
                graph,
                node,
                property,
                entry,
            } => self.add_entry(alloc, &graph, &node, &property, entry)?,
            Op::AppendList {
                graph,
                node,
                property,
                list,
            } => self.append_list(alloc, &graph, &node, &property, list)?,
            Op::AddType { graph, node, name } => self.add_type(alloc, &graph, &node, name)?,
            Op::SetIndex { graph, node, index } => self.set_index(alloc, &graph, &node, index)?,
        }
        Ok(())
    }
}

/// How many operations there were, once there is one more.
fn after(number: u64) -> Result<u64, AllocError>
    ensures { IfOk result (λ n. n ≡ number + 1) }
{
    match number.checked_add(1) {
        Some(next) => Ok(next),
        None => Err(AllocError),
    }
}
