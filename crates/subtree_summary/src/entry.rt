// What is said of a node, as a log.
ghost use Rattle.std.specs.Prelude.{◌≡◌, [], ◌∷◌, ◌++◌, true, None, Some, OnOk, IfOk, IsOk};
ghost use Rattle.op_model.specs.Names.{Name as Named};
ghost use Rattle.op_types.specs.View.{name_view, entry_view};
ghost use Rattle.sum_model.specs.Sums as model;
ghost use Rattle.sum_model.specs.Sums.{bare, indexes_joined, part_entries_joined, properties_joined};
ghost use Rattle.subtree_summary.specs.Log.{second_view, index_at_view, index_view, joined_at, properties_view, last_property, part_entry_view, said, HasRoom};

use ld_tree::Text;
use op_types::{Entry, Name};
use std::alloc::{AllocError, Global};

/// An index of a node that differs from the first one.
#[derive(Drop)]
pub struct SecondIndex {
    /// The chunk of the operation that sets it.
    pub chunk: u32,
    /// The number of that operation, from 0, among all of the chunk.
    pub op: u64,
    /// The index.
    pub index: Text,
}

/// The first index of a node.
#[derive(Drop)]
pub struct IndexAt {
    /// The chunk of the operation that sets it.
    pub chunk: u32,
    /// The number of that operation, from 0, among all of the chunk.
    pub op: u64,
    /// The index.
    pub index: Text,
    /// The first later index that differs.
    pub conflict: Option<SecondIndex>,
}

/// What was said of a property without a break, in the order in which it was said.
#[derive(Drop)]
pub struct Told {
    /// The property.
    pub property: Name,
    /// The entries.
    pub entries: Vec<Entry>,
}

/// What was said of a node. A type or an entry may be there twice, and a property wherever it was told of.
#[derive(Drop)]
pub struct PartEntry {
    /// The types, in the order in which they were said.
    pub types: Vec<Name>,
    /// The first index, and whether another one came. It stands in a block of its own, since few nodes have one.
    pub index: Option<Box<IndexAt>>,
    /// What was said of properties, in the order in which it was said.
    pub told: Vec<Told>,
}

/// What an operation says of a node.
#[derive(Drop)]
pub(crate) enum Telling<'a> {
    /// That it has this property.
    Property(&'a Name),
    /// An entry of a property.
    Entry(&'a Name, Entry),
    /// A type.
    TypeName(Name),
    /// Its index.
    Index(IndexAt),
}

impl PartEntry {
    /// A node of which nothing was said but that it is there.
    pub fn new(alloc: Global) -> PartEntry
        ensures { part_entry_view result ≡ bare }
    {
        PartEntry {
            types: Vec::new(alloc),
            index: None,
            told: Vec::new(alloc),
        }
    }

    /// Notes what is said of the node.
    pub(crate) fn tell(&mut self, alloc: Global, telling: Telling<'_>) -> Result<(), AllocError>
        ensures { OnOk result (part_entry_view self.new ≡ part_entries_joined (part_entry_view self.old) (said telling.entry)) }
    {
        match telling {
            Telling::Property(property) => {
                tell_property(alloc, &mut self.told, property)?;
                Ok(())
            }
            Telling::Entry(property, entry) => {
                tell_entry(alloc, &mut self.told, property, entry)?;
                Ok(())
            }
            Telling::TypeName(name) => {
                self.types.push(name)?;
                Ok(())
            }
            Telling::Index(index) => {
                let index = Box::new(alloc, index)?;
                self.index = joined(self.index.take(), Some(index));
                Ok(())
            }
        }
    }

    /// Puts what a later part has of the node behind this, in a time linear in the later one. It takes no memory where there is room.
    ///
    /// # Errors
    ///
    /// Only where memory is refused; then some of it may be lost.
    pub fn append(&mut self, later: PartEntry) -> Result<(), AllocError>
        ensures joined { OnOk result (part_entry_view self.new ≡ part_entries_joined (part_entry_view self.old) (part_entry_view later)) }
        ensures succeeds { HasRoom self.old later → IsOk result }
    {
        let PartEntry {
            mut types,
            index,
            mut told,
        } = later;
        self.types.append(&mut types)?;
        self.told.append(&mut told)?;
        self.index = joined(self.index.take(), index);
        Ok(())
    }

    /// Makes room for what a later part has of the node. Whether memory is refused or not, what was said stays.
    pub fn make_room(&mut self, later: &PartEntry) -> Result<(), AllocError>
        ensures same { part_entry_view self.new ≡ part_entry_view self.old }
        ensures room { OnOk result (HasRoom self.new later.now) }
    {
        self.types.reserve(later.types.len())?;
        self.told.reserve(later.told.len())?;
        Ok(())
    }
}

/// Notes that there is this property. What was said last is of this property then.
fn tell_property(alloc: Global, log: &mut Vec<Told>, property: &Name) -> Result<(), AllocError>
    ensures told { OnOk result (properties_view log.new.items ≡ properties_joined (properties_view log.old.items) ((name_view property.now, []) ∷ [])) }
    ensures last { OnOk result (last_property log.new.items ≡ Some (name_view property.now)) }
{
    if ends_with(log.as_slice(), property) {
        return Ok(());
    }
    let told = nothing_told(alloc, property)?;
    push_told(log, told)?;
    Ok(())
}

fn tell_entry(
    alloc: Global,
    log: &mut Vec<Told>,
    property: &Name,
    entry: Entry,
) -> Result<(), AllocError>
    ensures { OnOk result (properties_view log.new.items ≡ properties_joined (properties_view log.old.items) ((name_view property.now, entry_view entry ∷ []) ∷ [])) }
{
    tell_property(alloc, log, property)?;
    add_to_last(log, entry)?;
    Ok(())
}

/// Whether what was said last was said of this property.
fn ends_with(log: &[Told], property: &Name) -> bool
    ensures { result ≡ true → last_property log.now ≡ Some (name_view property.now) }
{
    match log.last() {
        Some(last) => last.property == *property,
        None => false,
    }
}

/// Puts something said behind the rest. Many nodes have one property, so there is room for one at first.
fn push_told(log: &mut Vec<Told>, told: Told) -> Result<(), AllocError>
    ensures { OnOk result (log.new.items ≡ log.old.items ++ told ∷ []) }
{
    if log.is_empty() {
        log.reserve_exact(1)?;
    }
    log.push(told)?;
    Ok(())
}

/// Puts an entry behind those of the property of which something was said last.
fn add_to_last(log: &mut Vec<Told>, entry: Entry) -> Result<(), AllocError>
    ensures { OnOk result ((p : Named) → last_property log.old.items ≡ Some p → properties_view log.new.items ≡ properties_joined (properties_view log.old.items) ((p, entry_view entry ∷ []) ∷ [])) }
{
    match log.last_mut() {
        Some(last) => {
            last.entries.push(entry)?;
            Ok(())
        }
        None => Ok(()),
    }
}

/// Nothing, of this property, whose name is copied here. There is room for one entry, since most properties have one.
fn nothing_told(alloc: Global, property: &Name) -> Result<Told, AllocError>
    ensures property { IfOk result (λ t. name_view t.property ≡ name_view property.now) }
    ensures entries { IfOk result (λ t. t.entries.items ≡ []) }
{
    Ok(Told {
        property: property.copy()?,
        entries: Vec::with_capacity(alloc, 1)?,
    })
}

/// The index of a node, where a part has it and then a later one has: that of the earlier part stays.
fn joined(earlier: Option<Box<IndexAt>>, later: Option<Box<IndexAt>>) -> Option<Box<IndexAt>>
    ensures { index_view result ≡ indexes_joined (index_view earlier) (index_view later) }
{
    let Some(earlier) = earlier else {
        return later;
    };
    let Some(later) = later else {
        return Some(earlier);
    };
    Some(both(earlier, later))
}

/// An index, once a later one is set.
fn both(earlier: Box<IndexAt>, later: Box<IndexAt>) -> Box<IndexAt>
    ensures { index_at_view result.value ≡ joined_at (index_at_view earlier.value) (index_at_view later.value) }
{
    let mut index = earlier;
    index.follow(Box::into_inner(later));
    index
}

impl IndexAt {
    /// The index that this operation of this chunk sets, where no other is set.
    pub(crate) fn new(chunk: u32, op: u64, index: Text) -> IndexAt
        ensures { index_at_view result ≡ record { place = record { chunk = chunk; number = op }; text = index; conflict = None } }
    {
        IndexAt {
            chunk,
            op,
            index,
            conflict: None,
        }
    }

    /// Notes that a later one is set.
    fn follow(&mut self, later: IndexAt)
        ensures { index_at_view self.new ≡ joined_at (index_at_view self.old) (index_at_view later) }
    {
        self.conflict = first_different(&self.index, self.conflict.take(), later);
    }
}

/// The first index that differs from this one, where there was one or none before the later index came.
fn first_different(
    index: &Text,
    conflict: Option<SecondIndex>,
    later: IndexAt,
) -> Option<SecondIndex>
    ensures { second_view result ≡ model.conflict_with index.now (second_view conflict) (index_at_view later) }
{
    match conflict {
        Some(first) => Some(first),
        None => different(index, later),
    }
}

/// The later index, where it differs from this one; else the one that differs from both.
fn different(index: &Text, later: IndexAt) -> Option<SecondIndex>
    ensures { second_view result ≡ model.conflict_with index.now None (index_at_view later) }
{
    let IndexAt {
        chunk,
        op,
        index: second,
        conflict,
    } = later;
    if index.as_str() == second.as_str() {
        return conflict;
    }
    Some(SecondIndex {
        chunk,
        op,
        index: second,
    })
}
