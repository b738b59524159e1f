// What was divided of a document so far, and the steps of a spine.
ghost use Rattle.std.specs.Prelude.{◌≡◌, ◌+◌, ◌++◌, ◌∷◌, [], not, OnOk, IfOk, map as each};
ghost use Rattle.op_model.specs.Names.{fresh};
ghost use Rattle.op_model.specs.Noting.{note};
ghost use Rattle.ld_tree.specs.View.{trees_view};
ghost use Rattle.node_walk.specs.Seen.{to_view};
ghost use Rattle.op_types.specs.View.{name_view, op_view};
ghost use Rattle.chunk_ops.specs.Views.{chunk_view};
ghost use Rattle.division_model.specs.Dividing as model;
ghost use Rattle.division_model.specs.Dividing.{on_notes, range_ended, spine_ended, undivided};
ghost use Rattle.division_model.specs.ByWeight.{are_few};
ghost use Rattle.division_cut.specs.Views.{division_view};

use chunk_ops::{
    Chunk, add_entry, add_type, append_list, ensure_graph, ensure_node, ensure_property, set_index,
    use_label,
};
use ld_tree::{Text, Tree};
use node_visit::Visit;
use node_walk::To;
use op_types::{Entries, Entry, Name, Op, Ops};
use std::alloc::{AllocError, Global};
use std::mem;

/// A document has at most so many chunks.
const MOST_CHUNKS: usize = 4096;

/// The chunks so far, and the spine under way.
#[derive(Drop)]
pub(crate) struct Division<'d> {
    /// The chunks.
    chunks: Vec<Chunk<'d>>,
    /// The number of the chunk that the spine will be.
    number: u32,
    /// How many nodes without an id it has had.
    unnamed: u64,
    /// Its operations.
    ops: Ops,
}

impl<'d> Division<'d> {
    /// Before the first step of a document.
    pub(crate) fn new(alloc: Global) -> Division<'d>
        ensures { division_view result ≡ undivided }
    {
        Division {
            chunks: Vec::new(alloc),
            number: 0,
            unnamed: 0,
            ops: Ops::new(alloc),
        }
    }

    /// Whether there are more chunks than a document has. Then they are of no use, and nothing more has to be divided.
    pub(crate) fn is_over(&self) -> bool
        ensures { result ≡ not (are_few (division_view self.now).chunks) }
    {
        self.chunks.len() > MOST_CHUNKS
    }

    /// The chunks.
    pub(crate) fn into_chunks(self) -> Vec<Chunk<'d>>
        ensures { each chunk_view result.items ≡ (division_view self.entry).chunks }
    {
        let Division {
            chunks,
            number: _,
            unnamed: _,
            ops: _,
        } = self;
        chunks
    }

    /// Ends the spine under way. Without operations it is left out.
    pub(crate) fn end(&mut self, alloc: Global) -> Result<(), AllocError>
        ensures { OnOk result (division_view self.new ≡ spine_ended (division_view self.old)) }
    {
        self.unnamed = 0;
        if self.ops.is_empty() {
            return Ok(());
        }
        let ops = mem::replace(&mut self.ops, Ops::new(alloc));
        self.push(Chunk::Spine { ops })?;
        Ok(())
    }

    /// Makes these items of an array a chunk, unless there are none.
    pub(crate) fn range<'a>(
        &mut self,
        alloc: Global,
        graph: &'a Name,
        to: To<&'a Name>,
        items: &'d [Tree],
    ) -> Result<(), AllocError>
        ensures { OnOk result (division_view self.new ≡ range_ended (name_view graph.now) (to_view name_view to.entry) (trees_view items.now) (division_view self.old)) }
    {
        if items.is_empty() {
            return Ok(());
        }
        self.end(alloc)?;
        self.push(range_of(graph, to, items)?)?;
        Ok(())
    }

    fn push(&mut self, chunk: Chunk<'d>) -> Result<(), AllocError>
        ensures chunks { OnOk result (each chunk_view self.new.chunks.items ≡ each chunk_view self.old.chunks.items ++ chunk_view chunk.entry ∷ []) }
        ensures number { OnOk result (self.new.number ≡ self.old.number + 1) }
        ensures unnamed { self.new.unnamed ≡ self.old.unnamed }
        ensures ops { self.new.ops ≡ self.old.ops }
    {
        match self.number.checked_add(1) {
            Some(number) => self.number = number,
            None => return Err(AllocError),
        }
        self.chunks.push(chunk)?;
        Ok(())
    }

    fn note(&mut self, op: Op) -> Result<(), AllocError>
        ensures { OnOk result (division_view self.new ≡ on_notes (note (op_view op)) (division_view self.old)) }
    {
        self.ops.push(op)?;
        Ok(())
    }

    /// The name of the next node without an id.
    fn next(&mut self) -> Result<Name, AllocError>
        ensures name { IfOk result (λ n. name_view n ≡ fresh self.old.number self.old.unnamed) }
        ensures unnamed { OnOk result (self.new.unnamed ≡ self.old.unnamed + 1) }
        ensures number { self.new.number ≡ self.old.number }
        ensures chunks { self.new.chunks ≡ self.old.chunks }
        ensures ops { self.new.ops ≡ self.old.ops }
    {
        let number = self.unnamed;
        match number.checked_add(1) {
            Some(unnamed) => self.unnamed = unnamed,
            None => return Err(AllocError),
        }
        Ok(Name::Fresh {
            chunk: self.number,
            number,
        })
    }
}

/// A range of items of an array, where it stands.
fn range_of<'a, 'd>(
    graph: &'a Name,
    to: To<&'a Name>,
    items: &'d [Tree],
) -> Result<Chunk<'d>, AllocError>
    ensures { IfOk result (λ c. chunk_view c ≡ model.range_of (name_view graph.now) (to_view name_view to.entry) (trees_view items.now)) }
{
    let graph = graph.copy()?;
    match to {
        To::Under(subject, property) => Ok(Chunk::Range {
            items,
            graph,
            subject: Some(subject.copy()?),
            property: Some(property.copy()?),
            reverse: false,
        }),
        To::Reverse(subject, property) => Ok(Chunk::Range {
            items,
            graph,
            subject: Some(subject.copy()?),
            property: Some(property.copy()?),
            reverse: true,
        }),
        _ => Ok(Chunk::Range {
            items,
            graph,
            subject: None,
            property: None,
            reverse: false,
        }),
    }
}

impl<'d> Visit for Division<'d> {
    ghost use Rattle.op_model.specs.Names.{Name as NameData};
    ghost use Rattle.op_model.specs.Ops.{Entry as EntryData};
    ghost use Rattle.op_types.specs.View.{name_view};
    ghost use Rattle.division_model.specs.Dividing.{Division as DivisionData, spine_noting};
    ghost use Rattle.division_cut.specs.Views.{division_view};

    type Name = Name;

    type Items = Entries;

    ghost State = { DivisionData };

    ghost N = { NameData };

    ghost E = { EntryData };

    ghost steps = { spine_noting };

    ghost state = { division_view };

    ghost name = { name_view };

    ghost items = { λ es. es };

    fn no_items(&self, alloc: Global) -> Entries {
        Entries::new(alloc)
    }

    fn push_value(
        &self,
        alloc: Global,
        list: &mut Entries,
        value: &Tree,
    ) -> Result<(), AllocError> {
        list.push(Entry::Value(value.copy(alloc)?))?;
        Ok(())
    }

    fn push_reference(
        &self,
        _alloc: Global,
        list: &mut Entries,
        node: &Name,
    ) -> Result<(), AllocError> {
        list.push(Entry::Reference(node.copy()?))?;
        Ok(())
    }

    fn push_list(
        &self,
        _alloc: Global,
        list: &mut Entries,
        inner: Entries,
    ) -> Result<(), AllocError> {
        list.push(Entry::List(inner))?;
        Ok(())
    }

    fn named(&mut self, _alloc: Global, text: &Text) -> Result<Name, AllocError> {
        if text.is_blank() {
            let name = Name::Source(text.copy()?);
            self.note(use_label(&name)?)?;
            return Ok(name);
        }
        Ok(Name::Iri(text.copy()?))
    }

    fn node(
        &mut self,
        _alloc: Global,
        graph: &Name,
        id: Option<&Text>,
    ) -> Result<Name, AllocError> {
        match id {
            Some(text) => {
                let name = Name::of(text.copy()?);
                self.note(ensure_node(graph, &name)?)?;
                Ok(name)
            }
            None => {
                let name = self.next()?;
                self.note(ensure_node(graph, &name)?)?;
                Ok(name)
            }
        }
    }

    fn property(
        &mut self,
        _alloc: Global,
        graph: &Name,
        node: &Name,
        text: &Text,
    ) -> Result<Name, AllocError> {
        let name = Name::of(text.copy()?);
        self.note(ensure_property(graph, node, &name)?)?;
        Ok(name)
    }

    fn graph(&mut self, _alloc: Global, graph: &Name) -> Result<(), AllocError> {
        self.note(ensure_graph(graph)?)?;
        Ok(())
    }

    fn add_value(
        &mut self,
        alloc: Global,
        graph: &Name,
        node: &Name,
        property: &Name,
        value: &Tree,
    ) -> Result<(), AllocError> {
        self.note(add_entry(graph, node, property, Entry::Value(value.copy(alloc)?))?)?;
        Ok(())
    }

    fn add_reference(
        &mut self,
        _alloc: Global,
        graph: &Name,
        node: &Name,
        property: &Name,
        target: &Name,
    ) -> Result<(), AllocError> {
        let entry = Entry::Reference(target.copy()?);
        self.note(add_entry(graph, node, property, entry)?)?;
        Ok(())
    }

    fn append(
        &mut self,
        _alloc: Global,
        graph: &Name,
        node: &Name,
        property: &Name,
        list: Entries,
    ) -> Result<(), AllocError> {
        self.note(append_list(graph, node, property, list)?)?;
        Ok(())
    }

    fn add_type(
        &mut self,
        _alloc: Global,
        graph: &Name,
        node: &Name,
        type_name: Name,
    ) -> Result<(), AllocError> {
        self.note(add_type(graph, node, type_name)?)?;
        Ok(())
    }

    fn set_index(
        &mut self,
        _alloc: Global,
        graph: &Name,
        node: &Name,
        index: &Text,
    ) -> Result<(), AllocError> {
        self.note(set_index(graph, node, index.copy()?)?)?;
        Ok(())
    }
}
