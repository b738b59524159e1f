// The steps of node map generation that note operations.
ghost use Rattle.std.specs.Prelude.{◌≡◌, ◌+◌, OnOk, IfOk};
ghost use Rattle.op_model.specs.Names.{fresh};
ghost use Rattle.op_model.specs.Noting.{no_notes, note};
ghost use Rattle.op_types.specs.View.{name_view, op_view};
ghost use Rattle.chunk_ops.specs.Views.{notes_view};

use crate::operations::{
    add_entry, add_type, append_list, ensure_graph, ensure_node, ensure_property, set_index,
    use_label,
};
use ld_tree::{Text, Tree};
use node_walk::Gather;
use op_types::{Entries, Entry, Name, Op, Ops};
use std::alloc::{AllocError, Global};

/// What was noted of a chunk so far.
#[derive(Drop)]
pub(crate) struct Notes {
    chunk: u32,
    unnamed: u64,
    ops: Ops,
}

impl Notes {
    /// Before the first step of the chunk with this number.
    pub(crate) fn new(alloc: Global, chunk: u32) -> Notes
        ensures { notes_view result ≡ no_notes chunk }
    {
        Notes {
            chunk,
            unnamed: 0,
            ops: Ops::new(alloc),
        }
    }

    /// The operations.
    pub(crate) fn into_ops(self) -> Ops
        ensures { result ≡ (notes_view self).ops }
    {
        let Notes {
            chunk: _,
            unnamed: _,
            ops,
        } = self;
        ops
    }

    fn note(&mut self, op: Op) -> Result<(), AllocError>
        ensures { OnOk result (notes_view self.new ≡ note (op_view op) (notes_view self.old)) }
    {
        self.ops.push(op)?;
        Ok(())
    }

    /// The name of the next node without an id.
    fn next(&mut self) -> Result<Name, AllocError>
        ensures name { IfOk result (λ n. name_view n ≡ fresh self.old.chunk self.old.unnamed) }
        ensures unnamed { OnOk result (self.new.unnamed ≡ self.old.unnamed + 1) }
        ensures chunk { self.new.chunk ≡ self.old.chunk }
        ensures ops { self.new.ops ≡ self.old.ops }
    {
        let number = self.unnamed;
        match number.checked_add(1) {
            Some(unnamed) => self.unnamed = unnamed,
            None => return Err(AllocError),
        }
        Ok(Name::Fresh {
            chunk: self.chunk,
            number,
        })
    }
}

impl Gather for Notes {
    ghost use Rattle.op_model.specs.Names.{Name as NameData};
    ghost use Rattle.op_model.specs.Ops.{Entry as EntryData};
    ghost use Rattle.op_model.specs.Noting.{Notes as NotesData, noting};
    ghost use Rattle.op_types.specs.View.{name_view};
    ghost use Rattle.chunk_ops.specs.Views.{notes_view};

    type Name = Name;

    type Items = Entries;

    ghost State = { NotesData };

    ghost N = { NameData };

    ghost E = { EntryData };

    ghost steps = { noting };

    ghost state = { notes_view };

    ghost name = { name_view };

    ghost items = { λ es. es };

    fn no_items(&self, alloc: Global) -> Entries {
        Entries::new(alloc)
    }

    fn push_value(&self, list: &mut Entries, value: Tree) -> Result<(), AllocError> {
        list.push(Entry::Value(value))?;
        Ok(())
    }

    fn push_reference(
        &self,
        _alloc: Global,
        list: &mut Entries,
        node: &Name,
    ) -> Result<(), AllocError> {
        list.push(Entry::Reference(node.copy()?))?;
        Ok(())
    }

    fn push_list(
        &self,
        _alloc: Global,
        list: &mut Entries,
        inner: Entries,
    ) -> Result<(), AllocError> {
        list.push(Entry::List(inner))?;
        Ok(())
    }

    fn named(&mut self, _alloc: Global, text: Text) -> Result<Name, AllocError> {
        if text.is_blank() {
            let name = Name::Source(text);
            self.note(use_label(&name)?)?;
            return Ok(name);
        }
        Ok(Name::Iri(text))
    }

    fn node(&mut self, _alloc: Global, graph: &Name, id: Option<Text>) -> Result<Name, AllocError> {
        match id {
            Some(text) => {
                let name = Name::of(text);
                self.note(ensure_node(graph, &name)?)?;
                Ok(name)
            }
            None => {
                let name = self.next()?;
                self.note(ensure_node(graph, &name)?)?;
                Ok(name)
            }
        }
    }

    fn property(
        &mut self,
        _alloc: Global,
        graph: &Name,
        node: &Name,
        text: Text,
    ) -> Result<Name, AllocError> {
        let name = Name::of(text);
        self.note(ensure_property(graph, node, &name)?)?;
        Ok(name)
    }

    fn graph(&mut self, _alloc: Global, graph: &Name) -> Result<(), AllocError> {
        self.note(ensure_graph(graph)?)?;
        Ok(())
    }

    fn add_value(
        &mut self,
        _alloc: Global,
        graph: &Name,
        node: &Name,
        property: &Name,
        value: Tree,
    ) -> Result<(), AllocError> {
        self.note(add_entry(graph, node, property, Entry::Value(value))?)?;
        Ok(())
    }

    fn add_reference(
        &mut self,
        _alloc: Global,
        graph: &Name,
        node: &Name,
        property: &Name,
        target: &Name,
    ) -> Result<(), AllocError> {
        let entry = Entry::Reference(target.copy()?);
        self.note(add_entry(graph, node, property, entry)?)?;
        Ok(())
    }

    fn append(
        &mut self,
        _alloc: Global,
        graph: &Name,
        node: &Name,
        property: &Name,
        list: Entries,
    ) -> Result<(), AllocError> {
        self.note(append_list(graph, node, property, list)?)?;
        Ok(())
    }

    fn add_type(
        &mut self,
        _alloc: Global,
        graph: &Name,
        node: &Name,
        type_name: Name,
    ) -> Result<(), AllocError> {
        self.note(add_type(graph, node, type_name)?)?;
        Ok(())
    }

    fn set_index(
        &mut self,
        _alloc: Global,
        graph: &Name,
        node: &Name,
        index: Text,
    ) -> Result<(), AllocError> {
        self.note(set_index(graph, node, index)?)?;
        Ok(())
    }
}
