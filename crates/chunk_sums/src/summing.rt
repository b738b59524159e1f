// The steps of node map generation that tell sums what they do.
ghost use Rattle.std.specs.Prelude.{◌≡◌, ◌+◌, OnOk, IfOk};
ghost use Rattle.op_model.specs.Names.{fresh};
ghost use Rattle.op_types.specs.View.{name_view};
ghost use Rattle.subtree_summary.specs.OnTheWay.{sums_view};
ghost use Rattle.chunk_sums.specs.Summing.{on_the_way};
ghost use Rattle.chunk_sums.specs.Views.{summing_view};

use ld_tree::{Text, Tree};
use node_visit::Visit;
use op_types::{Entries, Entry, Name};
use std::alloc::{AllocError, Global};
use subtree_summary::Sums;

/// What was said on the way through a chunk so far.
#[derive(Drop)]
pub(crate) struct Summing {
    /// The number of the chunk.
    chunk: u32,
    /// How many nodes without an id there were.
    unnamed: u64,
    /// What was said.
    sums: Sums,
}

impl Summing {
    /// Before the first step of the chunk with this number, where this was said before.
    pub(crate) fn after(before: Sums, chunk: u32) -> Summing
        ensures { summing_view result ≡ on_the_way chunk (sums_view before) }
    {
        let mut sums = before;
        sums.turn_to(chunk);
        Summing {
            chunk,
            unnamed: 0,
            sums,
        }
    }

    pub(crate) fn into_sums(self) -> Sums
        ensures { sums_view result ≡ (summing_view self).so_far }
    {
        let Summing {
            chunk: _,
            unnamed: _,
            sums,
        } = self;
        sums
    }

    /// The name of the next node without an id.
    fn next(&mut self) -> Result<Name, AllocError>
        ensures name { IfOk result (λ n. name_view n ≡ fresh self.old.chunk self.old.unnamed) }
        ensures unnamed { OnOk result (self.new.unnamed ≡ self.old.unnamed + 1) }
        ensures chunk { self.new.chunk ≡ self.old.chunk }
        ensures sums { self.new.sums ≡ self.old.sums }
    {
        let number = self.unnamed;
        match number.checked_add(1) {
            Some(unnamed) => self.unnamed = unnamed,
            None => return Err(AllocError),
        }
        Ok(Name::Fresh {
            chunk: self.chunk,
            number,
        })
    }
}

impl Visit for Summing {
    ghost use Rattle.op_model.specs.Names.{Name as NameData};
    ghost use Rattle.op_model.specs.Ops.{Entry as EntryData};
    ghost use Rattle.op_types.specs.View.{name_view};
    ghost use Rattle.chunk_sums.specs.Summing.{OnTheWay, summing};
    ghost use Rattle.chunk_sums.specs.Views.{summing_view};

    type Name = Name;

    type Items = Entries;

    ghost State = { OnTheWay };

    ghost N = { NameData };

    ghost E = { EntryData };

    ghost steps = { summing };

    ghost state = { summing_view };

    ghost name = { name_view };

    ghost items = { λ es. es };

    fn no_items(&self, alloc: Global) -> Entries {
        Entries::new(alloc)
    }

    fn push_value(
        &self,
        alloc: Global,
        list: &mut Entries,
        value: &Tree,
    ) -> Result<(), AllocError> {
        list.push(Entry::Value(value.copy(alloc)?))?;
        Ok(())
    }

    fn push_reference(
        &self,
        _alloc: Global,
        list: &mut Entries,
        node: &Name,
    ) -> Result<(), AllocError> {
        list.push(Entry::Reference(node.copy()?))?;
        Ok(())
    }

    fn push_list(
        &self,
        _alloc: Global,
        list: &mut Entries,
        inner: Entries,
    ) -> Result<(), AllocError> {
        list.push(Entry::List(inner))?;
        Ok(())
    }

    fn named(&mut self, _alloc: Global, text: &Text) -> Result<Name, AllocError> {
        if text.is_blank() {
            let name = Name::Source(text.copy()?);
            self.sums.use_label(&name)?;
            return Ok(name);
        }
        Ok(Name::Iri(text.copy()?))
    }

    fn node(&mut self, alloc: Global, graph: &Name, id: Option<&Text>) -> Result<Name, AllocError> {
        match id {
            Some(text) => {
                let name = Name::of(text.copy()?);
                self.sums.ensure_node(alloc, graph, &name)?;
                Ok(name)
            }
            None => {
                let name = self.next()?;
                self.sums.ensure_node(alloc, graph, &name)?;
                Ok(name)
            }
        }
    }

    fn property(
        &mut self,
        alloc: Global,
        graph: &Name,
        node: &Name,
        text: &Text,
    ) -> Result<Name, AllocError> {
        let name = Name::of(text.copy()?);
        self.sums.ensure_property(alloc, graph, node, &name)?;
        Ok(name)
    }

    fn graph(&mut self, _alloc: Global, graph: &Name) -> Result<(), AllocError> {
        self.sums.ensure_graph(graph)?;
        Ok(())
    }

    fn add_value(
        &mut self,
        alloc: Global,
        graph: &Name,
        node: &Name,
        property: &Name,
        value: &Tree,
    ) -> Result<(), AllocError> {
        let entry = Entry::Value(value.copy(alloc)?);
        self.sums.add_entry(alloc, graph, node, property, entry)?;
        Ok(())
    }

    fn add_reference(
        &mut self,
        alloc: Global,
        graph: &Name,
        node: &Name,
        property: &Name,
        target: &Name,
    ) -> Result<(), AllocError> {
        let reference = Entry::Reference(target.copy()?);
        self.sums
            .add_entry(alloc, graph, node, property, reference)?;
        Ok(())
    }

    fn append(
        &mut self,
        alloc: Global,
        graph: &Name,
        node: &Name,
        property: &Name,
        list: Entries,
    ) -> Result<(), AllocError> {
        self.sums.append_list(alloc, graph, node, property, list)?;
        Ok(())
    }

    fn add_type(
        &mut self,
        alloc: Global,
        graph: &Name,
        node: &Name,
        type_name: Name,
    ) -> Result<(), AllocError> {
        self.sums.add_type(alloc, graph, node, type_name)?;
        Ok(())
    }

    fn set_index(
        &mut self,
        alloc: Global,
        graph: &Name,
        node: &Name,
        index: &Text,
    ) -> Result<(), AllocError> {
        self.sums.set_index(alloc, graph, node, index.copy()?)?;
        Ok(())
    }
}
