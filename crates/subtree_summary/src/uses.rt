// The names that need labels, in the order of first use.
ghost use Rattle.std.specs.Prelude.{◌≡◌, [], ◌++◌, true, OnOk};
ghost use Rattle.std.specs.List.{list_any};
ghost use Rattle.op_model.specs.Names.{blank};
ghost use Rattle.op_model.specs.Running.{with_name, used, uses_of_entry};
ghost use Rattle.op_types.specs.View.{name_view, entry_view};
ghost use Rattle.subtree_summary.specs.Parts.{same_code_name};
ghost use Rattle.subtree_summary.specs.Uses.{uses_view, uses_of_list};

use crate::keyed::Keyed;
use indexmap::IndexSet;
use op_types::{Entries, Entry, Name};
use std::alloc::{AllocError, Global};

/// Names that need labels, each once, in the order of first use.
#[derive(Drop)]
pub struct LabelUses {
    /// The names.
    pub names: IndexSet<Name, Keyed>,
}

impl LabelUses {
    /// No name. Those that are noted are hashed by this hasher.
    pub fn new(alloc: Global, hasher: Keyed) -> LabelUses
        ensures { uses_view result ≡ [] }
    {
        LabelUses {
            names: IndexSet::with_hasher(alloc, hasher),
        }
    }

    /// Notes a graph and a node.
    pub(crate) fn note_node(&mut self, graph: &Name, node: &Name) -> Result<(), AllocError>
        ensures { OnOk result (uses_view self.new ≡ used (uses_view self.old) (blank (name_view graph.now) ++ blank (name_view node.now))) }
    {
        self.note_name(graph)?;
        self.note_name(node)?;
        Ok(())
    }

    /// Notes a graph, a node, and a property or a type.
    pub(crate) fn note_names(
        &mut self,
        graph: &Name,
        node: &Name,
        third: &Name,
    ) -> Result<(), AllocError>
        ensures { OnOk result (uses_view self.new ≡ used (uses_view self.old) (blank (name_view graph.now) ++ (blank (name_view node.now) ++ blank (name_view third.now)))) }
    {
        self.note_name(graph)?;
        self.note_name(node)?;
        self.note_name(third)?;
        Ok(())
    }

    /// Notes a name, where it needs a label. It is copied where it is new.
    pub(crate) fn note_name(&mut self, name: &Name) -> Result<(), AllocError>
        ensures { OnOk result (uses_view self.new ≡ used (uses_view self.old) (blank (name_view name.now))) }
    {
        if !name.is_blank() {
            return Ok(());
        }
        self.note_blank(name)?;
        Ok(())
    }

    fn note_blank(&mut self, name: &Name) -> Result<(), AllocError>
        ensures { OnOk result (uses_view self.new ≡ with_name (uses_view self.old) (name_view name.now)) }
    {
        if self.ends_with(name) {
            return Ok(());
        }
        self.names.insert(name.copy()?)?;
        Ok(())
    }

    /// Whether this name was the last new one. A name is used several times in a row, so it is mostly not looked up.
    fn ends_with(&self, name: &Name) -> bool
        ensures { result ≡ true → list_any (same_code_name name.now) self.now.names.keys ≡ true }
    {
        match self.names.last() {
            Some(last) => *name == *last,
            None => false,
        }
    }
}

/// Notes the names that an entry uses, those of a list in the order of its entries.
#[cycle(note)]
pub(crate) fn note_entry(uses: &mut LabelUses, entry: &Entry) -> Result<(), AllocError>
    ensures { OnOk result (uses_view uses.new ≡ used (uses_view uses.old) (uses_of_entry (entry_view entry.now))) }
{
    match entry {
        Entry::Value(_) => Ok(()),
        Entry::Reference(name) => {
            uses.note_name(name)?;
            Ok(())
        }
        Entry::List(entries) => {
            note_entries(uses, entries)?;
            Ok(())
        }
    }
}

/// Notes the names that the entries of a list use, in their order.
#[cycle(note)]
pub(crate) fn note_entries(uses: &mut LabelUses, entries: &Entries) -> Result<(), AllocError>
    ensures { OnOk result (uses_view uses.new ≡ used (uses_view uses.old) (uses_of_list entries.now)) }
{
    for entry in entries {
        note_entry(uses, entry)?;
    }
    Ok(())
}
