// What stands under a property.
ghost use Rattle.std.specs.Prelude.{◌≡◌, [], ◌∷◌, ◌++◌, length, IfOk, OnOk, OnErr, slice_get};
ghost use Rattle.std.specs.Option.{option_map};
ghost use Rattle.ld_model.specs.Tree.{is_empty};
ghost use Rattle.op_types.specs.View.{entry_view, entries_view};

use crate::name::Name;
use ld_tree::Tree;
use std::alloc::{AllocError, Global};
use std::marker::Model;

/// What stands under a property of a node.
#[cycle(entry)]
#[derive(Drop)]
pub enum Entry {
    /// A value object.
    Value(Tree),
    /// A reference to a node.
    Reference(Name),
    /// A list.
    List(Entries),
}

/// The entries of a list, in order.
#[cycle(entry)]
#[derive(Drop)]
pub struct Entries {
    items: Vec<Entry>,
}

impl Model for Entries {
    ghost use Rattle.std.specs.Prelude.{List};
    ghost use Rattle.std.specs.Coded.{coded_list};
    ghost use Rattle.op_model.specs.Ops.{Entry as EntryData};
    ghost use Rattle.op_types.specs.Codes.{entry_code};

    ghost Value = { List EntryData };

    ghost coded = { coded_list entry_code };

    ghost use Rattle.op_types.specs.View.{entries_view, entries_size};

    ghost view = { λ e. entries_view e.items.items };

    ghost size = { entries_size };

    ghost use Rattle.op_types.specs.Falls.{entries_fall};

    ghost size_decreases = { λ a h. entries_fall a.items.items };
}

impl Entries {
    /// An empty list.
    pub fn new(alloc: Global) -> Entries
        ensures { result ≡ [] }
    {
        Entries {
            items: Vec::new(alloc),
        }
    }

    /// An empty list with room for that many entries.
    pub fn with_capacity(alloc: Global, capacity: usize) -> Result<Entries, AllocError>
        ensures { IfOk result (λ es. es ≡ []) }
    {
        Ok(Entries {
            items: Vec::with_capacity(alloc, capacity)?,
        })
    }

    /// How many entries there are.
    pub fn len(&self) -> usize
        ensures { result ≡ length self.now }
    {
        self.items.len()
    }

    /// Whether there is no entry.
    pub fn is_empty(&self) -> bool
        ensures { result ≡ is_empty self.now }
    {
        self.items.is_empty()
    }

    /// The entry with this number, counted from 0; None where there is none.
    pub fn get(&self, number: usize) -> Option<&Entry>
        ensures { option_map (λ e. entry_view e.now) result ≡ slice_get self.now number }
    {
        self.items.get(number)
    }

    /// The entries, as a slice.
    pub(crate) fn as_slice(&self) -> &[Entry]
        ensures { entries_view result.now ≡ self.now }
    {
        self.items.as_slice()
    }

    /// The entries, as a vector, which is moved and not copied.
    pub(crate) fn into_vec(self) -> Vec<Entry>
        ensures { entries_view result.items ≡ self }
    {
        let Entries { items } = self;
        items
    }

    /// Appends an entry. Where memory is refused the list stays as it was.
    pub fn push(&mut self, entry: Entry) -> Result<(), AllocError>
        ensures ok { OnOk result (self.new ≡ self.old ++ entry_view entry ∷ []) }
        ensures err { OnErr result (self.new ≡ self.old) }
    {
        self.items.push(entry)?;
        Ok(())
    }
}

impl Entry {
    /// An equal entry: trees are copied, and names share their texts.
    #[cycle(copying)]
    pub fn copy(&self, alloc: Global) -> Result<Entry, AllocError>
        ensures { IfOk result (λ e. entry_view e ≡ entry_view self.now) }
    {
        match self {
            Entry::Value(tree) => Ok(Entry::Value(tree.copy(alloc)?)),
            Entry::Reference(name) => Ok(Entry::Reference(name.copy()?)),
            Entry::List(entries) => Ok(Entry::List(entries.copy(alloc)?)),
        }
    }
}

impl Entries {
    /// An equal list: trees are copied, and names share their texts.
    #[cycle(copying)]
    pub fn copy(&self, alloc: Global) -> Result<Entries, AllocError>
        ensures { IfOk result (λ es. es ≡ self.now) }
    {
        let mut copy = Entries::with_capacity(alloc, self.len())?;
        for entry in self {
            copy.push(entry.copy(alloc)?)?;
        }
        Ok(copy)
    }
}
