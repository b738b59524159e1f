// The names that have labels.
ghost use Rattle.std.specs.Prelude.{◌≡◌, ◌≤◌, ◌^◌, [], length, OnOk, OnErr};
ghost use Rattle.op_model.specs.Running.{used, with_name, place_of};
ghost use Rattle.op_types.specs.View.{name_view, names_view};
ghost use Rattle.shard_model.specs.Numbered.{number_of};
ghost use Rattle.subtree_summary.specs.Uses.{uses_view};

use indexmap::IndexSet;
use op_types::Name;
use std::alloc::{AllocError, Global};
use std::marker::Model;
use subtree_summary::{Keyed, LabelUses};

/// The names that have labels, each once, in the order of first use. The number in the label of a name is the count of names before it.
#[derive(Drop)]
pub struct Labels {
    names: IndexSet<Name, Keyed>,
}

impl Model for Labels {
    ghost use Rattle.std.specs.Prelude.{List};
    ghost use Rattle.std.specs.Coded.{coded_list};
    ghost use Rattle.op_model.specs.Names.{Name as NameData};
    ghost use Rattle.op_types.specs.Codes.{name_code};
    ghost use Rattle.op_types.specs.View.{names_view};

    ghost Value = { List NameData };

    ghost coded = { coded_list name_code };

    ghost view = { λ l. names_view l.names.keys };
}

impl Labels {
    /// No name has a label yet. Those that get one are hashed by this hasher.
    pub fn new(alloc: Global, hasher: Keyed) -> Labels
        ensures { result ≡ [] }
    {
        Labels {
            names: IndexSet::with_hasher(alloc, hasher),
        }
    }

    /// The labels of the names that some chunks use, whose names are hashed as they were.
    pub fn of_uses(uses: LabelUses) -> Labels
        ensures { result ≡ uses_view uses }
    {
        Labels { names: uses.names }
    }

    /// How many labels there are.
    pub fn count(&self) -> u64
        ensures count { result ≡ length self.now }
        ensures few { length self.now ≤ 2 ^ 64 }
    {
        self.names.len() as u64
    }

    /// The number in the label of a name, counted from 0; None where it has no label.
    pub fn of(&self, name: &Name) -> Option<u64>
        ensures { result ≡ number_of (name_view name.now) self.now }
    {
        match self.names.get_index_of(name) {
            Some(number) => Some(number as u64),
            None => None,
        }
    }

    /// A set in memory has no more labels than a `u64` can number. It does nothing.
    pub(crate) fn are_few(&self)
        ensures { length self.now ≤ 2 ^ 64 }
    {
        let _ = self.count();
    }

    /// The number in the label of a name, counted from 0; the count of labels where it has none.
    pub(crate) fn place(&self, name: &Name) -> u64
        ensures { result ≡ place_of (name_view name.now) self.now }
    {
        match self.names.get_index_of(name) {
            Some(number) => number as u64,
            None => self.names.len() as u64,
        }
    }

    /// Gives labels to names that have none yet, in their order. Where memory is refused, some of them may have got theirs.
    pub fn note_all(&mut self, names: &IndexSet<Name, Keyed>) -> Result<(), AllocError>
        ensures { OnOk result (self.new ≡ used self.old (names_view names.now.keys)) }
    {
        for name in names.iter() {
            self.note(name)?;
        }
        Ok(())
    }

    fn note(&mut self, name: &Name) -> Result<(), AllocError>
        ensures ok { OnOk result (self.new ≡ with_name self.old (name_view name.now)) }
        ensures err { OnErr result (self.new ≡ self.old) }
    {
        if self.names.contains(name) {
            return Ok(());
        }
        self.names.insert(name.copy()?)?;
        Ok(())
    }
}
