// Walks over entries and operations.
ghost use Rattle.std.specs.Prelude.{◌≡◌};
ghost use Rattle.std.specs.Iterator.{YieldsFirstBy, item_count};
ghost use Rattle.op_types.specs.View.{entry_view, op_view};

use crate::entry::{Entries, Entry};
use crate::op::{Op, Ops};
use std::iter::IntoIterator;
use std::marker::Model;
use std::vec;

/// The entries that are left, in order.
#[derive(Drop)]
pub struct EntriesIter<'a> {
    rest: &'a [Entry],
}

impl<'a> Model for EntriesIter<'a> {
    ghost use Rattle.std.specs.Prelude.{List};
    ghost use Rattle.std.specs.Coded.{coded_list};
    ghost use Rattle.op_model.specs.Ops.{Entry as EntryData};
    ghost use Rattle.op_types.specs.Codes.{entry_code};
    ghost use Rattle.op_types.specs.View.{entries_view};

    ghost Value = { List EntryData };

    ghost coded = { coded_list entry_code };

    ghost view = { λ e. entries_view e.rest.now };
}

impl<'a> Iterator for EntriesIter<'a> {
    type Item = &'a Entry;

    ghost next_gives = { YieldsFirstBy (λ e. entry_view e.now) (λ rest. rest) };

    ghost remaining = { item_count (λ rest. rest) };

    fn next(&mut self) -> Option<&'a Entry> {
        let (first, rest) = self.rest.split_first()?;
        self.rest = rest;
        Some(first)
    }
}

impl Entries {
    /// The entries, in order.
    pub fn iter(&self) -> EntriesIter<'_>
        ensures { result ≡ self.now }
    {
        EntriesIter {
            rest: self.as_slice(),
        }
    }
}

impl<'a> IntoIterator for &'a Entries {
    type Item = &'a Entry;

    type IntoIter = EntriesIter<'a>;

    ghost into_iter_gives = { λ es it. it ≡ es.now };

    fn into_iter(self) -> EntriesIter<'a> {
        self.iter()
    }
}

/// The entries that are left, by value, in order.
#[derive(Drop)]
pub struct EntriesIntoIter {
    rest: vec::IntoIter<Entry>,
}

impl Model for EntriesIntoIter {
    ghost use Rattle.std.specs.Prelude.{List};
    ghost use Rattle.std.specs.Coded.{coded_list};
    ghost use Rattle.std.specs.Vec.Iter.{into_iter_items};
    ghost use Rattle.op_model.specs.Ops.{Entry as EntryData};
    ghost use Rattle.op_types.specs.Codes.{entry_code};
    ghost use Rattle.op_types.specs.View.{entries_view};

    ghost Value = { List EntryData };

    ghost coded = { coded_list entry_code };

    ghost view = { λ e. entries_view (into_iter_items e.rest) };
}

impl Iterator for EntriesIntoIter {
    type Item = Entry;

    ghost next_gives = { YieldsFirstBy (λ e. entry_view e) (λ rest. rest) };

    ghost remaining = { item_count (λ rest. rest) };

    fn next(&mut self) -> Option<Entry> {
        self.rest.next()
    }
}

impl IntoIterator for Entries {
    type Item = Entry;

    type IntoIter = EntriesIntoIter;

    ghost into_iter_gives = { λ es it. it ≡ es };

    fn into_iter(self) -> EntriesIntoIter {
        EntriesIntoIter {
            rest: self.into_vec().into_iter(),
        }
    }
}

/// The operations that are left, in order.
#[derive(Drop)]
pub struct OpsIter<'a> {
    rest: &'a [Op],
}

impl<'a> Model for OpsIter<'a> {
    ghost use Rattle.std.specs.Prelude.{List};
    ghost use Rattle.std.specs.Coded.{coded_list};
    ghost use Rattle.op_model.specs.Ops.{Op as OpData};
    ghost use Rattle.op_types.specs.Codes.{op_code};
    ghost use Rattle.op_types.specs.View.{ops_view};

    ghost Value = { List OpData };

    ghost coded = { coded_list op_code };

    ghost view = { λ o. ops_view o.rest.now };
}

impl<'a> Iterator for OpsIter<'a> {
    type Item = &'a Op;

    ghost next_gives = { YieldsFirstBy (λ o. op_view o.now) (λ rest. rest) };

    ghost remaining = { item_count (λ rest. rest) };

    fn next(&mut self) -> Option<&'a Op> {
        let (first, rest) = self.rest.split_first()?;
        self.rest = rest;
        Some(first)
    }
}

impl Ops {
    /// The operations, in order.
    pub fn iter(&self) -> OpsIter<'_>
        ensures { result ≡ self.now }
    {
        OpsIter {
            rest: self.as_slice(),
        }
    }
}

impl<'a> IntoIterator for &'a Ops {
    type Item = &'a Op;

    type IntoIter = OpsIter<'a>;

    ghost into_iter_gives = { λ os it. it ≡ os.now };

    fn into_iter(self) -> OpsIter<'a> {
        self.iter()
    }
}

/// The operations that are left, by value, in order.
#[derive(Drop)]
pub struct OpsIntoIter {
    rest: vec::IntoIter<Op>,
}

impl Model for OpsIntoIter {
    ghost use Rattle.std.specs.Prelude.{List};
    ghost use Rattle.std.specs.Coded.{coded_list};
    ghost use Rattle.std.specs.Vec.Iter.{into_iter_items};
    ghost use Rattle.op_model.specs.Ops.{Op as OpData};
    ghost use Rattle.op_types.specs.Codes.{op_code};
    ghost use Rattle.op_types.specs.View.{ops_view};

    ghost Value = { List OpData };

    ghost coded = { coded_list op_code };

    ghost view = { λ o. ops_view (into_iter_items o.rest) };
}

impl Iterator for OpsIntoIter {
    type Item = Op;

    ghost next_gives = { YieldsFirstBy (λ o. op_view o) (λ rest. rest) };

    ghost remaining = { item_count (λ rest. rest) };

    fn next(&mut self) -> Option<Op> {
        self.rest.next()
    }
}

impl IntoIterator for Ops {
    type Item = Op;

    type IntoIter = OpsIntoIter;

    ghost into_iter_gives = { λ os it. it ≡ os };

    fn into_iter(self) -> OpsIntoIter {
        OpsIntoIter {
            rest: self.into_vec().into_iter(),
        }
    }
}
