// A map that is being made.
ghost use Rattle.std.specs.Prelude.{◌≡◌, [], IfOk, OnOk};
ghost use Rattle.std.specs.Option.{option_map};
ghost use Rattle.ld_model.specs.Tree as model;
ghost use Rattle.ld_model.specs.Tree.{member_at, put};
ghost use Rattle.ld_tree.specs.View.{view, members_view};
ghost use Rattle.expand_model.specs.Scope as scope;
ghost use Rattle.expand_model.specs.Values as values;
ghost use Rattle.expand_values.specs.Entries.{entries_view};

use crate::lists::{join, values_of};
use crate::members::taken;
use ld_text::Text;
use ld_tree::{Members, Tree, Trees};
use std::alloc::{AllocError, Global};
use std::collections::BTreeMap;
use std::marker::Model;
use std::mem;

/// A map that is being made: its entries are put there in any order of their keys, each in a time that grows with the logarithm of their
/// number. Contracts see it as the pairs of key and value in ascending order of the keys.
pub struct Draft {
    entries: Entries,
    alloc: Global,
}

/// Where the entries of a map stand that is being made.
#[derive(Drop)]
enum Entries {
    /// As they will stand: while they are few, and for as long as their keys come in ascending order.
    Few(Members),
    /// In a tree, where many came in another order.
    Many(BTreeMap<Text, Tree>),
}

/// As many entries are few.
const FEW: usize = 32;

// By hand, so that what is proved of a caller sees one drop, and not one for each place where entries stand.
impl Drop for Draft {
    fn drop(self) {
        let Draft {
            entries: _,
            alloc: _,
        } = self;
    }
}

impl Model for Draft {
    ghost use Rattle.ld_model.specs.Tree as model;
    ghost use Rattle.std.specs.Prelude.{List, ℕ, map};
    ghost use Rattle.std.specs.Coded.{coded_ℕ, coded_list, coded×};
    ghost use Rattle.ld_model.specs.TreeCode.{tree_code};

    ghost Value = { List (List ℕ × model.Tree) };

    ghost coded = { coded_list (coded× (coded_list coded_ℕ) tree_code) };

    ghost use Rattle.expand_values.specs.Entries.{entries_view};

    ghost view = { λ d. entries_view d.entries };
}

impl Draft {
    /// A map without entries, with room for that many where memory allows it.
    pub fn new(alloc: Global, room: usize) -> Draft
        ensures { result ≡ [] }
    {
        Draft {
            entries: Entries::Few(with_room(alloc, room)),
            alloc,
        }
    }

    /// The value of a key; None where there is no such key.
    pub fn get(&self, key: &Text) -> Option<&Tree>
        ensures { option_map (λ t. view t.now) result ≡ member_at key.now self.now }
    {
        match &self.entries {
            Entries::Few(few) => few.get(key.as_str()),
            Entries::Many(many) => entry(many, key),
        }
    }

    /// Whether there is this key. A word of at most 22 bytes takes no memory.
    pub fn has(&self, word: &str) -> Result<bool, AllocError>
        ensures { IfOk result (λ found. found ≡ scope.has word.now self.now) }
    {
        let key = Text::new(self.alloc, word)?;
        Ok(self.get(&key).is_some())
    }

    /// Gives a key this value, in place of the one that it had.
    pub fn put(&mut self, key: Text, value: Tree) -> Result<(), AllocError>
        ensures { OnOk result (self.new ≡ put key (view value) self.old) }
    {
        if self.is_crowded(&key) {
            self.spread()?;
        }
        put_among(&mut self.entries, key, value)
    }

    /// Whether few entries are there no more, and this key would come between them.
    fn is_crowded(&self, key: &Text) -> bool {
        match &self.entries {
            Entries::Few(few) => few.len() >= FEW && !comes_last(few, key),
            Entries::Many(_) => false,
        }
    }

    /// Moves the entries into a tree.
    fn spread(&mut self) -> Result<(), AllocError>
        ensures { OnOk result (self.new ≡ self.old) }
    {
        let none = Entries::Few(Members::new(self.alloc));
        let held = mem::replace(&mut self.entries, none);
        self.entries = Entries::Many(into_many(self.alloc, held)?);
        Ok(())
    }

    /// Takes the value of a key, for which another one is put afterwards; None where there is no such key.
    pub fn taken(&mut self, key: &Text) -> Option<Tree>
        ensures value { option_map view result ≡ member_at key.now self.old }
        ensures left { (t : model.Tree) → put key.now t self.new ≡ put key.now t self.old }
    {
        match &mut self.entries {
            Entries::Few(few) => taken(few, key.as_str()),
            Entries::Many(many) => take_entry(many, key),
        }
    }

    /// Adds values to the entry of a key, which is an array from then on. Those that stand there are moved.
    #[tactic(auto, unfolding(expand_model::specs::Values::add_all))]
    pub fn add_all(&mut self, key: Text, more: Trees) -> Result<(), AllocError>
        ensures { OnOk result (self.new ≡ values.add_all key more self.old) }
    {
        let held = self.values_taken(&key)?;
        let all = join(held, more)?;
        self.put(key, Tree::Items(all))
    }

    /// Takes the values of a key, for which others are put afterwards.
    fn values_taken(&mut self, key: &Text) -> Result<Trees, AllocError>
        ensures values { IfOk result (λ ts. ts ≡ scope.values_at key.now self.old) }
        ensures left { (t : model.Tree) → put key.now t self.new ≡ put key.now t self.old }
    {
        match self.taken(key) {
            None => Ok(Trees::new(self.alloc)),
            Some(value) => values_of(self.alloc, value),
        }
    }

    /// The map, in a time that grows with the number of its entries.
    pub fn into_members(self, alloc: Global) -> Result<Members, AllocError>
        ensures { IfOk result (λ ms. ms ≡ self) }
    {
        let mut made = self;
        let none = Entries::Few(Members::new(alloc));
        into_members(alloc, mem::replace(&mut made.entries, none))
    }
}

/// An empty map with room for that many entries where memory allows it.
fn with_room(alloc: Global, room: usize) -> Members
    ensures { result ≡ [] }
{
    match Members::with_capacity(alloc, room) {
        Ok(members) => members,
        Err(_) => Members::new(alloc),
    }
}

/// Whether a key comes after those of the members.
fn comes_last(members: &Members, key: &Text) -> bool {
    match members.at(members.len().saturating_sub(1)) {
        None => true,
        Some((last, _)) => last.as_str() < key.as_str(),
    }
}

fn put_among(entries: &mut Entries, key: Text, value: Tree) -> Result<(), AllocError>
    ensures { OnOk result (entries_view entries.new ≡ put key (view value) (entries_view entries.old)) }
{
    match entries {
        Entries::Few(few) => put_few(few, key, value),
        Entries::Many(many) => put_entry(many, key, value),
    }
}

#[tactic(auto, unfolding(ld_model::specs::Tree::put))]
fn put_few(few: &mut Members, key: Text, value: Tree) -> Result<(), AllocError>
    ensures { OnOk result (few.new ≡ put key (view value) few.old) }
{
    few.set(key, value)?;
    Ok(())
}

fn into_members(alloc: Global, entries: Entries) -> Result<Members, AllocError>
    ensures { IfOk result (λ ms. ms ≡ entries_view entries) }
{
    match entries {
        Entries::Few(few) => Ok(few),
        Entries::Many(many) => members_of(alloc, many),
    }
}

fn into_many(alloc: Global, entries: Entries) -> Result<BTreeMap<Text, Tree>, AllocError>
    ensures { IfOk result (λ m. members_view m.entries ≡ entries_view entries) }
{
    match entries {
        Entries::Few(few) => tree_of(alloc, few),
        Entries::Many(many) => Ok(many),
    }
}

/// The members, in a tree.
fn tree_of(alloc: Global, members: Members) -> Result<BTreeMap<Text, Tree>, AllocError>
    ensures { IfOk result (λ m. members_view m.entries ≡ members) }
{
    let mut many = BTreeMap::new(alloc);
    for (key, value) in members {
        put_entry(&mut many, key, value)?;
    }
    Ok(many)
}

fn entry<'a>(entries: &'a BTreeMap<Text, Tree>, key: &Text) -> Option<&'a Tree>
    ensures { option_map (λ t. view t.now) result ≡ member_at key.now (members_view entries.now.entries) }
{
    entries.get(key)
}

fn put_entry(entries: &mut BTreeMap<Text, Tree>, key: Text, value: Tree) -> Result<(), AllocError>
    ensures { OnOk result (members_view entries.new.entries ≡ put key (view value) (members_view entries.old.entries)) }
{
    match entries.insert(key, value) {
        Ok(_) => Ok(()),
        Err(_) => Err(AllocError),
    }
}

fn take_entry(entries: &mut BTreeMap<Text, Tree>, key: &Text) -> Option<Tree>
    ensures value { option_map view result ≡ member_at key.now (members_view entries.old.entries) }
    ensures left { (t : model.Tree) → put key.now t (members_view entries.new.entries) ≡ put key.now t (members_view entries.old.entries) }
{
    match entries.get_mut(key) {
        None => None,
        Some(held) => Some(mem::replace(held, Tree::Null)),
    }
}

fn members_of(alloc: Global, entries: BTreeMap<Text, Tree>) -> Result<Members, AllocError>
    ensures { IfOk result (λ ms. ms ≡ members_view entries.entries) }
{
    let mut members = Members::with_capacity(alloc, entries.len())?;
    for (key, value) in entries {
        members.set(key, value)?;
    }
    Ok(members)
}
