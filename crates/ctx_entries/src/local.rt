// A local context, and what it is processed with.
ghost use Rattle.std.specs.Prelude.{◌≡◌, IfOk};
ghost use Rattle.ld_model.specs.Tree.{AreAscending, member_at};
ghost use Rattle.ctx_model.specs.Process.{merged};
ghost use Rattle.ctx_entries.specs.View.{entries_view, pairs_view, tree_view};
ghost use Rattle.ctx_entries.specs.Merge.{IsNextOf};

use ctx_store::Store;
use ctx_types::ActiveContext;
use ld_json::{Entries, Members, Text, Tree};
use std::alloc::{AllocError, Global};
use std::cmp::Ordering;

/// What context processing takes beside the local context, and how far it may still go down.
#[derive(Drop)]
pub struct Ask<'a> {
    pub store: &'a Store,
    pub active: &'a ActiveContext,
    pub base: Option<&'a Text>,
    /// The IRIs of the remote contexts in the chain, the first one first.
    pub remotes: &'a [Text],
    pub overrides: bool,
    pub propagates: bool,
    pub validates: bool,
    /// How many more remote contexts the chain may have.
    pub remote_left: u32,
    /// How many more scoped contexts may be under way.
    pub scoped_left: u32,
    /// How many more calls may be under way, which the stack bears.
    pub room: u32,
}

/// The entries of a local context that is a map.
#[derive(Drop)]
pub struct ContextEntries<'a> {
    /// Its own.
    pub own: &'a Members,
    /// Those of the context that it imports. An own entry takes the place of an imported one with its key.
    pub imports: Option<&'a Members>,
}

/// A local context that is a map, while its terms are created.
#[derive(Drop)]
pub struct LocalContext<'a> {
    pub ask: &'a Ask<'a>,
    pub entries: &'a ContextEntries<'a>,
    /// Whether its terms are protected.
    pub protected: bool,
    /// How many keys may not be in `defined` yet, at the most.
    pub left: usize,
    /// How many more calls may be under way.
    pub room: u32,
}

impl<'a> ContextEntries<'a> {
    /// The value of a key.
    pub fn get(&self, key: &str) -> Option<&'a Tree>
        ensures { tree_view result ≡ member_at key.now (entries_view self.now) }
    {
        match own_entry(self.own, key) {
            Some(value) => Some(value),
            None => match self.imports {
                Some(imports) => imports.get(key),
                None => None,
            },
        }
    }

    /// The entries, in the order of their keys.
    pub fn all(&self, alloc: Global) -> Result<Vec<(&'a Text, &'a Tree)>, AllocError>
        ensures { IfOk result (λ es. pairs_view es.items ≡ entries_view self.now) }
    {
        match self.imports {
            Some(imports) => merge(alloc, self.own, imports),
            None => listed(alloc, self.own),
        }
    }
}

fn own_entry<'a>(own: &'a Members, key: &str) -> Option<&'a Tree>
    ensures value { tree_view result ≡ member_at key.now own.now }
    ensures ascending { AreAscending own.now }
{
    // A walk tells that the keys ascend.
    let _walk = own.iter();
    own.get(key)
}

/// The entries of one map, in the order of their keys.
fn listed(alloc: Global, own: &Members) -> Result<Vec<(&Text, &Tree)>, AllocError>
    ensures { IfOk result (λ es. pairs_view es.items ≡ own.now) }
{
    let mut pairs = Vec::with_capacity(alloc, own.len())?;
    for pair in own {
        pairs.push(pair)?;
    }
    Ok(pairs)
}

/// The entries of two maps in the order of their keys. Where both have a key the first one's stands.
fn merge<'a>(
    alloc: Global,
    own: &'a Members,
    imports: &'a Members,
) -> Result<Vec<(&'a Text, &'a Tree)>, AllocError>
    ensures { IfOk result (λ es. pairs_view es.items ≡ merged own.now imports.now) }
{
    let mut pairs = Vec::with_capacity(alloc, own.len())?;
    let mut own = own.iter();
    let mut imports = imports.iter();
    while let Some(pair) = next_of(&mut own, &mut imports) {
        pairs.push(pair)?;
    }
    Ok(pairs)
}

/// The entry that stands first among those that are left of two maps. It is taken off both, if both have its key.
fn next_of<'a>(own: &mut Entries<'a>, imports: &mut Entries<'a>) -> Option<(&'a Text, &'a Tree)>
    ensures { IsNextOf own.old imports.old result own.new imports.new }
{
    let Some((key, _)) = own.peek() else {
        return imports.next();
    };
    let Some((import, _)) = imports.peek() else {
        return own.next();
    };
    match key.compare(import.as_str()) {
        Ordering::Less => own.next(),
        Ordering::Equal => {
            imports.next();
            own.next()
        }
        Ordering::Greater => imports.next(),
    }
}
