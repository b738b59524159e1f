// Trees, and the two lists that they are made of.
ghost use Rattle.std.specs.Prelude.{◌≡◌, [], ◌∷◌, ◌++◌, length, IfOk, OnOk, OnErr, slice_get};
ghost use Rattle.std.specs.Option.{option_map};
ghost use Rattle.std.specs.Map.{remove_entry, set_value};
ghost use Rattle.std.specs.BTreeMap.{is_at, insert_entry};
ghost use Rattle.std_collections.specs.Layout.BTreeMap.{seek};
ghost use Rattle.ld_model.specs.Tree as model;
ghost use Rattle.ld_model.specs.Tree.{AreAscending, AreBefore, member_at, byte_order};
ghost use Rattle.ld_tree.specs.View.{view, trees_view, members_view};
ghost use Rattle.ld_tree.specs.Built.{built};

use crate::building::{are_ascending, last_of_each, sorted};
use ld_text::Text;
use std::alloc::{AllocError, Global};
use std::cmp::Ordering;
use std::marker::Model;
use std::mem;

/// A JSON value (RFC 8259, section 3), with the numbers that this project reads.
#[cycle(tree)]
#[derive(Drop)]
pub enum Tree {
    /// `null`
    Null,
    /// `true` or `false`
    Truth(bool),
    /// A whole number, of a magnitude of at most 2^53.
    Whole(i64),
    /// The number 1.1, which only a context's `@version` may have.
    OneOne,
    /// A string.
    Str(Text),
    /// An array.
    Items(Trees),
    /// An object.
    Map(Members),
}

/// The values of an array, in order.
#[cycle(tree)]
#[derive(Drop)]
pub struct Trees {
    items: Vec<Tree>,
}

impl Model for Trees {
    ghost use Rattle.std.specs.Prelude.{List};
    ghost use Rattle.std.specs.Coded.{coded_list};
    ghost use Rattle.ld_model.specs.Tree.{Tree as TreeData};
    ghost use Rattle.ld_model.specs.TreeCode.{tree_code};

    ghost Value = { List TreeData };

    ghost coded = { coded_list tree_code };

    ghost use Rattle.ld_tree.specs.View.{trees_view, trees_size};

    ghost view = { λ t. trees_view t.items.items };

    ghost size = { trees_size };

    ghost use Rattle.ld_tree.specs.Falls.{trees_fall};

    ghost size_decreases = { λ a h. trees_fall a.items.items };
}

/// The members of an object: each key once, in ascending order of the keys' bytes.
#[cycle(tree)]
#[derive(Drop)]
pub struct Members {
    pairs: Vec<(Text, Tree)>,
}

impl Model for Members {
    ghost use Rattle.std.specs.Prelude.{List, ℕ};
    ghost use Rattle.std.specs.Coded.{coded_list, coded×, coded_ℕ};
    ghost use Rattle.ld_model.specs.Tree.{Tree as TreeData, AreAscending};
    ghost use Rattle.ld_model.specs.TreeCode.{tree_code};

    ghost Value = { List (List ℕ × TreeData) };

    ghost coded = { coded_list (coded× (coded_list coded_ℕ) tree_code) };

    ghost use Rattle.ld_tree.specs.View.{members_view, members_size};

    ghost view = { λ m. members_view m.pairs.items };

    ghost invariant = { λ m. AreAscending (members_view m.pairs.items) };

    ghost size = { members_size };

    ghost use Rattle.ld_tree.specs.Falls.{members_fall};

    ghost size_decreases = { λ a h. members_fall a.pairs.items };
}

impl Trees {
    /// An empty list.
    pub fn new(alloc: Global) -> Trees
        ensures { result ≡ [] }
    {
        Trees {
            items: Vec::new(alloc),
        }
    }

    /// An empty list with room for that many values.
    pub fn with_capacity(alloc: Global, capacity: usize) -> Result<Trees, AllocError>
        ensures { IfOk result (λ ts. ts ≡ []) }
    {
        Ok(Trees {
            items: Vec::with_capacity(alloc, capacity)?,
        })
    }

    /// A list of these values, which are moved and not copied.
    pub fn from_vec(items: Vec<Tree>) -> Trees
        ensures { result ≡ trees_view items.items }
    {
        Trees { items }
    }

    /// How many values there are.
    pub fn len(&self) -> usize
        ensures { result ≡ length self.now }
    {
        self.items.len()
    }

    /// Whether there is no value.
    pub fn is_empty(&self) -> bool
        ensures { result ≡ model.is_empty self.now }
    {
        self.items.is_empty()
    }

    /// The value with this number, counted from 0; None where there is none.
    pub fn get(&self, number: usize) -> Option<&Tree>
        ensures { option_map (λ t. view t.now) result ≡ slice_get self.now number }
    {
        self.items.get(number)
    }

    /// The values, as a slice.
    pub fn as_slice(&self) -> &[Tree]
        ensures { trees_view result.now ≡ self.now }
    {
        self.items.as_slice()
    }

    /// The values, as a vector, which is moved and not copied.
    pub(crate) fn into_vec(self) -> Vec<Tree>
        ensures { trees_view result.items ≡ self }
    {
        let Trees { items } = self;
        items
    }

    /// Appends a value. Where memory is refused the list stays as it was.
    pub fn push(&mut self, tree: Tree) -> Result<(), AllocError>
        ensures ok { OnOk result (self.new ≡ self.old ++ view tree ∷ []) }
        ensures err { OnErr result (self.new ≡ self.old) }
    {
        self.items.push(tree)?;
        Ok(())
    }
}

impl Members {
    /// An object without members.
    pub fn new(alloc: Global) -> Members
        ensures { result ≡ [] }
    {
        Members {
            pairs: Vec::new(alloc),
        }
    }

    /// An object without members, with room for that many.
    pub fn with_capacity(alloc: Global, capacity: usize) -> Result<Members, AllocError>
        ensures { IfOk result (λ ms. ms ≡ []) }
    {
        Ok(Members {
            pairs: Vec::with_capacity(alloc, capacity)?,
        })
    }

    /// The members that pairs of key and value make, in whichever order they stand: of pairs with one key the last one
    /// stays. It takes linear time where the keys ascend, and else that of a sort.
    ///
    /// # Errors
    ///
    /// `AllocError` where memory is refused.
    pub fn from_pairs(pairs: Vec<(Text, Tree)>) -> Result<Members, AllocError>
        ensures { IfOk result (λ ms. ms ≡ built (members_view pairs.items)) }
    {
        if are_ascending(pairs.as_slice()) {
            return Ok(Members { pairs });
        }
        let pairs = sorted(pairs)?;
        if are_ascending(pairs.as_slice()) {
            return Ok(Members { pairs });
        }
        last_of_each(pairs)
    }

    /// How many members there are.
    pub fn len(&self) -> usize
        ensures { result ≡ length self.now }
    {
        self.pairs.len()
    }

    /// Whether there is no member.
    pub fn is_empty(&self) -> bool
        ensures { result ≡ model.is_empty self.now }
    {
        self.pairs.is_empty()
    }

    /// The value of a key; None where there is no such key.
    pub fn get(&self, key: &str) -> Option<&Tree>
        ensures { option_map (λ t. view t.now) result ≡ member_at key.now self.now }
    {
        match place_of(self.pairs.as_slice(), key) {
            Ok(place) => Some(&self.pairs[place].1),
            Err(_) => None,
        }
    }

    /// The member with this number, counted from 0 in the order of the keys; None where there is none.
    pub fn at(&self, number: usize) -> Option<(&Text, &Tree)>
        ensures { option_map (λ m. (m.0.now, view m.1.now)) result ≡ slice_get self.now number }
    {
        let (key, tree) = self.pairs.get(number)?;
        Some((key, tree))
    }

    /// The members, as a slice, in the order of their keys.
    pub(crate) fn as_slice(&self) -> &[(Text, Tree)]
        ensures members { members_view result.now ≡ self.now }
        ensures ascending { AreAscending self.now }
    {
        self.pairs.as_slice()
    }

    /// The members, as a vector in the order of their keys, which is moved and not copied.
    pub(crate) fn into_vec(self) -> Vec<(Text, Tree)>
        ensures members { members_view result.items ≡ self }
        ensures ascending { AreAscending self }
    {
        let Members { pairs } = self;
        pairs
    }

    /// Puts a member behind all others, in constant time. Its key has to be greater than theirs. Where memory is
    /// refused the members stay as they were.
    pub fn append(&mut self, key: Text, tree: Tree) -> Result<(), AllocError>
        requires { AreBefore self.old key }
        ensures ok { OnOk result (self.new ≡ self.old ++ (key, view tree) ∷ []) }
        ensures err { OnErr result (self.new ≡ self.old) }
    {
        self.pairs.push((key, tree))?;
        Ok(())
    }

    /// Gives a key this value, in place of the one that it had. Where memory is refused the members stay as they
    /// were. A key that is greater than all others takes constant time.
    pub fn set(&mut self, key: Text, tree: Tree) -> Result<(), AllocError>
        ensures ok { OnOk result (self.new ≡ insert_entry byte_order self.old key (view tree)) }
        ensures err { OnErr result (self.new ≡ self.old) }
    {
        match place_for(self.pairs.as_slice(), key.as_str()) {
            Ok(place) => {
                self.pairs[place].1 = tree;
                Ok(())
            }
            Err(place) => {
                self.pairs.insert(place, (key, tree))?;
                Ok(())
            }
        }
    }

    /// The same as `set`, at a key that is copied only where it is new.
    pub fn put(&mut self, alloc: Global, key: &str, tree: Tree) -> Result<(), AllocError>
        ensures ok { OnOk result (self.new ≡ insert_entry byte_order self.old key.now (view tree)) }
        ensures err { OnErr result (self.new ≡ self.old) }
    {
        match place_for(self.pairs.as_slice(), key) {
            Ok(place) => {
                self.pairs[place].1 = tree;
                Ok(())
            }
            Err(place) => {
                self.pairs.insert(place, (Text::new(alloc, key)?, tree))?;
                Ok(())
            }
        }
    }

    /// Takes the value of a key and leaves null in its place; None where there is no such key.
    pub fn take(&mut self, key: &str) -> Option<Tree>
        ensures value { option_map view result ≡ member_at key.now self.old }
        ensures left { self.new ≡ set_value (is_at (byte_order key.now)) self.old model.null }
        ensures ascending { AreAscending self.old }
    {
        match place_of(self.pairs.as_slice(), key) {
            Ok(place) => {
                let pair = &mut self.pairs[place];
                Some(mem::replace(&mut pair.1, Tree::Null))
            }
            Err(_) => None,
        }
    }

    /// Takes the member with this key out and gives its value; None where there is no such key.
    pub fn remove(&mut self, key: &str) -> Option<Tree>
        ensures value { option_map view result ≡ member_at key.now self.old }
        ensures rest { self.new ≡ remove_entry (is_at (byte_order key.now)) self.old }
    {
        match place_of(self.pairs.as_slice(), key) {
            Ok(place) => {
                let (_, tree) = self.pairs.remove(place);
                Some(tree)
            }
            Err(_) => None,
        }
    }
}

/// Where a key stands, or where it belongs. Most keys that are looked for are keywords, which stand ahead of all others, so the
/// first member alone often answers.
fn place_of(pairs: &[(Text, Tree)], key: &str) -> Result<usize, usize>
    requires { AreAscending (members_view pairs.now) }
    ensures { result ≡ seek (byte_order key.now) (members_view pairs.now) }
{
    let Some(pair) = pairs.first() else {
        return Err(0);
    };
    match compare_key(pair, key) {
        Ordering::Less => pairs.binary_search_by(|pair| compare_key(pair, key)),
        Ordering::Equal => Ok(0),
        Ordering::Greater => Err(0),
    }
}

/// The same, for a key that is to be put: keys come in order more often than not.
fn place_for(pairs: &[(Text, Tree)], key: &str) -> Result<usize, usize>
    requires { AreAscending (members_view pairs.now) }
    ensures { result ≡ seek (byte_order key.now) (members_view pairs.now) }
{
    if is_behind(pairs, key) {
        return Err(pairs.len());
    }
    place_of(pairs, key)
}

/// Whether a key is greater than all others, by a look at the last.
fn is_behind(pairs: &[(Text, Tree)], key: &str) -> bool
    ensures { result ≡ model.is_last_before key.now (members_view pairs.now) }
{
    match pairs.last() {
        Some(pair) => compare_key(pair, key).is_lt(),
        None => true,
    }
}

fn compare_key(pair: &(Text, Tree), key: &str) -> Ordering
    ensures { result ≡ byte_order pair.now.0 key.now }
{
    pair.0.compare(key)
}
