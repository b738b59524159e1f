// A map from texts to definitions, as a balanced tree whose nodes several trees share.
ghost use Rattle.std.specs.Prelude.{◌≡◌, ◌++◌, [], ◌∷◌, length, IfOk, IfSome, slice_get};
ghost use Rattle.std.specs.Option.{option_map};
ghost use Rattle.std.specs.Map.{lookup, remove_entry};
ghost use Rattle.std.specs.BTreeMap.{is_at, insert_entry};
ghost use Rattle.ld_model.specs.Tree.{byte_order};
ghost use Rattle.ctx_types.specs.Context.{definition_at, has_protected};
ghost use Rattle.ctx_types.specs.Sorted.{IsAscending};
ghost use Rattle.ctx_types.specs.View.{definition_view};
ghost use Rattle.ctx_types.specs.BranchView.{entry_view, front_view, node_view};

use crate::definition::TermDef;
use crate::shared::Shared;
use ld_tree::Text;
use std::alloc::{AllocError, Global};
use std::cmp::Ordering;
use std::marker::Model;
use std::sync::Arc;

// A term and its definition.
#[derive(Drop)]
pub(crate) struct Entry {
    key: Shared<Text>,
    value: Shared<TermDef>,
}

impl Entry {
    pub(crate) fn new(alloc: Global, key: Text, value: Shared<TermDef>) -> Result<Entry, AllocError>
        ensures { IfOk result (λ e. entry_view e ≡ (key, definition_view value)) }
    {
        Ok(Entry {
            key: Shared::new(alloc, key)?,
            value,
        })
    }

    fn share(&self) -> Result<Entry, AllocError>
        ensures { IfOk result (λ e. e ≡ self.now) }
    {
        Ok(Entry {
            key: self.key.share()?,
            value: self.value.share()?,
        })
    }

    fn lent(&self) -> (&Text, &TermDef)
        ensures { (result.0.now, definition_view result.1.now) ≡ entry_view self.now }
    {
        (self.key.get(), self.value.get())
    }
}

/// Entries in the order of the tree. A change makes new nodes on the way from the top to its place, and shares all others.
///
/// The tree is balanced by the numbers of entries: neither side of a node has more than three times those of the other,
/// but for small ones.
#[cycle(branch)]
#[derive(Drop)]
pub(crate) struct Branch {
    top: Option<Arc<Node, Global>>,
}

#[cycle(branch)]
#[derive(Drop)]
struct Node {
    left: Branch,
    entry: Entry,
    right: Branch,
    // How many entries there are, with those of both sides.
    size: usize,
    // Whether one of their definitions is protected.
    guarded: bool,
}

impl Model for Branch {
    ghost use Rattle.std.specs.Prelude.{length};
    ghost use Rattle.std.specs.Arc.{arc_value};
    ghost use Rattle.std.proofs.Common.{arith, length-append};
    ghost use Rattle.ctx_types.specs.Context as plain;
    ghost use Rattle.ctx_types.specs.ContextCode.{terms_code};

    ghost Value = { plain.Terms };

    ghost coded = { terms_code };

    ghost use Rattle.ctx_types.specs.BranchView.{top_view, KnowsItsTerms};

    ghost view = { λ b. top_view arc_value b.top };

    ghost invariant = { λ b. KnowsItsTerms arc_value b.top };

    ghost size = { length };

    ghost size_decreases = { λ a h. Prim.grind (arith, length-append) };
}

impl Branch {
    /// No entry.
    pub(crate) fn new() -> Branch
        ensures { result ≡ [] }
    {
        Branch { top: None }
    }

    /// The same entries, in constant time.
    pub(crate) fn copy(&self) -> Result<Branch, AllocError>
        ensures { IfOk result (λ b. b ≡ self.now) }
    {
        match &self.top {
            None => Ok(Branch { top: None }),
            Some(node) => Ok(Branch {
                top: Some(Arc::try_clone(node)?),
            }),
        }
    }

    /// How many entries there are.
    pub(crate) fn len(&self) -> usize
        ensures { result ≡ length self.now }
    {
        match &self.top {
            None => 0,
            Some(node) => node.size,
        }
    }

    /// The definition of a term; None where there is no such term.
    pub(crate) fn get(&self, key: &str) -> Option<&TermDef>
        requires { IsAscending self.now }
        ensures { option_map (λ d. definition_view d.now) result ≡ definition_at key.now self.now }
    {
        let Some(node) = &self.top else {
            return None;
        };
        let node: &Node = node;
        match order(key, node.entry.key.get()) {
            Ordering::Less => node.left.get(key),
            Ordering::Greater => node.right.get(key),
            Ordering::Equal => Some(node.entry.value.get()),
        }
    }

    /// The entry with this number, counted from 0.
    pub(crate) fn at(&self, number: usize) -> Option<(&Text, &TermDef)>
        ensures { option_map (λ t. (t.0.now, definition_view t.1.now)) result ≡ slice_get self.now number }
    {
        match &self.top {
            None => None,
            Some(node) => {
                let before = node.left.len();
                if number < before {
                    node.left.at(number)
                } else if number > before {
                    node.right.at(number - before - 1)
                } else {
                    Some(node.entry.lent())
                }
            }
        }
    }

    /// Whether a definition is protected, in constant time.
    pub(crate) fn has_protected(&self) -> bool
        ensures { result ≡ has_protected self.now }
    {
        match &self.top {
            None => false,
            Some(node) => node.guarded,
        }
    }

    /// The entries with this definition for a term, in place of the one that it had.
    pub(crate) fn with(
        &self,
        alloc: Global,
        key: Text,
        value: Shared<TermDef>,
    ) -> Result<Branch, AllocError>
        requires { IsAscending self.now }
        ensures { IfOk result (λ b. b ≡ insert_entry byte_order self.now key (definition_view value)) }
    {
        let Some(node) = &self.top else {
            let entry = Entry::new(alloc, key, value)?;
            return joined(alloc, Branch::new(), entry, Branch::new());
        };
        let node: &Node = node;
        match order(key.as_str(), node.entry.key.get()) {
            Ordering::Less => {
                let left = node.left.with(alloc, key, value)?;
                balanced(alloc, left, node.entry.share()?, node.right.copy()?)
            }
            Ordering::Greater => {
                let right = node.right.with(alloc, key, value)?;
                balanced(alloc, node.left.copy()?, node.entry.share()?, right)
            }
            Ordering::Equal => {
                let key = node.entry.key.share()?;
                let entry = Entry { key, value };
                joined(alloc, node.left.copy()?, entry, node.right.copy()?)
            }
        }
    }

    /// The entries without a term, and its definition; None where there is no such term.
    pub(crate) fn without(
        &self,
        alloc: Global,
        key: &str,
    ) -> Result<Option<(Branch, Shared<TermDef>)>, AllocError>
        requires { IsAscending self.now }
        ensures value { IfOk result (λ r. option_map (λ p. definition_view p.1) r ≡ definition_at key.now self.now) }
        ensures rest { IfOk result (λ r. IfSome r (λ p. p.0 ≡ remove_entry (is_at (byte_order key.now)) self.now)) }
    {
        let Some(node) = &self.top else {
            return Ok(None);
        };
        let node: &Node = node;
        match order(key, node.entry.key.get()) {
            Ordering::Less => {
                let Some((left, value)) = node.left.without(alloc, key)? else {
                    return Ok(None);
                };
                let rest = balanced(alloc, left, node.entry.share()?, node.right.copy()?)?;
                Ok(Some((rest, value)))
            }
            Ordering::Greater => {
                let Some((right, value)) = node.right.without(alloc, key)? else {
                    return Ok(None);
                };
                let rest = balanced(alloc, node.left.copy()?, node.entry.share()?, right)?;
                Ok(Some((rest, value)))
            }
            Ordering::Equal => {
                let rest = glued(alloc, &node.left, &node.right)?;
                Ok(Some((rest, node.entry.value.share()?)))
            }
        }
    }

    // The first entry, and the entries behind it.
    fn front(&self, alloc: Global) -> Result<Option<(Entry, Branch)>, AllocError>
        ensures { IfOk result (λ r. front_view r ≡ self.now) }
    {
        match &self.top {
            None => Ok(None),
            Some(node) => match node.left.front(alloc)? {
                None => Ok(Some((node.entry.share()?, node.right.copy()?))),
                Some((first, left)) => {
                    let rest = balanced(alloc, left, node.entry.share()?, node.right.copy()?)?;
                    Ok(Some((first, rest)))
                }
            },
        }
    }
}

fn order(key: &str, other: &Text) -> Ordering
    ensures { result ≡ byte_order key.now other.now }
{
    key.cmp(other.as_str())
}

// The entries of the left, and then those of the right.
fn glued(alloc: Global, left: &Branch, right: &Branch) -> Result<Branch, AllocError>
    ensures { IfOk result (λ b. b ≡ left.now ++ right.now) }
{
    match right.front(alloc)? {
        None => left.copy(),
        Some((entry, rest)) => balanced(alloc, left.copy()?, entry, rest),
    }
}

// Whether a definition of a node over two sides is protected.
fn is_guarded(left: &Branch, entry: &Entry, right: &Branch) -> bool
    ensures { result ≡ has_protected (left.now ++ entry_view entry.now ∷ right.now) }
{
    left.has_protected() || entry.value.get().protected || right.has_protected()
}

// A node over two sides. No memory holds more entries than can be counted.
fn joined(alloc: Global, left: Branch, entry: Entry, right: Branch) -> Result<Branch, AllocError>
    ensures { IfOk result (λ b. b ≡ left ++ entry_view entry ∷ right) }
{
    let guarded = is_guarded(&left, &entry, &right);
    match left.len().checked_add(right.len()) {
        None => Err(AllocError),
        Some(both) => match both.checked_add(1) {
            None => Err(AllocError),
            Some(size) => {
                let node = Node {
                    left,
                    entry,
                    right,
                    size,
                    guarded,
                };
                Ok(Branch {
                    top: Some(Arc::new(alloc, node)?),
                })
            }
        },
    }
}

// A node over two sides, of which one may have a few entries too many: then some go over to the other side.
fn balanced(alloc: Global, left: Branch, entry: Entry, right: Branch) -> Result<Branch, AllocError>
    ensures { IfOk result (λ b. b ≡ left ++ entry_view entry ∷ right) }
{
    let (before, behind) = (left.len(), right.len());
    if before.saturating_add(behind) < 2 {
        joined(alloc, left, entry, right)
    } else if behind > before.saturating_mul(3) {
        from_right(alloc, left, entry, right)
    } else if before > behind.saturating_mul(3) {
        from_left(alloc, left, entry, right)
    } else {
        joined(alloc, left, entry, right)
    }
}

// The right side has too many: its left side goes over, or a part of that where it is large itself.
fn from_right(
    alloc: Global,
    left: Branch,
    entry: Entry,
    right: Branch,
) -> Result<Branch, AllocError>
    ensures { IfOk result (λ b. b ≡ left ++ entry_view entry ∷ right) }
{
    match &right.top {
        None => joined(alloc, left, entry, Branch::new()),
        Some(node) => {
            if node.left.len() < node.right.len().saturating_mul(2) {
                let left = joined(alloc, left, entry, node.left.copy()?)?;
                return joined(alloc, left, node.entry.share()?, node.right.copy()?);
            }
            let outer = node.right.copy()?;
            split(alloc, left, entry, &node.left, node.entry.share()?, outer)
        }
    }
}

// The left side has too many.
fn from_left(alloc: Global, left: Branch, entry: Entry, right: Branch) -> Result<Branch, AllocError>
    ensures { IfOk result (λ b. b ≡ left ++ entry_view entry ∷ right) }
{
    match &left.top {
        None => joined(alloc, Branch::new(), entry, right),
        Some(node) => {
            if node.right.len() < node.left.len().saturating_mul(2) {
                let right = joined(alloc, node.right.copy()?, entry, right)?;
                return joined(alloc, node.left.copy()?, node.entry.share()?, right);
            }
            let outer = node.left.copy()?;
            split(alloc, outer, node.entry.share()?, &node.right, entry, right)
        }
    }
}

// What stands in the middle is parted between the two sides.
fn split(
    alloc: Global,
    left: Branch,
    first: Entry,
    middle: &Branch,
    second: Entry,
    right: Branch,
) -> Result<Branch, AllocError>
    ensures { IfOk result (λ b. b ≡ left ++ entry_view first ∷ (middle.now ++ entry_view second ∷ right)) }
{
    match &middle.top {
        None => {
            let right = joined(alloc, Branch::new(), second, right)?;
            joined(alloc, left, first, right)
        }
        Some(node) => {
            let left = joined(alloc, left, first, node.left.copy()?)?;
            let right = joined(alloc, node.right.copy()?, second, right)?;
            joined(alloc, left, node.entry.share()?, right)
        }
    }
}
