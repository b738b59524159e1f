// Entries that equal an earlier one of their property, and what is left without them.
ghost use Rattle.std.specs.Prelude.{◌≡◌, ◌||◌, List, [], ◌∷◌, ◌++◌, not, take, slice_get, IfOk, OnOk};
ghost use Rattle.std.specs.BTreeSet.{contains};
ghost use Rattle.std.specs.Vec.Iter.{into_iter_items};
ghost use Rattle.std.specs.List.{list_any};
ghost use Rattle.ld_model.specs.Tree as model;
ghost use Rattle.ld_model.specs.Tree.{same_tree};
ghost use Rattle.ld_tree.specs.View.{view};
ghost use Rattle.node_model.specs.NodeMap.{is_list_object};
ghost use Rattle.node_logs.specs.Log.{all_told};
ghost use Rattle.node_logs.specs.Once.{repeats, is_held, stays, kept, kept_if, none_ahead, is_only_list, is_list_member};
ghost use Rattle.node_logs.specs.TreeOrder.{tree_order};

use crate::tree_order::Ranked;
use ld_tree::{Members, Text, Tree, Trees};
use std::alloc::{AllocError, Global};
use std::collections::BTreeSet;
use std::vec;

/// Among so many entries at most, each is compared with those ahead of it.
const FEW: usize = 16;

/// The entries without those that equal an earlier one; lists all stay.
pub(crate) fn without_repeats(alloc: Global, entries: Trees) -> Result<Trees, AllocError>
    ensures { IfOk result (λ ts. ts ≡ all_told entries []) }
{
    if entries.len() <= FEW && !repeats(&entries) {
        return Ok(entries);
    }
    let stay = which_stay(alloc, &entries)?;
    let kept = those_kept(alloc, entries, stay)?;
    Ok(kept)
}

/// Whether an entry equals one ahead of it.
fn repeats(entries: &Trees) -> bool
    ensures { result ≡ repeats [] entries.now }
{
    for number in 0..entries.len() {
        if repeats_at(entries, number) {
            return true;
        }
    }
    false
}

/// Whether the entry with this number equals one ahead of it.
fn repeats_at(entries: &Trees, number: usize) -> bool
    ensures { result ≡ is_held (slice_get entries.now number) (take number entries.now) }
{
    match entries.get(number) {
        Some(entry) => is_among_first(entries, number, entry),
        None => false,
    }
}

/// Whether one of the first so many entries equals this one.
fn is_among_first(entries: &Trees, count: usize, entry: &Tree) -> bool
    ensures { result ≡ list_any (same_tree (view entry.now)) (take count entries.now) }
{
    let mut left = count;
    for other in entries {
        if left == 0 {
            return false;
        }
        if entry.same(other) {
            return true;
        }
        left -= 1;
    }
    false
}

/// For each entry whether it stays: a list does, and another one where none ahead equals it.
fn which_stay(alloc: Global, entries: &Trees) -> Result<Vec<bool>, AllocError>
    ensures { IfOk result (λ v. v.items ≡ stays none_ahead entries.now) }
{
    let mut seen = BTreeSet::new(alloc);
    let mut stay = Vec::with_capacity(alloc, entries.len())?;
    for entry in entries {
        stay.push(stays(&mut seen, entry)?)?;
    }
    Ok(stay)
}

/// Whether an entry stays; it is noted, unless it is a list.
fn stays<'a>(seen: &mut BTreeSet<Ranked<'a>>, entry: &'a Tree) -> Result<bool, AllocError>
    ensures { IfOk result (λ b. (ts : List model.Tree) → stays (contains tree_order seen.old) (view entry.now ∷ ts) ≡ b ∷ stays (contains tree_order seen.new) ts) }
{
    if is_list(entry) {
        return Ok(true);
    }
    let new = note(seen, entry)?;
    Ok(new)
}

/// Notes an entry, and says whether it is new.
fn note<'a>(seen: &mut BTreeSet<Ranked<'a>>, entry: &'a Tree) -> Result<bool, AllocError>
    ensures answer { IfOk result (λ new. new ≡ not (contains tree_order seen.old (view entry.now))) }
    ensures noted { OnOk result ((t : model.Tree) → contains tree_order seen.new t ≡ (same_tree (view entry.now) t || contains tree_order seen.old t)) }
{
    match seen.insert(Ranked::new(entry)) {
        Ok(new) => return Ok(new),
        Err(_) => return Err(AllocError),
    }
}

/// Whether an entry is a list object, with nothing but its list.
fn is_list(entry: &Tree) -> bool
    ensures { result ≡ is_list_object (view entry.now) }
{
    match entry {
        Tree::Map(members) => is_only_list(members),
        _ => false,
    }
}

fn is_only_list(members: &Members) -> bool
    ensures { result ≡ is_only_list members.now }
{
    if members.len() != 1 {
        return false;
    }
    match members.at(0) {
        Some((key, value)) => is_list_member(key, value),
        None => false,
    }
}

fn is_list_member(key: &Text, value: &Tree) -> bool
    ensures { result ≡ is_list_member (key.now, view value.now) }
{
    match value {
        Tree::Items(_) => key.as_str() == "@list",
        _ => false,
    }
}

/// The entries that stay.
fn those_kept(alloc: Global, entries: Trees, stay: Vec<bool>) -> Result<Trees, AllocError>
    ensures { IfOk result (λ ts. ts ≡ kept stay.items entries) }
{
    let mut those = Trees::with_capacity(alloc, entries.len())?;
    let mut stay = stay.into_iter();
    for entry in entries {
        let stays = next_stays(&mut stay);
        keep_if(stays, &mut those, entry)?;
    }
    Ok(those)
}

/// Whether the next entry stays.
fn next_stays(stay: &mut vec::IntoIter<bool>) -> bool
    ensures { (t : model.Tree) → (ts : List model.Tree) → kept (into_iter_items stay.old) (t ∷ ts) ≡ kept_if result t (kept (into_iter_items stay.new) ts) }
{
    match stay.next() {
        Some(stays) => stays,
        None => false,
    }
}

fn keep_if(stays: bool, those: &mut Trees, entry: Tree) -> Result<(), AllocError>
    ensures { OnOk result ((ts : List model.Tree) → those.new ++ ts ≡ those.old ++ kept_if stays (view entry) ts) }
{
    if !stays {
        return Ok(());
    }
    those.push(entry)?;
    Ok(())
}
