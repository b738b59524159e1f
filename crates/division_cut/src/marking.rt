// Which items of an array belong together, by their weights.
ghost use Rattle.std.specs.Prelude.{◌≡◌, ◌||◌, ◌&&◌, not, false, is_some, if◌then◌else◌};
ghost use Rattle.std.specs.Str.{bytes_eq};
ghost use Rattle.ld_model.specs.Tree.{trees_of, members_of, member_at};
ghost use Rattle.ld_model.specs.Keys.{value_key};
ghost use Rattle.ctx_types.specs.Expansion as words;
ghost use Rattle.node_model.specs.Keys.{list_key, reverse_key};
ghost use Rattle.node_model.specs.Walk as walk;
ghost use Rattle.ld_tree.specs.View.{view, trees_view};
ghost use Rattle.division_model.specs.ByWeight as definitions;
ghost use Rattle.division_model.specs.ByWeight.{is_element_key, entries_hold_cut, items_hold_cut, mark_in_range, reverse_entries_hold_cut, with_item};
ghost use Rattle.division_cut.specs.Weighed.{heavy_mark, mark_where};
ghost use Rattle.division_cut.specs.Views.{marked_view};

use crate::weighing::{is_heavy, light};
use ctx_types::is_keyword;
use ld_tree::{Members, Tree};
use node_visit::has_key;

/// What becomes of an item of an array.
#[derive(Clone, Copy)]
pub(crate) enum Mark {
    /// It is in no range, and arrays inside it may be divided.
    Opened,
    /// It is the first item of a range.
    Begins,
    /// It is in the range of the item before it.
    Continues,
}

/// An item's mark, and what the range under way weighs behind it: None where there is none, or it weighs more than the limit.
#[derive(Clone, Copy)]
pub(crate) struct Marked {
    pub(crate) mark: Mark,
    pub(crate) sum: Option<u64>,
}

/// The mark of an item of an array that is cut, or isn't.
pub(crate) fn mark_of(cut: bool, limit: u64, sum: Option<u64>, item: &Tree) -> Marked
    ensures { marked_view result ≡ mark_where cut limit sum (view item.now) }
{
    if !cut {
        return Marked {
            mark: Mark::Opened,
            sum: None,
        };
    }
    match light(limit, item) {
        Some(own) => in_range(limit, sum, own),
        None => of_heavy(limit, item),
    }
}

/// The mark of an item that weighs so much, which is at most the limit: it stays with those before it where it can.
fn in_range(limit: u64, sum: Option<u64>, own: u64) -> Marked
    ensures { marked_view result ≡ mark_in_range (with_item limit sum own) own }
{
    if let Some(before) = sum {
        let together = before.saturating_add(own);
        if together <= limit {
            return Marked {
                mark: Mark::Continues,
                sum: Some(together),
            };
        }
    }
    Marked {
        mark: Mark::Begins,
        sum: Some(own),
    }
}

/// The mark of an item that weighs more than the limit: it is opened where it holds an array to be cut.
fn of_heavy(limit: u64, item: &Tree) -> Marked
    ensures { marked_view result ≡ heavy_mark limit (view item.now) }
{
    let mark = if holds_cut(limit, item) {
        Mark::Opened
    } else {
        Mark::Begins
    };
    Marked { mark, sum: None }
}

/// Whether an array is cut: it has at least two items and weighs more than the limit.
pub(crate) fn is_cut(limit: u64, items: &[Tree]) -> bool
    ensures { result ≡ definitions.is_cut limit (trees_of (trees_view items.now)) }
{
    has_two(items) && is_heavy(limit, items)
}

fn has_two(items: &[Tree]) -> bool
    ensures { result ≡ definitions.has_two (trees_of (trees_view items.now)) }
{
    items.len() >= 2
}

/// Whether a map is a value object or a list object, which stay whole.
pub(crate) fn is_whole(members: &Members) -> bool
    ensures { result ≡ (walk.has_key value_key (members_of members.now) || walk.has_key list_key (members_of members.now)) }
{
    has_either(members)
}

fn has_either(members: &Members) -> bool
    ensures { result ≡ (is_some (member_at value_key members.now) || is_some (member_at list_key members.now)) }
{
    has_key(members, "@value") || has_key(members, "@list")
}

/// Whether there is an array to be cut in an element.
#[cycle(holding)]
fn holds_cut(limit: u64, element: &Tree) -> bool
    ensures { result ≡ definitions.holds_cut limit (view element.now) }
{
    match element {
        Tree::Items(items) => {
            let items = items.as_slice();
            is_cut(limit, items) || items_hold(limit, items)
        }
        Tree::Map(members) => {
            if is_whole(members) {
                false
            } else {
                entries_hold(limit, members)
            }
        }
        _ => false,
    }
}

#[cycle(holding)]
fn items_hold(limit: u64, items: &[Tree]) -> bool
    ensures { result ≡ items_hold_cut limit (trees_of (trees_view items.now)) }
{
    for item in items {
        if holds_cut(limit, item) {
            return true;
        }
    }
    false
}

#[cycle(holding)]
fn entries_hold(limit: u64, members: &Members) -> bool
    ensures { result ≡ entries_hold_cut limit (members_of members.now) }
{
    for (key, value) in members {
        if entry_holds(limit, key.as_str(), value) {
            return true;
        }
    }
    false
}

#[cycle(holding)]
fn entry_holds(limit: u64, key: &str, value: &Tree) -> bool
    ensures { result ≡ (if bytes_eq key.now reverse_key then definitions.reverse_holds_cut limit (view value.now) else (is_element_key key.now && definitions.holds_cut limit (view value.now))) }
{
    if key == "@reverse" {
        return reverse_holds(limit, value);
    }
    if is_element(key) {
        return holds_cut(limit, value);
    }
    false
}

/// Whether what is at a key of a node object is an element.
fn is_element(key: &str) -> bool
    ensures { result ≡ is_element_key key.now }
{
    !is_keyword(key) || key == "@graph" || key == "@included"
}

#[cycle(holding)]
fn reverse_holds(limit: u64, value: &Tree) -> bool
    ensures { result ≡ definitions.reverse_holds_cut limit (view value.now) }
{
    match value {
        Tree::Map(members) => reverse_entries_hold(limit, members),
        _ => false,
    }
}

#[cycle(holding)]
fn reverse_entries_hold(limit: u64, members: &Members) -> bool
    ensures { result ≡ reverse_entries_hold_cut limit (members_of members.now) }
{
    for (key, value) in members {
        if !is_keyword(key.as_str()) && holds_cut(limit, value) {
            return true;
        }
    }
    false
}
