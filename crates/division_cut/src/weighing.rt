// How much a value weighs, as far as that matters: weighing ends above the limit.
ghost use Rattle.std.specs.Prelude.{◌≡◌, ◌+◌};
ghost use Rattle.ld_model.specs.Tree as model;
ghost use Rattle.ld_model.specs.Tree.{members_of, members_weight, trees_of, trees_weight};
ghost use Rattle.ld_tree.specs.View.{view, trees_view};
ghost use Rattle.division_model.specs.ByWeight as definitions;
ghost use Rattle.division_cut.specs.Weighed.{left_of, light_weight};

use ld_tree::{Members, Tree};

/// What is left of a room once a value is in it, which takes as much as there are values in it, itself included; None where it has no room.
#[cycle(weighing)]
fn left_beside(room: u64, value: &Tree) -> Option<u64>
    ensures { result ≡ left_of room (model.weight (view value.now)) }
{
    if room == 0 {
        return None;
    }
    match value {
        Tree::Items(items) => left_beside_items(room - 1, items.as_slice()),
        Tree::Map(members) => left_beside_members(room - 1, members),
        _ => Some(room - 1),
    }
}

#[cycle(weighing)]
fn left_beside_items(room: u64, items: &[Tree]) -> Option<u64>
    ensures { result ≡ left_of room (trees_weight (trees_of (trees_view items.now))) }
{
    let mut room = room;
    for item in items {
        match left_beside(room, item) {
            Some(left) => room = left,
            None => return None,
        }
    }
    Some(room)
}

#[cycle(weighing)]
fn left_beside_members(room: u64, members: &Members) -> Option<u64>
    ensures { result ≡ left_of room (members_weight (members_of members.now)) }
{
    let mut room = room;
    for (_, value) in members {
        match left_beside(room, value) {
            Some(left) => room = left,
            None => return None,
        }
    }
    Some(room)
}

/// The weight of a value, where it is at most the limit. Nothing weighs more than 2^64 - 1.
pub(crate) fn light(limit: u64, value: &Tree) -> Option<u64>
    ensures { result ≡ light_weight limit (model.weight (view value.now)) }
{
    if let Some(left) = left_beside(limit, value) {
        return Some(limit - left);
    }
    if limit == u64::MAX {
        return Some(limit);
    }
    None
}

/// Whether an array of these items weighs more than the limit.
pub(crate) fn is_heavy(limit: u64, items: &[Tree]) -> bool
    ensures { result ≡ definitions.is_above limit (1 + trees_weight (trees_of (trees_view items.now))) }
{
    if limit == u64::MAX {
        return false;
    }
    match left_beside_items(limit, items) {
        Some(left) => left == 0,
        None => true,
    }
}
