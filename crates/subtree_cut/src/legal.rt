// Legal plans.
ghost use Rattle.std.specs.Prelude.{◌≡◌, ◌↔◌, ◌&&◌, ◌+◌, nat_le, nat_lt, true, List, map, Some};
ghost use Rattle.std.specs.Option.{option_map};
ghost use Rattle.ctx_types.specs.declared.context.ActiveContext.{ActiveContext as ContextData};
ghost use Rattle.cut_model.specs.Pieces.{count};
ghost use Rattle.cut_model.specs.Legal.{IsLegal};
ghost use Rattle.cut_model.specs.LegalTest as test;
ghost use Rattle.subtree_cut.specs.View.{piece_view, plan_view};

use crate::plan::{ExpandPiece, ExpandPlan};
use ld_json::Step;
use tree_expand::is_same_step;

/// Whether the pieces of a plan have items, share none, and none lies inside another. Any two pieces are compared, so the time that it takes
/// grows with the square of their number.
pub fn is_legal(plan: &ExpandPlan<'_>) -> bool
    ensures { (result ≡ true) ↔ IsLegal (plan_view plan.now) }
{
    are_apart(plan.pieces.as_slice())
}

/// Whether each piece has an item, and any two are apart.
fn are_apart(pieces: &[ExpandPiece<'_>]) -> bool
    ensures { (contexts : List ContextData) → result ≡ test.is_legal (map (piece_view contexts) pieces.now) }
{
    for (number, piece) in pieces.iter().enumerate() {
        if !is_apart(piece, &pieces[number + 1..]) {
            return false;
        }
    }
    true
}

/// Whether a piece has an item, and is apart from these.
fn is_apart(piece: &ExpandPiece<'_>, others: &[ExpandPiece<'_>]) -> bool
    ensures { (contexts : List ContextData) → result ≡ nat_lt 0 (count (piece_view contexts piece.now).items) && test.is_apart_from_all (piece_view contexts piece.now) (map (piece_view contexts) others.now) }
{
    !piece.items.is_empty() && is_apart_from(piece, others)
}

fn is_apart_from(piece: &ExpandPiece<'_>, others: &[ExpandPiece<'_>]) -> bool
    ensures { (contexts : List ContextData) → result ≡ test.is_apart_from_all (piece_view contexts piece.now) (map (piece_view contexts) others.now) }
{
    for other in others {
        if !is_outside(piece, other) {
            return false;
        }
        if !is_outside(other, piece) {
            return false;
        }
    }
    true
}

/// Whether no item of the second piece is one of the first, or lies inside one.
fn is_outside(first: &ExpandPiece<'_>, second: &ExpandPiece<'_>) -> bool
    ensures { (contexts : List ContextData) → result ≡ test.is_outside (piece_view contexts first.now) (piece_view contexts second.now) }
{
    match way_from(first.array.as_slice(), second.array.as_slice()) {
        None => true,
        Some(way) => is_outside_by(first, second, way),
    }
}

/// The same, where the array of the second piece stands at or below that of the first, by the way from the one to the other.
fn is_outside_by(first: &ExpandPiece<'_>, second: &ExpandPiece<'_>, way: &[Step]) -> bool
    ensures { (contexts : List ContextData) → result ≡ test.is_outside_by (piece_view contexts first.now) (piece_view contexts second.now) (Some way.now) }
{
    match way.split_first() {
        None => ends_before(first, second) || ends_before(second, first),
        Some((step, _)) => match step {
            Step::Item(number) => lacks_item(first, *number),
            Step::Key(_) => true,
        },
    }
}

/// What is left of the second place where it begins with the first.
fn way_from<'p>(outer: &[Step], inner: &'p [Step]) -> Option<&'p [Step]>
    ensures { option_map (λ way. way.now) result ≡ test.way_from outer.now inner.now }
{
    if inner.len() < outer.len() {
        return None;
    }
    for (number, step) in outer.iter().enumerate() {
        if !is_same_step(step, &inner[number]) {
            return None;
        }
    }
    Some(&inner[outer.len()..])
}

/// Whether the first piece ends before the second begins, in one array.
fn ends_before(first: &ExpandPiece<'_>, second: &ExpandPiece<'_>) -> bool
    ensures { (contexts : List ContextData) → result ≡ test.ends_before (piece_view contexts first.now) (piece_view contexts second.now) }
{
    is_past(first.from, first.items.len(), second.from)
}

/// Whether the item with this number is none of the piece's.
fn lacks_item(piece: &ExpandPiece<'_>, number: u64) -> bool
    ensures { (contexts : List ContextData) → result ≡ test.lacks_item (piece_view contexts piece.now) number }
{
    if number < piece.from {
        return true;
    }
    is_past(piece.from, piece.items.len(), number)
}

/// Whether a number is none of so many from a first one on, but comes behind them.
fn is_past(first: u64, count: usize, number: u64) -> bool
    ensures { result ≡ nat_le (first + count) number }
{
    if number < first {
        return false;
    }
    number - first >= count as u64
}
