// The tree of a token that is a number.
ghost use Rattle.std.specs.Prelude.{◌≡◌, ◌<◌, ◌==◌, ◌&&◌, true, false, not, option_map, length, slice_index, IsTrue, IfSome};
ghost use Rattle.serde_json.specs.View.{number_view};
ghost use Rattle.serde_json.specs.Read.{number_of, number_from, float_of};
ghost use Rattle.ld_tree.specs.View.{view};
ghost use Rattle.ld_json.specs.Marks.{is_mark};
ghost use Rattle.ld_json.specs.Numbers.{is_accepted};
ghost use Rattle.ld_json.specs.Tokens.{number_read, HasNoMark};

use crate::{by_value, numbers};
use fast_float::Numeral;
use ld_tree::Tree;
use serde_json::Number;

/// What was seen of the numbers of a text, so that it is looked through again only where that is needed.
#[derive(Clone, Copy, Debug, Drop)]
pub(crate) struct Seen {
    /// Whether each is accepted.
    pub(crate) accepted: bool,
    /// Whether none is read as the number 1.1.
    pub(crate) unmarked: bool,
}

/// The tree of a number's text; None where it is too large for a float. What is seen of it is noted.
pub(crate) fn number_at(text: &str, seen: &mut Seen) -> Option<Tree>
    ensures tree { option_map view result ≡ number_read text.now }
    ensures accepted { seen.new.accepted ≡ (seen.old.accepted && is_accepted text.now) }
    ensures unmarked { IfSome result (λ t. seen.new.unmarked ≡ true
        → (seen.old.unmarked ≡ true) × HasNoMark (view t)) }
{
    let tree = tree_of_number(text);
    note(seen, numbers::is_accepted(text.as_bytes()), has_mark(&tree));
    tree
}

fn note(seen: &mut Seen, accepted: bool, marked: bool)
    ensures accepted { seen.new.accepted ≡ (seen.old.accepted && accepted) }
    ensures unmarked { seen.new.unmarked ≡ (seen.old.unmarked && not marked) }
{
    seen.accepted = seen.accepted && accepted;
    seen.unmarked = seen.unmarked && !marked;
}

fn has_mark(tree: &Option<Tree>) -> bool
    ensures { IfSome tree.now (λ t. result ≡ is_mark (view t)) }
{
    matches!(tree, Some(Tree::OneOne))
}

fn tree_of_number(text: &str) -> Option<Tree>
    ensures { option_map view result ≡ number_read text.now }
{
    match parse(text) {
        Some(number) => Some(by_value::number_of(&number)),
        None => None,
    }
}

/// The number of a text, as `serde_json` reads it.
fn parse(text: &str) -> Option<Number>
    ensures { option_map number_view result ≡ number_of text.now }
{
    let bytes = text.as_bytes();
    if has_minus(bytes) {
        negative(&Numeral::scan(&bytes[1..]))
    } else {
        unsigned(&Numeral::scan(bytes))
    }
}

fn unsigned(numeral: &Numeral<'_>) -> Option<Number>
    ensures { option_map number_view result ≡ number_from false numeral.now }
{
    match numeral.to_u64() {
        Some(n) => Some(Number::from(n)),
        None => nearest(false, numeral),
    }
}

fn negative(numeral: &Numeral<'_>) -> Option<Number>
    ensures { option_map number_view result ≡ number_from true numeral.now }
{
    if let Some(n) = numeral.to_i64(true) {
        if n < 0 {
            return Some(Number::from(n));
        }
    }
    nearest(true, numeral)
}

fn nearest(negative: bool, numeral: &Numeral<'_>) -> Option<Number>
    ensures { option_map number_view result ≡ float_of negative numeral.now }
{
    Number::from_f64(numeral.to_float::<f64>(negative))
}

fn has_minus(bytes: &[u8]) -> bool
    ensures value { result ≡ (slice_index bytes.now 0 == 45) }
    ensures len { IsTrue result → 0 < length bytes.now }
{
    !bytes.is_empty() && bytes[0] == b'-'
}
