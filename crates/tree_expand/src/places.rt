// Places and ways, compared.
ghost use Rattle.std.specs.Prelude.{◌≡◌};
ghost use Rattle.ld_json.specs.declared.location.Step.TheVariants.{Item, Key};
ghost use Rattle.expand_types.specs.View.{trail_view};
ghost use Rattle.cut_model.specs.Pieces.{same_place, same_step};

use expand_types::Trail;
use ld_json::Step;

/// Whether a way leads by these steps.
pub fn leads_by(trail: &Trail<'_>, steps: &[Step]) -> bool
    ensures { result ≡ same_place (trail_view trail.now) steps.now }
{
    match trail {
        Trail::From(place) => are_same(place.as_slice(), steps),
        Trail::InKey(before, key) => match steps.split_last() {
            None => false,
            Some((step, front)) => is_key(step, key) && leads_by(before, front),
        },
        Trail::InItem(before, number) => match steps.split_last() {
            None => false,
            Some((step, front)) => is_item(step, *number) && leads_by(before, front),
        },
    }
}

/// Whether two steps are equal.
pub fn is_same_step(step: &Step, other: &Step) -> bool
    ensures { result ≡ same_step step.now other.now }
{
    match step {
        Step::Key(key) => is_key(other, key.as_str()),
        Step::Item(number) => is_item(other, *number),
    }
}

/// Whether a step leads to the value of this key.
fn is_key(step: &Step, key: &str) -> bool
    ensures { result ≡ same_step (Key key.now) step.now }
{
    match step {
        Step::Key(other) => key == other.as_str(),
        Step::Item(_) => false,
    }
}

/// Whether a step leads to the item with this number.
fn is_item(step: &Step, number: u64) -> bool
    ensures { result ≡ same_step (Item number) step.now }
{
    match step {
        Step::Key(_) => false,
        Step::Item(other) => number == *other,
    }
}

/// Whether two places have equal steps.
fn are_same(steps: &[Step], others: &[Step]) -> bool
    ensures { result ≡ same_place steps.now others.now }
{
    if steps.len() != others.len() {
        return false;
    }
    for (number, step) in steps.iter().enumerate() {
        if !is_same_step(step, &others[number]) {
            return false;
        }
    }
    true
}
