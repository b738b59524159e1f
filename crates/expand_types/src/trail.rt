// The way to a value, on the stack.
ghost use Rattle.std.specs.Prelude.{◌≡◌, IfOk};
ghost use Rattle.expand_types.specs.View.{trail_view};

use ld_json::{Place, Step};
use ld_text::Text;
use std::alloc::{AllocError, Global};

/// The way to a value. It is lent down the stack, and made a place only where one is needed.
#[cycle(trail)]
#[derive(Clone, Copy)]
pub enum Trail<'a> {
    /// The place from which the way starts.
    From(&'a Place),
    /// The value of this key of a map.
    InKey(&'a Trail<'a>, &'a str),
    /// The item with this number of an array.
    InItem(&'a Trail<'a>, u64),
}

/// The place at the end of the way.
pub fn place_of(alloc: Global, trail: &Trail<'_>) -> Result<Place, AllocError>
    ensures { IfOk result (λ p. p ≡ trail_view trail.now) }
{
    match trail {
        Trail::From(place) => copied(alloc, place),
        Trail::InKey(before, key) => {
            let mut place = place_of(alloc, before)?;
            place.push(Step::Key(Text::new(alloc, key)?))?;
            Ok(place)
        }
        Trail::InItem(before, number) => {
            let mut place = place_of(alloc, before)?;
            place.push(Step::Item(*number))?;
            Ok(place)
        }
    }
}

fn copied(alloc: Global, place: &Place) -> Result<Place, AllocError>
    ensures { IfOk result (λ p. p ≡ place.now) }
{
    let mut copy = Place::new(alloc);
    for step in place.as_slice() {
        copy.push(copied_step(step)?)?;
    }
    Ok(copy)
}

fn copied_step(step: &Step) -> Result<Step, AllocError>
    ensures { IfOk result (λ s. s ≡ step.now) }
{
    match step {
        Step::Key(key) => Ok(Step::Key(key.copy()?)),
        Step::Item(number) => Ok(Step::Item(*number)),
    }
}
