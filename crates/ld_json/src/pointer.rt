// A place as a JSON Pointer.
ghost use Rattle.std.specs.Prelude.{◌≡◌, ◌∷◌, ◌++◌, IfOk, OnOk, string_bytes};
ghost use Rattle.std.specs.List.{flat_map};
ghost use Rattle.std.specs.Str.{chars};
ghost use Rattle.ld_json.specs.Pointer.{pointer, steps_text, step_text, escaped_char};

use crate::location::{Place, Step};
use ld_tree::Text;
use std::alloc::{AllocError, Global};

/// The JSON Pointer of a place (RFC 6901): each step is `/` and the key, with `~` as `~0` and `/` as `~1`, or the item's
/// number. The pointer of the root would be empty; in its stead stand the words `the root`, so that a line can name it.
pub fn pointer_of(alloc: Global, place: &Place) -> Result<Text, AllocError>
    ensures { IfOk result (λ t. t ≡ pointer place.now) }
{
    if place.len() == 0 {
        return Text::new(alloc, "the root");
    }
    let mut out = String::new(alloc);
    push_steps(alloc, &mut out, place.as_slice())?;
    Ok(Text::from_string(out)?)
}

fn push_steps(alloc: Global, out: &mut String, steps: &[Step]) -> Result<(), AllocError>
    ensures { OnOk result (string_bytes out.new ≡ string_bytes out.old ++ steps_text steps.now) }
{
    for step in steps {
        push_step(alloc, out, step)?;
    }
    Ok(())
}

fn push_step(alloc: Global, out: &mut String, step: &Step) -> Result<(), AllocError>
    ensures { OnOk result (string_bytes out.new ≡ string_bytes out.old ++ 47 ∷ step_text step.now) }
{
    out.push_str("/")?;
    match step {
        Step::Key(key) => push_escaped(out, key.as_str()),
        Step::Item(number) => {
            let text = format!(in alloc; "{number}")?;
            out.push_str(text.as_str())
        }
    }
}

fn push_escaped(out: &mut String, key: &str) -> Result<(), AllocError>
    ensures { OnOk result (string_bytes out.new ≡ string_bytes out.old ++ flat_map escaped_char (chars key.now)) }
{
    for character in key.chars() {
        push_char(out, character)?;
    }
    Ok(())
}

fn push_char(out: &mut String, character: char) -> Result<(), AllocError>
    ensures { OnOk result (string_bytes out.new ≡ string_bytes out.old ++ escaped_char character) }
{
    match character {
        '~' => out.push_str("~0"),
        '/' => out.push_str("~1"),
        _ => out.push(character),
    }
}
