// Long texts that are written short.
use std::alloc::{AllocError, Global};

/// The text that a field stands for.
pub(crate) fn long_text(alloc: Global, field: &str) -> Result<String, AllocError> {
    match repeated(field) {
        Some((count, text)) => repeat(alloc, count, text),
        None => String::from_str(alloc, field),
    }
}

/// The count and the text behind `repeat`; None where the field doesn't begin with it.
fn repeated(field: &str) -> Option<(u32, &str)> {
    let rest = field.strip_prefix("repeat ")?;
    let (count, text) = rest.split_once(' ')?;
    let count = count.parse().ok()?;
    Some((count, text))
}

fn repeat(alloc: Global, count: u32, text: &str) -> Result<String, AllocError> {
    let mut out = String::new(alloc);
    for part in text.split('<') {
        append_part(&mut out, count, part)?;
    }
    Ok(out)
}

/// Appends what is written several times, which ends with a bracket, and what is behind it.
fn append_part(out: &mut String, count: u32, part: &str) -> Result<(), AllocError> {
    match part.split_once('>') {
        Some((inside, behind)) => {
            append_times(out, count, inside)?;
            append_numbered(out, count, behind)
        }
        None => append_numbered(out, count, part),
    }
}

fn append_times(out: &mut String, count: u32, text: &str) -> Result<(), AllocError> {
    for number in 0..count {
        append_numbered(out, number, text)?;
    }
    Ok(())
}

fn append_numbered(out: &mut String, number: u32, text: &str) -> Result<(), AllocError> {
    for letter in text.chars() {
        match letter {
            '#' => append_number(out, number)?,
            '+' => append_number(out, number.saturating_add(1))?,
            _ => out.push(letter)?,
        }
    }
    Ok(())
}

fn append_number(out: &mut String, number: u32) -> Result<(), AllocError> {
    let digits = format!(in *out.allocator(); "{number}")?;
    out.push_str(digits.as_str())
}
