//! The removal of dots from a path.
ghost use Rattle.std.specs.Prelude.{◌≡◌, false, IfOk, OnOk, string_bytes};
ghost use Rattle.std.specs.List.{before_first};
ghost use Rattle.iri_ref.specs.Parts.{is};
ghost use Rattle.iri_ref.specs.Dots.{closed, is_dots, remove_dots, segments_of, without_leading_dots};
ghost use Rattle.iri_ref.specs.Walk.{path_with, up_to_last_slash};

use crate::reference::cut;
use std::alloc::{AllocError, Global};

// The path without its dots. One buffer holds what is kept: a segment `..` cuts it at its last
// slash.
pub(crate) fn remove_dots(alloc: Global, path: &str) -> Result<String, AllocError>
    ensures { IfOk result (λ s. string_bytes s ≡ remove_dots path.now) }
{
    let mut kept = String::with_capacity(alloc, path.len())?;
    let (first, mut rest) = cut(without_leading_dots(path), '/');
    kept.push_str(first)?;
    while let Some(text) = rest {
        let (segment, after) = cut(text, '/');
        place(&mut kept, segment)?;
        if after.is_none() && is_dots(segment) {
            kept.push('/')?;
        }
        rest = after;
    }
    Ok(kept)
}

// Puts one segment more behind the path: `.` is left out, and `..` takes the last one away.
fn place(kept: &mut String, segment: &str) -> Result<(), AllocError>
    ensures { OnOk result (string_bytes kept.new ≡ path_with (string_bytes kept.old) segment.now) }
{
    if segment == "." {
        return Ok(());
    }
    if segment == ".." {
        cut_last_segment(kept);
        return Ok(());
    }
    kept.push('/')?;
    kept.push_str(segment)
}

fn cut_last_segment(kept: &mut String)
    ensures { string_bytes kept.new ≡ up_to_last_slash (string_bytes kept.old) }
{
    let end = kept.as_str().rfind('/').unwrap_or(0);
    kept.truncate(end);
}

// What follows the dots that a path begins with.
fn without_leading_dots(path: &str) -> &str
    ensures same { without_leading_dots (closed (segments_of path.now)) ≡ closed (segments_of result.now) }
    ensures ahead { is_dots (before_first (is 47) result.now) ≡ false }
{
    let mut rest = path;
    loop {
        let (first, after) = cut(rest, '/');
        if !is_dots(first) {
            return rest;
        }
        match after {
            Some(text) => rest = text,
            None => return "",
        }
    }
}

fn is_dots(segment: &str) -> bool
    ensures { result ≡ is_dots segment.now }
{
    segment == "." || segment == ".."
}
