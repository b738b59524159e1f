// The lines of an index.
ghost use Rattle.std.specs.Prelude.{◌≡◌, ◌<◌, ◌++◌, [], ◌∷◌, List, ℕ, length, position, not, cond, true, None, IfOk, OnOk, IsTrue, MatchResult};
ghost use Rattle.std.specs.Option.{option_map, option_and_then};
ghost use Rattle.std.specs.List.{before_first, list_all};
ghost use Rattle.std.specs.Str.{bytes_eq};
ghost use Rattle.iri_ref.specs.Parts.{is, part_after};
ghost use Rattle.ctx_store.specs.Index.{lines, without_return, is_name_byte, begins_with_dot, is_file_name, entry_of, entry_on, iris_on, breaks, first_broken};
ghost use Rattle.ctx_store.specs.Stops.{RefusesIndex};
ghost use Rattle.ctx_store.specs.Seen.{has, HasSeen};

use crate::store::StoreRefusal;
use iri_ref::is_well_formed;
use std::alloc::{AllocError, Global};
use std::collections::BTreeSet;
use std::str;

fn line_feed(bytes: &[u8]) -> Option<usize>
    ensures { result ≡ position (is 10) bytes.now }
{
    bytes.iter().position(|b| *b == b'\n')
}

fn without_return(line: &[u8]) -> &[u8]
    ensures { result.now ≡ without_return line.now }
{
    let Some((last, front)) = line.split_last() else {
        return line;
    };
    if *last == b'\r' { front } else { line }
}

// The first line, and what stands behind it.
pub(crate) fn next_line(bytes: &[u8]) -> (&[u8], &[u8])
    requires { 0 < length bytes.now }
    ensures first { lines bytes.now ≡ result.0.now ∷ lines result.1.now }
    ensures shorter { length result.1.now < length bytes.now }
{
    match line_feed(bytes) {
        Some(at) => (without_return(&bytes[..at]), &bytes[at + 1..]),
        None => (bytes, &bytes[bytes.len()..]),
    }
}

fn is_name_byte(b: u8) -> bool
    ensures { result ≡ is_name_byte b }
{
    b.is_ascii_alphanumeric() || b == b'.' || b == b'_' || b == b'-'
}

fn has_name_bytes(name: &[u8]) -> bool
    ensures { result ≡ list_all is_name_byte name.now }
{
    name.iter().all(|b| is_name_byte(*b))
}

fn begins_with_dot(name: &[u8]) -> bool
    ensures { result ≡ begins_with_dot name.now }
{
    match name {
        [b'.', ..] => true,
        _ => false,
    }
}

fn is_file_name(name: &[u8]) -> bool
    ensures { result ≡ is_file_name name.now }
{
    1 <= name.len() && name.len() <= 255 && !begins_with_dot(name) && has_name_bytes(name)
}

// The IRI and the file's name on a line.
pub(crate) fn entry_on(line: &[u8]) -> Option<(&str, &str)>
    ensures { option_map (λ e. (e.0.now, e.1.now)) result ≡ entry_on line.now }
{
    match str::from_utf8(line) {
        Ok(text) => entry_in(text),
        Err(_) => None,
    }
}

fn entry_in(text: &str) -> Option<(&str, &str)>
    ensures { option_map (λ e. (e.0.now, e.1.now)) result ≡ option_and_then (entry_of (before_first (is 32) text.now)) (part_after (is 32) text.now) }
{
    let (iri, name) = text.split_once(' ')?;
    if is_well_formed(iri) && is_file_name(name.as_bytes()) {
        Some((iri, name))
    } else {
        None
    }
}

// Adds an IRI, and answers whether it is new.
fn add<'a>(seen: &mut BTreeSet<&'a str>, iri: &'a str) -> Result<bool, AllocError>
    ensures new { IfOk result (λ added. added ≡ not (has seen.old iri.now)) }
    ensures seen { OnOk result ((q : List ℕ) → has seen.new q ≡ cond (bytes_eq iri.now q) true (has seen.old q)) }
{
    let added = seen.insert(iri)?;
    Ok(added)
}

// Whether a line keeps the rule behind those before it, whose IRIs are in the set. Its own is added.
fn keeps_rule<'a>(seen: &mut BTreeSet<&'a str>, line: &'a [u8]) -> Result<bool, AllocError>
    ensures rule { IfOk result (λ keeps. (before : List (List ℕ)) → HasSeen seen.old before → keeps ≡ not (breaks before line.now)) }
    ensures seen { IfOk result (λ keeps. (before : List (List ℕ)) → HasSeen seen.old before → IsTrue keeps → HasSeen seen.new (iris_on line.now ++ before)) }
{
    if line.is_empty() {
        return Ok(true);
    }
    match entry_on(line) {
        Some((iri, _)) => add(seen, iri),
        None => Ok(false),
    }
}

// Looks for the first line that breaks the index's rule.
pub(crate) fn check_index(alloc: Global, index: &[u8]) -> Result<(), StoreRefusal>
    ensures { let broken = first_broken [] 1 (lines index.now) in MatchResult result (λ _. broken ≡ None) (λ e. RefusesIndex e broken) }
{
    let mut seen = BTreeSet::new(alloc);
    let mut rest = index;
    let mut number = 0u64;
    while !rest.is_empty() {
        let (line, behind) = next_line(rest);
        rest = behind;
        number += 1;
        if !keeps_rule(&mut seen, line)? {
            return Err(StoreRefusal::IndexLine { line: number });
        }
    }
    Ok(())
}
