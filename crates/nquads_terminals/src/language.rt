// LANGTAG.
ghost use Rattle.std.specs.Prelude.{◌≡◌, ◌<◌, ◌≤◌, ◌+◌, ◌∷◌, length, drop, true, None, Some, IfOk, MatchOption};
ghost use Rattle.std.specs.Option.{option_copied};
ghost use Rattle.nquads_terminals.specs.Terminals.{is_tag_byte, begins_part, tag_more, langtag, IsReadAt};

use crate::place::{from, from_any};
use ld_text::Text;
use std::alloc::{AllocError, Global};
use std::str;

fn is_tag_byte(first: bool, byte: u8) -> bool
    ensures { result ≡ is_tag_byte first byte }
{
    if first {
        byte.is_ascii_alphabetic()
    } else {
        byte.is_ascii_alphanumeric()
    }
}

fn begins_part(bytes: &[u8]) -> bool
    ensures { result ≡ begins_part bytes.now }
{
    match bytes.first() {
        Some(byte) => byte.is_ascii_alphanumeric(),
        None => false,
    }
}

/// Whether the first byte goes on with a tag, and then whether the tag is still in its first part.
fn goes_on(first: bool, bytes: &[u8]) -> Option<bool>
    requires { 0 < length bytes.now }
    ensures { MatchOption result (tag_more first bytes.now ≡ 0) (λ part. tag_more first bytes.now ≡ 1 + tag_more part (drop 1 bytes.now)) }
{
    if is_tag_byte(first, bytes[0]) {
        return Some(first);
    }
    if bytes[0] == b'-' && begins_part(from(bytes, 1)) {
        return Some(false);
    }
    None
}

fn tag_more(bytes: &[u8]) -> usize
    ensures value { result ≡ tag_more true bytes.now }
    ensures within { result ≤ length bytes.now }
{
    let mut first = true;
    let mut at = 0;
    while at < bytes.len() {
        match goes_on(first, from(bytes, at)) {
            Some(part) => first = part,
            None => return at,
        }
        at += 1;
    }
    at
}

/// The tag of a LANGTAG with which the bytes begin.
fn tag_text(bytes: &[u8]) -> Option<&str>
    ensures { MatchOption result (langtag bytes.now ≡ None)
        (λ tag. (1 + length tag.now ≤ length bytes.now) × (langtag bytes.now ≡ Some (tag.now, drop (1 + length tag.now) bytes.now))) }
{
    if bytes.len() < 2 || bytes[0] != b'@' || !bytes[1].is_ascii_alphabetic() {
        return None;
    }
    let len = tag_more(from(bytes, 2));
    match str::from_utf8(&bytes[1..2 + len]) {
        Ok(tag) => Some(tag),
        Err(_) => None,
    }
}

/// The tag of a LANGTAG that begins at the place, without its `@`, and the place behind it: the longest match. `None`
/// exactly where none begins there.
///
/// # Errors
///
/// `AllocError` where memory is refused.
pub fn langtag_at(
    alloc: Global,
    bytes: &[u8],
    at: usize,
) -> Result<Option<(Text, usize)>, AllocError>
    ensures { IfOk result (λ found. IsReadAt bytes.now found (langtag (drop at bytes.now))) }
{
    match tag_text(from_any(bytes, at)) {
        Some(tag) => Ok(Some((Text::new(alloc, tag)?, at + 1 + tag.len()))),
        None => Ok(None),
    }
}
