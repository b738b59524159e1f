// The two terminals that have escapes: an IRI between `<` and `>`, and a string between quotation marks.
ghost use Rattle.std.specs.Prelude.{◌≡◌, ◌≤◌, ◌<◌, ◌+◌, ◌++◌, ℕ, List, Some, None, length, drop, take, slice_index, IfOk, OnOk, IfSome, IfNone, true, false};
ghost use Rattle.std.specs.Char.{encode_utf8};
ghost use Rattle.std.specs.Str.{is_utf8};
ghost use Rattle.std.specs.List.{prefix_len};
ghost use Rattle.nquads_terminals.specs.Characters.{closing, is_raw, enclosed, enclosed_text, onto};
ghost use Rattle.nquads_terminals.specs.Terminals.{IsReadAt};

use crate::escape::escape;
use crate::place::from;
use ld_text::Text;
use std::alloc::{AllocError, Global};
use std::str;

/// Which of the two terminals that have escapes: `specs/Characters.antt` speaks of them.
#[derive(Clone, Copy)]
pub enum Enclosed {
    /// IRIREF
    Iri,
    /// STRING_LITERAL_QUOTE
    Quoted,
}

fn closing(kind: Enclosed) -> u8
    ensures { result ≡ closing kind }
{
    match kind {
        Enclosed::Iri => b'>',
        Enclosed::Quoted => b'"',
    }
}

#[inline(always)]
fn is_raw(kind: Enclosed, b: u8) -> bool
    ensures { result ≡ is_raw kind b }
{
    match kind {
        Enclosed::Iri => {
            b > b' '
                && !matches!(
                    b,
                    b'<' | b'>' | b'"' | b'{' | b'}' | b'|' | b'^' | b'`' | b'\\'
                )
        }
        Enclosed::Quoted => !matches!(b, b'"' | b'\\' | b'\n' | b'\r'),
    }
}

/// How many bytes at the front stand for themselves.
#[inline(always)]
fn raw_len(kind: Enclosed, bytes: &[u8]) -> usize
    ensures { result ≡ prefix_len (is_raw kind) bytes.now }
{
    let mut len = 0;
    for byte in bytes {
        if !is_raw(kind, *byte) {
            return len;
        }
        len += 1;
    }
    len
}

/// What follows the opening mark, where nothing is escaped: the value, and the number of bytes to behind the closing mark.
#[inline(always)]
pub(crate) fn raw_text(kind: Enclosed, bytes: &[u8]) -> Option<(&str, usize)>
    ensures within { IfSome result (λ r. r.1 ≤ length bytes.now) }
    ensures value { IfSome result (λ r. r.0.now ≡ take (prefix_len (is_raw kind) bytes.now) bytes.now) }
    ensures read { IfSome result (λ r. enclosed_text kind bytes.now ≡ Some (r.0.now, drop r.1 bytes.now)) }
{
    let len = raw_len(kind, bytes);
    if len >= bytes.len() || bytes[len] != closing(kind) {
        return None;
    }
    match str::from_utf8(&bytes[..len]) {
        Ok(text) => Some((text, len + 1)),
        Err(_) => None,
    }
}

/// Puts the character with which the bytes begin, raw or escaped, behind the value, and says how many bytes write it.
/// `None` where they begin with none.
fn take_character(
    kind: Enclosed,
    bytes: &[u8],
    value: &mut Vec<u8>,
) -> Result<Option<usize>, AllocError>
    requires some { 0 < length bytes.now }
    requires unclosed { slice_index bytes.now 0 ≡ closing kind → ⊥ }
    ensures bad { IfOk result (λ taken. IfNone taken (enclosed kind 0 bytes.now ≡ None)) }
    ensures good { IfOk result (λ taken. IfSome taken (λ n. (front : List ℕ)
        × (value.new.items ≡ value.old.items ++ front)
        × (enclosed kind 0 bytes.now ≡ onto front (enclosed kind 0 (drop n bytes.now))))) }
    ensures size { IfOk result (λ taken. IfSome taken (λ n. (0 < n) × (n ≤ 10))) }
{
    let first = bytes[0];
    if first == b'\\' {
        let Some((character, len)) = escape(kind, from(bytes, 1)) else {
            return Ok(None);
        };
        push_character(value, character)?;
        return Ok(Some(1 + len));
    }
    if !is_raw(kind, first) {
        return Ok(None);
    }
    value.push(first)?;
    Ok(Some(1))
}

fn push_character(value: &mut Vec<u8>, character: char) -> Result<(), AllocError>
    ensures { OnOk result (value.new.items ≡ value.old.items ++ encode_utf8 character) }
{
    let mut room = [0u8; 4];
    let text = character.encode_utf8(&mut room);
    value.extend_from_slice(text.as_bytes())
}

/// As `enclosed_text`, character by character.
pub(crate) fn unescaped(
    alloc: Global,
    kind: Enclosed,
    bytes: &[u8],
) -> Result<Option<(Text, usize)>, AllocError>
    ensures { IfOk result (λ found. IsReadAt bytes.now found (enclosed_text kind bytes.now)) }
{
    let mut value = Vec::new(alloc);
    let mut at = 0;
    while at < bytes.len() {
        if bytes[at] == closing(kind) {
            let text = text_of(value)?;
            return Ok(text.map(|text| (text, at + 1)));
        }
        match take_character(kind, from(bytes, at), &mut value)? {
            Some(len) => at += len,
            None => return Ok(None),
        }
    }
    Ok(None)
}

/// The text of these bytes, where they are UTF-8.
fn text_of(bytes: Vec<u8>) -> Result<Option<Text>, AllocError>
    ensures none { IfOk result (λ found. IfNone found (is_utf8 bytes.items ≡ false)) }
    ensures text { IfOk result (λ found. IfSome found (λ text. (is_utf8 bytes.items ≡ true) × (text ≡ bytes.items))) }
{
    match String::from_utf8(bytes) {
        Ok(string) => Ok(Some(Text::from_string(string)?)),
        Err(_) => Ok(None),
    }
}

/// What follows the opening mark: the value, where it is a text, and the number of bytes to behind the closing mark.
pub(crate) fn enclosed_text(
    alloc: Global,
    kind: Enclosed,
    bytes: &[u8],
) -> Result<Option<(Text, usize)>, AllocError>
    ensures { IfOk result (λ found. IsReadAt bytes.now found (enclosed_text kind bytes.now)) }
{
    if let Some((text, len)) = raw_text(kind, bytes) {
        return Ok(Some((Text::new(alloc, text)?, len)));
    }
    let found = unescaped(alloc, kind, bytes)?;
    Ok(found)
}
