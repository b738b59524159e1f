// BLANK_NODE_LABEL.
ghost use Rattle.std.specs.Prelude.{◌≡◌, ◌<◌, ◌≤◌, ◌+◌, ◌-◌, ◌∷◌, [], ℕ, length, drop, zero, None, Some, false, IfOk, MatchOption, nat_lt, if◌then◌else◌};
ghost use Rattle.std.specs.Option.{option_map_or};
ghost use Rattle.std.specs.Char.{is_ascii_digit};
ghost use Rattle.rdf_terms.specs.Quad.{is_in, is_pn_chars_base, is_pn_chars_u, is_pn_chars};
ghost use Rattle.nquads_terminals.specs.Terminals.{may_begin, label_more, label_len, label, IsReadAt};
ghost use Rattle.nquads_terminals.specs.Steps.{IsStep, IsFirst};

use crate::place::{from, from_any};
use bstr::decode_utf8;
use ld_text::Text;
use std::alloc::{AllocError, Global};
use std::str;

/// The ranges of PN_CHARS_BASE beyond ASCII, bounds included.
const BASE: [(u32, u32); 12] = [
    (0xC0, 0xD6),
    (0xD8, 0xF6),
    (0xF8, 0x2FF),
    (0x370, 0x37D),
    (0x37F, 0x1FFF),
    (0x200C, 0x200D),
    (0x2070, 0x218F),
    (0x2C00, 0x2FEF),
    (0x3001, 0xD7FF),
    (0xF900, 0xFDCF),
    (0xFDF0, 0xFFFD),
    (0x1_0000, 0xE_FFFF),
];

/// The ranges that PN_CHARS adds beyond ASCII.
const MARKS: [(u32, u32); 3] = [(0xB7, 0xB7), (0x300, 0x36F), (0x203F, 0x2040)];

fn is_in(ranges: &[(u32, u32)], c: u32) -> bool
    ensures { result ≡ is_in ranges.now c }
{
    ranges.iter().any(|range| range.0 <= c && c <= range.1)
}

fn is_letter(c: u32) -> bool
    ensures { result ≡ is_in ((0x41, 0x5A) ∷ (0x61, 0x7A) ∷ []) c }
{
    (0x41 <= c && c <= 0x5A) || (0x61 <= c && c <= 0x7A)
}

fn is_pn_chars_base(c: u32) -> bool
    ensures { result ≡ is_pn_chars_base c }
{
    is_letter(c) || is_in(&BASE, c)
}

fn is_pn_chars_u(c: u32) -> bool
    ensures { result ≡ is_pn_chars_u c }
{
    is_pn_chars_base(c) || c == 95 || c == 58
}

fn is_digit(c: u32) -> bool
    ensures { result ≡ is_ascii_digit c }
{
    48 <= c && c <= 57
}

fn is_pn_chars(c: u32) -> bool
    ensures { result ≡ is_pn_chars c }
{
    is_pn_chars_u(c) || c == 45 || is_digit(c) || is_in(&MARKS, c)
}

fn may_begin(c: u32) -> bool
    ensures { result ≡ may_begin c }
{
    is_pn_chars_u(c) || is_digit(c)
}

/// How a label goes on.
enum Step {
    /// By a character of this many bytes, with which it may end.
    Character(usize),
    /// By a dot, with which it may not end.
    Dot,
    /// It doesn't.
    End,
}

fn goes_on(character: Option<char>) -> bool
    ensures { result ≡ option_map_or is_pn_chars character false }
{
    match character {
        Some(c) => is_pn_chars(c as u32),
        None => false,
    }
}

fn starts(character: Option<char>) -> bool
    ensures { result ≡ option_map_or may_begin character false }
{
    match character {
        Some(c) => may_begin(c as u32),
        None => false,
    }
}

fn next_step(bytes: &[u8]) -> Step
    requires { 0 < length bytes.now }
    ensures { IsStep bytes.now result }
{
    let (character, size) = decode_utf8(bytes);
    if goes_on(character) {
        return Step::Character(size);
    }
    if bytes[0] == b'.' {
        return Step::Dot;
    }
    Step::End
}

/// The size of the character with which what follows `_:` begins, and 0 where no label can begin with it.
fn first_size(bytes: &[u8]) -> usize
    ensures { IsFirst bytes.now result }
{
    if bytes.is_empty() {
        return 0;
    }
    let (character, size) = decode_utf8(bytes);
    if starts(character) { size } else { 0 }
}

/// How many bytes follow `_:` in a label, and 0 where there is none.
fn label_len(bytes: &[u8]) -> usize
    ensures value { result ≡ label_len bytes.now }
    ensures within { result ≤ length bytes.now }
{
    let size = first_size(bytes);
    if size == 0 {
        return 0;
    }
    let mut at = size;
    let mut end = size;
    while at < bytes.len() {
        match next_step(from(bytes, at)) {
            Step::Character(size) => {
                at += size;
                end = at;
            }
            Step::Dot => at += 1,
            Step::End => return end,
        }
    }
    end
}

/// The label with which the bytes begin.
fn label_text(bytes: &[u8]) -> Option<&str>
    ensures { MatchOption result (label bytes.now ≡ None)
        (λ text. (length text.now ≤ length bytes.now) × (label bytes.now ≡ Some (text.now, drop (length text.now) bytes.now))) }
{
    if bytes.len() < 2 || bytes[0] != b'_' || bytes[1] != b':' {
        return None;
    }
    let len = label_len(from(bytes, 2));
    if len == 0 {
        return None;
    }
    match str::from_utf8(&bytes[..2 + len]) {
        Ok(text) => Some(text),
        Err(_) => None,
    }
}

/// The BLANK_NODE_LABEL that begins at the place, with its `_:`, and the place behind it: the longest match. `None`
/// exactly where none begins there.
///
/// # Errors
///
/// `AllocError` where memory is refused.
pub fn label_at(alloc: Global, bytes: &[u8], at: usize) -> Result<Option<(Text, usize)>, AllocError>
    ensures { IfOk result (λ found. IsReadAt bytes.now found (label (drop at bytes.now))) }
{
    match label_text(from_any(bytes, at)) {
        Some(text) => Ok(Some((Text::new(alloc, text)?, at + text.len()))),
        None => Ok(None),
    }
}
