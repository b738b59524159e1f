// The escapes of characters.
ghost use Rattle.std.specs.Prelude.{◌≡◌, ◌<◌, ◌≤◌, ℕ, drop, length, IfSome, OnSome};
ghost use Rattle.nquads_terminals.specs.Characters.{hex_value, hex_number, front_number, character, short_escape, long_escape, letter_escape, named, escape};

use crate::enclosed::Enclosed;

fn hex_value(digit: u8) -> Option<u32>
    ensures value { result ≡ hex_value digit }
    ensures small { IfSome result (λ n. n < 16) }
{
    (digit as char).to_digit(16)
}

fn hex_number(a: u8, b: u8, c: u8, d: u8) -> Option<u32>
    ensures value { result ≡ hex_number a b c d }
    ensures small { IfSome result (λ n. n < 65536) }
{
    Some(4096 * hex_value(a)? + 256 * hex_value(b)? + 16 * hex_value(c)? + hex_value(d)?)
}

fn front_number(bytes: &[u8]) -> Option<u32>
    ensures value { result ≡ front_number bytes.now }
    ensures small { IfSome result (λ n. n < 65536) }
    ensures long { OnSome result (4 ≤ length bytes.now) }
{
    match bytes {
        [a, b, c, d, ..] => hex_number(*a, *b, *c, *d),
        _ => None,
    }
}

fn short_escape(bytes: &[u8]) -> Option<char>
    ensures { result ≡ short_escape bytes.now }
{
    char::from_u32(front_number(bytes)?)
}

fn long_escape(bytes: &[u8]) -> Option<char>
    ensures { result ≡ long_escape bytes.now }
{
    let high = front_number(bytes)?;
    let low = front_number(&bytes[4..])?;
    char::from_u32(65536 * high + low)
}

fn letter_escape(letter: u8) -> Option<char>
    ensures { result ≡ letter_escape letter }
{
    match letter {
        b't' => Some('\t'),
        b'b' => Some('\u{8}'),
        b'n' => Some('\n'),
        b'r' => Some('\r'),
        b'f' => Some('\u{c}'),
        b'"' | b'\'' | b'\\' => Some(letter as char),
        _ => None,
    }
}

fn named(kind: Enclosed, letter: u8) -> Option<char>
    ensures { result ≡ named kind letter }
{
    match kind {
        Enclosed::Iri => None,
        Enclosed::Quoted => letter_escape(letter),
    }
}

/// What follows a backslash: the character, and how many bytes write it.
pub(crate) fn escape(kind: Enclosed, bytes: &[u8]) -> Option<(char, usize)>
    ensures { result ≡ escape kind bytes.now }
{
    let (first, rest) = bytes.split_first()?;
    match *first {
        b'u' => Some((short_escape(rest)?, 5)),
        b'U' => Some((long_escape(rest)?, 9)),
        letter => Some((named(kind, letter)?, 1)),
    }
}
