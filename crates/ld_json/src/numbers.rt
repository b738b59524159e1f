// Which number tokens of a text are accepted.
ghost use Rattle.std.specs.Prelude.{◌≡◌};
ghost use Rattle.ld_json.specs.Numbers.{next, begins_number, is_break, word_of, is_accepted, is_magnitude, is_within, without_minus};
ghost use Rattle.ld_json.specs.Numbers as numbers;

/// The greatest magnitude of a whole number that is accepted.
const GREATEST: u64 = 9_007_199_254_740_992;

/// How a byte of a JSON text stands to the strings and words in it.
#[derive(Clone, Copy, Debug, PartialEq, Eq)]
enum Stand {
    /// Outside strings and words.
    Outside,
    /// Inside a word: a number, or `true`, `false` or `null`.
    Word,
    /// Inside a string.
    Inside,
    /// Inside a string, right after a backslash that escapes it.
    Escaped,
}

/// Where the first number of a text begins that isn't accepted; None where each is.
pub(crate) fn refused_number(bytes: &[u8]) -> Option<u64>
    ensures { result ≡ numbers.refused_number bytes.now }
{
    let mut stand = Stand::Outside;
    for (at, byte) in bytes.iter().enumerate() {
        if begins_number(stand, *byte) && !is_accepted(word_of(&bytes[at..])) {
            return Some(at as u64);
        }
        stand = next_stand(stand, *byte);
    }
    None
}

fn next_stand(stand: Stand, byte: u8) -> Stand
    ensures { result ≡ next stand byte }
{
    match stand {
        Stand::Outside if byte == b'"' => Stand::Inside,
        Stand::Outside | Stand::Word => if is_break(byte) {
            Stand::Outside
        } else {
            Stand::Word
        },
        Stand::Inside => match byte {
            b'"' => Stand::Outside,
            b'\\' => Stand::Escaped,
            _ => Stand::Inside,
        },
        Stand::Escaped => Stand::Inside,
    }
}

fn begins_number(stand: Stand, byte: u8) -> bool
    ensures { result ≡ begins_number stand byte }
{
    match stand {
        Stand::Outside => byte == b'-' || byte.is_ascii_digit(),
        _ => false,
    }
}

/// Whether a byte ends a word: white space, a bracket, a brace, a colon or a comma (RFC 8259, section 2).
fn is_break(byte: u8) -> bool
    ensures { result ≡ is_break byte }
{
    matches!(
        byte,
        b'{' | b'}' | b'[' | b']' | b':' | b',' | b' ' | b'\t' | b'\n' | b'\r'
    )
}

/// The word that a text begins with.
fn word_of(text: &[u8]) -> &[u8]
    ensures { result.now ≡ word_of text.now }
{
    for (end, byte) in text.iter().enumerate() {
        if is_break(*byte) {
            return &text[..end];
        }
    }
    text
}

/// Whether a number token is `0`, `1.1`, or a whole number of at most 2^53 in magnitude without a zero in front.
pub(crate) fn is_accepted(word: &[u8]) -> bool
    ensures { result ≡ is_accepted word.now }
{
    word == b"0".as_slice() || word == b"1.1".as_slice() || is_magnitude(without_minus(word))
}

fn without_minus(word: &[u8]) -> &[u8]
    ensures { result.now ≡ without_minus word.now }
{
    match word {
        [b'-', rest @ ..] => rest,
        _ => word,
    }
}

fn is_magnitude(digits: &[u8]) -> bool
    ensures { result ≡ is_magnitude digits.now }
{
    match digits {
        [first, ..] => *first > b'0' && is_within(digits),
        [] => false,
    }
}

/// Whether all are digits, of a number of at most 2^53.
fn is_within(digits: &[u8]) -> bool
    ensures { result ≡ is_within 0 digits.now }
{
    let mut number = 0u64;
    for digit in digits {
        if !digit.is_ascii_digit() {
            return false;
        }
        number = number * 10 + u64::from(*digit - b'0');
        if number > GREATEST {
            return false;
        }
    }
    true
}
