// Small tests of texts and values.
ghost use Rattle.std.specs.Prelude.{◌≡◌, Some};
ghost use Rattle.std.specs.List.{list_any};
ghost use Rattle.std.specs.Str.{bytes_eq};
ghost use Rattle.iri_ref.specs.Parts.{colon, slash};
ghost use Rattle.ctx_model.specs.Words as words;
ghost use Rattle.ctx_entries.specs.View.{tree_view};

use ctx_types::is_keyword;
use iri_ref::has_scheme;
use ld_tree::{Text, Tree};

/// Whether the text is one of these.
pub fn among(text: &str, texts: &[Text]) -> bool
    ensures { result ≡ words.among text.now texts.now }
{
    texts.iter().any(|other| text == other.as_str())
}

/// Whether the text is one of these words.
pub fn is_one_of(text: &str, words: &[&str]) -> bool
    ensures { result ≡ list_any (λ w. bytes_eq text.now w.now) words.now }
{
    words.iter().any(|word| text == *word)
}

/// Whether there is a text in the form of an IRI.
pub fn is_iri(text: &Option<Text>) -> bool
    ensures { result ≡ words.is_iri text.now }
{
    match text {
        Some(text) => has_scheme(text.as_str()),
        None => false,
    }
}

/// Whether there is a text in the form of an IRI, or a blank node identifier.
pub fn is_iri_or_blank(text: &Option<Text>) -> bool
    ensures { result ≡ words.is_iri_or_blank text.now }
{
    match text {
        Some(text) => has_scheme(text.as_str()) || text.is_blank(),
        None => false,
    }
}

/// Whether there is a text, and it is a keyword.
pub fn is_some_keyword(text: &Option<Text>) -> bool
    ensures { result ≡ words.is_some_keyword text.now }
{
    match text {
        Some(text) => is_keyword(text.as_str()),
        None => false,
    }
}

/// Whether there is a text, and it is this word.
pub fn is_word(text: &Option<Text>, word: &str) -> bool
    ensures { result ≡ words.same_text text.now (Some word.now) }
{
    match text {
        Some(text) => text.as_str() == word,
        None => false,
    }
}

fn has_colon(text: &str) -> bool
    ensures { result ≡ list_any colon text.now }
{
    text.bytes().any(|byte| byte == b':')
}

/// Whether the text has a slash.
pub fn has_slash(text: &str) -> bool
    ensures { result ≡ words.has_slash text.now }
{
    text.bytes().any(|byte| byte == b'/')
}

/// Whether the text has a colon or a slash.
pub fn has_colon_or_slash(text: &str) -> bool
    ensures { result ≡ words.has_colon_or_slash text.now }
{
    has_colon(text) || has_slash(text)
}

/// Whether the text has a colon that is neither its first nor its last character.
pub fn has_inner_colon(text: &str) -> bool
    ensures { result ≡ words.has_inner_colon text.now }
{
    let bytes = text.as_bytes();
    bytes.len() > 2 && has_colon_byte(&bytes[1..bytes.len() - 1])
}

fn has_colon_byte(bytes: &[u8]) -> bool
    ensures { result ≡ list_any colon bytes.now }
{
    bytes.iter().any(|byte| *byte == b':')
}

/// Whether the text ends in one of gen-delims (RFC 3986, section 2.2).
pub fn ends_in_delimiter(text: &str) -> bool
    ensures { result ≡ words.ends_in_delimiter text.now }
{
    match text.as_bytes().last() {
        Some(byte) => is_delimiter(*byte),
        None => false,
    }
}

fn is_delimiter(byte: u8) -> bool
    ensures { result ≡ words.is_delimiter byte }
{
    match byte {
        b':' | b'/' | b'?' | b'#' | b'[' | b']' | b'@' => true,
        _ => false,
    }
}

/// Whether a value is absent, or a truth value.
pub fn is_absent_or_truth(value: Option<&Tree>) -> bool
    ensures { result ≡ words.is_absent_or_truth (tree_view value.entry) }
{
    match value {
        None => true,
        Some(value) => match value {
            Tree::Truth(_) => true,
            _ => false,
        },
    }
}

/// Whether a value is the truth value true.
pub fn is_true(value: Option<&Tree>) -> bool
    ensures { result ≡ words.is_true (tree_view value.entry) }
{
    match value {
        None => false,
        Some(value) => match value {
            Tree::Truth(truth) => *truth,
            _ => false,
        },
    }
}
