//! The five parts of a reference.
ghost use Rattle.std.specs.Prelude.{◌≡◌, ◌<◌, drop};
ghost use Rattle.std.specs.Option.{option_copied};
ghost use Rattle.std.specs.List.{before_first, list_all, list_any, position_or_len};
ghost use Rattle.iri_ref.specs.Parts.{EndAtMarks, bytes_of, parts_of, part_after, is, is_run, is_letter, is_scheme_byte, is_scheme, is_iri_byte, scheme_in, behind_scheme, authority_in, path_in, has_scheme as has_scheme_text, is_well_formed as is_well_formed_text};
ghost use Rattle.ld_model.specs.Iri as model;
ghost use Rattle.iri_ref.specs.Resolve.{text_of};

/// The parts of a reference (RFC 3986, section 3). A part that is absent is no empty part.
#[derive(Clone, Copy, Debug, PartialEq, Eq)]
pub struct Parts<'a> {
    /// What stands before the first `:`, where no slash stands before that.
    pub scheme: Option<&'a str>,
    /// What stands between `//` and the path.
    pub authority: Option<&'a str>,
    /// The path, which may be empty.
    pub path: &'a str,
    /// What stands between the first `?` and the fragment.
    pub query: Option<&'a str>,
    /// What stands behind the first `#`.
    pub fragment: Option<&'a str>,
}

/// The parts of a reference, as the regular expression of RFC 3986, appendix B, finds them.
pub fn split(text: &str) -> Parts<'_>
    ensures parts { bytes_of result ≡ parts_of text.now }
    ensures marks { EndAtMarks (bytes_of result) }
    ensures nothing_lost { text_of (bytes_of result) ≡ text.now }
{
    let (text, fragment) = cut(text, '#');
    let (text, query) = cut(text, '?');
    let (scheme, text) = cut_scheme(text);
    let (authority, path) = cut_authority(text);
    Parts {
        scheme,
        authority,
        path,
        query,
        fragment,
    }
}

/// Whether a text has the form of an IRI: a scheme stands before its first `:` (RFC 3986, section
/// 3.1).
pub fn has_scheme(text: &str) -> bool
    ensures parts { result ≡ has_scheme_text text.now }
    ensures bytes { result ≡ model.has_scheme text.now }
{
    begins_with_scheme(text)
}

fn begins_with_scheme(text: &str) -> bool
    ensures { result ≡ has_scheme_text text.now }
{
    match text.split_once(':') {
        Some((scheme, _)) => is_scheme(scheme),
        None => false,
    }
}

/// Whether a text has the form of an IRI and none of the characters that stand in no IRI: U+0000
/// to U+0020 and ``< > " { } | ^ ` \``.
pub fn is_well_formed(text: &str) -> bool
    ensures { result ≡ is_well_formed_text text.now }
{
    has_scheme(text) && has_iri_bytes(text)
}

fn has_iri_bytes(text: &str) -> bool
    ensures { result ≡ list_all is_iri_byte text.now }
{
    text.bytes().all(|b| is_iri_byte(b))
}

// The text before the first mark, and the text behind it where the mark is there.
pub(crate) fn cut(text: &str, mark: char) -> (&str, Option<&str>)
    requires { mark < 128 }
    ensures front { result.0.now ≡ before_first (is mark) text.now }
    ensures rest { option_copied result.1 ≡ part_after (is mark) text.now }
{
    match text.split_once(mark) {
        Some((front, rest)) => (front, Some(rest)),
        None => (text, None),
    }
}

fn cut_scheme(text: &str) -> (Option<&str>, &str)
    ensures scheme { option_copied result.0 ≡ scheme_in text.now }
    ensures rest { result.1.now ≡ behind_scheme text.now }
{
    match text.split_once(':') {
        Some((scheme, rest)) if is_run(scheme) => (Some(scheme), rest),
        _ => (None, text),
    }
}

fn cut_authority(text: &str) -> (Option<&str>, &str)
    ensures authority { option_copied result.0 ≡ authority_in text.now }
    ensures path { result.1.now ≡ path_in text.now }
{
    match text.strip_prefix("//") {
        Some(rest) => {
            let (authority, path) = split_before_slash(rest);
            (Some(authority), path)
        }
        None => (None, text),
    }
}

fn split_before_slash(text: &str) -> (&str, &str)
    ensures front { result.0.now ≡ before_first (is 47) text.now }
    ensures rest { result.1.now ≡ drop (position_or_len (is 47) text.now) text.now }
{
    match text.find('/') {
        Some(at) => text.split_at(at),
        None => (text, ""),
    }
}

fn is_run(text: &str) -> bool
    ensures { result ≡ is_run text.now }
{
    !text.is_empty() && !has_slash(text)
}

fn has_slash(text: &str) -> bool
    ensures { result ≡ list_any (is 47) text.now }
{
    text.bytes().any(|b| b == b'/')
}

fn is_scheme(text: &str) -> bool
    ensures { result ≡ is_scheme text.now }
{
    match text.as_bytes().split_first() {
        Some((first, rest)) => is_letter(*first) && has_scheme_bytes(rest),
        None => false,
    }
}

fn has_scheme_bytes(bytes: &[u8]) -> bool
    ensures { result ≡ list_all is_scheme_byte bytes.now }
{
    bytes.iter().all(|b| is_scheme_byte(*b))
}

fn is_letter(byte: u8) -> bool
    ensures { result ≡ is_letter byte }
{
    matches!(byte, b'A'..=b'Z' | b'a'..=b'z')
}

fn is_scheme_byte(byte: u8) -> bool
    ensures { result ≡ is_scheme_byte byte }
{
    matches!(byte, b'A'..=b'Z' | b'a'..=b'z' | b'0'..=b'9' | b'+' | b'-' | b'.')
}

fn is_iri_byte(byte: u8) -> bool
    ensures { result ≡ is_iri_byte byte }
{
    !matches!(
        byte,
        0..=b' ' | b'<' | b'>' | b'"' | b'{' | b'}' | b'|' | b'^' | b'`' | b'\\'
    )
}
