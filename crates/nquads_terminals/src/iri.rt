// IRIREF.
ghost use Rattle.std.specs.Prelude.{◌≡◌, ◌≤◌, length, Some, IfOk, IfSome, drop};
ghost use Rattle.std.specs.List.{position_or_len};
ghost use Rattle.iri_ref.specs.Parts.{is};
ghost use Rattle.nquads_terminals.specs.Terminals.{iri_text, iriref, is_iri, IsReadAt};

use crate::enclosed::{Enclosed, enclosed_text, raw_text, unescaped};
use crate::place::behind;
use iri_ref::{has_scheme, is_well_formed};
use ld_text::Text;
use std::alloc::{AllocError, Global};

/// Where the mark stands first, or the number of bytes.
fn place_of(mark: u8, bytes: &[u8]) -> usize
    ensures { result ≡ position_or_len (is mark) bytes.now }
{
    let mut place = 0;
    for byte in bytes {
        if *byte == mark {
            return place;
        }
        place += 1;
    }
    place
}

/// Whether the value of an IRIREF is an IRI without an escape before its colon.
fn is_iri(bytes: &[u8], value: &str) -> bool
    ensures { result ≡ is_iri bytes.now value.now }
{
    is_well_formed(value) && place_of(b':', value.as_bytes()) <= place_of(b'\\', bytes)
}

/// What follows `<`: the IRI, and the number of bytes to behind `>`, where nothing is escaped.
fn raw_iri(bytes: &[u8]) -> Option<(&str, usize)>
    ensures within { IfSome result (λ r. r.1 ≤ length bytes.now) }
    ensures read { IfSome result (λ r. iri_text bytes.now ≡ Some (r.0.now, drop r.1 bytes.now)) }
{
    let (text, len) = raw_text(Enclosed::Iri, bytes)?;
    if has_scheme(text) {
        Some((text, len))
    } else {
        None
    }
}

/// The same, escaped or not.
fn any_iri(alloc: Global, bytes: &[u8]) -> Result<Option<(Text, usize)>, AllocError>
    ensures { IfOk result (λ found. IsReadAt bytes.now found (iri_text bytes.now)) }
{
    match unescaped(alloc, Enclosed::Iri, bytes)? {
        Some((value, len)) => {
            if !is_iri(bytes, value.as_str()) {
                return Ok(None);
            }
            Ok(Some((value, len)))
        }
        None => Ok(None),
    }
}

fn iri_text(alloc: Global, bytes: &[u8]) -> Result<Option<(Text, usize)>, AllocError>
    ensures { IfOk result (λ found. IsReadAt bytes.now found (iri_text bytes.now)) }
{
    if let Some((text, len)) = raw_iri(bytes) {
        return Ok(Some((Text::new(alloc, text)?, len)));
    }
    let found = any_iri(alloc, bytes)?;
    Ok(found)
}

/// The IRI of an IRIREF that begins at the place, and the place behind it. `None` exactly where none begins there: its
/// value has to be a well-formed IRI, in which no escape stands before the first colon.
///
/// # Errors
///
/// `AllocError` where memory is refused.
pub fn iriref_at(
    alloc: Global,
    bytes: &[u8],
    at: usize,
) -> Result<Option<(Text, usize)>, AllocError>
    ensures { IfOk result (λ found. IsReadAt bytes.now found (iriref (drop at bytes.now))) }
{
    let Some(rest) = behind(bytes, at, b'<') else {
        return Ok(None);
    };
    match iri_text(alloc, rest)? {
        Some((iri, len)) => Ok(Some((iri, at + 1 + len))),
        None => Ok(None),
    }
}
