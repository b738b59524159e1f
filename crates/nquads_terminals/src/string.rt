// STRING_LITERAL_QUOTE.
ghost use Rattle.std.specs.Prelude.{IfOk, drop};
ghost use Rattle.nquads_terminals.specs.Terminals.{string, IsReadAt};

use crate::enclosed::{Enclosed, enclosed_text};
use crate::place::behind;
use ld_text::Text;
use std::alloc::{AllocError, Global};

/// The value of a STRING_LITERAL_QUOTE that begins at the place, and the place behind it. `None` exactly where none
/// begins there.
///
/// # Errors
///
/// `AllocError` where memory is refused.
pub fn string_at(
    alloc: Global,
    bytes: &[u8],
    at: usize,
) -> Result<Option<(Text, usize)>, AllocError>
    ensures { IfOk result (λ found. IsReadAt bytes.now found (string (drop at bytes.now))) }
{
    let Some(rest) = behind(bytes, at, b'"') else {
        return Ok(None);
    };
    match enclosed_text(alloc, Enclosed::Quoted, rest)? {
        Some((text, len)) => Ok(Some((text, at + 1 + len))),
        None => Ok(None),
    }
}
