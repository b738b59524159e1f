// Bytes in lines of text.

use std::alloc::{AllocError, Global};

/// The bytes of a text in which `%` and two hexadecimal digits stand for one.
pub(crate) fn plain(alloc: Global, text: &str) -> Result<Vec<u8>, AllocError> {
    let bytes = text.as_bytes();
    let mut found = Vec::new(alloc);
    let mut skip = 0u8;
    for (at, byte) in bytes.iter().enumerate() {
        if skip > 0 {
            skip -= 1;
            continue;
        }
        let escape = escaped(*byte, bytes.get(at + 1..).unwrap_or(&[]));
        if escape.is_some() {
            skip = 2;
        }
        found.push(escape.unwrap_or(*byte))?;
    }
    Ok(found)
}

/// The byte of an escape.
fn escaped(first: u8, behind: &[u8]) -> Option<u8> {
    if first != b'%' {
        return None;
    }
    let high = (*behind.get(0)? as char).to_digit(16)?;
    let low = (*behind.get(1)? as char).to_digit(16)?;
    Some((16 * high + low) as u8)
}

/// The bytes as such a text, a line feed as a bar with spaces round it.
pub(crate) fn shown(alloc: Global, bytes: &[u8]) -> Result<String, AllocError> {
    let mut text = String::new(alloc);
    for byte in bytes {
        match *byte {
            b'\n' => text.push_str(" | ")?,
            b'%' | 0..=31 | 127..=255 => {
                let escape = format!(in alloc; "%{byte:02X}")?;
                text.push_str(escape.as_str())?;
            }
            _ => text.push(*byte as char)?,
        }
    }
    Ok(text)
}

/// The text with these bytes for its first `@@`.
pub(crate) fn filled(alloc: Global, text: &[u8], with: &[u8]) -> Result<Vec<u8>, AllocError> {
    let at = place_of(text);
    let mut found = Vec::new(alloc);
    found.extend_from_slice(text.get(..at).unwrap_or(text))?;
    found.extend_from_slice(with)?;
    found.extend_from_slice(text.get(at.saturating_add(2)..).unwrap_or(&[]))?;
    Ok(found)
}

fn place_of(text: &[u8]) -> usize {
    for (at, pair) in text.windows(2).enumerate() {
        if pair == b"@@".as_slice() {
            return at;
        }
    }
    text.len()
}
