// Many texts that differ in one place, and what each gives.

use crate::answer::stop_text;
use crate::text::filled;
use nquads_text::read_lines;
use std::alloc::{AllocError, Global};

/// Answers in a row, each with the numbers that gave it.
#[derive(Drop)]
struct Runs {
    shown: String,
    answer: String,
    first: u64,
    last: u64,
}

impl Runs {
    fn new(alloc: Global) -> Runs {
        Runs {
            shown: String::new(alloc),
            answer: String::new(alloc),
            first: 0,
            last: 0,
        }
    }

    /// Puts an answer behind the others.
    fn add(&mut self, alloc: Global, number: u64, answer: String) -> Result<(), AllocError> {
        if self.answer.as_str() != answer.as_str() {
            self.end(alloc)?;
            self.answer = answer;
            self.first = number;
        }
        self.last = number;
        Ok(())
    }

    fn end(&mut self, alloc: Global) -> Result<(), AllocError> {
        if self.answer.is_empty() {
            return Ok(());
        }
        if !self.shown.is_empty() {
            self.shown.push_str(", ")?;
        }
        let first = self.first;
        let last = self.last;
        let range = if first == last {
            format!(in alloc; "{first:X} ")?
        } else {
            format!(in alloc; "{first:X}-{last:X} ")?
        };
        self.shown.push_str(range.as_str())?;
        self.shown.push_str(self.answer.as_str())
    }
}

/// How many quads a text has, or the place of the bad line.
fn answer(alloc: Global, text: &[u8]) -> Result<String, AllocError> {
    match read_lines(alloc, text, 1) {
        Ok(quads) => {
            let count = quads.len();
            format!(in alloc; "ok{count}")
        }
        Err(stop) => stop_text(alloc, stop),
    }
}

/// Every front of a text, by its length.
pub(crate) fn cut(alloc: Global, text: &[u8]) -> Result<String, AllocError> {
    let mut runs = Runs::new(alloc);
    for len in 0..text.len() {
        let given = answer(alloc, &text[..len])?;
        runs.add(alloc, len as u64, given)?;
    }
    let whole = answer(alloc, text)?;
    runs.add(alloc, text.len() as u64, whole)?;
    runs.end(alloc)?;
    Ok(runs.shown)
}

/// The text with each byte.
pub(crate) fn bytes(alloc: Global, text: &[u8]) -> Result<String, AllocError> {
    let mut runs = Runs::new(alloc);
    for byte in 0..=255u8 {
        let all = filled(alloc, text, &[byte])?;
        let given = answer(alloc, all.as_slice())?;
        runs.add(alloc, byte as u64, given)?;
    }
    runs.end(alloc)?;
    Ok(runs.shown)
}

/// Whether a character is tried: each of the first plane, and those at the ends of the others.
fn is_tried(code: u32) -> bool {
    code < 0x1_0000 || code % 0x1_0000 < 2 || code % 0x1_0000 > 0xFFFD
}

/// The text with each character of the first plane, and with the first and last two of every other.
pub(crate) fn chars(alloc: Global, text: &[u8]) -> Result<String, AllocError> {
    let mut runs = Runs::new(alloc);
    for code in 0..0x11_0000u32 {
        if let Some(character) = char::from_u32(code).filter(|_| is_tried(code)) {
            let mut room = [0u8; 4];
            let with = character.encode_utf8(&mut room);
            let all = filled(alloc, text, with.as_bytes())?;
            let given = answer(alloc, all.as_slice())?;
            runs.add(alloc, code as u64, given)?;
        }
    }
    runs.end(alloc)?;
    Ok(runs.shown)
}
