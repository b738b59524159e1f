// What a text gives.

use crate::text::{filled, shown};
use ld_io::{ListSink, Sink};
use nquads_text::{LinesStop, read_lines, write_quads};
use rdf_terms::Quad;
use std::alloc::{AllocError, Global};

/// How many bytes the sink takes at once where a call of it fails.
const FEW: u32 = 7;

/// How many bytes the sink takes at once else.
const STEP: u32 = 65_536;

/// Why there are no quads.
pub(crate) fn stop_text(alloc: Global, stop: LinesStop) -> Result<String, AllocError> {
    match stop {
        LinesStop::Bad(e) => {
            let line = e.line;
            let column = e.column;
            format!(in alloc; "{line}:{column}")
        }
        LinesStop::OutOfMemory => format!(in alloc; "out of memory"),
    }
}

/// What is written of the quads, into a sink that has room for that many bytes.
fn written(
    alloc: Global,
    quads: &[Quad],
    step: u32,
    failing: Vec<u64>,
    room: u64,
) -> Result<Vec<u8>, AllocError> {
    let mut sink = ListSink::new(alloc, step.max(1), failing, room)?;
    let ended = write_quads(quads, &mut sink);
    let mut bytes = Vec::new(alloc);
    bytes.extend_from_slice(sink.bytes())?;
    if ended.is_err() {
        bytes.extend_from_slice(b" (write fault)")?;
    }
    Ok(bytes)
}

/// As many bytes as quads that were read from so many can be written in.
fn room(len: usize) -> u64 {
    (len as u64).saturating_mul(8).saturating_add(1024)
}

/// The quads of a text.
pub(crate) fn read(alloc: Global, text: &[u8]) -> Result<String, AllocError> {
    read_from(alloc, text, 1)
}

/// The same of a text whose first line has this number.
pub(crate) fn read_from(alloc: Global, text: &[u8], first: u32) -> Result<String, AllocError> {
    match read_lines(alloc, text, first as u64) {
        Ok(quads) => {
            let bytes = written(
                alloc,
                quads.as_slice(),
                STEP,
                Vec::new(alloc),
                room(text.len()),
            )?;
            shown(alloc, bytes.as_slice())
        }
        Err(stop) => stop_text(alloc, stop),
    }
}

/// What a sink holds that fails at the call of that number.
pub(crate) fn faulted(alloc: Global, text: &[u8], call: u32) -> Result<String, AllocError> {
    match read_lines(alloc, text, 1) {
        Ok(quads) => {
            let mut failing = Vec::new(alloc);
            failing.push(call as u64)?;
            let bytes = written(alloc, quads.as_slice(), FEW, failing, room(text.len()))?;
            shown(alloc, bytes.as_slice())
        }
        Err(stop) => stop_text(alloc, stop),
    }
}

/// The number of quads, and whether they are written as they stood.
fn counted(alloc: Global, text: &[u8]) -> Result<String, AllocError> {
    match read_lines(alloc, text, 1) {
        Ok(quads) => {
            let count = quads.len();
            let bytes = written(
                alloc,
                quads.as_slice(),
                STEP,
                Vec::new(alloc),
                room(text.len()),
            )?;
            let same = bytes.as_slice() == text;
            format!(in alloc; "{count} quads, written as they stood: {same}")
        }
        Err(stop) => stop_text(alloc, stop),
    }
}

/// The same of the text with so many letters for `@@`.
pub(crate) fn long(alloc: Global, text: &[u8], count: u32) -> Result<String, AllocError> {
    let letters = vec![in alloc; b'a'; count as usize]?;
    let all = filled(alloc, text, letters.as_slice())?;
    counted(alloc, all.as_slice())
}

/// The same of so many times the text.
pub(crate) fn many(alloc: Global, text: &[u8], count: u32) -> Result<String, AllocError> {
    let mut all = Vec::new(alloc);
    for _ in 0..count {
        all.extend_from_slice(text)?;
    }
    counted(alloc, all.as_slice())
}
