// The program's call over streams and a folder in memory.
ghost use Rattle.std.specs.Prelude.{◌<◌};

use ld_io::{ListSink, ListSource, MapFolder};
use ld_run::{Status, run_alone};
use std::alloc::{AllocError, Global};

/// The number of a call that isn't made.
pub(crate) const NEVER: u64 = 1_000;

/// Room for all that a test writes.
pub(crate) const ROOM: u64 = 2_000;

/// The files of a folder: names with texts.
pub(crate) type Files = &'static [(&'static str, &'static str)];

pub(crate) fn source_of(
    alloc: Global,
    text: &[u8],
    step: u32,
    failing: u64,
) -> Result<ListSource, AllocError>
    requires { 0 < step }
{
    let bytes = text.to_vec(alloc)?;
    Ok(ListSource::new(bytes, step, [failing].to_vec(alloc)?))
}

pub(crate) fn sink_of(
    alloc: Global,
    step: u32,
    failing: u64,
    room: u64,
) -> Result<ListSink, AllocError>
    requires { 0 < step }
{
    ListSink::new(alloc, step, [failing].to_vec(alloc)?, room)
}

pub(crate) fn folder_of(
    alloc: Global,
    files: Files,
    failing: u64,
) -> Result<MapFolder, AllocError> {
    let mut named = Vec::new(alloc);
    for (name, text) in files {
        let name = String::from_str(alloc, name)?;
        named.push((name, text.as_bytes().to_vec(alloc)?))?;
    }
    Ok(MapFolder::new(named, [failing].to_vec(alloc)?))
}

/// Runs the words, which stand with a space between two of them.
pub(crate) fn run_on(
    alloc: Global,
    words: &str,
    source: &mut ListSource,
    folder: &mut MapFolder,
    out: &mut ListSink,
    err: &mut ListSink,
) -> Result<Status, AllocError> {
    let mut owned = Vec::new(alloc);
    for word in words.split_whitespace() {
        owned.push(String::from_str(alloc, word)?)?;
    }
    let status = run_alone(alloc, owned.as_slice(), source, folder, out, err);
    Ok(status)
}

/// Runs `flatten`, without a file in the folder.
pub(crate) fn flatten_on(
    alloc: Global,
    source: &mut ListSource,
    out: &mut ListSink,
    err: &mut ListSink,
) -> Result<Status, AllocError> {
    let mut folder = folder_of(alloc, &[], 0)?;
    run_on(alloc, "flatten", source, &mut folder, out, err)
}

/// Whether a run ended with this number, and left this at its output and this at its error output.
pub(crate) fn left(
    status: &Status,
    out: &ListSink,
    err: &ListSink,
    (number, written, said): (u8, &[u8], &[u8]),
) -> bool {
    status.number() == number && out.bytes() == written && err.bytes() == said
}
