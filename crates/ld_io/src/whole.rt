//! A source read to its end, and bytes written whole.
ghost use Rattle.std.specs.Prelude.{◌≡◌, ℕ, ◌+◌, ◌-◌, ◌<◌, ◌≤◌, List, [], length, take, IfOk, OnOk, IsOk, OnErr, IfSome, vec_len};
ghost use Rattle.std.specs.Io.KnownBytes.{Consumes, Appends, IsAtEnd};
ghost use Rattle.ld_io.specs.Faults.{CountsFaults};
ghost use Rattle.ld_io.specs.ReadFaults.{CountsReadFaults};
ghost use Rattle.ld_io.specs.Sinks.{AppendsFront, IsFinished, IsUnfinished};
ghost use Rattle.ld_io.specs.Sources.{Gathers, TakesFront};

use super::traits::{Failed, Sink, Source};
use std::alloc::{AllocError, Global};
use thiserror::Error;

/// The greatest number of bytes that an input may have: 256 MiB.
pub const LIMIT: usize = 268_435_456;

/// How many bytes one turn of reading asks for: what a pipe holds.
const BUFFER: usize = 65_536;

/// Why [`read_to_end`] gave no bytes.
#[derive(Clone, Copy, Debug, PartialEq, Eq, Error)]
pub enum ReadStop {
    /// The source failed, and its count of faults rose.
    #[error("read fault")]
    Failed,
    /// The source had more than [`LIMIT`] bytes.
    #[error("input too large")]
    TooLarge,
    /// There was no memory for the bytes.
    #[error("out of memory")]
    OutOfMemory,
}

impl From<AllocError> for ReadStop {
    ghost use Rattle.ld_io.specs.declared.whole.ReadStop.TheVariants.{OutOfMemory};

    ghost from_gives = { λ _ stop. stop ≡ OutOfMemory };

    fn from(_error: AllocError) -> ReadStop {
        ReadStop::OutOfMemory
    }
}

/// That many zeros.
fn zeros(alloc: Global, len: usize) -> Result<Vec<u8>, AllocError>
    ensures { IfOk result (λ v. vec_len v ≡ len) }
{
    vec![in alloc; 0u8; len]
}

/// Reads once, and appends what came. `true` at the end of the source.
fn read_more<S: Source>(
    source: &mut S,
    buffer: &mut [u8],
    bytes: &mut Vec<u8>,
) -> Result<bool, ReadStop>
    requires { 0 < length buffer.old }
    ensures bytes { Gathers (S.left source.old) (S.left source.new) bytes.old.items bytes.new.items result }
    ensures faults { CountsReadFaults (S.faults source.old) (S.faults source.new) result }
    ensures taken { OnErr result (TakesFront (S.left source.old) (S.left source.new)) }
    ensures not_large { result ≡ Err ReadStop.TooLarge → ⊥ }
{
    match source.read(buffer) {
        Ok(0) => Ok(true),
        Ok(count) => {
            bytes.extend_from_slice(&buffer[..count])?;
            Ok(false)
        }
        Err(_) => Err(ReadStop::Failed),
    }
}

/// All the bytes that a source has left, at most `limit` of them. The source is then at its end.
///
/// It reads in turns of 64 KiB, takes at least one byte in each, and stops after the turn that gave
/// the byte past the limit. So it takes at most `limit + 1` turns.
pub(crate) fn read_within<S: Source>(
    alloc: Global,
    source: &mut S,
    limit: usize,
) -> Result<Vec<u8>, ReadStop>
    ensures bytes { IfOk result (λ v. IfSome (S.left source.old) (λ xs. xs ≡ v.items)) }
    ensures end { OnOk result (IsAtEnd (S.left source.new)) }
    ensures within { IfOk result (λ v. vec_len v ≤ limit) }
    ensures too_large { result ≡ Err ReadStop.TooLarge
        → IfSome (S.left source.old) (λ xs. limit < length xs) }
    ensures taken { OnErr result (TakesFront (S.left source.old) (S.left source.new)) }
    ensures faults { CountsReadFaults (S.faults source.old) (S.faults source.new) result }
{
    let mut bytes = Vec::new(alloc);
    let mut buffer = zeros(alloc, BUFFER)?;
    while bytes.len() <= limit {
        if read_more(source, buffer.as_mut_slice(), &mut bytes)? {
            return Ok(bytes);
        }
    }
    Err(ReadStop::TooLarge)
}

/// All the bytes that a source has left, at most [`LIMIT`] of them. The source is then at its end.
///
/// It reads in turns of 64 KiB, takes at least one byte in each, and stops after the turn that gave
/// the byte past the limit.
///
/// # Errors
///
/// - `ReadStop::Failed` only where the source's count of faults rose.
/// - `ReadStop::TooLarge` only where the source had more than [`LIMIT`] bytes.
/// - `ReadStop::OutOfMemory` where there is no memory for the bytes.
pub fn read_to_end<S: Source>(alloc: Global, source: &mut S) -> Result<Vec<u8>, ReadStop>
    ensures bytes { IfOk result (λ v. IfSome (S.left source.old) (λ xs. xs ≡ v.items)) }
    ensures end { OnOk result (IsAtEnd (S.left source.new)) }
    ensures within { IfOk result (λ v. vec_len v ≤ LIMIT) }
    ensures too_large { result ≡ Err ReadStop.TooLarge
        → IfSome (S.left source.old) (λ xs. LIMIT < length xs) }
    ensures taken { OnErr result (TakesFront (S.left source.old) (S.left source.new)) }
    ensures faults { CountsReadFaults (S.faults source.old) (S.faults source.new) result }
{
    read_within(alloc, source, LIMIT)
}

/// Writes all the bytes. Where there are none, the sink stays as it was.
///
/// # Errors
///
/// `Failed` only where the sink's count of faults rose. Some front of the bytes was then appended.
pub fn write_all<K: Sink>(sink: &mut K, bytes: &[u8]) -> Result<(), Failed>
    ensures all { OnOk result (Appends (K.held sink.old) (K.held sink.new) bytes.now) }
    ensures front { AppendsFront (K.held sink.old) (K.held sink.new) bytes.now }
    ensures unfinished { OnOk result (0 < length bytes.now → IsUnfinished (K.finished sink.new)) }
    ensures none { bytes.now ≡ [] → IsOk result × (sink.new ≡ sink.old) }
    ensures faults { CountsFaults (K.faults sink.old) (K.faults sink.new) result }
{
    let mut at = 0;
    while at < bytes.len() {
        at += sink.write(&bytes[at..])?;
    }
    Ok(())
}

/// Writes all the bytes, and finishes the sink.
///
/// # Errors
///
/// `Failed` only where the sink's count of faults rose. Some front of the bytes was then appended.
pub fn write_and_finish<K: Sink>(sink: &mut K, bytes: &[u8]) -> Result<(), Failed>
    ensures all { OnOk result (Appends (K.held sink.old) (K.held sink.new) bytes.now) }
    ensures front { AppendsFront (K.held sink.old) (K.held sink.new) bytes.now }
    ensures finished { OnOk result (IsFinished (K.finished sink.new)) }
    ensures faults { CountsFaults (K.faults sink.old) (K.faults sink.new) result }
{
    write_all(sink, bytes)?;
    sink.finish()
}
