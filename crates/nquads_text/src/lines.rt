// The lines of a text.
ghost use Rattle.std.specs.Prelude.{◌≡◌, ◌≤◌, ◌<◌, ◌+◌, ◌^◌, [], ◌∷◌, length, drop, ◌++◌, MatchResult, OnOk, Ok};
ghost use Rattle.std.specs.List.{position_or_len};
ghost use Rattle.nquads_text.specs.Lines.{is_line_end, lines, end_len, read_from, with_line, prepended};
ghost use Rattle.nquads_text.specs.Statement.{said};
ghost use Rattle.nquads_text.specs.Places.{IsBad, IsAdded};

use crate::line::{Names, Stop, said};
use rdf_terms::Quad;
use std::alloc::{AllocError, Global};
use thiserror::Error;

/// Where a line is bad.
#[derive(Clone, Copy, Debug, PartialEq, Eq, Error)]
#[error("bad quad at line {line} column {column}")]
pub struct LineError {
    /// The number of the line. The first line of the text has the number that the caller gave.
    pub line: u64,
    /// The column, counted in bytes from 1, where the first terminal that can't be read should begin.
    pub column: u64,
}

/// Why [`read_lines`] gave no quads.
#[derive(Clone, Copy, Debug, PartialEq, Eq, Error)]
pub enum LinesStop {
    /// A line is bad: the first one that is.
    #[error("{0}")]
    Bad(LineError),
    /// Memory was refused.
    #[error("out of memory")]
    OutOfMemory,
}

impl From<AllocError> for LinesStop {
    ghost use Rattle.nquads_text.specs.declared.lines.LinesStop.TheVariants.{OutOfMemory};

    ghost from_gives = { λ _ e. e ≡ OutOfMemory };

    fn from(_error: AllocError) -> LinesStop {
        LinesStop::OutOfMemory
    }
}

/// How many bytes stand before the first LF or CR.
fn line_len(bytes: &[u8]) -> usize
    ensures value { result ≡ position_or_len is_line_end bytes.now }
    ensures within { result ≤ length bytes.now }
{
    let mut len = 0;
    for byte in bytes {
        if *byte == b'\n' || *byte == b'\r' {
            return len;
        }
        len += 1;
    }
    len
}

/// How many bytes of a line's end the bytes begin with.
fn end_len(bytes: &[u8]) -> usize
    ensures value { result ≡ end_len bytes.now }
    ensures within { result ≤ length bytes.now }
{
    match bytes {
        [b'\r', b'\n', ..] => 2,
        [_, ..] => 1,
        [] => 0,
    }
}

/// The first line, and what stands behind its end.
fn next_line(bytes: &[u8]) -> (&[u8], &[u8])
    requires { 0 < length bytes.now }
    ensures first { lines bytes.now ≡ result.0.now ∷ lines result.1.now }
    ensures shorter { length result.1.now < length bytes.now }
{
    let (line, rest) = bytes.split_at(line_len(bytes));
    let (_, behind) = rest.split_at(end_len(rest));
    (line, behind)
}

fn push(quads: &mut Vec<Quad>, quad: Quad) -> Result<(), AllocError>
    ensures { OnOk result (quads.new.items ≡ quads.old.items ++ quad ∷ []) }
{
    quads.push(quad)?;
    Ok(())
}

/// Reads a line of that number, and puts its quad behind the others.
fn add_line(
    alloc: Global,
    names: &Names,
    line: &[u8],
    number: u64,
    quads: &mut Vec<Quad>,
) -> Result<(), LinesStop>
    ensures { IsAdded number line.now result quads.old.items quads.new.items }
{
    match said(alloc, names, line) {
        Ok(Some(quad)) => {
            push(quads, quad)?;
            Ok(())
        }
        Ok(None) => Ok(()),
        Err(Stop::Bad(at)) => Err(LinesStop::Bad(LineError {
            line: number,
            column: at as u64 + 1,
        })),
        Err(Stop::OutOfMemory) => Err(LinesStop::OutOfMemory),
    }
}

/// The quads of the lines of a text in their order, or the first bad line (RDF 1.1 N-Quads). A line ends at CR, at LF, at
/// CR LF taken together, or at the end of the text; `first_line` is the number of the first one.
///
/// A line has one statement, or nothing but spaces, tabs and a comment. Beyond the grammar, the value of an IRIREF has to
/// be a well-formed IRI in which no escape stands before the first colon.
///
/// # Errors
///
/// - `LinesStop::Bad` exactly where a line is bad, unless memory was refused before, with the number of the first bad line and
///   the column, counted in bytes from 1, where the first terminal that can't be read should begin: behind the spaces and tabs
///   there. Where the line ends before that terminal begins, the column is one past the line's last byte. Bytes that aren't
///   UTF-8 belong to the IRI, the string or the comment in which they stand.
/// - `LinesStop::OutOfMemory` where memory is refused.
pub fn read_lines(alloc: Global, bytes: &[u8], first_line: u64) -> Result<Vec<Quad>, LinesStop>
    requires { first_line + length bytes.now ≤ 2 ^ 64 }
    ensures { MatchResult result (λ quads. read_from first_line (lines bytes.now) ≡ Ok quads.items)
        (λ stop. IsBad stop (read_from first_line (lines bytes.now))) }
{
    let names = Names::new(alloc)?;
    let mut quads = Vec::new(alloc);
    let mut rest = bytes;
    let mut count = 0u64;
    while !rest.is_empty() {
        let (line, behind) = next_line(rest);
        add_line(alloc, &names, line, first_line + count, &mut quads)?;
        rest = behind;
        count += 1;
    }
    Ok(quads)
}
