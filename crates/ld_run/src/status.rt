// How a call of the program ends.
ghost use Rattle.std.specs.Prelude.{◌≡◌, IfOk};
ghost use Rattle.std.specs.Cow.{cow_str_bytes};
ghost use Rattle.ld_run.specs.Lines.{line_of, number_of, refusal_line};

use case_tables::Code;
use ld_json::{Place, Text, pointer_of};
use std::alloc::{AllocError, Global};
use std::borrow::CowStr;

/// The line of `Status::OutOfMemory`, which needs no memory.
pub const OUT_OF_MEMORY: &str = "error: out of memory\n";

pub(crate) const USAGE: &str = "error: usage\n";

pub(crate) const READ_FAULT: &str = "error: read fault\n";

pub(crate) const FOLDER_FAULT: &str = "error: folder fault\n";

pub(crate) const WRITE_FAULT: &str = "error: write fault\n";

pub(crate) const TOO_LARGE: &str = "error: input too large\n";

pub(crate) const SYNTAX: &str = "error: syntax\n";

/// Why an input gives nothing to write. It is printed as its line says it, without `error: ` and the line feed.
#[derive(Debug, Drop)]
pub enum Refusal {
    /// A line of the folder's index is neither empty, nor an IRI that no line before it has, a space and a file's name.
    IndexLine {
        /// The number of the first such line, counted from 1.
        line: u64,
    },
    /// A line of the folder's index names a file that isn't there.
    Missing {
        /// The number of the first such line, counted from 1.
        line: u64,
    },
    /// The input is no JSON text: no UTF-8, not the grammar of RFC 8259, or nested more than 127 deep.
    Syntax,
    /// A number is neither `0`, nor `1.1`, nor a whole number of a magnitude of at most 9,007,199,254,740,992 without a
    /// zero in front.
    Number {
        /// The place of the first byte, counted from 0, of the first such number.
        at: u64,
    },
    /// The number 1.1 stands elsewhere than as the value of a key `@version`.
    VersionNumber {
        /// The first place where it does, in the order of keys and items.
        place: Place,
    },
    /// The document can't be expanded (JSON-LD 1.1 API, section 5.1).
    Expansion {
        /// The standard's error code (JSON-LD 1.1 API, section 9.6) of the first error that the traversal meets.
        code: Code,
        /// The place of that error.
        place: Place,
    },
    /// The document is expanded, but states two different indexes of one node (JSON-LD 1.1 API, section 7.2, step 6.8).
    ConflictingIndexes {
        /// The node's id; of a blank node, the label that it has in the node map.
        node: Text,
        /// The index that was stated first.
        first: Text,
        /// The first different one.
        second: Text,
    },
}

/// How a call of the program ended. It is printed as its line says it, without `error: ` and the line feed; `Done` as
/// `done`.
#[derive(Debug, Drop)]
pub enum Status {
    /// The due bytes were written and the output was finished.
    Done,
    /// The folder of contexts or the input is refused.
    Refused(Refusal),
    /// The words give no order.
    Usage,
    /// The source failed.
    ReadFault,
    /// The folder of contexts failed.
    FolderFault,
    /// The output or the error output failed.
    WriteFault,
    /// The input has more than 268,435,456 bytes.
    TooLarge,
    /// Memory was refused.
    OutOfMemory,
}

impl Status {
    /// The exit status of the program.
    pub fn number(&self) -> u8
        ensures { result ≡ number_of self.now }
    {
        match self {
            Status::Done => 0,
            Status::Refused(_) => 1,
            Status::Usage => 2,
            Status::ReadFault => 3,
            Status::FolderFault => 4,
            Status::WriteFault => 5,
            Status::TooLarge => 6,
            Status::OutOfMemory => 7,
        }
    }

    /// The line on the error output, with its line feed; empty for `Done`. Only a line with a number or a place in it
    /// needs memory.
    pub fn line(&self, alloc: Global) -> Result<CowStr<'static>, AllocError>
        ensures { IfOk result (λ line. cow_str_bytes line ≡ line_of self.now) }
    {
        let line = match self {
            Status::Done => "",
            Status::Refused(refusal) => return refusal.line(alloc),
            Status::Usage => USAGE,
            Status::ReadFault => READ_FAULT,
            Status::FolderFault => FOLDER_FAULT,
            Status::WriteFault => WRITE_FAULT,
            Status::TooLarge => TOO_LARGE,
            Status::OutOfMemory => OUT_OF_MEMORY,
        };
        Ok(CowStr::Borrowed(line))
    }
}

impl Refusal {
    fn line(&self, alloc: Global) -> Result<CowStr<'static>, AllocError>
        ensures { IfOk result (λ line. cow_str_bytes line ≡ refusal_line self.now) }
    {
        match self {
            Refusal::IndexLine { line } => {
                let line = format!(in alloc; "error: context index line {line}\n")?;
                Ok(CowStr::Owned(line))
            }
            Refusal::Missing { line } => {
                let line = format!(in alloc; "error: missing context file at index line {line}\n")?;
                Ok(CowStr::Owned(line))
            }
            Refusal::Syntax => Ok(CowStr::Borrowed(SYNTAX)),
            Refusal::Number { at } => {
                let line = format!(in alloc; "error: number at byte {at}\n")?;
                Ok(CowStr::Owned(line))
            }
            Refusal::VersionNumber { place } => {
                let pointer = pointer_of(alloc, place)?;
                let line = format!(in alloc; "error: version number at {}\n", pointer.as_str())?;
                Ok(CowStr::Owned(line))
            }
            Refusal::Expansion { code, place } => {
                let pointer = pointer_of(alloc, place)?;
                let line = format!(in alloc; "error: {} at {}\n", code.name(), pointer.as_str())?;
                Ok(CowStr::Owned(line))
            }
            Refusal::ConflictingIndexes { node, .. } => {
                let line = format!(in alloc; "error: conflicting indexes at {}\n", node.as_str())?;
                Ok(CowStr::Owned(line))
            }
        }
    }
}
