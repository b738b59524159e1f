// Statuses and refusals in words, which are those of their lines.
use crate::status::{
    FOLDER_FAULT, OUT_OF_MEMORY, READ_FAULT, Refusal, SYNTAX, Status, TOO_LARGE, USAGE, WRITE_FAULT,
};
use std::error::Error;
use std::fmt;

// What a line says between `error: ` and its line feed.
fn words(line: &str) -> &str {
    let behind = line.strip_prefix("error: ").unwrap_or(line);
    behind.strip_suffix('\n').unwrap_or(behind)
}

impl fmt::Display for Status {
    fn fmt<W: fmt::Write>(&self, f: &mut fmt::Formatter<W>) -> fmt::Result {
        match self {
            Status::Done => f.write_str("done"),
            Status::Refused(refusal) => refusal.fmt(f),
            Status::Usage => f.write_str(words(USAGE)),
            Status::ReadFault => f.write_str(words(READ_FAULT)),
            Status::FolderFault => f.write_str(words(FOLDER_FAULT)),
            Status::WriteFault => f.write_str(words(WRITE_FAULT)),
            Status::TooLarge => f.write_str(words(TOO_LARGE)),
            Status::OutOfMemory => f.write_str(words(OUT_OF_MEMORY)),
        }
    }
}

impl fmt::Display for Refusal {
    fn fmt<W: fmt::Write>(&self, f: &mut fmt::Formatter<W>) -> fmt::Result {
        match self {
            Refusal::IndexLine { line } => write!(f, "context index line {line}"),
            Refusal::Missing { line } => write!(f, "missing context file at index line {line}"),
            Refusal::Syntax => f.write_str(words(SYNTAX)),
            Refusal::Number { at } => write!(f, "number at byte {at}"),
            Refusal::VersionNumber { place } => write!(f, "version number at {place}"),
            Refusal::Expansion { code, place } => write!(f, "{} at {place}", code.name()),
            Refusal::ConflictingIndexes { node, .. } => {
                write!(f, "conflicting indexes at {}", node.as_str())
            }
        }
    }
}

impl Error for Refusal {}
