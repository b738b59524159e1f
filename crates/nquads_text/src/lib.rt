//! N-Quads (RDF 1.1 N-Quads): the reader of lines, and the writer.
//!
//! `specs/Statement.antt` says what a line says, `specs/Lines.antt` what the lines of a text say together, and
//! `specs/Written.antt` how quads are written.
#![tactic(auto)]

mod block;
mod line;
mod lines;
mod write;

pub use lines::{LineError, LinesStop, read_lines};
pub use write::{SinkFault, write_quads};
