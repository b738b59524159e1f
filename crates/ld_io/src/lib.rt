//! The outside of a conversion: where its bytes come from, where they go, and which files it may
//! look up.
//!
//! [`Source`], [`Sink`] and [`Folder`] are the only ways in and out. Each has a meaning that is told
//! or not told (the bytes left, the bytes held, the files), and a count of faults that never falls.
//! A call answers [`Failed`] only where that count rose, so a caller can tell a fault of the outside
//! from every other answer.
//!
//! [`read_to_end`], [`write_all`] and [`write_and_finish`] are the loops over them.
//!
//! A [`Gate`] is told of each piece of a job that threads perform.
#![tactic(auto)]

mod calls;
mod dir_folder;
mod gate;
mod list_sink;
mod list_source;
mod map_folder;
mod streams;
mod traits;
mod whole;

pub use dir_folder::DirFolder;
pub use gate::{Gate, OpenGate, Phase};
pub use list_sink::ListSink;
pub use list_source::ListSource;
pub use map_folder::MapFolder;
pub use streams::{StdSink, StdSource};
pub use traits::{Failed, Folder, FolderStop, Sink, Source};
pub use whole::{LIMIT, ReadStop, read_to_end, write_all, write_and_finish};
