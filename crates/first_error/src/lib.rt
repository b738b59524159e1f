//! The least piece of a job that was reported to fail, for all threads that work on it.
//!
//! It is one word, which begins at the number of pieces. A report lowers it in one atomic step, and a look reads it in
//! one. Who takes part has an [`ErrSeat`]: a seat knows the least that it has reported or seen, and the word is never
//! above that. The rule that holds between any two steps stands in `specs/Word.antt`.
#![tactic(auto)]

mod handles;
mod view;
mod word;

pub use handles::{ErrSeat, FirstError};
pub use view::View;
