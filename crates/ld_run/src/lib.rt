//! The program's call: words, input, folder and outputs in, one status out.
//!
//! [`run_alone`] does all that the program does, on one thread. Its contract says what is written for which words, which
//! folder of contexts and which input, and when each other answer comes.
#![tactic(auto)]

mod document;
mod run;
mod saying;
mod status;
mod stop;
mod words;

pub use run::run_alone;
pub use status::{OUT_OF_MEMORY, Refusal, Status};
