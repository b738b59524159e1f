//! What entries become whose values are told as they stand, and the tests of a whole map (JSON-LD 1.1 API, section 5.1.2, steps 13.4, 13.6,
//! 13.7 and 15 to 19).
#![tactic(auto)]

mod finish;
mod keywords;
mod unexpanded;

pub use finish::{finish_entries, finish_map};
pub use keywords::keyword_entry;
pub use unexpanded::value_unexpanded;
