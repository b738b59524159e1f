//! What a value and the entries of a map are expanded with, where they stand, and what the keys of entries stand for (JSON-LD 1.1 API,
//! section 5.1).
//!
//! [`Scope`] is what a value is expanded with, [`MapScope`] what the entries of a map are, and [`Trail`] the way to either, which is made a
//! place only where there is an error. The definitions are those of `expand_model`.
#![tactic(auto)]

mod keys;
mod scope;
mod stop;
mod trail;

pub use expand_model::{Name, Task};
pub use keys::{expands_to, has_key, is_alone, is_text, is_top, name_of, task_of};
pub use scope::{MapScope, Options, Scope, under};
pub use stop::PartStop;
pub use trail::{Trail, place_of};
