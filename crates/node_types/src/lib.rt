//! What the callers of node map generation see (JSON-LD 1.1 API, section 7.2): a [`NodeMap`], why there is none, and the text of a label.
#![tactic(auto)]

mod generated;
mod label;

pub use generated::{Conflict, MapStop, NodeMap};
pub use label::label_text;
