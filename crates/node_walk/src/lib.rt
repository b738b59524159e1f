//! The traversal of an expanded document by node map generation (JSON-LD 1.1 API, section 7.2).
//!
//! What is done on the way is a [`Gather`]: one makes a node map, another may make something else of the same traversal. The document is
//! used up on the way: what is kept of it is moved.
#![tactic(auto)]

mod entering;
mod gathering;
mod parts;
mod walking;

pub use gathering::{Gather, To};
pub use walking::{walk_document, walk_items};
