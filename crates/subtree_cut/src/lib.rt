//! Documents that are cut for expansion (JSON-LD 1.1 API, section 5.1), and what their pieces come to, put back in its place.
//!
//! A plan is a list of pieces: ranges of the items of a document's arrays, each with what it is expanded with, so that it can be expanded by
//! itself. [`cut`] makes a plan by weight: it expands the document with a recorder in the place of what is expanded from elsewhere. [`graft`] puts what they come to into the expanded document, which is that of the whole one, its first error too. [`is_legal`] tells
//! whether the pieces of a plan are apart. Contracts see a plan by `plan_view` as the pieces that `cut_model` defines.
#![tactic(auto)]

mod ascending;
mod choosing;
mod cutting;
mod expanding;
mod grafting;
mod legal;
mod plan;
mod planning;
mod results;
mod standing;
mod weighing;

pub use cutting::cut;
pub use expanding::expand_by_weight;
pub use grafting::{graft, graft_owned};
pub use legal::is_legal;
pub use plan::{ExpandPiece, ExpandPlan};
