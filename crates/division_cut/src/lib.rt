//! An expanded document, divided into chunks by weight: node map generation (JSON-LD 1.1 API, section 7.2) is taken apart into ranges of items
//! of its arrays, at any depth, and spines, which are the steps between these.
//!
//! [`cut_expanded`] gives the chunks that `division_model` defines. By the laws of `division_laws` they divide the document: their operations,
//! run one after another, come to its node map, and so do the sums of their shards.
#![tactic(auto)]

mod cutting;
mod dividing;
mod division;
mod marking;
mod weighing;

pub use cutting::{MapPlan, cut_expanded};
