//! Flattening a node map (JSON-LD 1.1 API, section 7.1, steps 3 to 7).
//!
//! [`into_flattened`] takes the node map apart, so that the nodes of the outcome are moved; [`flatten`] does the same with a copy. It takes
//! a time linear in the node map, but for a look-up for each graph, in whichever order graphs and nodes stand.
#![tactic(auto)]

mod flattening;
mod graphs;
mod nodes;

pub use flattening::{flatten, into_flattened};
