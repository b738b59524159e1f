//! What is told of the nodes of a node map while it is generated (JSON-LD 1.1 API, section 7.2), and the map that it comes to.
//!
//! On the way through a document nothing is compared: in a [`Gathered`] each node notes what is told of it. Once all is told, each node is
//! finished by itself, and given back before the next one: types and entries stand once, and properties in the order of their names. So
//! the whole takes n log n steps, in whichever order nodes, properties, types and entries come, and whatever they are.
//!
//! Whoever knows by other means what all is told of a node makes its [`Node`], and finishes it by [`members_of`].
#![tactic(auto)]

mod entries;
mod finishing;
mod gathered;
mod graphs;
mod node;
mod repeats;
mod tree_order;

pub use entries::{list_object, reference};
pub use finishing::members_of;
pub use gathered::Gathered;
pub use node::{Node, Telling, Told};
