//! The definitions of how an expanded document is divided into chunks: node map generation's traversal (JSON-LD 1.1 API, section 7.2) is
//! taken apart into ranges of the items of arrays, at any depth, and spines, which are the steps between these.
//!
//! `specs/Dividing.antt` has the traversal that divides, by a plan that says of each array which of its items belong together, and what it
//! is for chunks to be a division of a document. `specs/ByWeight.antt` has the plan by weight, and the division into few chunks that a
//! document gets by it. There is no code here. `division_laws` has the laws.
#![tactic(auto)]
