//! The definitions of node map generation (JSON-LD 1.1 API, section 7.2) and of the node map's form.
//!
//! `specs/Walk.antt` is the traversal of an expanded document, in the standard's order, over a record of steps: what is done with
//! a name, a node, a property, a value, a reference, a list, a type, an index. `specs/Generating.antt` has the steps that make a node
//! map, and `generate`; other records of steps may be walked with as well. `specs/NodeMap.antt` is what a node map has in it,
//! `specs/Labels.antt` how blank nodes are labelled, `specs/AsTrees.antt` the node map as JSON, and `specs/DueForm.antt` what holds of
//! each node map. There is no code here.
#![tactic(auto)]
