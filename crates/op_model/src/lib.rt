//! The definitions of operations: node map generation (JSON-LD 1.1 API, section 7.2) taken apart, so that a document can be divided.
//!
//! Generation issues labels as it goes, so each part of a document waits for those before it. An operation says what one step does to
//! the node map, with names in place of labels; so the operations of each part are had from that part alone.
//! `specs/Names.antt` has the names, `specs/Ops.antt` the operations, `specs/Noting.antt` those of a chunk of a document, as another
//! record of steps for the one traversal of `node_model`; and `specs/Running.antt` what operations make of a node map, under labels that
//! are numbered by the first uses of names. There is no code here. `op_laws` has the laws.
#![tactic(auto)]
