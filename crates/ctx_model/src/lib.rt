//! The definitions of context processing, term creation, and IRI expansion with a local context (JSON-LD 1.1 API, sections
//! 4.1, 4.2 and 5.2), step by step in the order of the standard.
//!
//! `specs/` has them: `Process.antt` is context processing, `Creation.antt` and `Definition.antt` are term creation, and
//! `LocalExpansion.antt` is IRI expansion with a local context. `proofs/` has worked examples. There is no code here.
#![tactic(auto)]
