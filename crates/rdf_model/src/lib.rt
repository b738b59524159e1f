//! The definitions of how a node map is converted to RDF (JSON-LD 1.1 API, section 8): `specs/Literal.antt` has the literal of a value object,
//! `specs/ToRdf.antt` what a node says, and `specs/Subjects.antt` what a node map says, whole and in ranges of its subjects. There is no code
//! here. `rdf_laws` has the laws.
#![tactic(auto)]
