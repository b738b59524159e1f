//! The definitions of cutting a document for expansion (JSON-LD 1.1 API, section 5.1), of expanding it piece by piece, and of
//! grafting what the pieces come to.
//!
//! There is no code here. `specs/Pieces.antt` says what a piece is, `Legal.antt`, `LegalTest.antt` and `Reached.antt` when a plan of pieces is one to
//! build on, `Answers.antt` and `Grafting.antt` what a document comes to whose pieces were expanded by themselves, and
//! `Planning.antt` and `Cutting.antt` how a document is cut by weight. `KeysAscend.antt` is the form that a value has which was
//! read. `cut_laws` has the laws.
#![tactic(auto)]
