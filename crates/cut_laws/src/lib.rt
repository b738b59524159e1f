//! Laws of cutting a document for expansion (JSON-LD 1.1 API, section 5.1), as `cut_model` defines it.
//!
//! There is no code here. Each function does nothing, and its contract is one law, which `specs/Laws.antt` states in the words of
//! `cut_model`.
#![tactic(auto)]

ghost use Rattle.cut_laws.specs.Laws.{ALightDocumentIsNotCut, CutsAreFaithful, CutsAreFew, CutsAreLegal, GraftingIsExpansion, LegalPlansAreTold, PiecesStandInTheDocument, RightAnswersAreExpansion};

/// A document of which some ranges are taken from elsewhere comes to its expansion, the first error too, where what is taken for each
/// range that expansion reaches is what expansion has for its items, with the context, property and flag that it has there. What is
/// said of other ranges counts for nothing.
pub fn right_answers_are_expansion()
    ensures { RightAnswersAreExpansion }
{}

/// What the pieces of a legal and faithful plan come to, each expanded by itself, is grafted into the expanded document: its items, or its
/// first error, which may lie in a piece, before it or behind it. The results of the first pieces are enough, up to one that is an error.
pub fn grafting_is_expansion()
    ensures { GraftingIsExpansion }
{}

/// The pieces of a cut document have items, share none, and none lies inside another. This and the next law hold of any value whose maps have
/// their keys in ascending order, each once, as those have that are read from a JSON text; any base URL and contexts; and any weight.
pub fn cuts_are_legal()
    ensures { CutsAreLegal }
{}

/// The first pieces of a cut document are those that expansion reaches, in its order, with the items, contexts, properties and flags
/// that it has there; all others come behind them.
pub fn cuts_are_faithful()
    ensures { CutsAreFaithful }
{}

/// A document is cut into at most 4,096 pieces, whatever it weighs, for any weight to cut by but 0.
pub fn cuts_are_few()
    ensures { CutsAreFew }
{}

/// A document that weighs no more than the weight by which it is cut has no pieces: it is expanded in one go.
pub fn a_light_document_is_not_cut()
    ensures { ALightDocumentIsNotCut }
{}

/// The items of each piece of a cut document stand in that document: an array is at the piece's place, and they are in it, from the piece's
/// number on. So a piece can be found again by its place and two numbers. As above, each map has its keys in ascending order.
pub fn pieces_stand_in_the_document()
    ensures { PiecesStandInTheDocument }
{}

/// Whether a plan is legal can be told by comparing any two of its pieces.
pub fn legal_plans_are_told()
    ensures { LegalPlansAreTold }
{}
