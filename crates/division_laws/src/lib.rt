//! The laws of divisions of an expanded document, as `division_model` defines them.
//!
//! There is no code here. Each function does nothing, and its contract is one law, which `specs/Laws.antt` or `specs/Folded.antt` states.
#![tactic(auto)]

ghost use Rattle.division_laws.specs.Laws.{CutsAreDivisions, CutsAreFew, CutsAreTheFirstFew, CutsDivide, DivisionsAreGeneration, DivisionsDivide, DivisionsHaveForm, ShardsOfDivisions};
ghost use Rattle.division_laws.specs.Folded.{FoldsOfDivisions};

/// A document that is divided by any plan has the operations of the whole document, but for the names of nodes without an id, and different
/// nodes keep different names. So every law of `op_laws` and `shard_laws` on chunks that divide a document holds of these.
pub fn divisions_divide()
    ensures { DivisionsDivide }
{}

/// The chunks that a document is cut into by weight are a division, whatever the weight.
pub fn cuts_are_divisions()
    ensures { CutsAreDivisions }
{}

/// So they divide the document as well.
pub fn cuts_divide()
    ensures { CutsDivide }
{}

/// The operations of a division, run one after another, come to what node map generation comes to (JSON-LD 1.1 API, section 7.2): the same
/// node map, the same labels, as many of them, and the same first conflict of indexes.
pub fn divisions_are_generation()
    ensures { DivisionsAreGeneration }
{}

/// A division comes to the same by the sums of its shards, however many these are: each sum is put under labels, and all are put together.
pub fn shards_of_divisions()
    ensures { ShardsOfDivisions }
{}

/// No chunk of a division is empty, and a range has a subject exactly where it has a property, and is a reverse property's only where it has
/// both.
pub fn divisions_have_form()
    ensures { DivisionsHaveForm }
{}

/// A document is cut by weight into at most 4,096 chunks, for a weight from 1 on.
pub fn cuts_are_few()
    ensures { CutsAreFew }
{}

/// A document is cut by weight at the weight itself, or else at the first of its doublings at which there are at most 4,096 chunks.
pub fn cuts_are_the_first_few()
    ensures { CutsAreTheFirstFew }
{}

/// The chunks of a division may be summed up each by itself, shard by shard, and the sums of a shard joined in any order, neighbours with
/// neighbours; and each chunk may tell by itself which names it uses first. What comes of it is what node map generation gives (JSON-LD 1.1
/// API, section 7.2): the same node map and as many labels, or the same first conflict.
pub fn folds_of_divisions()
    ensures { FoldsOfDivisions }
{}
