//! Laws of flattening (JSON-LD 1.1 API, section 7.1) and of node map generation (section 7.2), as `ld_model` defines them.
//!
//! There is no code here. Each function does nothing, and its contract is one law, which `specs/Laws.antt` states in the
//! words of `specs/Statements.antt`. What a contract elsewhere says by `flatten` and `generate` is thereby known to be in
//! order, to state what the document states and nothing else, and to state it once.
#![tactic(auto)]

ghost use Rattle.flatten_laws.specs.Laws.{EntriesAreKept, EntriesKeepTheirOrder, EntriesStandOnce, FlatteningAgainChangesNothing, NodesAscendById, NoLabelIsIssued, OutcomeIsDetermined, TreesAreToldApart};

/// The nodes of the outcome have ids, which ascend strictly by their bytes. This holds of any list of trees.
pub fn nodes_ascend_by_id()
    ensures { NodesAscendById }
{}

/// A value or a reference stands under a property of a node of the outcome exactly where some item of the plain document
/// states it there.
pub fn entries_are_kept()
    ensures { EntriesAreKept }
{}

/// The entries of a property stand in the order in which the plain document states them first.
pub fn entries_keep_their_order()
    ensures { EntriesKeepTheirOrder }
{}

/// No two equal entries stand under a property of a node of the outcome.
pub fn entries_stand_once()
    ensures { EntriesStandOnce }
{}

/// The laws determine the outcome. Node objects are the flattening of a plain document exactly if they are plain, ascend by
/// their ids and have their members in order, each has more than its id, they give each node the properties that the
/// document gives it, and they state there what it states, each entry once and in order.
pub fn outcome_is_determined()
    ensures { OutcomeIsDetermined }
{}

/// Flattening the outcome of a plain document once more changes nothing.
pub fn flattening_again_changes_nothing()
    ensures { FlatteningAgainChangesNothing }
{}

/// A plain document has no blank nodes, so no label is issued for it.
pub fn no_label_is_issued()
    ensures { NoLabelIsIssued }
{}

/// The test by which the definitions compare entries is true exactly of equal ones.
pub fn trees_are_told_apart()
    ensures { TreesAreToldApart }
{}
