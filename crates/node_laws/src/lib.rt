//! Laws of node map generation (JSON-LD 1.1 API, section 7.2), as `node_model` defines it.
//!
//! There is no code here. Each function does nothing, and its contract is one law, which `specs/Laws.antt` states in the words of
//! `specs/Uses.antt`, `specs/Names.antt`, `specs/Stated.antt` and `specs/Renamed.antt`. What a contract elsewhere says by `generate` is
//! thereby known to be in the due form and in order, and to have what the document states and nothing else.
//!
//! `proofs/Alike.antt` serves whoever walks a document with other steps: steps that answer alike make walks that end alike.
#![tactic(auto)]

ghost use Rattle.node_laws.specs.Laws.{BlankNodesHaveIssuedLabels, ConflictsAreThoseStated, FlatteningAgainChangesNothing, LabelsAreIssuedInOrder, NodeMapsAreAsStated, NodeMapsHaveTheDueForm, OutcomeIsDetermined, PlainDocumentsAreACase, RenamingLabelsChangesNothing, TheFirstConflictStays};

/// The node map of any list of trees, where there is no conflict of indexes, has the due form (JSON-LD 1.1 API, section 7.2): the
/// default graph is there, each graph is a map from ids to nodes, and each node a map with its id, perhaps an index and types, and for
/// the rest with values, references and lists under properties that are no keywords.
///
/// Graphs ascend strictly by their names, the nodes of each by their ids, and the members of each node by their keys, all by the bytes
/// of their UTF-8. So no name, id or key stands twice.
pub fn node_maps_have_the_due_form()
    ensures { NodeMapsHaveTheDueForm }
{}

/// Labels of blank nodes are issued in the order in which the document needs them, without a gap (JSON-LD 1.1 API, section 7.4): one for
/// each label of the document, where it is used first, and one for each node without an id. So the numbers of the labels are those from 0
/// on, below the count that generation tells; each belongs to one label of the document or to one node without an id, and each label of
/// the document has one number.
pub fn labels_are_issued_in_order()
    ensures { LabelsAreIssuedInOrder }
{}

/// No label of the document comes into a node map: each name of a blank node in it, be it that of a graph, a node, a type or a property,
/// or of a node that is referred to, is `_:b` with a number below the count of labels that were issued (JSON-LD 1.1 API, section 7.4).
pub fn blank_nodes_have_issued_labels()
    ensures { BlankNodesHaveIssuedLabels }
{}

/// Where a document has two different indexes of a node, the first such conflict is what generation gives (JSON-LD 1.1 API, section 7.2,
/// step 6.8), whatever items come after it. So code may stop there.
pub fn the_first_conflict_stays()
    ensures { TheFirstConflictStays }
{}

/// A node map has what the document states, and nothing else. Its graphs are the default graph and those that are stated; the nodes of a
/// graph are those of which something is said there. Each node has the types that are said of it, once each, its first index, and the
/// properties that are said of it. Under a property stand its values and references, once each and where they are stated first, and its
/// lists, each of them, in the order of the walk.
///
/// Statements are collected by a walk of their own, which names blank nodes as generation does and looks nothing up but labels.
pub fn node_maps_are_as_stated()
    ensures { NodeMapsAreAsStated }
{}

/// These laws determine the outcome: a node map that has the due form, is in order, and has what the document states and nothing else,
/// is the one that generation gives.
pub fn outcome_is_determined()
    ensures { OutcomeIsDetermined }
{}

/// Generation fails exactly where the document says two different indexes of a node of a graph (JSON-LD 1.1 API, section 7.2, step 6.8),
/// and tells the first index, in the order of the walk, that differs from the first one of its node, with both and the node.
pub fn conflicts_are_those_stated()
    ensures { ConflictsAreThoseStated }
{}

/// Which labels a document has for its blank nodes makes no difference: where its labels are replaced by others, two never by the same
/// one, generation gives the same node map with as many labels, or the same conflict. Ids, types and properties are renamed where they
/// stand. So where a property is a label itself, it keeps its place among the entries, whatever the order of the new labels is.
pub fn renaming_labels_changes_nothing()
    ensures { RenamingLabelsChangesNothing }
{}

/// For a plain document, whose items are node objects with an id and with texts and references under their properties, generation gives
/// what `ld_model` defines for plain documents alone: there is no conflict, and the node map and the count of labels are the same. So the
/// laws of `flatten_laws` on plain documents hold of generation as it is defined for every document.
pub fn plain_documents_are_a_case()
    ensures { PlainDocumentsAreACase }
{}

/// A document that is flattened stays as it is when it is flattened again (JSON-LD 1.1 API, sections 7.1 and 7.2), if no label was issued
/// for it, so that no node of it is blank. The outcome then has no conflict of indexes either.
///
/// With blank nodes it may change, since labels are issued anew, in the order of the outcome: `proofs/Examples.antt` has such a document.
pub fn flattening_again_changes_nothing()
    ensures { FlatteningAgainChangesNothing }
{}
