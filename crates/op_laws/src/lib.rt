//! Laws of operations, as `op_model` defines them: they are node map generation (JSON-LD 1.1 API, section 7.2), for every division of a
//! document.
//!
//! There is no code here. Each function does nothing, and its contract is one law, which `specs/Laws.antt` states.
#![tactic(auto)]

ghost use Rattle.op_laws.specs.Laws.{ARangeRunsAnywhere, AddingIsAlike, DivisionsAreGeneration, EntriesAreToldApart, FirstUsesAreEnough, FreshNamesCanBeExchanged, LabelsCanBeNumberedFirst, NamesAreToldApart, NodeMapsAreTold, OperationsAreGeneration, OperationsAreSound, SoundNamesHaveOwnLabels, TheFirstConflictIsTold};

/// The operations of a document's chunks, run one after another, come to what node map generation comes to (JSON-LD 1.1 API, section
/// 7.2): the same node map, the same labels, as many of them, and the same first conflict of indexes. This holds of any list of trees and
/// of every division of it, also of one with empty chunks.
pub fn operations_are_generation()
    ensures { OperationsAreGeneration }
{}

/// Items of an array come to what generation comes to also where the array stands within a document: in any graph, under a property of
/// a subject, and as a reverse property's. What is needed is that the names of graph, subject and property are known by then, and that no
/// chunk with this number or a later one has run. Then the next chunk can follow.
pub fn a_range_runs_anywhere()
    ensures { ARangeRunsAnywhere }
{}

/// It makes no difference what nodes without an id are called in operations, as long as different ones are called differently: with other
/// fresh names the operations come to the same state, and to the same names in the same order, but for the exchange.
pub fn fresh_names_can_be_exchanged()
    ensures { FreshNamesCanBeExchanged }
{}

/// A document may be divided in any way into chunks, ranges within it and the steps between these, whose operations, one after another,
/// are those of the whole document but for the names of nodes without an id. Then they come to what generation comes to.
pub fn divisions_are_generation()
    ensures { DivisionsAreGeneration }
{}

/// Labels can be numbered before any operation is applied (JSON-LD 1.1 API, section 7.4). The names that operations use, each where it is
/// used first, are those that have labels in the end, in this order; and the operations, applied under these labels, make the state that
/// they come to when labels are issued on the way: the same node map, the same labels and count, and the same first conflict.
pub fn labels_can_be_numbered_first()
    ensures { LabelsCanBeNumberedFirst }
{}

/// To number labels it is enough to know of each part of the operations which names it uses, each once, in the order in which this part
/// uses them first. So parts can be looked through apart from each other.
pub fn first_uses_are_enough()
    ensures { FirstUsesAreEnough }
{}

/// Different names have different labels, where each name is among those that have labels or is an IRI that isn't the label of a blank
/// node, and there are at most 2^64 names that have labels.
pub fn names_are_told_apart()
    ensures { NamesAreToldApart }
{}

/// Different entries stay different under labels, where each name in them is such a name, and each value in them is a value object. So an
/// equal value or reference is found under names exactly where it is found under labels.
pub fn entries_are_told_apart()
    ensures { EntriesAreToldApart }
{}

/// A type is added to types, and an entry to entries, in the same way by names as by labels, where these are told apart: an equal type,
/// value or reference is added once, and a list in any case. So labels can be put in place of names once all is added.
pub fn adding_is_alike()
    ensures { AddingIsAlike }
{}

/// The node map has what the operations tell, and nothing else (JSON-LD 1.1 API, section 7.2). Beside the default graph, the graphs are
/// those that an operation has. The nodes of a graph are those that an operation has there; and each is what the operations that have
/// this node make of it, one after another. So operations that have no node in common may be told apart.
///
/// Under a property of a node stand the values and references that are added there, each once, where it is added first, and each list
/// that is appended there, in their order.
pub fn node_maps_are_told()
    ensures { NodeMapsAreTold }
{}

/// The first conflict is that of the first operation that sets an index on a node to which an earlier one gave a different index (JSON-LD
/// 1.1 API, section 7.2, step 6.8); and it names that node and both indexes.
pub fn the_first_conflict_is_told()
    ensures { TheFirstConflictIsTold }
{}

/// The operations of a range of items have their due form, where the names of its graph, subject and property have it: no IRI in them is
/// the label of a blank node, no property is a keyword, and each value is a value object. So has what is noted of a document's own items:
/// the name of the default graph is such a name, and there is no subject.
pub fn operations_are_sound()
    ensures { OperationsAreSound }
{}

/// In operations of this form every name is told apart by its label, and every entry by what it becomes, once labels are numbered by the
/// uses of these operations. So `names_are_told_apart`, `entries_are_told_apart` and `adding_is_alike` speak of all that is in them.
pub fn sound_names_have_own_labels()
    ensures { SoundNamesHaveOwnLabels }
{}
