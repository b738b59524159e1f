//! Laws of shards, as `shard_model` defines them: the node map of a document is had from the sums of its operations, shard by shard.
//!
//! There is no code here. Each function does nothing, and its contract is one law, which `specs/Laws.antt` states.
#![tactic(auto)]

ghost use Rattle.shard_laws.specs.Laws.{DivisionsAreSound, NamesAreThoseOfParts, NoNodeIsThereTwice, NumbersAreThoseInLabels, RangesAreGeneration, RangesAreSound, ShardsAreGeneration, ShardsAreTheNodeMap, SumsHaveOwn};

/// A name that has a label has one number, which is the number in its label: how many names were used before it. No other name has one.
pub fn numbers_are_those_in_labels()
    ensures { NumbersAreThoseInLabels }
{}

/// Where each part of the operations tells which names it uses, each once and in the order of first use, these are joined, part by part,
/// to the names that all operations give labels to, in the order of first use.
pub fn names_are_those_of_parts()
    ensures { NamesAreThoseOfParts }
{}

/// In the sum of sound operations, of all or of those that fall among some names, each name that needs a label has one, no IRI looks like
/// a label, no property is a keyword, and each value is a value object. So it is with the sum of a shard.
pub fn sums_have_own()
    ensures { SumsHaveOwn }
{}

/// No two shards of sound operations have the same node of the same graph.
pub fn no_node_is_there_twice()
    ensures { NoNodeIsThereTwice }
{}

/// The operations of a document's chunks are summed up shard by shard, each sum gets labels in place of names, and all are put together:
/// this is the node map that the operations make one after another, with the same graphs, nodes, types, indexes, properties and entries,
/// and with the same first conflict of indexes. It holds of any sound operations, of any number of shards from 1 on, and of at most 2^64
/// names.
pub fn shards_are_the_node_map()
    ensures { ShardsAreTheNodeMap }
{}

/// The operations of a document that is divided into chunks in any way are sound, as the other laws ask: no IRI in them is the label of a
/// blank node, no property is a keyword, and each value is a value object.
pub fn divisions_are_sound()
    ensures { DivisionsAreSound }
{}

/// A document that is divided into chunks in any way comes, by the sums of its shards, to what node map generation gives (JSON-LD 1.1 API,
/// section 7.2): the same node map and as many labels, or the same first conflict.
pub fn shards_are_generation()
    ensures { ShardsAreGeneration }
{}

/// The operations of ranges of the document's own array, numbered in their order, are sound, and they are those of the chunks at their places.
pub fn ranges_are_sound()
    ensures { RangesAreSound }
{}

/// So it is where the document's own array is divided into ranges, in any way.
pub fn ranges_are_generation()
    ensures { RangesAreGeneration }
{}
