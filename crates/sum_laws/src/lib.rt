//! Laws of sums of operations, as `sum_model` defines them.
//!
//! There is no code here. Each function does nothing, and its contract is one law, which a file of `specs/` states:
//! `Laws.antt` those of joining, `Said.antt` what a sum has in it, and `Conflicts.antt` which conflict of indexes is the first.
#![tactic(auto)]

ghost use Rattle.sum_laws.specs.Conflicts.{ChunksAreInOrder, TheFirstConflictComesFirst, TheFirstConflictIsThatOfAShard};
ghost use Rattle.sum_laws.specs.Laws.{EachNameHasAShard, JoinIsAMonoid, SameEntriesAreEqual, SameNamesAreEqual, SameNodesAreEqual, TheSumOfAShardIsItsPart, TheSumOfBothIsTheJoin, TheUsesOfBothAreJoined};
ghost use Rattle.sum_laws.specs.Said.{EntriesAreSaid, GraphsAreSaid, IndexesAreSaid, NodesAreSaid, NothingStandsTwice, OfEachSum, PropertiesAreSaid, TheSumIsWhatIsSaid, TypesAreSaid};

/// However three sums are bracketed, their join is the same, and the empty sum joined to another leaves it as it is.
pub fn join_is_a_monoid()
    ensures { JoinIsAMonoid }
{}

/// The sum of operations and then of others is the join of the two sums.
pub fn the_sum_of_both_is_the_join()
    ensures { TheSumOfBothIsTheJoin }
{}

/// The sum of the operations that fall among some names is what the sum of all has of these names, in the same order. So it is with the
/// operations of a shard, each at the place that it has among all.
pub fn the_sum_of_a_shard_is_its_part()
    ensures { TheSumOfAShardIsItsPart }
{}

/// The graphs of a sum are those that its operations make, each once, in the order in which they are first made.
pub fn graphs_are_those_made()
    ensures { OfEachSum GraphsAreSaid }
{}

/// The nodes of a sum are those that its operations are about, each in its graph and each once, in the order of first use.
pub fn nodes_are_those_used()
    ensures { OfEachSum NodesAreSaid }
{}

/// The types of a node are those that operations add to it, each once, in the order in which they are first added.
pub fn types_are_those_added()
    ensures { OfEachSum TypesAreSaid }
{}

/// The properties of a node are those that operations name there, each once, in the order in which they are first named. A property may
/// be without entries.
pub fn properties_are_those_named()
    ensures { OfEachSum PropertiesAreSaid }
{}

/// The entries under a property of a node are those that operations add there, in order: a value or a reference once, where it is first
/// added, and each list that is appended, whatever is there.
pub fn entries_are_those_added()
    ensures { OfEachSum EntriesAreSaid }
{}

/// The index of a node is the one that is first set there, with its place, and its conflict is the first one after it that differs from
/// it, with that one's place.
pub fn the_index_is_the_first_one_set()
    ensures { OfEachSum IndexesAreSaid }
{}

/// No graph and no node of a sum stands twice, and at a node no type, no property, and no value or reference under a property.
pub fn nothing_stands_twice()
    ensures { NothingStandsTwice }
{}

/// The laws determine the sum: what has the graphs, nodes, types, properties, entries and indexes that operations say, and in that order,
/// is their sum, and nothing else is.
pub fn the_sum_is_what_is_said()
    ensures { TheSumIsWhatIsSaid }
{}

/// The shard of a name is one of those that there are.
pub fn each_name_has_a_shard()
    ensures { EachNameHasAShard }
{}

/// The names that need labels, in the order of first use, are joined as sums are: first those of one list, and then those of another that
/// are new.
pub fn the_uses_of_both_are_joined()
    ensures { TheUsesOfBothAreJoined }
{}

/// The test of equal names is true exactly of equal ones.
pub fn same_names_are_equal()
    ensures { SameNamesAreEqual }
{}

/// The test of equal nodes of graphs is true exactly where graph and node are equal.
pub fn same_nodes_are_equal()
    ensures { SameNodesAreEqual }
{}

/// The test by which entries are kept once is true exactly of equal values and of equal references, and of no list.
pub fn same_entries_are_equal()
    ensures { SameEntriesAreEqual }
{}

/// Where operations come in the order of their places, the first conflict in their sum is the first that any of them makes: it sets an
/// index of a node whose index was first set to another one (JSON-LD 1.1 API, section 7.2, step 6.8).
pub fn the_first_conflict_comes_first()
    ensures { TheFirstConflictComesFirst }
{}

/// The operations of chunks, one chunk after another, come in the order of their places.
pub fn chunks_are_in_order()
    ensures { ChunksAreInOrder }
{}

/// The earliest, by place, of the first conflicts that the shards of a sum have is the first conflict in the sum.
pub fn the_first_conflict_is_that_of_a_shard()
    ensures { TheFirstConflictIsThatOfAShard }
{}
