//! What operations add to a node map, summed up, so that the parts of a document can be summed each by itself and then joined.
//!
//! `specs/Joins.antt` joins lists and maps that keep the order of first use, `specs/Sums.antt` has the sum of a list of operations and the
//! join of two sums, `specs/Shards.antt` the part of them that falls in a shard, and `specs/Conflicts.antt` the first conflict of indexes
//! in a sum; `proofs/` has worked examples. There is no code here. `sum_laws` has the laws: that the sum of operations and then of others
//! is the join of the two sums, in whatever bracketing, and what a sum says in the operations' words.
#![tactic(auto)]
