//! The definitions by which sums of a document's operations become its node map (JSON-LD 1.1 API, section 7.2), shard by shard.
//!
//! `specs/Numbered.antt` numbers labels by the first uses of names, `specs/Renamed.antt` puts labels in place of the names of a sum,
//! `specs/Joined.antt` puts the shards together, and `specs/Own.antt` says of which sums no name or entry is lost that way. There is no
//! code here. `shard_laws` has the laws.
#![tactic(auto)]
