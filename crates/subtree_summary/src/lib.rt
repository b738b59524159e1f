//! Sums of the operations of a chunk: what they add to a node map, by graphs and nodes in the order of first use (JSON-LD 1.1 API,
//! section 7.2), divided into shards.
//!
//! [`Sums`] are told one operation after another, without a list of them, and come to a [`Summary`]: a [`Part`] for each shard, and the names
//! that need labels, in the order of first use. [`summarise_all`] tells them the operations of a list. What a part has of a node is a log: things stand in it in the order in which they were said, and nothing is compared with what was said before. So
//! summing takes a time linear in the operations, whatever is said twice. Contracts see a log as what is left of it without repeats.
//!
//! Names come from documents, which may be hostile. So the maps and sets of names hash under a key that the caller gives ([`Keyed`]).
#![tactic(auto)]

mod entry;
mod keyed;
mod part;
mod sharded;
mod shards;
mod summing;
mod uses;

pub use entry::{IndexAt, PartEntry, SecondIndex, Told};
pub use keyed::Keyed;
pub use part::{Part, put_node};
pub use summing::{Summary, Sums, summarise, summarise_all};
pub use uses::LabelUses;
