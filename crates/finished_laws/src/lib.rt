//! That shards of a document are its node map also once their nodes are finished, as `label_repair` finishes them.
//!
//! There is no code here. The function does nothing, and its contract is the law, which `specs/Laws.antt` states.
#![tactic(auto)]

ghost use Rattle.finished_laws.specs.Laws.{FinishedShardsAreGeneration};

/// A document is divided by any plan, and what its chunks say is divided into any number of shards from 1 on. Each shard under the document's
/// labels, its nodes finished as `label_repair::rename` gives them, and all of these put together as `label_repair::join_shards` does, are
/// what node map generation gives (JSON-LD 1.1 API, section 7.2): the same node map and as many labels, or the same first conflict.
pub fn finished_shards_are_generation()
    ensures { FinishedShardsAreGeneration }
{}
