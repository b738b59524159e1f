// The first conflict of indexes in a run.
ghost use Rattle.std.specs.Prelude.{◌≡◌};
ghost use Rattle.sum_model.specs.Conflicts as model;
ghost use Rattle.sum_model.specs.Conflicts.{is_before, earliest, earlier};
ghost use Rattle.op_types.specs.View.{name_view};
ghost use Rattle.subtree_summary.specs.Log.{index_view};
ghost use Rattle.subtree_summary.specs.Parts.{nodes_view};
ghost use Rattle.summary_merge.specs.Conflict.{conflict_view, place_of};

use crate::run::Run;
use indexmap::IndexMap;
use ld_tree::Text;
use op_types::{Name, NodeKey};
use subtree_summary::{IndexAt, Keyed, PartEntry};

/// An operation sets a second index of a node, which differs from the first (JSON-LD 1.1 API, section 7.2, step 6.8).
#[derive(Clone, Copy)]
pub struct ConflictAt<'a> {
    /// The chunk of the operation.
    pub chunk: u32,
    /// The number of the operation, from 0, among all of the chunk.
    pub op: u64,
    /// The node.
    pub node: &'a Name,
    /// Its first index.
    pub first: &'a Text,
    /// The index that the operation sets.
    pub second: &'a Text,
}

/// The first conflict in a run, by chunk and operation; None where no node has two different indexes in it.
pub fn first_conflict(run: &Run) -> Option<ConflictAt<'_>>
    ensures { conflict_view result ≡ model.first_conflict run.now.sum }
{
    first_of(&run.part().nodes)
}

fn first_of(nodes: &IndexMap<NodeKey, PartEntry, Keyed>) -> Option<ConflictAt<'_>>
    ensures { conflict_view result ≡ earliest (nodes_view nodes.now.entries) }
{
    let mut first = None;
    for (key, entry) in nodes {
        first = the_earlier(first, conflict_of(&key.node, &entry.index));
    }
    first
}

fn the_earlier<'a>(
    first: Option<ConflictAt<'a>>,
    second: Option<ConflictAt<'a>>,
) -> Option<ConflictAt<'a>>
    ensures { conflict_view result ≡ earlier (conflict_view first.entry) (conflict_view second.entry) }
{
    let Some(a) = first else {
        return second;
    };
    let Some(b) = second else {
        return first;
    };
    if comes_before(&b, &a) {
        return second;
    }
    first
}

fn comes_before(a: &ConflictAt<'_>, b: &ConflictAt<'_>) -> bool
    ensures { result ≡ is_before (place_of a.now) (place_of b.now) }
{
    a.chunk < b.chunk || a.chunk == b.chunk && a.op < b.op
}

fn conflict_of<'a>(node: &'a Name, index: &'a Option<Box<IndexAt>>) -> Option<ConflictAt<'a>>
    ensures { conflict_view result ≡ model.conflict_of (name_view node.now) (index_view index.now) }
{
    let Some(index) = index else {
        return None;
    };
    let Some(second) = &index.conflict else {
        return None;
    };
    Some(ConflictAt {
        chunk: second.chunk,
        op: second.op,
        node,
        first: &index.index,
        second: &second.index,
    })
}
