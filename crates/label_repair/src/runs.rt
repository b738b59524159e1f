// A run under labels.
ghost use Rattle.std.specs.Prelude.{◌≡◌, Some, option_map, IfOk};
ghost use Rattle.op_laws.specs.Own.{HasOwn};
ghost use Rattle.op_types.specs.View.{name_view};
ghost use Rattle.sum_model.specs.Conflicts as model;
ghost use Rattle.summary_merge.specs.Conflict.{conflict_view};
ghost use Rattle.shard_model.specs.Own.{SumHasOwn};
ghost use Rattle.shard_model.specs.Renamed.{conflict_renamed, shard_renamed};
ghost use Rattle.label_repair.specs.Finished.{finished};
ghost use Rattle.label_repair.specs.Shards.{conflict_in, shard_view};

use crate::finishing::finish_part;
use crate::labels::Labels;
use crate::renaming::label;
use crate::shard::{NodeShard, PlacedConflict};
use node_types::Conflict;
use std::alloc::{AllocError, Global};
use summary_merge::{ConflictAt, Run, first_conflict};

/// The shard of the node map that a run stands for once its names are replaced by labels (JSON-LD 1.1 API, section 7.4), its nodes finished,
/// with the first conflict in it. Each name of the run that needs a label has one among `labels`, no IRI looks like a label, each value is a value
/// object, and no property is a keyword: so it is in runs of the operations of a document's chunks. What stands equal under names is equal
/// under labels, so nothing more is left out than repeats.
///
/// # Errors
///
/// `AllocError` where memory is refused.
pub fn rename(alloc: Global, run: Run, labels: &Labels) -> Result<NodeShard, AllocError>
    requires { SumHasOwn labels.now run.sum }
    ensures { IfOk result (λ s. shard_view s ≡ finished (shard_renamed labels.now run.sum)) }
{
    let conflict = conflict_of(alloc, &run, labels)?;
    labels.are_few();
    let graphs = finish_part(alloc, run.into_part(), labels)?;
    Ok(NodeShard { graphs, conflict })
}

/// The first conflict in a run, its node by its label.
fn conflict_of(
    alloc: Global,
    run: &Run,
    labels: &Labels,
) -> Result<Option<PlacedConflict>, AllocError>
    requires { SumHasOwn labels.now run.now.sum }
    ensures { IfOk result (λ c. conflict_in c ≡ option_map (conflict_renamed labels.now) (model.first_conflict run.now.sum)) }
{
    match first_conflict(run) {
        Some(at) => Ok(Some(placed(alloc, at, labels)?)),
        None => Ok(None),
    }
}

fn placed(alloc: Global, at: ConflictAt<'_>, labels: &Labels) -> Result<PlacedConflict, AllocError>
    requires { HasOwn labels.now (name_view at.node.now) }
    ensures { IfOk result (λ c. conflict_in (Some c) ≡ option_map (conflict_renamed labels.now) (conflict_view (Some at.entry))) }
{
    let ConflictAt {
        chunk,
        op,
        node,
        first,
        second,
    } = at;
    Ok(PlacedConflict {
        chunk,
        op,
        conflict: Conflict {
            node: label(alloc, labels, node)?,
            first: first.copy()?,
            second: second.copy()?,
        },
    })
}
