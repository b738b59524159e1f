// Labels, numbered by what all chunks use.
ghost use Rattle.std.specs.Prelude.{◌≡◌, IfOk, map as each};
ghost use Rattle.shard_model.specs.Numbered.{names_of};
ghost use Rattle.subtree_summary.specs.Uses.{uses_view};

use crate::labels::Labels;
use std::alloc::{AllocError, Global};
use subtree_summary::{Keyed, LabelUses};

/// Numbers the labels of a document (JSON-LD 1.1 API, section 7.4), where each of its chunks, one after another, tells which names it
/// uses, in the order of first use. So a name's number is the count of names that the document uses first before it. Names are hashed as
/// those of the first chunk are. Fails only where memory is refused.
pub fn number_labels(alloc: Global, uses: &[LabelUses]) -> Result<Labels, AllocError>
    ensures { IfOk result (λ labels. labels ≡ names_of (each uses_view uses.now)) }
{
    let mut labels = Labels::new(alloc, hasher_of(uses));
    for part in uses {
        labels.note_all(&part.names)?;
    }
    Ok(labels)
}

/// What hashes the names of the first chunk.
fn hasher_of(uses: &[LabelUses]) -> Keyed {
    match uses.first() {
        Some(first) => *first.names.hasher(),
        None => Keyed::new(&[]),
    }
}
