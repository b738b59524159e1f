// Trials are settled.
ghost use Rattle.std.specs.Prelude.{◌≡◌};
ghost use Rattle.ld_model.specs.Tree.{trees_of, Tree as TreeData};
ghost use Rattle.ld_tree.specs.View.{trees_view, view};
ghost use Rattle.expand_model.specs.Over as over;
ghost use Rattle.expand_model.specs.Rules.{lists_at};
ghost use Rattle.tree_expand.specs.Outcomes.{Gives};
ghost use Rattle.tree_expand.specs.View.{at_view};

use crate::at::At;
use crate::ranges::Ranges;
use crate::stop::ExpandStop;
use expand_parts::{has_lists, splice};
use ld_tree::{Tree, Trees};
use std::alloc::Global;

/// Keeps what a trial came to, or drops it: the items so far with those of the outcome, and how many items behind it are answered with it.
pub(crate) fn settle<R: Ranges>(
    alloc: Global,
    ranges: &mut R,
    at: &At<'_>,
    rest: &[Tree],
    number: u64,
    mark: usize,
    out: Trees,
    outcome: Result<Tree, ExpandStop>,
) -> Result<(Trees, usize), ExpandStop>
    ensures { (d : over.Outcome R TreeData) → Gives outcome view ranges.old d → Gives result (λ p. (p.0, p.1)) ranges.new
        (over.settled (R.settles (trees_of (trees_view rest.now)) number (at_view at.now) mark) (lists_at (at_view at.now)) out d) }
{
    match outcome {
        Ok(value) => {
            if ranges.settle(alloc, at, rest, number, mark)? {
                let out = splice(alloc, has_lists(&at.scope), out, value)?;
                return Ok((out, 0));
            }
            Ok((out, 0))
        }
        Err(stop) => match stop {
            ExpandStop::OutOfMemory => Err(ExpandStop::OutOfMemory),
            ExpandStop::Refused { code, place } => {
                if ranges.settle(alloc, at, rest, number, mark)? {
                    return Err(ExpandStop::Refused { code, place });
                }
                Ok((out, 0))
            }
        },
    }
}
