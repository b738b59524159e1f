// Runs.
ghost use Rattle.std.specs.Prelude.{◌≡◌, ◌+◌, ◌<◌, ◌≤◌, IfOk};
ghost use Rattle.sum_model.specs.Sums.{empty_sum};
ghost use Rattle.subtree_summary.specs.Parts.{part_view};
ghost use Rattle.summary_merge.specs.Runs.{AreNeighbours, runs_joined, all_joined};

use crate::adding::add_part;
use crate::merging::{Apart, merge_parts};
use job_core::{Merge, Unmerged};
use std::alloc::{AllocError, Global};
use std::marker::Model;
use subtree_summary::{Keyed, Part};

/// What the operations of neighbouring chunks say in a shard. A merge keeps the hasher of the earlier run, also where that is empty: so a run
/// that begins with no chunk wants [`Run::none`], with a hasher of its own, where names may be hostile.
#[derive(Drop)]
pub struct Run {
    start: u32,
    end: u32,
    part: Part,
}

impl Model for Run {
    ghost use Rattle.subtree_summary.specs.Parts.{part_view};
    ghost use Rattle.summary_merge.specs.Runs.{RunOf, run_code};

    ghost Value = { RunOf };

    ghost coded = { run_code };

    ghost view = { λ r. record { first = r.start; end = r.end; sum = part_view r.part } };
}

impl Run {
    /// The run of one chunk, whose operations say this in the shard.
    pub fn of(part: Part, chunk: u32) -> Run
        requires { chunk < 4294967295 }
        ensures { result ≡ record { first = chunk; end = chunk + 1; sum = part_view part } }
    {
        Run {
            start: chunk,
            end: chunk + 1,
            part,
        }
    }

    /// The run of the chunks from this one to before that one, whose operations say this in the shard.
    pub fn over(part: Part, start: u32, end: u32) -> Run
        requires { start ≤ end }
        ensures { result ≡ record { first = start; end = end; sum = part_view part } }
    {
        Run { start, end, part }
    }

    /// The run of no chunk, at this one. What is merged into it is hashed by this hasher.
    pub fn none(alloc: Global, at: u32, hasher: Keyed) -> Run
        ensures { result ≡ record { first = at; end = at; sum = empty_sum } }
    {
        Run {
            start: at,
            end: at,
            part: Part::new(alloc, hasher),
        }
    }

    /// What the operations of the run say.
    pub fn into_part(self) -> Part
        ensures { part_view result ≡ self.sum }
    {
        let Run {
            start: _,
            end: _,
            part,
        } = self;
        part
    }

    /// What the operations of the run say, borrowed.
    pub fn part(&self) -> &Part
        ensures { part_view result.now ≡ self.now.sum }
    {
        &self.part
    }
}

impl Merge for Run {
    ghost use Rattle.std.specs.Prelude.{refl};
    ghost use Rattle.sum_model.specs.Sums.{empty_sum};
    ghost use Rattle.summary_merge.specs.Runs.{runs_joined};
    ghost use Rattle.summary_merge.specs.Laws.{left_nothing, right_nothing, associative};

    ghost valid = { λ r. Unit {0} };

    ghost nothing = { λ at. record { first = at; end = at; sum = empty_sum } };

    ghost start_of = { λ r. r.first };

    ghost end_of = { λ r. r.end };

    ghost both = { runs_joined };

    /// The run of no chunk, at this one. It hashes names under the empty key, and so does what is merged into it.
    fn empty(alloc: Global, at: u32) -> Run {
        Run::none(alloc, at, Keyed::new(&[]))
    }

    fn first(&self) -> u32 {
        self.start
    }

    fn end(&self) -> u32 {
        self.end
    }

    fn merge(self, _alloc: Global, next: Run) -> Result<Run, Unmerged<Run>> {
        match merge_parts(self.part, next.part) {
            Ok(part) => Ok(Run {
                start: self.start,
                end: next.end,
                part,
            }),
            Err(Apart { earlier, later }) => Err(Unmerged {
                left: Run {
                    start: self.start,
                    end: self.end,
                    part: earlier,
                },
                right: Run {
                    start: next.start,
                    end: next.end,
                    part: later,
                },
            }),
        }
    }

    ghost nothing_covers = { λ at. (refl, refl) };

    ghost nothing_valid = { λ at. tt };

    ghost both_covers = { λ a b e. (refl, refl) };

    ghost both_valid = { λ a b v w e. tt };

    ghost left_nothing = { λ a v. left_nothing a };

    ghost right_nothing = { λ a v. right_nothing a };

    ghost associative = { λ a b c u v w e f. associative a b c };
}

/// The run of all these, one after another; of none, that which begins and ends at chunk 0.
///
/// # Errors
///
/// Only where memory is refused.
pub fn merge_range(alloc: Global, runs: Vec<Run>) -> Result<Run, AllocError>
    requires { AreNeighbours runs.items }
    ensures { IfOk result (λ run. run ≡ all_joined runs.items) }
{
    let mut runs = runs.into_iter();
    let Some(first) = runs.next() else {
        return Ok(Run::empty(alloc, 0));
    };
    let mut run = first;
    for next in runs {
        run = merge_next(run, next)?;
    }
    Ok(run)
}

/// The run, and the next one moved into it, in a time linear in the next one. It grows as it needs to, where [`Merge::merge`] makes all room
/// first.
///
/// # Errors
///
/// Only where memory is refused; then both are lost.
pub fn merge_next(run: Run, next: Run) -> Result<Run, AllocError>
    requires { run.end ≡ next.first }
    ensures { IfOk result (λ both. both ≡ runs_joined run next) }
{
    let Run {
        start,
        end: _,
        mut part,
    } = run;
    let Run {
        start: _,
        end,
        part: later,
    } = next;
    add_part(&mut part, later)?;
    Ok(Run { start, end, part })
}
