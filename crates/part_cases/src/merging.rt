// The run of all chunks in a shard.
ghost use Rattle.std.specs.Prelude.{◌≡◌, ◌+◌, ◌*◌, ◌<◌, ◌≤◌, ◌∷◌, [], length, slice_get, IfOk, IfSome};
ghost use Rattle.sum_model.specs.Sums.{placed, sum};
ghost use Rattle.sum_model.specs.Shards.{in_shard, ops_in};
ghost use Rattle.subtree_summary.specs.Parts.{part_view};
ghost use Rattle.summary_merge.specs.Runs.{runs_joined};
ghost use Rattle.part_cases.specs.Chunks.{run_of, lone_runs};

use job_core::Merge;
use op_types::Ops;
use std::alloc::{AllocError, Global};
use subtree_summary::{Part, Summary, summarise};
use summary_merge::{Run, merge_range};

/// A shard, and of how many.
#[derive(Clone, Copy)]
pub(crate) struct ShardAt {
    /// Its number.
    pub(crate) number: u32,
    /// How many shards there are.
    pub(crate) count: u32,
}

/// How the runs of chunks are merged.
#[derive(Clone, Copy)]
pub(crate) enum Merging {
    /// In the bracketing with this number, counted from 0: the first one merges from the right, and the last one from the left.
    Bracketing(u32),
    /// By `merge_range`.
    Range,
}

/// The two sides of a bracketing.
struct Split {
    /// How many chunks stand on the left.
    at: usize,
    /// The bracketing of the left side.
    left: u32,
    /// That of the right side.
    right: u32,
}

/// How many bracketings there are of so many chunks, which are five at most.
pub(crate) fn bracketings(chunks: usize) -> u32
    ensures { (1 ≤ result) × (result ≤ 14) }
{
    match chunks {
        0 | 1 | 2 => 1,
        3 => 2,
        4 => 5,
        _ => 14,
    }
}

/// The run of these chunks in a shard.
pub(crate) fn run_in(
    alloc: Global,
    chunks: &[Ops],
    shard: ShardAt,
    merging: Merging,
) -> Result<Run, AllocError>
    requires shard { (shard.number < shard.count) × (shard.count ≤ 64) }
    requires few { length chunks.now ≤ 5 }
    ensures { IfOk result (λ r. r ≡ run_of shard.count shard.number 0 chunks.now) }
{
    match merging {
        Merging::Bracketing(number) => merged(alloc, chunks, 0, shard, number),
        Merging::Range => ranged(alloc, chunks, shard),
    }
}

/// The run of these chunks, the first of which has this number, in the bracketing with that number.
fn merged(
    alloc: Global,
    chunks: &[Ops],
    first: u32,
    shard: ShardAt,
    bracketing: u32,
) -> Result<Run, AllocError>
    requires shard { (shard.number < shard.count) × (shard.count ≤ 64) }
    requires few { first + length chunks.now ≤ 5 }
    ensures { IfOk result (λ r. r ≡ run_of shard.count shard.number first chunks.now) }
{
    if chunks.len() < 2 {
        return match chunks.first() {
            Some(ops) => lone(alloc, ops, first, shard),
            None => Ok(Run::empty(alloc, first)),
        };
    }
    let Split { at, left, right } = split_of(chunks.len(), bracketing);
    let (before, behind) = chunks.split_at(at);
    let earlier = merged(alloc, before, first, shard, left)?;
    let later = merged(alloc, behind, first + at as u32, shard, right)?;
    let run = both(alloc, earlier, later)?;
    Ok(run)
}

/// The sides of the bracketing with this number.
fn split_of(chunks: usize, bracketing: u32) -> Split
    requires { 2 ≤ chunks }
    ensures { (1 ≤ result.at) × (result.at < chunks) }
{
    let mut number = bracketing;
    for at in 1..chunks - 1 {
        let right = bracketings(chunks - at);
        let both = bracketings(at).saturating_mul(right);
        if number < both {
            return Split {
                at,
                left: number / right,
                right: number % right,
            };
        }
        number -= both;
    }
    Split {
        at: chunks - 1,
        left: number,
        right: 0,
    }
}

fn both(alloc: Global, earlier: Run, later: Run) -> Result<Run, AllocError>
    requires { earlier.end ≡ later.first }
    ensures { IfOk result (λ r. r ≡ runs_joined earlier later) }
{
    match earlier.merge(alloc, later) {
        Ok(run) => Ok(run),
        Err(_) => Err(AllocError),
    }
}

/// The run of the chunk with this number.
fn lone(alloc: Global, ops: &Ops, number: u32, shard: ShardAt) -> Result<Run, AllocError>
    requires shard { (shard.number < shard.count) × (shard.count ≤ 64) }
    requires few { number < 4294967295 }
    ensures { IfOk result (λ r. r ≡ run_of shard.count shard.number number (ops.now ∷ [])) }
{
    let Summary { mut parts, uses: _ } = summarise(alloc, ops, number, shard.count)?;
    let part = parts.remove(shard.number as usize);
    Ok(Run::of(part, number))
}

/// The run of these chunks, by `merge_range`.
fn ranged(alloc: Global, chunks: &[Ops], shard: ShardAt) -> Result<Run, AllocError>
    requires shard { (shard.number < shard.count) × (shard.count ≤ 64) }
    requires few { length chunks.now ≤ 5 }
    ensures { IfOk result (λ r. r ≡ run_of shard.count shard.number 0 chunks.now) }
{
    let runs = runs_of(alloc, chunks, shard)?;
    let run = merge_range(alloc, runs)?;
    Ok(run)
}

/// The runs of these chunks, each by itself.
fn runs_of(alloc: Global, chunks: &[Ops], shard: ShardAt) -> Result<Vec<Run>, AllocError>
    requires shard { (shard.number < shard.count) × (shard.count ≤ 64) }
    requires few { length chunks.now ≤ 5 }
    ensures { IfOk result (λ rs. rs.items ≡ lone_runs shard.count shard.number 0 chunks.now) }
{
    let mut runs = Vec::new(alloc);
    let mut number = 0;
    for ops in chunks {
        runs.push(lone(alloc, ops, number, shard)?)?;
        number += 1;
    }
    Ok(runs)
}
