// Runs merged from the left and from the right.
ghost use Rattle.std.specs.Prelude.{◌≡◌, ◌<◌, ◌≤◌, length, IfOk, OnOk};
ghost use Rattle.part_cases.specs.Chunks.{IsNumbered};

use crate::division::{Division, cut_ends, divided};
use crate::merging::{Merging, ShardAt, bracketings, run_in};
use crate::outcome::outcome_of;
use crate::ways::SHARDS;
use label_repair::{join_shards, rename};
use ld_json::Trees;
use std::alloc::{AllocError, Global};

/// How many shards there are, of one to four, and whether both sides give the same shard each time, where each of two to five items is a
/// chunk of its own.
pub(crate) fn both_sides(alloc: Global, items: Trees) -> Result<String, AllocError> {
    let ends = cut_ends(alloc, items.len(), u32::MAX)?;
    let division = divided(alloc, items.as_slice(), ends.as_slice())?;
    if division.chunks.len() > 5 {
        return format!(in alloc; "no case");
    }
    let mut same = 0u32;
    let mut all = 0u32;
    for count in 1..=SHARDS {
        same = same.saturating_add(same_shards(alloc, &division, count)?);
        all = all.saturating_add(count);
    }
    format!(in alloc; "{all} shards, from the left and from the right the same: {same}")
}

/// How many of so many shards are the same from both sides.
fn same_shards(alloc: Global, division: &Division, count: u32) -> Result<u32, AllocError>
    requires numbered { IsNumbered division.now }
    requires few { length division.now.chunks.items ≤ 5 }
    requires shards { count ≤ 64 }
{
    let mut same = 0u32;
    for number in 0..count {
        if is_same(alloc, division, ShardAt { number, count })? {
            same = same.saturating_add(1);
        }
    }
    Ok(same)
}

fn is_same(alloc: Global, division: &Division, shard: ShardAt) -> Result<bool, AllocError>
    requires numbered { IsNumbered division.now }
    requires few { length division.now.chunks.items ≤ 5 }
    requires shard { (shard.number < shard.count) × (shard.count ≤ 64) }
{
    let last = bracketings(division.chunks.len()) - 1;
    let left = shard_text(alloc, division, shard, last)?;
    let right = shard_text(alloc, division, shard, 0)?;
    Ok(left.as_str() == right.as_str())
}

/// A shard, in the bracketing with this number, as the node map that it makes alone.
fn shard_text(
    alloc: Global,
    division: &Division,
    shard: ShardAt,
    bracketing: u32,
) -> Result<String, AllocError>
    requires numbered { IsNumbered division.now }
    requires few { length division.now.chunks.items ≤ 5 }
    requires shard { (shard.number < shard.count) × (shard.count ≤ 64) }
{
    let merging = Merging::Bracketing(bracketing);
    let run = run_in(alloc, division.chunks.as_slice(), shard, merging)?;
    let mut shards = Vec::new(alloc);
    shards.push(rename(alloc, run, &division.labels)?)?;
    let outcome = outcome_of(alloc, join_shards(alloc, shards), division.labels.count())?;
    Ok(outcome.text)
}
