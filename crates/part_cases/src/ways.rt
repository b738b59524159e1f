// All ways of making a document's node map in parts.
ghost use Rattle.std.specs.Prelude.{◌≡◌, ◌<◌, ◌≤◌, length, IfOk, OnOk};
ghost use Rattle.part_cases.specs.Chunks.{IsNumbered};

use crate::division::{Division, cut_ends, dealt_ends, divided};
use crate::merging::{Merging, ShardAt, bracketings, run_in};
use crate::outcome::{Outcome, outcome_of};
use label_repair::{NodeShard, join_shards, rename};
use ld_json::{Tree, Trees};
use node_ops::node_map;
use std::alloc::{AllocError, Global};
use summary_merge::first_conflict;

/// Into how many chunks items are divided at most.
const CHUNKS: usize = 5;

/// How many shards there are at most.
pub(crate) const SHARDS: u32 = 4;

/// A way of putting chunks together.
#[derive(Clone, Copy)]
struct Way {
    merging: Merging,
    shards: u32,
    order: u32,
}

/// The shards of a node map, in a way.
#[derive(Drop)]
struct Shards {
    shards: Vec<NodeShard>,
    have_conflict: bool,
}

/// What the ways gave that were tried.
#[derive(Drop)]
struct Tally {
    due: Outcome,
    ways: u64,
    different: String,
}

/// How many ways there are, whether all give what generation gives, and that.
pub(crate) fn all_ways(alloc: Global, items: Trees) -> Result<String, AllocError> {
    let mut tally = Tally {
        due: at_once(alloc, &items)?,
        ways: 0,
        different: String::new(alloc),
    };
    try_cuts(alloc, &mut tally, items.as_slice())?;
    try_deals(alloc, &mut tally, items.as_slice())?;
    let ways = tally.ways;
    let due = tally.due.text.as_str();
    if tally.different.is_empty() {
        return format!(in alloc; "{ways} ways, same: {due}");
    }
    let different = tally.different.as_str();
    format!(in alloc; "{ways} ways, different{different}: {due}")
}

fn at_once(alloc: Global, items: &Trees) -> Result<Outcome, AllocError> {
    match node_map(alloc, items) {
        Ok((map, labels)) => outcome_of(alloc, Ok(map), labels),
        Err(stop) => outcome_of(alloc, Err(stop), 0),
    }
}

/// Each division of at most eight items into rows of neighbours.
fn try_cuts(alloc: Global, tally: &mut Tally, items: &[Tree]) -> Result<(), AllocError> {
    let places = items.len().saturating_sub(1).min(7) as u32;
    for cuts in 0..1u32 << places {
        let ends = cut_ends(alloc, items.len(), cuts)?;
        try_division(alloc, tally, divided(alloc, items, ends.as_slice())?)?;
    }
    Ok(())
}

/// More chunks than there are items.
fn try_deals(alloc: Global, tally: &mut Tally, items: &[Tree]) -> Result<(), AllocError> {
    for chunks in items.len()..CHUNKS {
        let ends = dealt_ends(alloc, items.len(), chunks + 1)?;
        try_division(alloc, tally, divided(alloc, items, ends.as_slice())?)?;
    }
    Ok(())
}

/// Each bracketing, and then the range; nothing where there are more than five chunks.
fn try_division(alloc: Global, tally: &mut Tally, division: Division) -> Result<(), AllocError>
    requires { IsNumbered division }
{
    if division.chunks.len() > CHUNKS {
        return Ok(());
    }
    let count = bracketings(division.chunks.len());
    for number in 0..count {
        try_shards(alloc, tally, &division, Merging::Bracketing(number))?;
    }
    try_shards(alloc, tally, &division, Merging::Range)
}

fn try_shards(
    alloc: Global,
    tally: &mut Tally,
    division: &Division,
    merging: Merging,
) -> Result<(), AllocError>
    requires numbered { IsNumbered division.now }
    requires few { length division.now.chunks.items ≤ 5 }
{
    for shards in 1..=SHARDS {
        try_orders(alloc, tally, division, merging, shards)?;
    }
    Ok(())
}

/// How many orders there are of so many shards, which are four at most.
fn orders(shards: u32) -> u32 {
    match shards {
        0 | 1 => 1,
        2 => 2,
        3 => 6,
        _ => 24,
    }
}

fn try_orders(
    alloc: Global,
    tally: &mut Tally,
    division: &Division,
    merging: Merging,
    shards: u32,
) -> Result<(), AllocError>
    requires numbered { IsNumbered division.now }
    requires few { length division.now.chunks.items ≤ 5 }
    requires shards { shards ≤ 64 }
{
    for order in 0..orders(shards) {
        let way = Way {
            merging,
            shards,
            order,
        };
        try_way(alloc, tally, division, way)?;
    }
    Ok(())
}

fn try_way(
    alloc: Global,
    tally: &mut Tally,
    division: &Division,
    way: Way,
) -> Result<(), AllocError>
    requires numbered { IsNumbered division.now }
    requires few { length division.now.chunks.items ≤ 5 }
    requires shards { way.shards ≤ 64 }
{
    tally.ways = tally.ways.saturating_add(1);
    if is_due(alloc, &tally.due, division, way)? || !tally.different.is_empty() {
        return Ok(());
    }
    tally.different = name_of(alloc, division, way)?;
    Ok(())
}

fn name_of(alloc: Global, division: &Division, way: Way) -> Result<String, AllocError> {
    let name = division.name.as_str();
    let shards = way.shards;
    let order = way.order;
    match way.merging {
        Merging::Bracketing(number) => {
            format!(in alloc;
                " first with chunks of {name}, bracketing {number}, {shards} shards in order {order}"
            )
        }
        Merging::Range => {
            format!(in alloc;
                " first with chunks of {name}, by range, {shards} shards in order {order}"
            )
        }
    }
}

/// Whether a way gives this outcome, and a run has a conflict exactly where it is one.
fn is_due(alloc: Global, due: &Outcome, division: &Division, way: Way) -> Result<bool, AllocError>
    requires numbered { IsNumbered division.now }
    requires few { length division.now.chunks.items ≤ 5 }
    requires shards { way.shards ≤ 64 }
{
    let Shards {
        shards,
        have_conflict,
    } = shards_of(alloc, division, way)?;
    let made = join_shards(alloc, in_order(alloc, shards, way.order)?);
    let outcome = outcome_of(alloc, made, division.labels.count())?;
    Ok(outcome.text.as_str() == due.text.as_str() && have_conflict == due.is_conflict)
}

fn shards_of(alloc: Global, division: &Division, way: Way) -> Result<Shards, AllocError>
    requires numbered { IsNumbered division.now }
    requires few { length division.now.chunks.items ≤ 5 }
    requires shards { way.shards ≤ 64 }
{
    let mut all = Shards {
        shards: Vec::new(alloc),
        have_conflict: false,
    };
    for number in 0..way.shards {
        let shard = ShardAt {
            number,
            count: way.shards,
        };
        add_shard(alloc, &mut all, division, shard, way.merging)?;
    }
    Ok(all)
}

fn add_shard(
    alloc: Global,
    all: &mut Shards,
    division: &Division,
    shard: ShardAt,
    merging: Merging,
) -> Result<(), AllocError>
    requires numbered { IsNumbered division.now }
    requires few { length division.now.chunks.items ≤ 5 }
    requires shard { (shard.number < shard.count) × (shard.count ≤ 64) }
{
    let run = run_in(alloc, division.chunks.as_slice(), shard, merging)?;
    if first_conflict(&run).is_some() {
        all.have_conflict = true;
    }
    all.shards.push(rename(alloc, run, &division.labels)?)?;
    Ok(())
}

/// The shards in the order with this number.
fn in_order(
    alloc: Global,
    shards: Vec<NodeShard>,
    order: u32,
) -> Result<Vec<NodeShard>, AllocError> {
    let mut left = shards;
    let mut number = order as usize;
    let mut put = Vec::new(alloc);
    while !left.is_empty() {
        let count = left.len();
        put.push(left.remove(number % count))?;
        number /= count;
    }
    Ok(put)
}
