// The sums of chunks that stay, beside those of the lists of their operations.
ghost use Rattle.std.specs.Prelude.{◌≤◌};

use crate::operations::{Range, chunk_of, range_ops};
use crate::saying::{push_entry, push_name};
use crate::ways::SHARDS;
use chunk_ops::Chunk;
use chunk_sums::{sum_chunk, summarise_chunk};
use ld_json::Tree;
use op_types::Name;
use std::alloc::{AllocError, Global};
use subtree_summary::{IndexAt, Keyed, Part, PartEntry, Summary, Sums, Told, summarise};

/// How a range is summed.
#[derive(Clone, Copy)]
enum Summing {
    /// By the list of its operations.
    ByOps,
    /// On the way through its items.
    AsRange,
    /// As a spine that has its operations.
    AsSpine,
}

/// The sum of a range in one shard, and in how many of one to four shards, as a range and as a spine, it is that of the list of its operations.
pub(crate) fn sums_text(
    alloc: Global,
    range: &Range<'_>,
    items: &[Tree],
) -> Result<String, AllocError> {
    let mut ranges = 0u32;
    let mut spines = 0u32;
    for count in 1..=SHARDS {
        let listed = summed(alloc, range, items, Summing::ByOps, count)?;
        let ranged = summed(alloc, range, items, Summing::AsRange, count)?;
        let spined = summed(alloc, range, items, Summing::AsSpine, count)?;
        ranges = ranges.saturating_add((ranged.as_str() == listed.as_str()) as u32);
        spines = spines.saturating_add((spined.as_str() == listed.as_str()) as u32);
    }
    let whole = summed(alloc, range, items, Summing::AsRange, 1)?;
    format!(in alloc; "as a range {ranges} of {SHARDS}, as a spine {spines} of {SHARDS}: {whole}")
}

/// The sum of a range and, behind it, of a chunk with the same items and the next number, and whether spines give the same.
pub(crate) fn behind_text(
    alloc: Global,
    range: &Range<'_>,
    items: &[Tree],
) -> Result<String, AllocError> {
    let ranged = both_summed(alloc, range, items, false)?;
    let spined = both_summed(alloc, range, items, true)?;
    let same = ranged.as_str() == spined.as_str();
    format!(in alloc; "as spines the same: {same}: {ranged}")
}

fn summed(
    alloc: Global,
    range: &Range<'_>,
    items: &[Tree],
    summing: Summing,
    count: u32,
) -> Result<String, AllocError>
    requires { (1 ≤ count) × (count ≤ 64) }
{
    let number = range.number;
    let key = Keyed::new(&[]);
    let summary = match summing {
        Summing::ByOps => summarise(alloc, &range_ops(alloc, range, items)?, number, count)?,
        Summing::AsRange => {
            let chunk = chunk_of(alloc, range, items)?;
            summarise_chunk(alloc, &chunk, number, count, key)?
        }
        Summing::AsSpine => {
            let ops = range_ops(alloc, range, items)?;
            summarise_chunk(alloc, &Chunk::Spine { ops }, number, count, key)?
        }
    };
    summary_text(alloc, &summary)
}

fn both_summed(
    alloc: Global,
    range: &Range<'_>,
    items: &[Tree],
    as_spines: bool,
) -> Result<String, AllocError> {
    let mut next = *range;
    next.number = range.number.saturating_add(1);
    let before = Sums::new(alloc, range.number, 1, Keyed::new(&[]))?;
    let sums = told(alloc, before, range, items, as_spines)?;
    let sums = told(alloc, sums, &next, items, as_spines)?;
    summary_text(alloc, &sums.into_summary())
}

fn told(
    alloc: Global,
    before: Sums,
    range: &Range<'_>,
    items: &[Tree],
    as_spine: bool,
) -> Result<Sums, AllocError> {
    if as_spine {
        let ops = range_ops(alloc, range, items)?;
        let sums = sum_chunk(alloc, before, &Chunk::Spine { ops }, range.number)?;
        return Ok(sums);
    }
    let chunk = chunk_of(alloc, range, items)?;
    let sums = sum_chunk(alloc, before, &chunk, range.number)?;
    Ok(sums)
}

/// The shards, with a bar behind each, and the names that need labels.
fn summary_text(alloc: Global, summary: &Summary) -> Result<String, AllocError> {
    let mut out = String::new(alloc);
    for part in &summary.parts {
        push_part(alloc, &mut out, part)?;
        out.push_str("| ")?;
    }
    out.push_str("labels")?;
    for name in summary.uses.names.iter() {
        push_after_space(alloc, &mut out, name)?;
    }
    Ok(out)
}

/// The graphs of a shard, and its nodes.
fn push_part(alloc: Global, out: &mut String, part: &Part) -> Result<(), AllocError> {
    for graph in part.graphs.iter() {
        out.push_str("graph")?;
        push_after_space(alloc, out, graph)?;
        out.push_str("; ")?;
    }
    push_nodes(alloc, out, part)
}

fn push_nodes(alloc: Global, out: &mut String, part: &Part) -> Result<(), AllocError> {
    for (key, entry) in &part.nodes {
        out.push_str("node")?;
        push_after_space(alloc, out, &key.graph)?;
        push_after_space(alloc, out, &key.node)?;
        push_node(alloc, out, entry)?;
        out.push_str("; ")?;
    }
    Ok(())
}

/// What is said of a node: its types, its index, and its properties with their entries.
fn push_node(alloc: Global, out: &mut String, entry: &PartEntry) -> Result<(), AllocError> {
    for name in &entry.types {
        out.push_str(" type")?;
        push_after_space(alloc, out, name)?;
    }
    if let Some(index) = &entry.index {
        push_index(alloc, out, &**index)?;
    }
    push_properties(alloc, out, entry.told.as_slice())
}

/// An index with its place, and the first one that differs from it.
fn push_index(alloc: Global, out: &mut String, index: &IndexAt) -> Result<(), AllocError> {
    let at = format!(in alloc;
        " index ({},{}) {}",
        index.chunk,
        index.op,
        index.index.as_str()
    )?;
    out.push_str(at.as_str())?;
    if let Some(second) = &index.conflict {
        let at = format!(in alloc;
            " but ({},{}) {}",
            second.chunk,
            second.op,
            second.index.as_str()
        )?;
        out.push_str(at.as_str())?;
    }
    Ok(())
}

fn push_properties(alloc: Global, out: &mut String, told: &[Told]) -> Result<(), AllocError> {
    for property in told {
        out.push_str(" property")?;
        push_after_space(alloc, out, &property.property)?;
        push_entries(alloc, out, property)?;
    }
    Ok(())
}

fn push_entries(alloc: Global, out: &mut String, told: &Told) -> Result<(), AllocError> {
    for entry in &told.entries {
        out.push_str(" ")?;
        push_entry(alloc, out, entry)?;
    }
    Ok(())
}

fn push_after_space(alloc: Global, out: &mut String, name: &Name) -> Result<(), AllocError> {
    out.push_str(" ")?;
    push_name(alloc, out, name)
}
