// Divisions of a document's items into chunks.
ghost use Rattle.std.specs.Prelude.{◌≡◌, IfOk, OnOk, flat_map};
ghost use Rattle.std.specs.List.{AllByRecursion};
ghost use Rattle.op_laws.specs.Sound.{IsSound};
ghost use Rattle.shard_laws.specs.Laws.{labels_by};
ghost use Rattle.part_cases.specs.Chunks.{AreSound, IsNumbered};

use chunk_ops::{Chunk, ops_of};
use label_repair::{Labels, number_labels};
use ld_json::Tree;
use op_types::{Name, Ops};
use std::alloc::{AllocError, Global};
use subtree_summary::{Summary, summarise};

/// The operations of a document's chunks, and its labels, as the chunks' uses number them.
#[derive(Drop)]
pub(crate) struct Division {
    /// How many items each chunk has.
    pub(crate) name: String,
    /// The operations of each chunk.
    pub(crate) chunks: Vec<Ops>,
    /// The labels.
    pub(crate) labels: Labels,
}

/// Chunks, while they are made.
#[derive(Drop)]
struct Made {
    name: String,
    chunks: Vec<Ops>,
}

/// The ends of chunks of so many items, where a bit of `cuts` says for each place between two items whether there is an end.
pub(crate) fn cut_ends(alloc: Global, items: usize, cuts: u32) -> Result<Vec<usize>, AllocError> {
    let mut ends = Vec::new(alloc);
    let mut rest = cuts;
    for end in 1..items {
        if rest % 2 == 1 {
            ends.push(end)?;
        }
        rest /= 2;
    }
    ends.push(items)?;
    Ok(ends)
}

/// The ends of so many chunks, to which so many items are dealt evenly.
pub(crate) fn dealt_ends(
    alloc: Global,
    items: usize,
    chunks: usize,
) -> Result<Vec<usize>, AllocError> {
    let mut ends = Vec::new(alloc);
    for number in 0..chunks {
        ends.push(items.saturating_mul(number + 1) / chunks)?;
    }
    Ok(ends)
}

/// The division of these items into chunks with these ends.
pub(crate) fn divided(alloc: Global, items: &[Tree], ends: &[usize]) -> Result<Division, AllocError>
    ensures { IfOk result (λ d. IsNumbered d) }
{
    let Made { name, chunks } = chunks_of(alloc, items, ends)?;
    let labels = labels_of(alloc, chunks.as_slice())?;
    Ok(Division {
        name,
        chunks,
        labels,
    })
}

fn chunks_of(alloc: Global, items: &[Tree], ends: &[usize]) -> Result<Made, AllocError>
    ensures { IfOk result (λ m. AreSound m.chunks.items) }
{
    let mut made = Made {
        name: String::new(alloc),
        chunks: Vec::new(alloc),
    };
    let mut from = 0;
    for end in ends {
        add_chunk(alloc, &mut made, items.get(from..*end).unwrap_or(&[]))?;
        from = *end;
    }
    Ok(made)
}

fn add_chunk(alloc: Global, made: &mut Made, items: &[Tree]) -> Result<(), AllocError>
    requires { AreSound made.old.chunks.items }
    ensures { OnOk result (AreSound made.new.chunks.items) }
{
    let size = items.len();
    let text = format!(in alloc; "+{size}")?;
    made.name.push_str(text.as_str())?;
    let Ok(number) = u32::try_from(made.chunks.len()) else {
        return Err(AllocError);
    };
    let ops = noted(alloc, items, number)?;
    made.chunks.push(ops)?;
    Ok(())
}

/// The operations of the chunk of these items.
fn noted(alloc: Global, items: &[Tree], number: u32) -> Result<Ops, AllocError>
    ensures { IfOk result (λ os. AllByRecursion IsSound os) }
{
    let graph = Name::default_graph(alloc)?;
    let chunk = Chunk::Range {
        items,
        graph,
        subject: None,
        property: None,
        reverse: false,
    };
    let ops = ops_of(alloc, &chunk, number)?;
    Ok(ops)
}

/// The labels, numbered by what each chunk uses.
fn labels_of(alloc: Global, chunks: &[Ops]) -> Result<Labels, AllocError>
    ensures { IfOk result (λ ls. ls ≡ labels_by (flat_map (λ os. os) chunks.now)) }
{
    let mut uses = Vec::new(alloc);
    for ops in chunks {
        let Summary {
            parts: _,
            uses: more,
        } = summarise(alloc, ops, 0, 1)?;
        uses.push(more)?;
    }
    let labels = number_labels(alloc, uses.as_slice())?;
    Ok(labels)
}
