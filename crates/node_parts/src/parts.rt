// The node map, by the sums of chunks.
ghost use Rattle.std.specs.Prelude.{◌≡◌, ◌+◌, ◌≤◌, ◌∷◌, [], length, slice_get, map as each, Ok, MatchResult, IfOk, IfSome, IsTrue};
ghost use Rattle.chunk_sums.specs.Summing.{then_said};
ghost use Rattle.node_model.specs.Generating.{generate};
ghost use Rattle.node_types.specs.Views.{Stops};
ghost use Rattle.op_model.specs.Noting.{is_placed, ops_of};
ghost use Rattle.chunk_ops.specs.Views.{chunk_view};
ghost use Rattle.subtree_summary.specs.OnTheWay.{nothing_said, sums_view};
ghost use Rattle.subtree_summary.specs.Parts.{part_view};
ghost use Rattle.subtree_summary.specs.Uses.{uses_view};
ghost use Rattle.node_parts.specs.Chunked.{ArePlaced, IsWholeOf, chunks_said};

use crate::digest::digest_of;
use chunk_ops::Chunk;
use chunk_sums::sum_chunk;
use division_cut::cut_expanded;
use label_repair::{Labels, NodeShard, join_shards, rename};
use ld_tree::Trees;
use node_types::{MapStop, NodeMap};
use std::alloc::{AllocError, Global};
use subtree_summary::{Keyed, LabelUses, Part, Summary, Sums};
use summary_merge::Run;

/// What the chunks so far say.
#[derive(Drop)]
struct Told {
    /// How many there were.
    count: u32,
    /// What they said.
    sums: Sums,
}

/// What all chunks say, where there is one shard.
#[derive(Drop)]
struct Whole {
    /// How many there were.
    count: u32,
    /// What they add to a node map.
    part: Part,
    /// The names in it that need labels.
    uses: LabelUses,
}

/// The node map of the items of an expanded document, and how many labels were issued for it (JSON-LD 1.1 API, section 7.2), by the sums of
/// the chunks into which the document is cut by this weight: at most 4,096 ranges of the items of arrays, at any depth, and what lies between them.
/// It is the same as `node_ops::into_node_map`, whatever the weight; 0 counts as 1. The items are let go before nodes are finished. Names are
/// hashed under a digest of all of them, so that no document can be written for names that collide.
///
/// # Errors
///
/// `Conflict` where a node has two different indexes (step 6.8), and `OutOfMemory`.
pub fn node_map_by_parts(
    alloc: Global,
    items: Trees,
    weight: u64,
) -> Result<(NodeMap, u64), MapStop>
    ensures { MatchResult result (λ r. generate items ≡ Ok (record { graphs = r.0.graphs; issued = r.1 })) (Stops (generate items)) }
{
    let told = sum_document(alloc, items, weight)?;
    let Whole { count, part, uses } = whole_of(alloc, told);
    let labels = Labels::of_uses(uses);
    let shard = rename(alloc, Run::over(part, 0, count), &labels)?;
    let count = labels.count();
    match join_shards(alloc, alone(alloc, shard)?) {
        Ok(map) => Ok((map, count)),
        Err(stop) => Err(stop),
    }
}

fn alone(alloc: Global, shard: NodeShard) -> Result<Vec<NodeShard>, AllocError>
    ensures { IfOk result (λ v. v.items ≡ shard ∷ []) }
{
    let mut shards = Vec::new(alloc);
    shards.push(shard)?;
    Ok(shards)
}

/// What the chunks of a document say. Its items are let go.
fn sum_document(alloc: Global, items: Trees, weight: u64) -> Result<Told, AllocError>
    ensures { IfOk result (λ t. IsWholeOf items (sums_view t.sums)) }
{
    let hasher = Keyed::new(&digest_of(&items));
    let told = sum_items(alloc, &items, one_or_more(weight), hasher)?;
    Ok(told)
}

/// The weight, or 1 in the place of 0.
fn one_or_more(weight: u64) -> u64
    ensures { 1 ≤ result }
{
    if weight == 0 { 1 } else { weight }
}

/// What the chunks say into which items are cut.
fn sum_items(alloc: Global, items: &Trees, weight: u64, hasher: Keyed) -> Result<Told, AllocError>
    requires { 1 ≤ weight }
    ensures { IfOk result (λ t. IsWholeOf items.now (sums_view t.sums)) }
{
    let slice = items.as_slice();
    let plan = cut_expanded(alloc, slice, weight)?;
    let told = sum_chunks(alloc, plan.chunks.as_slice(), hasher)?;
    Ok(told)
}

/// What the chunks say, numbered from 0. Each is told behind those before it, so that no sum of one alone stands, and none is merged.
fn sum_chunks(alloc: Global, chunks: &[Chunk<'_>], hasher: Keyed) -> Result<Told, AllocError>
    requires { ArePlaced (each chunk_view chunks.now) }
    ensures { IfOk result (λ t. sums_view t.sums ≡ chunks_said 0 (each chunk_view chunks.now) (nothing_said 0 1)) }
{
    let mut all = Told {
        count: 0,
        sums: Sums::new(alloc, 0, 1, hasher)?,
    };
    for chunk in chunks {
        all = with_chunk(alloc, all, chunk)?;
    }
    Ok(all)
}

/// What the chunks say, and then one more.
fn with_chunk(alloc: Global, all: Told, chunk: &Chunk<'_>) -> Result<Told, AllocError>
    requires { IsTrue (is_placed (chunk_view chunk.now)) }
    ensures count { IfOk result (λ t. t.count ≡ all.count + 1) }
    ensures said { IfOk result (λ t. sums_view t.sums ≡ then_said all.count (sums_view all.sums) (ops_of all.count (chunk_view chunk.now))) }
{
    let Told {
        count: number,
        sums,
    } = all;
    let Some(count) = number.checked_add(1) else {
        return Err(AllocError);
    };
    let sums = sum_chunk(alloc, sums, chunk, number)?;
    Ok(Told { count, sums })
}

/// What all chunks say in the one shard.
fn whole_of(alloc: Global, told: Told) -> Whole
    requires { (sums_view told.sums).shards ≡ 1 }
    ensures part { part_view result.part ≡ (sums_view told.sums).said 0 }
    ensures uses { uses_view result.uses ≡ (sums_view told.sums).names }
{
    let Told { count, sums } = told;
    let Summary { parts, uses } = sums.into_summary();
    let part = only(alloc, parts);
    Whole { count, part, uses }
}

/// The one part.
fn only(alloc: Global, parts: Vec<Part>) -> Part
    requires { length parts.items ≡ 1 }
    ensures { IfSome (slice_get parts.items 0) (λ p. part_view result ≡ part_view p) }
{
    let mut parts = parts;
    match parts.pop() {
        Some(part) => part,
        None => Part::new(alloc, Keyed::new(&[])),
    }
}
