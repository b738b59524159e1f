// Cutting an expanded document by weight.
ghost use Rattle.std.specs.Prelude.{◌≡◌, ◌≤◌, false, true, length, IfOk, OnOk, MatchOption};
ghost use Rattle.ld_model.specs.Tree.{array, trees_of};
ghost use Rattle.ld_tree.specs.View.{trees_view};
ghost use Rattle.node_model.specs.Walk.{nowhere};
ghost use Rattle.op_types.specs.View.{name_view};
ghost use Rattle.division_model.specs.Dividing.{divide, divided_by};
ghost use Rattle.division_model.specs.ByWeight as model;
ghost use Rattle.division_model.specs.ByWeight.{are_few, by_weight, chunks_at};
ghost use Rattle.division_cut.specs.Standing.{Makes, StandsFor};
ghost use Rattle.division_cut.specs.Views.{chunks_view, division_view};

use crate::dividing::divide_items;
use crate::division::Division;
use chunk_ops::Chunk;
use ld_tree::Tree;
use node_walk::To;
use op_types::Name;
use std::alloc::{AllocError, Global};

/// A document, divided into chunks.
#[derive(Drop)]
pub struct MapPlan<'a> {
    /// The chunks, which are the document's whole traversal in their order.
    pub chunks: Vec<Chunk<'a>>,
}

/// Cuts an expanded document into chunks of about this weight, which is at least 1: at most 4,096 of them. A value weighs as much as there are
/// values in it, itself included.
///
/// The arrays that may be cut are the document's own, and the values of `@graph`, of `@included`, of properties and of reverse properties. One
/// is cut where it has at least two items and weighs more than the limit, which begins as `weight` and is doubled until there are few enough
/// chunks. Neighbouring items are a range while their weights sum to at most the limit; an item that weighs more is opened if there is an array
/// in it to be cut. What node map generation does between ranges (JSON-LD 1.1 API, section 7.2) are spines.
///
/// Ranges borrow their items; the operations of spines share the names and have copies of the values. The time grows with the size of the
/// document, for each doubling of the limit that is needed at most.
///
/// # Errors
///
/// `AllocError` where memory is refused.
pub fn cut_expanded<'a>(
    alloc: Global,
    items: &'a [Tree],
    weight: u64,
) -> Result<MapPlan<'a>, AllocError>
    requires { 1 ≤ weight }
    ensures same { IfOk result (λ plan. chunks_view plan.chunks.items ≡ model.cut_expanded (trees_view items.now) weight) }
    ensures few { IfOk result (λ plan. length plan.chunks.items ≤ 4096) }
{
    let chunks = chunks_from(alloc, items, weight, 64)?;
    Ok(MapPlan { chunks })
}

/// The chunks for this limit, or for the double of it where there are too many, and so on, so many times.
fn chunks_from<'a>(
    alloc: Global,
    items: &'a [Tree],
    limit: u64,
    times: u32,
) -> Result<Vec<Chunk<'a>>, AllocError>
    requires { are_few (model.chunks_from times limit (trees_view items.now)) ≡ true }
    ensures { IfOk result (λ chunks. chunks_view chunks.items ≡ model.chunks_from times limit (trees_view items.now)) }
{
    if let Some(chunks) = few_chunks(alloc, items, limit)? {
        return Ok(chunks);
    }
    if times == 0 {
        unreachable!()
    }
    let chunks = chunks_from(alloc, items, limit.saturating_mul(2), times - 1)?;
    Ok(chunks)
}

/// The chunks for this limit, unless there are too many.
fn few_chunks<'a>(
    alloc: Global,
    items: &'a [Tree],
    limit: u64,
) -> Result<Option<Vec<Chunk<'a>>>, AllocError>
    ensures { IfOk result (λ found. MatchOption found (are_few (chunks_at limit (trees_view items.now)) ≡ false)
        (λ chunks. (are_few (chunks_at limit (trees_view items.now)) ≡ true) × (chunks_view chunks.items ≡ chunks_at limit (trees_view items.now)))) }
{
    let division = divided(alloc, items, limit)?;
    if division.is_over() {
        return Ok(None);
    }
    Ok(Some(division.into_chunks()))
}

/// The document, divided at this limit.
fn divided<'a>(alloc: Global, items: &'a [Tree], limit: u64) -> Result<Division<'a>, AllocError>
    ensures { IfOk result (λ d. StandsFor (division_view d) (divided_by (by_weight limit) (trees_view items.now))) }
{
    let graph = Name::default_graph(alloc)?;
    let mut division = Division::new(alloc);
    divide_top(alloc, limit, &mut division, &graph, items)?;
    division.end(alloc)?;
    Ok(division)
}

/// The document's own array, in this graph.
fn divide_top<'a, 'd>(
    alloc: Global,
    limit: u64,
    division: &mut Division<'d>,
    graph: &'a Name,
    items: &'d [Tree],
) -> Result<(), AllocError>
    ensures { OnOk result (Makes (division_view division.old) (division_view division.new)
        (divide (by_weight limit) (name_view graph.now) nowhere (array (trees_of (trees_view items.now))))) }
{
    divide_items(alloc, limit, division, graph, To::Nowhere, items)?;
    Ok(())
}
