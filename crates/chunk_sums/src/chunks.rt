// The sums of chunks of a document that stays.
ghost use Rattle.std.specs.Prelude.{◌≡◌, ◌≤◌, [], OnOk, IfOk, IsTrue};
ghost use Rattle.std.specs.Option.{option_map};
ghost use Rattle.ld_model.specs.Tree.{array, trees_of};
ghost use Rattle.ld_tree.specs.View.{trees_view};
ghost use Rattle.node_model.specs.Walk.{walk};
ghost use Rattle.node_walk.specs.Seen.{to_view};
ghost use Rattle.op_model.specs.Noting.{noting, no_notes, is_placed, place_of_items, ops_of};
ghost use Rattle.op_model.specs.Running.{used, uses_of_all};
ghost use Rattle.sum_model.specs.Sums.{placed};
ghost use Rattle.op_types.specs.View.{name_view, op_view};
ghost use Rattle.chunk_ops.specs.Views.{chunk_view};
ghost use Rattle.subtree_summary.specs.OnTheWay.{sums_view, tell};
ghost use Rattle.subtree_summary.specs.Parts.{ArePartsOf};
ghost use Rattle.subtree_summary.specs.Uses.{uses_view};
ghost use Rattle.chunk_sums.specs.Summing.{then_said};

use crate::summing::Summing;
use chunk_ops::Chunk;
use ld_tree::Tree;
use node_visit::visit_items;
use node_walk::To;
use op_types::{Entries, Name, Op, Ops};
use std::alloc::{AllocError, Global};
use subtree_summary::{Keyed, Summary, Sums};

/// The sums of the chunk with this number, one for each of so many shards, and the names in them that need labels, in the order of first use
/// (JSON-LD 1.1 API, section 7.2). They are the sums of the chunk's operations, as `chunk_ops` notes them, but of a range no operation is noted.
/// A range has a subject exactly where it has a property, and only then may it be a reverse property's. The chunk stays: what the sums keep of it
/// is copied, and texts are shared.
///
/// It takes a time linear in the size of the chunk, as long as few of its names collide under the key of the hasher. The key has no say in what
/// comes out.
///
/// # Errors
///
/// `AllocError` where memory is refused, or where there are more nodes without an id, or more steps, than a `u64` can count.
pub fn summarise_chunk(
    alloc: Global,
    chunk: &Chunk<'_>,
    number: u32,
    shards: u32,
    hasher: Keyed,
) -> Result<Summary, AllocError>
    requires shards { (1 ≤ shards) × (shards ≤ 64) }
    requires placed { IsTrue (is_placed (chunk_view chunk.now)) }
    ensures parts { IfOk result (λ s. ArePartsOf shards (placed number (ops_of number (chunk_view chunk.now))) s.parts.items) }
    ensures uses { IfOk result (λ s. uses_view s.uses ≡ used [] (uses_of_all (ops_of number (chunk_view chunk.now)))) }
{
    let before = Sums::new(alloc, number, shards, hasher)?;
    let sums = sum_chunk(alloc, before, chunk, number)?;
    Ok(sums.into_summary())
}

/// What was said before, and then by the chunk with this number (JSON-LD 1.1 API, section 7.2). So chunks are summed one after another with no sum
/// for each, and what a later one says of a node is put behind what the earlier ones said as it comes. A range has a subject exactly where it has
/// a property, and only then may it be a reverse property's. The chunk stays.
///
/// It takes a time linear in the size of the chunk, as long as few of the names collide under the key of the hasher.
///
/// # Errors
///
/// `AllocError` where memory is refused, or where there are more nodes without an id, or more steps, than a `u64` can count.
pub fn sum_chunk(
    alloc: Global,
    before: Sums,
    chunk: &Chunk<'_>,
    number: u32,
) -> Result<Sums, AllocError>
    requires { IsTrue (is_placed (chunk_view chunk.now)) }
    ensures { IfOk result (λ s. sums_view s ≡ then_said number (sums_view before) (ops_of number (chunk_view chunk.now))) }
{
    match chunk {
        Chunk::Spine { ops } => {
            let sums = sum_spine(alloc, before, ops, number)?;
            Ok(sums)
        }
        Chunk::Range {
            items,
            graph,
            subject,
            property,
            reverse,
        } => {
            let to = place_of(subject, property, *reverse);
            let sums = sum_range(alloc, before, number, graph, to, items)?;
            Ok(sums)
        }
    }
}

/// What was said before, and then by the operations of a spine.
fn sum_spine(alloc: Global, before: Sums, ops: &Ops, number: u32) -> Result<Sums, AllocError>
    ensures { IfOk result (λ s. sums_view s ≡ then_said number (sums_view before) ops.now) }
{
    let mut sums = before;
    sums.turn_to(number);
    for op in ops {
        tell(alloc, &mut sums, op)?;
    }
    Ok(sums)
}

/// What was said before, and then on the way through items.
fn sum_range<'a>(
    alloc: Global,
    before: Sums,
    number: u32,
    graph: &'a Name,
    to: To<&'a Name>,
    items: &[Tree],
) -> Result<Sums, AllocError>
    ensures { IfOk result (λ s. sums_view s ≡ then_said number (sums_view before) (walk noting (name_view graph.now) (to_view name_view to.entry) (array (trees_of (trees_view items.now))) (record { state = no_notes number; items = [] })).state.ops) }
{
    let mut summing = Summing::after(before, number);
    let mut gathered = Entries::new(alloc);
    visit_items(alloc, &mut summing, graph, to, &mut gathered, items)?;
    Ok(summing.into_sums())
}

/// Where the items of a range go.
fn place_of<'a>(
    subject: &'a Option<Name>,
    property: &'a Option<Name>,
    reverse: bool,
) -> To<&'a Name>
    ensures { to_view name_view result ≡ place_of_items (option_map name_view subject.now) (option_map name_view property.now) reverse }
{
    match (subject, property) {
        (Some(subject), Some(property)) => {
            if reverse {
                To::Reverse(subject, property)
            } else {
                To::Under(subject, property)
            }
        }
        _ => To::Nowhere,
    }
}

/// Tells what an operation says. What is kept of it is copied.
fn tell(alloc: Global, sums: &mut Sums, op: &Op) -> Result<(), AllocError>
    ensures { OnOk result (sums_view sums.new ≡ tell (op_view op.now) (sums_view sums.old)) }
{
    match op {
        Op::UseLabel { name } => sums.use_label(name)?,
        Op::EnsureGraph { graph } => sums.ensure_graph(graph)?,
        Op::EnsureNode { graph, node } => sums.ensure_node(alloc, graph, node)?,
        Op::EnsureProperty {
            graph,
            node,
            property,
        } => sums.ensure_property(alloc, graph, node, property)?,
        Op::AddEntry {
            graph,
            node,
            property,
            entry,
        } => {
            let entry = entry.copy(alloc)?;
            sums.add_entry(alloc, graph, node, property, entry)?
        }
        Op::AppendList {
            graph,
            node,
            property,
            list,
        } => {
            let list = list.copy(alloc)?;
            sums.append_list(alloc, graph, node, property, list)?
        }
        Op::AddType { graph, node, name } => {
            let name = name.copy()?;
            sums.add_type(alloc, graph, node, name)?
        }
        Op::SetIndex { graph, node, index } => {
            let index = index.copy()?;
            sums.set_index(alloc, graph, node, index)?
        }
    }
    Ok(())
}
