// Chunks of a document, and their operations.
ghost use Rattle.std.specs.Prelude.{◌≡◌, IfOk, IsTrue, []};
ghost use Rattle.std.specs.Option.{option_map};
ghost use Rattle.ld_model.specs.Tree.{array, trees_of};
ghost use Rattle.ld_tree.specs.View.{trees_view};
ghost use Rattle.node_model.specs.Walk.{walk};
ghost use Rattle.node_walk.specs.Seen.{to_view};
ghost use Rattle.op_model.specs.Noting.{noting, no_notes, is_placed, place_of_items, ops_of};
ghost use Rattle.op_types.specs.View.{name_view};
ghost use Rattle.chunk_ops.specs.Views.{chunk_view};

use crate::notes::Notes;
use ld_tree::{Tree, Trees};
use node_walk::{To, walk_items};
use op_types::{Entries, Name, Ops};
use std::alloc::{AllocError, Global};

/// Part of an expanded document.
#[derive(Drop)]
pub enum Chunk<'a> {
    /// Operations that are given as they are.
    Spine {
        /// The operations.
        ops: Ops,
    },
    /// Items of an array, which stands under a property of a subject, or is the document's own or that of `@graph` or `@included`.
    Range {
        /// The items.
        items: &'a [Tree],
        /// The graph that they stand in.
        graph: Name,
        /// The node that has the property; None where there is no property.
        subject: Option<Name>,
        /// The property; None where there is none.
        property: Option<Name>,
        /// Whether it is a reverse property.
        reverse: bool,
    },
}

/// The operations of the chunk with this number: what node map generation does to the node map on the way through it (JSON-LD 1.1 API,
/// section 7.2). A range has a subject exactly where it has a property, and only then may it be a reverse property's. Values are copied.
///
/// # Errors
///
/// `AllocError` where memory is refused, or where the chunk has more nodes without an id than a `u64` can count.
pub fn ops_of(alloc: Global, chunk: &Chunk<'_>, number: u32) -> Result<Ops, AllocError>
    requires { IsTrue (is_placed (chunk_view chunk.now)) }
    ensures { IfOk result (λ os. os ≡ ops_of number (chunk_view chunk.now)) }
{
    match chunk {
        Chunk::Spine { ops } => Ok(ops.copy(alloc)?),
        Chunk::Range {
            items,
            graph,
            subject,
            property,
            reverse,
        } => {
            let to = place_of(subject, property, *reverse);
            let items = copy_of(alloc, items)?;
            Ok(noted(alloc, number, graph, to, items)?)
        }
    }
}

/// Where the items of a range go.
fn place_of<'a>(
    subject: &'a Option<Name>,
    property: &'a Option<Name>,
    reverse: bool,
) -> To<&'a Name>
    ensures { to_view name_view result ≡ place_of_items (option_map name_view subject.now) (option_map name_view property.now) reverse }
{
    match (subject, property) {
        (Some(subject), Some(property)) => {
            if reverse {
                To::Reverse(subject, property)
            } else {
                To::Under(subject, property)
            }
        }
        _ => To::Nowhere,
    }
}

fn copy_of(alloc: Global, items: &[Tree]) -> Result<Trees, AllocError>
    ensures { IfOk result (λ copy. copy ≡ trees_view items.now) }
{
    let mut copy = Trees::with_capacity(alloc, items.len())?;
    for item in items {
        copy.push(item.copy(alloc)?)?;
    }
    Ok(copy)
}

/// What is noted on the way through items.
fn noted<'a>(
    alloc: Global,
    number: u32,
    graph: &'a Name,
    to: To<&'a Name>,
    items: Trees,
) -> Result<Ops, AllocError>
    ensures { IfOk result (λ os. os ≡ (walk noting (name_view graph.now) (to_view name_view to.entry) (array (trees_of items)) (record { state = no_notes number; items = [] })).state.ops) }
{
    let mut notes = Notes::new(alloc, number);
    let mut gathered = Entries::new(alloc);
    walk_items(alloc, &mut notes, graph, to, &mut gathered, items)?;
    Ok(notes.into_ops())
}
