// The operations of chunks, each by itself.
ghost use Rattle.std.specs.Prelude.{IfOk, IsTrue};
ghost use Rattle.op_model.specs.Noting.{is_placed};
ghost use Rattle.chunk_ops.specs.Views.{chunk_view};

use crate::saying::ops_text;
use chunk_ops::{Chunk, ops_of};
use ld_json::{Text, Tree};
use op_types::{Name, Ops};
use std::alloc::{AllocError, Global};

/// A range of items, as a case says it.
#[derive(Clone, Copy)]
pub(crate) struct Range<'a> {
    /// The number of the chunk.
    pub(crate) number: u32,
    /// The graph.
    graph: &'a str,
    /// Where the items stand in it; None where they stand under no property.
    stand: Option<Stand<'a>>,
    /// The items, as a JSON text.
    pub(crate) items: &'a str,
}

/// A property of a subject.
#[derive(Clone, Copy)]
struct Stand<'a> {
    subject: &'a str,
    property: &'a str,
    reverse: bool,
}

/// The range that the fields say: a number, a graph, a subject, a property, `reverse` and the items, with a space between two of them; `-`
/// stands for what isn't there. None where they say none.
pub(crate) fn range_of(fields: &str) -> Option<Range<'_>> {
    let (number, rest) = fields.split_once(' ')?;
    let (graph, rest) = rest.split_once(' ')?;
    let (subject, rest) = rest.split_once(' ')?;
    let (property, rest) = rest.split_once(' ')?;
    let (reverse, items) = rest.split_once(' ')?;
    let stand = Stand {
        subject,
        property,
        reverse: reverse == "reverse",
    };
    Some(Range {
        number: number.parse().ok()?,
        graph,
        stand: Some(stand).filter(|stand| stand.subject != "-"),
        items,
    })
}

/// The operations of a range, as a text.
pub(crate) fn range_text(
    alloc: Global,
    range: &Range<'_>,
    items: &[Tree],
) -> Result<String, AllocError> {
    let ops = range_ops(alloc, range, items)?;
    ops_text(alloc, &ops)
}

/// The operations of the spine with this number that has the operations of a range, as a text.
pub(crate) fn spine_text(
    alloc: Global,
    number: u32,
    range: &Range<'_>,
    items: &[Tree],
) -> Result<String, AllocError> {
    let given = range_ops(alloc, range, items)?;
    let ops = ops_of(alloc, &Chunk::Spine { ops: given }, number)?;
    ops_text(alloc, &ops)
}

/// The operations of a range.
pub(crate) fn range_ops(
    alloc: Global,
    range: &Range<'_>,
    items: &[Tree],
) -> Result<Ops, AllocError> {
    let chunk = chunk_of(alloc, range, items)?;
    let ops = ops_of(alloc, &chunk, range.number)?;
    Ok(ops)
}

/// The range, as a chunk.
pub(crate) fn chunk_of<'a>(
    alloc: Global,
    range: &Range<'_>,
    items: &'a [Tree],
) -> Result<Chunk<'a>, AllocError>
    ensures { IfOk result (λ c. IsTrue (is_placed (chunk_view c))) }
{
    let graph = name_in(alloc, range.graph)?;
    match range.stand {
        None => Ok(Chunk::Range {
            items,
            graph,
            subject: None,
            property: None,
            reverse: false,
        }),
        Some(stand) => {
            let subject = name_in(alloc, stand.subject)?;
            let property = name_in(alloc, stand.property)?;
            Ok(Chunk::Range {
                items,
                graph,
                subject: Some(subject),
                property: Some(property),
                reverse: stand.reverse,
            })
        }
    }
}

/// A name, as a case says it: `(2,5)` is that of the node with the number 5 among those without an id of the chunk with the number 2.
fn name_in(alloc: Global, text: &str) -> Result<Name, AllocError> {
    match numbers_of(text) {
        Some((chunk, number)) => Ok(Name::Fresh { chunk, number }),
        None => Ok(Name::of(Text::new(alloc, text)?)),
    }
}

fn numbers_of(text: &str) -> Option<(u32, u64)> {
    let inside = text.strip_prefix('(')?.strip_suffix(')')?;
    let (chunk, number) = inside.split_once(',')?;
    Some((chunk.parse().ok()?, number.parse().ok()?))
}
