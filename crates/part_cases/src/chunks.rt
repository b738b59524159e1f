// The chunks that a document is cut into by weight.

use crate::saying::{ops_text, push_name, push_value};
use chunk_ops::Chunk;
use division_cut::cut_expanded;
use ld_json::Tree;
use op_types::Name;
use std::alloc::{AllocError, Global};

/// A weight and the document behind it. None where the text says none, or where the weight is 0.
pub(crate) fn weighed_of(text: &str) -> Option<(u64, &str)> {
    let (weight, items) = text.split_once(' ')?;
    let weight: u64 = weight.parse().ok()?;
    if weight == 0 {
        return None;
    }
    Some((weight, items))
}

/// The chunks of these items, as a text, with a bar between two of them. A weight of 0 is taken for 1.
pub(crate) fn chunks_text(
    alloc: Global,
    weight: u64,
    items: &[Tree],
) -> Result<String, AllocError> {
    let weight = if weight == 0 { 1 } else { weight };
    let plan = cut_expanded(alloc, items, weight)?;
    let mut out = String::new(alloc);
    for chunk in plan.chunks.as_slice() {
        if !out.is_empty() {
            out.push_str(" | ")?;
        }
        push_chunk(alloc, &mut out, chunk)?;
    }
    if out.is_empty() {
        out.push_str("no chunk")?;
    }
    Ok(out)
}

/// A spine is a word with its operations, and a range one with its graph, its subject and its property and then its items.
fn push_chunk(alloc: Global, out: &mut String, chunk: &Chunk<'_>) -> Result<(), AllocError> {
    match chunk {
        Chunk::Spine { ops } => {
            out.push_str("spine: ")?;
            let text = ops_text(alloc, ops)?;
            out.push_str(text.as_str())
        }
        Chunk::Range {
            items,
            graph,
            subject,
            property,
            reverse,
        } => {
            out.push_str("range")?;
            push_stand(alloc, out, graph)?;
            if let Some(subject) = subject {
                push_stand(alloc, out, subject)?;
            }
            if let Some(property) = property {
                push_stand(alloc, out, property)?;
            }
            if *reverse {
                out.push_str(" reverse")?;
            }
            push_items(alloc, out, items)
        }
    }
}

fn push_stand(alloc: Global, out: &mut String, name: &Name) -> Result<(), AllocError> {
    out.push_str(" ")?;
    push_name(alloc, out, name)
}

fn push_items(alloc: Global, out: &mut String, items: &[Tree]) -> Result<(), AllocError> {
    out.push_str(":")?;
    for item in items {
        out.push_str(" ")?;
        push_value(alloc, out, item)?;
    }
    Ok(())
}
