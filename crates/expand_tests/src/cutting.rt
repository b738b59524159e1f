// The plans of documents.
use crate::case::CutCase;
use ctx_store::Store;
use ld_json::{ReadRefusal, Text, Tree, pointer_of, read_tree};
use std::alloc::{AllocError, Global};
use subtree_cut::{ExpandPiece, ExpandPlan, cut, is_legal};

/// The plan of a document, in one line; None where the document doesn't read.
pub(crate) fn plan_text(
    alloc: Global,
    store: &Store,
    case: &CutCase<'_>,
) -> Result<Option<String>, AllocError> {
    let base = match case.base {
        Some(text) => Some(Text::new(alloc, text)?),
        None => None,
    };
    match read_tree(alloc, case.document.as_bytes()) {
        Ok(tree) => Ok(Some(cut_text(alloc, store, &tree, base.as_ref(), case.weight)?)),
        Err(ReadRefusal::OutOfMemory) => Err(AllocError),
        Err(_) => Ok(None),
    }
}

/// Whether the plan is legal, whether it is once each piece stands in it twice, and its pieces.
fn cut_text(
    alloc: Global,
    store: &Store,
    tree: &Tree,
    base: Option<&Text>,
    weight: u64,
) -> Result<String, AllocError> {
    let plan = cut(alloc, tree, base, store, weight)?;
    let pieces = pieces_text(alloc, plan.pieces.as_slice())?;
    let once = is_legal(&plan);
    let again = cut(alloc, tree, base, store, weight)?;
    let twice = is_legal(&with_pieces(plan, again.pieces)?);
    format!(in alloc; "legal {once}, twice {twice}:{pieces}")
}

fn with_pieces<'a>(
    plan: ExpandPlan<'a>,
    pieces: Vec<ExpandPiece<'a>>,
) -> Result<ExpandPlan<'a>, AllocError> {
    let mut plan = plan;
    for piece in pieces {
        plan.pieces.push(piece)?;
    }
    Ok(plan)
}

fn pieces_text(alloc: Global, pieces: &[ExpandPiece<'_>]) -> Result<String, AllocError> {
    let mut out = String::new(alloc);
    for piece in pieces {
        push_piece(alloc, &mut out, piece)?;
    }
    Ok(out)
}

/// The place of a piece's array, the numbers of its first item and of the one behind its last, and what it is expanded with.
fn push_piece(alloc: Global, out: &mut String, piece: &ExpandPiece<'_>) -> Result<(), AllocError> {
    let array = pointer_of(alloc, &piece.array)?;
    let array = array.as_str();
    let from = piece.from;
    let to = from.saturating_add(piece.items.len() as u64);
    let property = match &piece.property {
        Some(property) => property.as_str(),
        None => "-",
    };
    let flag = if piece.from_map { ", from map" } else { "" };
    let text = format!(in alloc; " {array} {from}..{to} under {property}{flag};")?;
    out.push_str(text.as_str())?;
    Ok(())
}
