// A document, expanded piece by piece.
ghost use Rattle.std.specs.Prelude.{IfOk, map};
ghost use Rattle.ld_tree.specs.View.{view};
ghost use Rattle.ctx_types.specs.ContextView.{context_view};
ghost use Rattle.expand_model.specs.Expand as expand;
ghost use Rattle.expand_types.specs.View.{word_view};
ghost use Rattle.cut_model.specs.Grafting.{piece_outcome};
ghost use Rattle.tree_expand.specs.Outcomes.{ComesTo};
ghost use Rattle.subtree_cut.specs.Results.{AreResults};
ghost use Rattle.subtree_cut.specs.View.{piece_in, piece_view, plan_view};

use crate::ascending::keys_ascend;
use crate::cutting::cut;
use crate::grafting::graft_owned;
use crate::plan::{ExpandPiece, ExpandPlan};
use ctx_store::Store;
use ctx_types::ActiveContext;
use cut_laws::{cuts_are_faithful, cuts_are_legal};
use ld_text::Text;
use ld_tree::{Tree, Trees};
use std::alloc::{AllocError, Global};
use tree_expand::{ExpandStop, expand_range};

/// Expands a document as `tree_expand::expand_document` does, piece by piece: it is cut by this weight, its pieces are expanded one after another, up
/// to the first that fails, and what they come to is grafted. The weight has no say in the outcome.
///
/// # Errors
///
/// - `Refused` exactly where expansion of the document fails, with the code and the place of its first error.
/// - `OutOfMemory` where memory is refused, or context processing has too many calls under way.
pub fn expand_by_weight<'a>(
    alloc: Global,
    tree: &Tree,
    base: Option<&'a Text>,
    store: &'a Store,
    weight: u64,
) -> Result<Trees, ExpandStop>
    ensures { ComesTo result (λ ts. ts) (expand.document (record { base = word_view base.entry; contexts = store.now }) (view tree.now)) }
{
    keys_ascend(tree);
    cuts_are_legal();
    cuts_are_faithful();
    let plan = cut(alloc, tree, base, store, weight)?;
    let results = results_of(alloc, &plan, base, store)?;
    let grafted = graft_owned(alloc, tree, base, store, &plan, results)?;
    Ok(grafted)
}

/// What the pieces of a plan come to, from the first one on: of all of them, or of those up to one that has no outcome.
fn results_of<'a>(
    alloc: Global,
    plan: &ExpandPlan<'_>,
    base: Option<&'a Text>,
    store: &'a Store,
) -> Result<Vec<Result<Trees, ExpandStop>>, AllocError>
    ensures { IfOk result (λ rs. AreResults (record { base = word_view base.entry; contexts = store.now }) (plan_view plan.now) rs.items) }
{
    let results = each_of(
        alloc,
        plan.contexts.as_slice(),
        plan.pieces.as_slice(),
        base,
        store,
    )?;
    Ok(results)
}

/// What these pieces come to, by the contexts of their plan.
fn each_of<'a>(
    alloc: Global,
    contexts: &[ActiveContext],
    pieces: &[ExpandPiece<'_>],
    base: Option<&'a Text>,
    store: &'a Store,
) -> Result<Vec<Result<Trees, ExpandStop>>, AllocError>
    ensures { IfOk result (λ rs. AreResults (record { base = word_view base.entry; contexts = store.now }) (map (piece_view contexts.now) pieces.now) rs.items) }
{
    let mut results = Vec::with_capacity(alloc, pieces.len())?;
    for piece in pieces {
        match outcome_of(alloc, contexts, piece, base, store) {
            Ok(items) => results.push(Ok(items))?,
            Err(stop) => {
                results.push(Err(stop))?;
                return Ok(results);
            }
        }
    }
    Ok(results)
}

/// What a piece comes to, by the contexts of its plan.
fn outcome_of<'a>(
    alloc: Global,
    contexts: &[ActiveContext],
    piece: &ExpandPiece<'_>,
    base: Option<&'a Text>,
    store: &'a Store,
) -> Result<Trees, ExpandStop>
    ensures { ComesTo result (λ ts. ts) (piece_outcome (record { base = word_view base.entry; contexts = store.now }) (piece_view contexts.now piece.now)) }
{
    match contexts.get(piece.context as usize) {
        Some(context) => outcome_in(alloc, context, piece, base, store),
        None => {
            let context = ActiveContext::initial(alloc, None)?;
            let outcome = outcome_in(alloc, &context, piece, base, store)?;
            Ok(outcome)
        }
    }
}

/// What a piece comes to in this context.
fn outcome_in<'a>(
    alloc: Global,
    context: &ActiveContext,
    piece: &ExpandPiece<'_>,
    base: Option<&'a Text>,
    store: &'a Store,
) -> Result<Trees, ExpandStop>
    ensures { ComesTo result (λ ts. ts) (piece_outcome (record { base = word_view base.entry; contexts = store.now }) (piece_in (context_view context.now) piece.now)) }
{
    if piece.from.checked_add(piece.items.len() as u64).is_none() {
        return Err(ExpandStop::OutOfMemory);
    }
    let outcome = expand_range(
        alloc,
        &*context,
        piece.property.as_ref(),
        piece.items,
        piece.from,
        piece.from_map,
        base,
        &*store,
        &piece.array,
    )?;
    Ok(outcome)
}
