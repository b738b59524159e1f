// What the pieces of a plan came to, put into the expanded document.
ghost use Rattle.std.specs.Prelude.{◌≡◌, List, slice_get};
ghost use Rattle.std.specs.Option.{option_copied};
ghost use Rattle.ld_tree.specs.View.{view};
ghost use Rattle.ctx_types.specs.declared.context.ActiveContext.{ActiveContext as ContextData};
ghost use Rattle.expand_model.specs.Expand as expand;
ghost use Rattle.expand_types.specs.View.{trail_view, word_view};
ghost use Rattle.cut_model.specs.Pieces.{begins_at, count_behind};
ghost use Rattle.cut_model.specs.Legal.{IsLegal};
ghost use Rattle.cut_model.specs.Reached.{IsFaithful};
ghost use Rattle.cut_model.specs.Grafting as model;
ghost use Rattle.tree_expand.specs.Outcomes.{ComesTo};
ghost use Rattle.subtree_cut.specs.Results.{AreResults, outcomes_of};
ghost use Rattle.subtree_cut.specs.View.{piece_view, plan_view};

use crate::plan::{ExpandPiece, ExpandPlan};
use crate::results::Results;
use ctx_store::Store;
use expand_types::{Options, Trail};
use ld_text::Text;
use ld_tree::{Tree, Trees};
use std::alloc::{AllocError, Global};
use tree_expand::{Asked, At, ExpandStop, Given, Ranges, document_over, leads_by};

/// Results that are taken in the order of the plan's pieces.
#[derive(Drop)]
pub(crate) struct Cursor<'g, 'a> {
    /// The plan.
    plan: &'g ExpandPlan<'a>,
    /// The number of the next piece.
    next: usize,
    /// The results of that piece and of those behind it.
    left: Results,
}

impl<'g, 'a> Ranges for Cursor<'g, 'a> {
    ghost use Rattle.range_laws.specs.Right.{keeps_each};
    ghost use Rattle.subtree_cut.specs.Cursor.{asks};

    ghost asked = { asks };

    ghost settles = { keeps_each };

    fn ask(
        &mut self,
        _alloc: Global,
        at: &At<'_>,
        _rest: &[Tree],
        number: u64,
    ) -> Result<Asked, AllocError> {
        let plan = self.plan;
        let Some(piece) = piece_at(plan.pieces.as_slice(), self.next) else {
            return Ok(Asked::Expands);
        };
        if begins(piece, at.trail, number) {
            let Some(outcome) = self.left.next() else {
                return Ok(Asked::Expands);
            };
            self.next += 1;
            let more = items_behind(piece);
            return Ok(Asked::Answers(Given { more, outcome }));
        }
        Ok(Asked::Expands)
    }

    fn settle(
        &mut self,
        _alloc: Global,
        _at: &At<'_>,
        _rest: &[Tree],
        _number: u64,
        _mark: usize,
    ) -> Result<bool, AllocError> {
        Ok(true)
    }
}

/// The piece with a number, if there is one.
fn piece_at<'p, 'a>(pieces: &'p [ExpandPiece<'a>], number: usize) -> Option<&'p ExpandPiece<'a>>
    ensures { option_copied result ≡ slice_get pieces.now number }
{
    pieces.get(number)
}

/// Whether a piece begins with this item of the array at the end of the way.
fn begins(piece: &ExpandPiece<'_>, trail: &Trail<'_>, number: u64) -> bool
    ensures { (contexts : List ContextData) → result ≡ begins_at (trail_view trail.now) number (piece_view contexts piece.now) }
{
    piece.from == number && leads_by(trail, piece.array.as_slice())
}

/// How many items a piece has behind its first one.
fn items_behind(piece: &ExpandPiece<'_>) -> usize
    ensures { (contexts : List ContextData) → result ≡ count_behind (piece_view contexts piece.now).items }
{
    piece.items.len().saturating_sub(1)
}

/// Expands a document as `tree_expand::expand_document` does, but takes what its pieces come to from `results`, which are those of the first
/// pieces of the plan: of all of them, or of those up to one that is an error. The plan is legal, and faithful to the document. The results are
/// copied; [`graft_owned`] takes and moves them.
///
/// # Errors
///
/// - `Refused` exactly where expansion of the document fails, with the code and the place of its first error, which may lie in a piece, before it
///   or behind it.
/// - `OutOfMemory` where memory is refused, a result is want of memory, or context processing has too many calls under way.
pub fn graft<'a>(
    alloc: Global,
    tree: &Tree,
    base: Option<&'a Text>,
    store: &'a Store,
    plan: &ExpandPlan<'_>,
    results: &[Result<Trees, ExpandStop>],
) -> Result<Trees, ExpandStop>
    requires legal { IsLegal (plan_view plan.now) }
    requires faithful { IsFaithful (record { base = word_view base; contexts = store.now }) (view tree.now) (plan_view plan.now) }
    requires results { AreResults (record { base = word_view base; contexts = store.now }) (plan_view plan.now) results.now }
    ensures { ComesTo result (λ ts. ts) (expand.document (record { base = word_view base.entry; contexts = store.now }) (view tree.now)) }
{
    let left = Results::copy_of(alloc, results)?;
    grafted(alloc, tree, base, store, plan, left)
}

/// Expands a document as [`graft`] does, and moves the results.
///
/// # Errors
///
/// As [`graft`].
pub fn graft_owned<'a>(
    alloc: Global,
    tree: &Tree,
    base: Option<&'a Text>,
    store: &'a Store,
    plan: &ExpandPlan<'_>,
    results: Vec<Result<Trees, ExpandStop>>,
) -> Result<Trees, ExpandStop>
    requires legal { IsLegal (plan_view plan.now) }
    requires faithful { IsFaithful (record { base = word_view base; contexts = store.now }) (view tree.now) (plan_view plan.now) }
    requires results { AreResults (record { base = word_view base; contexts = store.now }) (plan_view plan.now) results.items }
    ensures { ComesTo result (λ ts. ts) (expand.document (record { base = word_view base.entry; contexts = store.now }) (view tree.now)) }
{
    let left = Results::new(alloc, results)?;
    grafted(alloc, tree, base, store, plan, left)
}

fn grafted<'a>(
    alloc: Global,
    tree: &Tree,
    base: Option<&'a Text>,
    store: &'a Store,
    plan: &ExpandPlan<'_>,
    left: Results,
) -> Result<Trees, ExpandStop>
    requires legal { IsLegal (plan_view plan.now) }
    requires faithful { IsFaithful (record { base = word_view base; contexts = store.now }) (view tree.now) (plan_view plan.now) }
    requires results { model.AreResults (record { base = word_view base; contexts = store.now }) (plan_view plan.now) (outcomes_of left) }
    ensures { ComesTo result (λ ts. ts) (expand.document (record { base = word_view base.entry; contexts = store.now }) (view tree.now)) }
{
    let options = Options { base, store };
    let mut cursor = Cursor {
        plan,
        next: 0,
        left,
    };
    document_over(alloc, &options, &mut cursor, tree)
}
