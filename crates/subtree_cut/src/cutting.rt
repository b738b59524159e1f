// Cutting a document by weight.
ghost use Rattle.std.specs.Prelude.{◌≡◌, ◌++◌, [], ◌∷◌, IfOk, OnOk, length};
ghost use Rattle.ld_tree.specs.View.{view};
ghost use Rattle.expand_types.specs.View.{options_view, word_view};
ghost use Rattle.cut_model.specs.Cutting as model;
ghost use Rattle.subtree_cut.specs.Choices.{note_view, notes_view};
ghost use Rattle.subtree_cut.specs.View.{AreHeld, plan_view};

use crate::plan::{ExpandPiece, ExpandPlan};
use crate::planning::{Note, Planner};
use ctx_store::Store;
use ctx_types::ActiveContext;
use expand_types::Options;
use ld_text::Text;
use ld_tree::Tree;
use std::alloc::{AllocError, Global};

/// A plan has no more pieces than this.
pub(crate) const MOST_PIECES: usize = 4096;

/// The plan of a document that is cut into pieces of about this weight, of which there are at most 4,096. A value weighs as much as there are
/// values in it, itself included. `base` is the document's base URL; the contexts that it names come from `store` alone. The weight
/// is to be at least 1: what 0 is doubled to stays 0, and there may be more pieces then.
///
/// The plan is `cut_model`'s. By the laws of `cut_laws` it is legal and faithful, where the keys of each map ascend, as they do in what is read.
///
/// # Errors
///
/// `AllocError` where memory is refused, or context processing has too many calls under way.
pub fn cut<'t, 'a>(
    alloc: Global,
    tree: &'t Tree,
    base: Option<&'a Text>,
    store: &'a Store,
    weight: u64,
) -> Result<ExpandPlan<'t>, AllocError>
    ensures { IfOk result (λ plan. plan_view plan ≡ model.cut (record { base = word_view base.entry; contexts = store.now }) (view tree.now) weight) }
{
    let options = Options { base, store };
    let planner = cut_within(alloc, &options, tree, weight, 64)?;
    plan_of(alloc, planner.into_notes())
}

/// The plan for this limit, or for the double of it where it has too many pieces, and so on, so many times. A plan that has too many is not made
/// to its end.
fn cut_within<'t>(
    alloc: Global,
    options: &Options<'_>,
    tree: &'t Tree,
    limit: u64,
    times: u32,
) -> Result<Planner<'t>, AllocError>
    ensures { IfOk result (λ p. p.pieces ≡ model.cut_within times (options_view options.now) (view tree.now) limit) }
{
    if times == 0 {
        let whole = Planner::new(alloc, options, tree, limit)?;
        return Ok(whole);
    }
    let planner = Planner::of_few(alloc, options, tree, limit)?;
    if planner.len() <= MOST_PIECES {
        return Ok(planner);
    }
    let doubled = cut_within(alloc, options, tree, limit.saturating_mul(2), times - 1)?;
    Ok(doubled)
}

/// The plan of what was noted.
fn plan_of(alloc: Global, notes: Vec<Note<'_>>) -> Result<ExpandPlan<'_>, AllocError>
    ensures { IfOk result (λ plan. plan_view plan ≡ notes_view notes.entry.items) }
{
    let mut plan = ExpandPlan {
        pieces: Vec::with_capacity(alloc, notes.len())?,
        contexts: Vec::with_capacity(alloc, notes.len())?,
    };
    for note in notes {
        add(&mut plan, note)?;
    }
    Ok(plan)
}

/// Adds a piece to a plan, with its context.
fn add<'t>(plan: &mut ExpandPlan<'t>, note: Note<'t>) -> Result<(), AllocError>
    requires { AreHeld plan.old }
    ensures held { OnOk result (AreHeld plan.new) }
    ensures added { OnOk result (plan_view plan.new ≡ plan_view plan.old ++ note_view note.entry ∷ []) }
{
    let number = number_of(plan.contexts.as_slice())?;
    let Note {
        place,
        from,
        items,
        context,
        property,
        from_map,
    } = note;
    plan.contexts.push(context)?;
    plan.pieces.push(ExpandPiece {
        array: place,
        from,
        items,
        context: number,
        property,
        from_map,
    })?;
    Ok(())
}

/// The number that the next context has.
fn number_of(contexts: &[ActiveContext]) -> Result<u32, AllocError>
    ensures { IfOk result (λ n. n ≡ length contexts.now) }
{
    let Ok(number) = u32::try_from(contexts.len()) else {
        return Err(AllocError);
    };
    Ok(number)
}
