// Whole documents, of which some ranges are answered from elsewhere.
ghost use Rattle.std.specs.Prelude.{◌≡◌, ◌-◌, Some, IfOk, OnOk};
ghost use Rattle.ld_tree.specs.View.{view};
ghost use Rattle.expand_model.specs.Expand as expand;
ghost use Rattle.expand_types.specs.View.{trail_view, word_view};
ghost use Rattle.tree_expand.specs.Known.{AreRightWhereReached, answer_view, lent, range_from};
ghost use Rattle.tree_expand.specs.Outcomes.{ComesTo};
ghost use Rattle.tree_expand.specs.View.{given_view, known_result};

use crate::at::At;
use crate::document::document_over;
use crate::places::leads_by;
use crate::ranges::{Asked, Given, Ranges, Refusal};
use crate::stop::ExpandStop;
use ctx_store::Store;
use expand_types::{Options, Trail, place_of};
use ld_json::Place;
use ld_text::Text;
use ld_tree::{Tree, Trees};
use std::alloc::{AllocError, Global};

/// What a range of an array's items comes to.
#[derive(Clone, Copy)]
pub struct Answer<'a> {
    /// The number behind that of the range's last item.
    pub to: u64,
    /// The items of the expanded form, or why there are none.
    pub result: Result<&'a Trees, &'a ExpandStop>,
}

/// What ranges of a document's arrays come to.
pub trait Answers {
    ghost use Rattle.std.specs.Option.{option_map};
    ghost use Rattle.tree_expand.specs.Known.{KnownRanges, answer_view};

    /// What is answered, by the place of an array and the number of an item.
    ghost known: { Self → KnownRanges };

    /// What the range comes to that begins with the item of this number, of the array at this place; None where that is to be expanded.
    fn answer(&self, array: &Place, from: u64) -> Option<Answer<'_>>
        ensures { option_map answer_view result ≡ known self.now array.now from };
}

/// Ranges that are answered.
#[derive(Drop)]
pub(crate) struct Answered<'o, O> {
    answers: &'o O,
    /// The place of the array that was asked of last. It is made anew only where expansion comes to another array.
    array: Place,
}

impl<'o, O: Answers> Ranges for Answered<'o, O> {
    ghost use Rattle.range_laws.specs.Right.{keeps_each};
    ghost use Rattle.cut_model.specs.Answers.{answer_of};
    ghost use Rattle.tree_expand.specs.Known.{ranges_known};

    ghost asked = { λ ts n a s. record { answer = answer_of (ranges_known (O.known s.answers.now) a.place n); state = record s { array = a.place } } };

    ghost settles = { keeps_each };

    fn ask(
        &mut self,
        alloc: Global,
        at: &At<'_>,
        _rest: &[Tree],
        number: u64,
    ) -> Result<Asked, AllocError> {
        lead_to(alloc, at.trail, &mut self.array)?;
        let answers = self.answers;
        match answers.answer(&self.array, number) {
            None => Ok(Asked::Expands),
            Some(answer) => {
                let given = given(alloc, &answer, number)?;
                Ok(Asked::Answers(given))
            }
        }
    }

    fn settle(
        &mut self,
        _alloc: Global,
        _at: &At<'_>,
        _rest: &[Tree],
        _number: u64,
        _mark: usize,
    ) -> Result<bool, AllocError> {
        Ok(true)
    }
}

/// Makes a place the one at the end of this way. It stays where it is that one.
fn lead_to(alloc: Global, trail: &Trail<'_>, place: &mut Place) -> Result<(), AllocError>
    ensures { OnOk result (place.new ≡ trail_view trail.now) }
{
    if leads_by(trail, place.as_slice()) {
        return Ok(());
    }
    *place = place_of(alloc, trail)?;
    Ok(())
}

/// A copy of what is answered for a range that begins with the item of this number. Want of memory stays what it is.
fn given(alloc: Global, answer: &Answer<'_>, from: u64) -> Result<Given, AllocError>
    ensures { IfOk result (λ g. range_from from (answer_view answer.now) ≡ Some (record { behind = g.more; result = given_view g.outcome })) }
{
    let outcome = copied(alloc, answer.result)?;
    Ok(Given {
        more: behind(from, answer.to),
        outcome,
    })
}

/// How many items a range has behind its first one.
fn behind(from: u64, to: u64) -> usize
    ensures { result ≡ to - from - 1 }
{
    to.saturating_sub(from).saturating_sub(1) as usize
}

/// A copy of what a range came to.
///
/// # Errors
///
/// `AllocError` where memory is refused, or the range came to want of memory.
pub fn copied(
    alloc: Global,
    outcome: Result<&Trees, &ExpandStop>,
) -> Result<Result<Trees, Refusal>, AllocError>
    ensures { IfOk result (λ d. known_result d ≡ lent outcome.entry) }
{
    match outcome {
        Ok(trees) => Ok(Ok(copied_trees(alloc, trees)?)),
        Err(stop) => match stop {
            ExpandStop::Refused { code, place } => {
                let place = place_of(alloc, &Trail::From(place))?;
                Ok(Err(Refusal { code: *code, place }))
            }
            ExpandStop::OutOfMemory => Err(AllocError),
        },
    }
}

fn copied_trees(alloc: Global, trees: &Trees) -> Result<Trees, AllocError>
    ensures { IfOk result (λ ts. ts ≡ trees.now) }
{
    let mut copy = Trees::with_capacity(alloc, trees.len())?;
    for tree in trees {
        copy.push(tree.copy(alloc)?)?;
    }
    Ok(copy)
}

/// Expands a document as [`expand_document`](crate::expand_document) does, but takes what a range comes to from `answers`, where they have an
/// answer for the place of the array and the number of the item that expansion comes to, and expands the rest itself. The answers are copied.
///
/// Each answer that is taken is right: `to` is above the number asked for and at most the count of the array's items, and the result is what
/// [`expand_range`](crate::expand_range) gives for these items with what the array is expanded with there. What would be answered elsewhere, inside
/// such a range or behind an error, counts for nothing.
///
/// # Errors
///
/// - `Refused` exactly where expansion of the document fails, with the code and the place of its first error, which may lie in a range that is
///   answered.
/// - `OutOfMemory` where memory is refused, an answer is want of memory, or context processing has too many calls under way.
pub fn expand_with<'a, O: Answers>(
    alloc: Global,
    tree: &Tree,
    base: Option<&'a Text>,
    store: &'a Store,
    answers: &O,
) -> Result<Trees, ExpandStop>
    requires { AreRightWhereReached (record { base = word_view base; contexts = store.now }) (O.known answers.now) (view tree.now) }
    ensures { ComesTo result (λ ts. ts) (expand.document (record { base = word_view base.entry; contexts = store.now }) (view tree.now)) }
{
    let options = Options { base, store };
    let mut ranges = Answered {
        answers,
        array: Place::new(alloc),
    };
    document_over(alloc, &options, &mut ranges, tree)
}
