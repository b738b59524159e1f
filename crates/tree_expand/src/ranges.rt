// Ranges of an array's items, whose outcomes may come from elsewhere.
ghost use Rattle.std.specs.Prelude.{◌≡◌, ℕ, Option, IfOk, OnOk};
ghost use Rattle.std.specs.Option.{is_none};
ghost use Rattle.ld_model.specs.Tree.{Trees as TreesData, trees_of};
ghost use Rattle.ld_tree.specs.View.{trees_view};
ghost use Rattle.expand_model.specs.Rules.{At as AtData};
ghost use Rattle.expand_model.specs.Over.{Asked as AskedData};
ghost use Rattle.tree_expand.specs.View.{asked_view, at_view, settled_state};

use crate::at::At;
use case_tables::Code;
use ld_json::Place;
use ld_tree::{Tree, Trees};
use std::alloc::{AllocError, Global};

/// The first error of a range.
#[derive(Debug, Drop)]
pub struct Refusal {
    /// The standard's error code (JSON-LD 1.1 API, section 9.6).
    pub code: Code,
    /// Where the error is.
    pub place: Place,
}

/// What a range comes to.
#[derive(Drop)]
pub struct Given {
    /// How many items the range has behind its first one.
    pub more: usize,
    /// The items of the expanded form, or the first error.
    pub outcome: Result<Trees, Refusal>,
}

/// What is done with an item.
#[derive(Drop)]
pub enum Asked {
    /// It is expanded.
    Expands,
    /// It is expanded, and the trial is settled then, with this mark.
    Tries(usize),
    /// It isn't expanded, since the outcome of a range that begins with it is known.
    Answers(Given),
}

/// What is asked of each item of an array before it is expanded. Expansion of the items behind it goes on with the state that this leaves.
pub trait Ranges {
    /// The answer, and the state that is left, by the items from this one on, its number, what the array is expanded with, and the state.
    ghost asked: { TreesData → ℕ → AtData → Self → AskedData Self };

    /// None where a trial is kept; the state to which it goes back, where it is dropped. By the same, the mark, and the state that the trial
    /// left.
    ghost settles: { TreesData → ℕ → AtData → ℕ → Self → Option Self };

    /// What is done with an item. `rest` are the items from it on, and `number` is its number in the array, which is expanded with `at`.
    fn ask(
        &mut self,
        alloc: Global,
        at: &At<'_>,
        rest: &[Tree],
        number: u64,
    ) -> Result<Asked, AllocError>
        ensures answer { IfOk result (λ g. asked_view g ≡ (asked (trees_of (trees_view rest.now)) number (at_view at.now) self.old).answer) }
        ensures state { OnOk result (self.new ≡ (asked (trees_of (trees_view rest.now)) number (at_view at.now) self.old).state) };

    /// Whether a trial is kept: what the item came to, its error too. Where it is dropped, the item comes to nothing.
    fn settle(
        &mut self,
        alloc: Global,
        at: &At<'_>,
        rest: &[Tree],
        number: u64,
        mark: usize,
    ) -> Result<bool, AllocError>
        ensures kept { IfOk result (λ b. b ≡ is_none (settles (trees_of (trees_view rest.now)) number (at_view at.now) mark self.old)) }
        ensures state { OnOk result (self.new ≡ settled_state self.old (settles (trees_of (trees_view rest.now)) number (at_view at.now) mark self.old)) };
}

/// No range is answered from elsewhere: each item is expanded.
#[derive(Drop)]
pub(crate) struct NoRanges {}

impl Ranges for NoRanges {
    ghost use Rattle.std.specs.Prelude.{None};
    ghost use Rattle.range_laws.specs.Right.{expands_each, keeps_each};

    ghost asked = { expands_each };

    ghost settles = { keeps_each };

    fn ask(
        &mut self,
        _alloc: Global,
        _at: &At<'_>,
        _rest: &[Tree],
        _number: u64,
    ) -> Result<Asked, AllocError> {
        Ok(Asked::Expands)
    }

    fn settle(
        &mut self,
        _alloc: Global,
        _at: &At<'_>,
        _rest: &[Tree],
        _number: u64,
        _mark: usize,
    ) -> Result<bool, AllocError> {
        Ok(true)
    }
}
