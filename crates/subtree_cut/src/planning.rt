// Planning where a document is cut, for one limit.
ghost use Rattle.std.specs.Prelude.{◌≡◌, [], IfOk, OnOk, Ok, Err, length};
ghost use Rattle.case_tables.specs.declared.code.Code.TheVariants.{ContextOverflow};
ghost use Rattle.ld_model.specs.Tree.{trees_of};
ghost use Rattle.ld_tree.specs.View.{trees_view, view};
ghost use Rattle.expand_model.specs.Over as over;
ghost use Rattle.expand_types.specs.View.{options_view, scope_view, word_view};
ghost use Rattle.cut_model.specs.Planning as model;
ghost use Rattle.cut_model.specs.Reached.{piece_of};
ghost use Rattle.stop_laws.specs.Stopping.{chooses_or_stops};
ghost use Rattle.tree_expand.specs.View.{at_view};
ghost use Rattle.subtree_cut.specs.Choices.{note_view, notes_view, is_want as want};

use crate::choosing::{Choice, choose};
use crate::cutting::MOST_PIECES;
use crate::standing::{items_at, those_standing};
use case_tables::Code;
use ctx_types::ActiveContext;
use expand_types::{Options, place_of};
use ld_json::Place;
use ld_text::Text;
use ld_tree::{Tree, Trees};
use std::alloc::{AllocError, Global};
use std::marker::Model;
use tree_expand::{Asked, At, ExpandStop, Given, Ranges, Refusal, document_over};

/// A piece that is noted, with a context of its own, which has the term definitions in common with all others.
#[derive(Drop)]
pub(crate) struct Note<'t> {
    pub(crate) place: Place,
    pub(crate) from: u64,
    pub(crate) items: &'t [Tree],
    pub(crate) context: ActiveContext,
    pub(crate) property: Option<Text>,
    pub(crate) from_map: bool,
}

/// A plan under way.
#[derive(Drop)]
pub(crate) struct Planner<'t> {
    root: &'t Tree,
    limit: u64,
    notes: Vec<Note<'t>>,
}

impl<'t> Model for Planner<'t> {
    ghost use Rattle.std.specs.Coded.{codes};
    ghost use Rattle.ctx_types.specs.ContextCode.{settings_code};
    ghost use Rattle.cut_model.specs.Planning.{Plan};
    ghost use Rattle.subtree_cut.specs.PlanCode.{items_code};
    ghost use Rattle.subtree_cut.specs.Choices.{notes_view};

    ghost Value = { Plan };

    ghost coded = { Prim.hlevel (codes, settings_code, items_code) };

    ghost view = { λ p. record { limit = p.limit; pieces = notes_view p.notes.items } };
}

impl<'t> Planner<'t> {
    /// The plan of a document for a limit.
    pub(crate) fn new(
        alloc: Global,
        options: &Options<'_>,
        tree: &'t Tree,
        limit: u64,
    ) -> Result<Planner<'t>, AllocError>
        ensures { IfOk result (λ p. p ≡ over.state_of (over.document_over (options_view options.now) model.chooses model.opens_or_takes (view tree.now) (model.empty_plan limit))) }
    {
        let mut planner = Planner {
            root: tree,
            limit,
            notes: Vec::new(alloc),
        };
        let outcome = document_over(alloc, options, &mut planner, tree);
        if is_want(&outcome) {
            return Err(AllocError);
        }
        Ok(planner)
    }

    /// The same, but planning ends once there are more pieces than a plan has: the pieces are of no use then.
    pub(crate) fn of_few(
        alloc: Global,
        options: &Options<'_>,
        tree: &'t Tree,
        limit: u64,
    ) -> Result<Planner<'t>, AllocError>
        ensures { IfOk result (λ p. p ≡ over.state_of (over.document_over (options_view options.now) chooses_or_stops model.opens_or_takes (view tree.now) (model.empty_plan limit))) }
    {
        let mut few = FewPieces {
            planner: Planner {
                root: tree,
                limit,
                notes: Vec::new(alloc),
            },
        };
        let outcome = document_over(alloc, options, &mut few, tree);
        if is_want(&outcome) {
            return Err(AllocError);
        }
        let FewPieces { planner } = few;
        Ok(planner)
    }

    /// How many pieces there are.
    pub(crate) fn len(&self) -> usize
        ensures { result ≡ length self.now.pieces }
    {
        self.notes.len()
    }

    /// The pieces, as they were noted.
    pub(crate) fn into_notes(self) -> Vec<Note<'t>>
        ensures { notes_view result.items ≡ self.entry.pieces }
    {
        let Planner { notes, .. } = self;
        notes
    }

    /// Notes the range that begins with the first of these items, and has so many behind it.
    fn note(
        &mut self,
        alloc: Global,
        at: &At<'_>,
        rest: &[Tree],
        number: u64,
        behind: usize,
    ) -> Result<(), AllocError>
        ensures { OnOk result (self.new ≡ model.with_piece (piece_of behind (trees_of (trees_view rest.now)) number (at_view at.now)) self.old) }
    {
        let place = place_of(alloc, at.trail)?;
        let items = those_standing(items_at(self.root, &place), number, rest, behind)?;
        let note = note_of(alloc, at, place, items, number)?;
        self.push(note)?;
        Ok(())
    }

    fn push(&mut self, note: Note<'t>) -> Result<(), AllocError>
        ensures { OnOk result (self.new ≡ model.with_piece (note_view note.entry) self.old) }
    {
        self.notes.push(note)?;
        Ok(())
    }
}

impl<'t> Ranges for Planner<'t> {
    ghost use Rattle.cut_model.specs.Planning.{chooses, opens_or_takes};

    ghost asked = { chooses };

    ghost settles = { opens_or_takes };

    fn ask(
        &mut self,
        alloc: Global,
        at: &At<'_>,
        rest: &[Tree],
        number: u64,
    ) -> Result<Asked, AllocError> {
        match choose(self.limit, rest, number) {
            Choice::Walks => Ok(Asked::Expands),
            Choice::Tries => Ok(Asked::Tries(self.len())),
            Choice::Passes(behind) => Ok(Asked::Answers(nothing(alloc, behind))),
            Choice::Takes(behind) => {
                self.note(alloc, at, rest, number, behind)?;
                Ok(Asked::Answers(nothing(alloc, behind)))
            }
        }
    }

    fn settle(
        &mut self,
        alloc: Global,
        at: &At<'_>,
        rest: &[Tree],
        number: u64,
        mark: usize,
    ) -> Result<bool, AllocError> {
        if mark < self.len() {
            return Ok(true);
        }
        self.note(alloc, at, rest, number, 0)?;
        Ok(false)
    }
}

/// A plan under way, which ends once it has more pieces than a plan has.
#[derive(Drop)]
struct FewPieces<'t> {
    planner: Planner<'t>,
}

impl<'t> Model for FewPieces<'t> {
    ghost use Rattle.std.specs.Coded.{codes};
    ghost use Rattle.ctx_types.specs.ContextCode.{settings_code};
    ghost use Rattle.cut_model.specs.Planning.{Plan};
    ghost use Rattle.subtree_cut.specs.PlanCode.{items_code};

    ghost Value = { Plan };

    ghost coded = { Prim.hlevel (codes, settings_code, items_code) };

    ghost view = { λ p. p.planner };
}

impl<'t> Ranges for FewPieces<'t> {
    ghost use Rattle.cut_model.specs.Planning.{opens_or_takes};
    ghost use Rattle.stop_laws.specs.Stopping.{chooses_or_stops};

    ghost asked = { chooses_or_stops };

    ghost settles = { opens_or_takes };

    fn ask(
        &mut self,
        alloc: Global,
        at: &At<'_>,
        rest: &[Tree],
        number: u64,
    ) -> Result<Asked, AllocError> {
        if self.planner.len() > MOST_PIECES {
            return Ok(Asked::Answers(stopped(alloc)));
        }
        let asked = self.planner.ask(alloc, at, rest, number)?;
        Ok(asked)
    }

    fn settle(
        &mut self,
        alloc: Global,
        at: &At<'_>,
        rest: &[Tree],
        number: u64,
        mark: usize,
    ) -> Result<bool, AllocError> {
        let kept = self.planner.settle(alloc, at, rest, number, mark)?;
        Ok(kept)
    }
}

/// The range of these items, the first of which has this number.
fn note_of<'t>(
    alloc: Global,
    at: &At<'_>,
    place: Place,
    items: &'t [Tree],
    number: u64,
) -> Result<Note<'t>, AllocError>
    ensures { IfOk result (λ x. note_view x ≡ record { at = record { scope = scope_view at.now.scope; place = place }; from = number; items = trees_of (trees_view items.entry.now) }) }
{
    let context = at.scope.context.copy(alloc)?;
    let property = copied(alloc, at.scope.property)?;
    Ok(Note {
        place,
        from: number,
        items,
        context,
        property,
        from_map: at.scope.from_map,
    })
}

/// What comes to no items, and has so many behind its first one.
fn nothing(alloc: Global, more: usize) -> Given
    ensures { result ≡ record { more = more; outcome = Ok [] } }
{
    Given {
        more,
        outcome: Ok(Trees::new(alloc)),
    }
}

/// What ends planning. Nobody sees the error.
fn stopped(alloc: Global) -> Given
    ensures { result ≡ record { more = 0; outcome = Err (record { code = ContextOverflow; place = [] }) } }
{
    Given {
        more: 0,
        outcome: Err(Refusal {
            code: Code::ContextOverflow,
            place: Place::new(alloc),
        }),
    }
}

/// Whether memory was refused.
fn is_want(outcome: &Result<Trees, ExpandStop>) -> bool
    ensures { result ≡ want outcome.now }
{
    match outcome {
        Ok(_) => false,
        Err(stop) => match stop {
            ExpandStop::OutOfMemory => true,
            ExpandStop::Refused { code: _, place: _ } => false,
        },
    }
}

fn copied(alloc: Global, text: Option<&str>) -> Result<Option<Text>, AllocError>
    ensures { IfOk result (λ t. t ≡ word_view text.entry) }
{
    match text {
        None => Ok(None),
        Some(text) => Ok(Some(Text::new(alloc, text)?)),
    }
}
