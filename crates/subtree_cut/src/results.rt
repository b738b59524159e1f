// What the pieces of a plan came to.
ghost use Rattle.std.specs.Prelude.{◌≡◌, [], ◌∷◌, MatchOption, IfOk};
ghost use Rattle.tree_expand.specs.View.{known_result};
ghost use Rattle.subtree_cut.specs.Results.{known_results};

use ld_tree::Trees;
use std::alloc::{AllocError, Global};
use std::marker::Model;
use std::vec;
use tree_expand::{ExpandStop, Refusal, copied};

/// Results that are left, in the order of their pieces.
#[derive(Drop)]
pub(crate) struct Results {
    rest: vec::IntoIter<Result<Trees, Refusal>>,
}

impl Model for Results {
    ghost use Rattle.std.specs.Prelude.{List, Result};
    ghost use Rattle.std.specs.Vec.Iter.{into_iter_items};
    ghost use Rattle.ld_model.specs.Tree.{Tree};
    ghost use Rattle.tree_expand.specs.declared.ranges.Refusal.{Refusal};
    ghost use Rattle.std.specs.Coded.{codes};
    ghost use Rattle.ld_model.specs.TreeCode.{tree_code};

    ghost Value = { List (Result (List Tree) Refusal) };

    ghost coded = { Prim.hlevel (codes, tree_code) };

    ghost view = { λ r. into_iter_items r.rest };
}

impl Results {
    /// Results, by value. One that is want of memory makes it fail.
    pub(crate) fn new(
        alloc: Global,
        results: Vec<Result<Trees, ExpandStop>>,
    ) -> Result<Results, AllocError>
        ensures { IfOk result (λ r. results.items ≡ known_results r) }
    {
        let mut known = Vec::with_capacity(alloc, results.len())?;
        for outcome in results {
            known.push(known_of(outcome)?)?;
        }
        Ok(Results {
            rest: known.into_iter(),
        })
    }

    /// Copies of results.
    pub(crate) fn copy_of(
        alloc: Global,
        results: &[Result<Trees, ExpandStop>],
    ) -> Result<Results, AllocError>
        ensures { IfOk result (λ r. results.now ≡ known_results r) }
    {
        let mut known = Vec::with_capacity(alloc, results.len())?;
        for outcome in results {
            known.push(copied(alloc, outcome.as_ref())?)?;
        }
        Ok(Results {
            rest: known.into_iter(),
        })
    }

    /// The next result, which is taken.
    pub(crate) fn next(&mut self) -> Option<Result<Trees, Refusal>>
        ensures { MatchOption result ((self.old ≡ []) × (self.new ≡ [])) (λ d. self.old ≡ d ∷ self.new) }
    {
        self.rest.next()
    }
}

/// A result that is no want of memory.
fn known_of(outcome: Result<Trees, ExpandStop>) -> Result<Result<Trees, Refusal>, AllocError>
    ensures { IfOk result (λ d. known_result d ≡ outcome) }
{
    match outcome {
        Ok(trees) => Ok(Ok(trees)),
        Err(stop) => match stop {
            ExpandStop::Refused { code, place } => Ok(Err(Refusal { code, place })),
            ExpandStop::OutOfMemory => Err(AllocError),
        },
    }
}
