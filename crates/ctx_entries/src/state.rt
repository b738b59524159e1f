// What term creation changes.
ghost use Rattle.std.specs.Prelude.{◌≡◌, [], OnOk, Bool, true, false};
ghost use Rattle.std.specs.Map.{lookup};
ghost use Rattle.std.specs.BTreeMap.{is_at, insert_entry};
ghost use Rattle.ld_model.specs.Tree.{byte_order};
ghost use Rattle.ctx_model.specs.State.{mark, mark_of, is_undone};
ghost use Rattle.ctx_entries.specs.View.{state_view};

use ctx_types::ActiveContext;
use std::alloc::{AllocError, Global};
use std::collections::BTreeMap;
use std::marker::Model;

/// The map `defined`: false for a term that is being created, true for one that was. Contracts see it as a list of pairs in
/// the order of the terms' bytes.
#[derive(Drop)]
pub struct Marks {
    terms: BTreeMap<String, bool>,
}

impl Model for Marks {
    ghost use Rattle.std.specs.Prelude.{List, ℕ, Bool};

    ghost Value = { List (List ℕ × Bool) };

    ghost use Rattle.ctx_entries.specs.Marks.{marks_view};

    ghost view = { λ m. marks_view m.terms.entries };
}

impl Marks {
    pub fn new(alloc: Global) -> Marks
        ensures { result ≡ [] }
    {
        Marks {
            terms: BTreeMap::new(alloc),
        }
    }

    pub fn get(&self, term: &str) -> Option<bool>
        ensures { result ≡ lookup (is_at (byte_order term.now)) self.now }
    {
        match self.terms.get(term) {
            Some(done) => Some(*done),
            None => None,
        }
    }

    pub fn set(&mut self, alloc: Global, term: &str, done: bool) -> Result<(), AllocError>
        ensures { OnOk result (self.new ≡ insert_entry byte_order self.old term.now done) }
    {
        match self.terms.insert(String::from_str(alloc, term)?, done) {
            Ok(_) => Ok(()),
            Err(_) => Err(AllocError),
        }
    }
}

/// The active context and `defined`.
#[derive(Drop)]
pub struct Progress {
    pub context: ActiveContext,
    pub defined: Marks,
}

/// Whether `defined` does not say that the term was created.
pub fn is_undone(state: &Progress, term: &str) -> bool
    ensures { result ≡ is_undone (mark_of term.now (state_view state.now)) }
{
    match state.defined.get(term) {
        Some(done) => !done,
        None => true,
    }
}

pub fn mark(alloc: Global, state: &mut Progress, term: &str, done: bool) -> Result<(), AllocError>
    ensures { OnOk result (state_view state.new ≡ mark term.now done (state_view state.old)) }
{
    state.defined.set(alloc, term, done)
}
