// A place in a document.
ghost use Rattle.std.specs.Prelude.{◌≡◌, [], ◌∷◌, ◌++◌, length, IfOk, OnOk, OnErr, slice_get};
ghost use Rattle.std.specs.Option.{option_copied};

use ld_tree::Text;
use std::alloc::{AllocError, Global};
use std::marker::Model;

/// One step on the way from a document's root to a value in it.
#[derive(Debug, Drop)]
pub enum Step {
    /// To the value of this key of an object.
    Key(Text),
    /// To the value with this number, counted from 0, of an array.
    Item(u64),
}

/// The way from a document's root to a value in it. The root's is empty.
#[derive(Debug, Drop)]
pub struct Place {
    steps: Vec<Step>,
}

impl Model for Place {
    ghost use Rattle.std.specs.Prelude.{List};
    ghost use Rattle.ld_json.specs.declared.location.Step.{Step};

    ghost Value = { List Step };

    ghost view = { λ p. p.steps.items };
}

impl Place {
    /// The place of the root.
    pub fn new(alloc: Global) -> Place
        ensures { result ≡ [] }
    {
        Place {
            steps: Vec::new(alloc),
        }
    }

    /// How many steps there are.
    pub fn len(&self) -> usize
        ensures { result ≡ length self.now }
    {
        self.steps.len()
    }

    /// The step with this number, counted from 0; None where there is none.
    pub fn get(&self, number: usize) -> Option<&Step>
        ensures { option_copied result ≡ slice_get self.now number }
    {
        self.steps.get(number)
    }

    /// The steps, from the root on.
    pub fn as_slice(&self) -> &[Step]
        ensures { result.now ≡ self.now }
    {
        self.steps.as_slice()
    }

    /// Appends a step. Where memory is refused the place stays as it was.
    pub fn push(&mut self, step: Step) -> Result<(), AllocError>
        ensures ok { OnOk result (self.new ≡ self.old ++ step ∷ []) }
        ensures err { OnErr result (self.new ≡ self.old) }
    {
        self.steps.push(step)?;
        Ok(())
    }

    /// The place with this step in front: where its value stands, seen from one level further out.
    pub(crate) fn under(self, step: Step) -> Result<Place, AllocError>
        ensures { IfOk result (λ p. p ≡ step ∷ self) }
    {
        let Place { mut steps } = self;
        steps.insert(0, step)?;
        Ok(Place { steps })
    }
}
