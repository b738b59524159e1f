// The state of a job, and the public calls.
ghost use Rattle.std.specs.Prelude.{◌≡◌, ◌≤◌, length, MatchOption, IsOk, IfOk};
ghost use Rattle.job_core.specs.Machine.{start, refusal, after, outcome_of};

mod effects;
mod guards;
mod reads;

use crate::place::Place;
use crate::{JobStep, NotAllowed, Outcome};
use std::alloc::{AllocError, Global};
use std::marker::Model;

/// The state of a job: where each piece is, who has which turn, and what was entered where.
#[derive(Drop)]
pub struct JobState {
    fails: Vec<bool>,
    places: Vec<Place>,
    least: u32,
    seen: Vec<u32>,
    turns: Vec<Option<u32>>,
    entered: Vec<Vec<bool>>,
    closed: bool,
}

impl Model for JobState {
    ghost use Rattle.std.specs.Prelude.{map};
    ghost use Rattle.job_core.specs.Machine.{Job, job_of, IsSized};

    ghost Value = { Job };

    ghost view = { λ s. job_of s.fails.items s.places.items s.least s.seen.items s.turns.items (map (λ row. row.items) s.entered.items) s.closed };

    ghost invariant = { λ s. IsSized (job_of s.fails.items s.places.items s.least s.seen.items s.turns.items (map (λ row. row.items) s.entered.items) s.closed) };
}

impl JobState {
    /// A job at its start: `fails` says of each piece whether it fails. Every piece waits, every turn is free and
    /// nothing is entered. All the memory that the job will need is taken here.
    pub fn start(
        alloc: Global,
        fails: &[bool],
        shards: u32,
        seats: u32,
    ) -> Result<JobState, AllocError>
        requires pieces { length fails.now ≤ 4096 }
        requires shards { shards ≤ 64 }
        requires seats { seats ≤ 17 }
        ensures { IfOk result (λ job. job ≡ start fails.now shards seats) }
    {
        let count = fails.len();
        let shards = shards as usize;
        let mut entered = Vec::with_capacity(alloc, shards)?;
        for _ in 0..shards {
            entered.push(Vec::from_elem(alloc, false, count)?)?;
        }
        Ok(JobState {
            fails: Vec::from_slice(alloc, fails)?,
            places: Vec::from_elem(alloc, Place::Waiting, count)?,
            least: count as u32,
            seen: Vec::from_elem(alloc, count as u32, seats as usize)?,
            turns: Vec::from_elem(alloc, None, shards)?,
            entered,
            closed: false,
        })
    }

    /// Makes the step, or says why it isn't allowed and changes nothing. A closed job refuses every step, then a
    /// number out of range is refused, and then the step's guards are tested in order. Takes constant time, but for
    /// `Close`, which looks at every piece and shard.
    pub fn step(&mut self, step: JobStep) -> Result<(), NotAllowed>
        ensures { MatchOption (refusal self.old step)
            (IsOk result × (self.new ≡ after self.old step))
            (λ kept. (result ≡ Err record { step = step; kept = kept }) × (self.new ≡ self.old)) }
    {
        if let Err(kept) = self.allows(step) {
            return Err(NotAllowed { step, kept });
        }
        self.make(step);
        Ok(())
    }

    /// Whether `Close` was made.
    pub fn finished(&self) -> bool
        ensures { result ≡ self.now.closed }
    {
        self.closed
    }

    /// What the job has come to: `Unclosed` before `Close`, and from then on the least failure, or that all pieces
    /// were entered.
    pub fn outcome(&self) -> Outcome
        ensures { result ≡ outcome_of self.now }
    {
        if !self.closed {
            return Outcome::Unclosed;
        }
        if (self.least as usize) < self.fails.len() {
            Outcome::FirstFailure { piece: self.least }
        } else {
            Outcome::AllEntered
        }
    }
}
