//! What the workers handed back, put together.
ghost use Rattle.std.specs.Prelude.{◌≡◌, ℕ, ◌<◌, ◌⊎◌, ◌++◌, All, length, map, IfOk, OnOk, Ok, None, replicate};
ghost use Rattle.steal_pool.specs.Gathers.{Added, filled, all_filled, seats_of, IsFailureOf, IsInside};

use crate::worker::Worker;
use std::alloc::{AllocError, Global};

/// What the workers came to.
#[derive(Drop)]
pub struct Gathered<A, E, S> {
    pub(crate) seats: Vec<S>,
    pub(crate) slots: Vec<Option<A>>,
    pub(crate) failure: Option<(u32, E)>,
}

/// The workers, or want of memory where one of them met it.
pub(crate) fn all_back<T: Drop>(
    alloc: Global,
    backs: Vec<Result<T, AllocError>>,
) -> Result<Vec<T>, AllocError>
    ensures { IfOk result (λ workers. map (λ w. Ok w) workers.items ≡ backs.items) }
{
    let mut workers = Vec::with_capacity(alloc, backs.len())?;
    for back in backs {
        workers.push(back?)?;
    }
    Ok(workers)
}

/// A slot without an answer for each piece.
fn no_answers<A: Drop>(alloc: Global, pieces: usize) -> Result<Vec<Option<A>>, AllocError>
    ensures { IfOk result (λ slots. slots.items ≡ replicate pieces None) }
{
    let mut slots = Vec::with_capacity(alloc, pieces)?;
    for _ in 0..pieces {
        slots.push(None)?;
    }
    Ok(slots)
}

/// Puts each answer into the slot of its piece.
fn fill<A: Drop>(slots: &mut Vec<Option<A>>, answers: Vec<(u32, A)>)
    requires { All (λ x. x.0 < length slots.old.items) answers.items }
    ensures { slots.new.items ≡ filled slots.old.items answers.items }
{
    for (piece, answer) in answers {
        slots[piece as usize] = Some(answer);
    }
}

/// The lesser of two failures.
fn lesser<E: Drop>(one: Option<(u32, E)>, other: Option<(u32, E)>) -> Option<(u32, E)>
    ensures { (result ≡ one) ⊎ (result ≡ other) }
{
    match (one, other) {
        (Some(one), Some(other)) => {
            if other.0 < one.0 {
                Some(other)
            } else {
                Some(one)
            }
        }
        (Some(one), None) => Some(one),
        (None, other) => other,
    }
}

/// Adds what a worker has.
fn add<P, A: Drop, E: Drop, S: Drop>(
    gathered: &mut Gathered<A, E, S>,
    worker: Worker<P, A, E, S>,
) -> Result<(), AllocError>
    requires { All (λ x. x.0 < length gathered.old.slots.items) worker.answers.items }
    ensures { OnOk result (Added gathered.old worker gathered.new) }
{
    let Worker {
        seat,
        pieces: _,
        errors: _,
        answers,
        failure,
    } = worker;
    gathered.seats.push(seat)?;
    fill(&mut gathered.slots, answers);
    let known = gathered.failure.take();
    gathered.failure = lesser(known, failure);
    Ok(())
}

/// What the workers have, put together.
pub(crate) fn gather<P, A: Drop, E: Drop, S: Drop>(
    alloc: Global,
    pieces: usize,
    workers: Vec<Worker<P, A, E, S>>,
) -> Result<Gathered<A, E, S>, AllocError>
    requires { All (IsInside pieces) workers.items }
    ensures seats { IfOk result (λ gathered. gathered.seats.items ≡ seats_of workers.items) }
    ensures slots { IfOk result (λ gathered. gathered.slots.items ≡ all_filled (replicate pieces None) workers.items) }
    ensures failure { IfOk result (λ gathered. IsFailureOf workers.items gathered.failure) }
{
    let mut gathered = Gathered {
        seats: Vec::with_capacity(alloc, workers.len())?,
        slots: no_answers(alloc, pieces)?,
        failure: None,
    };
    for worker in workers {
        add(&mut gathered, worker)?;
    }
    Ok(gathered)
}
