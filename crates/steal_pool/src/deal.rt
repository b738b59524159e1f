//! How the pieces come into the deques, and the seats to their rights.
ghost use Rattle.std.specs.Prelude.{◌≡◌, ℕ, ◌+◌, ◌%◌, ◌<◌, ◌≤◌, All, [], ◌∷◌, length, map, true, false, IfOk, OnOk, MatchBool, Some, slice_get};
ghost use Rattle.crossbeam_deque.specs.Handles.{view, IsPassOf, worker_deque, stealer_deque, worker_view, worker_flavor, stealer_flavor, SameWorker};
ghost use Rattle.steal_pool.specs.Deals.{hand, times, HasPut, kept, given, left_over};
ghost use Rattle.steal_pool.specs.Pools.{Each, Dealing, Serving, IsFresh, token_deque};

use crate::hand::{Owner, Puts, Rest, Share, Thief, Token};
use std::alloc::{AllocError, Global};

/// Puts a piece that isn't there yet.
fn put(owner: &mut Owner, piece: u32) -> Result<(), AllocError>
    requires parts { (worker_view owner.old).parts ≡ 1024 }
    requires fresh { times piece (worker_view owner.old).home ≡ 0 }
    ensures same { SameWorker owner.old owner.new }
    ensures put { OnOk result (HasPut (worker_view owner.old) (piece ∷ []) (worker_view owner.new)) }
{
    match owner.push_as::<Puts>(piece) {
        Ok(()) => Ok(()),
        Err(_) => Err(AllocError),
    }
}

/// The right to take from a deque, for the last seat or for one more.
fn token(owner: &mut Owner, is_last: bool) -> Token
    requires some { 0 < (worker_view owner.old).parts }
    requires more { is_last ≡ false → 1 < (worker_view owner.old).parts }
    ensures same { SameWorker owner.old owner.new × IsPassOf (worker_deque owner.old) result }
    ensures views { MatchBool is_last
        ((worker_view owner.new ≡ left_over (worker_view owner.old)) × (view result ≡ worker_view owner.old))
        ((worker_view owner.new ≡ kept (worker_view owner.old)) × (view result ≡ given (worker_view owner.old))) }
{
    if is_last {
        owner.another::<Rest>()
    } else {
        owner.another::<Share>()
    }
}

/// The deques of a pool while they are filled.
#[derive(Drop)]
pub(crate) struct Dealer {
    pub(crate) pieces: u32,
    pub(crate) owners: Vec<Owner>,
}

impl Dealer {
    /// So many empty deques, each with room for its share of the pieces.
    pub(crate) fn open(alloc: Global, pieces: u32, deques: usize) -> Result<Dealer, AllocError>
        requires { (0 < deques) × (deques ≤ 16) }
        ensures { IfOk result (λ made. (made.pieces ≡ pieces) × (length made.owners.items ≡ deques) × Each (Dealing (length made.owners.items) 0 0) made.owners.items) }
    {
        let room = (pieces as usize).div_ceil(deques);
        let mut owners = Vec::with_capacity(alloc, deques)?;
        for _ in 0..deques {
            owners.push(Owner::fifo_as(alloc, room)?)?;
        }
        Ok(Dealer { pieces, owners })
    }

    /// Deals the next piece.
    fn deal_one(&mut self, piece: u32) -> Result<(), AllocError>
        requires some { 0 < length self.old.owners.items }
        requires dealt { Each (Dealing (length self.old.owners.items) piece 0) self.old.owners.items }
        ensures same { (self.new.pieces ≡ self.old.pieces) × (length self.new.owners.items ≡ length self.old.owners.items) }
        ensures dealt { OnOk result (Each (Dealing (length self.new.owners.items) (piece + 1) 0) self.new.owners.items) }
    {
        let at = piece as usize % self.owners.len();
        put(&mut self.owners[at], piece)
    }

    /// Deals the pieces in order, one to each deque in turn, so that a failing piece is known early wherever it stands.
    pub(crate) fn deal(&mut self) -> Result<(), AllocError>
        requires some { 0 < length self.old.owners.items }
        requires empty { Each (Dealing (length self.old.owners.items) 0 0) self.old.owners.items }
        ensures same { (self.new.pieces ≡ self.old.pieces) × (length self.new.owners.items ≡ length self.old.owners.items) }
        ensures dealt { OnOk result (Each (Dealing (length self.new.owners.items) self.new.pieces 0) self.new.owners.items) }
    {
        for piece in 0..self.pieces {
            self.deal_one(piece)?;
        }
        Ok(())
    }

    /// The right of a seat to take from one deque.
    fn token(&mut self, own: usize, at: usize) -> Token
        requires range { (own < length self.old.owners.items) × (at < length self.old.owners.items) }
        requires served { Each (Serving (length self.old.owners.items) self.old.pieces own at) self.old.owners.items }
        ensures same { (self.new.pieces ≡ self.old.pieces) × (map worker_deque self.new.owners.items ≡ map worker_deque self.old.owners.items) × (length self.new.owners.items ≡ length self.old.owners.items) }
        ensures served { Each (Serving (length self.new.owners.items) self.new.pieces own (at + 1)) self.new.owners.items }
        ensures token { IsFresh (map worker_deque self.old.owners.items) self.old.pieces at result }
    {
        let is_last = own + 1 == self.owners.len();
        token(&mut self.owners[at], is_last)
    }

    /// The rights of a seat, one for each deque.
    pub(crate) fn tokens(&mut self, alloc: Global, own: usize) -> Result<Vec<Token>, AllocError>
        requires range { own < length self.old.owners.items }
        requires served { Each (Dealing (length self.old.owners.items) self.old.pieces own) self.old.owners.items }
        ensures same { (self.new.pieces ≡ self.old.pieces) × (length self.new.owners.items ≡ length self.old.owners.items) }
        ensures deques { map worker_deque self.new.owners.items ≡ map worker_deque self.old.owners.items }
        ensures served { OnOk result (Each (Dealing (length self.new.owners.items) self.new.pieces (own + 1)) self.new.owners.items) }
        ensures tokens { IfOk result (λ made. (map token_deque made.items ≡ map worker_deque self.old.owners.items) × Each (IsFresh (map worker_deque self.old.owners.items) self.old.pieces) made.items) }
    {
        let mut made = Vec::with_capacity(alloc, self.owners.len())?;
        for at in 0..self.owners.len() {
            made.push(self.token(own, at))?;
        }
        Ok(made)
    }

    /// A handle to take from each deque.
    pub(crate) fn thieves(&self, alloc: Global) -> Result<Vec<Thief>, AllocError>
        requires { All (λ w. worker_flavor w ≡ 0) self.now.owners.items }
        ensures deques { IfOk result (λ made. map stealer_deque made.items ≡ map worker_deque self.now.owners.items) }
        ensures flavor { IfOk result (λ made. All (λ t. stealer_flavor t ≡ 0) made.items) }
    {
        let mut made = Vec::with_capacity(alloc, self.owners.len())?;
        for owner in self.owners.iter() {
            made.push(owner.stealer()?)?;
        }
        Ok(made)
    }
}
