//! What is known of a deque, its rule, and what each step on it tells.
use crossbeam_deque::protocol::{Outcome, Protocol, Split};
use crossbeam_deque::{Pass, Stealer, Worker};
use std::alloc::Global;
use std::collections::LinkedList;

/// What a seat knows of one deque. It exists in proofs alone: no value of it is made.
pub struct Hand {
    /// Its parts of the right to know the whole, of 1,024.
    pub parts: u64,
    /// The pieces whose home the deque is.
    pub home: LinkedList<u32>,
    /// Those that this seat took from it.
    pub taken: LinkedList<u32>,
}

/// Each piece whose home the deque is, is in it or was taken once.
pub struct Deals;

impl Protocol<u32, Hand> for Deals {
    ghost use Rattle.std.specs.Prelude.{[]};
    ghost use Rattle.steal_pool.specs.Deals.{hand, Dealt};

    ghost holds = { Dealt };

    ghost first = { hand 1024 [] [] };

    ghost guest = { hand 0 [] [] };
}

/// A piece is put.
pub struct Puts;

impl Outcome<u32, Hand> for Puts {
    ghost use Rattle.steal_pool.specs.Deals.{HasPut};

    ghost then = { HasPut };
}

/// A piece is taken, or none is there.
pub struct Takes;

impl Outcome<u32, Hand> for Takes {
    ghost use Rattle.steal_pool.specs.Deals.{HasTaken, FoundEmpty};

    ghost then = { HasTaken };

    ghost empty = { FoundEmpty };
}

/// One more seat may take.
pub struct Share;

impl Split<Hand> for Share {
    ghost use Rattle.steal_pool.specs.Deals.{kept, given};

    ghost left = { kept };

    ghost right = { given };
}

/// The last seat may take, and nobody puts any more.
pub struct Rest;

impl Split<Hand> for Rest {
    ghost use Rattle.steal_pool.specs.Deals.{left_over};

    ghost left = { left_over };

    ghost right = { λ v. v };
}

/// Who puts pieces into a deque.
pub type Owner = Worker<u32, Global, Hand, Deals>;

/// A handle by which pieces are taken from a deque.
pub type Thief = Stealer<u32, Global, Hand, Deals>;

/// The right to take from a deque.
pub type Token = Pass<u32, Hand>;
