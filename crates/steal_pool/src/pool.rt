//! The pool.
ghost use Rattle.std.specs.Prelude.{◌≡◌, ℕ, ◌+◌, ◌<◌, ◌≤◌, [], ◌∷◌, length, map, IfOk, OnOk, MatchOption, vec_len};
ghost use Rattle.crossbeam_deque.specs.Handles.{view, IsPassOf, stealer_deque, stealer_flavor, worker_deque};
ghost use Rattle.steal_pool.specs.Deals.{HasTaken, FoundEmpty};
ghost use Rattle.steal_pool.specs.Pools.{Each, IsSeatOf, NothingTaken, AllEmpty, EmptyBetween, TookFrom, TookPiece, HasAll, Knows, CarriesNothing, Dealing, token_deque, known, Ready};

use crate::deal::Dealer;
use crate::hand::{Takes, Thief, Token};
use crossbeam_deque::Steal;
use std::alloc::{AllocError, Global};
use std::marker::Model;
use std::sync::Wait;

/// The deques of a pool.
#[derive(Drop)]
pub struct Pool {
    pub(crate) pieces: u32,
    pub(crate) thieves: Vec<Thief>,
}

impl Model for Pool {
    ghost use Rattle.std.specs.Prelude.{◌≡◌, All, map};
    ghost use Rattle.crossbeam_deque.specs.Handles.{stealer_deque, stealer_flavor};
    ghost use Rattle.steal_pool.specs.Pools.{Deques, deques};

    ghost Value = { Deques };

    ghost view = { λ p. deques p.pieces (map stealer_deque p.thieves.items) };

    ghost invariant = { λ p. All (λ t. stealer_flavor t ≡ 0) p.thieves.items };
}

/// The right to take pieces from each deque of a pool. One of them is the seat's own, from which it takes first.
#[derive(Drop)]
pub struct PoolSeat {
    pub(crate) own: usize,
    pub(crate) tokens: Vec<Token>,
}

impl Model for PoolSeat {
    ghost use Rattle.std.specs.Prelude.{All, map};
    ghost use Rattle.steal_pool.specs.Pools.{Hands, hands, CarriesNothing, token_deque, known};

    ghost Value = { Hands };

    ghost view = { λ s. hands s.own (map token_deque s.tokens.items) (map known s.tokens.items) };

    ghost invariant = { λ s. All CarriesNothing s.tokens.items };
}

/// Takes a piece from a deque, and tries again where another was faster.
fn take_one<R: Wait>(rt: &R, thief: &Thief, token: &mut Token) -> Option<u32>
    requires pass { IsPassOf (stealer_deque thief.now) token.old }
    requires parts { 0 < (view token.old).parts }
    requires flavor { stealer_flavor thief.now ≡ 0 }
    ensures same { IsPassOf (stealer_deque thief.now) token.new }
    ensures took { MatchOption result ((view token.new ≡ view token.old) × FoundEmpty (view token.old)) (λ x. HasTaken (view token.old) (x ∷ []) (view token.new)) }
{
    for _ in rt.forever() {
        match thief.steal_as::<Takes>(token) {
            Steal::Success(piece) => return Some(piece),
            Steal::Empty => return None,
            Steal::Retry => {}
        }
    }
    unreachable!()
}

/// Takes a piece from the deque of that number.
fn take_at<R: Wait>(rt: &R, thieves: &Vec<Thief>, tokens: &mut Vec<Token>, at: usize) -> Option<u32>
    requires range { at < length thieves.now.items }
    requires ready { Ready thieves.now.items tokens.old.items }
    ensures ready { Ready thieves.now.items tokens.new.items }
    ensures same { map token_deque tokens.new.items ≡ map token_deque tokens.old.items }
    ensures took { MatchOption result
        ((map known tokens.new.items ≡ map known tokens.old.items) × EmptyBetween (map known tokens.old.items) at (at + 1))
        (λ x. TookFrom at (map known tokens.old.items) x (map known tokens.new.items)) }
{
    take_one(rt, &thieves[at], &mut tokens[at])
}

/// Takes a piece from the first of some deques that has one.
fn take_between<R: Wait>(
    rt: &R,
    thieves: &Vec<Thief>,
    tokens: &mut Vec<Token>,
    from: usize,
    to: usize,
) -> Option<u32>
    requires range { to ≤ length thieves.now.items }
    requires ready { Ready thieves.now.items tokens.old.items }
    ensures ready { Ready thieves.now.items tokens.new.items }
    ensures same { map token_deque tokens.new.items ≡ map token_deque tokens.old.items }
    ensures took { MatchOption result
        ((map known tokens.new.items ≡ map known tokens.old.items) × EmptyBetween (map known tokens.old.items) from to)
        (λ x. (at : ℕ) × TookFrom at (map known tokens.old.items) x (map known tokens.new.items)) }
{
    for at in from..to {
        let piece = take_at(rt, thieves, tokens, at);
        if piece.is_some() {
            return piece;
        }
    }
    None
}

impl Pool {
    /// A pool with a deque for each seat, among which the pieces are dealt in order, and the seats.
    ///
    /// # Errors
    ///
    /// `AllocError` where there is no memory.
    pub fn open(alloc: Global, pieces: u32, seats: u32) -> Result<(Pool, Vec<PoolSeat>), AllocError>
        requires pieces { pieces ≤ 4096 }
        requires seats { (0 < seats) × (seats ≤ 16) }
        ensures pool { IfOk result (λ made. (made.0.pieces ≡ pieces) × (length made.0.which ≡ seats)) }
        ensures count { IfOk result (λ made. vec_len made.1 ≡ seats) }
        ensures seats { IfOk result (λ made. Each (λ at s. IsSeatOf made.0 s × (s.own ≡ at) × NothingTaken s.views) made.1.items) }
    {
        let mut dealer = Dealer::open(alloc, pieces, seats as usize)?;
        dealer.deal()?;
        let pool = Pool {
            pieces,
            thieves: dealer.thieves(alloc)?,
        };
        let seats = pool.seats(alloc, dealer)?;
        Ok((pool, seats))
    }

    /// The seats.
    fn seats(&self, alloc: Global, mut dealer: Dealer) -> Result<Vec<PoolSeat>, AllocError>
        requires pool { (self.now.which ≡ map worker_deque dealer.owners.items) × (self.now.pieces ≡ dealer.pieces) }
        requires dealt { Each (Dealing (length dealer.owners.items) dealer.pieces 0) dealer.owners.items }
        ensures count { IfOk result (λ made. vec_len made ≡ length dealer.owners.items) }
        ensures seats { IfOk result (λ made. Each (λ at s. IsSeatOf self.now s × (s.own ≡ at) × NothingTaken s.views) made.items) }
    {
        let mut seats = Vec::with_capacity(alloc, dealer.owners.len())?;
        for own in 0..dealer.owners.len() {
            seats.push(PoolSeat {
                own,
                tokens: dealer.tokens(alloc, own)?,
            })?;
        }
        Ok(seats)
    }

    /// The next piece that this seat takes: the first of its own deque, or of the next deque that has one. `None` only
    /// where each deque was found empty. No piece is given twice, over all seats. It waits only for other seats that
    /// take from the same deque at the same moment.
    pub fn next_piece<R: Wait>(&self, rt: &R, seat: &mut PoolSeat) -> Option<u32>
        requires seat { IsSeatOf self.now seat.old }
        ensures seat { IsSeatOf self.now seat.new }
        ensures took { MatchOption result
            ((seat.new ≡ seat.old) × AllEmpty seat.old.views × HasAll self.now.pieces seat.old.views)
            (λ piece. TookPiece self.now seat.old piece seat.new) }
    {
        let own = seat.own;
        let piece = take_between(rt, &self.thieves, &mut seat.tokens, own, self.thieves.len());
        if piece.is_some() {
            return piece;
        }
        take_between(rt, &self.thieves, &mut seat.tokens, 0, own)
    }
}
