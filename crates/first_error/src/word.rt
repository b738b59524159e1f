//! The calls.
ghost use Rattle.std.specs.Prelude.{◌≡◌, ◌<◌, ◌≤◌, true, IfOk, MatchOption};
ghost use Rattle.first_error.specs.Word.{opened, again, joined, reported, looked, IsSeatOf};

use crate::handles::{ErrSeat, FirstError};
use crate::view::{Looks, Pairs, Reports};
use atomic_table::Table;
use job_core::Piecework;
use std::alloc::{AllocError, Global};

impl<J: Piecework> FirstError<J> {
    /// The word of a job, to which nothing was reported, and its first seat, which has not looked.
    ///
    /// # Errors
    ///
    /// `AllocError` where there is no memory.
    pub fn open(alloc: Global, job: &J) -> Result<(FirstError<J>, ErrSeat<J>), AllocError>
        ensures { IfOk result (λ made. IsSeatOf made.0 made.1 × (made.0.job ≡ job.now) × (made.1.view ≡ opened job.now (J.count job.now))) }
    {
        let pieces = job.pieces();
        let (table, seat) = Table::of_words(alloc, &[u64::from(pieces)], job)?;
        Ok((FirstError { table, pieces }, ErrSeat { seat }))
    }

    /// Reports a piece of the job that fails: one atomic step. From then on the seat knows of no greater piece than
    /// this, and no look of any seat finds one.
    pub fn report(&self, seat: &mut ErrSeat<J>, piece: u32)
        requires seat { IsSeatOf self.now seat.old }
        requires fails { (piece < J.count self.now.job) × (J.fails self.now.job piece ≡ true) }
        ensures seat { IsSeatOf self.now seat.new }
        ensures view { seat.new.view ≡ reported seat.old.view piece }
    {
        self.table
            .shared
            .fetch_min::<Reports>(&mut seat.seat, 0, u64::from(piece));
    }

    /// The least piece that was reported so far, or `None` where nothing was: one atomic step. The piece fails in the
    /// job, and this seat has never reported or seen a lesser one.
    pub fn least(&self, seat: &mut ErrSeat<J>) -> Option<u32>
        requires seat { IsSeatOf self.now seat.old }
        ensures seat { IsSeatOf self.now seat.new }
        ensures told { MatchOption result
            ((seat.new.view ≡ looked seat.old.view (J.count self.now.job)) × (J.count self.now.job ≤ seat.old.view.bound))
            (λ piece. (seat.new.view ≡ looked seat.old.view piece) × (piece < J.count self.now.job) × (J.fails self.now.job piece ≡ true) × (piece ≤ seat.old.view.bound)) }
    {
        let found = self.table.shared.load::<Looks>(&mut seat.seat, 0);
        if found == u64::from(self.pieces) {
            None
        } else {
            Some(found as u32)
        }
    }

    /// A further seat, which knows what this one knows and has not looked.
    pub fn split(&self, seat: &mut ErrSeat<J>) -> ErrSeat<J>
        requires seat { IsSeatOf self.now seat.old }
        ensures seats { IsSeatOf self.now seat.new × IsSeatOf self.now result }
        ensures views { (seat.new.view ≡ seat.old.view) × (result.view ≡ again seat.old.view) }
    {
        ErrSeat {
            seat: self.table.shared.split_seat::<Pairs>(&mut seat.seat),
        }
    }

    /// Ends the other seat. This one then knows what both knew; its looks stay its own.
    pub fn join(&self, seat: &mut ErrSeat<J>, other: ErrSeat<J>)
        requires seats { IsSeatOf self.now seat.old × IsSeatOf self.now other }
        ensures seat { IsSeatOf self.now seat.new }
        ensures view { seat.new.view ≡ joined seat.old.view other.view }
    {
        let ErrSeat { seat: other } = other;
        self.table.shared.join_seat::<Pairs>(&mut seat.seat, other);
    }

    /// The least piece that was ever reported, or `None` where nothing was. It is as [`least`](FirstError::least) says.
    pub fn close(self, seat: ErrSeat<J>) -> Option<u32>
        requires seat { IsSeatOf self seat }
        ensures told { MatchOption result
            (J.count self.job ≤ seat.view.bound)
            (λ piece. (piece < J.count self.job) × (J.fails self.job piece ≡ true) × (piece ≤ seat.view.bound)) }
    {
        let FirstError { table, pieces } = self;
        let ErrSeat { seat } = seat;
        let closed = table.close_with(seat);
        let found = closed.word(0);
        closed.free();
        if found == u64::from(pieces) {
            None
        } else {
            Some(found as u32)
        }
    }
}
