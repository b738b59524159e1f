//! What a worker has.
use crate::pool::PoolSeat;
use first_error::ErrSeat;

/// A worker: its seats, and what it has so far.
#[derive(Drop)]
pub struct Worker<P, A, E, S> {
    pub(crate) seat: S,
    pub(crate) pieces: PoolSeat,
    pub(crate) errors: ErrSeat<P>,
    pub(crate) answers: Vec<(u32, A)>,
    pub(crate) failure: Option<(u32, E)>,
}
