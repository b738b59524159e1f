//! The pieces of a job, performed by workers that steal from one another.
//!
//! A [`Pool`] has a deque for each worker. Each piece has one home deque, from which it is taken once, by the deque's
//! owner or by a worker whose own deque is empty.
//!
//! [`run_pieces`] performs the pieces of a job. What is done with a piece is a [`Work`]. The answer is the one that a
//! single worker gives who takes the pieces in order and stops at the first that fails, whatever the workers' order was.
#![tactic(auto)]

mod crew;
mod deal;
mod finish;
mod fork;
mod gather;
mod hand;
mod pool;
mod run;
mod work;
mod worker;

pub use hand::Hand;
pub use pool::{Pool, PoolSeat};
pub use run::run_pieces;
pub use work::{Ran, Stop, Work, WorkStop};
