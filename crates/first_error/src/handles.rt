//! The word, and a seat.
use crate::view::{Least, View};
use atomic_table::{Seat, Table};
use job_core::Piecework;
use std::alloc::Global;
use std::marker::Model;

/// The least piece of a job that was reported to fail.
#[derive(Drop)]
pub struct FirstError<J: Piecework> {
    pub(crate) table: Table<(), View<J>, J, Least, Global>,
    pub(crate) pieces: u32,
}

impl<J: Piecework> Model for FirstError<J> {
    ghost use Rattle.std.specs.Prelude.{◌≡◌};
    ghost use Rattle.first_error.specs.Word.{Shared, shared};

    ghost Value = { Shared J };

    ghost view = { λ e. shared e.table.shared.table_id e.table.shared.key };

    ghost invariant = { λ e. (e.table.shared.table_id.words ≡ 1) × (e.table.shared.table_id.slots ≡ 0) × (e.pieces ≡ J.count e.table.shared.key) };
}

/// The right to report to a [`FirstError`] and to look at it. It has no bytes, and goes with a worker.
#[derive(Drop)]
pub struct ErrSeat<J> {
    pub(crate) seat: Seat<(), View<J>>,
}

impl<J> Model for ErrSeat<J> {
    ghost use Rattle.std.specs.Prelude.{◌≡◌, []};
    ghost use Rattle.first_error.specs.Word.{Seen, seen};

    ghost Value = { Seen J };

    ghost view = { λ s. seen s.seat.table_id s.seat.me.0 };

    ghost invariant = { λ s. s.seat.me.1 ≡ [] };
}
