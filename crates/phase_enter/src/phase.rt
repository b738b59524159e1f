//! The call.
ghost use Rattle.std.specs.Prelude.{◌≡◌, ◌<◌, ◌≤◌, IfOk};
ghost use Rattle.shard_map.specs.Seats.{IsSeatOf};
ghost use Rattle.shard_map.specs.Views.{whole};
ghost use Rattle.steal_pool.specs.Works.{NoneFails};
ghost use Rattle.phase_enter.specs.Entries.{HasAll, AreRests};

use crate::enters::Enters;
use crate::parts::Parts;
use crate::seats::{join_all, split_all};
use ld_io::{Gate, Phase};
use shard_map::{MapSeat, ShardMap};
use std::alloc::{AllocError, Global};
use std::sync::Wait;
use std::thread::Threads;
use steal_pool::{Ran, Stop, run_pieces};

/// What is left when all parts of a job are in the map.
#[derive(Drop)]
pub struct AllEntered<J: Parts> {
    /// A seat of the map that has the whole share. Its list has each pair of a shard and a piece.
    pub seat: MapSeat<J>,
    /// What the pieces gave beside their parts, in order of pieces.
    pub rests: Vec<J::Rest>,
}

/// Enters the parts of all pieces in the map, with so many workers in threads. A worker tries each part at most 8
/// times. A part that it couldn't enter is entered when the workers have ended, so the map has each part once. The gate is
/// told of each piece that is performed and of each part that enters. The call joins its threads, so it returns only if the
/// gate does. Entering takes no memory.
///
/// # Errors
///
/// `AllocError` where there is no memory.
pub fn enter_all<J: Parts + Sync, G: Gate + Sync, R: Threads + Wait + Sync>(
    rt: &R,
    alloc: Global,
    job: &J,
    phase: Phase,
    workers: u32,
    map: &ShardMap<J>,
    mut seat: MapSeat<J>,
    gate: &G,
) -> Result<AllEntered<J>, AllocError>
where
    J::Part: Drop + Send,
    J::Rest: Drop + Send,
    requires fails { NoneFails (J.count job.now) (J.fails job.now) }
    requires map { map.now.job ≡ job.now }
    requires seat { IsSeatOf map.now seat × (seat.view.share ≡ whole) }
    requires workers { (0 < workers) × (workers ≤ 16) }
    ensures seat { IfOk result (λ all. IsSeatOf map.now all.seat × (all.seat.view.share ≡ whole)) }
    ensures entered { IfOk result (λ all. HasAll (J.shard_count job.now) (J.count job.now) all.seat) }
    ensures rests { IfOk result (λ all. AreRests (J.count job.now) (J.rest job.now) all.rests.items) }
{
    let rests = Vec::with_capacity(alloc, map.pieces() as usize)?;
    let seats = split_all(alloc, map, &mut seat, workers)?;
    let enters = Enters { map, phase, gate };
    match run_pieces(rt, alloc, job, phase, &enters, seats, gate) {
        Ok(Ran { answers, seats }) => {
            join_all(map, &mut seat, seats);
            let rests = enters.finish(&mut seat, answers, rests);
            Ok(AllEntered { seat, rests })
        }
        Err(Stop::OutOfMemory) => Err(AllocError),
        Err(Stop::Failed { .. }) => unreachable!("no piece fails"),
    }
}
