// How deep the calls of a worker may go.
use crate::job::Periodic;
use crate::run_tests::{Came, OPEN, run};
use ld_io::{Gate, Phase};
use std::sync::atomic::{AtomicU64, Ordering};
use std::test::Fail;

/// As many calls as take 4 MB of stack, which is more than the deepest document takes.
const DEPTH: u32 = 4096;

/// Goes so many calls deep, each with a kilobyte of its own.
fn dive(depth: u32, above: &[u64; 128]) -> u64 {
    let mut own = [u64::from(depth); 128];
    let place = depth as usize % 128;
    own[place] = above[(place + 1) % 128].wrapping_add(1);
    if depth == 0 {
        return own[place];
    }
    dive(depth - 1, &own).wrapping_add(own[(place + 64) % 128])
}

/// Dives before each piece, and counts the dives that came back.
#[derive(Drop)]
struct Diver {
    back: AtomicU64,
}

impl Gate for Diver {
    fn before(&self, _phase: Phase, piece: u32) {
        if dive(DEPTH, &[u64::from(piece); 128]) > 0 {
            self.back.fetch_add(1, Ordering::SeqCst);
        }
    }

    fn after(&self, _phase: Phase, _piece: u32) {}

    fn entered(&self, _phase: Phase, _shard: u32, _piece: u32) {}
}

#[test]
fn a_worker_has_the_stack_for_the_deepest_document(rt: HostRuntime) -> Result<(), Fail> {
    let gate = Diver {
        back: AtomicU64::new(0),
    };
    let job = Periodic {
        pieces: 64,
        period: 0,
        at: 0,
    };
    let came = run(&rt, rt.alloc(), &job, &OPEN, 16, &gate)?;
    assert!(rt; came == Came::Ran(64) && gate.back.load(Ordering::SeqCst) == 64);
    Ok(())
}
