// A gate that holds a piece, and counts what enters.
use ld_io::{Gate, Phase};
use std::sync::atomic::{AtomicU64, Ordering};

/// Holds piece 0 until piece 1 has ended, for a while, and counts the parts that enter.
#[derive(Drop)]
pub struct Watch {
    /// Whether piece 1 has ended.
    pub ended: AtomicU64,
    /// Whether that was seen from piece 0.
    pub met: AtomicU64,
    /// How many parts have entered.
    pub entered: AtomicU64,
    /// How many of piece 1 had entered when it ended.
    pub in_time: AtomicU64,
    ones: AtomicU64,
}

impl Watch {
    pub fn new() -> Watch {
        Watch {
            ended: AtomicU64::new(0),
            met: AtomicU64::new(0),
            entered: AtomicU64::new(0),
            in_time: AtomicU64::new(0),
            ones: AtomicU64::new(0),
        }
    }
}

impl Gate for Watch {
    fn before(&self, _phase: Phase, piece: u32) {
        if piece != 0 {
            return;
        }
        for _ in 0..20_000_000u64 {
            if self.ended.load(Ordering::SeqCst) == 1 {
                self.met.store(1, Ordering::SeqCst);
                return;
            }
            std::thread::yield_now();
        }
    }

    fn after(&self, _phase: Phase, piece: u32) {
        if piece == 1 {
            self.in_time
                .store(self.ones.load(Ordering::SeqCst), Ordering::SeqCst);
            self.ended.store(1, Ordering::SeqCst);
        }
    }

    fn entered(&self, _phase: Phase, _shard: u32, piece: u32) {
        self.entered.fetch_add(1, Ordering::SeqCst);
        if piece == 1 {
            self.ones.fetch_add(1, Ordering::SeqCst);
        }
    }
}
