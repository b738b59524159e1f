//! A sink in memory, for tests and for callers that want the bytes at hand.
ghost use Rattle.std.specs.Prelude.{◌≡◌, ℕ, ◌<◌, ◌≤◌, ◌+◌, [], ◌++◌, length, false, not, Some, IfOk, OnOk, OnErr, IsOk, is_ok, vec_len, vec_capacity};
ghost use Rattle.std.specs.Io.{WritesAtMost};
ghost use Rattle.std.specs.Io.KnownBytes.{WriteAppends, Keeps};
ghost use Rattle.ld_io.specs.Faults.{CountsFaults, is_failing};
ghost use Rattle.ld_io.specs.Sinks.{TakesSome, IsFinished, WriteUnfinishes};
ghost use Rattle.ld_io.specs.SinkState.{taken_count, is_write_failing, after_write, after_finish};

use super::calls::is_failing;
use super::traits::{Failed, Sink};
use std::alloc::{AllocError, Global};
use std::marker::Model;

/// Appends bytes for which there is room.
fn append_reserved(held: &mut Vec<u8>, bytes: &[u8])
    requires { vec_len held.old + length bytes.now ≤ vec_capacity held.old }
    ensures items { held.new.items ≡ held.old.items ++ bytes.now }
    ensures capacity { vec_capacity held.old ≤ vec_capacity held.new }
{
    held.extend_from_slice(bytes).unwrap();
}

/// A sink whose bytes lie in memory. Its calls of `write` and `finish` are numbered together from
/// 0; the 2^64th and each later one has the number 2^64 - 1.
#[derive(Drop)]
pub struct ListSink {
    held: Vec<u8>,
    finished: bool,
    step: u32,
    failing: Vec<u64>,
    room: usize,
    calls: u64,
    faults: u64,
}

impl Model for ListSink {
    ghost use Rattle.std.specs.Prelude.{ℕ, ◌<◌, ◌≤◌, vec_len, vec_capacity};
    ghost use Rattle.ld_io.specs.SinkState.{SinkState};

    ghost Value = { SinkState };

    ghost view = { λ s. record { held = s.held.items; finished = s.finished; step = s.step; failing = s.failing.items; room = s.room; calls = s.calls; faults = s.faults } };

    ghost invariant = { λ s. (0 < s.step) × (vec_len s.held ≤ s.room) × (s.room ≤ vec_capacity s.held) };
}

impl ListSink {
    /// A sink that holds nothing yet, and is not finished. It takes at most `step` bytes per call
    /// and `room` bytes in all, for which it takes the memory now. The calls whose numbers are in
    /// `failing` fail, and so does a write of some bytes where no room is left; no others do.
    ///
    /// # Errors
    ///
    /// `AllocError` where there is no memory for `room` bytes.
    pub fn new(
        alloc: Global,
        step: u32,
        failing: Vec<u64>,
        room: u64,
    ) -> Result<ListSink, AllocError>
        requires { 0 < step }
        ensures { IfOk result (λ s. s ≡ record { held = []; finished = false; step = step; failing = failing.items; room = room; calls = 0; faults = 0 }) }
    {
        let room = room as usize;
        let held = Vec::with_capacity(alloc, room)?;
        Ok(ListSink {
            held,
            finished: false,
            step,
            failing,
            room,
            calls: 0,
            faults: 0,
        })
    }

    /// The bytes that it holds.
    pub fn bytes(&self) -> &[u8]
        ensures { result.now ≡ self.now.held }
    {
        self.held.as_slice()
    }
}

impl Sink for ListSink {
    ghost held = { λ s. Some s.held };

    ghost finished = { λ s. Some s.finished };

    ghost faults = { λ s. s.faults };

    fn write(&mut self, bytes: &[u8]) -> Result<usize, Failed>
        ensures bound { WritesAtMost result bytes.now }
        ensures some { TakesSome result bytes.now }
        ensures bytes { WriteAppends (Some self.old.held) (Some self.new.held) result bytes.now }
        ensures finished { WriteUnfinishes (Some self.old.finished) (Some self.new.finished) result }
        ensures faults { CountsFaults self.old.faults self.new.faults result }
        ensures ok { is_ok result ≡ not (is_write_failing self.old (length bytes.now)) }
        ensures count { IfOk result (λ n. n ≡ taken_count self.old (length bytes.now)) }
        ensures after { self.new ≡ after_write self.old bytes.now }
    {
        let fails = is_failing(self.failing.as_slice(), self.calls);
        let left = self.room - self.held.len();
        self.calls = self.calls.saturating_add(1);
        if fails || (left == 0 && !bytes.is_empty()) {
            self.faults = self.faults.saturating_add(1);
            return Err(Failed);
        }
        let count = bytes.len().min(self.step as usize).min(left);
        append_reserved(&mut self.held, &bytes[..count]);
        if count > 0 {
            self.finished = false;
        }
        Ok(count)
    }

    fn finish(&mut self) -> Result<(), Failed>
        ensures bytes { Keeps (Some self.old.held) (Some self.new.held) }
        ensures ok { OnOk result (IsFinished (Some self.new.finished)) }
        ensures err { OnErr result (self.new.finished ≡ self.old.finished) }
        ensures faults { CountsFaults self.old.faults self.new.faults result }
        ensures succeeds { is_ok result ≡ not (is_failing self.old.failing self.old.calls) }
        ensures after { self.new ≡ after_finish self.old }
    {
        let fails = is_failing(self.failing.as_slice(), self.calls);
        self.calls = self.calls.saturating_add(1);
        if fails {
            self.faults = self.faults.saturating_add(1);
            return Err(Failed);
        }
        self.finished = true;
        Ok(())
    }
}
