//! A source in memory, for tests and for callers that have the bytes at hand.
ghost use Rattle.std.specs.Prelude.{◌≡◌, ℕ, ◌<◌, ◌≤◌, ◌-◌, ◌^◌, ◌++◌, List, [], length, take, drop, min, not, Some, IfOk, is_ok, Option, replicate};
ghost use Rattle.std.specs.Io.{ReadsAtMost};
ghost use Rattle.std.specs.Io.KnownBytes.{ReadConsumes};
ghost use Rattle.ld_io.specs.Faults.{CountsFaults, is_failing};
ghost use Rattle.ld_io.specs.SourceState.{given_count, after_read};

use super::calls::is_failing;
use super::traits::{Failed, Source};
use std::marker::Model;

/// What a source in memory gives.
#[derive(Drop)]
enum Stock {
    /// These bytes from this place on. The calls of these numbers fail.
    Listed {
        bytes: Vec<u8>,
        at: usize,
        failing: Vec<u64>,
    },
    /// One byte that many times.
    Repeated {
        byte: u8,
        count: u64,
    },
}

/// Copies the bytes to the front of a buffer.
fn copy_to_front(buf: &mut [u8], bytes: &[u8])
    requires { length bytes.now ≤ length buf.old }
    ensures { take (length bytes.now) buf.new ≡ bytes.now }
{
    buf[..bytes.len()].copy_from_slice(bytes);
}

/// Puts a byte that many times at the front of a buffer.
fn fill_front(buf: &mut [u8], count: usize, byte: u8)
    requires { count ≤ length buf.old }
    ensures { take count buf.new ≡ replicate count byte }
{
    buf[..count].fill(byte);
}

impl Stock {
    ghost use Rattle.ld_io.specs.Stock.{left_of, failing_of, IsWithin};

    /// Whether the call of that number fails.
    fn fails(&self, call: u64) -> bool
        ensures { result ≡ is_failing (failing_of self.now) call }
    {
        match self {
            Stock::Listed { failing, .. } => is_failing(failing.as_slice(), call),
            Stock::Repeated { .. } => false,
        }
    }

    /// Puts the next bytes at the front of the buffer, at most `most` of them, and says how many.
    fn give(&mut self, buf: &mut [u8], most: usize) -> usize
        requires within { IsWithin self.old }
        requires most { most ≤ length buf.old }
        ensures count { result ≡ min most (length (left_of self.old)) }
        ensures bytes { take result buf.new ≡ take result (left_of self.old) }
        ensures left { left_of self.new ≡ drop result (left_of self.old) }
        ensures failing { failing_of self.new ≡ failing_of self.old }
        ensures kept { IsWithin self.new }
    {
        match self {
            Stock::Listed { bytes, at, .. } => {
                let from = *at;
                let count = most.min(bytes.len() - from);
                copy_to_front(buf, &bytes[from..from + count]);
                *at = from + count;
                count
            }
            Stock::Repeated { byte, count } => {
                let given = (*count).min(most as u64);
                fill_front(buf, given as usize, *byte);
                *count -= given;
                given as usize
            }
        }
    }
}

/// A source whose bytes lie in memory. Its calls of `read` are numbered from 0; the 2^64th and
/// each later one has the number 2^64 - 1.
#[derive(Drop)]
pub struct ListSource {
    stock: Stock,
    step: u32,
    calls: u64,
    faults: u64,
}

impl Model for ListSource {
    ghost use Rattle.std.specs.Prelude.{ℕ, ◌<◌};
    ghost use Rattle.ld_io.specs.SourceState.{SourceState};
    ghost use Rattle.ld_io.specs.Stock.{left_of, failing_of, IsWithin};

    ghost Value = { SourceState };

    ghost view = { λ s. record { left = left_of s.stock; step = s.step; failing = failing_of s.stock; calls = s.calls; faults = s.faults } };

    ghost invariant = { λ s. IsWithin s.stock × (0 < s.step) };
}

impl ListSource {
    ghost use Rattle.ld_io.specs.Stock.{repeated};

    /// A source of these bytes, which gives at most `step` of them per call. The calls whose
    /// numbers are in `failing` fail, and no others.
    pub fn new(bytes: Vec<u8>, step: u32, failing: Vec<u64>) -> ListSource
        requires { 0 < step }
        ensures { result ≡ record { left = bytes.items; step = step; failing = failing.items; calls = 0; faults = 0 } }
    {
        let stock = Stock::Listed {
            bytes,
            at: 0,
            failing,
        };
        ListSource {
            stock,
            step,
            calls: 0,
            faults: 0,
        }
    }

    /// A source of one byte, `count` times. It never fails, and takes no memory for its bytes.
    pub fn repeat(byte: u8, count: u64) -> ListSource
        ensures { result ≡ record { left = repeated count byte; step = u32.MAX; failing = []; calls = 0; faults = 0 } }
    {
        ListSource {
            stock: Stock::Repeated { byte, count },
            step: u32::MAX,
            calls: 0,
            faults: 0,
        }
    }
}

impl Source for ListSource {
    ghost left = { λ s. Some s.left };

    ghost faults = { λ s. s.faults };

    fn read(&mut self, buf: &mut [u8]) -> Result<usize, Failed>
        ensures bound { ReadsAtMost result buf.new }
        ensures bytes { ReadConsumes (Some self.old.left) (Some self.new.left) result buf.new }
        ensures faults { CountsFaults self.old.faults self.new.faults result }
        ensures ok { is_ok result ≡ not (is_failing self.old.failing self.old.calls) }
        ensures count { IfOk result (λ n. n ≡ given_count self.old (length buf.old)) }
        ensures after { self.new ≡ after_read self.old (length buf.old) }
    {
        let call = self.calls;
        self.calls = call.saturating_add(1);
        if self.stock.fails(call) {
            self.faults = self.faults.saturating_add(1);
            return Err(Failed);
        }
        let most = buf.len().min(self.step as usize);
        Ok(self.stock.give(buf, most))
    }
}
