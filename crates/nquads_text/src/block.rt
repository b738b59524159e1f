// A block of bytes in front of a sink.
ghost use Rattle.std.specs.Prelude.{◌≡◌, ◌≤◌, ◌<◌, ◌+◌, ◌++◌, [], length, OnOk, IsTrue};
ghost use Rattle.ld_io.specs.Faults.{CountsFaults};
ghost use Rattle.nquads_text.specs.Blocks.{Passes, joined};

use ld_io::{Failed, Sink, write_all};
use std::marker::Model;

/// Bytes that wait for their sink, at most `N`.
#[derive(Drop)]
pub(crate) struct Block<const N: usize> {
    len: usize,
    room: [u8; N],
}

impl<const N: usize> Model for Block<N> {
    ghost use Rattle.std.specs.Prelude.{List, ℕ, ◌≤◌, take};

    ghost Value = { List ℕ };

    ghost view = { λ b. take b.len b.room };

    ghost invariant = { λ b. b.len ≤ N };
}

impl<const N: usize> Block<N> {
    /// A block that holds nothing.
    pub(crate) fn new() -> Block<N>
        ensures { result ≡ [] }
    {
        Block {
            len: 0,
            room: [0u8; N],
        }
    }

    fn bytes(&self) -> &[u8]
        ensures { result.now ≡ self.now }
    {
        &self.room[..self.len]
    }

    fn clear(&mut self)
        ensures { self.new ≡ [] }
    {
        self.len = 0;
    }

    fn has_room(&self, count: usize) -> bool
        ensures { IsTrue result → length self.now + count ≤ N }
    {
        count <= N - self.len
    }

    fn push(&mut self, bytes: &[u8])
        requires { length self.old + length bytes.now ≤ N }
        ensures { self.new ≡ self.old ++ bytes.now }
    {
        let start = self.len;
        let end = start + bytes.len();
        let room = &mut self.room[..];
        room[start..end].copy_from_slice(bytes);
        self.len = end;
    }
}

/// Hands the bytes of the block on.
pub(crate) fn flush<K: Sink, const N: usize>(
    sink: &mut K,
    block: &mut Block<N>,
) -> Result<(), Failed>
    ensures bytes { Passes result (K.held sink.old) block.old (K.held sink.new) block.new [] }
    ensures empty { OnOk result (block.new ≡ []) }
    ensures faults { CountsFaults (K.faults sink.old) (K.faults sink.new) result }
{
    write_all(sink, block.bytes())?;
    block.clear();
    Ok(())
}

/// Puts bytes behind those of the block, which is handed on where they have no room. Bytes that are more than a block go
/// to the sink as they are.
pub(crate) fn put<K: Sink, const N: usize>(
    sink: &mut K,
    block: &mut Block<N>,
    bytes: &[u8],
) -> Result<(), Failed>
    ensures bytes { Passes result (K.held sink.old) block.old (K.held sink.new) block.new bytes.now }
    ensures faults { CountsFaults (K.faults sink.old) (K.faults sink.new) result }
{
    if block.has_room(bytes.len()) {
        block.push(bytes);
        return Ok(());
    }
    flush(sink, block)?;
    pass(sink, block, bytes)
}

/// The same, where the block is empty.
fn pass<K: Sink, const N: usize>(
    sink: &mut K,
    block: &mut Block<N>,
    bytes: &[u8],
) -> Result<(), Failed>
    requires { block.old ≡ [] }
    ensures bytes { Passes result (K.held sink.old) block.old (K.held sink.new) block.new bytes.now }
    ensures faults { CountsFaults (K.faults sink.old) (K.faults sink.new) result }
{
    if block.has_room(bytes.len()) {
        block.push(bytes);
        return Ok(());
    }
    write_all(sink, bytes)
}

/// Puts pieces, one behind the other.
pub(crate) fn put_all<K: Sink, const N: usize>(
    sink: &mut K,
    block: &mut Block<N>,
    pieces: &[&[u8]],
) -> Result<(), Failed>
    ensures bytes { Passes result (K.held sink.old) block.old (K.held sink.new) block.new (joined pieces.now) }
    ensures faults { CountsFaults (K.faults sink.old) (K.faults sink.new) result }
{
    for piece in pieces {
        put(sink, block, *piece)?;
    }
    Ok(())
}
