//! The list of a seat: a mark for each pair of shard and piece, all pieces of the first shard, then those of the next.
ghost use Rattle.std.specs.Prelude.{◌≡◌, ◌+◌, ◌*◌, ◌<◌, ◌||◌, false, length, replicate, IfOk, slice_set, slice_index_or};
ghost use Rattle.shard_map.specs.Seats.{is_marked, AreUnited};

use std::alloc::{AllocError, Global};

/// Where the mark of a pair stands.
pub(crate) fn mark_at(pieces: u32, shard: u32, piece: u32) -> usize
    ensures { result ≡ shard * pieces + piece }
{
    shard as usize * pieces as usize + piece as usize
}

/// No marks yet.
pub(crate) fn blank(alloc: Global, count: usize) -> Result<Vec<bool>, AllocError>
    ensures { IfOk result (λ marks. marks.items ≡ replicate count false) }
{
    let mut marks = Vec::with_capacity(alloc, count)?;
    for _ in 0..count {
        marks.push(false)?;
    }
    Ok(marks)
}

/// The mark there, or none behind the last.
fn mark_of(marks: &Vec<bool>, at: usize) -> bool
    ensures { result ≡ slice_index_or marks.now.items at false }
{
    match marks.get(at) {
        Some(mark) => *mark,
        None => false,
    }
}

/// Whether the pair is marked.
pub(crate) fn has_mark(marks: &Vec<bool>, pieces: u32, shard: u32, piece: u32) -> bool
    ensures { result ≡ is_marked pieces marks.now.items shard piece }
{
    piece < pieces && mark_of(marks, mark_at(pieces, shard, piece))
}

/// Adds the mark of another list at one place.
fn unite_at(marks: &mut Vec<bool>, others: &Vec<bool>, at: usize)
    requires { (at < length marks.old.items) × (length marks.old.items ≡ length others.now.items) }
    ensures { marks.new.items ≡ slice_set marks.old.items at (slice_index_or marks.old.items at false || slice_index_or others.now.items at false) }
{
    let either = marks[at] || others[at];
    marks[at] = either;
}

/// Adds the marks of another list.
pub(crate) fn unite(marks: &mut Vec<bool>, others: &Vec<bool>)
    requires { length marks.old.items ≡ length others.now.items }
    ensures { AreUnited marks.old.items others.now.items marks.new.items }
{
    for at in 0..others.len() {
        unite_at(marks, others, at);
    }
}
