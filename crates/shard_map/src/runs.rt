//! The runs of one shard, as the seat that has its turn works on them.
ghost use Rattle.std.specs.Prelude.{◌≡◌, ℕ, ◌+◌, ◌<◌, ◌≤◌, true, false, length, insert, MatchOption, vec_len, vec_capacity};
ghost use Rattle.std.specs.List.Sorted.{IsPartitionPoint};
ghost use Rattle.shard_map.specs.Views.{covers, Rises, spans};

use job_core::Merge;

/// How many of the runs end before the piece, or at it.
fn place_of<P: Merge>(runs: &[P], piece: u32) -> usize
    requires rises { Rises 0 (spans P.start_of P.end_of runs.now) }
    ensures bound { result ≤ length runs.now }
    ensures parted { IsPartitionPoint (λ run. P.end_of run ≤ piece) (λ run. piece < P.end_of run) runs.now result }
{
    runs.partition_point(|run| run.end() <= piece)
}

/// Puts the part of a piece in its place, or hands it back where a run covers the piece already.
pub(crate) fn put<P: Merge + Drop>(runs: &mut Vec<P>, piece: u32, part: P) -> Option<P>
    requires rises { Rises 0 (spans P.start_of P.end_of runs.old.items) }
    requires room { vec_len runs.old < vec_capacity runs.old }
    requires part { (P.start_of part ≡ piece) × (P.end_of part ≡ piece + 1) }
    ensures room { vec_capacity runs.new ≡ vec_capacity runs.old }
    ensures put { MatchOption result
        ((covers (spans P.start_of P.end_of runs.old.items) piece ≡ false) × Rises 0 (spans P.start_of P.end_of runs.new.items) × (at : ℕ) × (runs.new.items ≡ insert runs.old.items at part))
        (λ kept. (kept ≡ part) × (covers (spans P.start_of P.end_of runs.old.items) piece ≡ true) × (runs.new ≡ runs.old)) }
{
    let at = place_of(runs, piece);
    if at < runs.len() && runs[at].first() <= piece {
        return Some(part);
    }
    match runs.insert(at, part) {
        Ok(()) => None,
        Err(_) => unreachable!(),
    }
}
