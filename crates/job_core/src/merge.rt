//! Values that cover neighbouring pieces and can be put together.
ghost use Rattle.std.specs.Prelude.{◌≡◌, ℕ, MatchResult};

use std::alloc::Global;

/// Two neighbours that weren't merged, since there was no memory. Both are as they were.
#[derive(Drop)]
pub struct Unmerged<M> {
    /// The earlier one.
    pub left: M,
    /// The later one.
    pub right: M,
}

/// A value that covers the pieces from [`first`](Merge::first) to before [`end`](Merge::end). Neighbours merge, in
/// any order, to one value: that of all their pieces.
pub trait Merge: Sized {
    // What each value keeps. The laws ask for no more than this.
    ghost valid: { Self → Type 0 };

    // The value of no piece, at a place between pieces.
    ghost nothing: { ℕ → Self };

    // The number of its first piece.
    ghost start_of: { Self → ℕ };

    // The number after that of its last piece.
    ghost end_of: { Self → ℕ };

    // What an earlier and a later value mean together.
    ghost both: { Self → Self → Self };

    /// The value of no piece, which begins and ends at the piece of that number.
    fn empty(alloc: Global, at: u32) -> Self
        ensures { result ≡ nothing at };

    /// The number of its first piece.
    fn first(&self) -> u32
        ensures first { result ≡ start_of self.now }
        ensures valid { valid self.now };

    /// The number after that of its last piece.
    fn end(&self) -> u32
        ensures { result ≡ end_of self.now };

    /// The value that covers both, where `next` begins at this one's end.
    ///
    /// # Errors
    ///
    /// `Unmerged` where there is no memory. It hands back both, unchanged.
    fn merge(self, alloc: Global, next: Self) -> Result<Self, Unmerged<Self>>
        requires { end_of self ≡ start_of next }
        ensures { MatchResult result (λ merged. merged ≡ both self next) (λ kept. (kept.left ≡ self) × (kept.right ≡ next)) };

    // Nothing begins and ends where it stands.
    ghost nothing_covers: { (at : ℕ) → (start_of (nothing at) ≡ at) × (end_of (nothing at) ≡ at) };

    ghost nothing_valid: { (at : ℕ) → valid (nothing at) };

    // Two neighbours together begin where the first begins, and end where the second ends.
    ghost both_covers: { (a b : Self) → end_of a ≡ start_of b → (start_of (both a b) ≡ start_of a) × (end_of (both a b) ≡ end_of b) };

    ghost both_valid: { (a b : Self) → valid a → valid b → end_of a ≡ start_of b → valid (both a b) };

    // Nothing before a value changes it, nor does nothing after it.
    ghost left_nothing: { (a : Self) → valid a → both (nothing (start_of a)) a ≡ a };

    ghost right_nothing: { (a : Self) → valid a → both a (nothing (end_of a)) ≡ a };

    // Which two of three neighbours are merged first doesn't matter.
    ghost associative: { (a b c : Self) → valid a → valid b → valid c → end_of a ≡ start_of b → end_of b ≡ start_of c → both (both a b) c ≡ both a (both b c) };
}
