//! What became of a part that was to enter.

/// What became of a part.
#[derive(Drop)]
pub enum Entering<P> {
    /// It is in its place, and the pair of shard and piece is in the seat's list.
    Entered,
    /// Its place was filled already when this call's turn began.
    Filled {
        /// The part, as it was.
        part: P,
    },
    /// The shard's turn was with another seat, or the word had changed when it was to be taken. No turn was taken.
    Busy {
        /// The part, as it was.
        part: P,
        /// What the word was when it was read last.
        seen: u64,
    },
}
