//! What is told of each piece of a job as it is performed.

/// The part of a conversion whose pieces are performed.
#[derive(Clone, Copy, Debug, PartialEq, Eq)]
pub enum Phase {
    /// Parts of the input are expanded.
    Expand,
    /// The expanded document's parts enter the node map.
    Map,
    /// The node map's parts become quads.
    Quads,
    /// Lines of quads are read.
    Lines,
    /// Quads enter the nodes that they make.
    FromRdf,
}

/// Is called round each piece, from the thread that performs it. It may watch, and it may hold a piece up; what the job
/// comes to doesn't depend on it.
pub trait Gate {
    /// The piece is about to be performed.
    fn before(&self, phase: Phase, piece: u32);

    /// The piece was performed.
    fn after(&self, phase: Phase, piece: u32);

    /// The piece's part was entered in the shard.
    fn entered(&self, phase: Phase, shard: u32, piece: u32);
}

/// A gate that does nothing.
#[derive(Clone, Copy, Debug, Default)]
pub struct OpenGate;

impl Gate for OpenGate {
    fn before(&self, _phase: Phase, _piece: u32) {}

    fn after(&self, _phase: Phase, _piece: u32) {}

    fn entered(&self, _phase: Phase, _shard: u32, _piece: u32) {}
}
