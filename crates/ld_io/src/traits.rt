//! The three traits of the outside.
ghost use Rattle.std.specs.Prelude.{◌≡◌, ℕ, List, Option, Bool, OnOk, OnErr};
ghost use Rattle.std.specs.Io.{ReadsAtMost, WritesAtMost};
ghost use Rattle.std.specs.Io.KnownBytes.{ReadConsumes, WriteAppends, Keeps};
ghost use Rattle.std.specs.FinMap.{FinMap};
ghost use Rattle.std.specs.Ordering.{nat_cmp};
ghost use Rattle.std.specs.Cmp.Lexicographic.{slice_cmp};
ghost use Rattle.ld_io.specs.Faults.{CountsFaults};
ghost use Rattle.ld_io.specs.FolderFaults.{CountsFolderFaults};
ghost use Rattle.ld_io.specs.Sinks.{TakesSome, IsFinished, WriteUnfinishes};
ghost use Rattle.ld_io.specs.Files.{IsFileAt};

use std::alloc::Global;
use thiserror::Error;

/// A fault of the outside: the real thing, or what stands for it, answered an error.
#[derive(Clone, Copy, Debug, PartialEq, Eq, Error)]
#[error("fault")]
pub struct Failed;

/// Why [`Folder::read`] gave no answer.
#[derive(Clone, Copy, Debug, PartialEq, Eq, Error)]
pub enum FolderStop {
    /// The folder failed, and its count of faults rose.
    #[error("folder fault")]
    Failed,
    /// There was no memory for the file's bytes.
    #[error("out of memory")]
    OutOfMemory,
}

/// Where bytes come from.
pub trait Source {
    // The bytes that are left, where it tells.
    ghost left: { Self → Option (List ℕ) };

    // How many faults it has counted. A u64 that stands at its end rises no further.
    ghost faults: { Self → ℕ };

    /// Puts some of the bytes that are left at the front of `buf`, and answers how many. An answer
    /// of 0 for a buffer that has room is the end of the input.
    ///
    /// # Errors
    ///
    /// `Failed` only where the count of faults rose. The bytes left are then as they were.
    fn read(&mut self, buf: &mut [u8]) -> Result<usize, Failed>
        ensures bound { ReadsAtMost result buf.new }
        ensures bytes { ReadConsumes (left self.old) (left self.new) result buf.new }
        ensures faults { CountsFaults (faults self.old) (faults self.new) result };
}

/// Where bytes go.
pub trait Sink {
    // The bytes that it holds, where it tells: all that was written so far.
    ghost held: { Self → Option (List ℕ) };

    // Whether it is finished, where it tells.
    ghost finished: { Self → Option Bool };

    // How many faults it has counted. A u64 that stands at its end rises no further.
    ghost faults: { Self → ℕ };

    /// Takes some bytes of the front of `bytes`, and answers how many: at least one, unless there
    /// are none. A sink that took a byte is not finished.
    ///
    /// # Errors
    ///
    /// `Failed` only where the count of faults rose. Nothing was then written, and the sink is
    /// finished or not as it was.
    fn write(&mut self, bytes: &[u8]) -> Result<usize, Failed>
        ensures bound { WritesAtMost result bytes.now }
        ensures some { TakesSome result bytes.now }
        ensures bytes { WriteAppends (held self.old) (held self.new) result bytes.now }
        ensures finished { WriteUnfinishes (finished self.old) (finished self.new) result }
        ensures faults { CountsFaults (faults self.old) (faults self.new) result };

    /// Hands on what the sink holds back. It is then finished, with the bytes as they were.
    ///
    /// # Errors
    ///
    /// `Failed` only where the count of faults rose. The sink is then finished or not as it was.
    fn finish(&mut self) -> Result<(), Failed>
        ensures bytes { Keeps (held self.old) (held self.new) }
        ensures ok { OnOk result (IsFinished (finished self.new)) }
        ensures err { OnErr result (finished self.new ≡ finished self.old) }
        ensures faults { CountsFaults (faults self.old) (faults self.new) result };
}

/// Files that are looked up by name.
pub trait Folder {
    // The bytes of the file of each name, where it tells.
    ghost files: { Self → Option (FinMap (slice_cmp nat_cmp) (List ℕ)) };

    // How many faults it has counted. A u64 that stands at its end rises no further.
    ghost faults: { Self → ℕ };

    /// The bytes of the file of that name, or `None` where there is none. The files stay as they
    /// were, whatever it answers.
    ///
    /// # Errors
    ///
    /// - `FolderStop::Failed` only where the count of faults rose.
    /// - `FolderStop::OutOfMemory` where there is no memory for the bytes.
    fn read(&mut self, alloc: Global, name: &str) -> Result<Option<Vec<u8>>, FolderStop>
        ensures files { files self.new ≡ files self.old }
        ensures found { IsFileAt (files self.old) name.now result }
        ensures faults { CountsFolderFaults (faults self.old) (faults self.new) result };
}
