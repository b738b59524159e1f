//! Several calls of one function, each in a thread of its own.
ghost use Rattle.std.specs.Prelude.{◌≡◌, ℕ, All, IfOk, length, slice_get, Some};

use std::alloc::AllocError;
use std::thread;
use std::thread::Threads;

/// What each thread does.
pub(crate) trait Shift {
    /// What it begins with.
    type Start;
    /// What it hands back.
    type Back;

    ghost accepts: { Self → Self.Start → Type 0 };

    ghost gives: { Self → Self.Start → Self.Back → Type 0 };

    fn run(&self, start: Self::Start) -> Self::Back
        requires { accepts self.now start }
        ensures { gives self.now start result };
}

/// Runs the shift once for each start, side by side, and gives back in order what each hands back. One start stays on
/// the thread of the caller, which also does the work of a thread that can't be started.
pub(crate) fn fork<T: Shift + Sync, R: Threads + Sync>(
    rt: &R,
    shift: &T,
    starts: Vec<T::Start>,
) -> Result<Vec<T::Back>, AllocError>
where
    T::Start: Send + Drop,
    T::Back: Send + Drop,
    requires { All (T.accepts shift.now) starts.items }
    ensures { IfOk result (λ backs. (length backs.items ≡ length starts.items) × ((k : ℕ) (start : T.Start) (back : T.Back) → slice_get starts.items k ≡ Some start → slice_get backs.items k ≡ Some back → T.gives shift.now start back)) }
{
    thread::map_vec(
        rt,
        starts,
        &|start: T::Start| -> T::Back
            requires { T.accepts shift.now start }
            ensures { T.gives shift.entry.now start result }
        { shift.run(start) },
    )
}
