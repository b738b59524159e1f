//! The calls of what stands in memory, by their numbers.
ghost use Rattle.std.specs.Prelude.{◌≡◌};
ghost use Rattle.ld_io.specs.Faults.{is_failing};

/// Whether the call of that number is among those that fail.
pub(crate) fn is_failing(failing: &[u64], call: u64) -> bool
    ensures { result ≡ is_failing failing.now call }
{
    failing.contains(&call)
}
