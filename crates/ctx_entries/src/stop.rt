// Why context processing gives no context.
ghost use Rattle.std.specs.Prelude.{◌≡◌};

use case_tables::Code;
use std::alloc::AllocError;
use std::fmt;
use std::fmt::{Display, Formatter, Write};

/// Why context processing gives no context.
#[derive(Clone, Copy, Debug, PartialEq, Eq)]
pub enum ContextStop {
    /// The local context is refused with this error code (JSON-LD 1.1 API, section 9.6).
    Refused(Code),
    /// Memory was refused, or more calls would be under way than the stack is sure to hold.
    OutOfMemory,
}

impl From<AllocError> for ContextStop {
    ghost use Rattle.ctx_entries.specs.declared.stop.ContextStop.TheVariants.{OutOfMemory};

    ghost from_gives = { λ _ e. e ≡ OutOfMemory };

    fn from(_error: AllocError) -> ContextStop {
        ContextStop::OutOfMemory
    }
}

impl From<Code> for ContextStop {
    ghost use Rattle.ctx_entries.specs.declared.stop.ContextStop.TheVariants.{Refused};

    ghost from_gives = { λ c e. e ≡ Refused c };

    fn from(code: Code) -> ContextStop {
        ContextStop::Refused(code)
    }
}

impl Display for ContextStop {
    /// Writes the code as the standard writes it, or `out of memory`.
    fn fmt<W: Write>(&self, f: &mut Formatter<W>) -> fmt::Result {
        match self {
            ContextStop::Refused(code) => f.write_str(code.name()),
            ContextStop::OutOfMemory => f.write_str("out of memory"),
        }
    }
}
