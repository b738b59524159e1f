// Why a part of expansion gives nothing.
ghost use Rattle.std.specs.Prelude.{◌≡◌};

use case_tables::Code;
use ctx_entries::ContextStop;
use std::alloc::AllocError;

/// Why a part of expansion gives nothing. Where the error stands is told by who called it.
#[derive(Clone, Copy, Debug, PartialEq, Eq)]
pub enum PartStop {
    /// The document is refused with this error code (JSON-LD 1.1 API, section 9.6).
    Refused(Code),
    /// Memory was refused.
    OutOfMemory,
}

impl From<AllocError> for PartStop {
    ghost use Rattle.expand_types.specs.declared.stop.PartStop.TheVariants.{OutOfMemory};

    ghost from_gives = { λ _ e. e ≡ OutOfMemory };

    fn from(_error: AllocError) -> PartStop {
        PartStop::OutOfMemory
    }
}

impl From<Code> for PartStop {
    ghost use Rattle.expand_types.specs.declared.stop.PartStop.TheVariants.{Refused};

    ghost from_gives = { λ c e. e ≡ Refused c };

    fn from(code: Code) -> PartStop {
        PartStop::Refused(code)
    }
}

impl From<ContextStop> for PartStop {
    ghost use Rattle.expand_types.specs.Answers.{stop_of};

    ghost from_gives = { λ s e. e ≡ stop_of s };

    fn from(stop: ContextStop) -> PartStop {
        match stop {
            ContextStop::Refused(code) => PartStop::Refused(code),
            ContextStop::OutOfMemory => PartStop::OutOfMemory,
        }
    }
}
