// Why expansion gives nothing.
ghost use Rattle.std.specs.Prelude.{◌≡◌};

use crate::ranges::Refusal;
use case_tables::Code;
use ld_json::Place;
use std::alloc::AllocError;

/// Why expansion gives nothing.
#[derive(Debug, Drop)]
pub enum ExpandStop {
    /// The document is refused: the first error that the traversal meets.
    Refused {
        /// The standard's error code (JSON-LD 1.1 API, section 9.6).
        code: Code,
        /// Where the error is.
        place: Place,
    },
    /// Memory was refused.
    OutOfMemory,
}

impl From<AllocError> for ExpandStop {
    ghost use Rattle.tree_expand.specs.declared.stop.ExpandStop.TheVariants.{OutOfMemory};

    ghost from_gives = { λ _ e. e ≡ OutOfMemory };

    fn from(_error: AllocError) -> ExpandStop {
        ExpandStop::OutOfMemory
    }
}

impl From<Refusal> for ExpandStop {
    ghost use Rattle.tree_expand.specs.declared.stop.ExpandStop.TheVariants.{Refused};

    ghost from_gives = { λ r e. e ≡ Refused r.code r.place };

    fn from(refusal: Refusal) -> ExpandStop {
        let Refusal { code, place } = refusal;
        ExpandStop::Refused { code, place }
    }
}
