// Why there is nothing to write, inside the call.
ghost use Rattle.std.specs.Prelude.{◌≡◌};

use crate::status::{Refusal, Status};
use ctx_store::StoreRefusal;
use ld_io::ReadStop;
use ld_json::ReadRefusal;
use node_types::MapStop;
use std::alloc::AllocError;
use tree_expand::ExpandStop;

/// Why there is nothing to write.
#[derive(Debug, Drop)]
pub(crate) enum Stop {
    Refused(Refusal),
    Usage,
    ReadFault,
    FolderFault,
    TooLarge,
    OutOfMemory,
}

impl Stop {
    ghost use Rattle.ld_run.specs.Stops.{status_of_stop};

    /// The status with which the call ends.
    pub(crate) fn status(self) -> Status
        ensures { result ≡ status_of_stop self }
    {
        match self {
            Stop::Refused(refusal) => Status::Refused(refusal),
            Stop::Usage => Status::Usage,
            Stop::ReadFault => Status::ReadFault,
            Stop::FolderFault => Status::FolderFault,
            Stop::TooLarge => Status::TooLarge,
            Stop::OutOfMemory => Status::OutOfMemory,
        }
    }
}

impl From<AllocError> for Stop {
    ghost use Rattle.ld_run.specs.declared.stop.Stop.TheVariants.{OutOfMemory};

    ghost from_gives = { λ _ stop. stop ≡ OutOfMemory };

    fn from(_error: AllocError) -> Stop {
        Stop::OutOfMemory
    }
}

impl From<StoreRefusal> for Stop {
    ghost use Rattle.ld_run.specs.Stops.{stop_of_store};

    ghost from_gives = { λ refusal stop. stop ≡ stop_of_store refusal };

    fn from(refusal: StoreRefusal) -> Stop {
        match refusal {
            StoreRefusal::IndexLine { line } => Stop::Refused(Refusal::IndexLine { line }),
            StoreRefusal::Missing { line } => Stop::Refused(Refusal::Missing { line }),
            StoreRefusal::FolderFault => Stop::FolderFault,
            StoreRefusal::OutOfMemory => Stop::OutOfMemory,
        }
    }
}

impl From<ReadStop> for Stop {
    ghost use Rattle.ld_run.specs.Stops.{stop_of_read};

    ghost from_gives = { λ read stop. stop ≡ stop_of_read read };

    fn from(read: ReadStop) -> Stop {
        match read {
            ReadStop::Failed => Stop::ReadFault,
            ReadStop::TooLarge => Stop::TooLarge,
            ReadStop::OutOfMemory => Stop::OutOfMemory,
        }
    }
}

impl From<ReadRefusal> for Stop {
    ghost use Rattle.ld_run.specs.Stops.{stop_of_refusal};

    ghost from_gives = { λ refusal stop. stop ≡ stop_of_refusal refusal };

    fn from(refusal: ReadRefusal) -> Stop {
        match refusal {
            ReadRefusal::Syntax => Stop::Refused(Refusal::Syntax),
            ReadRefusal::Number { at } => Stop::Refused(Refusal::Number { at }),
            ReadRefusal::VersionNumber { place } => Stop::Refused(Refusal::VersionNumber { place }),
            ReadRefusal::OutOfMemory => Stop::OutOfMemory,
        }
    }
}

impl From<ExpandStop> for Stop {
    ghost use Rattle.ld_run.specs.Stops.{stop_of_expansion};

    ghost from_gives = { λ expansion stop. stop ≡ stop_of_expansion expansion };

    fn from(expansion: ExpandStop) -> Stop {
        match expansion {
            ExpandStop::Refused { code, place } => Stop::Refused(Refusal::Expansion {
                code,
                place,
            }),
            ExpandStop::OutOfMemory => Stop::OutOfMemory,
        }
    }
}

impl From<MapStop> for Stop {
    ghost use Rattle.ld_run.specs.Stops.{stop_of_map};

    ghost from_gives = { λ map stop. stop ≡ stop_of_map map };

    fn from(map: MapStop) -> Stop {
        match map {
            MapStop::Conflict(conflict) => Stop::Refused(Refusal::ConflictingIndexes {
                node: conflict.node,
                first: conflict.first,
                second: conflict.second,
            }),
            MapStop::OutOfMemory => Stop::OutOfMemory,
        }
    }
}
