// Where a piece is.
ghost use Rattle.std.specs.Prelude.{◌≡◌};
ghost use Rattle.job_core.specs.Machine.{is_waiting, holder};

/// Where a piece is: it waits, a seat holds it, or it was reported or skipped.
#[derive(Clone, Copy, Debug, PartialEq, Eq)]
pub enum Place {
    Waiting,
    Held { seat: u32 },
    Reported,
    Skipped,
}

impl Place {
    pub fn is_waiting(self) -> bool
        ensures { result ≡ is_waiting self }
    {
        match self {
            Place::Waiting => true,
            Place::Held { seat: _ } => false,
            Place::Reported => false,
            Place::Skipped => false,
        }
    }

    pub fn holder(self) -> Option<u32>
        ensures { result ≡ holder self }
    {
        match self {
            Place::Held { seat } => Some(seat),
            Place::Waiting => None,
            Place::Reported => None,
            Place::Skipped => None,
        }
    }
}
