//! What a seat knows, the rule of the word, and what each step on it tells.
use atomic_table::{Join, Play, Split, TableRule};
use job_core::Piecework;

/// What a seat knows. It exists in proofs alone: no value of it is made.
pub struct View<J> {
    /// The job; none in a seat that was joined into another.
    pub job: Option<J>,
    /// The least piece that the seat has reported or seen, or the number of pieces.
    pub bound: u64,
    /// How many times it has looked.
    pub loads: u64,
    /// What its last look found.
    pub last: Option<u64>,
}

/// The word is the number of pieces or a piece that fails, and no seat knows of less.
pub struct Least;

impl<J: Piecework> TableRule<(), View<J>, J> for Least {
    ghost use Rattle.first_error.specs.Word.{Holds, opened};

    ghost holds = { Holds J.count J.fails };

    ghost first = { λ job. opened job (J.count job) };
}

/// A report.
pub struct Reports;

impl<J: Piecework> Play<(), View<J>> for Reports {
    ghost use Rattle.first_error.specs.Word.{HasReported};

    ghost then = { HasReported };
}

/// A look.
pub struct Looks;

impl<J: Piecework> Play<(), View<J>> for Looks {
    ghost use Rattle.first_error.specs.Word.{HasLooked};

    ghost then = { HasLooked J.count J.fails };
}

/// A seat becomes two, or two become one.
pub struct Pairs;

impl<J> Split<View<J>> for Pairs {
    ghost use Rattle.first_error.specs.Word.{again};

    ghost left = { λ v. v };

    ghost right = { again };
}

impl<J> Join<View<J>> for Pairs {
    ghost use Rattle.first_error.specs.Word.{joined, spent};

    ghost both = { joined };

    ghost spent = { spent };
}
