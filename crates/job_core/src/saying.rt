// What a guard that failed found, in words.
use crate::Kept;
use std::error::Error;
use std::fmt;

impl fmt::Display for Kept {
    fn fmt<W: fmt::Write>(&self, f: &mut fmt::Formatter<W>) -> fmt::Result {
        match self {
            Kept::Range => write!(f, "a number is out of range"),
            Kept::Waits(waits) => write!(f, "whether the piece waits: {waits}"),
            Kept::HeldBy(Some(seat)) => write!(f, "the piece is held by seat {seat}"),
            Kept::HeldBy(None) => write!(f, "the piece is held by no seat"),
            Kept::Fails(fails) => write!(f, "whether the piece fails: {fails}"),
            Kept::Seen(least) => write!(f, "the least failure seen is {least}"),
            Kept::TurnOf(Some(seat)) => write!(f, "the turn is with seat {seat}"),
            Kept::TurnOf(None) => write!(f, "the turn is with no seat"),
            Kept::Entered(entered) => write!(f, "whether the piece is entered: {entered}"),
            Kept::Unfinished { piece } => write!(f, "piece {piece} is not finished"),
            Kept::Closed => write!(f, "the job is closed"),
        }
    }
}

impl Error for Kept {}
