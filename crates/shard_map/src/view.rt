//! What a seat knows, the rule of the shards, and what each step on a word tells.
use atomic_table::{Join, Play, Split, TableRule};
use job_core::Piecework;
use std::alloc::Global;
use std::collections::LinkedList;

/// What a seat keeps of a shard. It exists in proofs alone: no value of it is made.
pub struct Keep {
    /// How often it has read the word.
    pub reads: u64,
    /// What its last read found.
    pub last: u64,
    /// What the read before that found.
    pub before: u64,
    /// What its last step on the word left there, if it has made one since it last took in a seat.
    pub left: Option<u64>,
    /// How many turns it has taken.
    pub turns: u64,
    /// The firsts and ends of the runs when its last turn began.
    pub began: LinkedList<(u64, u64)>,
    /// The firsts and ends of the runs that its last turn left.
    pub ended: LinkedList<(u64, u64)>,
}

/// What a seat knows. It exists in proofs alone: no value of it is made.
pub struct View<J> {
    /// The job; none in a seat that was joined into another.
    pub job: Option<J>,
    /// Its share of 2^40, of which seats that live have at least 1.
    pub share: u64,
    /// The pairs of shard and piece that it has entered, and those of the seats that it took in.
    pub pairs: LinkedList<(u64, u64)>,
    /// The shard whose turn it has.
    pub turn: Option<u64>,
    /// What it keeps of each shard.
    pub keeps: LinkedList<Keep>,
}

/// A word is even exactly where its slot is at home. There the slot's runs cover the entered pieces, and each entered pair
/// is in some seat's list.
pub struct Turns;

impl<J: Piecework> TableRule<Option<Vec<J::Part>>, View<J>, J> for Turns {
    ghost use Rattle.shard_map.specs.Rule.{Holds};
    ghost use Rattle.shard_map.specs.Views.{opened};

    ghost holds = { Holds J.count J.shard_count J.fails J.part J.Part.start_of J.Part.end_of J.Part.both };

    ghost first = { λ job. opened job (J.shard_count job) };
}

/// A look at a word.
pub struct Reads;

impl<J: Piecework> Play<Option<Vec<J::Part>>, View<J>> for Reads {
    ghost use Rattle.shard_map.specs.Rule.{HasRead};

    ghost then = { HasRead };
}

/// A try to take a turn.
pub struct Takes;

impl<J: Piecework> Play<Option<Vec<J::Part>>, View<J>> for Takes {
    ghost use Rattle.shard_map.specs.Rule.{HasTried};

    ghost then = { HasTried J.count J.shard_count J.fails J.part J.Part.start_of J.Part.end_of J.Part.both };
}

/// The end of a turn.
pub struct Ends;

impl<J: Piecework> Play<Option<Vec<J::Part>>, View<J>> for Ends {
    ghost use Rattle.shard_map.specs.Rule.{HasEnded};

    ghost then = { HasEnded J.count J.shard_count J.fails J.part J.Part.start_of J.Part.end_of J.Part.both };
}

/// A look that tells of the seat's share alone.
pub struct Weighs;

impl<J: Piecework> Play<Option<Vec<J::Part>>, View<J>> for Weighs {
    ghost use Rattle.shard_map.specs.Rule.{HasWeighed};

    ghost then = { HasWeighed };
}

/// A seat becomes two, or two become one.
pub struct Halves;

impl<J> Split<View<J>> for Halves {
    ghost use Rattle.shard_map.specs.Views.{rest_of, half_of};

    ghost left = { rest_of };

    ghost right = { half_of };
}

impl<J> Join<View<J>> for Halves {
    ghost use Rattle.shard_map.specs.Views.{joined, spent};

    ghost both = { joined };

    ghost spent = { spent };
}
