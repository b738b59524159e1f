// Reading a text.
ghost use Rattle.std.specs.Prelude.{◌≡◌, true, MatchResult};
ghost use Rattle.ld_tree.specs.View.{view};
ghost use Rattle.ld_json.specs.Numbers.{are_accepted};
ghost use Rattle.ld_json.specs.Read.{reading, reads, Refuses, SaysOfNumbers};

use crate::by_tokens::read_by_tokens;
use crate::by_value::read_by_value;
use crate::location::Place;
use ld_tree::Tree;
use std::alloc::{AllocError, Global};
use thiserror::Error;

/// Texts of at most so many bytes are read by the value that `serde_json` makes of them, in whose words the clauses of
/// [`read_tree`] speak. It takes about twice the time that tokens take, and 15 times the memory, which so small a text
/// has ample room for: some microseconds, and 40 kilobytes at most.
const SMALL: usize = 256;

/// Why a text gives no tree. It is printed in the words of the program's lines.
#[derive(Debug, Drop, Error)]
pub enum ReadRefusal {
    /// The bytes are no JSON text (RFC 8259), no UTF-8, or nested more than 127 deep.
    #[error("syntax")]
    Syntax,
    /// A number is neither `0`, nor `1.1`, nor a whole number of a magnitude of at most 9,007,199,254,740,992 without a
    /// zero in front.
    #[error("number at byte {at}")]
    Number {
        /// The place of the first byte, counted from 0, of the first such number.
        at: u64,
    },
    /// The number 1.1 stands elsewhere than as the value of a key `@version`.
    #[error("version number at {place}")]
    VersionNumber {
        /// The first place where it does, in the order of keys and items.
        place: Place,
    },
    /// Memory was refused.
    #[error("out of memory")]
    OutOfMemory,
}

impl From<AllocError> for ReadRefusal {
    ghost use Rattle.ld_json.specs.declared.reading.ReadRefusal.TheVariants.{OutOfMemory};

    ghost from_gives = { λ _ e. e ≡ OutOfMemory };

    fn from(_error: AllocError) -> ReadRefusal {
        ReadRefusal::OutOfMemory
    }
}

/// The tree that a JSON text (RFC 8259) reads as. Of members with one key the last one stays.
///
/// # Errors
///
/// In this order: `Syntax` exactly where the bytes are no JSON text; `Number` exactly where a number outside strings isn't
/// accepted, with the first one's place; `VersionNumber` exactly where the number 1.1 stands elsewhere than as the value
/// of a key `@version`, with the first place. `OutOfMemory` where memory is refused.
pub fn read_tree(alloc: Global, bytes: &[u8]) -> Result<Tree, ReadRefusal>
    ensures answer { MatchResult result (λ t. reading bytes.now ≡ reads (view t))
        (λ e. Refuses e (reading bytes.now)) }
    ensures numbers { MatchResult result (λ _. are_accepted bytes.now ≡ true)
        (λ e. SaysOfNumbers e (are_accepted bytes.now)) }
{
    if bytes.len() <= SMALL {
        read_by_value(alloc, bytes)
    } else {
        read_by_tokens(alloc, bytes)
    }
}
