// A text, as keys and values have it.
ghost use Rattle.std.specs.Prelude.{◌≡◌, IfOk, string_bytes};
ghost use Rattle.std.specs.Str.{bytes_eq};
ghost use Rattle.std.specs.Hash as fed;
ghost use Rattle.std.specs.Ordering.{as_partial_cmp};
ghost use Rattle.std.specs.Cmp.{partial_order_from_own_ties};
ghost use Rattle.std.proofs.Common.{rules};
ghost use Rattle.std.specs.Cmp.Rules.{comparing, hashing};
ghost use Rattle.ld_model.specs.Tree.{byte_order};
ghost use Rattle.ld_model.specs.Label.{is_blank};

use crate::room::Room;
use std::alloc::{AllocError, Global};
use std::cmp::Ordering;
use std::fmt;
use std::fmt::{Debug, Formatter, Write};
use std::hash::{Hash, Hasher};
use std::marker::Model;
use std::mem::size_of;
use std::sync::{Arc, ArcStr};

/// The most bytes that stand in the text itself.
const INSIDE: usize = 22;

/// The most bytes that stand in one block, beside the count of its holders.
const NEAR: usize = 63;

const _: () = prove!(size_of::<Text>() == 24);

/// Where the bytes of a text are.
#[derive(Drop)]
enum Kept {
    /// In the text itself.
    Inside(Room<INSIDE>),
    /// In one block, which is shared.
    Near(Arc<Room<NEAR>>),
    /// In a string of any length, which is shared: one hop more than a block of the same bytes.
    Far(ArcStr),
}

/// A text, seen by contracts as the bytes of its UTF-8.
///
/// Making one of at most 22 bytes takes no memory, one of at most 63 one allocation, and a longer one two. A copy
/// allocates nothing. Texts are equal, ordered and hashed as their `str` is, and may go to other threads.
pub struct Text {
    kept: Kept,
}

// By hand, so that what is proved of a caller sees one drop, and not one for each kind.
impl Drop for Text {
    fn drop(self) {
        let Text { kept: _ } = self;
    }
}

impl Model for Text {
    ghost use Rattle.std.specs.Prelude.{List, ℕ};
    ghost use Rattle.ld_text.specs.View.{kept_bytes};

    ghost Value = { List ℕ };

    ghost view = { λ t. kept_bytes t.kept };
}

impl Text {
    /// A copy of `s`. Fails only where memory is refused.
    pub fn new(alloc: Global, s: &str) -> Result<Text, AllocError>
        ensures { IfOk result (λ t. t ≡ s.now) }
    {
        if s.len() <= INSIDE {
            let kept = Kept::Inside(Room::of(s));
            return Ok(Text { kept });
        }
        if s.len() <= NEAR {
            let kept = Kept::Near(Arc::new(alloc, Room::of(s))?);
            return Ok(Text { kept });
        }
        let kept = Kept::Far(ArcStr::from_str(alloc, s)?);
        Ok(Text { kept })
    }

    /// The text of a string, whose bytes are moved and not copied where they are more than 63. Fails only where memory
    /// is refused.
    pub fn from_string(string: String) -> Result<Text, AllocError>
        ensures { IfOk result (λ t. t ≡ string_bytes string) }
    {
        if string.len() <= NEAR {
            let alloc = string.allocator().clone()?;
            return Ok(Text::new(alloc, string.as_str())?);
        }
        let kept = Kept::Far(ArcStr::from_string(string)?);
        Ok(Text { kept })
    }

    /// The text, borrowed.
    pub fn as_str(&self) -> &str
        ensures { result.now ≡ self.now }
    {
        match &self.kept {
            Kept::Inside(room) => room.as_str(),
            Kept::Near(block) => block.as_str(),
            Kept::Far(string) => string.as_str(),
        }
    }

    /// An equal text, in constant time: nothing is allocated, and a long text is shared. Fails only where a text has
    /// more holders than can be counted.
    pub fn copy(&self) -> Result<Text, AllocError>
        ensures { IfOk result (λ t. t ≡ self.now) }
    {
        match &self.kept {
            Kept::Inside(room) => Ok(Text {
                kept: Kept::Inside(*room),
            }),
            Kept::Near(block) => Ok(Text {
                kept: Kept::Near(block.clone()?),
            }),
            Kept::Far(string) => Ok(Text {
                kept: Kept::Far(string.clone()?),
            }),
        }
    }

    /// Whether this is the label of a blank node: a text that begins with `_:`.
    pub fn is_blank(&self) -> bool
        ensures { result ≡ is_blank self.now }
    {
        is_blank_label(self.as_str())
    }

    /// How this text stands to another in the order of their bytes.
    pub fn compare(&self, other: &str) -> Ordering
        ensures { result ≡ byte_order self.now other.now }
    {
        self.as_str().cmp(other)
    }
}

fn is_blank_label(text: &str) -> bool
    ensures { result ≡ is_blank text.now }
{
    match text.as_bytes() {
        [b'_', b':', ..] => true,
        _ => false,
    }
}

impl Clone for Text {
    ghost is_clone = { λ text copy. copy ≡ text };

    fn clone(&self) -> Result<Text, AllocError> {
        self.copy()
    }
}

impl PartialEq for Text {
    ghost eq = { bytes_eq };

    ghost laws = { Prim.search (comparing, rules) };

    fn eq(&self, other: &Text) -> bool {
        self.as_str() == other.as_str()
    }
}

impl Eq for Text {
    ghost laws = { Prim.search (comparing, rules) };
}

impl Ord for Text {
    ghost cmp = { byte_order };

    ghost total = { Prim.search (comparing, rules) };

    ghost matches_partial_cmp = { Prim.search (comparing, rules) };

    ghost matches_eq = { Prim.search (comparing, rules) };

    fn cmp(&self, other: &Text) -> Ordering {
        self.compare(other.as_str())
    }
}

impl PartialOrd for Text {
    ghost partial_cmp = { as_partial_cmp byte_order };

    ghost laws = { partial_order_from_own_ties (Prim.search (comparing, rules)) (Prim.search (comparing, rules)) };

    fn partial_cmp(&self, other: &Text) -> Option<Ordering> {
        Some(self.cmp(other))
    }
}

impl Hash for Text {
    ghost hash_input = { fed.str };

    ghost respects_eq = { Prim.search (hashing, rules) };

    fn hash<H: Hasher>(&self, state: &mut H) {
        self.as_str().hash(state);
    }
}

impl Debug for Text {
    fn fmt<W: Write>(&self, f: &mut Formatter<W>) -> fmt::Result {
        let text = self.as_str();
        Debug::fmt(&text, f)
    }
}
