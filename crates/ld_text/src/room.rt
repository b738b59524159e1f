// A short text in an array of bytes.
ghost use Rattle.std.specs.Prelude.{◌≡◌, ◌≤◌, length, take, IsUtf8};

use std::str;

/// A text of at most `N` bytes, at the front of `room`.
#[derive(Clone, Copy)]
pub(crate) struct Room<const N: usize> {
    len: u8,
    room: [u8; N],
    ghost fits: { len ≤ N },
    ghost utf8: { ∥ IsUtf8 (take len room) ∥₁ },
}

impl<const N: usize> Room<N> {
    /// A copy of `text`.
    pub(crate) fn of(text: &str) -> Room<N>
        requires fits { length text.now ≤ N }
        requires counted { N ≤ 255 }
        ensures { take result.len result.room ≡ text.now }
    {
        let mut room = [0u8; N];
        let len = text.len();
        room[..len].copy_from_slice(text.as_bytes());
        Room {
            len: len as u8,
            room,
        }
    }

    /// The text, borrowed.
    pub(crate) fn as_str(&self) -> &str
        ensures { result.now ≡ take self.now.len self.now.room }
    {
        // An invariant of the type says that the bytes are UTF-8, so they aren't looked at again.
        unsafe { str::from_utf8_unchecked(&self.room[..self.len as usize]) }
    }
}
