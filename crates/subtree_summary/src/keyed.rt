// Hashers of names under a key.
use std::hash::{BuildHasher, DefaultHasher, Hasher};

/// Makes the hashers of a map or a set of names, all under one key. Each is std's SipHash, to which the key was written before the name.
///
/// Whoever writes a document chooses its names, and who knows how they are hashed can choose names that collide. Then each look-up goes through
/// all of them. So a map of names from a document that isn't trusted wants a key that its writer couldn't know: random bytes, or a digest of the
/// whole document, which changes with each name in it.
///
/// The key tells how long look-ups take, and nothing else: what a map or a set has, and in which order, is the same under every key.
#[derive(Clone, Copy)]
pub struct Keyed {
    /// The state after the key.
    initial: DefaultHasher,
}

impl Keyed {
    /// Makes hashers under this key. It may be of any length: 16 bytes that can't be guessed are enough, and under the empty key everyone can tell
    /// which names collide.
    pub fn new(key: &[u8]) -> Keyed {
        let mut initial = DefaultHasher::new();
        initial.write(key);
        Keyed { initial }
    }
}

impl BuildHasher for Keyed {
    type Hasher = DefaultHasher;

    ghost build_hasher = { λ k. k.initial };

    fn build_hasher(&self) -> DefaultHasher {
        self.initial
    }
}
