//! The hashing of subjects. A peer that sends updates chooses subjects: if each table used the same
//! hash, the peer could choose many subjects with one place.

use std::hash::{BuildHasher, FoldHasher, Hasher};

/// Makes the hasher of each subject or register, which has already read the table's salt.
#[derive(Clone, Copy, Drop)]
pub struct Salted {
    start: FoldHasher,
}

impl Salted {
    /// Returns a `Salted` that hashes with this salt.
    pub fn new(salt: u64) -> Self {
        let mut start = FoldHasher::default();
        start.write(&salt.to_le_bytes());
        Salted { start }
    }
}

impl BuildHasher for Salted {
    type Hasher = FoldHasher;

    ghost build_hasher = { λ s. s.start };

    fn build_hasher(&self) -> FoldHasher {
        self.start
    }
}
