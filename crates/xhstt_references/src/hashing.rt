//! How names are hashed: beginning with a number that is drawn from the names themselves.

use std::hash::{BuildHasher, DefaultHasher, FoldHasher, Hasher};

/// The number that the hashes of some names begin with, drawn from these names.
///
/// The fast hash that finds a name is no secret, so names that share a hash can be computed for any number
/// known beforehand. This number is a stronger hash of all names together, so nearly every change of a name
/// changes it, and such names are costly to find.
#[derive(Clone, Copy)]
pub struct Seed {
    state: DefaultHasher,
}

impl Seed {
    /// The number that hashes of no names begin with.
    pub fn new() -> Seed {
        Seed {
            state: DefaultHasher::new(),
        }
    }

    /// Adds a name, in time in proportion to it.
    pub fn add(&mut self, name: &str) {
        self.state.write(name.as_bytes());
        self.state.write_u8(0xff);
    }

    /// The number of the names so far, in constant time.
    pub fn number(&self) -> u64 {
        self.state.finish()
    }
}

/// Makes hashers that all begin with one number.
#[derive(Clone, Copy)]
pub(crate) struct SeededHashing {
    begun: FoldHasher,
}

impl SeededHashing {
    /// Hashers that begin with this number.
    pub(crate) fn new(seed: u64) -> SeededHashing {
        let mut begun = FoldHasher::default();
        begun.write_u64(seed);
        SeededHashing { begun }
    }
}

impl BuildHasher for SeededHashing {
    type Hasher = FoldHasher;

    ghost build_hasher = { λ h. h.begun };

    fn build_hasher(&self) -> FoldHasher {
        self.begun
    }
}
