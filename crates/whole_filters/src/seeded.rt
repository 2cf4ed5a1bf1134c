//! The hashing of keys that come from files.

ghost use Rattle.std.specs.Prelude.{◌≡◌};

use std::hash::{BuildHasher, FoldHasher, Hasher};

/// Hashes by a seed, so that who doesn't know it can't choose points whose keys collide.
#[derive(Clone, Copy)]
pub(crate) struct Seeded {
    begun: FoldHasher,
}

impl Seeded {
    /// The hashing by a seed.
    pub(crate) fn by(seed: u64) -> Seeded {
        let mut begun = FoldHasher::default();
        begun.write_u64(seed);
        Seeded { begun }
    }
}

impl BuildHasher for Seeded {
    type Hasher = FoldHasher;

    ghost build_hasher = { λ s. s.begun };

    fn build_hasher(&self) -> FoldHasher {
        self.begun
    }
}
