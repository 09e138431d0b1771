//! How a line's keys are hashed.

ghost use Rattle.std.specs.Prelude.{◌≡◌};
ghost use Rattle.sdp_formats_values.specs.Hashed.{with_keys};

use crate::pairs::Pair;
use std::hash::{BuildHasher, DefaultHasher, Hasher};

// Makes hashers that have already read all keys of a line, so that an attacker can't search for
// colliding keys one by one: each further key changes all hashes.
#[derive(Clone, Copy, Drop)]
pub(crate) struct LineHasher(DefaultHasher);

impl LineHasher {
    /// For the keys of these pairs.
    pub(crate) fn of(pairs: &[Pair]) -> LineHasher
        ensures { result.0 ≡ with_keys pairs.now }
    {
        let mut hasher = DefaultHasher::new();
        for pair in pairs {
            hasher.write(pair.key.as_str().as_bytes());
        }
        LineHasher(hasher)
    }
}

impl BuildHasher for LineHasher {
    type Hasher = DefaultHasher;

    ghost build_hasher = { λ s. s.0 };

    fn build_hasher(&self) -> DefaultHasher {
        self.0
    }
}
