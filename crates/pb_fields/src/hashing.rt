use std::hash::{BuildHasher, Hasher};

const MULTIPLIER: u64 = 0x9e37_79b9_7f4a_7c15;

/// Hashes the names of blocks, byte by byte. It costs a tenth of the hash that a map has else. There are twelve such names, and a
/// script can't add to them.
#[derive(Clone, Copy)]
pub(crate) struct NameHasher {
    state: u64,
}

impl NameHasher {
    pub(crate) fn new() -> NameHasher {
        NameHasher { state: 0 }
    }
}

impl Hasher for NameHasher {
    ghost use Rattle.pb_fields.specs.Hashing.{mixed};

    ghost write = { mixed };

    ghost finish = { λ hasher. hasher.state };

    fn finish(&self) -> u64 {
        self.state
    }

    #[tactic(auto, unfolding(crate::specs::Hashing::mixed))]
    fn write(&mut self, bytes: &[u8]) {
        if let [byte] = bytes {
            self.state = (self.state ^ u64::from(*byte)).wrapping_mul(MULTIPLIER);
        }
    }
}

impl BuildHasher for NameHasher {
    type Hasher = NameHasher;

    ghost build_hasher = { λ hasher. hasher };

    fn build_hasher(&self) -> NameHasher {
        *self
    }
}
