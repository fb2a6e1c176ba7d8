//! A hasher that sends keys where a test says.
ghost use Rattle.std.specs.Prelude.{length, ◌*◌, ◌%◌};

use std::hash::{BuildHasher, Hasher};

/// Keys of length 0 to 3, and of four more each, have numbers in the first to the last quarter.
#[derive(Clone, Copy, Drop)]
pub struct ByLength;

/// The length of what was hashed last.
#[derive(Clone, Copy, Drop)]
pub struct LastLength {
    bytes: usize,
}

impl Hasher for LastLength {
    ghost use Rattle.std.specs.Prelude.{length, ◌*◌, ◌%◌};

    ghost write = { λ s bytes. record { bytes = length bytes } };

    ghost finish = { λ s. s.bytes % 4 * 4611686018427387904 };

    fn finish(&self) -> u64 {
        (self.bytes % 4) as u64 * (1 << 62)
    }

    fn write(&mut self, bytes: &[u8]) {
        self.bytes = bytes.len();
    }
}

impl BuildHasher for ByLength {
    type Hasher = LastLength;

    ghost build_hasher = { λ builder. record { bytes = 0 } };

    fn build_hasher(&self) -> LastLength {
        LastLength { bytes: 0 }
    }
}
