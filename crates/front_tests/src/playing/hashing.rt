//! A hasher that a row chooses.

use std::hash::{BuildHasher, Hasher};

/// Hashes a number of 64 bits to its product with a factor: with 1 to itself, with 0 each to the
/// same.
#[derive(Clone, Copy)]
pub struct Times {
    pub factor: u64,
}

/// What was read of a number.
#[derive(Clone, Copy)]
pub struct TimesHasher {
    factor: u64,
    number: u64,
}

impl Hasher for TimesHasher {
    ghost use Rattle.std.specs.Prelude.{◌*◌, ◌%◌, ◌^◌};
    ghost use Rattle.std.specs.List.{fold};
    ghost use Rattle.front_tests.specs.Playing.Hashed.{byte_read};

    ghost write = { λ s bytes. record s { number = fold byte_read s.number bytes } };

    ghost finish = { λ s. s.number * s.factor % 2 ^ 64 };

    fn finish(&self) -> u64 {
        self.number.wrapping_mul(self.factor)
    }

    fn write(&mut self, bytes: &[u8]) {
        let mut number = self.number;
        for b in bytes {
            let high = u64::from(*b).wrapping_mul(72057594037927936);
            number = (number / 256).wrapping_add(high);
        }
        self.number = number;
    }
}

impl BuildHasher for Times {
    type Hasher = TimesHasher;

    ghost build_hasher = { λ s. record { factor = s.factor; number = 0 } };

    fn build_hasher(&self) -> TimesHasher {
        TimesHasher {
            factor: self.factor,
            number: 0,
        }
    }
}
