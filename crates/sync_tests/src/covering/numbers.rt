//! A predicate on a number, a hasher that answers it, and a generator whose words turn.
ghost use Rattle.std.specs.Prelude.{ℕ, ◌-◌, ◌==◌, if◌then◌else◌};
ghost use Rattle.rand_core.specs.Steps.{stream_of, steps_u32};

use moka_sync::Predicate;
use rand_core::utils::NextWord;
use rand_core::{Rng, utils};
use std::hash::{BuildHasher, Hasher};
use std::marker::Model;

/// Covers each entry of a value.
#[derive(Drop)]
pub struct HasValue(pub u64);

impl Predicate<u64, u64> for HasValue {
    ghost covers = { λ p _ value. value == p.0 };

    fn is_match(&self, _key: &u64, value: &u64) -> bool {
        *value == self.0
    }
}

/// Hashes a number of 64 bits to itself.
#[derive(Clone, Copy, Drop)]
pub struct Itself;

/// What was read of a number.
#[derive(Clone, Copy)]
pub struct ItselfHasher {
    number: u64,
}

impl Hasher for ItselfHasher {
    ghost use Rattle.std.specs.List.{fold};
    ghost use Rattle.sync_tests.specs.Numbers.{number_after_byte};

    ghost write = { λ s bytes. record s { number = fold number_after_byte s.number bytes } };

    ghost finish = { λ s. s.number };

    fn finish(&self) -> u64 {
        self.number
    }

    fn write(&mut self, bytes: &[u8]) {
        let mut number = self.number;
        for b in bytes {
            let high = u64::from(*b).wrapping_mul(72057594037927936);
            number = (number / 256).wrapping_add(high);
        }
        self.number = number;
    }
}

impl BuildHasher for Itself {
    type Hasher = ItselfHasher;

    ghost build_hasher = { λ s. record { number = 0 } };

    fn build_hasher(&self) -> ItselfHasher {
        ItselfHasher { number: 0 }
    }
}

/// Gives so many words of 0, and then words whose bits are all 1.
#[derive(Drop)]
pub struct Turning(pub u32);

impl Model for Turning {
    ghost Value = { ℕ };

    ghost view = { λ a. a.0 };
}

impl NextWord<u32> for Turning {
    ghost step = { λ s. (if s == 0 then 4294967295 else 0, s - 1) };

    fn next_word(&mut self) -> u32 {
        if self.0 == 0 {
            return u32::MAX;
        }
        self.0 -= 1;
        0
    }
}

impl Rng for Turning {
    ghost stream = { stream_of (steps_u32 (λ s. (if s == 0 then 4294967295 else 0, s - 1))) };

    fn next_u32(&mut self) -> u32 {
        self.next_word()
    }

    fn next_u64(&mut self) -> u64 {
        utils::next_u64_via_u32(self)
    }

    fn fill_bytes(&mut self, dst: &mut [u8]) {
        utils::fill_bytes_via_u32(self, dst)
    }
}
