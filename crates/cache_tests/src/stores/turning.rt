//! A generator that gives some words of 0, and then words whose bits are all 1.
ghost use Rattle.std.specs.Prelude.{ℕ, ◌-◌, ◌==◌, if◌then◌else◌};
ghost use Rattle.rand_core.specs.Steps.{stream_of, steps_u32};

use rand_core::utils::NextWord;
use rand_core::{Rng, utils};
use std::marker::Model;

/// How many words of 0 it still gives.
#[derive(Clone, Copy, Drop)]
pub struct Turning(pub u32);

impl Model for Turning {
    ghost Value = { ℕ };

    ghost view = { λ a. a.0 };

    ghost inverse = { λ n. record { 0 = n } };
}

impl NextWord<u32> for Turning {
    ghost step = { λ s. (if s == 0 then 4294967295 else 0, s - 1) };

    fn next_word(&mut self) -> u32 {
        if self.0 == 0 {
            return u32::MAX;
        }
        self.0 -= 1;
        0
    }
}

impl Rng for Turning {
    ghost stream = { stream_of (steps_u32 (λ s. (if s == 0 then 4294967295 else 0, s - 1))) };

    fn next_u32(&mut self) -> u32 {
        self.next_word()
    }

    fn next_u64(&mut self) -> u64 {
        utils::next_u64_via_u32(self)
    }

    fn fill_bytes(&mut self, dst: &mut [u8]) {
        utils::fill_bytes_via_u32(self, dst)
    }
}
