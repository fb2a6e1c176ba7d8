//! The rules of the rows' caches: an expiration of a value's own from its creation on, weight one
//! or a value's own, and predicates by value.
ghost use Rattle.std.specs.Prelude.{ℕ, ◌==◌, Option, option_map, if◌then◌else◌};
ghost use Rattle.std.specs.Duration.{as_nanos};

use crate::rows::values::Brittle;
use engine_reference::{Bundle, Expiry, Predicate, Weigher};
use moka_engine::BaseCache;
use policy_base::Instant;
use std::hash::{BuildHasherDefault, FoldHasher};
use std::time::Duration;

/// How long each value lives from its creation on, if it has such a time. Reads and updates change
/// nothing of it.
#[derive(Drop)]
pub struct Lives {
    pub time: Option<Duration>,
}

impl Expiry<u32, Brittle> for Lives {
    ghost created = { λ s _ _ _. option_map as_nanos s.time };

    ghost read = { λ _ _ _ _ left _. left };

    ghost updated = { λ _ _ _ _ left. left };

    fn expire_after_create(
        &self,
        _key: &u32,
        _value: &Brittle,
        _created_at: Instant,
    ) -> Option<Duration> {
        self.time
    }

    fn expire_after_read(
        &self,
        _key: &u32,
        _value: &Brittle,
        _read_at: Instant,
        remaining: Option<Duration>,
        _last_modified_at: Instant,
    ) -> Option<Duration> {
        remaining
    }

    fn expire_after_update(
        &self,
        _key: &u32,
        _value: &Brittle,
        _updated_at: Instant,
        remaining: Option<Duration>,
    ) -> Option<Duration> {
        remaining
    }
}

/// How much values weigh: what they are, or one each.
#[derive(Clone, Copy)]
pub struct Weighs {
    pub by_value: bool,
}

/// Each value weighs one.
pub const ONE: Weighs = Weighs { by_value: false };

/// Each value weighs what it is.
pub const ITSELF: Weighs = Weighs { by_value: true };

impl Weigher<u32, Brittle> for Weighs {
    ghost weight_of = { λ w _ value. if w.by_value then value.number else 1 };

    fn weigh(&self, _key: &u32, value: &Brittle) -> u32 {
        if self.by_value { value.number } else { 1 }
    }
}

/// Covers each entry of this value.
#[derive(Drop)]
pub struct ValueIs(pub u32);

impl Predicate<u32, Brittle> for ValueIs {
    ghost covers = { λ p _ value. value.number == p.0 };

    fn is_match(&self, _key: &u32, value: &Brittle) -> bool {
        value.number == self.0
    }
}

/// A hasher of std without a key of its own.
pub type Folding = BuildHasherDefault<FoldHasher>;

/// The rows' caches: numbers under numbers.
pub type Numbers = BaseCache<u32, Brittle, Folding, Bundle<Lives, Weighs, ValueIs, u8>>;
