//! Rules that are ready to use: a weigher by length, an expiry that only sets the time at creation, a predicate by prefix.
ghost use Rattle.std.specs.Prelude.{◌≡◌, ℕ, Option, option_map, min};
ghost use Rattle.std.specs.Duration.{as_nanos};

use engine_reference::{Expiry, Predicate, Weigher};
use front_reference::Shared;
use policy_base::Instant;
use std::time::Duration;

/// A `Weigher` that weighs a text or a list of bytes, shared or not, by its number of bytes, at most 2^32 - 1. Keys weigh nothing.
/// ```
/// let builder = CacheBuilder::new(1 << 20).weigher(WeighBytes);
/// ```
#[derive(Clone, Copy, Debug, PartialEq, Eq, Drop)]
pub struct WeighBytes;

/// A number of bytes as a weight.
fn weight_of(bytes: usize) -> u32
    ensures { result ≡ min bytes 4294967295 }
{
    u32::try_from(bytes).unwrap_or(u32::MAX)
}

impl<K> Weigher<K, String> for WeighBytes {
    ghost use Rattle.std.specs.Prelude.{min};
    ghost use Rattle.std.specs.String.{string_len};

    ghost weight_of = { λ _ _ value. min (string_len value) 4294967295 };

    fn weigh(&self, _key: &K, value: &String) -> u32 {
        weight_of(value.len())
    }
}

impl<K> Weigher<K, Vec<u8>> for WeighBytes {
    ghost use Rattle.std.specs.Prelude.{min, vec_len};

    ghost weight_of = { λ _ _ value. min (vec_len value) 4294967295 };

    fn weigh(&self, _key: &K, value: &Vec<u8>) -> u32 {
        weight_of(value.len())
    }
}

impl<K> Weigher<K, Shared<String>> for WeighBytes {
    ghost use Rattle.std.specs.Prelude.{min};
    ghost use Rattle.std.specs.String.{string_len};

    ghost weight_of = { λ _ _ value. min (string_len value) 4294967295 };

    fn weigh(&self, _key: &K, value: &Shared<String>) -> u32 {
        weight_of(value.len())
    }
}

impl<K> Weigher<K, Shared<Vec<u8>>> for WeighBytes {
    ghost use Rattle.std.specs.Prelude.{min, vec_len};

    ghost weight_of = { λ _ _ value. min (vec_len value) 4294967295 };

    fn weigh(&self, _key: &K, value: &Shared<Vec<u8>>) -> u32 {
        weight_of(value.len())
    }
}

/// How long a value lives after its creation. `ByCreation` makes an `Expiry` of it.
pub trait Lifetime<K, V> {
    /// The result in nanoseconds, by key and value.
    ghost lifetime: { Self → K → V → Option ℕ };

    /// Returns how long the value lives, or `None` if it does not expire by itself. The result depends on key and value only.
    fn lifetime(&self, key: &K, value: &V) -> Option<Duration>
        ensures { option_map as_nanos result ≡ lifetime self.now key.now value.now };
}

/// An `Expiry` that sets the time at creation and nothing else: reads and updates do not change the remaining time, as with the default
/// bodies in `moka`.
/// ```
/// let builder = CacheBuilder::new(1000).expire_after(ByCreation(SessionTime));
/// ```
#[derive(Clone, Copy, Debug, PartialEq, Eq, Drop)]
pub struct ByCreation<L>(pub L);

impl<K, V, L: Lifetime<K, V>> Expiry<K, V> for ByCreation<L> {
    ghost created = { λ by key value _. L.lifetime by.0 key value };

    ghost read = { λ _ _ _ _ left _. left };

    ghost updated = { λ _ _ _ _ left. left };

    fn expire_after_create(&self, key: &K, value: &V, _created_at: Instant) -> Option<Duration> {
        self.0.lifetime(key, value)
    }

    fn expire_after_read(
        &self,
        _key: &K,
        _value: &V,
        _read_at: Instant,
        remaining: Option<Duration>,
        _last_modified_at: Instant,
    ) -> Option<Duration> {
        remaining
    }

    fn expire_after_update(
        &self,
        _key: &K,
        _value: &V,
        _updated_at: Instant,
        remaining: Option<Duration>,
    ) -> Option<Duration> {
        remaining
    }
}

/// A `Predicate` that matches the values whose keys begin with a text.
/// ```
/// let builder = CacheBuilder::new(1000).support_invalidation_closures::<KeyPrefix>();
/// let id = cache.invalidate_entries_if(&rt, KeyPrefix(prefix))?;
/// ```
#[derive(Drop)]
pub struct KeyPrefix(pub String);

impl<V> Predicate<String, V> for KeyPrefix {
    ghost use Rattle.std.specs.Prelude.{nat_eq};
    ghost use Rattle.std.specs.List.{starts_with};
    ghost use Rattle.std.specs.String.{string_bytes};

    ghost covers = { λ prefix key _. starts_with nat_eq (string_bytes key)
        (string_bytes prefix.0) };

    fn is_match(&self, key: &String, _value: &V) -> bool {
        key.as_bytes().starts_with(self.0.as_bytes())
    }
}
