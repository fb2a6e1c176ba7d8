//! When a value expires by itself.
ghost use Rattle.std.specs.Prelude.{◌≡◌, ℕ, Option, Some, None, option_map};
ghost use Rattle.std.specs.Duration.{as_nanos};
ghost use Rattle.engine_reference.specs.Rules.Changes.{change_of, change_from};

use policy_base::Instant;
use std::time::Duration;

/// When a value expires by itself, in addition to the times of its cache. Each method returns how long after the moment of its call the
/// value expires, or `None` for a value that does not expire by itself. The result is a function of the arguments, which the ghost members
/// give in nanoseconds.
///
/// The trait in `moka` has default bodies; here `NoExpiry` returns what they do.
pub trait Expiry<K, V> {
    /// The result for a creation, by key, value and moment.
    ghost created: { Self → K → V → ℕ → Option ℕ };

    /// The result for a read, by key, value, moment, the time left until the value expires, and the moment of its write.
    ghost read: { Self → K → V → ℕ → Option ℕ → ℕ → Option ℕ };

    /// The result for an update, by key, value, moment, and the time left until the value expires.
    ghost updated: { Self → K → V → ℕ → Option ℕ → Option ℕ };

    /// Returns how long after `created_at` a value expires that was written under a new key then, or `None` if it does not expire by
    /// itself.
    fn expire_after_create(&self, key: &K, value: &V, created_at: Instant) -> Option<Duration>
        ensures { option_map as_nanos result ≡ created self.now key.now value.now created_at };

    /// Returns how long after `read_at` a value expires that was read then, or `None` if it does not expire by itself. `remaining` is the
    /// time that was left until its expiration; if the result is equal to it, the expiration stays as it is.
    fn expire_after_read(
        &self,
        key: &K,
        value: &V,
        read_at: Instant,
        remaining: Option<Duration>,
        last_modified_at: Instant,
    ) -> Option<Duration>
        ensures { option_map as_nanos result ≡ read self.now key.now value.now read_at
            (option_map as_nanos remaining) last_modified_at };

    /// Returns how long after `updated_at` a value expires that replaced another then, or `None` if it does not expire by itself.
    /// `remaining` is the time that was left until the expiration of the other; if the result is equal to it, the expiration stays as it
    /// is.
    fn expire_after_update(
        &self,
        key: &K,
        value: &V,
        updated_at: Instant,
        remaining: Option<Duration>,
    ) -> Option<Duration>
        ensures { option_map as_nanos result
            ≡ updated self.now key.now value.now updated_at (option_map as_nanos remaining) };
}

/// An `Expiry` under which values do not expire by themselves, and reads and updates do not change the remaining time.
#[derive(Clone, Copy, Debug, PartialEq, Eq)]
pub struct NoExpiry;

impl<K, V> Expiry<K, V> for NoExpiry {
    ghost created = { λ _ _ _ _. None };

    ghost read = { λ _ _ _ _ left _. left };

    ghost updated = { λ _ _ _ _ left. left };

    fn expire_after_create(&self, _key: &K, _value: &V, _created_at: Instant) -> Option<Duration> {
        None
    }

    fn expire_after_read(
        &self,
        _key: &K,
        _value: &V,
        _read_at: Instant,
        remaining: Option<Duration>,
        _last_modified_at: Instant,
    ) -> Option<Duration> {
        remaining
    }

    fn expire_after_update(
        &self,
        _key: &K,
        _value: &V,
        _updated_at: Instant,
        remaining: Option<Duration>,
    ) -> Option<Duration> {
        remaining
    }
}

/// How a read or an update changes a value's own expiration.
#[derive(Clone, Copy, Debug, PartialEq, Eq)]
pub enum Expiration {
    /// The expiration of the value stays as it is.
    Keep,
    /// The value expires this long after the moment of the read or update, or with `None` does not expire by itself.
    Set(Option<Duration>),
}

impl Expiration {
    /// Returns what a result of an `Expiry` means, given the time left until the value expires: if the two are equal, nothing changes.
    pub fn from_answer(answer: Option<Duration>, remaining: Option<Duration>) -> Self
        ensures { change_of result
            ≡ change_from (option_map as_nanos remaining) (option_map as_nanos answer) }
    {
        match (remaining, answer) {
            (None, None) => Expiration::Keep,
            (Some(left), Some(time)) => {
                if left.as_nanos() == time.as_nanos() {
                    Expiration::Keep
                } else {
                    Expiration::Set(answer)
                }
            }
            _ => Expiration::Set(answer),
        }
    }
}
