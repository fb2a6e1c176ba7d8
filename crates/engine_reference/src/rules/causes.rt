//! Why a value left, and why a predicate is refused.
ghost use Rattle.std.specs.Prelude.{◌≡◌, ◌↔◌, ◌⊎◌, IsTrue};

use thiserror::Error;

/// Why a value left a cache.
#[derive(Clone, Copy, Debug, PartialEq, Eq)]
pub enum RemovalCause {
    /// The value had reached its deadline.
    Expired,
    /// The value was removed by its key, or invalidated by a clear or a predicate.
    Explicit,
    /// Another value was written under the same key.
    Replaced,
    /// The cache was heavier than its capacity.
    Size,
}

impl RemovalCause {
    /// Returns whether the cache removed the value by itself: it expired, or there was no room for it.
    pub fn was_evicted(self) -> bool
        ensures { IsTrue result ↔ ((self ≡ RemovalCause.Expired) ⊎ (self ≡ RemovalCause.Size)) }
    {
        match self {
            RemovalCause::Expired | RemovalCause::Size => true,
            RemovalCause::Explicit | RemovalCause::Replaced => false,
        }
    }
}

/// Why a predicate is refused.
#[derive(Clone, Copy, Debug, PartialEq, Eq, Drop, Error)]
pub enum PredicateError {
    /// The cache was made without support for predicates.
    #[error("invalidation closures are disabled")]
    InvalidationClosuresDisabled,
}
