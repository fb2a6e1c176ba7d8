//! Rules that are checked where they are set.
ghost use Rattle.std.specs.Prelude.{◌≡◌, true};

use crate::builder::CacheBuilder;
use engine_reference::{Expiry, Predicate, Weigher};

impl<X, W, P, F, C> CacheBuilder<X, W, P, F, C> {
    /// Sets what each value weighs, like `weigher`, but a type that is no `Weigher` of such keys and values is an error here, and not where
    /// the cache is built.
    /// ```
    /// let builder = CacheBuilder::new(1_000_000).weigh_by::<u64, Page, _>(BySize);
    /// ```
    pub fn weigh_by<K, V, U: Weigher<K, V>>(self, weigher: U) -> CacheBuilder<X, U, P, F, C>
    where
        W: Drop,
        ensures plan { result.plan ≡ self.plan }
        ensures expiry { result.expiry ≡ self.expiry }
        ensures weigher { result.weigher ≡ weigher }
    {
        self.weigher(weigher)
    }

    /// Sets how long each value lives by itself, like `expire_after`, but a type that is no `Expiry` of such keys and values is an error
    /// here, and not where the cache is built.
    /// ```
    /// let builder = CacheBuilder::new(1000).expire_by::<u64, Page, _>(OwnTime);
    /// ```
    pub fn expire_by<K, V, Y: Expiry<K, V>>(self, expiry: Y) -> CacheBuilder<Y, W, P, F, C>
    where
        X: Drop,
        ensures plan { result.plan ≡ self.plan }
        ensures expiry { result.expiry ≡ expiry }
        ensures weigher { result.weigher ≡ self.weigher }
    {
        self.expire_after(expiry)
    }

    /// Makes the cache accept predicates, like `support_invalidation_closures`, but a type that is no `Predicate` of such keys and values
    /// is an error here, and not where the cache is built.
    /// ```
    /// let builder = CacheBuilder::new(1000).invalidate_by::<u64, Page, OlderThan>();
    /// ```
    pub fn invalidate_by<K, V, Q: Predicate<K, V>>(self) -> CacheBuilder<X, W, Q, F, C>
        ensures plan { result.plan ≡ record self.plan { takes_predicates = true } }
        ensures expiry { result.expiry ≡ self.expiry }
        ensures weigher { result.weigher ≡ self.weigher }
    {
        self.support_invalidation_closures()
    }
}
