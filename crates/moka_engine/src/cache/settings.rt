//! The settings and the name of a cache, and the hash of a key.
ghost use Rattle.std.specs.Prelude.{◌≡◌, ◌↔◌, IsTrue, Some, option_map};

use crate::cache::BaseCache;
use engine_reference::{Hashes, Rules};
use std::hash::{BuildHasher, Hash};

impl<K: Eq + Hash, V, S: BuildHasher, R: Rules<K, V>> BaseCache<K, V, S, R> {
    /// Returns whether the cache stores nothing, because its capacity is 0. The owner of such a cache should not write.
    pub fn is_map_disabled(&self) -> bool
        ensures { IsTrue result ↔ (self.now.settings.capacity ≡ Some 0) }
    {
        matches!(self.tables.settings().capacity, Some(0))
    }

    /// Returns the name of the cache, or `None` if it has none.
    pub fn name(&self) -> Option<&str>
        ensures name { option_map (λ text. text.now) result ≡ self.now.name }
    {
        self.tables.name()
    }

    /// Returns the hash of a key by the cache's hasher.
    pub fn hash(&self, key: &K) -> u64
        ensures { result ≡ ⟦<S as Hashes<K>>⟧.hash self.now.hasher key.now }
    {
        self.tables.hasher().hash_key(key)
    }
}
