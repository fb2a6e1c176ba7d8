//! Calls by what names a key.
ghost use Rattle.std.specs.Prelude.{◌≡◌, IfErr};
ghost use Rattle.std.specs.Arc.{arc_value};
ghost use Rattle.moka_sync.specs.Holding.{DoneUnderLock, DidGet, DidInvalidate, DidRemove, DidSee};
ghost use Rattle.moka_sync.specs.Spreading.{desk_number};
ghost use Rattle.sync_desk.specs.Slots.Refusals.{IsShortage};

use crate::cache::SharedCache;
use engine_reference::{Hashes, Rules};
use front_parts::HasWays;
use front_reference::CacheError;
use front_state::HashedName;
use std::hash::{BuildHasher, Hash};
use std::sync::Wait;
use sync_desk::Env;

impl<
    K: Eq + Hash + Drop,
    V: Clone + Drop,
    S: BuildHasher + Drop,
    R: Rules<K, V> + Drop,
    E: Env + Drop,
    C: Drop,
> SharedCache<K, V, S, R, E, C> {
    /// Like `get`, by what names the key: a `TextName` for a `String`, a `BytesName` for a `Vec<u8>`. The call makes no key. Returns the
    /// errors of `get`.
    /// ```
    /// let price = cache.get_by_name(&rt, &TextName::new("pear"))?;
    /// ```
    pub fn get_by_name<Q: HashedName<K>>(
        &self,
        rt: &impl Wait,
        name: &Q,
    ) -> Result<Option<V>, CacheError>
        requires exact { (x y : V) → V.is_clone x y → y ≡ x }
        ensures did { DoneUnderLock (desk_number (⟦<S as Hashes<K>>⟧.hash)
            (arc_value self.now.inner).spread (Q.named_key name.now))
            (DidGet ⟦<R as HasWays<K, V, S>>⟧.ways (Q.named_key name.now) result) }
        ensures cause { IfErr result IsShortage }
    {
        let mut guard = self.inner.lock_named(rt, name);
        let desk = &mut *guard;
        desk.get_by_name(name)
    }

    /// Like `contains_key`, by what names the key.
    /// ```
    /// let is_known = cache.contains_key_by_name(&rt, &TextName::new("pear"));
    /// ```
    pub fn contains_key_by_name<Q: HashedName<K>>(&self, rt: &impl Wait, name: &Q) -> bool
        ensures { DoneUnderLock (desk_number (⟦<S as Hashes<K>>⟧.hash)
            (arc_value self.now.inner).spread (Q.named_key name.now))
            (DidSee ⟦<R as HasWays<K, V, S>>⟧.ways (Q.named_key name.now) result) }
    {
        let mut guard = self.inner.lock_named(rt, name);
        let desk = &mut *guard;
        desk.contains_key_by_name(name)
    }

    /// Like `remove`, and with its errors, by what names the key.
    /// ```
    /// let last = cache.remove_by_name(&rt, &TextName::new("pear"))?;
    /// ```
    pub fn remove_by_name<Q: HashedName<K>>(
        &self,
        rt: &impl Wait,
        name: &Q,
    ) -> Result<Option<V>, CacheError>
        requires exact { (x y : V) → V.is_clone x y → y ≡ x }
        ensures did { DoneUnderLock (desk_number (⟦<S as Hashes<K>>⟧.hash)
            (arc_value self.now.inner).spread (Q.named_key name.now))
            (DidRemove ⟦<R as HasWays<K, V, S>>⟧.ways (Q.named_key name.now) result) }
        ensures cause { IfErr result IsShortage }
    {
        let mut guard = self.inner.lock_named(rt, name);
        let desk = &mut *guard;
        desk.remove_by_name(name)
    }

    /// Like `invalidate`, and with its errors, by what names the key.
    /// ```
    /// cache.invalidate_by_name(&rt, &TextName::new("pear"))?;
    /// ```
    pub fn invalidate_by_name<Q: HashedName<K>>(
        &self,
        rt: &impl Wait,
        name: &Q,
    ) -> Result<(), CacheError>
        requires exact { (x y : V) → V.is_clone x y → y ≡ x }
        ensures did { DoneUnderLock (desk_number (⟦<S as Hashes<K>>⟧.hash)
            (arc_value self.now.inner).spread (Q.named_key name.now))
            (DidInvalidate ⟦<R as HasWays<K, V, S>>⟧.ways (Q.named_key name.now) result) }
        ensures cause { IfErr result IsShortage }
    {
        let mut guard = self.inner.lock_named(rt, name);
        let desk = &mut *guard;
        desk.invalidate_by_name(name)
    }
}
