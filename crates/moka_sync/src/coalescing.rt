//! Calls that make a value if none is visible. Of several callers for a key one makes it, and the others wait for it.
ghost use Rattle.std.specs.Prelude.{◌≡◌, IfErr, IfOk};
ghost use Rattle.std.specs.Arc.{arc_value};
ghost use Rattle.std.specs.Fn.{FnReturnsAt};
ghost use Rattle.front_parts.specs.Access.Selecting.{with_fault};
ghost use Rattle.moka_sync.specs.Making.{MayPass, NotPassed, OptionUnderLock, ResultUnderLock, ValueUnderLock};
ghost use Rattle.moka_sync.specs.Spreading.{desk_number};
ghost use Rattle.moka_sync.specs.declared.turns.Passing.TheVariants as asks;
ghost use Rattle.sync_desk.specs.Slots.Refusals.{IsTurnRefusal};

use crate::cache::SharedCache;
use crate::turns::{Passing, passes_nothing};
use engine_reference::{Hashes, Rules};
use front_parts::HasWays;
use front_reference::{CacheError, ClonedKey, OwnedKey};
use front_state::Segmented;
use std::hash::{BuildHasher, Hash};
use std::sync::{Arc, Wait};
use sync_desk::Env;

impl<
    K: Eq + Hash + Drop,
    V: Clone + Drop,
    S: BuildHasher + Drop,
    R: Rules<K, V> + Drop,
    E: Env + Drop,
    C: Drop,
> SharedCache<K, V, S, R, E, C> {
    /// Returns a clone of the visible value of a key, which counts as a use of it. If there is none, `make` makes one, which is stored. Of
    /// concurrent calls of this kind for the same key, one runs its `make`, without the lock, and the others wait for its result. If there
    /// is not enough memory for the value or a clone of it, the call returns `OutOfMemory`, and those that wait begin again. A call that
    /// has waited 200 times in vain returns `Abandoned`, and one for which the cache's 64-bit numbers are used up `UsedUp`. A write, a
    /// removal or a clear in the meantime does not prevent the value from being inserted. Which values can be proved is said at `get`.
    /// ```
    /// let square = cache.get_with(&rt, 7, || 49)?;
    /// ```
    pub fn get_with<H: Wait, M: FnOnce() -> V + Drop>(
        &self,
        rt: &H,
        key: K,
        make: M,
    ) -> Result<V, CacheError>
        requires exact { (x y : V) → V.is_clone x y → y ≡ x }
        requires callable { M.IsAlwaysCallable make }
        ensures made { IfOk result (ValueUnderLock
            ⟦<R as HasWays<K, V, S>>⟧.ways
            (desk_number (⟦<S as Hashes<K>>⟧.hash) (arc_value self.now.inner).spread key) R.Fault key
            NotPassed (M.post make)) }
        ensures cause { IfErr result IsTurnRefusal }
    {
        let desk = self.inner.of(&key);
        let asked = OwnedKey {
            key,
            alloc: self.alloc,
        };
        desk.make_value(rt, asked, Passing::Never, passes_nothing, make)
    }

    /// Like `get_with`, and with its errors, with a borrowed key, which is cloned only if a turn begins. The clone must equal the key to
    /// contracts. The clone of a `String` or a `Vec` does not: with such keys the call runs under `rt try`, and `rt check` can never prove
    /// it. Take a `Shared<String>` or a `Shared<Vec<X>>` as the key.
    /// ```
    /// let page = cache.get_with_by_ref(&rt, &address, || fetch(&address))?;
    /// ```
    pub fn get_with_by_ref<H: Wait, M: FnOnce() -> V + Drop>(
        &self,
        rt: &H,
        key: &K,
        make: M,
    ) -> Result<V, CacheError>
    where
        K: Clone,
        requires exact_key { (x y : K) → K.is_clone x y → y ≡ x }
        requires exact { (x y : V) → V.is_clone x y → y ≡ x }
        requires callable { M.IsAlwaysCallable make }
        ensures made { IfOk result (ValueUnderLock
            ⟦<R as HasWays<K, V, S>>⟧.ways
            (desk_number (⟦<S as Hashes<K>>⟧.hash) (arc_value self.now.inner).spread key.now) R.Fault key.now
            NotPassed (M.post make)) }
        ensures cause { IfErr result IsTurnRefusal }
    {
        let desk = self.inner.of(key);
        let asked = ClonedKey {
            key,
            alloc: self.alloc,
        };
        desk.make_value(rt, asked, Passing::Never, passes_nothing, make)
    }

    /// Like `get_with`, except that a visible value for which `replace_if` returns true counts as none. `replace_if` is called on a clone
    /// of the value, without the lock, so it may use the same cache. The closure is called again if a value of the key may have been
    /// written in the meantime. The closure is not called on what another call of the same kind makes while this one waits for it. Returns
    /// the errors of `get_with`. Which values can be proved is said at `get`.
    /// ```
    /// let fresh = cache.get_with_if(&rt, 7, || 50, |old| *old < 50)?;
    /// ```
    pub fn get_with_if<H: Wait, M: FnOnce() -> V + Drop, P: Fn(&V) -> bool + Drop>(
        &self,
        rt: &H,
        key: K,
        make: M,
        replace_if: P,
    ) -> Result<V, CacheError>
        requires exact { (x y : V) → V.is_clone x y → y ≡ x }
        requires callable { P.IsAlwaysCallable replace_if × M.IsAlwaysCallable make }
        ensures made { IfOk result (ValueUnderLock
            ⟦<R as HasWays<K, V, S>>⟧.ways
            (desk_number (⟦<S as Hashes<K>>⟧.hash) (arc_value self.now.inner).spread key) R.Fault key
            (MayPass asks.Unasked (FnReturnsAt P.Fn replace_if)) (M.post make)) }
        ensures cause { IfErr result IsTurnRefusal }
    {
        let desk = self.inner.of(&key);
        let asked = OwnedKey {
            key,
            alloc: self.alloc,
        };
        desk.make_value(rt, asked, Passing::Unasked, replace_if, make)
    }

    /// Like `get_with`, except that `make` may return `None`. Then nothing is stored, and this call and those that wait for it return
    /// `None`. Returns the errors of `get_with`. Which values can be proved is said at `get`.
    /// ```
    /// let half = cache.optionally_get_with(&rt, number, || (number % 2 == 0).then_some(number / 2))?;
    /// ```
    pub fn optionally_get_with<H: Wait, M: FnOnce() -> Option<V> + Drop>(
        &self,
        rt: &H,
        key: K,
        make: M,
    ) -> Result<Option<V>, CacheError>
        requires exact { (x y : V) → V.is_clone x y → y ≡ x }
        requires callable { M.IsAlwaysCallable make }
        ensures made { IfOk result (OptionUnderLock
            ⟦<R as HasWays<K, V, S>>⟧.ways
            (desk_number (⟦<S as Hashes<K>>⟧.hash) (arc_value self.now.inner).spread key) R.Fault key
            (M.post make)) }
        ensures cause { IfErr result IsTurnRefusal }
    {
        let desk = self.inner.of(&key);
        let asked = OwnedKey {
            key,
            alloc: self.alloc,
        };
        desk.make_option(rt, asked, make)
    }

    /// Like `optionally_get_with`, and with its errors, with a borrowed key, which is cloned only if a turn begins. Which keys can be
    /// proved is said at `get_with_by_ref`.
    pub fn optionally_get_with_by_ref<H: Wait, M: FnOnce() -> Option<V> + Drop>(
        &self,
        rt: &H,
        key: &K,
        make: M,
    ) -> Result<Option<V>, CacheError>
    where
        K: Clone,
        requires exact_key { (x y : K) → K.is_clone x y → y ≡ x }
        requires exact { (x y : V) → V.is_clone x y → y ≡ x }
        requires callable { M.IsAlwaysCallable make }
        ensures made { IfOk result (OptionUnderLock
            ⟦<R as HasWays<K, V, S>>⟧.ways
            (desk_number (⟦<S as Hashes<K>>⟧.hash) (arc_value self.now.inner).spread key.now) R.Fault key.now
            (M.post make)) }
        ensures cause { IfErr result IsTurnRefusal }
    {
        let desk = self.inner.of(key);
        let asked = ClonedKey {
            key,
            alloc: self.alloc,
        };
        desk.make_option(rt, asked, make)
    }

    /// Like `get_with`, except that `make` may fail. Then nothing is stored, and this call and those that wait for it return the same
    /// fault, in an `Arc`. The outer error is the cache's own, as that of `get_with`. Which values can be proved is said at `get`.
    /// ```
    /// match cache.try_get_with(&rt, 7, || read_row(7))? {
    ///     Ok(row) => show(&row),
    ///     Err(fault) => report(&fault),
    /// }
    /// ```
    pub fn try_get_with<H: Wait, M: FnOnce() -> Result<V, R::Fault> + Drop>(
        &self,
        rt: &H,
        key: K,
        make: M,
    ) -> Result<Result<V, Arc<R::Fault>>, CacheError>
        requires exact { (x y : V) → V.is_clone x y → y ≡ x }
        requires callable { M.IsAlwaysCallable make }
        ensures made { IfOk result (λ r. ResultUnderLock
            ⟦<R as HasWays<K, V, S>>⟧.ways
            (desk_number (⟦<S as Hashes<K>>⟧.hash) (arc_value self.now.inner).spread key) key
            (M.post make) (with_fault arc_value r)) }
        ensures cause { IfErr result IsTurnRefusal }
    {
        let desk = self.inner.of(&key);
        let asked = OwnedKey {
            key,
            alloc: self.alloc,
        };
        desk.make_result(rt, asked, make)
    }

    /// Like `try_get_with`, and with its errors, with a borrowed key, which is cloned only if a turn begins. Which keys can be proved is
    /// said at `get_with_by_ref`.
    pub fn try_get_with_by_ref<H: Wait, M: FnOnce() -> Result<V, R::Fault> + Drop>(
        &self,
        rt: &H,
        key: &K,
        make: M,
    ) -> Result<Result<V, Arc<R::Fault>>, CacheError>
    where
        K: Clone,
        requires exact_key { (x y : K) → K.is_clone x y → y ≡ x }
        requires exact { (x y : V) → V.is_clone x y → y ≡ x }
        requires callable { M.IsAlwaysCallable make }
        ensures made { IfOk result (λ r. ResultUnderLock
            ⟦<R as HasWays<K, V, S>>⟧.ways
            (desk_number (⟦<S as Hashes<K>>⟧.hash) (arc_value self.now.inner).spread key.now) key.now
            (M.post make) (with_fault arc_value r)) }
        ensures cause { IfErr result IsTurnRefusal }
    {
        let desk = self.inner.of(key);
        let asked = ClonedKey {
            key,
            alloc: self.alloc,
        };
        desk.make_result(rt, asked, make)
    }
}

impl<
    K: Eq + Hash + Drop,
    V: Clone + Drop,
    S: BuildHasher + Drop,
    R: Rules<K, V> + Drop,
    E: Env + Drop,
> SharedCache<K, V, S, R, E, Segmented> {
    /// Does what `get_with` does, and returns its errors.
    pub fn get_or_insert_with<H: Wait, M: FnOnce() -> V + Drop>(
        &self,
        rt: &H,
        key: K,
        make: M,
    ) -> Result<V, CacheError>
        requires exact { (x y : V) → V.is_clone x y → y ≡ x }
        requires callable { M.IsAlwaysCallable make }
        ensures made { IfOk result (ValueUnderLock
            ⟦<R as HasWays<K, V, S>>⟧.ways
            (desk_number (⟦<S as Hashes<K>>⟧.hash) (arc_value self.now.inner).spread key) R.Fault key
            NotPassed (M.post make)) }
        ensures cause { IfErr result IsTurnRefusal }
    {
        self.get_with(rt, key, make)
    }

    /// Does what `try_get_with` does, and returns its errors.
    pub fn get_or_try_insert_with<H: Wait, M: FnOnce() -> Result<V, R::Fault> + Drop>(
        &self,
        rt: &H,
        key: K,
        make: M,
    ) -> Result<Result<V, Arc<R::Fault>>, CacheError>
        requires exact { (x y : V) → V.is_clone x y → y ≡ x }
        requires callable { M.IsAlwaysCallable make }
        ensures made { IfOk result (λ r. ResultUnderLock
            ⟦<R as HasWays<K, V, S>>⟧.ways
            (desk_number (⟦<S as Hashes<K>>⟧.hash) (arc_value self.now.inner).spread key) key
            (M.post make) (with_fault arc_value r)) }
        ensures cause { IfErr result IsTurnRefusal }
    {
        self.try_get_with(rt, key, make)
    }
}
