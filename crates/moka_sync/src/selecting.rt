//! Selectors of an entry, on a handle that others share.
ghost use Rattle.std.specs.Prelude.{◌≡◌, false, None, Some, Ok, IfOk, IfErr, ⊤};
ghost use Rattle.std.specs.Arc.{arc_value};
ghost use Rattle.std.specs.Fn.{FnOnceReturnsAt};
ghost use Rattle.front_parts.specs.Access.Answering.{passes_none};
ghost use Rattle.front_parts.specs.Access.Entries.{entry_with, seen_entry};
ghost use Rattle.front_parts.specs.Access.Selecting.{DecidesAlways, with_fault};
ghost use Rattle.front_reference.specs.declared.data.TurnKind.TheVariants as turns;
ghost use Rattle.front_reference.specs.declared.errors.CacheError.TheVariants as errors;
ghost use Rattle.moka_sync.specs.Selecting.{ComputesAsDecided, IsOptionMade, IsResultMade, IsValueMade, PutsAsMade};
ghost use Rattle.moka_sync.specs.Spreading.{desk_number};
ghost use Rattle.sync_desk.specs.Slots.Refusals.{IsEndRefusal, IsShortage, IsTurnRefusal};

use crate::attached::Attached;
use crate::cache::SharedCache;
use crate::iterator::Iter;
use engine_reference::{Hashes, Rules};
use front_parts::{CompResult, Entry, HasWays};
use front_reference::{CacheError, Op};
use front_state::Single;
use std::alloc::AllocError;
use std::hash::{BuildHasher, Hash};
use std::sync::{Arc, Wait};
use sync_desk::Env;

/// The entry of one key of a shared cache, on which one call can be made. Its calls are those of `EntrySelector`, and are refused for the
/// same reasons as the cache's own call of their kind.
#[derive(Drop)]
pub struct SharedSelector<
    'a,
    K: Eq + Hash,
    V: Clone,
    S: BuildHasher,
    R: Rules<K, V>,
    E: Env,
    H,
    C = Single,
> {
    cache: &'a SharedCache<K, V, S, R, E, C>,
    rt: &'a H,
    key: K,
    ghost exact: { (x y : V) → V.is_clone x y → y ≡ x },
}

impl<
    K: Eq + Hash + Drop,
    V: Clone + Drop,
    S: BuildHasher + Drop,
    R: Rules<K, V> + Drop,
    E: Env + Drop,
    C: Drop,
> SharedCache<K, V, S, R, E, C> {
    /// Combines another handle of the cache with an `rt`, like `clone()?.attach(*rt)`: for `{:?}`, and for several selectors. Returns an
    /// error if the cache cannot be shared by one more handle.
    /// ```
    /// println!(rt; "{:?}", cache.attached(&rt)?)?;
    /// ```
    pub fn attached<H: Wait + Copy>(
        &self,
        rt: &H,
    ) -> Result<Attached<K, V, S, R, E, H, C>, AllocError>
        requires exact { (x y : V) → V.is_clone x y → y ≡ x }
        ensures same { IfOk result
            (λ made. arc_value made.cache.inner ≡ arc_value self.now.inner) }
    {
        let other = self.clone()?;
        Ok(other.attach(*rt))
    }

    /// Returns a selector of the entry of a key, on which one call can be made: `or_insert`, `or_insert_with`, `and_compute_with` and so
    /// on.
    /// Which values can be proved is said at `get`.
    /// ```
    /// let entry = cache.entry(&rt, 7).and_upsert_with(|seen| match seen {
    ///     Some(entry) => entry.into_value().saturating_add(1),
    ///     None => 1,
    /// })?;
    /// ```
    pub fn entry<'a, H: Wait + Copy>(
        &'a self,
        rt: &'a H,
        key: K,
    ) -> SharedSelector<'a, K, V, S, R, E, H, C>
        requires exact { (x y : V) → V.is_clone x y → y ≡ x }
        ensures cache { result.cache.now ≡ self.now }
        ensures key { result.key ≡ key }
    {
        SharedSelector {
            cache: self,
            rt,
            key,
        }
    }

    /// Like `entry`, with a borrowed key, which is cloned at once. Returns `OutOfMemory` if there is not enough memory for the clone. Which
    /// keys can be proved is said at `get_with_by_ref`.
    pub fn entry_by_ref<'a, H: Wait + Copy>(
        &'a self,
        rt: &'a H,
        key: &K,
    ) -> Result<SharedSelector<'a, K, V, S, R, E, H, C>, CacheError>
    where
        K: Clone,
        requires exact_key { (x y : K) → K.is_clone x y → y ≡ x }
        requires exact { (x y : V) → V.is_clone x y → y ≡ x }
        ensures cache { IfOk result (λ s. s.cache.now ≡ self.now) }
        ensures key { IfOk result (λ s. s.key ≡ key.now) }
        ensures cause { IfErr result (λ e. e ≡ errors.OutOfMemory) }
    {
        let own = key.clone()?;
        Ok(self.entry(rt, own))
    }

    /// Returns an iterator over the visible keys, like that of `Attached`.
    /// Which values can be proved is said at `get`.
    /// ```
    /// for item in cache.iter(&rt) {
    ///     let (key, value) = item?;
    ///     show(&key, value);
    /// }
    /// ```
    pub fn iter<'a, H: Wait>(&'a self, rt: &'a H) -> Iter<'a, K, V, S, R, E, H, C>
        requires exact { (x y : V) → V.is_clone x y → y ≡ x }
        ensures { result.cache.now ≡ self.now }
    {
        Iter::new(self, rt)
    }
}

impl<
    'a,
    K: Eq + Hash + Drop,
    V: Clone + Drop,
    S: BuildHasher + Drop,
    R: Rules<K, V> + Drop,
    E: Env + Drop,
    H: Wait + Copy,
    C: Drop,
> SharedSelector<'a, K, V, S, R, E, H, C> {
    /// Returns the visible value of the key, or the one that `make` makes, which is stored. Of several callers for the key one makes it,
    /// and the others wait for it. Returns `OutOfMemory` if there is not enough memory, `UsedUp` if the cache's 64-bit numbers are used up,
    /// and `Abandoned` if each of 200 turns that the call waited for was given up.
    pub fn or_insert_with<M: FnOnce() -> V + Drop>(self, make: M) -> Result<Entry<K, V>, CacheError>
        requires callable { M.IsAlwaysCallable make }
        ensures made { IfOk result (IsValueMade ⟦<R as HasWays<K, V, S>>⟧.ways
            (desk_number (⟦<S as Hashes<K>>⟧.hash) (arc_value self.entry.cache.now.inner).spread
            self.entry.key) R.Fault (Some turns.With) self.entry.key passes_none (M.post make)) }
        ensures shown { IfOk result (λ e. e ≡ entry_with self.entry.key e.value e.is_fresh false) }
        ensures cause { IfErr result IsTurnRefusal }
    {
        let mut attached = self.cache.attached(self.rt)?;
        match attached.entry(self.key).or_insert_with(make) {
            Ok(entry) => Ok(entry),
            Err(refused) => Err(refused),
        }
    }

    /// Like `or_insert_with`, except that a visible value for which `replace_if` returns true counts as none. `replace_if` is called once,
    /// without the lock, on the value that is visible when the call begins. Returns the errors of `or_insert_with`.
    pub fn or_insert_with_if<M: FnOnce() -> V + Drop, P: FnOnce(&V) -> bool + Drop>(
        self,
        make: M,
        replace_if: P,
    ) -> Result<Entry<K, V>, CacheError>
        requires callable { P.IsAlwaysCallable replace_if × M.IsAlwaysCallable make }
        ensures made { IfOk result (IsValueMade ⟦<R as HasWays<K, V, S>>⟧.ways
            (desk_number (⟦<S as Hashes<K>>⟧.hash) (arc_value self.entry.cache.now.inner).spread
            self.entry.key) R.Fault (Some turns.With) self.entry.key (FnOnceReturnsAt P.FnOnce replace_if) (M.post make)) }
        ensures shown { IfOk result (λ e. e ≡ entry_with self.entry.key e.value e.is_fresh false) }
        ensures cause { IfErr result IsTurnRefusal }
    {
        let mut attached = self.cache.attached(self.rt)?;
        match attached.entry(self.key).or_insert_with_if(make, replace_if) {
            Ok(entry) => Ok(entry),
            Err(refused) => Err(refused),
        }
    }

    /// Returns the visible value of the key, or else this one, which is then stored. The call waits for no other call that makes a value.
    /// Returns `OutOfMemory` if there is not enough memory, and `UsedUp` if the cache's 64-bit numbers are used up.
    pub fn or_insert(self, value: V) -> Result<Entry<K, V>, CacheError>
        ensures made { IfOk result (IsValueMade ⟦<R as HasWays<K, V, S>>⟧.ways
            (desk_number (⟦<S as Hashes<K>>⟧.hash) (arc_value self.entry.cache.now.inner).spread
            self.entry.key) R.Fault None self.entry.key passes_none (λ made. made ≡ value)) }
        ensures shown { IfOk result (λ e. e ≡ entry_with self.entry.key e.value e.is_fresh false) }
        ensures cause { IfErr result IsShortage }
    {
        let mut attached = self.cache.attached(self.rt)?;
        match attached.entry(self.key).or_insert(value) {
            Ok(entry) => Ok(entry),
            Err(refused) => Err(refused),
        }
    }

    /// Returns the visible value of the key, or else the default value, which is then stored. The call waits for no other call that makes a
    /// value. Returns `OutOfMemory` if there is not enough memory, and `UsedUp` if the cache's 64-bit numbers are used up.
    pub fn or_default(self) -> Result<Entry<K, V>, CacheError>
    where
        V: Default,
        ensures made { IfOk result (IsValueMade ⟦<R as HasWays<K, V, S>>⟧.ways
            (desk_number (⟦<S as Hashes<K>>⟧.hash) (arc_value self.entry.cache.now.inner).spread
            self.entry.key) R.Fault None self.entry.key passes_none V.is_default) }
        ensures shown { IfOk result (λ e. e ≡ entry_with self.entry.key e.value e.is_fresh false) }
        ensures cause { IfErr result IsShortage }
    {
        let mut attached = self.cache.attached(self.rt)?;
        match attached.entry(self.key).or_default() {
            Ok(entry) => Ok(entry),
            Err(refused) => Err(refused),
        }
    }

    /// Returns the entry of the key: of the visible value, or of the one that `make` makes, which is stored; or `None` if `make` makes
    /// none. A `None` is not stored. Returns the errors of `or_insert_with`.
    pub fn or_optionally_insert_with<M: FnOnce() -> Option<V> + Drop>(
        self,
        make: M,
    ) -> Result<Option<Entry<K, V>>, CacheError>
        requires callable { M.IsAlwaysCallable make }
        ensures made { IfOk result (IsOptionMade ⟦<R as HasWays<K, V, S>>⟧.ways
            (desk_number (⟦<S as Hashes<K>>⟧.hash) (arc_value self.entry.cache.now.inner).spread
            self.entry.key) R.Fault self.entry.key (M.post make)) }
        ensures cause { IfErr result IsTurnRefusal }
    {
        let mut attached = self.cache.attached(self.rt)?;
        match attached.entry(self.key).or_optionally_insert_with(make) {
            Ok(found) => Ok(found),
            Err(refused) => Err(refused),
        }
    }

    /// Returns the entry of the key: of the visible value, or of the one that `make` makes, which is stored. If `make` fails, nothing is
    /// stored, and the inner `Result` is its error, which those that wait for this call get too. The outer error is the cache's own, as
    /// that of `or_insert_with`.
    /// ```
    /// match cache.entry(&rt, 7).or_try_insert_with(|| read_row(7))? {
    ///     Ok(entry) => show(entry.value()),
    ///     Err(fault) => report(&fault),
    /// }
    /// ```
    pub fn or_try_insert_with<M: FnOnce() -> Result<V, R::Fault> + Drop>(
        self,
        make: M,
    ) -> Result<Result<Entry<K, V>, Arc<R::Fault>>, CacheError>
        requires callable { M.IsAlwaysCallable make }
        ensures made { IfOk result (λ r. IsResultMade ⟦<R as HasWays<K, V, S>>⟧.ways
            (desk_number (⟦<S as Hashes<K>>⟧.hash) (arc_value self.entry.cache.now.inner).spread
            self.entry.key) self.entry.key (M.post make) (with_fault arc_value r)) }
        ensures cause { IfErr result IsTurnRefusal }
    {
        let mut attached = self.cache.attached(self.rt)?;
        match attached.entry(self.key).or_try_insert_with(make) {
            Ok(answer) => Ok(answer),
            Err(refused) => Err(refused),
        }
    }

    /// Calls `decide` with the entry, if there is one, and does what it decides. If `decide` fails, nothing is written, and the inner
    /// `Result` is its error; the outer error is the cache's own, as that of `and_compute_with`. Calls of this kind for one key come one
    /// after another.
    /// ```
    /// let done = cache.entry(&rt, 7).and_try_compute_with(|seen| next_row(seen).map(Op::Put))?;
    /// ```
    pub fn and_try_compute_with<X: Drop, D: FnOnce(Option<Entry<K, V>>) -> Result<Op<V>, X> + Drop>(
        self,
        decide: D,
    ) -> Result<Result<CompResult<K, V>, X>, CacheError>
        requires callable { D.IsAlwaysCallable decide }
        ensures does { IfOk result (ComputesAsDecided ⟦<R as HasWays<K, V, S>>⟧.ways
            (desk_number (⟦<S as Hashes<K>>⟧.hash) (arc_value self.entry.cache.now.inner).spread
            self.entry.key) self.entry.key
            (λ seen decided. D.post decide (seen_entry self.entry.key seen) decided)) }
        ensures cause { IfErr result IsEndRefusal }
    {
        let mut attached = self.cache.attached(self.rt)?;
        match attached.entry(self.key).and_try_compute_with(decide) {
            Ok(done) => Ok(done),
            Err(refused) => Err(refused),
        }
    }

    /// Calls `decide` with the entry, if there is one, does what it decides, and returns what became of the entry. Calls of this kind for
    /// one key come one after another. Returns `OutOfMemory` if there is not enough memory, and `UsedUp` if the cache's 64-bit numbers are
    /// used up.
    pub fn and_compute_with<D: FnOnce(Option<Entry<K, V>>) -> Op<V> + Drop>(
        self,
        decide: D,
    ) -> Result<CompResult<K, V>, CacheError>
        requires callable { D.IsAlwaysCallable decide }
        ensures does { IfOk result (λ done. ComputesAsDecided ⟦<R as HasWays<K, V, S>>⟧.ways
            (desk_number (⟦<S as Hashes<K>>⟧.hash) (arc_value self.entry.cache.now.inner).spread
            self.entry.key) {E = ⊤} self.entry.key (DecidesAlways
            (λ seen does. D.post decide (seen_entry self.entry.key seen) does)) (Ok done)) }
        ensures cause { IfErr result IsEndRefusal }
    {
        let mut attached = self.cache.attached(self.rt)?;
        match attached.entry(self.key).and_compute_with(decide) {
            Ok(done) => Ok(done),
            Err(refused) => Err(refused),
        }
    }

    /// Puts the value that `make` computes from the entry, if there is one, and returns the new entry. Calls of this kind for one key come
    /// one after another. Returns `OutOfMemory` if there is not enough memory, and `UsedUp` if the cache's 64-bit numbers are used up.
    pub fn and_upsert_with<M: FnOnce(Option<Entry<K, V>>) -> V + Drop>(
        self,
        make: M,
    ) -> Result<Entry<K, V>, CacheError>
        requires callable { M.IsAlwaysCallable make }
        ensures puts { IfOk result (PutsAsMade ⟦<R as HasWays<K, V, S>>⟧.ways
            (desk_number (⟦<S as Hashes<K>>⟧.hash) (arc_value self.entry.cache.now.inner).spread
            self.entry.key) self.entry.key
            (λ seen value. M.post make (seen_entry self.entry.key seen) value)) }
        ensures cause { IfErr result IsEndRefusal }
    {
        let mut attached = self.cache.attached(self.rt)?;
        match attached.entry(self.key).and_upsert_with(make) {
            Ok(entry) => Ok(entry),
            Err(refused) => Err(refused),
        }
    }
}
