//! A cache together with a handle by which its calls may wait.
ghost use Rattle.std.specs.Prelude.{◌≡◌, Ok, IfOk, IfErr, OnErr};
ghost use Rattle.std.specs.Arc.{arc_value};
ghost use Rattle.front_parts.specs.Access.Answering.{Suits};
ghost use Rattle.front_reference.specs.declared.data.Made.{Made};
ghost use Rattle.front_reference.specs.declared.errors.CacheError.TheVariants as errors;
ghost use Rattle.moka_sync.specs.Accessing.{IsMakingRefusal};
ghost use Rattle.moka_sync.specs.Making.{ComputedUnderLock, DecidesUnderLock, GivesUnderLock};
ghost use Rattle.moka_sync.specs.Spreading.{desk_number};
ghost use Rattle.sync_desk.specs.Slots.Refusals.{IsEndRefusal};
ghost use Rattle.std.specs.Fn.{FnOnceReturnsAt};

use crate::cache::SharedCache;
use crate::iterator::Iter;
use engine_reference::{Hashes, Rules};
use front_parts::{Access, HasWays, OwnedKeyEntrySelector, RefKeyEntrySelector};
use front_reference::{CacheError, Computed, Made, Op, Shared, TurnKind};
use front_state::Single;
use std::alloc::AllocError;
use std::fmt::{self, Debug, Formatter, Write};
use std::hash::{BuildHasher, Hash};
use std::sync::Wait;
use sync_desk::{Env, SharedName};

/// A handle of a shared cache, together with a handle `rt` by which its calls may wait for the lock. The pair provides what cannot take an
/// `rt` as an argument: selectors (`entry`), loops over its entries, and `{:?}`, which prints a map of its entries and fails if there is
/// not enough memory for a clone.
#[derive(Drop)]
pub struct Attached<K: Eq + Hash, V: Clone, S: BuildHasher, R: Rules<K, V>, E: Env, H, C = Single> {
    cache: SharedCache<K, V, S, R, E, C>,
    rt: H,
    ghost exact: { (x y : V) → V.is_clone x y → y ≡ x },
}

impl<
    K: Eq + Hash + Drop,
    V: Clone + Drop,
    S: BuildHasher + Drop,
    R: Rules<K, V> + Drop,
    E: Env + Drop,
    C: Drop,
> SharedCache<K, V, S, R, E, C> {
    /// Combines this handle of the cache with an `rt`. `cache.clone()?.attach(rt)` keeps the original handle.
    /// Which values can be proved is said at `get`.
    /// ```
    /// let mut attached = cache.clone()?.attach(rt);
    /// let entry = attached.entry(7).or_insert(49)?;
    /// ```
    pub fn attach<H: Wait>(self, rt: H) -> Attached<K, V, S, R, E, H, C>
        requires exact { (x y : V) → V.is_clone x y → y ≡ x }
        ensures cache { result.cache ≡ self }
    {
        Attached { cache: self, rt }
    }
}

impl<
    K: Eq + Hash + Drop,
    V: Clone + Drop,
    S: BuildHasher + Drop,
    R: Rules<K, V> + Drop,
    E: Env + Drop,
    H: Wait,
    C: Drop,
> Attached<K, V, S, R, E, H, C> {
    /// Returns a selector of the entry of a key, on which one call can be made: `or_insert`, `or_insert_with`, `and_compute_with` and so
    /// on. Each of them is refused for the same reasons as the cache's own call of its kind.
    /// `or_insert_with_if` calls `replace_if` once, without the lock, on the value that is visible when the call begins. A value that is
    /// written after that is not replaced.
    /// ```
    /// let entry = attached.entry(7).and_upsert_with(|seen| match seen {
    ///     Some(entry) => entry.into_value().saturating_add(1),
    ///     None => 1,
    /// })?;
    /// ```
    pub fn entry<'b>(&'b mut self, key: K) -> OwnedKeyEntrySelector<'b, K, Self, ()>
        ensures owner { result.owner.now ≡ self.old }
        ensures key { result.key ≡ key }
    {
        let alloc = self.cache.alloc;
        OwnedKeyEntrySelector::new(self, key, (), alloc)
    }

    /// Like `entry`, with a borrowed key, which is cloned at once. Returns `OutOfMemory` if there is not enough memory for the clone. Which
    /// keys can be proved is said at `get_with_by_ref`.
    pub fn entry_by_ref<'b>(
        &'b mut self,
        key: &K,
    ) -> Result<RefKeyEntrySelector<'b, K, Self, ()>, CacheError>
    where
        K: Clone,
        requires exact_key { (x y : K) → K.is_clone x y → y ≡ x }
        ensures key { IfOk result (λ s. s.key ≡ key.now) }
        ensures cause { IfErr result (λ e. e ≡ errors.OutOfMemory) }
    {
        let alloc = self.cache.alloc;
        let own = key.clone()?;
        Ok(RefKeyEntrySelector::new(self, own, (), alloc))
    }

    /// A call that makes a value. With a kind, it waits for other calls of that kind; without one, both closures run under the lock.
    fn coalesce_at<
        P: FnOnce(&V) -> bool + Drop,
        M: FnOnce() -> Result<Made<V, Shared<R::Fault>>, AllocError> + Drop,
    >(
        &self,
        key: Shared<K>,
        kind: Option<TurnKind>,
        replace_if: P,
        make: M,
    ) -> Result<(Made<V, Shared<R::Fault>>, bool), CacheError>
        requires exact { (x y : V) → V.is_clone x y → y ≡ x }
        requires callable { P.IsAlwaysCallable replace_if × M.IsAlwaysCallable make }
        requires suitable { (made : Made V R.Fault) → M.post make (Ok made) → Suits kind made }
        ensures gives { IfOk result (λ a. GivesUnderLock ⟦<R as HasWays<K, V, S>>⟧.ways
            (desk_number (⟦<S as Hashes<K>>⟧.hash) (arc_value self.now.cache.inner).spread key)
            kind key (FnOnceReturnsAt P.FnOnce replace_if) (λ made. M.post make (Ok made)) a.0 a.1) }
        ensures suits { IfOk result (λ a. Suits kind a.0) }
        ensures cause { IfErr result (IsMakingRefusal kind) }
    {
        let desk = self.cache.inner.of(&*key);
        match kind {
            Some(kind) => {
                desk.coalesce_asking_once(
                    &self.rt,
                    kind,
                    SharedName { key: &key },
                    replace_if,
                    make,
                )
            }
            None => desk.coalesce_now(&self.rt, &key, replace_if, make),
        }
    }

    /// A compute call.
    fn compute_at<X: Drop, D: FnOnce(Option<V>) -> Result<Op<V>, X> + Drop>(
        &self,
        key: Shared<K>,
        decide: D,
    ) -> Result<Result<Computed<V>, X>, CacheError>
        requires exact { (x y : V) → V.is_clone x y → y ≡ x }
        requires callable { D.IsAlwaysCallable decide }
        ensures does { IfOk result (ComputedUnderLock ⟦<R as HasWays<K, V, S>>⟧.ways
            (desk_number (⟦<S as Hashes<K>>⟧.hash) (arc_value self.now.cache.inner).spread key)
            key (λ seen decided. D.post decide seen decided)) }
        ensures cause { IfErr result IsEndRefusal }
    {
        let desk = self.cache.inner.of(&*key);
        desk.compute(&self.rt, &key, decide)
    }

    /// Returns an iterator over the visible keys, each once and in any order, with clones of their values. The iterator holds the lock
    /// while it clones the keys of one segment, and then for one item at a time. A value that is removed before its turn is not returned.
    /// No item counts as a use.
    /// ```
    /// for item in attached.iter() {
    ///     let (key, value) = item?;
    ///     show(&key, value);
    /// }
    /// ```
    pub fn iter(&self) -> Iter<'_, K, V, S, R, E, H, C>
        ensures { result.cache.now ≡ self.now.cache }
    {
        Iter::new(&self.cache, &self.rt)
    }
}

impl<
    K: Eq + Hash + Debug + Drop,
    V: Clone + Debug + Drop,
    S: BuildHasher + Drop,
    R: Rules<K, V> + Drop,
    E: Env + Drop,
    H: Wait,
    C: Drop,
> Debug for Attached<K, V, S, R, E, H, C> {
    fn fmt<W: Write>(&self, f: &mut Formatter<W>) -> fmt::Result {
        let mut out = f.debug_map();
        for item in self.iter() {
            match item {
                Ok((key, value)) => {
                    out.entry(&key, &value);
                }
                Err(_) => return Err(fmt::Error),
            }
        }
        out.finish()
    }
}

impl<
    'b,
    K: Eq + Hash + Drop,
    V: Clone + Drop,
    S: BuildHasher + Drop,
    R: Rules<K, V> + Drop,
    E: Env + Drop,
    H: Wait,
    C: Drop,
> IntoIterator for &'b Attached<K, V, S, R, E, H, C> {
    type Item = Result<(Shared<K>, V), CacheError>;

    type IntoIter = Iter<'b, K, V, S, R, E, H, C>;

    fn into_iter(self) -> Iter<'b, K, V, S, R, E, H, C> {
        self.iter()
    }
}

impl<
    K: Eq + Hash + Drop,
    V: Clone + Drop,
    S: BuildHasher + Drop,
    R: Rules<K, V> + Drop,
    E: Env + Drop,
    H: Wait,
    C: Drop,
> Access<K, V> for Attached<K, V, S, R, E, H, C> {
    ghost use Rattle.std.specs.Arc.{arc_value};
    ghost use Rattle.moka_sync.specs.Accessing.{IsMakingRefusal};
    ghost use Rattle.moka_sync.specs.Making.{DoesUnderLock, RestsByKind};
    ghost use Rattle.moka_sync.specs.Spreading.{desk_number};
    ghost use Rattle.sync_desk.specs.Slots.Refusals.{IsEndRefusal};

    type When = ();

    type Fault = R::Fault;

    ghost may_call = { λ _ _ _ _. Unit {0} };

    ghost sees = { λ _ _ _ _. Unit {0} };

    ghost coalesced = { λ own _ kind key _ made fresh _. RestsByKind
        ⟦<R as HasWays<K, V, S>>⟧.ways
        (desk_number (⟦<S as Hashes<K>>⟧.hash) (arc_value own.cache.inner).spread key) kind key
        made fresh };

    ghost computed = { λ own _ key does done _. DoesUnderLock ⟦<R as HasWays<K, V, S>>⟧.ways
        (desk_number (⟦<S as Hashes<K>>⟧.hash) (arc_value own.cache.inner).spread key) key does
        done };

    ghost refuses_coalesced = { λ _ kind _. IsMakingRefusal kind };

    ghost refuses_computed = { λ _ _. IsEndRefusal };

    fn coalesce<
        P: FnOnce(&V) -> bool + Drop,
        M: FnOnce() -> Result<Made<V, Shared<R::Fault>>, AllocError> + Drop,
    >(
        &mut self,
        key: Shared<K>,
        _when: (),
        kind: Option<TurnKind>,
        replace_if: P,
        make: M,
    ) -> Result<(Made<V, Shared<R::Fault>>, bool), CacheError>
        requires exact { (x y : V) → V.is_clone x y → y ≡ x }
        requires callable { P.IsAlwaysCallable replace_if × M.IsAlwaysCallable make }
        requires suitable { (made : Made V R.Fault) → M.post make (Ok made) → Suits kind made }
        ensures gives { IfOk result (λ a. GivesUnderLock ⟦<R as HasWays<K, V, S>>⟧.ways
            (desk_number (⟦<S as Hashes<K>>⟧.hash) (arc_value self.old.cache.inner).spread key)
            kind key (FnOnceReturnsAt P.FnOnce replace_if) (λ made. M.post make (Ok made)) a.0 a.1) }
        ensures suits { IfOk result (λ a. Suits kind a.0) }
        ensures err { OnErr result (self.new ≡ self.old) }
        ensures cause { IfErr result (IsMakingRefusal kind) }
    {
        self.coalesce_at(key, kind, replace_if, make)
    }

    fn compute<X: Drop, D: FnOnce(Option<V>) -> Result<Op<V>, X> + Drop>(
        &mut self,
        key: Shared<K>,
        _when: (),
        decide: D,
    ) -> Result<Result<Computed<V>, X>, CacheError>
        requires exact { (x y : V) → V.is_clone x y → y ≡ x }
        requires callable { D.IsAlwaysCallable decide }
        ensures decides { IfOk result (DecidesUnderLock ⟦<R as HasWays<K, V, S>>⟧.ways
            (desk_number (⟦<S as Hashes<K>>⟧.hash) (arc_value self.old.cache.inner).spread key)
            key (λ seen decided. D.post decide seen decided)) }
        ensures err { OnErr result (self.new ≡ self.old) }
        ensures cause { IfErr result IsEndRefusal }
    {
        self.compute_at(key, decide)
    }
}
