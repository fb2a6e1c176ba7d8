//! Calls that make a value if none is visible, by their names in `moka`. Each requires that no turn of its kind and key is under way, which
//! `is_turn_free` checks.
ghost use Rattle.std.specs.Prelude.{◌≡◌, false, Some, None, IfOk, IfErr, OnErr};
ghost use Rattle.std.specs.Arc.{arc_value};
ghost use Rattle.std.specs.Fn.{FnOnceReturnsAt};
ghost use Rattle.front_parts.specs.Access.Answering.{IsOptionOf, IsResultOf, IsValueOf, Suits, made_option, made_result, passes_none};
ghost use Rattle.front_parts.specs.Access.Selecting.{with_fault};
ghost use Rattle.front_reference.specs.Fronts.{ComesAfter};
ghost use Rattle.front_reference.specs.declared.data.Made.TheVariants as outcome;
ghost use Rattle.front_reference.specs.declared.data.TurnKind.TheVariants as turns;
ghost use Rattle.front_state.specs.Accessing.{GetsIn, GetsOptionIn, GetsResultIn, MayCall};
ghost use Rattle.front_parts.specs.Places.Calls.{IsCauseIn, hash_in};

use crate::state::{LentState, Segmented};
use engine_reference::Rules;
use front_parts::{HasWays, option_made, result_made, value_made};
use front_reference::{At, CacheError, ClonedKey, IntoKey, Made, OwnedKey, Shared};
use std::alloc::{AllocError, Global};
use std::hash::{BuildHasher, Hash};
use std::sync::Arc;

impl<K: Eq + Hash + Drop, V: Clone + Drop, S: BuildHasher, R: Rules<K, V>, C> LentState<
    K,
    V,
    S,
    R,
    C,
> {
    /// Returns the visible value of a key, unless `replace_if` returns true for it, or else the one that `make` makes.
    fn make_value<Q: IntoKey<Shared<K>>, P: FnOnce(&V) -> bool + Drop, M: FnOnce() -> V + Drop>(
        &mut self,
        name: Q,
        hash: u64,
        replace_if: P,
        make: M,
        at: At,
    ) -> Result<V, CacheError>
        requires hashed { hash
            ≡ hash_in ⟦<R as HasWays<K, V, S>>⟧.ways self.old (Q.named_key name) }
        requires becomes { Q.can_become name }
        requires exact { (x y : V) → V.is_clone x y → y ≡ x }
        requires callable { P.IsAlwaysCallable replace_if × M.IsAlwaysCallable make }
        requires follows { ComesAfter at.now at.step self.old }
        ensures value { IfOk result (GetsIn ⟦<R as HasWays<K, V, S>>⟧.ways (Q.named_key name) at
            (FnOnceReturnsAt P.FnOnce replace_if) (M.post make) self.old self.new) }
        ensures err { OnErr result (self.new ≡ self.old) }
        ensures cause { IfErr result
            (IsCauseIn ⟦<R as HasWays<K, V, S>>⟧.ways (λ _. 1) self.old (Q.named_key name)) }
    {
        let (made, _is_fresh) = self.coalesce(
            name,
            hash,
            at,
            replace_if,
            || -> Result<Made<V, ()>, AllocError> { Ok(Made::Value(make())) },
        )?;
        Ok(value_made(made))
    }

    /// Returns the visible value of a key, or the one that `make` makes, or `None` if `make` makes none.
    fn make_option<Q: IntoKey<Shared<K>>, M: FnOnce() -> Option<V> + Drop>(
        &mut self,
        name: Q,
        hash: u64,
        make: M,
        at: At,
    ) -> Result<Option<V>, CacheError>
        requires hashed { hash
            ≡ hash_in ⟦<R as HasWays<K, V, S>>⟧.ways self.old (Q.named_key name) }
        requires becomes { Q.can_become name }
        requires exact { (x y : V) → V.is_clone x y → y ≡ x }
        requires callable { M.IsAlwaysCallable make }
        requires follows { ComesAfter at.now at.step self.old }
        ensures value { IfOk result (GetsOptionIn ⟦<R as HasWays<K, V, S>>⟧.ways
            (Q.named_key name) at (M.post make) self.old self.new) }
        ensures err { OnErr result (self.new ≡ self.old) }
        ensures cause { IfErr result
            (IsCauseIn ⟦<R as HasWays<K, V, S>>⟧.ways (λ _. 1) self.old (Q.named_key name)) }
    {
        let (made, _is_fresh) = self.coalesce(
            name,
            hash,
            at,
            |_| false,
            || -> Result<Made<V, ()>, AllocError> { Ok(made_of_option(make())) },
        )?;
        Ok(option_made(made))
    }

    /// Returns the visible value of a key, or the one that `make` makes, or the error with which `make` failed.
    fn make_result<Q: IntoKey<Shared<K>>, F: Drop, M: FnOnce() -> Result<V, F> + Drop>(
        &mut self,
        name: Q,
        hash: u64,
        make: M,
        at: At,
    ) -> Result<Result<V, Arc<F>>, CacheError>
        requires hashed { hash
            ≡ hash_in ⟦<R as HasWays<K, V, S>>⟧.ways self.old (Q.named_key name) }
        requires becomes { Q.can_become name }
        requires exact { (x y : V) → V.is_clone x y → y ≡ x }
        requires callable { M.IsAlwaysCallable make }
        requires follows { ComesAfter at.now at.step self.old }
        ensures value { IfOk result (λ r. GetsResultIn ⟦<R as HasWays<K, V, S>>⟧.ways
            (Q.named_key name) at (M.post make) self.old self.new (with_fault arc_value r)) }
        ensures err { OnErr result (self.new ≡ self.old) }
        ensures cause { IfErr result
            (IsCauseIn ⟦<R as HasWays<K, V, S>>⟧.ways (λ _. 1) self.old (Q.named_key name)) }
    {
        let alloc = self.alloc;
        let (made, _is_fresh) = self.coalesce(
            name,
            hash,
            at,
            |_| false,
            || -> Result<Made<V, Shared<F>>, AllocError> { made_of_result(alloc, make()) },
        )?;
        Ok(result_made(made))
    }

    /// Returns the visible value of a key, which counts as a use of it, or the one that `make` makes, which is stored. No other caller can
    /// interfere with a lent cache: `make` runs once if nothing is visible, and otherwise not at all. The closure runs before anything
    /// changes; if the call is refused after it, the value is dropped. Returns `OutOfMemory` if there is not enough memory, and `UsedUp` if
    /// the 64-bit numbers of writes are used up; then nothing has changed.
    /// ```
    /// let square = cache.get_with(7, || 49, at)?;
    /// ```
    pub fn get_with<M: FnOnce() -> V + Drop>(
        &mut self,
        key: K,
        make: M,
        at: At,
    ) -> Result<V, CacheError>
        requires exact { (x y : V) → V.is_clone x y → y ≡ x }
        requires callable { M.IsAlwaysCallable make }
        requires free { MayCall K.eq self.old at (Some turns.With) key }
        ensures value { IfOk result (GetsIn ⟦<R as HasWays<K, V, S>>⟧.ways key at passes_none
            (M.post make) self.old self.new) }
        ensures err { OnErr result (self.new ≡ self.old) }
        ensures cause { IfErr result
            (IsCauseIn ⟦<R as HasWays<K, V, S>>⟧.ways (λ _. 1) self.old key) }
    {
        let hash = self.hash(&key);
        let name = OwnedKey {
            key,
            alloc: self.alloc,
        };
        self.make_value(
            name,
            hash,
            |_: &V| -> bool
                ensures { result ≡ false }
            { false },
            make,
            at,
        )
    }

    /// Like `get_with`, with a borrowed key, which is cloned only if a value is stored. Returns the errors of `get_with`.
    /// ```
    /// let page = cache.get_with_by_ref(&address, || fetch(&address), at)?;
    /// ```
    pub fn get_with_by_ref<M: FnOnce() -> V + Drop>(
        &mut self,
        key: &K,
        make: M,
        at: At,
    ) -> Result<V, CacheError>
    where
        K: Clone,
        requires exact_key { (x y : K) → K.is_clone x y → y ≡ x }
        requires exact { (x y : V) → V.is_clone x y → y ≡ x }
        requires callable { M.IsAlwaysCallable make }
        requires free { MayCall K.eq self.old at (Some turns.With) key.now }
        ensures value { IfOk result (GetsIn ⟦<R as HasWays<K, V, S>>⟧.ways key.now at passes_none
            (M.post make) self.old self.new) }
        ensures err { OnErr result (self.new ≡ self.old) }
        ensures cause { IfErr result
            (IsCauseIn ⟦<R as HasWays<K, V, S>>⟧.ways (λ _. 1) self.old key.now) }
    {
        let hash = self.hash(key);
        let name = ClonedKey {
            key,
            alloc: self.alloc,
        };
        self.make_value(
            name,
            hash,
            |_: &V| -> bool
                ensures { result ≡ false }
            { false },
            make,
            at,
        )
    }

    /// Like `get_with`, except that a visible value for which `replace_if` returns true counts as none. `replace_if` is called on a visible
    /// value, once; a value for which it returns true counts as a miss. Returns the errors of `get_with`.
    /// ```
    /// let fresh = cache.get_with_if(7, || 50, |old| *old < 50, at)?;
    /// ```
    pub fn get_with_if<M: FnOnce() -> V + Drop, P: FnOnce(&V) -> bool + Drop>(
        &mut self,
        key: K,
        make: M,
        replace_if: P,
        at: At,
    ) -> Result<V, CacheError>
        requires exact { (x y : V) → V.is_clone x y → y ≡ x }
        requires callable { P.IsAlwaysCallable replace_if × M.IsAlwaysCallable make }
        requires free { MayCall K.eq self.old at (Some turns.With) key }
        ensures value { IfOk result (GetsIn ⟦<R as HasWays<K, V, S>>⟧.ways key at
            (FnOnceReturnsAt P.FnOnce replace_if) (M.post make) self.old self.new) }
        ensures err { OnErr result (self.new ≡ self.old) }
        ensures cause { IfErr result
            (IsCauseIn ⟦<R as HasWays<K, V, S>>⟧.ways (λ _. 1) self.old key) }
    {
        let hash = self.hash(&key);
        let name = OwnedKey {
            key,
            alloc: self.alloc,
        };
        self.make_value(name, hash, replace_if, make, at)
    }

    /// Returns the visible value of a key, which counts as a use of it, or the one that `make` makes, which is stored, or `None` if it
    /// makes none. A `None` is not stored: the next call runs `make` again. Returns the errors of `get_with`.
    /// ```
    /// let user = cache.optionally_get_with(7, || find_user(7), at)?;
    /// ```
    pub fn optionally_get_with<M: FnOnce() -> Option<V> + Drop>(
        &mut self,
        key: K,
        make: M,
        at: At,
    ) -> Result<Option<V>, CacheError>
        requires exact { (x y : V) → V.is_clone x y → y ≡ x }
        requires callable { M.IsAlwaysCallable make }
        requires free { MayCall K.eq self.old at (Some turns.Optionally) key }
        ensures value { IfOk result
            (GetsOptionIn ⟦<R as HasWays<K, V, S>>⟧.ways key at (M.post make) self.old self.new) }
        ensures err { OnErr result (self.new ≡ self.old) }
        ensures cause { IfErr result
            (IsCauseIn ⟦<R as HasWays<K, V, S>>⟧.ways (λ _. 1) self.old key) }
    {
        let hash = self.hash(&key);
        let name = OwnedKey {
            key,
            alloc: self.alloc,
        };
        self.make_option(name, hash, make, at)
    }

    /// Like `optionally_get_with`, with a borrowed key, which is cloned only if a value is stored. Returns the errors of `get_with`.
    /// ```
    /// let user = cache.optionally_get_with_by_ref(&name, || find_named(&name), at)?;
    /// ```
    pub fn optionally_get_with_by_ref<M: FnOnce() -> Option<V> + Drop>(
        &mut self,
        key: &K,
        make: M,
        at: At,
    ) -> Result<Option<V>, CacheError>
    where
        K: Clone,
        requires exact_key { (x y : K) → K.is_clone x y → y ≡ x }
        requires exact { (x y : V) → V.is_clone x y → y ≡ x }
        requires callable { M.IsAlwaysCallable make }
        requires free { MayCall K.eq self.old at (Some turns.Optionally) key.now }
        ensures value { IfOk result (GetsOptionIn ⟦<R as HasWays<K, V, S>>⟧.ways key.now at
            (M.post make) self.old self.new) }
        ensures err { OnErr result (self.new ≡ self.old) }
        ensures cause { IfErr result
            (IsCauseIn ⟦<R as HasWays<K, V, S>>⟧.ways (λ _. 1) self.old key.now) }
    {
        let hash = self.hash(key);
        let name = ClonedKey {
            key,
            alloc: self.alloc,
        };
        self.make_option(name, hash, make, at)
    }

    /// Returns the visible value of a key, which counts as a use of it, or the one that `make` makes, which is stored, or its error if it
    /// fails. An error is not stored: the next call runs `make` again. The error is behind an `Arc`, since callers that share a cache get
    /// the same one. The outer errors are those of `get_with`.
    /// ```
    /// match cache.try_get_with(7, || read_row(7), at)? {
    ///     Ok(row) => show(&row),
    ///     Err(fault) => report(&fault),
    /// }
    /// ```
    pub fn try_get_with<F: Drop, M: FnOnce() -> Result<V, F> + Drop>(
        &mut self,
        key: K,
        make: M,
        at: At,
    ) -> Result<Result<V, Arc<F>>, CacheError>
        requires exact { (x y : V) → V.is_clone x y → y ≡ x }
        requires callable { M.IsAlwaysCallable make }
        requires free { MayCall K.eq self.old at (Some turns.Try) key }
        ensures value { IfOk result (λ r. GetsResultIn ⟦<R as HasWays<K, V, S>>⟧.ways key at
            (M.post make) self.old self.new (with_fault arc_value r)) }
        ensures err { OnErr result (self.new ≡ self.old) }
        ensures cause { IfErr result
            (IsCauseIn ⟦<R as HasWays<K, V, S>>⟧.ways (λ _. 1) self.old key) }
    {
        let hash = self.hash(&key);
        let name = OwnedKey {
            key,
            alloc: self.alloc,
        };
        self.make_result(name, hash, make, at)
    }

    /// Like `try_get_with`, with a borrowed key, which is cloned only if a value is stored. Returns the errors of `try_get_with`.
    /// ```
    /// let row = cache.try_get_with_by_ref(&name, || read_named(&name), at)?;
    /// ```
    pub fn try_get_with_by_ref<F: Drop, M: FnOnce() -> Result<V, F> + Drop>(
        &mut self,
        key: &K,
        make: M,
        at: At,
    ) -> Result<Result<V, Arc<F>>, CacheError>
    where
        K: Clone,
        requires exact_key { (x y : K) → K.is_clone x y → y ≡ x }
        requires exact { (x y : V) → V.is_clone x y → y ≡ x }
        requires callable { M.IsAlwaysCallable make }
        requires free { MayCall K.eq self.old at (Some turns.Try) key.now }
        ensures value { IfOk result (λ r. GetsResultIn ⟦<R as HasWays<K, V, S>>⟧.ways key.now at
            (M.post make) self.old self.new (with_fault arc_value r)) }
        ensures err { OnErr result (self.new ≡ self.old) }
        ensures cause { IfErr result
            (IsCauseIn ⟦<R as HasWays<K, V, S>>⟧.ways (λ _. 1) self.old key.now) }
    {
        let hash = self.hash(key);
        let name = ClonedKey {
            key,
            alloc: self.alloc,
        };
        self.make_result(name, hash, make, at)
    }
}

impl<K: Eq + Hash + Drop, V: Clone + Drop, S: BuildHasher, R: Rules<K, V>> LentState<
    K,
    V,
    S,
    R,
    Segmented,
> {
    /// Does what `get_with` does, by the name that a segmented cache has for it, and returns its errors.
    pub fn get_or_insert_with<M: FnOnce() -> V + Drop>(
        &mut self,
        key: K,
        make: M,
        at: At,
    ) -> Result<V, CacheError>
        requires exact { (x y : V) → V.is_clone x y → y ≡ x }
        requires callable { M.IsAlwaysCallable make }
        requires free { MayCall K.eq self.old at (Some turns.With) key }
        ensures value { IfOk result (GetsIn ⟦<R as HasWays<K, V, S>>⟧.ways key at passes_none
            (M.post make) self.old self.new) }
        ensures err { OnErr result (self.new ≡ self.old) }
        ensures cause { IfErr result
            (IsCauseIn ⟦<R as HasWays<K, V, S>>⟧.ways (λ _. 1) self.old key) }
    {
        self.get_with(key, make, at)
    }

    /// Does what `try_get_with` does, by the name that a segmented cache has for it, and returns its errors.
    pub fn get_or_try_insert_with<F: Drop, M: FnOnce() -> Result<V, F> + Drop>(
        &mut self,
        key: K,
        make: M,
        at: At,
    ) -> Result<Result<V, Arc<F>>, CacheError>
        requires exact { (x y : V) → V.is_clone x y → y ≡ x }
        requires callable { M.IsAlwaysCallable make }
        requires free { MayCall K.eq self.old at (Some turns.Try) key }
        ensures value { IfOk result (λ r. GetsResultIn ⟦<R as HasWays<K, V, S>>⟧.ways key at
            (M.post make) self.old self.new (with_fault arc_value r)) }
        ensures err { OnErr result (self.new ≡ self.old) }
        ensures cause { IfErr result
            (IsCauseIn ⟦<R as HasWays<K, V, S>>⟧.ways (λ _. 1) self.old key) }
    {
        self.try_get_with(key, make, at)
    }
}

/// What was made, which may be nothing.
fn made_of_option<V>(answer: Option<V>) -> Made<V, ()>
    ensures { result ≡ made_option answer }
{
    match answer {
        Some(value) => Made::Value(value),
        None => Made::Nothing,
    }
}

/// What was made, or why not.
fn made_of_result<V: Drop, F: Drop>(
    alloc: Global,
    answer: Result<V, F>,
) -> Result<Made<V, Shared<F>>, AllocError>
    ensures { IfOk result (λ made. made ≡ made_result answer) }
{
    match answer {
        Ok(value) => Ok(Made::Value(value)),
        Err(fault) => Ok(Made::Fault(Shared::new(alloc, fault)?)),
    }
}
