//! Selectors of a lent cache.
ghost use Rattle.std.specs.Prelude.{◌≡◌, Some, Ok, IfOk, IfErr, OnErr};
ghost use Rattle.std.specs.Fn.{FnOnceReturnsAt};
ghost use Rattle.engine_reference.specs.Calls.{removal_rooms};
ghost use Rattle.front_parts.specs.Access.Answering.{Suits};
ghost use Rattle.front_reference.specs.declared.data.Made.{Made};
ghost use Rattle.front_reference.specs.declared.data.TurnKind.TheVariants as turns;
ghost use Rattle.front_reference.specs.declared.errors.CacheError.TheVariants as errors;
ghost use Rattle.front_state.specs.Accessing.{DecidesIn, GivesIn, MayCall};
ghost use Rattle.front_parts.specs.Places.Calls.{IsCauseIn};

use crate::state::LentState;
use engine_reference::Rules;
use front_parts::{Access, HasWays, OwnedKeyEntrySelector, RefKeyEntrySelector};
use front_reference::{At, CacheError, Computed, Made, Op, Shared, TurnKind};
use std::alloc::AllocError;
use std::hash::{BuildHasher, Hash};

impl<K: Eq + Hash + Drop, V: Clone + Drop, S: BuildHasher, R: Rules<K, V>, C> Access<K, V>
    for LentState<K, V, S, R, C> {
    ghost use Rattle.engine_reference.specs.Calls.{removal_rooms};
    ghost use Rattle.front_state.specs.Accessing.{CoalescedIn, ComputedIn, MayCall, SeesIn};
    ghost use Rattle.front_parts.specs.Places.Calls.{IsCauseIn};

    type When = At;

    type Fault = R::Fault;

    ghost may_call = { MayCall K.eq };

    ghost sees = { SeesIn ⟦<R as HasWays<K, V, S>>⟧.ways };

    ghost coalesced = { CoalescedIn ⟦<R as HasWays<K, V, S>>⟧.ways };

    ghost computed = { ComputedIn ⟦<R as HasWays<K, V, S>>⟧.ways };

    ghost refuses_coalesced = { λ cache _. IsCauseIn ⟦<R as HasWays<K, V, S>>⟧.ways
        (λ _. 1) cache };

    ghost refuses_computed = { IsCauseIn ⟦<R as HasWays<K, V, S>>⟧.ways removal_rooms };

    fn coalesce<
        P: FnOnce(&V) -> bool + Drop,
        M: FnOnce() -> Result<Made<V, Shared<R::Fault>>, AllocError> + Drop,
    >(
        &mut self,
        key: Shared<K>,
        when: At,
        kind: Option<TurnKind>,
        replace_if: P,
        make: M,
    ) -> Result<(Made<V, Shared<R::Fault>>, bool), CacheError>
        requires exact { (x y : V) → V.is_clone x y → y ≡ x }
        requires free { MayCall K.eq self.old when kind key }
        requires callable { P.IsAlwaysCallable replace_if × M.IsAlwaysCallable make }
        requires suitable { (made : Made V R.Fault) → M.post make (Ok made) → Suits kind made }
        ensures gives { IfOk result (GivesIn ⟦<R as HasWays<K, V, S>>⟧.ways kind when key
            (FnOnceReturnsAt P.FnOnce replace_if) (M.post make) self.old self.new) }
        ensures suits { IfOk result (λ a. Suits kind a.0) }
        ensures err { OnErr result (self.new ≡ self.old) }
        ensures cause { IfErr result
            (IsCauseIn ⟦<R as HasWays<K, V, S>>⟧.ways (λ _. 1) self.old key) }
    {
        let hash = self.hash(&*key);
        LentState::coalesce(self, key, hash, when, replace_if, make)
    }

    fn compute<E: Drop, D: FnOnce(Option<V>) -> Result<Op<V>, E> + Drop>(
        &mut self,
        key: Shared<K>,
        when: At,
        decide: D,
    ) -> Result<Result<Computed<V>, E>, CacheError>
        requires exact { (x y : V) → V.is_clone x y → y ≡ x }
        requires free { MayCall K.eq self.old when (Some turns.Compute) key }
        requires callable { D.IsAlwaysCallable decide }
        ensures decides { IfOk result
            (DecidesIn ⟦<R as HasWays<K, V, S>>⟧.ways when key (D.post decide) self.old self.new) }
        ensures err { OnErr result (self.new ≡ self.old) }
        ensures cause { IfErr result
            (IsCauseIn ⟦<R as HasWays<K, V, S>>⟧.ways removal_rooms self.old key) }
    {
        let hash = self.hash(&*key);
        LentState::compute(self, key, hash, when, decide)
    }
}

impl<K: Eq + Hash, V, S: BuildHasher, R: Rules<K, V>, C> LentState<K, V, S, R, C> {
    /// Returns a selector of the entry of a key. One call can be made on the selector, which has this moment and step.
    /// ```
    /// let entry = cache.entry(7, at).or_insert_with(|| 49)?;
    /// let was_made_now = entry.is_fresh();
    /// ```
    pub fn entry<'a>(&'a mut self, key: K, at: At) -> OwnedKeyEntrySelector<'a, K, Self, At>
        ensures same_reference { result.owner.ghost_name ≡ self.entry.ghost_name }
        ensures owner { result.owner.now ≡ self.old }
        ensures key { result.key ≡ key }
        ensures when { result.when ≡ at }
    {
        let alloc = self.alloc;
        OwnedKeyEntrySelector::new(self, key, at, alloc)
    }

    /// Like `entry`, with a borrowed key, which is cloned. Returns `OutOfMemory` if there is no memory for the clone; then nothing has
    /// changed.
    pub fn entry_by_ref<'a>(
        &'a mut self,
        key: &K,
        at: At,
    ) -> Result<RefKeyEntrySelector<'a, K, Self, At>, CacheError>
    where
        K: Clone,
        requires exact_key { (x y : K) → K.is_clone x y → y ≡ x }
        ensures same_reference { IfOk result (λ s. s.owner.ghost_name ≡ self.entry.ghost_name) }
        ensures owner { IfOk result (λ s. s.owner.now ≡ self.old) }
        ensures key { IfOk result (λ s. s.key ≡ key.now) }
        ensures when { IfOk result (λ s. s.when ≡ at) }
        ensures cause { IfErr result (λ e. e ≡ errors.OutOfMemory) }
    {
        let alloc = self.alloc;
        let own = key.clone()?;
        Ok(RefKeyEntrySelector::new(self, own, at, alloc))
    }
}
