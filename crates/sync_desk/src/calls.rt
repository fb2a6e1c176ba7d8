//! Calls that take the lock once.
ghost use Rattle.std.specs.Prelude.{◌≡◌, ◌⊎◌, ◌+◌, Option, Some, None, IfOk, IfErr, OnOk, OnErr, if◌then◌else◌, is_ok, is_some};
ghost use Rattle.std.specs.Result.{IsErrOf};
ghost use Rattle.engine_reference.specs.Calls.{removal_rooms};
ghost use Rattle.front_reference.specs.declared.errors.CacheError.TheVariants as errors;
ghost use Rattle.front_state.specs.Calls.{IsCauseIn, hash_in, held_value_in};
ghost use Rattle.sync_desk.specs.Drawing.{ClearsAsDrawn, InsertsAsDrawn, LacksSteps, LooksUpAsDrawn, RemovesAsDrawn, RunsAsDrawn, SeesAsDrawn};
ghost use Rattle.sync_desk.specs.Slots.Refusals.{IsShortage};
ghost use Rattle.sync_desk.specs.Writing.{noted_if};

use crate::desk::Desk;
use engine_reference::Rules;
use front_parts::HasWays;
use front_reference::{At, CacheError, LentKey, OwnedKey};
use rand_core::Rng;
use std::hash::{BuildHasher, Hash};

impl<
    K: Eq + Hash + Drop,
    V: Clone + Drop,
    S: BuildHasher + Drop,
    R: Rules<K, V> + Drop,
    G: Rng + Drop,
    C: Drop,
> Desk<K, V, S, R, G, C> {
    /// Returns a clone of the visible value of a key, or `None`, which counts as a use of it. Returns `OutOfMemory` if there is no memory
    /// for the clone, and `UsedUp` if 2^64 - 1 calls have been made; then nothing has changed.
    pub fn get(&mut self, key: &K) -> Result<Option<V>, CacheError>
        requires exact { (x y : V) → V.is_clone x y → y ≡ x }
        ensures found { IfOk result
            (LooksUpAsDrawn ⟦<R as HasWays<K, V, S>>⟧.ways self.old.moment key.now
            self.old.state self.new.state) }
        ensures err { OnErr result (self.new.state ≡ self.old.state) }
        ensures rest { self.new ≡ record self.old { state = self.new.state } }
        ensures cause { IfErr result IsShortage }
        ensures used_up { IsErrOf result errors.UsedUp
            → LacksSteps 1 self.old.state }
    {
        self.get_by_name(&LentKey { key })
    }

    /// Returns whether a key has a visible value. The call does not count as a use, and changes nothing.
    pub fn contains_key(&mut self, key: &K) -> bool
        ensures found { (found : Option V)
            × SeesAsDrawn ⟦<R as HasWays<K, V, S>>⟧.ways self.old.moment key.now
            self.old.state found × (result ≡ is_some found) }
        ensures same { self.new ≡ self.old }
    {
        self.contains_key_by_name(&LentKey { key })
    }

    /// Inserts a value. A cache of capacity 0 stores none. Returns `OutOfMemory` if there is not enough memory, and `UsedUp` if 2^64 - 1
    /// calls have been made or the 64-bit numbers of writes are used up; then nothing has changed.
    pub fn insert(&mut self, key: K, value: V) -> Result<(), CacheError>
        ensures inserts { OnOk result (InsertsAsDrawn ⟦<R as HasWays<K, V, S>>⟧.ways
            self.old.moment key value self.old.state self.new.state) }
        ensures err { OnErr result (self.new.state ≡ self.old.state) }
        ensures rest { self.new
            ≡ record self.old { state = self.new.state; writes = self.new.writes } }
        ensures writes { self.new.writes.steps ≡ noted_if (if is_ok result
            then Some (hash_in ⟦<R as HasWays<K, V, S>>⟧.ways self.old.state key) else None)
            (self.old.state.step + 1) self.old.writes.steps }
        ensures cause { IfErr result IsShortage }
        ensures used_up { IsErrOf result errors.UsedUp
            → LacksSteps 1 self.old.state ⊎ IsCauseIn
            ⟦<R as HasWays<K, V, S>>⟧.ways (λ _. 1) self.old.state key errors.UsedUp }
    {
        let Some(at) = self.draw() else {
            return Err(CacheError::UsedUp);
        };
        let At { now, step } = at;
        let hash = self.state.hash(&key);
        let alloc = self.alloc;
        match self
            .state
            .insert_with_hash(OwnedKey { key, alloc }, hash, value, At { now, step })
        {
            Ok(()) => {
                self.writes.note(hash, step);
                Ok(())
            }
            Err(refused) => Err(refused),
        }
    }

    /// Removes a key, whether its deadline has come or not, and returns its value, or `None` if nothing is held under it. Returns
    /// `OutOfMemory` if there is not enough memory, and `UsedUp` if 2^64 - 1 calls have been made or the 64-bit numbers of writes are used
    /// up; then nothing has changed.
    pub fn remove(&mut self, key: &K) -> Result<Option<V>, CacheError>
        requires exact { (x y : V) → V.is_clone x y → y ≡ x }
        ensures value { IfOk result (λ value. value
            ≡ held_value_in ⟦<R as HasWays<K, V, S>>⟧.ways self.old.state key.now) }
        ensures removes { OnOk result (RemovesAsDrawn ⟦<R as HasWays<K, V, S>>⟧.ways
            self.old.moment key.now self.old.state self.new.state) }
        ensures rest { self.new ≡ record self.old { state = self.new.state } }
        ensures err { OnErr result (self.new.state ≡ self.old.state) }
        ensures cause { IfErr result IsShortage }
        ensures used_up { IsErrOf result errors.UsedUp
            → LacksSteps 1 self.old.state ⊎ IsCauseIn
            ⟦<R as HasWays<K, V, S>>⟧.ways removal_rooms self.old.state key.now errors.UsedUp }
    {
        self.remove_by_name(&LentKey { key })
    }

    /// Removes a key, whether its deadline has come or not. Returns `OutOfMemory` if there is not enough memory, and `UsedUp` if 2^64 - 1
    /// calls have been made or the 64-bit numbers of writes are used up; then nothing has changed.
    pub fn invalidate(&mut self, key: &K) -> Result<(), CacheError>
        requires exact { (x y : V) → V.is_clone x y → y ≡ x }
        ensures removes { OnOk result (RemovesAsDrawn ⟦<R as HasWays<K, V, S>>⟧.ways
            self.old.moment key.now self.old.state self.new.state) }
        ensures err { OnErr result (self.new.state ≡ self.old.state) }
        ensures rest { self.new ≡ record self.old { state = self.new.state } }
        ensures cause { IfErr result IsShortage }
        ensures used_up { IsErrOf result errors.UsedUp
            → LacksSteps 1 self.old.state ⊎ IsCauseIn
            ⟦<R as HasWays<K, V, S>>⟧.ways removal_rooms self.old.state key.now errors.UsedUp }
    {
        self.invalidate_by_name(&LentKey { key })
    }

    /// Invalidates every value that was written before. Returns `UsedUp` if 2^64 - 1 calls have been made; then nothing has changed.
    pub fn invalidate_all(&mut self) -> Result<(), CacheError>
        ensures clears { OnOk result (ClearsAsDrawn self.old.moment self.old.state self.new.state) }
        ensures err { OnErr result (self.new.state ≡ self.old.state) }
        ensures rest { self.new ≡ record self.old { state = self.new.state } }
        ensures cause { IfErr result
            (λ e. (e ≡ errors.UsedUp) × LacksSteps 1 self.old.state) }
    {
        let Some(at) = self.draw() else {
            return Err(CacheError::UsedUp);
        };
        self.state.invalidate_all(at);
        Ok(())
    }

    /// Runs maintenance to its end. Returns `UsedUp` if 2^64 - 1 calls have been made; then nothing has changed.
    pub fn run_pending_tasks(&mut self) -> Result<(), CacheError>
        ensures runs { OnOk result (RunsAsDrawn R.answers self.old.moment self.old.state
            self.new.state) }
        ensures err { OnErr result (self.new.state ≡ self.old.state) }
        ensures rest { self.new ≡ record self.old { state = self.new.state } }
        ensures cause { IfErr result
            (λ e. (e ≡ errors.UsedUp) × LacksSteps 1 self.old.state) }
    {
        let Some(at) = self.draw() else {
            return Err(CacheError::UsedUp);
        };
        self.state.run_pending_tasks(at);
        Ok(())
    }
}
