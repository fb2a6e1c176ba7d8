//! Calls by what names a key.
ghost use Rattle.std.specs.Prelude.{◌≡◌, ◌+◌, ◌⊎◌, Option, IfErr, IfOk, OnErr, OnOk, is_some};
ghost use Rattle.std.specs.Result.{IsErrOf};
ghost use Rattle.engine_reference.specs.Calls.{removal_rooms};
ghost use Rattle.front_reference.specs.declared.errors.CacheError.TheVariants as errors;
ghost use Rattle.front_state.specs.Calls.{IsCauseIn, held_value_in};
ghost use Rattle.sync_desk.specs.Drawing.{LacksSteps, LooksUpAsDrawn, RemovesAsDrawn, SeesAsDrawn};
ghost use Rattle.sync_desk.specs.Slots.Refusals.{IsShortage};

use crate::desk::Desk;
use engine_reference::Rules;
use front_parts::HasWays;
use front_reference::CacheError;
use front_state::HashedName;
use rand_core::Rng;
use std::hash::{BuildHasher, Hash};

impl<
    K: Eq + Hash + Drop,
    V: Clone + Drop,
    S: BuildHasher + Drop,
    R: Rules<K, V> + Drop,
    G: Rng + Drop,
    C: Drop,
> Desk<K, V, S, R, G, C> {
    /// Does what `get` does, by what names the key, and returns its errors.
    pub fn get_by_name<Q: HashedName<K>>(&mut self, name: &Q) -> Result<Option<V>, CacheError>
        requires exact { (x y : V) → V.is_clone x y → y ≡ x }
        ensures found { IfOk result (LooksUpAsDrawn ⟦<R as HasWays<K, V, S>>⟧.ways
            self.old.moment (Q.named_key name.now) self.old.state self.new.state) }
        ensures err { OnErr result (self.new.state ≡ self.old.state) }
        ensures rest { self.new ≡ record self.old { state = self.new.state } }
        ensures cause { IfErr result IsShortage }
        ensures used_up { IsErrOf result errors.UsedUp
            → LacksSteps 1 self.old.state }
    {
        let Some(at) = self.draw() else {
            return Err(CacheError::UsedUp);
        };
        match self.state.get_by_name(name, at) {
            Ok(found) => Ok(found),
            Err(_) => Err(CacheError::OutOfMemory),
        }
    }

    /// Does what `contains_key` does, by what names the key.
    pub fn contains_key_by_name<Q: HashedName<K>>(&mut self, name: &Q) -> bool
        ensures found { (found : Option V)
            × SeesAsDrawn ⟦<R as HasWays<K, V, S>>⟧.ways self.old.moment
            (Q.named_key name.now) self.old.state found × (result ≡ is_some found) }
        ensures same { self.new ≡ self.old }
    {
        self.state.contains_key_by_name(name, self.next_moment())
    }

    /// Does what `remove` does, by what names the key, and returns its errors.
    pub fn remove_by_name<Q: HashedName<K>>(&mut self, name: &Q) -> Result<Option<V>, CacheError>
        requires exact { (x y : V) → V.is_clone x y → y ≡ x }
        ensures value { IfOk result (λ value. value ≡ held_value_in
            ⟦<R as HasWays<K, V, S>>⟧.ways self.old.state (Q.named_key name.now)) }
        ensures removes { OnOk result (RemovesAsDrawn ⟦<R as HasWays<K, V, S>>⟧.ways
            self.old.moment (Q.named_key name.now) self.old.state self.new.state) }
        ensures rest { self.new ≡ record self.old { state = self.new.state } }
        ensures err { OnErr result (self.new.state ≡ self.old.state) }
        ensures cause { IfErr result IsShortage }
        ensures used_up { IsErrOf result errors.UsedUp
            → LacksSteps 1 self.old.state ⊎ IsCauseIn ⟦<R as HasWays<K, V, S>>⟧.ways
            removal_rooms self.old.state (Q.named_key name.now) errors.UsedUp }
    {
        let Some(at) = self.draw() else {
            return Err(CacheError::UsedUp);
        };
        self.state.remove_by_name(name, at)
    }

    /// Does what `invalidate` does, by what names the key, and returns its errors.
    pub fn invalidate_by_name<Q: HashedName<K>>(&mut self, name: &Q) -> Result<(), CacheError>
        requires exact { (x y : V) → V.is_clone x y → y ≡ x }
        ensures removes { OnOk result (RemovesAsDrawn ⟦<R as HasWays<K, V, S>>⟧.ways
            self.old.moment (Q.named_key name.now) self.old.state self.new.state) }
        ensures err { OnErr result (self.new.state ≡ self.old.state) }
        ensures rest { self.new ≡ record self.old { state = self.new.state } }
        ensures cause { IfErr result IsShortage }
        ensures used_up { IsErrOf result errors.UsedUp
            → LacksSteps 1 self.old.state ⊎ IsCauseIn ⟦<R as HasWays<K, V, S>>⟧.ways
            removal_rooms self.old.state (Q.named_key name.now) errors.UsedUp }
    {
        let Some(at) = self.draw() else {
            return Err(CacheError::UsedUp);
        };
        self.state.invalidate_by_name(name, at)
    }
}
