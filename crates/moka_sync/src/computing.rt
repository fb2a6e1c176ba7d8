//! Calls that decide what to do with a key by its entry. They come one at a time for a key.
ghost use Rattle.std.specs.Prelude.{◌≡◌, Option, IfOk, IfErr, OnOk, is_some, ⊤};
ghost use Rattle.front_parts.specs.Access.Answering.{IsOutcomeOf};
ghost use Rattle.front_reference.specs.declared.data.Made.TheVariants as makes;
ghost use Rattle.front_reference.specs.declared.data.Op.TheVariants as op;
ghost use Rattle.moka_sync.specs.Holding.{DoneUnderLock};
ghost use Rattle.moka_sync.specs.Making.{ComputedUnderLock, DecidedUnderLock, DidCompute, DidFinish, DidGiveUp, DidTakeOut, OperatesUnderLock};
ghost use Rattle.sync_desk.specs.Slots.Refusals.{IsEndRefusal, IsShortage};

use crate::shared::SharedDesk;
use crate::turns::Lead;
use engine_reference::Rules;
use front_parts::{HasWays, shown_put, shown_removed, shown_unchanged};
use front_reference::{CacheError, Computed, Op, Shared, TurnKind};
use std::hash::{BuildHasher, Hash};
use std::sync::Wait;
use sync_desk::{ComputeStart, Env};

impl<
    'a,
    K: Eq + Hash + Drop,
    V: Clone + Drop,
    S: BuildHasher + Drop,
    R: Rules<K, V> + Drop,
    E: Env + Drop,
    C: Drop,
> Lead<'a, K, V, S, R, E, C> {
    /// Ends a compute turn by putting a value, or gives it up if that is refused.
    fn put(self, rt: &impl Wait, value: V) -> Result<(), CacheError>
        ensures did { OnOk result (DoneUnderLock self.entry.shared.now.number
            (DidFinish ⟦<R as HasWays<K, V, S>>⟧.ways {F = ⊤} self.entry.number
            (makes.Value value))) }
        ensures cause { IfErr result IsEndRefusal }
    {
        let Lead {
            shared,
            kind: _,
            number,
        } = self;
        let mut guard = shared.lock(rt);
        let desk = &mut *guard;
        let ended = desk.put(number, value);
        drop(guard);
        shared.changed.notify_all();
        ended
    }

    /// Ends a compute turn by removing its key, or gives it up if that is refused.
    fn take_out(self, rt: &impl Wait, key: &K) -> Result<Option<V>, CacheError>
        requires exact { (x y : V) → V.is_clone x y → y ≡ x }
        ensures did { IfOk result (λ removed. DoneUnderLock self.entry.shared.now.number
            (DidTakeOut ⟦<R as HasWays<K, V, S>>⟧.ways self.entry.number key.now removed)) }
        ensures cause { IfErr result IsShortage }
    {
        let Lead {
            shared,
            kind: _,
            number,
        } = self;
        let mut guard = shared.lock(rt);
        let desk = &mut *guard;
        let removed = desk.take_out(number, key);
        drop(guard);
        shared.changed.notify_all();
        removed
    }

    /// Puts a value, and returns it.
    fn put_copy(self, rt: &impl Wait, value: V, was_seen: bool) -> Result<Computed<V>, CacheError>
        requires exact { (x y : V) → V.is_clone x y → y ≡ x }
        ensures did { IfOk result (λ done. (key : K) (seen : Option V) → was_seen ≡ is_some seen
            → OperatesUnderLock ⟦<R as HasWays<K, V, S>>⟧.ways self.entry.shared.now.number
            self.entry.number key seen (op.Put value) done) }
        ensures does { IfOk result (IsOutcomeOf (op.Put value)) }
        ensures cause { IfErr result IsEndRefusal }
    {
        match value.clone() {
            Ok(kept) => match self.put(rt, kept) {
                Ok(()) => Ok(shown_put(value, was_seen)),
                Err(refused) => Err(refused),
            },
            Err(_) => {
                self.abandon(rt);
                Err(CacheError::OutOfMemory)
            }
        }
    }

    /// Does what was decided, and ends the turn.
    fn perform(
        self,
        rt: &impl Wait,
        key: &K,
        seen: Option<V>,
        decided: Op<V>,
    ) -> Result<Computed<V>, CacheError>
        requires exact { (x y : V) → V.is_clone x y → y ≡ x }
        ensures did { IfOk result (OperatesUnderLock ⟦<R as HasWays<K, V, S>>⟧.ways
            self.entry.shared.now.number self.entry.number key.now seen decided) }
        ensures does { IfOk result (IsOutcomeOf decided) }
        ensures cause { IfErr result IsEndRefusal }
    {
        match decided {
            Op::Put(value) => self.put_copy(rt, value, seen.is_some()),
            Op::Remove => match self.take_out(rt, key) {
                Ok(removed) => Ok(shown_removed(removed)),
                Err(refused) => Err(refused),
            },
            Op::Nop => {
                self.abandon(rt);
                Ok(shown_unchanged(seen))
            }
        }
    }

    /// Calls a closure without the lock, and does what it decided. If the closure fails, nothing is done except for the look-up's read.
    fn decide<X: Drop, H: Wait, D: FnOnce(Option<V>) -> Result<Op<V>, X> + Drop>(
        self,
        rt: &H,
        key: &K,
        seen: Option<V>,
        decide: D,
    ) -> Result<Result<Computed<V>, X>, CacheError>
        requires exact { (x y : V) → V.is_clone x y → y ≡ x }
        requires callable { D.IsAlwaysCallable decide }
        ensures does { IfOk result (DecidedUnderLock ⟦<R as HasWays<K, V, S>>⟧.ways
            self.entry.shared.now.number self.entry.number key.now seen
            (λ decided. D.post decide seen decided)) }
        ensures cause { IfErr result IsEndRefusal }
    {
        let kept = match seen.clone() {
            Ok(kept) => kept,
            Err(_) => {
                self.abandon(rt);
                return Err(CacheError::OutOfMemory);
            }
        };
        match decide(seen) {
            Ok(op) => match self.perform(rt, key, kept, op) {
                Ok(done) => Ok(Ok(done)),
                Err(refused) => Err(refused),
            },
            Err(fault) => {
                self.abandon(rt);
                Ok(Err(fault))
            }
        }
    }
}

impl<
    K: Eq + Hash + Drop,
    V: Clone + Drop,
    S: BuildHasher + Drop,
    R: Rules<K, V> + Drop,
    E: Env + Drop,
    C: Drop,
> SharedDesk<K, V, S, R, E, C> {
    /// Leads the compute turn of a key, once nobody else does, and returns the visible value, which counts as a use of it.
    fn lead_compute<H: Wait>(&self, rt: &H, key: &Shared<K>) -> Result<(u64, Option<V>), CacheError>
        requires exact { (x y : V) → V.is_clone x y → y ≡ x }
        ensures leads { IfOk result (λ led. DoneUnderLock self.now.number
            (DidCompute ⟦<R as HasWays<K, V, S>>⟧.ways key.now led.0 led.1)) }
        ensures cause { IfErr result IsShortage }
    {
        for _ in rt.forever() {
            let mut guard = self.lock(rt);
            let desk = &mut *guard;
            match desk.begin_compute(key)? {
                ComputeStart::Lead(number, seen) => return Ok((number, seen)),
                ComputeStart::Wait(number) => {
                    let _nothing = self.wait_for(rt, guard, TurnKind::Compute, number)?;
                }
            }
        }
        unreachable!()
    }

    /// Calls `decide` with the visible value of a key, does what it decides, and returns what was done. If `decide` fails, returns its
    /// error and writes nothing. `decide` runs without the lock, and such calls for one key come one at a time. The outer error is the
    /// cache's own: `OutOfMemory` if there is not enough memory, and `UsedUp` if the cache's 64-bit numbers are used up.
    pub fn compute<X: Drop, H: Wait, D: FnOnce(Option<V>) -> Result<Op<V>, X> + Drop>(
        &self,
        rt: &H,
        key: &Shared<K>,
        decide: D,
    ) -> Result<Result<Computed<V>, X>, CacheError>
        requires exact { (x y : V) → V.is_clone x y → y ≡ x }
        requires callable { D.IsAlwaysCallable decide }
        ensures does { IfOk result (ComputedUnderLock ⟦<R as HasWays<K, V, S>>⟧.ways
            self.now.number key.now (λ seen decided. D.post decide seen decided)) }
        ensures cause { IfErr result IsEndRefusal }
    {
        let (number, seen) = match self.lead_compute(rt, key) {
            Ok(led) => led,
            Err(refused) => return Err(refused),
        };
        let lead = Lead::new(self, TurnKind::Compute, number);
        lead.decide(rt, &**key, seen, decide)
    }
}
