//! What the lock guards.
ghost use Rattle.std.specs.HashMap.{IsEmpty};
ghost use Rattle.std.specs.Prelude.{◌≡◌, ◌<◌, ◌%◌, ◌==◌, None, IfSome, max, replicate};
ghost use Rattle.front_reference.specs.Fronts.{ComesAfter};
ghost use Rattle.front_reference.specs.Wholes.{total_number, total_weight};
ghost use Rattle.front_state.specs.Calls.{hash_in};
ghost use Rattle.sync_desk.specs.Drawing.{IsDrawn, LacksSteps};
ghost use Rattle.sync_desk.specs.Writing.{last_in};

use crate::slots::Slots;
use crate::writes::Writes;
use engine_reference::Rules;
use front_parts::HasWays;
use front_reference::{At, Shared};
use front_state::{LentState, Single};
use policy_base::Instant;
use rand_core::Rng;
use std::alloc::Global;
use std::hash::{BuildHasher, Hash};

/// A cache's state with its generator, and the turns that are led or waited for. Each call has its moment, the later of the moment that was
/// handed in last (`at`) and the state's, and its step, the one after the state's. Only `at` changes the moment that was handed in, and only
/// a call with a predicate draws from the generator. The number never changes; by it a caller sees which desk a lock guards.
#[derive(Drop)]
pub struct Desk<K: Eq + Hash, V, S: BuildHasher, R: Rules<K, V>, G, C = Single> {
    pub(crate) alloc: Global,
    pub(crate) number: usize,
    pub(crate) moment: Instant,
    pub(crate) state: LentState<K, V, S, R, C>,
    pub(crate) slots: Slots<V, Shared<R::Fault>>,
    pub(crate) writes: Writes,
    pub(crate) generator: G,
}

impl<
    K: Eq + Hash + Drop,
    V: Drop,
    S: BuildHasher + Drop,
    R: Rules<K, V> + Drop,
    G: Rng + Drop,
    C: Drop,
> Desk<K, V, S, R, G, C> {
    /// Creates what a lock guards, of a state with no turn under way and the generator that gives its random words. Its number and its
    /// moment are 0.
    pub fn new(alloc: Global, state: LentState<K, V, S, R, C>, generator: G) -> Self
        ensures number { result.number ≡ 0 }
        ensures state { result.state ≡ state }
        ensures slots { IsEmpty result.slots.slots }
        ensures writes { result.writes.steps ≡ replicate 64 0 }
        ensures moment { result.moment ≡ 0 }
        ensures generator { result.generator ≡ generator }
    {
        Desk {
            alloc,
            number: 0,
            moment: Instant::from_nanos(0),
            state,
            slots: Slots::new(alloc),
            writes: Writes::new(),
            generator,
        }
    }

    /// Gives the desk another number.
    pub fn numbered(self, number: usize) -> Self
        ensures { result ≡ record self { number = number } }
    {
        let mut desk = self;
        desk.number = number;
        desk
    }

    /// Returns the desk's number.
    pub fn number(&self) -> usize
        ensures { result ≡ self.now.number }
    {
        self.number
    }

    /// Returns whether the step of the next call is a multiple of 64.
    pub fn is_at_64th_step(&self) -> bool
        ensures { result ≡ self.now.state.step % 64 == 63 }
    {
        let At { step, .. } = self.state.last_call();
        step % 64 == 63
    }

    /// Hands in the moment of the calls that come next. A moment before the state's last counts as the last.
    pub fn at(&mut self, moment: Instant)
        ensures { self.new ≡ record self.old { moment = moment } }
    {
        self.moment = moment;
    }

    /// The moment of the next call.
    pub(crate) fn next_moment(&self) -> Instant
        ensures { result ≡ max self.now.moment self.now.state.moment }
    {
        let last = self.state.last_call();
        self.moment.max(last.now)
    }

    /// The moment and step of the next call; `None` if the 64-bit steps are used up.
    pub(crate) fn draw(&self) -> Option<At>
        ensures follows { IfSome result (λ at. ComesAfter at.now at.step self.now.state) }
        ensures rises { IfSome result (λ at. self.now.state.step < at.step) }
        ensures drawn { IfSome result (IsDrawn self.now.moment self.now.state) }
        ensures used_up { result ≡ None → LacksSteps 1 self.now.state }
    {
        let last = self.state.last_call();
        let now = self.next_moment();
        let step = last.step.checked_add(1)?;
        Some(At { now, step })
    }

    /// Returns the step at which a value of a key, or of another key that shares its place, was last written. If the step is the same as
    /// before, so is the visible value, unless there is none any more.
    pub fn last_write(&self, key: &K) -> u64
        ensures { result ≡ last_in (hash_in ⟦<R as HasWays<K, V, S>>⟧.ways self.now.state key.now)
            self.now.writes.steps }
    {
        self.writes.last(self.state.hash(key))
    }

    /// Returns the number of entries as of the last run of each part.
    pub fn entry_count(&self) -> u64
        ensures { result ≡ total_number self.now.state }
    {
        self.state.entry_count()
    }

    /// Returns the total weight of the entries as of the last run of each part.
    pub fn weighted_size(&self) -> u64
        ensures { result ≡ total_weight self.now.state }
    {
        self.state.weighted_size()
    }
}
