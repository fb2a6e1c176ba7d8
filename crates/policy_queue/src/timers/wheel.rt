//! Timers of a cache's entries.
ghost use Rattle.std.specs.Prelude.{◌≡◌, ◌≢◌, ℕ, ◌+◌, ◌-◌, ◌^◌, ◌<◌, ◌≤◌, ◌↔◌, true, false, List, [], ◌∷◌, length, IsTrue, IsOk, IfOk, IfErr, OnOk, OnErr, MatchOption, IfSome, Some, None, slice_index_or};
ghost use Rattle.std.specs.List.{All};
ghost use Rattle.std.specs.List.Sorted.{IsPermutation};
ghost use Rattle.slab.specs.Slab.{get};
ghost use Rattle.policy_queue.specs.Timers.Entries.{due_of};
ghost use Rattle.policy_queue.specs.Timers.Timers.{TheTimer, moved, KeepsAllButTimers, OnlyGainsRoom, ScheduledWell, TimerRefusedWell, TimerLeaves, RescheduledWell, Replaces, Schedules};

use crate::timers::array::{Due, Timer, TimerNode, add, find, move_timer, take};
use crate::timers::entries::due_of;
use crate::timers::places::Place;
use crate::timers::row::Row;
use policy_base::{CacheRegion, Cells, Instant, NodeId, Slot};
use slab::Slab;
use std::alloc::{AllocError, Global};
use std::marker::{Model, PhantomData};
use thiserror::Error;

/// What became of a timer whose entry's time may have changed.
#[derive(Clone, Copy, Debug, PartialEq, Eq)]
pub enum ReschedulingResult {
    /// The timer is at the entry's time.
    Rescheduled,
    /// The timer was removed, since the entry has no time.
    Removed(TimerNode),
}

/// Why a timer, or room for timers, was refused.
#[derive(Clone, Copy, Debug, PartialEq, Eq, Drop, Error)]
pub enum ScheduleError {
    /// There was not enough memory for a timer.
    #[error("out of memory")]
    OutOfMemory,
    /// The wheel would have had more than 2^64 - 1 timers.
    #[error("used up")]
    UsedUp,
}

/// The wheel does not have the timer that the caller named.
#[derive(Clone, Copy, Debug, PartialEq, Eq, Drop, Error)]
#[error("stale timer")]
pub struct StaleTimer;

/// Timers in order of rising times.
#[derive(Drop)]
pub struct TimerWheel<K> {
    is_enabled: bool,
    origin: Instant,
    moment: Instant,
    next_serial: u64,
    row: Row,
    slots: Cells<Instant, u64>,
    keys: PhantomData<K>,
}

impl<K> Model for TimerWheel<K> {
    ghost use Rattle.std.specs.Prelude.{◌-◌, ◌^◌, min, length};
    ghost use Rattle.slab.specs.Slab.{slab_len};
    ghost use Rattle.policy_queue.specs.Timers.Timers.{Timers};
    ghost use Rattle.policy_queue.specs.Timers.Array.{IsWheel};
    ghost use Rattle.policy_queue.specs.Timers.Places.{taken};

    ghost Value = { Timers };

    ghost view = { λ w. record {
      is_enabled = w.is_enabled;
      origin = w.origin;
      moment = w.moment;
      timers = taken w.row.places;
      next_serial = w.next_serial;
      room = min (w.row.capacity - length (taken w.row.places)) (min (w.slots.capacity - slab_len w.slots) (2 ^ 64 - 1 - w.next_serial));
    } };

    ghost invariant = { λ w. IsWheel (taken w.row.places) w.slots w.next_serial };
}

impl<K> TimerWheel<K> {
    /// Creates a wheel without timers, not yet enabled. The call allocates nothing.
    pub fn new(alloc: Global, moment: Instant) -> Self
        ensures is_enabled { result.is_enabled ≡ false }
        ensures origin { result.origin ≡ moment }
        ensures moment { result.moment ≡ moment }
        ensures timers { result.timers ≡ [] }
        ensures next_serial { result.next_serial ≡ 0 }
    {
        TimerWheel {
            is_enabled: false,
            origin: moment,
            moment,
            next_serial: 0,
            row: Row::new(alloc),
            slots: Cells::new(alloc),
            keys: PhantomData,
        }
    }

    /// Returns whether timers may be scheduled.
    pub fn is_enabled(&self) -> bool
        ensures { result ≡ self.now.is_enabled }
    {
        self.is_enabled
    }

    /// Lets timers be scheduled. The wheel must not be enabled yet.
    pub fn enable(&mut self)
        requires { self.old.is_enabled ≡ false }
        ensures { self.new ≡ record self.old { is_enabled = true } }
    {
        self.is_enabled = true;
    }

    /// Returns the number of timers.
    pub fn len(&self) -> usize
        ensures { result ≡ length self.now.timers }
    {
        self.slots.len()
    }

    /// Returns the moment up to which timers were returned.
    pub fn moment(&self) -> Instant
        ensures { result ≡ self.now.moment }
    {
        self.moment
    }

    /// Returns the moment at which the wheel was created.
    pub fn origin(&self) -> Instant
        ensures { result ≡ self.now.origin }
    {
        self.origin
    }

    /// Reserves room for `n` more timers, which then allocate nothing and are not refused. Returns `UsedUp` if the wheel would then have
    /// had more than 2^64 - 1 timers, and `OutOfMemory` if there is not enough memory; the timers then stay as they are.
    pub fn reserve(&mut self, n: usize) -> Result<(), ScheduleError>
        ensures room { OnOk result (n ≤ self.new.room) }
        ensures had_room { n ≤ self.old.room → IsOk result }
        ensures stays { OnlyGainsRoom self.old self.new }
        ensures used_up { (result ≡ Err ScheduleError.UsedUp)
            ↔ (2 ^ 64 - 1 < self.old.next_serial + n) }
    {
        if u64::MAX - self.next_serial < n as u64 {
            return Err(ScheduleError::UsedUp);
        }
        if n == 0 {
            return Ok(());
        }
        if !self.row.reserve(self.slots.len(), n) {
            return Err(ScheduleError::OutOfMemory);
        }
        if self.slots.reserve(n).is_err() {
            return Err(ScheduleError::OutOfMemory);
        }
        Ok(())
    }

    /// Adds a timer for an entry at its time, and returns the timer's name, or `None` if the entry has no time. The wheel must be enabled.
    /// Returns `UsedUp` if the wheel has had 2^64 - 1 timers, and `OutOfMemory` if there is not enough memory for a timer; the timers then
    /// stay as they are.
    pub fn schedule(
        &mut self,
        entry: usize,
        entries: &Slab<Slot<K>>,
    ) -> Result<Option<NodeId>, ScheduleError>
        requires { self.old.is_enabled ≡ true }
        ensures scheduled { IfOk result (ScheduledWell entries.now self.old self.new entry) }
        ensures had_room { 0 < self.old.room → IsOk result }
        ensures without_time { due_of entries.now entry ≡ None → IsOk result }
        ensures stays { OnErr result (OnlyGainsRoom self.old self.new) }
        ensures why { IfErr result (TimerRefusedWell self.old) }
    {
        let due = match due_of(entries, entry) {
            Some(due) => due,
            None => return Ok(None),
        };
        match self.reserve(1) {
            Ok(()) => Ok(Some(self.place(entry, due))),
            Err(error) => Err(error),
        }
    }

    /// Adds a timer for an entry at a time, and returns the timer's name. There must be room for the timer, so that nothing is allocated.
    pub fn place(&mut self, entry: usize, due: Due) -> NodeId
        requires { 0 < self.old.room }
        ensures { Schedules self.old self.new entry result due }
    {
        let id = NodeId {
            queue: CacheRegion::Other,
            serial: self.next_serial,
            slot: self.slots.vacant_key(),
        };
        let place = Place {
            placed: due.time,
            serial: id.serial,
            entry,
            slot: id.slot,
            expiry_gen: due.expiry_gen,
            is_taken: true,
        };
        add(&mut self.row, &mut self.slots, place);
        self.next_serial += 1;
        id
    }

    /// Moves a timer, which keeps its name, to its entry's present time, or removes it if the entry has none. Returns `StaleTimer` if the
    /// wheel does not have the timer; then nothing has changed. The wheel must be enabled.
    pub fn reschedule(
        &mut self,
        id: NodeId,
        entries: &Slab<Slot<K>>,
    ) -> Result<ReschedulingResult, StaleTimer>
        requires { self.old.is_enabled ≡ true }
        ensures rescheduled { IfOk result
            (RescheduledWell entries.now self.old.timers self.new.timers id) }
        ensures keeps { OnOk result (KeepsAllButTimers self.old self.new) }
        ensures stale { OnErr result (All (λ t. t.id ≢ id) self.old.timers) }
        ensures unchanged { OnErr result (self.new ≡ self.old) }
    {
        match find(&self.row, &self.slots, id) {
            None => Err(StaleTimer),
            Some(k) => match due_of(entries, self.row.at(k).node.entry_info) {
                None => {
                    let timer = take(&mut self.row, &mut self.slots, k);
                    Ok(ReschedulingResult::Removed(timer.node))
                }
                Some(due) => {
                    move_timer(&mut self.row, &mut self.slots, k, due);
                    Ok(ReschedulingResult::Rescheduled)
                }
            },
        }
    }

    /// Moves a timer, which keeps its name, to another time. The call allocates nothing. Returns `StaleTimer` if the wheel does not have
    /// the timer; then nothing has changed.
    pub fn replace(&mut self, id: NodeId, due: Due) -> Result<(), StaleTimer>
        ensures replaces { OnOk result (Replaces self.old.timers self.new.timers id due) }
        ensures keeps { OnOk result (KeepsAllButTimers self.old self.new) }
        ensures stale { OnErr result (All (λ t. t.id ≢ id) self.old.timers) }
        ensures unchanged { OnErr result (self.new ≡ self.old) }
    {
        match find(&self.row, &self.slots, id) {
            None => Err(StaleTimer),
            Some(k) => {
                move_timer(&mut self.row, &mut self.slots, k, due);
                Ok(())
            }
        }
    }

    /// Removes a timer, and returns it. Returns `StaleTimer` if the wheel does not have the timer; then nothing has changed. The wheel must
    /// be enabled.
    pub fn deschedule(&mut self, id: NodeId) -> Result<TimerNode, StaleTimer>
        requires { self.old.is_enabled ≡ true }
        ensures leaves { IfOk result (TimerLeaves self.old.timers self.new.timers id) }
        ensures keeps { OnOk result (KeepsAllButTimers self.old self.new) }
        ensures stale { OnErr result (All (λ t. t.id ≢ id) self.old.timers) }
        ensures unchanged { OnErr result (self.new ≡ self.old) }
    {
        match find(&self.row, &self.slots, id) {
            None => Err(StaleTimer),
            Some(k) => {
                let timer = take(&mut self.row, &mut self.slots, k);
                Ok(timer.node)
            }
        }
    }

    /// Returns the first timer, if it was placed at or before `now`, or `None`. The timer stays.
    pub fn first_due(&self, now: Instant) -> Option<Timer>
        ensures earliest { IfSome result (λ t. All (λ u. t.placed ≤ u.placed) self.now.timers) }
        ensures first { MatchOption result (All (λ t. now < t.placed) self.now.timers)
            (λ t. (0 < length self.now.timers) × (t ≡ slice_index_or self.now.timers 0 t)
            × (t.placed ≤ now)) }
    {
        match self.row.first() {
            Some(first) => {
                if first.placed.as_nanos() <= now.as_nanos() {
                    Some(first)
                } else {
                    None
                }
            }
            None => None,
        }
    }

    /// Removes the first timer. There must be one.
    pub fn pop_first(&mut self)
        requires { 0 < length self.old.timers }
        ensures first { (t : TheTimer) × (self.old.timers ≡ t ∷ self.new.timers) }
        ensures keeps { KeepsAllButTimers self.old self.new }
    {
        match self.row.first() {
            Some(_) => {
                let _timer = take(&mut self.row, &mut self.slots, 0);
            }
            None => unreachable!(),
        }
    }

    /// Moves the first timer to another time.
    pub(crate) fn move_first(&mut self, due: Due)
        requires { 0 < length self.old.timers }
        ensures first { (t : TheTimer) × (rest : List TheTimer) × (self.old.timers ≡ t ∷ rest)
            × IsPermutation (moved t due.time due.expiry_gen ∷ rest) self.new.timers }
        ensures keeps { KeepsAllButTimers self.old self.new }
    {
        match self.row.first() {
            Some(_) => move_timer(&mut self.row, &mut self.slots, 0, due),
            None => unreachable!(),
        }
    }

    /// Sets the moment up to which timers were returned.
    pub(crate) fn set_moment(&mut self, now: Instant)
        ensures { self.new ≡ record self.old { moment = now } }
    {
        self.moment = now;
    }
}
