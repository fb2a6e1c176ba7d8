//! An advance of a wheel, event by event.
ghost use Rattle.std.specs.Prelude.{◌≡◌, ℕ, ◌<◌, ◌≤◌, true, false, nat_lt, List, [], ◌∷◌, ◌++◌, Some, None, IfSome, OnSome, is_some, if◌then◌else◌};
ghost use Rattle.std.specs.Bool.{OnTrue, OnFalse};
ghost use Rattle.policy_queue.specs.Timers.Timers.{tick, KeepsAllButTimers, TheTimer};
ghost use Rattle.policy_queue.specs.Timers.Events.{AdvanceStep, SameTimes, pending, EventIs, entries_after};
ghost use Rattle.policy_queue.specs.Timers.Entries.{due_of};

use crate::timers::array::{Due, Timer, TimerNode};
use crate::timers::entries::{due_of, forget_timer};
use crate::timers::wheel::TimerWheel;
use policy_base::{Instant, Slot};
use slab::Slab;

/// An event of an advance.
#[derive(Clone, Copy, Debug, PartialEq, Eq)]
pub enum TimerEvent {
    /// A timer left, since its entry's time has come.
    Expired(TimerNode),
    /// A timer was moved to a later time.
    Rescheduled(()),
    /// Never returned.
    Descheduled,
}

/// The number of the tick, 2^30 nanoseconds long, in which a moment is, counted from the moment of creation.
fn tick_of(origin: Instant, moment: Instant) -> u64
    ensures { result ≡ tick origin moment }
{
    moment.as_nanos().saturating_sub(origin.as_nanos()) / 0x4000_0000
}

impl<K> TimerWheel<K> {
    /// Returns, one by one, the timers that are due at `now`, if `now` is in a later tick than the wheel's moment.
    pub fn advance<'a>(
        &'a mut self,
        now: Instant,
        entries: &'a mut Slab<Slot<K>>,
    ) -> TimerEventsIter<'a, K>
        requires { self.old.is_enabled ≡ true }
        ensures same_wheel { result.wheel.ghost_name ≡ self.entry.ghost_name }
        ensures wheel { result.wheel.now ≡ self.old }
        ensures same_entries { result.entries.ghost_name ≡ entries.entry.ghost_name }
        ensures entries { result.entries.now ≡ entries.old }
        ensures now { result.now ≡ now }
        ensures late { result.is_late
            ≡ nat_lt (tick self.old.origin self.old.moment) (tick self.old.origin now) }
    {
        let is_late = tick_of(self.origin(), self.moment()) < tick_of(self.origin(), now);
        TimerEventsIter {
            wheel: self,
            entries,
            now,
            is_late,
        }
    }
}

/// The events of one advance. If the iterator is dropped before its end, the wheel's moment stays as it was.
#[derive(Drop)]
pub struct TimerEventsIter<'a, K> {
    wheel: &'a mut TimerWheel<K>,
    entries: &'a mut Slab<Slot<K>>,
    now: Instant,
    is_late: bool,
}

impl<'a, K> TimerEventsIter<'a, K> {
    /// Returns the next event, or `None` after the last one.
    pub fn next(&mut self) -> Option<TimerEvent>
        ensures same_wheel { self.new.wheel.ghost_name ≡ self.old.wheel.ghost_name }
        ensures same_entries { self.new.entries.ghost_name ≡ self.old.entries.ghost_name }
        ensures moment { (self.new.now ≡ self.old.now) × (self.new.is_late ≡ self.old.is_late) }
        ensures times { SameTimes self.old.entries.now self.new.entries.now }
        ensures early { OnFalse self.old.is_late
            ((result ≡ None) × (self.new.wheel.now ≡ self.old.wheel.now)
            × (self.new.entries.now ≡ self.old.entries.now)) }

        // In a later tick: what left and what came, the moment, and that fewer timers are pending.
        ensures steps { OnTrue self.old.is_late
            (AdvanceStep self.old.entries.now self.new.entries.now self.old.now
            self.old.wheel.now.timers self.new.wheel.now.timers result) }
        ensures keeps { OnTrue self.old.is_late (KeepsAllButTimers (record self.old.wheel.now
            { moment = (if is_some result then self.old.wheel.now.moment else self.old.now) })
            self.new.wheel.now) }
        ensures fewer { OnTrue self.old.is_late (OnSome result (pending self.old.now
            self.new.wheel.now.timers < pending self.old.now self.old.wheel.now.timers)) }
    {
        if !self.is_late {
            return None;
        }
        while let Some(timer) = self.wheel.first_due(self.now) {
            match due_of(self.entries, timer.node.entry_info) {
                None => {
                    forget_timer(self.entries, timer.node.entry_info);
                    self.wheel.pop_first();
                }
                Some(due) => {
                    let event = settle(self.wheel, self.entries, timer, due, self.now);
                    return Some(event);
                }
            }
        }
        self.wheel.set_moment(self.now);
        None
    }
}

/// Removes the first timer if its entry's time has come, and otherwise moves it to that time.
fn settle<K>(
    wheel: &mut TimerWheel<K>,
    entries: &mut Slab<Slot<K>>,
    timer: Timer,
    due: Due,
    now: Instant,
) -> TimerEvent
    requires there { (rest : List TheTimer) × (wheel.old.timers ≡ timer ∷ rest) }
    requires due { due_of entries.old timer.node.entry_info ≡ Some due }
    requires placed { timer.placed ≤ now }
    ensures event { EventIs entries.old now wheel.old.timers wheel.new.timers (Some result) }
    ensures keeps { KeepsAllButTimers wheel.old wheel.new }
    ensures entries { entries.new ≡ entries_after (Some result) entries.old }
{
    if due.time.as_nanos() <= now.as_nanos() {
        forget_timer(entries, timer.node.entry_info);
        wheel.pop_first();
        TimerEvent::Expired(timer.node)
    } else {
        wheel.move_first(due);
        TimerEvent::Rescheduled(())
    }
}
