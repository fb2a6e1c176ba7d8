//! What a whole advance returns.
ghost use Rattle.std.specs.Prelude.{◌≡◌, ℕ, ◌<◌, true, nat_lt, Some, None, OnSome, is_some, List, if◌then◌else◌};
ghost use Rattle.std.specs.Bool.{OnTrue, OnFalse};
ghost use Rattle.policy_queue.specs.Timers.Timers.{tick, KeepsAllButTimers};
ghost use Rattle.policy_queue.specs.Timers.Events.{AdvanceStep, SameTimes, pending};
ghost use Rattle.policy_queue.specs.Timers.Timers.{TheTimer};
ghost use Rattle.policy_queue.specs.Timers.Advances.{TheEvent};
ghost use Rattle.policy_queue.specs.Timers.Advances.{Advances, Drains, nodes_of};

use crate::timers::events::TimerEvent;
use crate::timers::wheel::TimerWheel;
use policy_base::{Instant, Slot};
use slab::Slab;

/// Returns the next event of an advance to `now`, which begins and is dropped within the call, or `None` if there is none.
pub fn next_event<K>(
    wheel: &mut TimerWheel<K>,
    now: Instant,
    entries: &mut Slab<Slot<K>>,
) -> Option<TimerEvent>
    requires { wheel.old.is_enabled ≡ true }
    ensures times { SameTimes entries.old entries.new }
    ensures early { OnFalse
        (nat_lt (tick wheel.old.origin wheel.old.moment) (tick wheel.old.origin now))
        ((result ≡ None) × (wheel.new ≡ wheel.old) × (entries.new ≡ entries.old)) }
    ensures steps { OnTrue
        (nat_lt (tick wheel.old.origin wheel.old.moment) (tick wheel.old.origin now))
        (AdvanceStep entries.old entries.new now wheel.old.timers wheel.new.timers result) }
    ensures keeps { OnTrue
        (nat_lt (tick wheel.old.origin wheel.old.moment) (tick wheel.old.origin now))
        (KeepsAllButTimers (record wheel.old { moment = (if is_some result then wheel.old.moment else now) })
        wheel.new) }
    ensures fewer { OnTrue
        (nat_lt (tick wheel.old.origin wheel.old.moment) (tick wheel.old.origin now))
        (OnSome result (pending now wheel.new.timers < pending now wheel.old.timers)) }
{
    let mut events = wheel.advance(now, entries);
    events.next()
}

/// An advance that runs to its end returns as expired exactly the timers that are due, each once, if each was placed
/// at its entry's time; whatever the premises, it returns none early.
pub fn advances_give_the_due<K>(entries: &Slab<Slot<K>>)
    ensures { (now : ℕ) (before after : List TheTimer) (events : List TheEvent) → Advances events
        entries.now now before after → Drains entries.now now before after (nodes_of events) }
{
    let _ = entries;
}
