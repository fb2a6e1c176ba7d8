//! Timers. What is refused for memory is tried once more, and has changed nothing; so the tests
//! pass with any one allocation refused.
use crate::rows::{Stage, Table, first_wrong};
use moka_policy::{
    Due, EntryInfo, Instant, KeyHash, NodeId, ScheduleError, Slot, TimerEvent, TimerWheel,
};
use slab::Slab;
use std::alloc::Global;
use std::sync::Arc;

const TICK: u64 = 1073741824;

/// Entries, and their timers.
#[derive(Drop)]
pub struct Timers {
    alloc: Global,
    entries: Slab<Slot<u8>>,
    wheel: TimerWheel<u8>,
    /// The name of the timer that was placed last by itself.
    last: Option<NodeId>,
}

/// What is done with the timers, and what has to come of it.
#[derive(Clone, Copy)]
enum Act {
    /// A new entry that is due at that moment gets a timer.
    Schedule(u64),
    /// A thousand new entries, due at the thousandth tick, the one before it, and so on to the
    /// first.
    ScheduleThousand,
    /// Room is made for this many timers.
    Reserve(usize),
    /// So many new entries that are due at that moment get timers within the reservation.
    ScheduleReserved(u64, u32),
    /// A timer of those that are due at that moment expires.
    Expires(u64),
    /// So many timers of those that are due at that moment expire.
    ExpiresOften(u64, u32),
    /// At each tick of a thousand one timer expires, and no other.
    ExpiresAtEachTick,
    /// No timer expires at that moment.
    Waits(u64),
    Len(usize),
    Moment(u64),
    /// A timer is placed at that moment, for an entry of that number, which need not be there.
    Place(u64, usize),
    /// That timer is put at that moment.
    Replace(u64),
    /// It is unknown.
    ReplaceUnknown,
    /// The first timer up to that moment is of the entry of that number.
    First(u64, usize),
    /// No timer was placed up to that moment.
    NoFirst(u64),
    /// The first timer leaves.
    PopFirst,
}

pub fn new_timers(alloc: Global) -> Timers {
    let mut wheel = TimerWheel::new(alloc, Instant::from_nanos(0));
    wheel.enable();
    Timers {
        alloc,
        entries: Slab::new(alloc),
        wheel,
        last: None,
    }
}

/// An entry that is due at this moment, on the second attempt if memory is refused.
fn slot(alloc: Global, time: u64) -> Option<Slot<u8>> {
    let key = match Arc::new(alloc, 1u8) {
        Ok(key) => Some(key),
        Err(_) => Arc::new(alloc, 1u8).ok(),
    };
    match key {
        Some(key) => {
            let mut info = EntryInfo::new(KeyHash::new(key, 7), Instant::from_nanos(0), 1);
            info.set_expiration_time(Some(Instant::from_nanos(time.min(9_000_000_000_000))));
            Some(Slot::new(info))
        }
        None => None,
    }
}

/// A new entry's number.
fn insert(timers: &mut Timers, time: u64) -> Option<usize> {
    if timers.entries.reserve(1).is_err() && timers.entries.reserve(1).is_err() {
        return None;
    }
    match slot(timers.alloc, time) {
        Some(slot) => timers.entries.insert(slot).ok(),
        None => None,
    }
}

/// Gives an entry its timer.
fn place(timers: &mut Timers, entry: usize) -> Result<(), ScheduleError> {
    if !timers.wheel.is_enabled() {
        return Err(ScheduleError::UsedUp);
    }
    match timers.wheel.schedule(entry, &timers.entries) {
        Ok(_) => Ok(()),
        Err(error) => Err(error),
    }
}

/// Schedules, on the second attempt if memory is refused: then nothing has changed.
fn schedule(timers: &mut Timers, time: u64) -> bool {
    let Some(entry) = insert(timers, time) else {
        return false;
    };
    let before = timers.wheel.len();
    match place(timers, entry) {
        Ok(()) => true,
        Err(ScheduleError::OutOfMemory) => {
            timers.wheel.len() == before && place(timers, entry).is_ok()
        }
        Err(ScheduleError::UsedUp) => false,
    }
}

/// The next event of an advance to that moment.
fn next_event(timers: &mut Timers, now: u64) -> Option<TimerEvent> {
    if !timers.wheel.is_enabled() {
        return None;
    }
    let moment = Instant::from_nanos(now.min(9_000_000_000_000));
    timers.wheel.advance(moment, &mut timers.entries).next()
}

/// Whether a timer expired.
fn is_expired(event: Option<TimerEvent>) -> bool {
    match event {
        Some(TimerEvent::Expired(_)) => true,
        _ => false,
    }
}

/// Schedules at the thousandth tick, at the one before it, and so on to the first.
pub fn schedule_thousand(timers: &mut Timers) -> bool {
    for k in 0..1000u64 {
        if !schedule(timers, (1000 - k) * TICK) {
            return false;
        }
    }
    true
}

/// Makes room, on the second attempt if memory is refused.
fn reserve(wheel: &mut TimerWheel<u8>, n: usize) -> bool {
    wheel.reserve(n).is_ok() || wheel.reserve(n).is_ok()
}

/// Schedules within a reservation.
fn schedule_reserved(timers: &mut Timers, time: u64) -> bool {
    match insert(timers, time) {
        Some(entry) => place(timers, entry).is_ok(),
        None => false,
    }
}

fn schedule_reserved_often(timers: &mut Timers, time: u64, times: u32) -> bool {
    for _ in 0..times {
        if !schedule_reserved(timers, time) {
            return false;
        }
    }
    true
}

fn expires_often(timers: &mut Timers, now: u64, times: u32) -> bool {
    for _ in 0..times {
        if !is_expired(next_event(timers, now)) {
            return false;
        }
    }
    true
}

/// Whether at each tick of a thousand one timer expires, and no other.
pub fn expires_at_each_tick(timers: &mut Timers) -> bool {
    for tick in 1..1001u64 {
        if !is_expired(next_event(timers, tick * TICK))
            || next_event(timers, tick * TICK).is_some()
        {
            return false;
        }
    }
    true
}

/// A due time, without an own expiration's generation.
fn due(time: u64) -> Due {
    Due {
        time: Instant::from_nanos(time.min(9_000_000_000_000)),
        expiry_gen: 0,
    }
}

/// Places a timer by itself, within a reservation.
fn place_alone(timers: &mut Timers, time: u64, entry: usize) -> bool {
    if timers.wheel.reserve(1).is_err() && timers.wheel.reserve(1).is_err() {
        return false;
    }
    timers.last = Some(timers.wheel.place(entry, due(time)));
    true
}

/// Whether the timer that was placed last is known, and then stands at that moment; nothing where
/// none was placed.
fn replace(timers: &mut Timers, time: u64) -> Option<bool> {
    match timers.last {
        Some(id) => Some(timers.wheel.replace(id, due(time)).is_ok()),
        None => None,
    }
}

/// Takes the first timer out, if there is one.
fn pop_first(timers: &mut Timers) -> bool {
    if timers.wheel.len() == 0 {
        return false;
    }
    timers.wheel.pop_first();
    true
}

/// The entry of the first timer up to that moment.
fn first_entry(timers: &Timers, now: u64) -> Option<usize> {
    match timers.wheel.first_due(due(now).time) {
        Some(timer) => Some(timer.node.entry_info),
        None => None,
    }
}

/// Schedules, and returns whether the result was the expected one.
fn comes_so(timers: &mut Timers, act: Act) -> bool {
    match act {
        Act::Schedule(time) => schedule(timers, time),
        Act::ScheduleThousand => schedule_thousand(timers),
        Act::Reserve(n) => reserve(&mut timers.wheel, n),
        Act::ScheduleReserved(time, times) => schedule_reserved_often(timers, time, times),
        Act::Place(time, entry) => place_alone(timers, time, entry),
        Act::Replace(time) => replace(timers, time) == Some(true),
        Act::ReplaceUnknown => replace(timers, 0) == Some(false),
        Act::PopFirst => pop_first(timers),
        act => shows_so(timers, act),
    }
}

/// Advances or looks, and returns whether the result was the expected one.
fn shows_so(timers: &mut Timers, act: Act) -> bool {
    match act {
        Act::Expires(now) => is_expired(next_event(timers, now)),
        Act::ExpiresOften(now, times) => expires_often(timers, now, times),
        Act::ExpiresAtEachTick => expires_at_each_tick(timers),
        Act::Waits(now) => next_event(timers, now).is_none(),
        Act::Len(wanted) => timers.wheel.len() == wanted,
        Act::Moment(wanted) => timers.wheel.moment().as_nanos() == wanted,
        Act::First(now, entry) => first_entry(timers, now) == Some(entry),
        Act::NoFirst(now) => first_entry(timers, now).is_none(),
        _ => false,
    }
}

impl Stage<Act> for Timers {
    fn new(alloc: Global) -> Option<Self> {
        Some(new_timers(alloc))
    }

    fn plays(&mut self, act: &Act) -> bool {
        comes_so(self, *act)
    }
}

const TABLES: &[Table<'_, Act>] = &[
    Table {
        name: "due timers expire",
        rows: &[
            Act::Schedule(TICK),
            Act::Schedule(TICK - 4096),
            Act::Schedule(TICK + 4096),
            Act::Waits(TICK - 1),
            Act::Expires(TICK),
            Act::Expires(TICK),
            Act::Waits(TICK),
            Act::Len(1),
            Act::Moment(TICK),
        ],
    },
    Table {
        name: "a dropped iterator leaves the moment",
        rows: &[
            Act::Schedule(TICK - 4096),
            Act::Schedule(TICK),
            Act::Expires(TICK),
            Act::Moment(0),
            Act::Expires(TICK),
            Act::Len(0),
        ],
    },
    Table {
        name: "a thousand timers in falling order",
        rows: &[Act::ScheduleThousand, Act::ExpiresAtEachTick, Act::Len(0)],
    },
    Table {
        name: "timers placed, looked at, put at another time and taken one by one",
        rows: &[
            Act::Place(30, 3),
            Act::Place(10, 1),
            Act::Place(20, 2),
            Act::NoFirst(9),
            Act::First(10, 1),
            Act::Replace(5),
            Act::First(10, 2),
            Act::Replace(25),
            Act::First(25, 1),
            Act::PopFirst,
            Act::NoFirst(24),
            Act::First(25, 2),
            Act::PopFirst,
            Act::ReplaceUnknown,
            Act::First(30, 3),
            Act::PopFirst,
            Act::NoFirst(1000),
            Act::Len(0),
        ],
    },
    Table {
        name: "timers within a reservation",
        rows: &[
            Act::Reserve(20),
            Act::ScheduleReserved(TICK, 20),
            Act::ExpiresOften(TICK, 20),
            Act::Len(0),
        ],
    },
];

#[test]
fn timers_expire_when_they_are_due(rt: HostRuntime) {
    assert_eq!(rt; first_wrong::<Timers, Act>(rt.alloc(), TABLES), None);
}
