//! Timers.
ghost use Rattle.std.specs.Prelude.{◌≡◌, ◌<◌, ◌^◌, true};
ghost use Rattle.std.specs.List.{All};
ghost use Rattle.policy_queue.specs.Timers.Timers.{tick};

use moka_policy::{EntryInfo, Instant, KeyHash, Slot, TimerEvent, TimerWheel};
use slab::Slab;
use std::alloc::Global;
use std::sync::Arc;

/// Lets all timers expire that are due in a later tick than the wheel's moment, one event at a
/// time, and counts them, up to 2^64 - 1. None is left that was placed at or before the moment.
fn expire_until<K>(wheel: &mut TimerWheel<K>, entries: &mut Slab<Slot<K>>, now: Instant) -> u64
    requires enabled { wheel.old.is_enabled ≡ true }
    requires later { tick wheel.old.origin wheel.old.moment < tick wheel.old.origin now }
    ensures left { All (λ t. now < t.placed) wheel.new.timers }
    ensures moment { wheel.new.moment ≡ now }
{
    let mut expired = 0u64;
    while let Some(event) = wheel.advance(now, entries).next() {
        if let TimerEvent::Expired(_) = event {
            expired = expired.saturating_add(1);
        }
    }
    expired
}

fn at(seconds: u64) -> Instant {
    Instant::from_nanos(seconds.min(60) * 1_000_000_000)
}

/// An entry that is due then.
fn entry(alloc: Global, seconds: u64) -> Option<Slot<u8>> {
    let key = Arc::new(alloc, 1u8).ok()?;
    let mut info = EntryInfo::new(KeyHash::new(key, 7), at(0), 1);
    info.set_expiration_time(Some(at(seconds)));
    Some(Slot::new(info))
}

/// Entries that are due after 2, 3 and 60 seconds.
fn three_entries(alloc: Global) -> Option<Slab<Slot<u8>>> {
    let mut entries = Slab::new(alloc);
    for seconds in [2, 3, 60] {
        entries.insert(entry(alloc, seconds)?).ok()?;
    }
    Some(entries)
}

/// Schedules an entry.
fn schedules(wheel: &mut TimerWheel<u8>, entry: usize, entries: &Slab<Slot<u8>>) -> bool {
    wheel.is_enabled() && wheel.schedule(entry, entries).is_ok()
}

/// Schedules the entries.
fn schedules_all(wheel: &mut TimerWheel<u8>, entries: &Slab<Slot<u8>>) -> bool {
    for entry in 0..3 {
        if !schedules(wheel, entry, entries) {
            return false;
        }
    }
    true
}

/// Whether a wheel is enabled and is at the moment 0.
fn is_at_start(wheel: &TimerWheel<u8>) -> bool
    ensures enabled { result ≡ true → wheel.now.is_enabled ≡ true }
    ensures moment { result ≡ true → wheel.now.moment ≡ 0 }
    ensures origin { result ≡ true → wheel.now.origin ≡ 0 }
{
    wheel.is_enabled() && wheel.moment().as_nanos() == 0 && wheel.origin().as_nanos() == 0
}

/// Two timers expire within five seconds, and one is left.
fn expires_two(wheel: &mut TimerWheel<u8>, entries: &mut Slab<Slot<u8>>) -> bool {
    if !is_at_start(wheel) {
        return false;
    }
    let now = Instant::from_nanos(5_000_000_000);
    expire_until(wheel, entries, now) == 2 && wheel.len() == 1
}

/// The same with new timers of entries.
fn expires_of(alloc: Global, entries: &mut Slab<Slot<u8>>) -> bool {
    let mut wheel = TimerWheel::new(alloc, at(0));
    wheel.enable();
    schedules_all(&mut wheel, entries) && expires_two(&mut wheel, entries)
}

fn expires(alloc: Global) -> bool {
    match three_entries(alloc) {
        Some(mut entries) => expires_of(alloc, &mut entries),
        None => false,
    }
}

#[test]
fn expires_what_is_due(rt: HostRuntime) {
    assert!(rt; expires(rt.alloc()) || expires(rt.alloc()));
}
