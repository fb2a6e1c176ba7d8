//! Moments, regions and entries. The tests pass with any one allocation refused.
use crate::rows::{Stage, Table, first_wrong};
use moka_policy::{
    CacheRegion, EntryInfo, HousekeeperConfig, Instant, KeyHash, MAX_NANOS, sketch_capacity,
};
use std::alloc::Global;
use std::sync::Arc;
use std::time::Duration;

/// What is done with the own expiration of an entry, and what has to come of it.
#[derive(Clone, Copy)]
enum Act {
    /// It is set to a moment, if to any, and reads so.
    Set(Option<u64>, Option<u64>),
    /// It is taken away so often.
    TakeAway(u32),
    /// How often it was changed, of 4096.
    Changes(u16),
}

fn moment(nanos: u64) -> Instant {
    Instant::from_nanos(nanos.min(MAX_NANOS))
}

/// A number of nanoseconds, and a number of further ones.
fn added(nanos: u64, more: u64) -> u64 {
    moment(nanos)
        .saturating_add(Duration::from_nanos(more))
        .as_nanos()
}

/// How long a moment is after another.
fn since(nanos: u64, earlier: u64) -> Duration {
    moment(nanos).saturating_duration_since(moment(earlier))
}

#[test]
fn moments_saturate(rt: HostRuntime) {
    assert_eq!(rt;
        (added(MAX_NANOS, 1), added(5, 7), since(5, 7)),
        (18446744073709551614, 12, Duration::ZERO)
    );
}

/// A key, on the second attempt if memory is refused.
fn key(alloc: Global) -> Option<Arc<u8>> {
    match Arc::new(alloc, 1u8) {
        Ok(key) => Some(key),
        Err(_) => Arc::new(alloc, 1u8).ok(),
    }
}

fn new_entry(alloc: Global) -> Option<EntryInfo<u8>> {
    match key(alloc) {
        Some(key) => Some(EntryInfo::new(KeyHash::new(key, 7), moment(3), 1)),
        None => None,
    }
}

fn set(entry: &mut EntryInfo<u8>, nanos: Option<u64>) {
    match nanos {
        Some(nanos) => entry.set_expiration_time(Some(moment(nanos))),
        None => entry.set_expiration_time(None),
    }
}

fn take_away(entry: &mut EntryInfo<u8>, times: u32) {
    for _ in 0..times {
        entry.set_expiration_time(None);
    }
}

/// What the own expiration reads.
fn expiration(entry: &EntryInfo<u8>) -> Option<u64> {
    match entry.expiration_time() {
        Some(time) => Some(time.as_nanos()),
        None => None,
    }
}

/// Performs it, and returns whether the result was the expected one.
fn comes_so(entry: &mut EntryInfo<u8>, act: Act) -> bool {
    match act {
        Act::Set(nanos, wanted) => {
            set(entry, nanos);
            expiration(entry) == wanted
        }
        Act::TakeAway(times) => {
            take_away(entry, times);
            true
        }
        Act::Changes(wanted) => entry.expiration_state().1 == wanted,
    }
}

impl Stage<Act> for EntryInfo<u8> {
    fn new(alloc: Global) -> Option<Self> {
        new_entry(alloc)
    }

    fn plays(&mut self, act: &Act) -> bool {
        comes_so(self, *act)
    }
}

const TABLES: &[Table<'_, Act>] = &[Table {
    name: "own expirations",
    rows: &[
        Act::Set(Some(5000), Some(4096)),
        Act::Set(Some(4095), Some(0)),
        Act::Set(Some(18446744073709551614), Some(18446744073709543424)),
        Act::Set(None, None),
        Act::Changes(4),
        Act::TakeAway(4092),
        Act::Changes(0),
    ],
}];

#[test]
fn own_expirations_are_rounded_down(rt: HostRuntime) {
    assert_eq!(rt; first_wrong::<EntryInfo<u8>, Act>(rt.alloc(), TABLES), None);
}

fn names() -> [&'static str; 4] {
    [
        CacheRegion::from_number(0).name(),
        CacheRegion::from_number(1).name(),
        CacheRegion::from_number(2).name(),
        CacheRegion::from_number(3).name(),
    ]
}

#[test]
fn regions_have_names(rt: HostRuntime) {
    assert_eq!(rt;
        names(),
        ["window", "main probation", "main protected", "other"]
    );
}

/// What a configuration is made with: how long a run lasts at most, how often it repeats, and how
/// many it evicts at a time.
fn configuration() -> (Duration, u32, u32) {
    let config = HousekeeperConfig::default();
    (
        config.maintenance_task_timeout,
        config.max_log_sync_repeats,
        config.eviction_batch_size,
    )
}

#[test]
fn configurations(rt: HostRuntime) {
    assert_eq!(rt; configuration(), (Duration::from_millis(100), 4, 500));
}

#[test]
fn capacities_of_sketches(rt: HostRuntime) {
    assert_eq!(rt;
        [
            sketch_capacity(0),
            sketch_capacity(128),
            sketch_capacity(8589934592)
        ],
        [128, 128, 4294967295]
    );
}
