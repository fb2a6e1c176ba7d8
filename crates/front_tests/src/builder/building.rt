//! What builders make, and what they refuse.
use crate::playing::none_wrong;
use moka::{BuildError, CacheBuilder, LentState, PlainRules, Policy, SegmentedState, StdHasher};
use policy_base::Instant;
use std::alloc::Global;
use std::time::Duration;

/// What a new cache shows: its settings, when it was made, and whether it has no name, no entries, and no call behind it.
#[derive(Clone, Copy, PartialEq, Eq)]
pub struct Shown {
    pub policy: Policy,
    pub made: Instant,
    pub is_bare: bool,
}

/// What a cache of one or several segments shows.
fn shown_of<C: Drop>(cache: &LentState<u64, u64, StdHasher, PlainRules, C>) -> Shown {
    let last = cache.last_call();
    Shown {
        policy: cache.policy(),
        made: last.now,
        is_bare: cache.name().is_none() && cache.entry_count() == 0 && last.step == 0,
    }
}

/// The same, or why it is not made.
pub fn look_at<C: Drop>(
    made: Result<LentState<u64, u64, StdHasher, PlainRules, C>, BuildError>,
) -> Result<Shown, BuildError> {
    match made {
        Ok(cache) => Ok(shown_of(&cache)),
        Err(refused) => Err(refused),
    }
}

/// A thousand years of 365 days, in seconds.
const LONGEST: u64 = 31_536_000_000;

/// A builder's settings: time to live and to idle in seconds, segments; and what comes of them: how
/// many segments, or why not.
#[derive(Clone, Copy)]
struct Row {
    live: u64,
    idle: u64,
    segments: usize,
    built: Result<usize, BuildError>,
}

const ROWS: [Row; 9] = [
    Row {
        live: 2700,
        idle: 900,
        segments: 1,
        built: Ok(1),
    },
    Row {
        live: LONGEST,
        idle: LONGEST,
        segments: 3,
        built: Ok(4),
    },
    Row {
        live: 1,
        idle: 1,
        segments: 4,
        built: Ok(4),
    },
    Row {
        live: 1,
        idle: 1,
        segments: 5,
        built: Ok(8),
    },
    Row {
        live: LONGEST + 1,
        idle: LONGEST + 1,
        segments: 0,
        built: Err(BuildError::TimeToLiveTooLong),
    },
    Row {
        live: 1,
        idle: LONGEST + 1,
        segments: 0,
        built: Err(BuildError::TimeToIdleTooLong),
    },
    Row {
        live: 1,
        idle: 1,
        segments: 0,
        built: Err(BuildError::NoSegments),
    },
    Row {
        live: 1,
        idle: 1,
        segments: 65_537,
        built: Err(BuildError::TooManySegments),
    },
    Row {
        live: 1,
        idle: 1,
        segments: 2,
        built: Ok(2),
    },
];

/// A cache with these times and segments.
fn build(
    alloc: Global,
    live: u64,
    idle: u64,
    segments: usize,
) -> Result<SegmentedState<u64, u64>, BuildError> {
    CacheBuilder::new(100)
        .time_to_live(Duration::from_secs(live))
        .time_to_idle(Duration::from_secs(idle))
        .segments(segments)
        .build_state(alloc, StdHasher::new(), Instant::from_nanos(5))
}

/// How many segments a cache of these settings shows, or why it is not built.
fn built(alloc: Global, row: &Row) -> Result<usize, BuildError> {
    match look_at(build(alloc, row.live, row.idle, row.segments)) {
        Ok(shown) => Ok(shown.policy.num_segments()),
        Err(refused) => Err(refused),
    }
}

/// Whether that is what the row says, on the second attempt if memory is refused.
fn is_right(alloc: Global, row: &Row) -> bool {
    built(alloc, row) == row.built || built(alloc, row) == row.built
}

/// The place of the first row that is not.
fn first_wrong_row(alloc: Global) -> Option<usize> {
    for (place, row) in ROWS.iter().enumerate() {
        if !is_right(alloc, row) {
            return Some(place);
        }
    }
    None
}

#[test]
fn rows_of_builders(rt: HostRuntime) {
    none_wrong(&rt, first_wrong_row(rt.alloc()));
}

/// Whether a cache shows the settings of its builder.
fn is_shown(alloc: Global) -> bool {
    let (live, idle) = (Duration::from_secs(2700), Duration::from_secs(900));
    look_at(build(alloc, 2700, 900, 1))
        == Ok(Shown {
            policy: Policy::new(Some(100), 1, Some(live), Some(idle)),
            made: Instant::from_nanos(5),
            is_bare: true,
        })
}

#[test]
fn a_cache_shows_its_settings(rt: HostRuntime) {
    assert!(rt; is_shown(rt.alloc()) || is_shown(rt.alloc()));
}
