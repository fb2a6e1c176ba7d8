//! Caches that are made by few words.
use crate::builder::building::{Shown, look_at};
use crate::playing::none_wrong;
use moka::{
    BuildError, CacheState, NewSegmentedState, NewState, Policy, SegmentedState, StdHasher,
};
use policy_base::Instant;
use std::alloc::Global;
use std::time::Duration;

/// A cache of one segment.
type Numbers = CacheState<u64, u64>;

/// A cache of several.
type Segments = SegmentedState<u64, u64>;

/// What a cache is made with, and what it shows: how many segments it has, or why it is not made.
type Row = (u64, usize, Result<usize, BuildError>);

const ROWS: [Row; 7] = [
    (10, 3, Ok(4)),
    (100, 15, Ok(16)),
    (100, 1, Ok(1)),
    (0, 1, Ok(1)),
    (5, 0, Err(BuildError::NoSegments)),
    (5, 65_537, Err(BuildError::TooManySegments)),
    (7, 2, Ok(2)),
];

/// When the caches are made.
fn made_at() -> Instant {
    Instant::from_nanos(3)
}

/// What a new cache shows that was made then.
fn new_with(capacity: Option<u64>, segments: usize, live: Option<Duration>) -> Shown {
    Shown {
        policy: Policy::new(capacity, segments, live, None),
        made: made_at(),
        is_bare: true,
    }
}

/// What has to come of a row.
fn wanted(row: &Row) -> Result<Shown, BuildError> {
    match row.2 {
        Ok(segments) => Ok(new_with(Some(row.0), segments, None)),
        Err(refused) => Err(refused),
    }
}

/// Whether that comes of it.
fn comes_so(alloc: Global, row: &Row) -> bool {
    look_at(Segments::new(alloc, row.0, row.1, made_at())) == wanted(row)
}

/// The place of the first row of which it does not, at the second try where memory is refused.
fn first_wrong_row(alloc: Global) -> Option<usize> {
    for (place, row) in ROWS.iter().enumerate() {
        if !comes_so(alloc, row) && !comes_so(alloc, row) {
            return Some(place);
        }
    }
    None
}

#[test]
fn rows_of_segments(rt: HostRuntime) {
    none_wrong(&rt, first_wrong_row(rt.alloc()));
}

/// A cache of one segment shows its capacity, and no times.
fn is_one(alloc: Global) -> bool {
    look_at(Numbers::new(alloc, 100, made_at())) == Ok(new_with(Some(100), 1, None))
}

#[test]
fn one_segment_is_made(rt: HostRuntime) {
    assert!(rt; is_one(rt.alloc()) || is_one(rt.alloc()));
}

/// A builder of one segment, by its name.
fn one_built(alloc: Global) -> Result<Numbers, BuildError> {
    Numbers::builder()
        .time_to_live(Duration::from_secs(60))
        .build_state(alloc, StdHasher::new(), made_at())
}

/// A cache of one segment without a capacity shows the time that was set.
fn is_one_built(alloc: Global) -> bool {
    look_at(one_built(alloc)) == Ok(new_with(None, 1, Some(Duration::from_secs(60))))
}

/// A builder of three segments, by its name.
fn three_built(alloc: Global) -> Result<Segments, BuildError> {
    Segments::builder(3)
        .initial_capacity(10)
        .build_state(alloc, StdHasher::new(), made_at())
}

/// Three segments become four.
fn are_four_built(alloc: Global) -> bool {
    look_at(three_built(alloc)) == Ok(new_with(None, 4, None))
}

#[test]
fn builders_go_by_name(rt: HostRuntime) {
    assert!(rt;
        (is_one_built(rt.alloc()) || is_one_built(rt.alloc()))
            && (are_four_built(rt.alloc()) || are_four_built(rt.alloc()))
    );
}
