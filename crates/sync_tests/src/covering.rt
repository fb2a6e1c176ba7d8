//! A predicate that one segment of a shared cache refuses.
mod numbers;

use crate::caches::{Moments, Play, Stage, make_dial, passes};
use crate::covering::numbers::{HasValue, Itself, Turning};
use crate::rows::{Row, are_so};
use moka_sync::{
    Build, BuildError, Bundle, CacheBuilder, CacheError, Dial, DialEnv, NoExpiry, SegmentedCache,
    WeighOne,
};
use std::alloc::Global;
use std::sync::{Arc, Wait};

/// A cache of numbers under numbers, each its own hash.
type Halves = SegmentedCache<
    u64,
    u64,
    Itself,
    Bundle<NoExpiry, WeighOne, HasValue, ()>,
    DialEnv<Turning>,
>;

/// A key, and the one that differs from it in its highest bit alone, and so belongs to the other of two segments.
const KEYS: [u64; 2] = [1, 9_223_372_036_854_775_809];

/// The value of both.
const VALUE: u64 = 7;

/// An empty cache in two segments, which draws an identifier from words of 0 first, and then others from words of ones.
fn make_halves(alloc: Global, dial: Arc<Dial>) -> Result<Halves, BuildError> {
    CacheBuilder::new(100)
        .segments(2)
        .support_invalidation_closures::<HasValue>()
        .build_with_hasher(alloc, Itself, DialEnv::new(dial, Turning(4)))
}

const KEPT: &[Row] = &[Row::Insert(KEYS[0], VALUE), Row::Insert(KEYS[1], VALUE)];

const SHOWN: &[Row] = &[
    Row::Get(KEYS[0], Some(VALUE)),
    Row::Get(KEYS[1], Some(VALUE)),
    Row::NoneTold,
];

/// Whether the first predicate is taken, and the next one, which covers the value, is not.
fn are_drawn<H: Wait>(rt: &H, cache: &Halves) -> bool {
    cover(rt, cache, 9) == Ok(()) && cover(rt, cache, VALUE) == Err(CacheError::IdsInUse)
}

/// What comes of a predicate.
fn cover_once<H: Wait>(rt: &H, cache: &Halves, value: u64) -> Result<(), CacheError> {
    cache.invalidate_entries_if(rt, HasValue(value))
}

/// The same, at the second try where memory is refused.
fn cover<H: Wait>(rt: &H, cache: &Halves, value: u64) -> Result<(), CacheError> {
    match cover_once(rt, cache, value) {
        Err(CacheError::OutOfMemory) => cover_once(rt, cache, value),
        covered => covered,
    }
}

/// Whether rows come out so.
fn play_halves<H: Wait>(rt: &H, stage: &Stage<Halves>, rows: &[Row]) -> bool {
    are_so(rt, stage, rows)
}

/// The segments draw different identifiers for the first predicate; the second segment can draw none but its own for the next one, which is
/// then in neither.
struct Drawing;

impl<H: Wait> Play<H> for Drawing {
    type Cache = Halves;

    fn make(&self, _rt: &H, alloc: Global, _moments: Moments) -> Result<Halves, BuildError> {
        match make_dial(alloc) {
            Some(dial) => make_halves(alloc, dial),
            None => Err(BuildError::OutOfMemory),
        }
    }

    fn plays(&self, rt: &H, stage: &Stage<Halves>) -> bool {
        play_halves(rt, stage, KEPT) && are_drawn(rt, &stage.cache) && play_halves(rt, stage, SHOWN)
    }
}

#[test]
fn a_predicate_is_in_all_segments_or_in_none(rt: HostRuntime) {
    assert!(rt; passes(&rt, rt.alloc(), &Drawing));
}
