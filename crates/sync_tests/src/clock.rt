//! Which calls read the clock.
use crate::caches::{Moments, Stage, passes};
use crate::plain::PlainPlay;
use crate::rows::{Plain, Row, plain_are_so};
use moka_sync::{Build, BuildError, CacheBuilder};
use std::alloc::Global;
use std::sync::Wait;
use std::time::Duration;

/// An empty cache whose values live for ten seconds.
pub fn make_timed(alloc: Global, moments: Moments) -> Result<Plain, BuildError> {
    CacheBuilder::new(1_000)
        .time_to_live(Duration::from_secs(10))
        .build(alloc, moments)
}

/// Makes 128 writes and as many look-ups. False if one is refused, or finds nothing.
fn writes_and_finds<H: Wait>(rt: &H, cache: &Plain) -> bool {
    for key in 0..128u64 {
        if cache.insert(rt, key, key).is_err() || cache.get(rt, &key) != Ok(Some(key)) {
            return false;
        }
    }
    true
}

const RUN: &[Row] = &[Row::Run];

/// Whether these calls read the clock so often, and a run once.
pub fn makes_calls<H: Wait>(rt: &H, stage: &Stage<Plain>, readings: u64) -> bool {
    let first = stage.dial.readings();
    let is_right = writes_and_finds(rt, &stage.cache);
    let then = stage.dial.readings();
    let is_run = plain_are_so(rt, stage, RUN);
    is_right
        && is_run
        && then == first.saturating_add(readings)
        && stage.dial.readings() == then.saturating_add(1)
}

/// Nothing expires, so each 64th of 256 calls reads the clock, and a run.
#[test]
fn few_calls_read_the_clock(rt: HostRuntime) {
    assert!(rt; passes(&rt, rt.alloc(), &PlainPlay::Untimed(4)));
}

/// Values expire, so each call reads it.
#[test]
fn each_call_reads_the_clock_where_values_expire(rt: HostRuntime) {
    assert!(rt; passes(&rt, rt.alloc(), &PlainPlay::Timed(256)));
}
