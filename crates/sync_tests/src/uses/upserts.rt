//! Values that are made of the one that is there.
use crate::caches::{Stage, passes};
use crate::plain::PlainPlay;
use crate::rows::{Plain, Row, plain_are_so};
use moka_sync::{CacheError, CompResult, Env, Op, PlainCache};
use std::sync::Wait;

// example: upsert
/// Counts by number.
type Counts<E> = PlainCache<u64, u64, E>;

/// Adds one to a count, and returns it. No increment is lost, whatever other threads do.
fn count<H: Wait + Copy, E: Env + Drop>(
    rt: &H,
    counts: &Counts<E>,
    number: u64,
) -> Result<u64, CacheError> {
    let entry = counts.entry(rt, number).and_upsert_with(|seen| match seen {
        Some(entry) => entry.into_value().saturating_add(1),
        None => 1,
    })?;
    Ok(entry.into_value())
}
// end

// example: compute
/// Subtracts one from a count, and removes it when it reaches zero. Returns whether there was one.
fn take<H: Wait + Copy, E: Env + Drop>(
    rt: &H,
    counts: &Counts<E>,
    number: u64,
) -> Result<bool, CacheError> {
    let done = counts
        .entry(rt, number)
        .and_compute_with(|seen| match seen {
            Some(entry) => match entry.into_value() {
                0 | 1 => Op::Remove,
                more => Op::Put(more - 1),
            },
            None => Op::Nop,
        })?;
    Ok(!matches!(done, CompResult::StillNone(_)))
}
// end

const ONE_LEFT: &[Row] = &[Row::Get(7, Some(1))];

const NONE_LEFT: &[Row] = &[Row::Get(7, None)];

/// Whether there was a count to take from, and what is left.
fn is_taken<H: Wait + Copy>(rt: &H, stage: &Stage<Plain>, was_there: bool, left: &[Row]) -> bool {
    take(rt, &stage.cache, 7) == Ok(was_there) && plain_are_so(rt, stage, left)
}

/// Whether two are counted, and can be taken.
pub fn counts<H: Wait + Copy>(rt: &H, stage: &Stage<Plain>) -> bool {
    count(rt, &stage.cache, 7) == Ok(1)
        && count(rt, &stage.cache, 7) == Ok(2)
        && is_taken(rt, stage, true, ONE_LEFT)
        && is_taken(rt, stage, true, NONE_LEFT)
        && is_taken(rt, stage, false, NONE_LEFT)
}

#[test]
fn counts_go_up_and_down(rt: HostRuntime) {
    assert!(rt; passes(&rt, rt.alloc(), &PlainPlay::Counting));
}
