//! Removals are reported as notices.
use crate::caches::{Stage, passes};
use crate::plain::PlainPlay;
use crate::rows::{Plain, Row, plain_are_so};
use moka_sync::{Build, BuildError, CacheBuilder, Env, PlainCache};
use std::alloc::Global;
use std::sync::Wait;

// example: notices
/// Open files by their number.
type Files<E> = PlainCache<u64, u64, E>;

/// An empty cache of two files, which reports removals.
pub fn make_files<E: Env + Drop>(alloc: Global, env: E) -> Result<Files<E>, BuildError> {
    CacheBuilder::new(2).report_removals().build(alloc, env)
}

/// Takes all notices, and counts the files that were evicted.
fn count_evicted<H: Wait, E: Env + Drop>(rt: &H, files: &Files<E>) -> u64 {
    let mut count: u64 = 0;
    for _ in rt.forever() {
        match files.next_notice(rt) {
            Some(notice) if notice.cause.was_evicted() => count = count.saturating_add(1),
            Some(_) => {}
            None => return count,
        }
    }
    unreachable!()
}
// end

/// Three files are opened.
const OPENED: &[Row] = &[
    Row::Insert(1, 10),
    Row::Insert(2, 20),
    Row::Run,
    Row::Insert(3, 30),
    Row::Run,
];

/// One is closed.
const CLOSED: &[Row] = &[Row::Invalidate(1)];

/// Whether one of three files is evicted, and none if one is closed.
pub fn tells<H: Wait>(rt: &H, stage: &Stage<Plain>) -> bool {
    plain_are_so(rt, stage, OPENED)
        && count_evicted(rt, &stage.cache) == 1
        && plain_are_so(rt, stage, CLOSED)
        && count_evicted(rt, &stage.cache) == 0
}

#[test]
fn what_leaves_is_told(rt: HostRuntime) {
    assert!(rt; passes(&rt, rt.alloc(), &PlainPlay::Telling));
}
