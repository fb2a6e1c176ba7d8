//! Values that live for a time.
use crate::caches::{Stage, passes};
use crate::plain::PlainPlay;
use crate::rows::{Plain, Row, plain_are_so};
use moka_sync::{Build, BuildError, CacheBuilder, Env, PlainCache};
use std::alloc::Global;
use std::sync::Wait;
use std::time::Duration;

// example: times
/// The users of log-ins, by token.
type Logins<E> = PlainCache<u64, u64, E>;

/// An empty cache of log-ins, which expire twenty minutes after they were inserted, or four minutes after their last use.
pub fn make_logins<E: Env + Drop>(alloc: Global, env: E) -> Result<Logins<E>, BuildError> {
    CacheBuilder::new(5_000)
        .time_to_live(Duration::from_secs(20 * 60))
        .time_to_idle(Duration::from_secs(4 * 60))
        .build(alloc, env)
}
// end

/// The nanoseconds of a minute.
const MINUTE: u64 = 60_000_000_000;

/// A log-in that is used stays, and one that is not ends.
const USED_THEN_IDLE: &[Row] = &[
    Row::Insert(1, 5),
    Row::At(3 * MINUTE),
    Row::Get(1, Some(5)),
    Row::At(6 * MINUTE),
    Row::Get(1, Some(5)),
    Row::At(12 * MINUTE),
    Row::Get(1, None),
];

/// Whether it does.
pub fn ends<H: Wait>(rt: &H, stage: &Stage<Plain>) -> bool {
    plain_are_so(rt, stage, USED_THEN_IDLE)
}

#[test]
fn an_idle_login_ends(rt: HostRuntime) {
    assert!(rt; passes(&rt, rt.alloc(), &PlainPlay::Ending));
}
