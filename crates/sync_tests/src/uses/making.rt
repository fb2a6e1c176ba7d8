//! Values that are made if there is none.
use crate::caches::{Stage, passes};
use crate::plain::PlainPlay;
use crate::rows::{Plain, Row, plain_are_so};
use moka_sync::{CacheError, Env, PlainCache};
use std::sync::Wait;

// example: get_with
/// Numbers that were computed from numbers.
type Numbers<E> = PlainCache<u64, u64, E>;

/// The square of a number, computed once for all threads that ask for it at the same time.
fn square<H: Wait, E: Env + Drop>(
    rt: &H,
    squares: &Numbers<E>,
    number: u64,
) -> Result<u64, CacheError> {
    squares.get_with(rt, number, || number.wrapping_mul(number))
}
// end

// example: optionally_get_with
/// Half of a number, if it is even. That it is odd is not stored.
fn half<H: Wait, E: Env + Drop>(
    rt: &H,
    halves: &Numbers<E>,
    number: u64,
) -> Result<Option<u64>, CacheError> {
    halves.optionally_get_with(rt, number, || (number % 2 == 0).then_some(number / 2))
}
// end

/// What is made is kept.
const KEPT: &[Row] = &[
    Row::Get(7, Some(49)),
    Row::Get(3, None),
    Row::Get(8, Some(4)),
];

/// Whether a square is made, half of an odd number is not, and half of an even one is.
pub fn makes<H: Wait>(rt: &H, stage: &Stage<Plain>) -> bool {
    square(rt, &stage.cache, 7) == Ok(49)
        && half(rt, &stage.cache, 3) == Ok(None)
        && half(rt, &stage.cache, 8) == Ok(Some(4))
        && plain_are_so(rt, stage, KEPT)
}

#[test]
fn numbers_are_made(rt: HostRuntime) {
    assert!(rt; passes(&rt, rt.alloc(), &PlainPlay::Making));
}
