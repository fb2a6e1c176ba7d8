//! What is played with a plain cache of numbers, which all of these share: a play with a cache of a type of its own is dear to prove.
use crate::caches::{Moments, Play, Stage};
use crate::clock::{make_timed, makes_calls};
use crate::rows::Plain;
use crate::uses::{iteration, making, notices, times, upserts};
use moka_sync::{BuildError, Cache};
use std::alloc::Global;
use std::sync::Wait;

/// What is played.
#[derive(Clone, Copy)]
pub enum PlainPlay {
    /// The amounts of two of three accounts are summed.
    Summing,
    /// A square is made, half of an odd number is not, and half of an even one is.
    Making,
    /// One of three files is evicted, and none if one is closed.
    Telling,
    /// A log-in that is used stays, and one that is not ends.
    Ending,
    /// Two are counted, and can be taken.
    Counting,
    /// 128 writes and as many look-ups read the clock so often, where nothing expires.
    Untimed(u64),
    /// The same where values live for a time.
    Timed(u64),
}

impl<H: Wait + Copy> Play<H> for PlainPlay {
    type Cache = Plain;

    fn make(&self, _rt: &H, alloc: Global, moments: Moments) -> Result<Plain, BuildError> {
        match *self {
            PlainPlay::Telling => notices::make_files(alloc, moments),
            PlainPlay::Ending => times::make_logins(alloc, moments),
            PlainPlay::Timed(_) => make_timed(alloc, moments),
            PlainPlay::Untimed(_) => Cache::new(alloc, 1_000, moments),
            _ => Cache::new(alloc, 100, moments),
        }
    }

    fn plays(&self, rt: &H, stage: &Stage<Plain>) -> bool {
        match *self {
            PlainPlay::Summing => iteration::sums(rt, stage),
            PlainPlay::Making => making::makes(rt, stage),
            PlainPlay::Telling => notices::tells(rt, stage),
            PlainPlay::Ending => times::ends(rt, stage),
            PlainPlay::Counting => upserts::counts(rt, stage),
            PlainPlay::Untimed(readings) => makes_calls(rt, stage, readings),
            PlainPlay::Timed(readings) => makes_calls(rt, stage, readings),
        }
    }
}
