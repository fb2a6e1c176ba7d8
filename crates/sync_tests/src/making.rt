//! Calls that make a value, and what their closures do.
use crate::caches::{Sign, Stage, is_awaited, wait_for};
use crate::forms::Staged;
use crate::numbers::Numbers;
use crate::rows::{gets, inserts, runs};
use moka_sync::CacheError;
use std::sync::atomic::Ordering;
use std::sync::{Arc, Wait};

/// What a closure makes of a key.
#[derive(Clone, Copy)]
pub enum Making {
    /// This value, or none, once another caller waits for the turn; else 99.
    Led(Option<u64>),
    /// This value, at once.
    Value(u64),
    /// 70 if it runs first, once the dial was read this often; else 99.
    Gated(u64),
    /// The key.
    Itself,
    /// The key, once there were calls on all parts, and one on another key.
    AllCalled,
}

/// Whether a look-up sees nothing while a turn is led, and another caller waits for the turn then.
fn is_joined<H: Wait, T: Staged>(rt: &H, stage: &Stage<T>, key: u64) -> bool {
    let is_written = gets(rt, &stage.cache, key, None) && inserts(rt, &stage.cache, key, 1);
    is_awaited(rt, stage, key) && is_written
}

/// 70 for the closure that runs first, or 99 if the dial is not read this often.
fn made_at_gate<H: Wait, T: Staged>(rt: &H, stage: &Stage<T>, readings: u64) -> u64 {
    let number = stage.runs.fetch_add(1, Ordering::SeqCst);
    if wait_for(rt, stage, Sign::Read(readings)) {
        number.wrapping_add(70)
    } else {
        99
    }
}

/// Whether calls on all parts are taken, after which another key has no value.
fn are_called<H: Wait, T: Staged>(rt: &H, cache: &T, key: u64) -> bool {
    cache.cover_odd(rt).is_ok()
        && cache.clear(rt).is_ok()
        && !cache.has(rt, key.wrapping_add(1))
        && runs(rt, cache)
}

/// The key, once there were calls on all parts, and one on another key.
pub fn calls_all<H: Wait, T: Staged>(rt: &H, cache: &T, key: u64) -> u64 {
    if are_called(rt, cache, key) {
        key
    } else {
        u64::MAX
    }
}

/// This value, by a closure that is counted.
fn counted<T>(stage: &Stage<T>, value: u64) -> u64 {
    stage.runs.fetch_add(1, Ordering::SeqCst);
    value
}

/// Runs a closure.
fn made_by<H: Wait, T: Staged>(rt: &H, stage: &Stage<T>, key: u64, making: Making) -> Option<u64> {
    match making {
        Making::Led(made) if is_joined(rt, stage, key) => made,
        Making::Led(_) => Some(99),
        Making::Value(value) => Some(counted(stage, value)),
        Making::Gated(readings) => Some(made_at_gate(rt, stage, readings)),
        Making::Itself => Some(counted(stage, key)),
        Making::AllCalled => Some(calls_all(rt, &stage.cache, key)),
    }
}

/// The same of one that fails with 7 where it makes none.
fn made_or_fault<H: Wait, T: Staged>(
    rt: &H,
    stage: &Stage<T>,
    key: u64,
    making: Making,
) -> Result<u64, u64> {
    match made_by(rt, stage, key, making) {
        Some(value) => Ok(value),
        None => Err(7),
    }
}

/// `get_with`; 0 is made for none.
pub fn make<H: Wait, T: Staged>(
    rt: &H,
    stage: &Stage<T>,
    key: u64,
    making: Making,
) -> Result<u64, CacheError> {
    stage
        .cache
        .make(rt, key, || made_by(rt, stage, key, making).unwrap_or(0))
}

/// `optionally_get_with`.
pub fn make_or_none<H: Wait, T: Staged>(
    rt: &H,
    stage: &Stage<T>,
    key: u64,
    making: Making,
) -> Result<Option<u64>, CacheError> {
    stage
        .cache
        .make_or_none(rt, key, || made_by(rt, stage, key, making))
}

/// `try_get_with`.
pub fn try_make<H: Wait, T: Staged>(
    rt: &H,
    stage: &Stage<T>,
    key: u64,
    making: Making,
) -> Result<Result<u64, Arc<u64>>, CacheError> {
    stage
        .cache
        .try_make(rt, key, || made_or_fault(rt, stage, key, making))
}

/// Which value of a key is replaced. That it is asked about is counted.
#[derive(Clone, Copy)]
pub enum Replaced {
    /// This one.
    Value(u64),
    /// This one, if the cache shows the value that is asked about.
    Shown(u64),
    /// This one, once another thread has written the other in its place.
    Late(u64, u64),
}

/// Whether a value is replaced.
fn is_replaced<H: Wait, T: Numbers>(
    rt: &H,
    stage: &Stage<T>,
    key: u64,
    seen: u64,
    replaced: Replaced,
) -> bool {
    stage.runs.fetch_add(1, Ordering::SeqCst);
    match replaced {
        Replaced::Value(value) => seen == value,
        Replaced::Shown(value) => gets(rt, &stage.cache, key, Some(seen)) && seen == value,
        Replaced::Late(value, other) => {
            seen == value && wait_for(rt, stage, Sign::Has(key, other))
        }
    }
}

/// `get_with_if`: the value of a key, once this one is made if there is none or one that is replaced.
pub fn make_if<H: Wait, T: Numbers>(
    rt: &H,
    stage: &Stage<T>,
    key: u64,
    made: u64,
    replaced: Replaced,
) -> Result<u64, CacheError> {
    stage.cache.make_if(
        rt,
        key,
        || made,
        |seen: &u64| is_replaced(rt, stage, key, *seen, replaced),
    )
}
