//! Calls of one thread on any cache of numbers, and what each is to answer. A call that is refused for lack of memory has changed
//! nothing, and is made once more.
use crate::caches::{Moments, Stage};
use crate::making::{Replaced, make_if};
use crate::numbers::Numbers;
use moka_sync::{CacheError, PlainCache, RemovalCause};
use std::sync::Wait;
use std::sync::atomic::Ordering;

/// A cache of numbers by plain rules.
pub type Plain = PlainCache<u64, u64, Moments>;

/// What is done, and what is to come of it.
#[derive(Clone, Copy)]
pub enum Row {
    /// From here on it is that moment, in nanoseconds.
    At(u64),
    Insert(u64, u64),
    Remove(u64, Option<u64>),
    Invalidate(u64),
    Clear,
    Run,
    /// A run by its older name.
    Sync,
    /// `get_with_if` of a key: what is made, which value is replaced, and what is returned.
    MakeIf(u64, u64, Replaced, u64),
    /// That is done with each of this many keys, from 0 on.
    Each(Deed, u64),
    Get(u64, Option<u64>),
    Has(u64, bool),
    Count(u64),
    Weight(u64),
    /// The oldest notice is of this key and cause.
    Is(u64, RemovalCause),
    /// The two oldest notices are of these keys, in any order, and of this cause.
    Are(u64, u64, RemovalCause),
    /// This many notices of this cause are told, and then no more.
    Told(u64, RemovalCause),
    /// No notice is left.
    NoneTold,
    /// This many closures ran.
    Ran(u64),
}

/// Whether a value is written.
pub fn inserts<H: Wait, T: Numbers>(rt: &H, cache: &T, key: u64, value: u64) -> bool {
    cache.put(rt, key, value).is_ok() || cache.put(rt, key, value).is_ok()
}

/// The value of a key.
fn find<H: Wait, T: Numbers>(rt: &H, cache: &T, key: u64) -> Result<Option<u64>, CacheError> {
    match cache.find(rt, key) {
        Ok(found) => Ok(found),
        Err(_) => cache.find(rt, key),
    }
}

/// Whether a key has this value, or none.
pub fn gets<H: Wait, T: Numbers>(rt: &H, cache: &T, key: u64, value: Option<u64>) -> bool {
    find(rt, cache, key) == Ok(value)
}

/// The value that a key had.
fn take_out<H: Wait, T: Numbers>(rt: &H, cache: &T, key: u64) -> Result<Option<u64>, CacheError> {
    match cache.take_out(rt, key) {
        Ok(found) => Ok(found),
        Err(_) => cache.take_out(rt, key),
    }
}

/// Whether a key had this value, or none, and has none now.
pub fn removes<H: Wait, T: Numbers>(rt: &H, cache: &T, key: u64, value: Option<u64>) -> bool {
    take_out(rt, cache, key) == Ok(value)
}

/// Whether a key is taken back.
pub fn invalidates<H: Wait, T: Numbers>(rt: &H, cache: &T, key: u64) -> bool {
    cache.take_back(rt, key).is_ok() || cache.take_back(rt, key).is_ok()
}

/// Whether maintenance runs.
pub fn runs<H: Wait, T: Numbers>(rt: &H, cache: &T) -> bool {
    cache.run(rt).is_ok()
}

/// The key of the oldest notice, if that is of this cause.
fn told<H: Wait, T: Numbers>(rt: &H, cache: &T, cause: RemovalCause) -> Option<u64> {
    match cache.tell(rt) {
        Some(notice) if notice.cause == cause => Some(*notice.key),
        _ => None,
    }
}

/// Whether these are the keys of the two oldest notices, and both are of this cause.
fn are_told<H: Wait, T: Numbers>(rt: &H, cache: &T, keys: (u64, u64), cause: RemovalCause) -> bool {
    match (told(rt, cache, cause), told(rt, cache, cause)) {
        (Some(first), Some(second)) => (first, second) == keys || (second, first) == keys,
        _ => false,
    }
}

/// Whether this many notices of a cause are told, and then no more.
fn tells_all<H: Wait, T: Numbers>(rt: &H, cache: &T, count: u64, cause: RemovalCause) -> bool {
    for _ in 0..count {
        if told(rt, cache, cause).is_none() {
            return false;
        }
    }
    cache.tell(rt).is_none()
}

/// Whether the notices are the expected ones.
fn tells_so<H: Wait, T: Numbers>(rt: &H, cache: &T, row: Row) -> bool {
    match row {
        Row::Is(key, cause) => told(rt, cache, cause) == Some(key),
        Row::Are(first, second, cause) => are_told(rt, cache, (first, second), cause),
        Row::Told(count, cause) => tells_all(rt, cache, count, cause),
        Row::NoneTold => cache.tell(rt).is_none(),
        _ => false,
    }
}

/// Whether the cache shows what is expected.
fn shows_so<H: Wait, T: Numbers>(rt: &H, cache: &T, row: Row) -> bool {
    match row {
        Row::Get(key, value) => gets(rt, cache, key, value),
        Row::Has(key, is_there) => cache.has(rt, key) == is_there,
        Row::Count(count) => cache.count(rt) == count,
        Row::Weight(weight) => cache.weight(rt) == weight,
        row => tells_so(rt, cache, row),
    }
}

/// Whether a call that changes the cache returns the expected result, or the cache shows it.
fn comes_so<H: Wait, T: Numbers>(rt: &H, cache: &T, row: Row) -> bool {
    match row {
        Row::Insert(key, value) => inserts(rt, cache, key, value),
        Row::Remove(key, value) => removes(rt, cache, key, value),
        Row::Invalidate(key) => invalidates(rt, cache, key),
        Row::Clear => cache.clear(rt).is_ok(),
        Row::Run => runs(rt, cache),
        Row::Sync => cache.run_as_sync(rt).is_ok(),
        Row::Each(deed, keys) => does_all(rt, cache, deed, keys),
        row => shows_so(rt, cache, row),
    }
}

/// The same; it may be another moment from here on.
fn is_so<H: Wait, T: Numbers>(rt: &H, stage: &Stage<T>, row: Row) -> bool {
    match row {
        Row::At(nanos) => {
            stage.dial.set(nanos);
            true
        }
        Row::MakeIf(key, made, old, value) => make_if(rt, stage, key, made, old) == Ok(value),
        Row::Ran(count) => stage.runs.load(Ordering::SeqCst) == count,
        row => comes_so(rt, &stage.cache, row),
    }
}

/// Whether all rows come out so.
pub fn are_so<H: Wait, T: Numbers>(rt: &H, stage: &Stage<T>, rows: &[Row]) -> bool {
    for row in rows {
        if !is_so(rt, stage, *row) {
            return false;
        }
    }
    true
}

/// The same of a cache by plain rules. (Each function that has a cache of a type of its own play rows is dear to prove: this one is for
/// all that use this type.)
pub fn plain_are_so<H: Wait>(rt: &H, stage: &Stage<Plain>, rows: &[Row]) -> bool {
    are_so(rt, stage, rows)
}

/// What is done with a key.
#[derive(Clone, Copy)]
pub enum Deed {
    /// It is inserted with its double.
    Insert,
    /// The same, with a run behind it.
    InsertAndRun,
    /// It is inserted with itself.
    InsertItself,
    Invalidate,
}

/// Whether that is done.
fn does<H: Wait, T: Numbers>(rt: &H, cache: &T, deed: Deed, key: u64) -> bool {
    match deed {
        Deed::Insert => inserts(rt, cache, key, key.wrapping_mul(2)),
        Deed::InsertAndRun => inserts(rt, cache, key, key.wrapping_mul(2)) && runs(rt, cache),
        Deed::InsertItself => inserts(rt, cache, key, key),
        Deed::Invalidate => invalidates(rt, cache, key),
    }
}

/// Whether it is done with each of this many keys.
pub fn does_all<H: Wait, T: Numbers>(rt: &H, cache: &T, deed: Deed, keys: u64) -> bool {
    for key in 0..keys {
        if !does(rt, cache, deed, key) {
            return false;
        }
    }
    true
}
