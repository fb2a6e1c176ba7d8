//! Selectors, by those of a handle that others share.
use crate::forms::{FIVE_HUNDRED, Tested};
use crate::rows::Row;
use crate::scenes::{Scene, Step, holds};
use moka_sync::{CacheError, CompResult, Entry, Op};
use std::sync::{Arc, Wait};
use std::thread;

/// A call of a selector. First comes its key.
#[derive(Clone, Copy)]
pub enum Choice {
    /// `or_insert` of this value.
    Insert(u64, u64),
    /// The same by a key that is lent.
    Lent(u64, u64),
    /// `or_insert_with`: 7 is made.
    With(u64),
    /// `or_insert_with_if`: 7 in place of 3.
    SevenForThree(u64),
    /// `or_default`.
    Default(u64),
    /// `or_optionally_insert_with`, of a closure that makes nothing.
    Nothing(u64),
    /// `or_try_insert_with`, of a closure that fails with 5.
    Fault(u64),
    /// `and_upsert_with`: the value is counted up.
    CountUp(u64),
    /// `and_compute_with`: the value is removed.
    Remove(u64),
    /// `and_compute_with`: nothing is done.
    Leave(u64),
    /// `and_compute_with`: the value is counted up, and others have their chance to come between.
    CountSlowly(u64),
    /// `and_try_compute_with`, of a closure that fails with 9.
    Fail(u64),
}

/// What a call returns.
#[derive(Clone, Copy, PartialEq, Eq)]
pub enum Shown {
    /// A value that was there.
    Seen(u64),
    /// One that was made or put.
    Fresh(u64),
    /// One that was put in place of another.
    Replaced(u64),
    /// No value.
    Nothing,
    /// The number with which a closure failed.
    Fault(u64),
    /// One was put by a compute call.
    Put,
    Removed,
    StillNone,
    Unchanged,
    /// Anything else.
    Other,
}

/// A call, and what it is to return.
#[derive(Clone, Copy)]
pub struct Choosing(pub Choice, pub Shown);

/// How an entry is shown.
fn shown_entry(entry: Entry<u64, u64>) -> Shown {
    let value = *entry.value();
    if entry.is_old_value_replaced() {
        Shown::Replaced(value)
    } else if entry.is_fresh() {
        Shown::Fresh(value)
    } else {
        Shown::Seen(value)
    }
}

/// The same of a call's entry.
pub fn show(answer: Result<Entry<u64, u64>, CacheError>) -> Shown {
    match answer {
        Ok(entry) => shown_entry(entry),
        Err(_) => Shown::Other,
    }
}

/// The same of a call that may make none.
fn shown_option(answer: Result<Option<Entry<u64, u64>>, CacheError>) -> Shown {
    match answer {
        Ok(Some(entry)) => shown_entry(entry),
        Ok(None) => Shown::Nothing,
        Err(_) => Shown::Other,
    }
}

/// The same of a call that may fail.
fn shown_result(answer: Result<Result<Entry<u64, u64>, Arc<u64>>, CacheError>) -> Shown {
    match answer {
        Ok(Ok(entry)) => shown_entry(entry),
        Ok(Err(fault)) => Shown::Fault(*fault),
        Err(_) => Shown::Other,
    }
}

/// The same of a compute call.
pub fn shown_done(answer: Result<CompResult<u64, u64>, CacheError>) -> Shown {
    match &answer {
        Ok(CompResult::Inserted(_) | CompResult::ReplacedWith(_)) => Shown::Put,
        Ok(CompResult::Removed(_)) => Shown::Removed,
        Ok(CompResult::StillNone(_)) => Shown::StillNone,
        Ok(CompResult::Unchanged(_)) => Shown::Unchanged,
        _ => Shown::Other,
    }
}

/// The same of one that may fail.
fn shown_tried(answer: Result<Result<CompResult<u64, u64>, u64>, CacheError>) -> Shown {
    match &answer {
        Ok(Err(fault)) => Shown::Fault(*fault),
        _ => Shown::Other,
    }
}

/// One more than the value that was seen.
pub fn count_up(seen: Option<Entry<u64, u64>>) -> u64 {
    match seen {
        Some(entry) => entry.into_value().saturating_add(1),
        None => 1,
    }
}

pub fn removal(_seen: Option<Entry<u64, u64>>) -> Op<u64> {
    Op::Remove
}

pub fn rest(_seen: Option<Entry<u64, u64>>) -> Op<u64> {
    Op::Nop
}

pub fn seven() -> u64 {
    7
}

fn nothing() -> Option<u64> {
    None
}

fn fault() -> Result<u64, u64> {
    Err(5)
}

fn failure(_seen: Option<Entry<u64, u64>>) -> Result<Op<u64>, u64> {
    Err(9)
}

/// Whether a value is to be replaced.
pub fn is_three(value: &u64) -> bool {
    *value == 3
}

/// One more than the number of a key, or 1; after others had their chance to come between.
pub fn count_slowly(seen: Option<Entry<u64, u64>>) -> Op<u64> {
    for _ in 0..100u32 {
        thread::yield_now();
    }
    Op::Put(count_up(seen))
}

/// A handle that chooses entries.
pub trait Chooser {
    /// What a call returns.
    fn choose(&mut self, choice: Choice) -> Shown;
}

/// Whether all rows come out so.
pub fn chooses<X: Chooser + Drop>(chooser: X, rows: &[Choosing]) -> bool {
    let mut chooser = chooser;
    for row in rows {
        if chooser.choose(row.0) != row.1 {
            return false;
        }
    }
    true
}

/// A handle that others share.
#[derive(Drop)]
pub struct Sharing<'a, H, C> {
    pub rt: &'a H,
    pub cache: &'a Tested<C>,
}

fn choose_lent<H: Wait + Copy, C: Drop>(rt: &H, cache: &Tested<C>, key: u64, value: u64) -> Shown {
    match cache.entry_by_ref(rt, &key) {
        Ok(selector) => show(selector.or_insert(value)),
        Err(_) => Shown::Other,
    }
}

/// What a call that computes returns.
fn compute<H: Wait + Copy, C: Drop>(rt: &H, cache: &Tested<C>, choice: Choice) -> Shown {
    match choice {
        Choice::CountUp(key) => show(cache.entry(rt, key).and_upsert_with(count_up)),
        Choice::Remove(key) => shown_done(cache.entry(rt, key).and_compute_with(removal)),
        Choice::Leave(key) => shown_done(cache.entry(rt, key).and_compute_with(rest)),
        Choice::CountSlowly(key) => shown_done(cache.entry(rt, key).and_compute_with(count_slowly)),
        Choice::Fail(key) => shown_tried(cache.entry(rt, key).and_try_compute_with(failure)),
        _ => Shown::Other,
    }
}

/// What a call whose closure may make none returns.
fn choose_or_none<H: Wait + Copy, C: Drop>(rt: &H, cache: &Tested<C>, choice: Choice) -> Shown {
    match choice {
        Choice::Nothing(key) => {
            shown_option(cache.entry(rt, key).or_optionally_insert_with(nothing))
        }
        Choice::Fault(key) => shown_result(cache.entry(rt, key).or_try_insert_with(fault)),
        choice => compute(rt, cache, choice),
    }
}

impl<'a, H: Wait + Copy, C: Drop> Chooser for Sharing<'a, H, C> {
    fn choose(&mut self, choice: Choice) -> Shown {
        match choice {
            Choice::Insert(key, value) => show(self.cache.entry(self.rt, key).or_insert(value)),
            Choice::Lent(key, value) => choose_lent(self.rt, self.cache, key, value),
            Choice::With(key) => show(self.cache.entry(self.rt, key).or_insert_with(seven)),
            Choice::SevenForThree(key) => {
                show(
                    self.cache
                        .entry(self.rt, key)
                        .or_insert_with_if(seven, is_three),
                )
            }
            Choice::Default(key) => show(self.cache.entry(self.rt, key).or_default()),
            choice => choose_or_none(self.rt, self.cache, choice),
        }
    }
}

const SHARED: &[Choosing] = &[
    Choosing(Choice::Insert(1, 3), Shown::Fresh(3)),
    Choosing(Choice::With(1), Shown::Seen(3)),
    Choosing(Choice::With(2), Shown::Fresh(7)),
    Choosing(Choice::Default(3), Shown::Fresh(0)),
    // one that is to be replaced is made anew, and a key that is lent finds it
    Choosing(Choice::SevenForThree(1), Shown::Fresh(7)),
    Choosing(Choice::Lent(1, 6), Shown::Seen(7)),
    Choosing(Choice::Nothing(4), Shown::Nothing),
    Choosing(Choice::Fault(4), Shown::Fault(5)),
    Choosing(Choice::Insert(4, 9), Shown::Fresh(9)),
    Choosing(Choice::CountUp(5), Shown::Fresh(1)),
    Choosing(Choice::CountUp(5), Shown::Replaced(2)),
    Choosing(Choice::Fail(5), Shown::Fault(9)),
    Choosing(Choice::Insert(5, 4), Shown::Seen(2)),
    Choosing(Choice::Remove(5), Shown::Removed),
    Choosing(Choice::Remove(5), Shown::StillNone),
];

const ONE: &[Choosing] = &[Choosing(Choice::Insert(6, 60), Shown::Fresh(60))];

const ATTACHED: &[Choosing] = &[
    Choosing(Choice::Insert(11, 3), Shown::Fresh(3)),
    Choosing(Choice::Lent(11, 6), Shown::Seen(3)),
    Choosing(Choice::SevenForThree(11), Shown::Fresh(7)),
    Choosing(Choice::CountUp(12), Shown::Fresh(1)),
    Choosing(Choice::Leave(11), Shown::Unchanged),
    Choosing(Choice::Remove(11), Shown::Removed),
    Choosing(Choice::Remove(11), Shown::StillNone),
];

/// Selectors choose by a shared handle, and by an attached one; and a cache of one value is printed as a map.
const CHOSEN: &Scene = &Scene {
    settings: FIVE_HUNDRED,
    steps: &[
        Step::Choose(SHARED),
        Step::Rows(&[Row::Get(4, Some(9)), Row::Get(5, None)]),
        Step::ChooseAttached(ATTACHED),
        Step::Rows(&[Row::Clear]),
        Step::Choose(ONE),
        Step::Printed("{6: 60}"),
    ],
};

#[test]
fn selectors_choose(rt: HostRuntime) {
    assert!(rt; holds(&rt, rt.alloc(), CHOSEN));
}
