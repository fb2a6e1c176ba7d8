//! Each value is told once, whichever thread takes its notice.
use crate::caches::Stage;
use crate::crowds::{Work, all_hear};
use crate::forms::{Form, Staged};
use crate::numbers::{Numbers, Told};
use crate::rows::{Deed, does_all};
use crate::scenes::{Scene, Step, holds_in};
use crate::sharding::ROOMY;
use std::alloc::Global;
use std::sync::Wait;
use std::sync::atomic::{AtomicU64, Ordering};
use std::thread::Threads;

/// Counts that a value was told. One that was never written is left out, and then another is missing.
fn note(told: &[AtomicU64], value: u64) {
    if let Some(times) = told.get(value as usize) {
        times.fetch_add(1, Ordering::SeqCst);
    }
}

/// The same of some notices, which are taken out.
fn note_all(told: &[AtomicU64], notices: &mut Vec<Told>) {
    for _ in 0..notices.len() {
        if let Some(notice) = notices.pop() {
            note(told, notice.value);
        }
    }
}

/// Takes so many batches of at most 7 notices. False if there is no memory for them.
pub fn hears<H: Wait, T: Numbers>(
    rt: &H,
    alloc: Global,
    cache: &T,
    told: &[AtomicU64],
    batches: u32,
) -> bool {
    let Ok(mut notices) = Vec::with_capacity(alloc, 7) else {
        return false;
    };
    for _ in 0..batches {
        cache.tell_all(rt, &mut notices);
        note_all(told, &mut notices);
    }
    true
}

/// Whether each is 1.
fn are_all_one(told: &[AtomicU64]) -> bool {
    told.iter().all(|times| times.load(Ordering::SeqCst) == 1)
}

/// Whether each of 1600 values that four threads remove is told once, to one that counts.
fn are_counted_once<R: Threads + Wait + Sync + Copy, T: Staged + Sync>(
    rt: &R,
    stage: &Stage<T>,
    told: &[AtomicU64],
) -> bool {
    let cache = &stage.cache;
    does_all(rt, cache, Deed::InsertItself, 1600)
        && all_hear(rt, stage, 5, Work::Hear, told)
        && hears(rt, stage.alloc, cache, told, 1000)
        && are_all_one(told)
        && cache.tell(rt).is_none()
}

/// Whether this many counts at 0 are added.
fn adds_counts(counts: &mut Vec<AtomicU64>, count: usize) -> bool {
    for _ in 0..count {
        if counts.push(AtomicU64::new(0)).is_err() {
            return false;
        }
    }
    true
}

/// The same, with memory for the counts.
pub fn are_told_once<R: Threads + Wait + Sync + Copy, T: Staged + Sync>(
    rt: &R,
    stage: &Stage<T>,
) -> bool {
    let mut told = Vec::new(stage.alloc);
    adds_counts(&mut told, 1600) && are_counted_once(rt, stage, told.as_slice())
}

const TOLD: &Scene = &Scene {
    settings: ROOMY,
    steps: &[Step::TellOnce],
};

#[test]
fn each_is_told_once(rt: HostRuntime) {
    assert!(rt; holds_in(&rt, rt.alloc(), Form::One, TOLD));
}

#[test]
fn each_of_segments_is_told_once(rt: HostRuntime) {
    assert!(rt; holds_in(&rt, rt.alloc(), Form::Segments, TOLD));
}

#[test]
fn each_of_shards_is_told_once(rt: HostRuntime) {
    assert!(rt; holds_in(&rt, rt.alloc(), Form::Shards, TOLD));
}
