//! Several threads on one cache.
use crate::caches::{Sign, Stage, begin_turn, come_later, wait_for};
use crate::entries::{Choice, Choosing, Shown};
use crate::forms::{FIVE_HUNDRED, Form, Staged};
use crate::making::{Making, Replaced, calls_all, make, make_if};
use crate::numbers::Numbers;
use crate::rows::{Deed, Row, does_all, inserts, invalidates, removes, runs};
use crate::scenes::{Scene, Step, holds_in};
use crate::telling::hears;
use crate::turns::{Turn, is_answered};
use crate::visiting::shows_each_once;
use std::alloc::AllocError;
use std::sync::Wait;
use std::sync::atomic::{AtomicU64, Ordering};
use std::thread;
use std::thread::Threads;

/// What each of several threads does.
#[derive(Clone, Copy)]
pub enum Work {
    /// It requests one key, and a closure that runs waits until the dial was read by each thread: until each call has its moment. The
    /// others wait for the closure, or find what it made.
    Make,
    /// It counts one key up 25 times.
    Count,
    /// 10 is inserted and got, 20 is inserted, 10 is invalidated.
    Write,
    /// Each fourth key below 1600 is inserted.
    Fill,
    /// Each key below 1600 is got, or its value is made.
    MakeEach,
    /// Each fourth key below 1600 is removed.
    Empty,
    /// It registers predicates, clears, runs maintenance, and makes values with a closure that does the same.
    Mix,
    /// Eight insert, and the others go over all.
    Visit,
    /// Four remove the keys below 1600, and a fifth one hears of it.
    Hear,
    /// One leads a turn, and another comes later, whose closure is not to run.
    Share(Turn),
    /// One is asked whether 7 is replaced until another has written 8 in its place, which is kept.
    Replace,
}

/// Threads that work on a cache: how often the dial was read and how many closures ran before, and where it is counted what they hear of.
#[derive(Clone, Copy)]
struct Crew<'a, T> {
    stage: &'a Stage<T>,
    work: Work,
    read: u64,
    ran: u64,
    told: &'a [AtomicU64],
}

/// A key is counted up.
const COUNTED_SLOWLY: &[Choosing] = &[Choosing(Choice::CountSlowly(2), Shown::Put)];

/// Counts it up 25 times.
fn counts_25<H: Wait + Copy, T: Staged>(rt: &H, cache: &T) -> bool {
    for _ in 0..25u32 {
        if !cache.chooses_attached(rt, COUNTED_SLOWLY) {
            return false;
        }
    }
    true
}

fn writes<H: Wait, T: Numbers>(rt: &H, cache: &T) -> bool {
    inserts(rt, cache, 10, 100)
        && cache.find(rt, 10).is_ok()
        && runs(rt, cache)
        && inserts(rt, cache, 20, 200)
        && invalidates(rt, cache, 10)
}

/// Whether the keys of one of four threads, each fourth one below 1600, are inserted.
fn fills<H: Wait, T: Numbers>(rt: &H, cache: &T, number: usize) -> bool {
    for key in 0..1600u64 {
        if key % 4 == number as u64 && !inserts(rt, cache, key, key) {
            return false;
        }
    }
    true
}

/// The same of their removal.
fn empties<H: Wait, T: Numbers>(rt: &H, cache: &T, number: usize) -> bool {
    for key in 0..1600u64 {
        if key % 4 == number as u64 && !removes(rt, cache, key, Some(key)) {
            return false;
        }
    }
    true
}

/// Whether each key has its number as its value, which may have to be made.
fn makes_each<H: Wait, T: Staged>(rt: &H, stage: &Stage<T>) -> bool {
    for key in 0..1600u64 {
        if make(rt, stage, key, Making::Itself) != Ok(key) {
            return false;
        }
    }
    true
}

/// Whether calls on all parts return, within a closure that makes a value and outside it.
fn mixes<H: Wait, T: Staged>(rt: &H, stage: &Stage<T>, number: usize) -> bool {
    for round in 0..20u64 {
        let key = round
            .wrapping_mul(8)
            .wrapping_add((number as u64).wrapping_mul(2));
        if make(rt, stage, key, Making::AllCalled) != Ok(key)
            || calls_all(rt, &stage.cache, key) != key
        {
            return false;
        }
    }
    true
}

/// Whether one of two callers of a turn, before which so many were led, returns the expected result.
fn shares<H: Wait, T: Staged>(
    rt: &H,
    stage: &Stage<T>,
    turn: Turn,
    led: u64,
    number: usize,
) -> bool {
    if number == 0 {
        is_answered(rt, stage, turn, Making::Led(turn.made))
    } else {
        come_later(rt, stage, led) && is_answered(rt, stage, turn, Making::Value(98))
    }
}

/// Whether 8 is kept, once it is asked about, or is written, once 7 is.
fn replaces<H: Wait, T: Numbers>(rt: &H, stage: &Stage<T>, asked: u64, number: usize) -> bool {
    if number == 0 {
        make_if(rt, stage, 1, 9, Replaced::Late(7, 8)) == Ok(8)
    } else {
        wait_for(rt, stage, Sign::Ran(asked.saturating_add(1))) && inserts(rt, &stage.cache, 1, 8)
    }
}

impl<'a, T: Staged> Crew<'a, T> {
    /// The same of work that is not the same for all.
    fn works_apart<H: Wait + Copy>(&self, rt: &H, number: usize) -> bool {
        let stage = self.stage;
        match self.work {
            Work::Fill => fills(rt, &stage.cache, number),
            Work::Empty => empties(rt, &stage.cache, number),
            Work::Mix => mixes(rt, stage, number),
            Work::Visit if number < 8 => does_all(rt, &stage.cache, Deed::Insert, 1024),
            Work::Visit => shows_each_once(rt, stage, 1024),
            Work::Hear if number < 4 => empties(rt, &stage.cache, number),
            Work::Hear => hears(rt, stage.alloc, &stage.cache, self.told, 400),
            Work::Share(turn) => shares(rt, stage, turn, self.ran, number),
            Work::Replace => replaces(rt, stage, self.ran, number),
            _ => false,
        }
    }

    /// Whether the work of the thread of a number comes out as it should.
    fn works<H: Wait + Copy>(&self, rt: &H, number: usize) -> bool {
        let stage = self.stage;
        match self.work {
            Work::Make => make(rt, stage, 1, Making::Gated(self.read)) == Ok(70),
            Work::Count => counts_25(rt, &stage.cache),
            Work::Write => writes(rt, &stage.cache),
            Work::MakeEach => makes_each(rt, stage),
            _ => self.works_apart(rt, number),
        }
    }
}

/// Whether each of the threads says yes.
pub fn each_says_yes(said: Result<Vec<bool>, AllocError>) -> bool {
    match said {
        Ok(said) => said.iter().all(|yes| *yes),
        Err(_) => false,
    }
}

/// Whether the work of so many threads comes out as it should. What they hear of is counted.
pub fn all_hear<R: Threads + Wait + Sync + Copy, T: Staged + Sync>(
    rt: &R,
    stage: &Stage<T>,
    threads: usize,
    work: Work,
    told: &[AtomicU64],
) -> bool {
    let crew = Crew {
        stage,
        work,
        read: stage.dial.readings().saturating_add(threads as u64),
        ran: stage.runs.load(Ordering::SeqCst),
        told,
    };
    each_says_yes(thread::map_indices(
        rt,
        stage.alloc,
        threads,
        &|number: usize| crew.works(rt, number),
    ))
}

/// The same of threads that hear of nothing.
pub fn all_work<R: Threads + Wait + Sync + Copy, T: Staged + Sync>(
    rt: &R,
    stage: &Stage<T>,
    threads: usize,
    work: Work,
) -> bool {
    all_hear(rt, stage, threads, work, &[])
}

/// One closure runs for four, four count to 100, and what four write is as one would leave it.
const CROWD: &Scene = &Scene {
    settings: FIVE_HUNDRED,
    steps: &[
        Step::All(4, Work::Make),
        Step::Rows(&[Row::Ran(1)]),
        Step::All(4, Work::Count),
        Step::Rows(&[Row::Get(2, Some(100))]),
        Step::All(4, Work::Write),
        Step::Rows(&[Row::Get(10, None), Row::Get(20, Some(200))]),
    ],
};

#[test]
fn four_threads_make_count_and_write(rt: HostRuntime) {
    assert!(rt; holds_in(&rt, rt.alloc(), Form::One, CROWD));
}

#[test]
fn four_threads_make_count_and_write_on_segments(rt: HostRuntime) {
    assert!(rt; holds_in(&rt, rt.alloc(), Form::Segments, CROWD));
}

#[test]
fn four_threads_make_count_and_write_on_shards(rt: HostRuntime) {
    assert!(rt; holds_in(&rt, rt.alloc(), Form::Shards, CROWD));
}
