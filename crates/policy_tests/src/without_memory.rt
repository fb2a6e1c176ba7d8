//! What needs no memory: it comes out so with every request refused.
//!
//! A test asks for a block of a size that nothing else asks for, `BEGINS`, and at the end for one of
//! another, `ENDS`. `tools/refuse_allocations.py --between` refuses whatever is asked for from the
//! one to the other. Otherwise these are requests as any.
use crate::timers::{Timers, expires_at_each_tick, new_timers, schedule_thousand};
use moka_policy::{CacheRegion, Deque};
use std::alloc::Global;

const BEGINS: usize = 20_011;

const ENDS: usize = 20_012;

/// Asks for a block of so many bytes, whatever the answer is.
fn mark(alloc: Global, size: usize) {
    let _ = Vec::<u8>::with_capacity(alloc, size);
}

/// Pushes 0, 1, 2, .. up to that, for which there is room.
fn push_up_to(deque: &mut Deque<u64>, end: u64) -> bool {
    for element in 0..end {
        if deque.push_back(element).is_err() {
            return false;
        }
    }
    true
}

/// Moves ten times as often as there are nodes, so that empty places are closed up again and again.
fn move_often(deque: &mut Deque<u64>) {
    for _ in 0..10_000u32 {
        deque.move_front_to_back();
    }
}

/// Moves and pushes within a reservation, and what is there then.
fn moves_and_pushes(deque: &mut Deque<u64>) -> bool {
    move_often(deque);
    deque.push_back(1000).is_ok()
        && deque.push_back(1001).is_ok()
        && deque.pop_front() == Some(0)
        && deque.peek_back().copied() == Some(1001)
        && deque.len() == 1001
}

/// Whether a queue of a thousand, with room for two more, does so.
fn works_in_its_room(alloc: Global, deque: &mut Deque<u64>) -> bool {
    if deque.reserve(1002).is_err() && deque.reserve(1002).is_err() {
        return false;
    }
    let pushed = push_up_to(deque, 1000);
    mark(alloc, BEGINS);
    let worked = moves_and_pushes(deque);
    mark(alloc, ENDS);
    pushed && worked
}

fn queue_works(alloc: Global) -> bool {
    works_in_its_room(alloc, &mut Deque::new(alloc, CacheRegion::Other))
}

#[test]
fn queues_move_and_take_what_there_is_room_for(rt: HostRuntime) {
    assert!(rt; queue_works(rt.alloc()));
}

fn timers_expire(alloc: Global, timers: &mut Timers) -> bool {
    let scheduled = schedule_thousand(timers);
    mark(alloc, BEGINS);
    let expired = expires_at_each_tick(timers);
    mark(alloc, ENDS);
    scheduled && expired
}

fn new_timers_expire(alloc: Global) -> bool {
    timers_expire(alloc, &mut new_timers(alloc))
}

#[test]
fn timers_advance(rt: HostRuntime) {
    assert!(rt; new_timers_expire(rt.alloc()));
}
