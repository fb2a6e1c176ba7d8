//! A connection that awaits what another thread answers.
use crate::inputs::answer;
use crate::meetings::Meeting;
use crate::steps::{feeds, opens, takes};
use audit_model::{Bytes, Conn, LoadId};
use cache_shared::{Seat, Seating, Shareable, SharedService};
use std::alloc::Global;
use std::sync::Wait;
use std::thread;
use std::thread::Threads;
use std::time::{Clock, Duration};

/// Whether a connection was told this and did not take it yet.
fn is_told<L: Seating, C: Shareable, R: Wait>(
    rt: &R,
    shared: &SharedService<L, C>,
    conn: Conn,
    text: &[u8],
) -> bool {
    match shared.take_output(rt, conn) {
        Ok(replies) => replies.as_slice() == text,
        Err(_) => false,
    }
}

/// Whether a connection that loads is told the value once it is ready.
fn awaits_on<L: Seating, C: Shareable, R: Wait>(
    rt: &R,
    alloc: Global,
    shared: &SharedService<L, C>,
    seat: &mut Seat<L, C>,
    conn: Conn,
) -> bool {
    if feeds(rt, alloc, shared, seat, conn, b"LOAD k\n") {
        shared.await_ready(rt, seat, conn);
        is_told(rt, shared, conn, b"VAL v\n")
    } else {
        false
    }
}

/// The same on a connection that is opened for it.
fn awaits<L: Seating, C: Shareable, R: Wait>(
    rt: &R,
    alloc: Global,
    shared: &SharedService<L, C>,
    seat: &mut Seat<L, C>,
) -> bool {
    match opens(rt, shared, seat) {
        Some(conn) => awaits_on(rt, alloc, shared, seat, conn),
        None => false,
    }
}

/// The number of the first of these loads, if there is one.
fn first_of(loads: &[(LoadId, Bytes)]) -> Option<u64> {
    match loads {
        [(load, _key), ..] => Some(load.number),
        [] => None,
    }
}

/// The number of a load that goes out, if there is one.
fn next_load<L: Seating, C: Shareable, R: Wait>(
    rt: &R,
    shared: &SharedService<L, C>,
) -> Option<u64> {
    match shared.take_loads(rt, 0) {
        Ok(loads) => first_of(loads.as_slice()),
        Err(_) => None,
    }
}

/// The number of the load that goes out first, looked for a limited number of times.
fn first_load<L: Seating, C: Shareable, R: Wait + Clock>(
    rt: &R,
    shared: &SharedService<L, C>,
) -> Option<u64> {
    for _turn in 0..10_000u32 {
        if let Some(load) = next_load(rt, shared) {
            return Some(load);
        }
        thread::sleep(rt, Duration::from_millis(1));
    }
    None
}

/// Answers a load, and says whether that was taken.
fn answers_load<L: Seating, C: Shareable, R: Wait>(
    rt: &R,
    alloc: Global,
    shared: &SharedService<L, C>,
    seat: &mut Seat<L, C>,
    number: u64,
) -> bool {
    match answer(alloc, number) {
        Some(input) => takes(rt, shared, seat, input),
        None => false,
    }
}

/// Answers the load that goes out first, and says whether that was taken.
fn answers<L: Seating, C: Shareable, R: Wait + Clock>(
    rt: &R,
    alloc: Global,
    shared: &SharedService<L, C>,
    seat: &mut Seat<L, C>,
) -> bool {
    match first_load(rt, shared) {
        Some(number) => answers_load(rt, alloc, shared, seat, number),
        None => false,
    }
}

/// Awaits unless the other thread has given this one up: where no thread can be made, one part runs behind the other.
fn awaits_other<L: Seating, C: Shareable, R: Wait>(
    rt: &R,
    alloc: Global,
    shared: &SharedService<L, C>,
    seat: &mut Seat<L, C>,
    meeting: &Meeting,
) -> bool {
    meeting.come() && awaits(rt, alloc, shared, seat)
}

/// Answers once the other thread is there.
fn answers_other<L: Seating, C: Shareable, R: Wait + Clock>(
    rt: &R,
    alloc: Global,
    shared: &SharedService<L, C>,
    seat: &mut Seat<L, C>,
    meeting: &Meeting,
) -> bool {
    meeting.meets(rt) && answers(rt, alloc, shared, seat)
}

/// Whether one thread is told what it awaits, and another one answers.
fn both_do<L, C, R>(
    rt: &R,
    alloc: Global,
    shared: &SharedService<L, C>,
    one: &mut Seat<L, C>,
    two: &mut Seat<L, C>,
) -> bool
where
    L: Seating + Send + Sync + 'static,
    C: Shareable + Send,
    R: Threads + Wait + Clock + Sync,
{
    let meeting = Meeting::new();
    let (is_told, is_taken) = thread::join(
        rt,
        || awaits_other(rt, alloc, shared, one, &meeting),
        || answers_other(rt, alloc, shared, two, &meeting),
    );
    is_told && is_taken
}

/// The same with these seats, if they are two.
pub fn is_answered<L, C, R>(
    rt: &R,
    alloc: Global,
    shared: &SharedService<L, C>,
    seats: &mut [Seat<L, C>],
) -> bool
where
    L: Seating + Send + Sync + 'static,
    C: Shareable + Send,
    R: Threads + Wait + Clock + Sync,
{
    match seats {
        [one, two] => both_do(rt, alloc, shared, one, two),
        _ => false,
    }
}
