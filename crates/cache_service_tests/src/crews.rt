//! Four threads, each with a seat, and one seat alone.
ghost use Rattle.std.specs.Prelude.{◌≡◌};

use crate::inputs::{conn, feed, feed_by_key};
use crate::steps::{count_held, counts_of, finish, is_replied, opens, refuses, runs, takes};
use audit_model::{Conn, Input};
use cache_shared::{Finished, Seat, Seating, Shareable, SharedService};
use std::alloc::Global;
use std::sync::Wait;
use std::sync::atomic::{AtomicU64, Ordering};
use std::thread;
use std::thread::Threads;

/// A text, in which each `#` stands for the thread's key, and what is replied, if that is known.
pub type Talk<'a> = (&'a [u8], Option<&'a [u8]>);

/// What a thread does on a connection of its own: it feeds each text and looks at the reply, so often, and may then close. It opens none
/// where it feeds none.
#[derive(Clone, Copy)]
pub struct Script<'a> {
    pub key: u8,
    pub talks: &'a [Talk<'a>],
    pub times: u32,
    pub closes: bool,
    /// How many inputs its seat then counts.
    pub count: u64,
}

/// A script for each thread.
pub type Crew<'a> = [Script<'a>; 4];

/// Feeds a text, and answers whether all of it runs and is replied so.
fn talks<L: Seating, C: Shareable, R: Wait>(
    rt: &R,
    alloc: Global,
    shared: &SharedService<L, C>,
    seat: &mut Seat<L, C>,
    conn: Conn,
    key: u8,
    (text, wanted): Talk<'_>,
) -> bool {
    match feed_by_key(alloc, conn, text, key) {
        Some(input) => {
            runs(rt, alloc, shared, seat, conn, input) && is_replied(rt, shared, conn, wanted)
        }
        None => false,
    }
}

/// Feeds each text of a script.
fn talks_once<L: Seating, C: Shareable, R: Wait>(
    rt: &R,
    alloc: Global,
    shared: &SharedService<L, C>,
    seat: &mut Seat<L, C>,
    conn: Conn,
    script: &Script<'_>,
) -> bool {
    for talk in script.talks {
        if !talks(rt, alloc, shared, seat, conn, script.key, *talk) {
            return false;
        }
    }
    true
}

/// The same so often.
fn talks_often<L: Seating, C: Shareable, R: Wait>(
    rt: &R,
    alloc: Global,
    shared: &SharedService<L, C>,
    seat: &mut Seat<L, C>,
    conn: Conn,
    script: &Script<'_>,
) -> bool {
    for _ in 0..script.times {
        if !talks_once(rt, alloc, shared, seat, conn, script) {
            return false;
        }
    }
    true
}

/// Whether a seat counts as many inputs as its script says, and one more for each command that was held back, and has their receipts.
fn counts_so<L: Seating, C>(seat: &Seat<L, C>, script: &Script<'_>) -> bool {
    let (count, receipts) = counts_of(seat);
    count == receipts as u64 && count == script.count.saturating_add(count_held(seat) as u64)
}

/// Follows a script on a connection. Answers whether each input was taken and replied so, and the seat counts them and has their receipts.
fn follows_on<L: Seating, C: Shareable, R: Wait>(
    rt: &R,
    alloc: Global,
    shared: &SharedService<L, C>,
    seat: &mut Seat<L, C>,
    conn: Conn,
    script: &Script<'_>,
) -> bool {
    talks_often(rt, alloc, shared, seat, conn, script)
        && (!script.closes || takes(rt, shared, seat, Input::Close { conn }))
        && counts_so(seat, script)
}

/// The same on a connection that is opened for it.
pub fn follows<L: Seating, C: Shareable, R: Wait>(
    rt: &R,
    alloc: Global,
    shared: &SharedService<L, C>,
    seat: &mut Seat<L, C>,
    script: &Script<'_>,
) -> bool {
    match opens(rt, shared, seat) {
        Some(conn) => follows_on(rt, alloc, shared, seat, conn, script),
        None => false,
    }
}

/// Whether a feed of a connection that is not there is refused.
fn refuses_feed<L: Seating, C: Shareable, R: Wait>(
    rt: &R,
    alloc: Global,
    shared: &SharedService<L, C>,
    seat: &mut Seat<L, C>,
) -> bool {
    match feed(alloc, conn(9), b"GET a\n") {
        Some(input) => refuses(rt, shared, seat, input),
        None => false,
    }
}

/// One thread's part: beside its script, inputs of connections that are not there are refused.
fn works<L: Seating, C: Shareable, R: Wait>(
    rt: &R,
    alloc: Global,
    shared: &SharedService<L, C>,
    seat: &mut Seat<L, C>,
    script: &Script<'_>,
) -> bool {
    refuses_feed(rt, alloc, shared, seat)
        && refuses(rt, shared, seat, Input::Close { conn: conn(1000) })
        && (script.times == 0 || follows(rt, alloc, shared, seat, script))
}

/// The part of the thread of this number, which is counted if all came out so.
fn works_at<L: Seating, C: Shareable, R: Wait>(
    rt: &R,
    alloc: Global,
    shared: &SharedService<L, C>,
    seat: &mut Seat<L, C>,
    crew: &Crew<'_>,
    number: usize,
    right: &AtomicU64,
) {
    if let Some(script) = crew.get(number) {
        let is_right = works(rt, alloc, shared, seat, script);
        right.fetch_add(u64::from(is_right), Ordering::SeqCst);
    }
}

/// Whether all came out so in each of four threads, one for each seat.
pub fn all_work<L: Seating + Send + Sync, C: Shareable + Send, R: Threads + Wait + Sync>(
    rt: &R,
    alloc: Global,
    shared: &SharedService<L, C>,
    seats: &mut [Seat<L, C>],
    crew: &Crew<'_>,
) -> bool {
    let right = AtomicU64::new(0);
    thread::for_each_mut(
        rt,
        seats,
        4,
        &|number, seat| { works_at(rt, alloc, shared, seat, crew, number, &right) },
    );
    right.load(Ordering::SeqCst) == 4
}

/// The service and these seats back, where it is not to be had beside a clone.
fn refused_beside_clone<L: Seating, C: Shareable>(
    shared: SharedService<L, C>,
    seats: Vec<Seat<L, C>>,
) -> Option<(SharedService<L, C>, Vec<Seat<L, C>>)>
    requires ledger { L.all ≡ L.parts }
{
    match shared.clone() {
        Ok(_other) => shared.finish(seats).err(),
        Err(_) => None,
    }
}

/// What seats leave. The service is not to be had beside a clone.
fn finish_without_clone<L: Seating, C: Shareable>(
    shared: SharedService<L, C>,
    seats: Vec<Seat<L, C>>,
) -> Option<Finished<C>>
    requires ledger { L.all ≡ L.parts }
{
    match refused_beside_clone(shared, seats) {
        Some((shared, seats)) => finish(shared, seats),
        None => None,
    }
}

/// The same of all seats but the last one, and that one.
fn finish_with<L: Seating, C: Shareable>(
    shared: SharedService<L, C>,
    mut seats: Vec<Seat<L, C>>,
    last: Seat<L, C>,
) -> Option<Finished<C>>
    requires ledger { L.all ≡ L.parts }
{
    match seats.push(last) {
        Ok(()) => finish_without_clone(shared, seats),
        Err(_) => None,
    }
}

/// The same, where the service is not to be had without the last one.
fn finish_with_last<L: Seating, C: Shareable>(
    shared: SharedService<L, C>,
    seats: Vec<Seat<L, C>>,
    last: Seat<L, C>,
) -> Option<Finished<C>>
    requires ledger { L.all ≡ L.parts }
{
    match shared.finish(seats) {
        Ok(_) => None,
        Err((shared, seats)) => finish_with(shared, seats, last),
    }
}

/// What seats leave. The service is not to be had without the last one, nor beside a clone.
pub fn finish_at_last<L: Seating, C: Shareable>(
    shared: SharedService<L, C>,
    mut seats: Vec<Seat<L, C>>,
) -> Option<Finished<C>>
    requires ledger { L.all ≡ L.parts }
{
    match seats.pop() {
        Some(last) => finish_with_last(shared, seats, last),
        None => None,
    }
}
