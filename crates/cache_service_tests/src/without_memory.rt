//! What needs no memory: it comes out so with every request refused.
//!
//! A test asks for a block of a size that nothing else asks for, `BEGINS`, and at the end for one of another, `ENDS`.
//! `tools/refuse_allocations.py --between` refuses whatever is asked for from the one to the other. Otherwise these are requests as any.
use crate::plays::Live;
use crate::steps::opens;
use crate::tests::is_so;
use audit_model::Conn;
use cache_run::Host;
use cache_service::{Sitting, Untold};
use cache_shared::{Seat, Seating, Shareable, SharedService};
use std::alloc::Global;
use std::sync::Wait;
use std::test::*;

const BEGINS: usize = 20_011;

const ENDS: usize = 20_012;

/// Asks for a block of so many bytes, whatever the answer is.
fn mark(alloc: Global, size: usize) {
    let _ = Vec::<u8>::with_capacity(alloc, size);
}

/// Whether a host takes what it cuts of a text, holds nothing back, and gives these replies.
fn feeds<H: Host>(
    host: &mut H,
    place: &mut H::Place,
    conn: Conn,
    text: &[u8],
    replies: &[u8],
) -> bool
    requires known { H.knows conn place.old }
    ensures known { H.knows conn place.new }
{
    let count = host.cut(text);
    match host.feed(place, conn, &text[..count], 0) {
        Ok(Some(given)) => match &given.owed.replies {
            Some(text) => !given.held && text.as_slice() == replies,
            None => false,
        },
        _ => false,
    }
}

/// Whether a connection that has room for a line is fed one piece by piece with every request refused. Its reply needs memory.
fn feeds_without<H: Host>(alloc: Global, host: &mut H, place: &mut H::Place, conn: Conn) -> bool
    requires known { H.knows conn place.old }
{
    let has_room = feeds(host, place, conn, b"GET a\n", b"NONE\n");
    mark(alloc, BEGINS);
    let is_front = feeds(host, place, conn, b"GE", b"");
    let is_fed = feeds(host, place, conn, b"T a", b"");
    mark(alloc, ENDS);
    has_room && is_front && is_fed && feeds(host, place, conn, b"\n", b"NONE\n")
}

/// The same of a connection of a shared service that is opened for it.
fn sits_without<L: Seating, C: Shareable, R: Wait>(
    rt: &R,
    alloc: Global,
    shared: &SharedService<L, C>,
    seat: &mut Seat<L, C>,
) -> bool {
    let mut teller = Untold;
    match (
        Sitting::new(rt, alloc, shared, &mut teller, false),
        opens(rt, shared, seat),
    ) {
        (Ok(mut sitting), Some(conn)) => feeds_without(alloc, &mut sitting, seat, conn),
        _ => false,
    }
}

/// The same with the first of these seats.
pub fn first_sits<L: Seating, C: Shareable, R: Wait>(
    rt: &R,
    alloc: Global,
    shared: &SharedService<L, C>,
    seats: &mut [Seat<L, C>],
) -> bool {
    match seats {
        [seat, ..] => sits_without(rt, alloc, shared, seat),
        [] => false,
    }
}

#[test]
fn a_piece_for_which_a_connection_has_room(rt: HostRuntime) {
    assert!(rt; is_so(rt, rt.alloc(), 1, Live::Feed));
}
