//! Steps of a seat.
ghost use Rattle.std.specs.Prelude.{◌≡◌};

use crate::inputs::feed;
use audit_laws::Output;
use audit_model::{Conn, Input, ServiceError};
use cache_shared::{Finished, Seat, Seating, Shareable, SharedService};
use cache_spaces::Refusal;
use std::alloc::Global;
use std::sync::Wait;

/// Adds a seat of a shared service, if there is one more.
fn add_seat<L: Seating, C: Shareable>(
    rt: &impl Wait,
    shared: &SharedService<L, C>,
    seats: &mut Vec<Seat<L, C>>,
) -> bool {
    match shared.seat(rt) {
        Ok(seat) => seats.push(seat).is_ok(),
        Err(_) => false,
    }
}

/// Adds so many seats. Room for them is made first, on the second attempt if memory is refused.
fn add_seats<L: Seating, C: Shareable>(
    rt: &impl Wait,
    shared: &SharedService<L, C>,
    seats: &mut Vec<Seat<L, C>>,
    count: usize,
) -> bool {
    let has_room = seats.reserve(count).is_ok() || seats.reserve(count).is_ok();
    for _ in 0..count {
        if !add_seat(rt, shared, seats) {
            return false;
        }
    }
    has_room
}

/// So many seats of a shared service, if there are.
pub fn make_seats<L: Seating, C: Shareable>(
    rt: &impl Wait,
    alloc: Global,
    shared: &SharedService<L, C>,
    count: usize,
) -> Option<Vec<Seat<L, C>>> {
    let mut seats = Vec::new(alloc);
    if add_seats(rt, shared, &mut seats, count) {
        Some(seats)
    } else {
        None
    }
}

/// How many inputs a seat counts, and how many receipts it has.
pub fn counts_of<L: Seating, C>(seat: &Seat<L, C>) -> (u64, usize) {
    (seat.count(), seat.receipts(0).len())
}

/// How many commands of a seat were held back, since there was no memory for them.
pub fn count_held<L: Seating, C>(seat: &Seat<L, C>) -> usize {
    let mut count = 0usize;
    for receipt in seat.receipts(0) {
        if receipt.output == Output::Held {
            count = count.saturating_add(1);
        }
    }
    count
}

/// Takes an input that was refused. `None` also if the seat counted others than these before.
fn step_again<L: Seating, C: Shareable, R: Wait>(
    rt: &R,
    shared: &SharedService<L, C>,
    seat: &mut Seat<L, C>,
    input: Input,
    counts: (u64, usize),
) -> Option<Output> {
    let is_as_it_was = counts_of(seat) == counts;
    let taken = shared.step(rt, seat, input).ok();
    if is_as_it_was { taken } else { None }
}

/// Takes an input, again where it is refused, if the refusal left the seat as it was.
fn step<L: Seating, C: Shareable, R: Wait>(
    rt: &R,
    shared: &SharedService<L, C>,
    seat: &mut Seat<L, C>,
    input: Input,
) -> Option<Output> {
    let counts = counts_of(seat);
    match shared.step(rt, seat, input) {
        Ok(output) => Some(output),
        Err(refusal) => step_again(rt, shared, seat, refusal.input, counts),
    }
}

/// Whether an input was refused for its unknown connection.
fn is_unknown(taken: Result<Output, Refusal>) -> bool {
    match taken {
        Ok(_) => false,
        Err(refusal) => ServiceError::from(refusal) == ServiceError::NoConnection,
    }
}

/// Whether an input is refused for its unknown connection, and leaves no receipt.
pub fn refuses<L: Seating, C: Shareable, R: Wait>(
    rt: &R,
    shared: &SharedService<L, C>,
    seat: &mut Seat<L, C>,
    input: Input,
) -> bool {
    let counts = counts_of(seat);
    is_unknown(shared.step(rt, seat, input)) && counts_of(seat) == counts
}

/// Whether an input is taken.
pub fn takes<L: Seating, C: Shareable, R: Wait>(
    rt: &R,
    shared: &SharedService<L, C>,
    seat: &mut Seat<L, C>,
    input: Input,
) -> bool {
    step(rt, shared, seat, input).is_some()
}

/// Whether the lines of a feed of nothing run, so one that is held back.
fn runs_held<L: Seating, C: Shareable, R: Wait>(
    rt: &R,
    alloc: Global,
    shared: &SharedService<L, C>,
    seat: &mut Seat<L, C>,
    conn: Conn,
) -> bool {
    match feed(alloc, conn, b"") {
        Some(nothing) => step(rt, shared, seat, nothing) == Some(Output::All),
        None => false,
    }
}

/// Whether all lines of a feed run, one that is held back for want of memory at a feed of nothing.
pub fn runs<L: Seating, C: Shareable, R: Wait>(
    rt: &R,
    alloc: Global,
    shared: &SharedService<L, C>,
    seat: &mut Seat<L, C>,
    conn: Conn,
    input: Input,
) -> bool {
    match step(rt, shared, seat, input) {
        Some(Output::Held) => runs_held(rt, alloc, shared, seat, conn),
        output => output == Some(Output::All),
    }
}

/// Opens a connection.
pub fn opens<L: Seating, C: Shareable, R: Wait>(
    rt: &R,
    shared: &SharedService<L, C>,
    seat: &mut Seat<L, C>,
) -> Option<Conn> {
    match step(rt, shared, seat, Input::Open { namespace: 0 }) {
        Some(Output::Opened { conn }) => Some(conn),
        _ => None,
    }
}

/// Whether a feed of this text is taken.
pub fn feeds<L: Seating, C: Shareable, R: Wait>(
    rt: &R,
    alloc: Global,
    shared: &SharedService<L, C>,
    seat: &mut Seat<L, C>,
    conn: Conn,
    text: &[u8],
) -> bool {
    match feed(alloc, conn, text) {
        Some(input) => takes(rt, shared, seat, input),
        None => false,
    }
}

/// Whether those are the replies that a connection did not take yet, where they are known.
fn takes_reply<L: Seating, C: Shareable, R: Wait>(
    rt: &R,
    shared: &SharedService<L, C>,
    conn: Conn,
    wanted: Option<&[u8]>,
) -> bool {
    match shared.take_output(rt, conn) {
        Ok(replies) => wanted.is_none() || wanted == Some(replies.as_slice()),
        Err(_) => false,
    }
}

/// Whether a connection is replied so, where that is known; on the second attempt if memory is refused for the copy.
pub fn is_replied<L: Seating, C: Shareable, R: Wait>(
    rt: &R,
    shared: &SharedService<L, C>,
    conn: Conn,
    wanted: Option<&[u8]>,
) -> bool {
    takes_reply(rt, shared, conn, wanted) || takes_reply(rt, shared, conn, wanted)
}

/// Whether a service has no second namespace, and so no second journal.
pub fn has_one_journal<C: Shareable>(service: &C) -> bool {
    match service.journal(1) {
        Ok(_) => false,
        Err(error) => error == ServiceError::NoNamespace,
    }
}

/// What these seats leave, on the second attempt if memory is refused.
pub fn finish<L: Seating, C: Shareable>(
    shared: SharedService<L, C>,
    seats: Vec<Seat<L, C>>,
) -> Option<Finished<C>>
    requires ledger { L.all ≡ L.parts }
{
    match shared.finish(seats) {
        Ok(finished) => Some(finished),
        Err((shared, seats)) => shared.finish(seats).ok(),
    }
}
