//! Pieces that are lent: each does what the same feed does that is moved in.
use crate::inputs::{bytes, conn};
use crate::steps::{counts_of, opens};
use audit_laws::Output;
use audit_model::{Closing, Conn, Input, Instant, ServiceError};
use cache_shared::{Intake, Seat, Seating, Shareable, SharedService, Turn};
use std::alloc::Global;
use std::sync::Wait;

/// A piece, when it is fed, and what has to come of it.
#[derive(Clone, Copy)]
pub struct Piece<'a> {
    pub text: &'a [u8],
    pub moment: u64,
    pub refused: Option<ServiceError>,
    pub replies: &'a [u8],
    pub closing: Option<Closing>,
    pub waits: bool,
}

/// How many records two connections leave that are each fed these pieces.
pub fn records_of(pieces: &[Piece<'_>]) -> usize {
    let mut count = 2usize;
    for piece in pieces {
        if piece.refused.is_none() {
            count = count.saturating_add(2);
        }
    }
    count
}

/// Whether a turn comes out as its piece says.
fn is_turn_so(turn: &Turn, piece: &Piece<'_>) -> bool {
    let is_replied = match &turn.owed.replies {
        Some(replies) => replies.as_slice() == piece.replies,
        None => false,
    };
    is_replied
        && turn.output == Output::All
        && turn.owed.closing == piece.closing
        && turn.owed.waits == piece.waits
        && piece.refused.is_none()
}

/// Whether an intake comes out as its piece says.
fn is_taken_so<L: Seating, C: Shareable, R: Wait>(
    rt: &R,
    alloc: Global,
    shared: &SharedService<L, C>,
    seat: &mut Seat<L, C>,
    conn: Conn,
    intake: Intake<'_>,
    piece: &Piece<'_>,
) -> bool {
    match shared.turn(rt, seat, conn, intake, false, &mut Vec::new(alloc)) {
        Ok(turn) => is_turn_so(&turn, piece),
        Err(refused) => piece.refused == Some(ServiceError::from(refused)),
    }
}

/// Whether a piece that is lent comes out so.
fn is_lent_so<L: Seating, C: Shareable, R: Wait>(
    rt: &R,
    alloc: Global,
    shared: &SharedService<L, C>,
    seat: &mut Seat<L, C>,
    conn: Conn,
    piece: &Piece<'_>,
) -> bool {
    let intake = Intake::Piece {
        conn,
        piece: piece.text,
        moment: Instant {
            nanos: piece.moment,
        },
    };
    is_taken_so(rt, alloc, shared, seat, conn, intake, piece)
}

/// Whether a feed of it that is moved in does.
fn is_fed_so<L: Seating, C: Shareable, R: Wait>(
    rt: &R,
    alloc: Global,
    shared: &SharedService<L, C>,
    seat: &mut Seat<L, C>,
    conn: Conn,
    piece: &Piece<'_>,
) -> bool {
    let Some(text) = bytes(alloc, piece.text) else {
        return false;
    };
    let input = Input::Feed {
        conn,
        piece: text,
        moment: Instant {
            nanos: piece.moment,
        },
    };
    is_taken_so(rt, alloc, shared, seat, conn, Intake::Input(input), piece)
}

/// Whether each piece comes out so, lent to the first connection and moved in to the second one, and both seats count as much.
fn are_alike<L: Seating, C: Shareable, R: Wait>(
    rt: &R,
    alloc: Global,
    shared: &SharedService<L, C>,
    one: &mut Seat<L, C>,
    two: &mut Seat<L, C>,
    pieces: &[Piece<'_>],
) -> bool {
    for piece in pieces {
        let is_so = is_lent_so(rt, alloc, shared, one, conn(1), piece)
            && is_fed_so(rt, alloc, shared, two, conn(2), piece);
        if !is_so || counts_of(one) != counts_of(two) {
            return false;
        }
    }
    true
}

/// The same on connections that are opened for it.
fn are_alike_on<L: Seating, C: Shareable, R: Wait>(
    rt: &R,
    alloc: Global,
    shared: &SharedService<L, C>,
    one: &mut Seat<L, C>,
    two: &mut Seat<L, C>,
    pieces: &[Piece<'_>],
) -> bool {
    opens(rt, shared, one) == Some(conn(1))
        && opens(rt, shared, two) == Some(conn(2))
        && are_alike(rt, alloc, shared, one, two, pieces)
}

/// The same with these seats, if they are two.
pub fn lends_so<L: Seating, C: Shareable, R: Wait>(
    rt: &R,
    alloc: Global,
    shared: &SharedService<L, C>,
    seats: &mut [Seat<L, C>],
    pieces: &[Piece<'_>],
) -> bool {
    match seats {
        [one, two] => are_alike_on(rt, alloc, shared, one, two, pieces),
        _ => false,
    }
}
