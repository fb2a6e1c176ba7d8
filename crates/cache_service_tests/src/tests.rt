//! What has to come of plays.
use crate::crews::{Crew, Script, Talk};
use crate::hosting::Visit;
use crate::lending::Piece;
use crate::loaders::Hold;
use crate::plays::{Live, Seated, over_live, over_recorded};
use crate::serving::Row;
use audit_model::{Closing, ServiceError};
use cache_run::RunError;
use std::alloc::Global;
use std::net::{Net, TcpListener, TcpStream};
use std::sync::Wait;
use std::test::*;
use std::thread::Threads;
use std::time::Clock;

/// One connection that sends nothing beside one that loads, with room for all that is written.
const ALONE: Row<'static> = Row {
    texts: (b"", b""),
    hold: Hold::Not,
    room: 1000,
    replies: (b"", b""),
    ended: Ok(()),
    asked: 0,
    closing: None,
    counts: None,
};

const ROWS: &[Row<'static>] = &[
    // Each outcome is told. The last load finds a value.
    Row {
        texts: (b"LOAD k\nLOAD n\nLOAD f\nGET k\nGET n\nLOAD k\nQUIT\n", b""),
        replies: (b"VAL v\nNONE\nERR load down\nVAL v\nNONE\nVAL v\nOK\n", b""),
        asked: 3,
        ..ALONE
    },
    // A value with a line end is given up.
    Row {
        texts: (b"LOAD b\n", b""),
        replies: (b"VAL v\n", b""),
        asked: 2,
        ..ALONE
    },
    // More lines than are handed in at once, and one behind the closing.
    Row {
        texts: (
            b"GET a\nGET a\nGET a\nGET a\nGET a\nGET a\nGET a\nGET a\nGET a\nGET a\nGET a\nGET a\nGET a\nGET a\nGET a\nGET a\nGET a\nQUIT\nGET a\n",
            b"",
        ),
        replies: (
            b"NONE\nNONE\nNONE\nNONE\nNONE\nNONE\nNONE\nNONE\nNONE\nNONE\nNONE\nNONE\nNONE\nNONE\nNONE\nNONE\nNONE\nOK\n",
            b"",
        ),
        ..ALONE
    },
    // A loader always asks for a give-up.
    Row {
        texts: (b"LOAD g\n", b""),
        replies: (b"ERR abandoned\n", b""),
        asked: 200,
        ..ALONE
    },
    // Others are served while a loader is asked.
    Row {
        texts: (b"LOAD k\nQUIT\n", b"SET a - 1\nGET a\n"),
        hold: Hold::UntilAnswered,
        replies: (b"VAL v\nOK\n", b"OK\nVAL 1\n"),
        asked: 1,
        ..ALONE
    },
    // One load answers both.
    Row {
        texts: (b"LOAD k\nGET k\nQUIT\n", b"LOAD k\nQUIT\n"),
        hold: Hold::UntilBothWait,
        replies: (b"VAL v\nVAL v\nOK\n", b"VAL v\nOK\n"),
        asked: 1,
        ..ALONE
    },
    // A writer fails with a load open, whose loader has an answer; the other connection goes on.
    Row {
        texts: (b"GET a\nLOAD k\n", b"SET b - 1\nGET b\n"),
        room: 0,
        replies: (b"", b"OK\nVAL 1\n"),
        ended: Err(RunError::Write),
        asked: 1,
        closing: Some(Closing::Asked),
        ..ALONE
    },
    // The same, with a loader that asks for a give-up.
    Row {
        texts: (b"GET a\nLOAD g\n", b"SET b - 1\nGET b\n"),
        room: 0,
        replies: (b"", b"OK\nVAL 1\n"),
        ended: Err(RunError::Write),
        asked: 1,
        closing: Some(Closing::Asked),
        ..ALONE
    },
];

/// Whether a play comes out so over a service that keeps no journal, at the second try where memory is refused.
pub fn is_so<R>(rt: R, alloc: Global, parts: u64, play: Live<'_>) -> bool
where
    R: Net<Listener = TcpListener, Stream = TcpStream>
        + Threads
        + Wait
        + Clock
        + Copy
        + Send
        + Sync
        + 'static,
{
    over_live(rt, alloc, parts, play) || over_live(rt, alloc, parts, play)
}

/// The place of the first row that does not come out so.
fn first_wrong<R>(rt: R, alloc: Global) -> Option<usize>
where
    R: Net<Listener = TcpListener, Stream = TcpStream>
        + Threads
        + Wait
        + Clock
        + Copy
        + Send
        + Sync
        + 'static,
{
    for (place, row) in ROWS.iter().enumerate() {
        if !is_so(rt, alloc, 3, Live::Serve(row)) {
            return Some(place);
        }
    }
    None
}

#[test]
fn two_connections_that_load(rt: HostRuntime) {
    assert_eq!(rt; first_wrong(rt, rt.alloc()), None);
}

/// Two connections of which one quits.
const QUITTING: Row<'static> = Row {
    texts: (
        b"SET a - 1\nGET a\nSET a - 2\nGET a\n",
        b"SET b - 1\nGET b\nQUIT\nGET b\n",
    ),
    replies: (b"OK\nVAL 1\nOK\nVAL 2\n", b"OK\nVAL 1\nOK\n"),
    counts: Some((3, 2)),
    ..ALONE
};

/// Whether a play comes out so over a service that keeps its journal, at the second try where memory is refused.
fn is_recorded_so<R: Threads + Wait + Clock + Sync>(
    rt: &R,
    alloc: Global,
    parts: u64,
    play: Seated<'_>,
) -> bool {
    over_recorded(rt, alloc, parts, play) == Some(true)
        || over_recorded(rt, alloc, parts, play) == Some(true)
}

#[test]
fn two_connections_are_recorded(rt: HostRuntime) {
    assert!(rt; is_recorded_so(&rt, rt.alloc(), 3, Seated::Serve(&QUITTING)));
}

#[test]
fn one_awaits_what_another_answers(rt: HostRuntime) {
    assert!(rt; is_so(rt, rt.alloc(), 3, Live::Await));
}

/// A piece that is taken.
const TAKEN: Piece<'static> = Piece {
    text: b"",
    moment: 0,
    refused: None,
    replies: b"",
    closing: None,
    waits: false,
};

/// Pieces that end in a line, that are empty, that come too late, that close, and that come behind the closing.
const CLOSING: &[Piece<'static>] = &[
    Piece {
        text: b"SET a - 1\nGET a\nGE",
        replies: b"OK\nVAL 1\n",
        ..TAKEN
    },
    TAKEN,
    Piece {
        text: b"T a\n",
        replies: b"VAL 1\n",
        ..TAKEN
    },
    Piece {
        text: b"GET a\n",
        moment: 1 << 63,
        refused: Some(ServiceError::Moment),
        ..TAKEN
    },
    Piece {
        text: b"QUIT\nGET a\n",
        replies: b"OK\n",
        closing: Some(Closing::Quit),
        ..TAKEN
    },
    Piece {
        text: b"GET a\n",
        refused: Some(ServiceError::Closed),
        ..TAKEN
    },
];

/// One behind which the connection waits for a load.
const WAITING: &[Piece<'static>] = &[
    Piece {
        text: b"LOAD k\n",
        waits: true,
        ..TAKEN
    },
    Piece {
        text: b"GET a\n",
        waits: true,
        ..TAKEN
    },
];

/// Whether each of these pieces comes out so, lent and moved in.
fn is_lent_so<R>(rt: R, alloc: Global, pieces: &[Piece<'_>]) -> bool
where
    R: Net<Listener = TcpListener, Stream = TcpStream>
        + Threads
        + Wait
        + Clock
        + Copy
        + Send
        + Sync
        + 'static,
{
    is_so(rt, alloc, 2, Live::Lend(pieces)) && is_recorded_so(&rt, alloc, 2, Seated::Lend(pieces))
}

#[test]
fn a_lent_piece_does_what_a_feed_does(rt: HostRuntime) {
    assert!(rt; is_lent_so(rt, rt.alloc(), CLOSING) && is_lent_so(rt, rt.alloc(), WAITING));
}

/// One client after another, of whose values one is replaced.
const CLIENTS: Visit<'static> = Visit {
    texts: (
        b"SET a - 1\nGET a\nSET a - 2\nQUIT\n",
        b"GET a\nGET b\nQUIT\n",
    ),
    reads: 1000,
    blocks: true,
    limit: Some(2),
    replies: (b"OK\nVAL 1\nOK\nOK\n", b"VAL 2\nNONE\nOK\n"),
    is_early: false,
    events: 4,
    told: 1,
};

/// A failed accept waits for a connection to end. The host goes on until nobody is connected.
const PAST_FAILURES: Visit<'static> = Visit {
    texts: (b"SET a - 1\n", b"GET a\n"),
    reads: 1,
    blocks: false,
    limit: None,
    replies: (b"OK\n", b"VAL 1\n"),
    is_early: true,
    events: 4,
    told: 0,
};

#[test]
fn two_clients(rt: HostRuntime) {
    assert!(rt; is_so(rt, rt.alloc(), 5, Live::Host(&CLIENTS)));
}

#[test]
fn a_failed_accept_waits_for_a_connection_to_end(rt: HostRuntime) {
    assert!(rt; is_so(rt, rt.alloc(), 5, Live::Host(&PAST_FAILURES)));
}

/// Five values, each of which is read back.
const FIVE: &[Talk<'static>] = &[
    (b"SET # - 1\n", Some(b"OK\n")),
    (b"GET #\n", Some(b"VAL 1\n")),
    (b"SET # - 2\n", Some(b"OK\n")),
    (b"GET #\n", Some(b"VAL 2\n")),
    (b"SET # - 3\n", Some(b"OK\n")),
    (b"GET #\n", Some(b"VAL 3\n")),
    (b"SET # - 4\n", Some(b"OK\n")),
    (b"GET #\n", Some(b"VAL 4\n")),
    (b"SET # - 5\n", Some(b"OK\n")),
    (b"GET #\n", Some(b"VAL 5\n")),
];

/// A `SET` and a `GET` in two feeds, 25 times, between an open and a close.
const BUSY: Script<'static> = Script {
    key: b'a',
    talks: FIVE,
    times: 5,
    closes: true,
    count: 52,
};

/// One feed behind an open.
const BRIEF: Script<'static> = Script {
    key: b'a',
    talks: &[(b"SET # - 1\n", Some(b"OK\n"))],
    times: 1,
    closes: false,
    count: 2,
};

/// Nothing.
const IDLE: Script<'static> = Script {
    key: b'a',
    talks: &[],
    times: 0,
    closes: false,
    count: 0,
};

/// Four threads with a key each.
const FOUR: Crew<'static> = [
    BUSY,
    Script { key: b'b', ..BUSY },
    Script { key: b'c', ..BUSY },
    Script { key: b'd', ..BUSY },
];

/// Two threads that each open a connection and feed it; whether the second finds the value of the first is open.
const TWO: Crew<'static> = [
    BRIEF,
    Script {
        talks: &[(b"GET #\n", None)],
        ..BRIEF
    },
    IDLE,
    IDLE,
];

/// Four threads are recorded, also where the ledger has spare parts; without a part there is no seat.
#[test]
fn four_threads_are_recorded(rt: HostRuntime) {
    let four = Seated::Crew(&FOUR, 208);
    assert!(rt;
        is_recorded_so(&rt, rt.alloc(), 4, four)
            && is_recorded_so(&rt, rt.alloc(), 9, four)
            && !is_recorded_so(&rt, rt.alloc(), 3, four)
    );
}

#[test]
fn receipts_of_two_threads(rt: HostRuntime) {
    assert!(rt; is_recorded_so(&rt, rt.alloc(), 4, Seated::Crew(&TWO, 4)));
}

/// An open, a `SET`, a `GET` and a close.
const ONCE: Script<'static> = Script {
    talks: &[
        (b"SET # - 1\n", Some(b"OK\n")),
        (b"GET #\n", Some(b"VAL 1\n")),
    ],
    times: 1,
    count: 4,
    ..BUSY
};

/// Whether a script comes out so at the first try, unless the service cannot be made.
fn is_at_once<R: Threads + Wait + Clock + Sync>(
    rt: &R,
    alloc: Global,
    script: &Script<'_>,
) -> bool {
    match over_recorded(rt, alloc, 1, Seated::One(script)) {
        Some(is_so) => is_so,
        None => over_recorded(rt, alloc, 1, Seated::One(script)) == Some(true),
    }
}

/// `tools/refuse_allocations.py` runs this with each allocation refused in turn. Only the service itself is had at a second try.
#[test]
fn refused_memory_leaves_all_as_it_was(rt: HostRuntime) {
    assert!(rt; is_at_once(&rt, rt.alloc(), &ONCE));
}
