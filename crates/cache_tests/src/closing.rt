//! Many connections, of which some close: each is found, and of each that closed it is known why.
use crate::playing::first_wrong;
use crate::rows::{Asked, FIRST, PLAIN, Row, SECOND, Way, none_wrong};
use audit_model::{Closing, Config, Conn, ServiceError};

/// So many are opened where some stay open between those that close.
const SOME: u64 = 60;

/// As many as there are guesses, and one more.
const MANY: u64 = 4_097;

const LATER: Conn = Conn {
    namespace: 0,
    number: MANY,
};

const ASKS: Way<'static> = Way::Says(b"GET a\n", b"NONE\n");

const QUITS: Way<'static> = Way::Says(b"QUIT\n", b"OK\n");

const IS_OPEN: Way<'static> = Way::Closed(None);

const HAS_QUIT: Way<'static> = Way::Closed(Some(Closing::Quit));

const WAS_CLOSED: Way<'static> = Way::Closed(Some(Closing::Asked));

const WAS_LONG: Way<'static> = Way::Closed(Some(Closing::Long));

const WAITS: Way<'static> = Way::Says(b"LOAD k\n", b"");

const WAS_BEHIND: Way<'static> = Way::Closed(Some(Closing::Behind));

const CAUSES_BESIDE_OPEN_CONNECTIONS: &[Row<'static>] = &[
    Row::OpensAll(SOME),
    Row::EachFifth(0, SOME, QUITS),
    Row::EachFifth(1, SOME, Way::Closes),
    Row::EachFifth(2, SOME, Way::Fills(8193)),
    Row::EachFifth(0, SOME, HAS_QUIT),
    Row::EachFifth(1, SOME, WAS_CLOSED),
    Row::EachFifth(2, SOME, WAS_LONG),
    Row::EachFifth(3, SOME, IS_OPEN),
    Row::EachFifth(4, SOME, ASKS),
    Row::EachFifth(3, SOME, Way::Fills(8193)),
    Row::EachFifth(2, SOME, WAS_LONG),
    Row::EachFifth(3, SOME, WAS_LONG),
    Row::EachFifth(4, SOME, WAITS),
    Row::EachFifth(4, SOME, Way::Fills(8193)),
    Row::EachFifth(0, SOME, HAS_QUIT),
    Row::EachFifth(1, SOME, WAS_CLOSED),
    Row::EachFifth(2, SOME, WAS_LONG),
    Row::EachFifth(3, SOME, WAS_LONG),
    Row::EachFifth(4, SOME, WAS_BEHIND),
    Row::Refuses(Asked::Feeds(FIRST, b"GET a\n"), ServiceError::Closed),
    Row::Refuses(Asked::Closes(SECOND), ServiceError::Closed),
];

const ALL_QUIT: &[Row<'static>] = &[
    Row::OpensAll(SOME),
    Row::EachFifth(2, SOME, QUITS),
    Row::EachFifth(4, SOME, ASKS),
    Row::EachFifth(4, SOME, QUITS),
    Row::EachFifth(3, SOME, ASKS),
    Row::EachFifth(3, SOME, QUITS),
    Row::EachFifth(1, SOME, ASKS),
    Row::EachFifth(0, SOME, QUITS),
    Row::EachFifth(0, SOME, HAS_QUIT),
    Row::EachFifth(1, SOME, IS_OPEN),
    Row::EachFifth(2, SOME, HAS_QUIT),
    Row::EachFifth(3, SOME, HAS_QUIT),
    Row::EachFifth(4, SOME, HAS_QUIT),
    Row::EachFifth(1, SOME, QUITS),
    Row::EachFifth(1, SOME, HAS_QUIT),
    Row::EachFifth(2, SOME, HAS_QUIT),
];

// a guess at the place of one is also taken for the one so far behind it
const GUESSES_ARE_SHARED: &[Row<'static>] = &[
    Row::OpensAll(MANY),
    Row::Says(FIRST, b"SET a - 1\n", b"OK\n"),
    Row::Says(LATER, b"GET a\n", b"VAL 1\n"),
    Row::Says(FIRST, b"QUIT\n", b"OK\n"),
    Row::Closed(LATER, None),
    Row::Says(LATER, b"GET a\n", b"VAL 1\n"),
    Row::Closed(FIRST, Some(Closing::Quit)),
];

const TABLES: &[(Config, &[Row<'static>])] = &[
    (PLAIN, CAUSES_BESIDE_OPEN_CONNECTIONS),
    (PLAIN, ALL_QUIT),
    (PLAIN, GUESSES_ARE_SHARED),
];

#[test]
fn closings(rt: HostRuntime) {
    none_wrong(&rt, first_wrong(rt.alloc(), TABLES));
}
