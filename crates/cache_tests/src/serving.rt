//! What lines are replied, whatever the cuts of their bytes.
use crate::playing::first_wrong;
use crate::rows::{Asked, FIRST, OWN, PLAIN, Row, SECOND, none_wrong};
use audit_model::{Closing, Config, RemovalCause, ServiceError};

const THE_FIRST_RUN: &[Row<'static>] = &[
    Row::Opens(FIRST),
    Row::Says(
        FIRST,
        b"SET a - 1\nGET a\nDEL a\nGET a\nSYNC\n",
        b"OK\nVAL 1\nOK\nNONE\nSYNC 0 0\n",
    ),
    Row::Tells(RemovalCause::Explicit, b"a", b"1"),
    Row::TellsNone,
];

const A_REPLACED_VALUE_IS_TOLD_ONCE: &[Row<'static>] = &[
    Row::Opens(FIRST),
    Row::Says(
        FIRST,
        b"SET a - 1\nSET a - 2\nSYNC\n",
        b"OK\nOK\nSYNC 1 1\n",
    ),
    Row::Tells(RemovalCause::Replaced, b"a", b"1"),
    Row::TellsNone,
];

const NOTHING_IS_DELETED: &[Row<'static>] = &[
    Row::Opens(FIRST),
    Row::Says(FIRST, b"DEL a\n", b"OK\n"),
    Row::TellsNone,
];

const NO_OWN_DEADLINES: &[Row<'static>] = &[
    Row::Opens(FIRST),
    Row::Says(FIRST, b"SET a 5 x\n", b"ERR deadline\n"),
    Row::Says(FIRST, b"GET a\n", b"NONE\n"),
];

const NOTHING_FOR_NOTHING: &[Row<'static>] = &[
    Row::Opens(FIRST),
    Row::Says(FIRST, b"", b""),
    Row::Closed(FIRST, None),
];

const LINES_IN_PIECES: &[Row<'static>] = &[
    Row::Opens(FIRST),
    Row::Says(FIRST, b"SET a - 1\nGE", b"OK\n"),
    Row::Says(FIRST, b"T a\nGET", b"VAL 1\n"),
    Row::Says(FIRST, b" b\n", b"NONE\n"),
];

const ONE_CARRIAGE_RETURN_GOES: &[Row<'static>] = &[
    Row::Opens(FIRST),
    Row::Says(FIRST, b"SET a - 1\r\nGET a\r\n", b"OK\nVAL 1\n"),
    Row::Says(FIRST, b"GET a\r\r\n", b"ERR syntax\n"),
];

const FAULTS_BY_THEIR_ORDER: &[Row<'static>] = &[
    Row::Opens(FIRST),
    Row::Says(
        FIRST,
        b"\nget a\nGET\nGET  a\nSET a -\nSET a - \nGET a\nSET a 5 x\nADD a - 1x\nload a\nLOAD\n",
        b"ERR command\nERR command\nERR syntax\nERR syntax\nERR syntax\nOK\nVAL \nERR deadline\nERR number\nERR command\nERR syntax\n",
    ),
    Row::Says(
        FIRST,
        b"GET a b\nSYNC now\nGET \xff\n",
        b"ERR syntax\nERR syntax\nERR syntax\n",
    ),
];

const THE_LONGEST_KEY: &[Row<'static>] = &[
    Row::Opens(FIRST),
    Row::Does(Asked::Feeds(FIRST, b"GET ")),
    Row::Does(Asked::Fills(FIRST, 250)),
    Row::Says(FIRST, b"\n", b"NONE\n"),
    Row::Does(Asked::Feeds(FIRST, b"GET ")),
    Row::Does(Asked::Fills(FIRST, 251)),
    Row::Says(FIRST, b"\n", b"ERR syntax\n"),
];

const DEADLINES_AND_NUMBERS_THAT_ARE_TOO_LONG: &[Row<'static>] = &[
    Row::Opens(FIRST),
    Row::Says(FIRST, b"SET a 1000000000000 x\n", b"ERR deadline\n"),
    Row::Says(FIRST, b"ADD n - 18446744073709551616\n", b"ERR number\n"),
    Row::Says(FIRST, b"ADD n - 000000000000000000001\n", b"ERR number\n"),
    Row::Says(FIRST, b"SET a 00 x\nGET a\n", b"OK\nNONE\n"),
];

const ENDS_OF_LINES: &[Row<'static>] = &[
    Row::Opens(FIRST),
    Row::Says(FIRST, b"SET a - x\r\r\n", b"ERR syntax\n"),
    Row::Says(FIRST, b"SET a - x\r\nGET a\n", b"OK\nVAL x\n"),
    Row::Says(FIRST, b"QUIT x\nCLEAR \n", b"ERR syntax\nERR syntax\n"),
    Row::Closed(FIRST, None),
];

// `SET a - ` and the value are the whole line
const THE_LONGEST_VALUE: &[Row<'static>] = &[
    Row::Opens(FIRST),
    Row::Does(Asked::Feeds(FIRST, b"SET a - ")),
    Row::Does(Asked::Fills(FIRST, 8184)),
    Row::Says(FIRST, b"\n", b"OK\n"),
    Row::Does(Asked::Feeds(FIRST, b"GET a\nSET a - ")),
    Row::OutputLong(FIRST, 8184),
    Row::Does(Asked::Fills(FIRST, 8185)),
    Row::Output(FIRST, b""),
    Row::Closed(FIRST, Some(Closing::Long)),
];

const THE_LONGEST_LINE: &[Row<'static>] = &[
    Row::Opens(FIRST),
    Row::Does(Asked::Fills(FIRST, 8192)),
    Row::Output(FIRST, b""),
    Row::Says(FIRST, b"\n", b"ERR command\n"),
    Row::Does(Asked::Fills(FIRST, 8192)),
    Row::Output(FIRST, b""),
    Row::Closed(FIRST, None),
    Row::Says(FIRST, b"x", b""),
    Row::Closed(FIRST, Some(Closing::Long)),
];

const LINES_BEFORE_ONE_TOO_LONG_ARE_REPLIED: &[Row<'static>] = &[
    Row::Opens(FIRST),
    Row::Does(Asked::Feeds(FIRST, b"SET a - 1\nGET a")),
    Row::Does(Asked::Feeds(FIRST, b"\n")),
    Row::Does(Asked::Fills(FIRST, 8193)),
    Row::Closed(FIRST, Some(Closing::Long)),
    Row::Output(FIRST, b"OK\nVAL 1\n"),
];

const CONNECTIONS_SHARE_VALUES_AND_NOT_REPLIES: &[Row<'static>] = &[
    Row::Opens(FIRST),
    Row::Opens(SECOND),
    Row::Says(FIRST, b"SET a - 1\n", b"OK\n"),
    Row::Does(Asked::Feeds(SECOND, b"GET a\n")),
    Row::Says(FIRST, b"", b""),
    Row::Output(SECOND, b"VAL 1\n"),
];

const QUIT_CLOSES: &[Row<'static>] = &[
    Row::Opens(FIRST),
    Row::Says(FIRST, b"QUIT\nGET a\n", b"OK\n"),
    Row::Closed(FIRST, Some(Closing::Quit)),
    Row::Refuses(Asked::Feeds(FIRST, b"GET a\n"), ServiceError::Closed),
];

const TABLES: &[(Config, &[Row<'static>])] = &[
    (PLAIN, THE_FIRST_RUN),
    (PLAIN, A_REPLACED_VALUE_IS_TOLD_ONCE),
    (PLAIN, NOTHING_IS_DELETED),
    (PLAIN, NO_OWN_DEADLINES),
    (PLAIN, NOTHING_FOR_NOTHING),
    (PLAIN, LINES_IN_PIECES),
    (PLAIN, ONE_CARRIAGE_RETURN_GOES),
    (PLAIN, FAULTS_BY_THEIR_ORDER),
    (OWN, THE_LONGEST_KEY),
    (OWN, DEADLINES_AND_NUMBERS_THAT_ARE_TOO_LONG),
    (OWN, ENDS_OF_LINES),
    (OWN, THE_LONGEST_VALUE),
    (PLAIN, THE_LONGEST_LINE),
    (PLAIN, LINES_BEFORE_ONE_TOO_LONG_ARE_REPLIED),
    (PLAIN, CONNECTIONS_SHARE_VALUES_AND_NOT_REPLIES),
    (PLAIN, QUIT_CLOSES),
];

#[test]
fn replies_of_lines(rt: HostRuntime) {
    none_wrong(&rt, first_wrong(rt.alloc(), TABLES));
}
