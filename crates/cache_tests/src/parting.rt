//! What a service of several parts answers and tells.
use crate::playing::first_wrong;
use crate::rows::{FIRST, PLAIN, Row, none_wrong};
use audit_model::{Config, RemovalCause};

// three wanted parts become four
const THREE: Config = Config { parts: 3, ..PLAIN };

const MOST: Config = Config {
    parts: 256,
    ..PLAIN
};

// each part has room for one
const ONE_EACH: Config = Config {
    capacity: Some(4),
    parts: 4,
    ..PLAIN
};

// with one allocation refused, a `DROPIF` is held and then runs in all parts
const A_PREFIX_IS_DROPPED_IN_ALL_PARTS: &[Row<'static>] = &[
    Row::Opens(FIRST),
    Row::Says(
        FIRST,
        b"SET aa - 1\nSET ab - 1\nSET ac - 1\nSET ad - 1\nSET ae - 1\nSET af - 1\nSET ag - 1\nSET b - 1\n",
        b"OK\nOK\nOK\nOK\nOK\nOK\nOK\nOK\n",
    ),
    Row::Says(FIRST, b"DROPIF a\n", b"OK\n"),
    Row::Says(FIRST, b"GET ab\nKEYS\n", b"NONE\nKEYS 1\nb\n"),
    Row::Says(FIRST, b"DROPIF b\nSYNC\n", b"OK\nSYNC 0 0\n"),
];

// what one part answers, several do
const COMMANDS_ANSWER_AS_OF_ONE_PART: &[Row<'static>] = &[
    Row::Opens(FIRST),
    Row::Says(
        FIRST,
        b"SET ab - 1\nSET b - 2\nDROPIF a\nSET ac - 3\nKEYS\n",
        b"OK\nOK\nOK\nOK\nKEYS 2\nac\nb\n",
    ),
    Row::Says(
        FIRST,
        b"ADD n - 2\nADD n - 3\nDEL n\nGET n\nSYNC\n",
        b"VAL 2\nVAL 5\nOK\nNONE\nSYNC 2 2\n",
    ),
    Row::Tells(RemovalCause::Replaced, b"n", b"2"),
    Row::Tells(RemovalCause::Explicit, b"n", b"5"),
    Row::Tells(RemovalCause::Explicit, b"ab", b"1"),
    Row::TellsNone,
    Row::Says(FIRST, b"CLEAR\nSYNC\n", b"OK\nSYNC 0 0\n"),
];

// a key's part has room for one value, and holds the one written last
const A_PART_IS_WITHIN_ITS_SHARE: &[Row<'static>] = &[
    Row::Opens(FIRST),
    Row::Says(
        FIRST,
        b"SET a - 1\nSET a - 2\nGET a\nSYNC\n",
        b"OK\nOK\nVAL 2\nSYNC 1 1\n",
    ),
    Row::Tells(RemovalCause::Replaced, b"a", b"1"),
    Row::TellsNone,
];

const TABLES: &[(Config, &[Row<'static>])] = &[
    (THREE, A_PREFIX_IS_DROPPED_IN_ALL_PARTS),
    (MOST, A_PREFIX_IS_DROPPED_IN_ALL_PARTS),
    (PLAIN, COMMANDS_ANSWER_AS_OF_ONE_PART),
    (THREE, COMMANDS_ANSWER_AS_OF_ONE_PART),
    (MOST, COMMANDS_ANSWER_AS_OF_ONE_PART),
    (ONE_EACH, A_PART_IS_WITHIN_ITS_SHARE),
];

#[test]
fn parts(rt: HostRuntime) {
    none_wrong(&rt, first_wrong(rt.alloc(), TABLES));
}
