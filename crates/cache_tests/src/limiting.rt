//! What is kept within a capacity, and what leaves.
use crate::playing::first_wrong;
use crate::rows::{FIRST, PLAIN, Row, none_wrong};
use audit_model::{Config, EvictionPolicy, RemovalCause, Weight};

const TWO: Config = Config {
    capacity: Some(2),
    ..PLAIN
};

const THE_ONE_USED_LONGEST_AGO_LEAVES: &[Row<'static>] = &[
    Row::Opens(FIRST),
    Row::Says(
        FIRST,
        b"SET a - 1\nSYNC\nSET b - 2\nSYNC\nSET c - 3\nSYNC\nGET a\n",
        b"OK\nSYNC 1 1\nOK\nSYNC 2 2\nOK\nSYNC 2 2\nNONE\n",
    ),
    Row::Tells(RemovalCause::Size, b"a", b"1"),
    Row::TellsNone,
];

const A_LOOK_UP_IS_A_USE: &[Row<'static>] = &[
    Row::Opens(FIRST),
    Row::Says(
        FIRST,
        b"SET a - 1\nSYNC\nSET b - 2\nSYNC\nGET a\nSYNC\nSET c - 3\nSYNC\nKEYS\n",
        b"OK\nSYNC 1 1\nOK\nSYNC 2 2\nVAL 1\nSYNC 2 2\nOK\nSYNC 2 2\nKEYS 2\na\nc\n",
    ),
    Row::Tells(RemovalCause::Size, b"b", b"2"),
    Row::TellsNone,
];

// uses are applied before writes, so a use counts only behind a run
const A_USE_COUNTS_BEFORE_A_WRITE: &[Row<'static>] = &[
    Row::Opens(FIRST),
    Row::Says(
        FIRST,
        b"SET a - 1\nSET b - 2\nSYNC\nGET a\nSET c - 3\nSYNC\nGET b\n",
        b"OK\nOK\nSYNC 2 2\nVAL 1\nOK\nSYNC 2 2\nNONE\n",
    ),
    Row::Tells(RemovalCause::Size, b"b", b"2"),
    Row::TellsNone,
];

const TWO_WITH_DEADLINES: Config = Config {
    own_deadlines: true,
    ..TWO
};

// those that are covered or dead make room, and are told as such
const COVERED_AND_DEAD_VALUES_MAKE_ROOM: &[Row<'static>] = &[
    Row::Opens(FIRST),
    Row::Says(FIRST, b"SET a - 1\nCLEAR\nSET b 1 2\n", b"OK\nOK\nOK\n"),
    Row::At(1_073_741_824),
    Row::Says(
        FIRST,
        b"SET c - 3\nSET d - 4\nSYNC\n",
        b"OK\nOK\nSYNC 2 2\n",
    ),
    Row::Tells(RemovalCause::Explicit, b"a", b"1"),
    Row::Tells(RemovalCause::Expired, b"b", b"2"),
    Row::TellsNone,
    Row::Says(FIRST, b"KEYS\n", b"KEYS 2\nc\nd\n"),
];

const SIX_BYTES: Config = Config {
    capacity: Some(6),
    weight: Weight::Bytes,
    ..PLAIN
};

const WEIGHTS_ARE_BYTES: &[Row<'static>] = &[
    Row::Opens(FIRST),
    Row::Says(FIRST, b"SET a - one\nSET b - two\n", b"OK\nOK\n"),
    Row::TellsNone,
    // b weighs less now, and makes room for c
    Row::Says(FIRST, b"SET b - 2\nSET c - 33\n", b"OK\nOK\n"),
    Row::Tells(RemovalCause::Replaced, b"b", b"two"),
    Row::TellsNone,
    Row::Says(
        FIRST,
        b"SYNC\nSET d - 4444\nSYNC\n",
        b"SYNC 3 6\nOK\nSYNC 2 6\n",
    ),
    Row::Tells(RemovalCause::Size, b"a", b"one"),
    Row::Tells(RemovalCause::Size, b"b", b"2"),
    Row::TellsNone,
];

const THREE_BYTES: Config = Config {
    capacity: Some(3),
    ..SIX_BYTES
};

const A_VALUE_HEAVIER_THAN_ALL_LEAVES: &[Row<'static>] = &[
    Row::Opens(FIRST),
    Row::Says(
        FIRST,
        b"SET a - four\nSYNC\nGET a\n",
        b"OK\nSYNC 0 0\nNONE\n",
    ),
    Row::Tells(RemovalCause::Size, b"a", b"four"),
    Row::TellsNone,
];

const TWO_BY_FREQUENCY: Config = Config {
    policy: EvictionPolicy::TinyLfu,
    ..TWO
};

// a third key comes in place of the oldest only once it was asked for more often
const A_KEY_ASKED_FOR_MORE_OFTEN_COMES_IN: &[Row<'static>] = &[
    Row::Opens(FIRST),
    Row::Says(
        FIRST,
        b"SET a - 1\nSYNC\nSET b - 2\nSYNC\nSET c - 3\nSYNC\nGET c\n",
        b"OK\nSYNC 1 1\nOK\nSYNC 2 2\nOK\nSYNC 2 2\nNONE\n",
    ),
    Row::Says(
        FIRST,
        b"SET c - 3\nSYNC\nGET a\nGET c\n",
        b"OK\nSYNC 2 2\nNONE\nVAL 3\n",
    ),
    Row::Tells(RemovalCause::Size, b"c", b"3"),
    Row::Tells(RemovalCause::Size, b"a", b"1"),
    Row::TellsNone,
];

const TWELVE_BYTES: Config = Config {
    capacity: Some(12),
    policy: EvictionPolicy::TinyLfu,
    ..SIX_BYTES
};

// b is judged before a shrinks
const WRITES_ARE_JUDGED_IN_ORDER: &[Row<'static>] = &[
    Row::Opens(FIRST),
    Row::Says(
        FIRST,
        b"SET a - aaaaaaaaaa\nSYNC\nSET b - bbbbb\nSET a - c\nSYNC\n",
        b"OK\nSYNC 1 10\nOK\nOK\nSYNC 1 1\n",
    ),
    Row::Tells(RemovalCause::Replaced, b"a", b"aaaaaaaaaa"),
    Row::Tells(RemovalCause::Size, b"b", b"bbbbb"),
    Row::TellsNone,
];

const TABLES: &[(Config, &[Row<'static>])] = &[
    (TWO, THE_ONE_USED_LONGEST_AGO_LEAVES),
    (TWO, A_LOOK_UP_IS_A_USE),
    (TWO, A_USE_COUNTS_BEFORE_A_WRITE),
    (TWO_WITH_DEADLINES, COVERED_AND_DEAD_VALUES_MAKE_ROOM),
    (SIX_BYTES, WEIGHTS_ARE_BYTES),
    (THREE_BYTES, A_VALUE_HEAVIER_THAN_ALL_LEAVES),
    (TWO_BY_FREQUENCY, A_KEY_ASKED_FOR_MORE_OFTEN_COMES_IN),
    (TWELVE_BYTES, WRITES_ARE_JUDGED_IN_ORDER),
];

#[test]
fn limits(rt: HostRuntime) {
    none_wrong(&rt, first_wrong(rt.alloc(), TABLES));
}
