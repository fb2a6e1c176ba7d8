//! What each command answers and tells, and when values end.
use crate::playing::first_wrong;
use crate::rows::{FIRST, OWN, PLAIN, Row, none_wrong};
use audit_model::{Config, RemovalCause, Weight};

/// Values weigh their bytes.
const BYTES: Config = Config {
    weight: Weight::Bytes,
    ..PLAIN
};

const REPLACED_AND_DELETED_VALUES_ARE_TOLD: &[Row<'static>] = &[
    Row::Opens(FIRST),
    Row::At(5),
    Row::Says(FIRST, b"SET key - one\n", b"OK\n"),
    Row::At(6),
    Row::Says(FIRST, b"SET key - two\n", b"OK\n"),
    Row::At(7),
    Row::Says(FIRST, b"DEL other\n", b"OK\n"),
    Row::At(8),
    Row::Says(FIRST, b"DEL key\n", b"OK\n"),
    Row::Tells(RemovalCause::Replaced, b"key", b"one"),
    Row::Tells(RemovalCause::Explicit, b"key", b"two"),
    Row::TellsNone,
    Row::Says(FIRST, b"SYNC\n", b"SYNC 0 0\n"),
];

const CLEAR_COVERS_WHAT_WAS_BEFORE_IT: &[Row<'static>] = &[
    Row::Opens(FIRST),
    Row::Says(FIRST, b"SET a - 1\nCLEAR\nGET a\n", b"OK\nOK\nNONE\n"),
    Row::TellsNone,
    Row::Says(FIRST, b"SET a - 2\nGET a\n", b"OK\nVAL 2\n"),
    Row::Tells(RemovalCause::Explicit, b"a", b"1"),
    Row::TellsNone,
];

const A_PREFIX_IS_DROPPED: &[Row<'static>] = &[
    Row::Opens(FIRST),
    Row::Says(
        FIRST,
        b"SET ab - 1\nSET b - 2\nDROPIF a\nSET ac - 3\nKEYS\n",
        b"OK\nOK\nOK\nOK\nKEYS 2\nac\nb\n",
    ),
    Row::Says(FIRST, b"SYNC\n", b"SYNC 2 2\n"),
    Row::Tells(RemovalCause::Explicit, b"ab", b"1"),
    Row::TellsNone,
];

const WHAT_IS_DROPPED_IS_TOLD_BY_A_SYNC: &[Row<'static>] = &[
    Row::Opens(FIRST),
    Row::Says(
        FIRST,
        b"SET ab - 1\nSET b - 2\nDROPIF a\nHAS ab\nHAS b\n",
        b"OK\nOK\nOK\nNO\nYES\n",
    ),
    Row::TellsNone,
    Row::Says(FIRST, b"SYNC\n", b"SYNC 1 1\n"),
    Row::Tells(RemovalCause::Explicit, b"ab", b"1"),
    Row::TellsNone,
];

const NUMBERS_ARE_ADDED: &[Row<'static>] = &[
    Row::Opens(FIRST),
    Row::Says(
        FIRST,
        b"ADD n - 2\nADD n - 3\nSET n - x\nADD n - 1\nGET n\nSET n - 18446744073709551615\nADD n - 1\n",
        b"VAL 2\nVAL 5\nOK\nERR number\nVAL x\nOK\nERR number\n",
    ),
];

const KEYS_STAND_IN_BYTE_ORDER: &[Row<'static>] = &[
    Row::Opens(FIRST),
    Row::Says(
        FIRST,
        b"KEYS\nSET b - 1\nSET a - 2\nSET B - 3\nSET aa - 4\nDEL b\nKEYS\n",
        b"KEYS 0\nOK\nOK\nOK\nOK\nOK\nKEYS 3\nB\na\naa\n",
    ),
];

const COMMANDS: &[(Config, &[Row<'static>])] = &[
    (BYTES, REPLACED_AND_DELETED_VALUES_ARE_TOLD),
    (PLAIN, CLEAR_COVERS_WHAT_WAS_BEFORE_IT),
    (PLAIN, A_PREFIX_IS_DROPPED),
    (BYTES, A_PREFIX_IS_DROPPED),
    (PLAIN, WHAT_IS_DROPPED_IS_TOLD_BY_A_SYNC),
    (PLAIN, NUMBERS_ARE_ADDED),
    (PLAIN, KEYS_STAND_IN_BYTE_ORDER),
];

#[test]
fn commands(rt: HostRuntime) {
    none_wrong(&rt, first_wrong(rt.alloc(), COMMANDS));
}

const IDLE: Config = Config {
    idle_ms: Some(7),
    ..PLAIN
};

const IDLE_VALUES_END: &[Row<'static>] = &[
    Row::Opens(FIRST),
    Row::Says(FIRST, b"SET a - 1\n", b"OK\n"),
    Row::At(6_999_999),
    Row::Says(FIRST, b"GET a\n", b"VAL 1\n"),
    Row::At(13_999_998),
    Row::Says(FIRST, b"GET a\n", b"VAL 1\n"),
    Row::At(20_999_997),
    Row::Says(FIRST, b"HAS a\n", b"YES\n"),
    Row::At(20_999_998),
    Row::Says(FIRST, b"GET a\n", b"NONE\n"),
    Row::Says(FIRST, b"SYNC\n", b"SYNC 0 0\n"),
    Row::Tells(RemovalCause::Expired, b"a", b"1"),
];

const LIVE: Config = Config {
    live_ms: Some(7),
    ..PLAIN
};

const LIVE_VALUES_END: &[Row<'static>] = &[
    Row::Opens(FIRST),
    Row::Says(FIRST, b"SET a - 1\n", b"OK\n"),
    Row::At(6_999_999),
    Row::Says(FIRST, b"GET a\n", b"VAL 1\n"),
    Row::Says(FIRST, b"SYNC\n", b"SYNC 1 1\n"),
    // a use does not prolong it
    Row::At(7_000_000),
    Row::Says(FIRST, b"GET a\n", b"NONE\n"),
    Row::Says(FIRST, b"SYNC\n", b"SYNC 0 0\n"),
    Row::Tells(RemovalCause::Expired, b"a", b"1"),
    Row::TellsNone,
];

const OWN_DEADLINES_END_VALUES: &[Row<'static>] = &[
    Row::Opens(FIRST),
    Row::Says(FIRST, b"SET a 1 x\n", b"OK\n"),
    Row::At(999_423),
    Row::Says(FIRST, b"GET a\n", b"VAL x\n"),
    Row::At(999_424),
    Row::Says(FIRST, b"GET a\n", b"NONE\n"),
    Row::Says(FIRST, b"SYNC\n", b"SYNC 1 1\n"),
    Row::TellsNone,
    Row::At(1_073_741_824),
    Row::Says(FIRST, b"SYNC\n", b"SYNC 0 0\n"),
    Row::Tells(RemovalCause::Expired, b"a", b"x"),
    Row::TellsNone,
];

const AN_EARLIER_MOMENT_IS_THE_LATEST_ONE: &[Row<'static>] = &[
    Row::Opens(FIRST),
    Row::At(2_000_000),
    Row::Says(FIRST, b"SET a 1 x\n", b"OK\n"),
    Row::At(0),
    Row::Says(FIRST, b"GET a\n", b"VAL x\n"),
    Row::At(2_998_272),
    Row::Says(FIRST, b"GET a\n", b"NONE\n"),
];

const OWN_AND_IDLE: Config = Config {
    idle_ms: Some(5),
    own_deadlines: true,
    ..PLAIN
};

// the earliest of the two ends a value
const A_VALUE_ENDS_AT_ITS_OWN_DEADLINE: &[Row<'static>] = &[
    Row::Opens(FIRST),
    Row::Says(FIRST, b"SET a 100 x\nSET a 5 y\n", b"OK\nOK\n"),
    Row::Tells(RemovalCause::Replaced, b"a", b"x"),
    Row::At(4_000_000),
    Row::Says(FIRST, b"GET a\n", b"VAL y\n"),
    Row::At(4_997_119),
    Row::Says(FIRST, b"GET a\n", b"VAL y\n"),
    Row::At(4_997_120),
    Row::Says(FIRST, b"GET a\n", b"NONE\n"),
];

const A_VALUE_HAS_NO_OWN_DEADLINE: &[Row<'static>] = &[
    Row::Opens(FIRST),
    Row::Says(FIRST, b"SET b - z\n", b"OK\n"),
    Row::At(4_999_999),
    Row::Says(FIRST, b"GET b\n", b"VAL z\n"),
    Row::At(9_999_998),
    Row::Says(FIRST, b"GET b\n", b"VAL z\n"),
    Row::At(14_999_997),
    Row::Says(FIRST, b"HAS b\n", b"YES\n"),
    Row::At(14_999_998),
    Row::Says(FIRST, b"GET b\n", b"NONE\n"),
];

const A_VALUE_ENDS_BY_IDLING: &[Row<'static>] = &[
    Row::Opens(FIRST),
    Row::Says(FIRST, b"SET c 100 w\n", b"OK\n"),
    Row::At(5_000_000),
    Row::Says(FIRST, b"GET c\n", b"NONE\n"),
];

const TIMES: &[(Config, &[Row<'static>])] = &[
    (IDLE, IDLE_VALUES_END),
    (LIVE, LIVE_VALUES_END),
    (OWN, OWN_DEADLINES_END_VALUES),
    (OWN, AN_EARLIER_MOMENT_IS_THE_LATEST_ONE),
    (OWN_AND_IDLE, A_VALUE_ENDS_AT_ITS_OWN_DEADLINE),
    (OWN_AND_IDLE, A_VALUE_HAS_NO_OWN_DEADLINE),
    (OWN_AND_IDLE, A_VALUE_ENDS_BY_IDLING),
];

#[test]
fn times(rt: HostRuntime) {
    none_wrong(&rt, first_wrong(rt.alloc(), TIMES));
}
