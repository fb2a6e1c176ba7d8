//! Connections that wait for loads: answers, give-ups, and what stands behind a `LOAD`.
use crate::playing::{first_wrong_at_last, wrong_row};
use crate::rows::{
    Asked, Case, FIRST, FIRST_LOAD, Given, LATE, PLAIN, Row, SECOND, SECOND_LOAD, THIRD,
    no_row_wrong, none_wrong,
};
use audit_model::{Closing, Config, Conn, LoadId, RemovalCause, ServiceError, Weight};
use std::alloc::Global;

/// An answer of the first load.
const VALUE: Asked<'static> = Asked::Answers(FIRST_LOAD, Given::Value(b"v", None));

/// An answer of the second load.
const NEXT_VALUE: Asked<'static> = Asked::Answers(SECOND_LOAD, Given::Value(b"v", None));

const THIRD_LOAD: LoadId = LoadId {
    namespace: 0,
    number: 3,
};

const FOURTH_LOAD: LoadId = LoadId {
    namespace: 0,
    number: 4,
};

const ONE_LOAD_FOR_TWO: &[Row<'static>] = &[
    Row::Opens(FIRST),
    Row::Opens(SECOND),
    Row::Says(FIRST, b"LOAD k\n", b""),
    Row::Says(SECOND, b"LOAD k\n", b""),
    Row::Waits(FIRST, true),
    Row::Waits(SECOND, true),
    Row::LoadsOpen(0, 1),
    Row::Sends(0, &[(FIRST_LOAD, b"k")]),
    Row::Sends(0, &[]),
    Row::Does(VALUE),
    Row::Output(FIRST, b"VAL v\n"),
    Row::Output(SECOND, b"VAL v\n"),
    Row::Waits(FIRST, false),
    Row::LoadsOpen(0, 0),
    Row::Says(FIRST, b"GET k\n", b"VAL v\n"),
    Row::Refuses(
        Asked::Answers(FIRST_LOAD, Given::Nothing),
        ServiceError::NoLoad,
    ),
];

const GIVEN_UP_AND_ANSWERED: &[Row<'static>] = &[
    Row::Opens(FIRST),
    Row::Opens(SECOND),
    Row::Says(FIRST, b"LOAD k\n", b""),
    Row::Says(SECOND, b"LOAD k\n", b""),
    Row::Sends(0, &[(FIRST_LOAD, b"k")]),
    Row::Does(Asked::GivesUp(FIRST_LOAD)),
    Row::Refuses(Asked::GivesUp(FIRST_LOAD), ServiceError::NoLoad),
    Row::Sends(0, &[(SECOND_LOAD, b"k")]),
    Row::LoadsOpen(0, 1),
    Row::Does(NEXT_VALUE),
    Row::Output(FIRST, b"VAL v\n"),
    Row::Output(SECOND, b"VAL v\n"),
];

const A_DELETED_KEY_IS_LOADED: &[Row<'static>] = &[
    Row::Opens(FIRST),
    Row::Opens(SECOND),
    Row::Says(FIRST, b"LOAD k\n", b""),
    Row::Says(SECOND, b"DEL k\n", b"OK\n"),
    Row::Does(VALUE),
    Row::Output(FIRST, b"VAL v\n"),
    Row::Says(SECOND, b"GET k\n", b"VAL v\n"),
];

const LINES_BEHIND_RUN_IN_ORDER: &[Row<'static>] = &[
    Row::Opens(FIRST),
    Row::Opens(SECOND),
    Row::Says(FIRST, b"LOAD k\nGET k\n", b""),
    Row::Says(SECOND, b"LOAD k\nDEL k\nLOAD k\n", b""),
    Row::Says(FIRST, b"GET a\n", b""),
    Row::Does(VALUE),
    Row::Output(FIRST, b"VAL v\nVAL v\nNONE\n"),
    Row::Output(SECOND, b"VAL v\nOK\n"),
    Row::Sends(0, &[(FIRST_LOAD, b"k"), (SECOND_LOAD, b"k")]),
    Row::Waits(SECOND, true),
];

const EACH_IS_TOLD_AND_READS_ON: &[Row<'static>] = &[
    Row::Opens(FIRST),
    Row::Opens(SECOND),
    Row::Says(FIRST, b"LOAD k\nHAS k\n", b""),
    Row::Says(SECOND, b"LOAD k\nHAS k\n", b""),
    Row::Does(Asked::Answers(FIRST_LOAD, Given::Fault(b"down"))),
    Row::Output(FIRST, b"ERR load down\nNO\n"),
    Row::Output(SECOND, b"ERR load down\nNO\n"),
    Row::Says(FIRST, b"LOAD k\nHAS k\n", b""),
    Row::Says(SECOND, b"LOAD k\nHAS k\n", b""),
    Row::Does(Asked::Answers(SECOND_LOAD, Given::Nothing)),
    Row::Output(FIRST, b"NONE\nNO\n"),
    Row::Output(SECOND, b"NONE\nNO\n"),
    Row::Says(FIRST, b"LOAD k\nHAS k\n", b""),
    Row::Says(SECOND, b"LOAD k\nHAS k\n", b""),
    Row::Refuses(
        Asked::Answers(FOURTH_LOAD, Given::Value(b"v", None)),
        ServiceError::NoLoad,
    ),
    Row::Output(FIRST, b""),
    Row::Does(Asked::Answers(THIRD_LOAD, Given::Value(b"v", None))),
    Row::Output(FIRST, b"VAL v\nYES\n"),
    Row::Output(SECOND, b"VAL v\nYES\n"),
];

const OFF: Config = Config {
    capacity: Some(0),
    ..PLAIN
};

const NOTHING_IS_KEPT: &[Row<'static>] = &[
    Row::Opens(FIRST),
    Row::Opens(SECOND),
    Row::Says(
        FIRST,
        b"SET a - 1\nGET a\nSYNC\nLOAD k\n",
        b"OFF\nNONE\nSYNC 0 0\n",
    ),
    Row::TellsNone,
    Row::Says(SECOND, b"LOAD k\nHAS k\n", b""),
    Row::Does(VALUE),
    Row::Says(FIRST, b"GET k\n", b"VAL v\nNONE\n"),
    Row::Output(SECOND, b"VAL v\nNO\n"),
    Row::Says(FIRST, b"DEL a\nSYNC\n", b"OK\nSYNC 0 0\n"),
    Row::TellsNone,
];

const OUTCOMES_THAT_ARE_REFUSED: &[Row<'static>] = &[
    Row::Opens(FIRST),
    Row::Says(FIRST, b"LOAD k\n", b""),
    Row::Refuses(
        Asked::Answers(FIRST_LOAD, Given::Value(b"x\ny", None)),
        ServiceError::LineEnd,
    ),
    Row::At(LATE),
    Row::Refuses(Asked::GivesUp(FIRST_LOAD), ServiceError::Moment),
    Row::Refuses(
        Asked::Answers(FIRST_LOAD, Given::Nothing),
        ServiceError::Moment,
    ),
    Row::At(0),
    Row::Refuses(
        Asked::Answers(FIRST_LOAD, Given::Value(b"v", Some(1))),
        ServiceError::Deadline,
    ),
    Row::Refuses(
        Asked::Answers(FIRST_LOAD, Given::Long(8193)),
        ServiceError::TooLong,
    ),
    Row::LoadsOpen(0, 1),
    Row::Does(Asked::Answers(FIRST_LOAD, Given::Fault(b"down"))),
    Row::Output(FIRST, b"ERR load down\n"),
    Row::Says(FIRST, b"QUIT\nGET a\n", b"OK\n"),
    Row::Closed(FIRST, Some(Closing::Quit)),
];

const BYTES: Config = Config {
    weight: Weight::Bytes,
    ..PLAIN
};

const THE_LONGEST_OUTCOME: &[Row<'static>] = &[
    Row::Opens(FIRST),
    Row::Says(FIRST, b"LOAD k\n", b""),
    Row::Does(Asked::Answers(FIRST_LOAD, Given::Long(8192))),
    Row::OutputLong(FIRST, 8192),
    Row::Says(FIRST, b"SYNC\n", b"SYNC 1 8192\n"),
];

const THE_200TH: LoadId = LoadId {
    namespace: 0,
    number: 200,
};

const THE_300TH: LoadId = LoadId {
    namespace: 0,
    number: 300,
};

const THE_301ST: LoadId = LoadId {
    namespace: 0,
    number: 301,
};

const THE_200TH_GIVE_UP_OF_EACH: &[Row<'static>] = &[
    Row::Opens(FIRST),
    Row::Opens(SECOND),
    Row::Says(FIRST, b"LOAD k\n", b""),
    Row::GivesUpEach(1, 101),
    Row::Says(SECOND, b"LOAD k\n", b""),
    Row::Output(FIRST, b""),
    Row::GivesUpEach(101, 200),
    Row::Sends(0, &[(THE_200TH, b"k")]),
    Row::Does(Asked::GivesUp(THE_200TH)),
    Row::Output(FIRST, b"ERR abandoned\n"),
    Row::Output(SECOND, b""),
    Row::GivesUpEach(201, 300),
    Row::Sends(0, &[(THE_300TH, b"k")]),
    Row::Does(Asked::GivesUp(THE_300TH)),
    Row::Output(FIRST, b""),
    Row::Output(SECOND, b"ERR abandoned\n"),
    Row::LoadsOpen(0, 0),
    Row::Says(FIRST, b"LOAD k\n", b""),
    Row::Sends(0, &[(THE_301ST, b"k")]),
];

const BYTES_BEHIND_A_LOAD: &[Row<'static>] = &[
    Row::Opens(FIRST),
    Row::Opens(SECOND),
    Row::Says(FIRST, b"LOAD k\n", b""),
    Row::Says(SECOND, b"LOAD k\n", b""),
    Row::Does(Asked::Fills(FIRST, 8192)),
    Row::Closed(FIRST, None),
    Row::Does(Asked::Fills(SECOND, 8192)),
    Row::Does(Asked::Fills(SECOND, 1)),
    Row::Closed(SECOND, Some(Closing::Behind)),
    Row::LoadsOpen(0, 1),
    Row::Does(Asked::Answers(FIRST_LOAD, Given::Nothing)),
    Row::Output(FIRST, b"NONE\n"),
    Row::Output(SECOND, b""),
    Row::Closed(FIRST, None),
];

const A_LOAD_OUTLIVES_ITS_CONNECTION: &[Row<'static>] = &[
    Row::Opens(FIRST),
    Row::Opens(SECOND),
    Row::Says(FIRST, b"LOAD k\n", b""),
    Row::Does(Asked::Closes(FIRST)),
    Row::LoadsOpen(0, 1),
    Row::Says(SECOND, b"LOAD k\n", b""),
    Row::Sends(0, &[(FIRST_LOAD, b"k")]),
    Row::Does(VALUE),
    Row::Output(FIRST, b""),
    Row::Output(SECOND, b"VAL v\n"),
    Row::Says(SECOND, b"LOAD l\n", b""),
    Row::Does(Asked::Closes(SECOND)),
    Row::Does(Asked::GivesUp(SECOND_LOAD)),
    Row::LoadsOpen(0, 0),
    Row::Refuses(Asked::GivesUp(SECOND_LOAD), ServiceError::NoLoad),
];

const A_CLOSED_CONNECTION_LEAVES_ITS_LOAD: &[Row<'static>] = &[
    Row::Opens(FIRST),
    Row::Opens(SECOND),
    Row::Says(FIRST, b"LOAD k\n", b""),
    Row::Says(SECOND, b"LOAD k\n", b""),
    Row::Does(Asked::Closes(FIRST)),
    Row::LoadsOpen(0, 1),
    Row::Waits(SECOND, true),
    Row::Does(Asked::Answers(FIRST_LOAD, Given::Nothing)),
    Row::Refuses(
        Asked::Answers(FIRST_LOAD, Given::Nothing),
        ServiceError::NoLoad,
    ),
    Row::Output(FIRST, b""),
    Row::Output(SECOND, b"NONE\n"),
    Row::Says(SECOND, b"LOAD k\n", b""),
    Row::Sends(0, &[(FIRST_LOAD, b"k"), (SECOND_LOAD, b"k")]),
];

const LOADS_SETTLE_IN_ANY_ORDER: &[Row<'static>] = &[
    Row::Opens(FIRST),
    Row::Opens(SECOND),
    Row::Opens(THIRD),
    Row::Says(FIRST, b"LOAD a\n", b""),
    Row::Says(SECOND, b"LOAD b\n", b""),
    Row::Says(THIRD, b"LOAD c\n", b""),
    Row::Does(Asked::Closes(SECOND)),
    Row::LoadsOpen(0, 3),
    Row::Does(Asked::Answers(SECOND_LOAD, Given::Nothing)),
    Row::LoadsOpen(0, 2),
    Row::Does(Asked::Answers(THIRD_LOAD, Given::Value(b"w", None))),
    Row::Output(THIRD, b"VAL w\n"),
    Row::Says(THIRD, b"LOAD a\n", b""),
    Row::Does(VALUE),
    Row::Output(FIRST, b"VAL v\n"),
    Row::Output(THIRD, b"VAL v\n"),
    Row::Says(FIRST, b"LOAD b\n", b""),
    Row::LoadsOpen(0, 1),
    Row::Sends(
        0,
        &[
            (FIRST_LOAD, b"a"),
            (SECOND_LOAD, b"b"),
            (THIRD_LOAD, b"c"),
            (FOURTH_LOAD, b"b"),
        ],
    ),
];

const AN_ANSWER_REPLACES: &[Row<'static>] = &[
    Row::Opens(FIRST),
    Row::Opens(SECOND),
    Row::Says(FIRST, b"LOAD k\nGET k\n", b""),
    Row::Says(SECOND, b"SET k - 1\n", b"OK\n"),
    Row::Does(VALUE),
    Row::Output(FIRST, b"VAL v\nVAL v\n"),
    Row::Says(SECOND, b"GET k\nSYNC\n", b"VAL v\nSYNC 1 1\n"),
    Row::Tells(RemovalCause::Replaced, b"k", b"1"),
    Row::TellsNone,
];

const A_GIVEN_UP_LOAD_WAITS_FOR_THE_NEXT: &[Row<'static>] = &[
    Row::Opens(FIRST),
    Row::Opens(SECOND),
    Row::Says(FIRST, b"LOAD k\nHAS k\nQUIT\nGET k\n", b""),
    Row::Says(SECOND, b"LOAD k\nSET k - 2\n", b""),
    Row::Does(Asked::GivesUp(FIRST_LOAD)),
    Row::Sends(0, &[(FIRST_LOAD, b"k"), (SECOND_LOAD, b"k")]),
    Row::Waits(FIRST, true),
    Row::Waits(SECOND, true),
    Row::Does(NEXT_VALUE),
    Row::Output(FIRST, b"VAL v\nYES\nOK\n"),
    Row::Output(SECOND, b"VAL v\nOK\n"),
    Row::Closed(FIRST, Some(Closing::Quit)),
    Row::Closed(SECOND, None),
];

const FOURTH: Conn = Conn {
    namespace: 0,
    number: 4,
};

const FIFTH: Conn = Conn {
    namespace: 0,
    number: 5,
};

// those that have closed, and whose replies were taken, leave only why they closed: others keep what they have, and further ones come
const CLOSED_ONES_LEAVE_OTHERS_ALONE: &[Row<'static>] = &[
    Row::Opens(FIRST),
    Row::Opens(SECOND),
    Row::Says(SECOND, b"SET a - 1\nGE", b"OK\n"),
    Row::Says(FIRST, b"QUIT\n", b"OK\n"),
    Row::Output(FIRST, b""),
    Row::Refuses(Asked::Feeds(FIRST, b"GET a\n"), ServiceError::Closed),
    Row::Says(SECOND, b"T a\n", b"VAL 1\n"),
    Row::Opens(THIRD),
    Row::Says(THIRD, b"GET a\nLOAD k\nHAS a\n", b"VAL 1\n"),
    Row::Does(Asked::Closes(SECOND)),
    Row::Opens(FOURTH),
    Row::Says(FOURTH, b"LOAD k\nQUIT\n", b""),
    Row::Does(VALUE),
    Row::Output(FOURTH, b"VAL v\nOK\n"),
    Row::Output(THIRD, b"VAL v\nYES\n"),
    Row::Closed(FIRST, Some(Closing::Quit)),
    Row::Closed(SECOND, Some(Closing::Asked)),
    Row::Closed(THIRD, None),
    Row::Closed(FOURTH, Some(Closing::Quit)),
    Row::Opens(FIFTH),
    Row::Says(FIFTH, b"GET a\n", b"VAL 1\n"),
];

const ANSWERED: &[(Config, &[Row<'static>])] = &[
    (PLAIN, ONE_LOAD_FOR_TWO),
    (PLAIN, A_DELETED_KEY_IS_LOADED),
    (PLAIN, LINES_BEHIND_RUN_IN_ORDER),
    (PLAIN, EACH_IS_TOLD_AND_READS_ON),
    (OFF, NOTHING_IS_KEPT),
    (PLAIN, AN_ANSWER_REPLACES),
];

#[test]
fn answered_loads(rt: HostRuntime) {
    none_wrong(&rt, first_wrong_at_last(rt.alloc(), ANSWERED));
}

const REFUSED_AND_LONG: &[(Config, &[Row<'static>])] = &[
    (PLAIN, OUTCOMES_THAT_ARE_REFUSED),
    (BYTES, THE_LONGEST_OUTCOME),
    (PLAIN, BYTES_BEHIND_A_LOAD),
];

#[test]
fn refused_and_long_outcomes(rt: HostRuntime) {
    none_wrong(&rt, first_wrong_at_last(rt.alloc(), REFUSED_AND_LONG));
}

const GIVEN_UP: &[(Config, &[Row<'static>])] = &[
    (PLAIN, GIVEN_UP_AND_ANSWERED),
    (PLAIN, A_GIVEN_UP_LOAD_WAITS_FOR_THE_NEXT),
    (PLAIN, LOADS_SETTLE_IN_ANY_ORDER),
];

#[test]
fn loads_in_any_order(rt: HostRuntime) {
    none_wrong(&rt, first_wrong_at_last(rt.alloc(), GIVEN_UP));
}

const CLOSED: &[(Config, &[Row<'static>])] = &[
    (PLAIN, A_LOAD_OUTLIVES_ITS_CONNECTION),
    (PLAIN, A_CLOSED_CONNECTION_LEAVES_ITS_LOAD),
    (PLAIN, CLOSED_ONES_LEAVE_OTHERS_ALONE),
];

#[test]
fn loads_of_closed_connections(rt: HostRuntime) {
    none_wrong(&rt, first_wrong_at_last(rt.alloc(), CLOSED));
}

const MANY: &[(Config, &[Row<'static>])] = &[(PLAIN, THE_200TH_GIVE_UP_OF_EACH)];

#[test]
fn three_hundred_give_ups(rt: HostRuntime) {
    none_wrong(&rt, first_wrong_at_last(rt.alloc(), MANY));
}

/// Connections and loads of the fourth namespace.
const LAST_FIRST: Conn = Conn {
    namespace: 3,
    number: 1,
};

const LAST_SECOND: Conn = Conn {
    namespace: 3,
    number: 2,
};

const LAST_THIRD: Conn = Conn {
    namespace: 3,
    number: 3,
};

const LAST_FIRST_LOAD: LoadId = LoadId {
    namespace: 3,
    number: 1,
};

const LAST_SECOND_LOAD: LoadId = LoadId {
    namespace: 3,
    number: 2,
};

// a key has one load, which goes out once and stays under way; who waits for another key's waits on
const LOADS_OF_TWO_KEYS: Case<'static> = Case {
    configs: &[PLAIN, PLAIN, PLAIN, PLAIN],
    made: 0,
    rows: &[
        Row::Opens(LAST_FIRST),
        Row::Opens(LAST_SECOND),
        Row::Opens(LAST_THIRD),
        Row::Says(LAST_FIRST, b"LOAD k\n", b""),
        Row::Says(LAST_SECOND, b"LOAD k\n", b""),
        Row::Says(LAST_THIRD, b"LOAD l\n", b""),
        Row::LoadsOpen(3, 2),
        Row::Sends(3, &[(LAST_FIRST_LOAD, b"k"), (LAST_SECOND_LOAD, b"l")]),
        Row::Sends(3, &[]),
        Row::LoadsOpen(3, 2),
        Row::LoadsOpen(0, 0),
        Row::Does(Asked::Answers(LAST_FIRST_LOAD, Given::Value(b"v", None))),
        Row::Output(LAST_FIRST, b"VAL v\n"),
        Row::Output(LAST_SECOND, b"VAL v\n"),
        Row::Output(LAST_THIRD, b""),
        Row::Waits(LAST_THIRD, true),
        Row::LoadsOpen(3, 1),
    ],
};

/// Whether the rows come out so.
fn loads_two_keys(alloc: Global) -> bool {
    wrong_row(alloc, LOADS_OF_TWO_KEYS).is_none()
}

#[test]
fn loads_of_two_keys(rt: HostRuntime) {
    assert!(rt; loads_two_keys(rt.alloc()) || loads_two_keys(rt.alloc()));
}

// a value is stored and looked up; then a `LOAD` waits, and what stands behind it does not run, also once its connection is closed
const CLOSED_AS_IT_WAITS: Case<'static> = Case {
    configs: &[Config {
        weight: Weight::Bytes,
        own_deadlines: true,
        ..PLAIN
    }],
    made: 5,
    rows: &[
        Row::Opens(FIRST),
        Row::Opens(SECOND),
        Row::At(7),
        Row::Says(
            FIRST,
            b"SET a - one\nGET a\r\nLOAD k\nGET a\n",
            b"OK\nVAL one\n",
        ),
        Row::Waits(FIRST, true),
        Row::Sends(0, &[(FIRST_LOAD, b"k")]),
        Row::Does(Asked::Closes(FIRST)),
        Row::Says(SECOND, b"QUIT\n", b"OK\n"),
        Row::Refuses(Asked::Feeds(SECOND, b"GET a\n"), ServiceError::Closed),
        Row::Closed(FIRST, Some(Closing::Asked)),
        Row::Closed(SECOND, Some(Closing::Quit)),
    ],
};

#[test]
fn closed_as_it_waits(rt: HostRuntime) {
    no_row_wrong(&rt, wrong_row(rt.alloc(), CLOSED_AS_IT_WAITS));
}
