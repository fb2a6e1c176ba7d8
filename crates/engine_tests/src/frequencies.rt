//! Rows on newcomers: under TinyLFU a newcomer is admitted if it was requested more often than
//! those that would go for it.
use crate::rows::{CASE, Case, ITSELF, Look, Row, SECOND, SETTINGS, none_wrong};
use engine_reference::{EvictionPolicy, RemovalCause, Settings};

const TINY_LFU: Settings = Settings {
    policy: EvictionPolicy::TinyLfu,
    ..SETTINGS
};

// Keys 0 and 1 are requested before there is a table, then 2, 0 and 1 once each: 2 was used longest
// ago. Key 3 comes and is refused, and is asked for, twice.
const REFUSED_TWICE: &[Row<'static>] = &[
    Row::Puts(0, 5, 1),
    Row::Puts(1, 6, 2),
    Row::Shows(Look::Get, 0, Some(5)),
    Row::Shows(Look::Get, 1, Some(6)),
    // the second makes the table if memory for it was refused to the first
    Row::Runs,
    Row::Runs,
    Row::TableRefused(false),
    Row::Puts(2, 7, 3),
    Row::Shows(Look::Get, 2, Some(7)),
    Row::RunsWhole,
    Row::Shows(Look::Get, 0, Some(5)),
    Row::Shows(Look::Get, 1, Some(6)),
    Row::RunsWhole,
    Row::TellsNone,
    Row::Puts(3, 8, 4),
    Row::RunsWhole,
    Row::Tells(RemovalCause::Size, 3, 8),
    Row::TellsNone,
    Row::Shows(Look::Get, 3, None),
    Row::Puts(3, 8, 5),
    Row::RunsWhole,
    Row::Tells(RemovalCause::Size, 3, 8),
    Row::TellsNone,
    Row::Shows(Look::Get, 3, None),
];

// The same with weights, three times.
const REFUSED_THRICE: &[Row<'static>] = &[
    Row::Puts(0, 10, 1),
    Row::Puts(1, 15, 2),
    Row::Shows(Look::Get, 0, Some(10)),
    Row::Shows(Look::Get, 1, Some(15)),
    Row::Runs,
    Row::Runs,
    Row::Puts(2, 5, 3),
    Row::Shows(Look::Get, 2, Some(5)),
    Row::RunsWhole,
    Row::Shows(Look::Get, 0, Some(10)),
    Row::Shows(Look::Get, 1, Some(15)),
    Row::RunsWhole,
    Row::TellsNone,
    Row::Puts(3, 15, 4),
    Row::RunsWhole,
    Row::Tells(RemovalCause::Size, 3, 15),
    Row::TellsNone,
    Row::Shows(Look::Get, 3, None),
    Row::Puts(3, 15, 5),
    Row::RunsWhole,
    Row::Tells(RemovalCause::Size, 3, 15),
    Row::TellsNone,
    Row::Shows(Look::Get, 3, None),
    Row::Puts(3, 15, 6),
    Row::RunsWhole,
    Row::Tells(RemovalCause::Size, 3, 15),
    Row::TellsNone,
    Row::Shows(Look::Get, 3, None),
];

const CASES: &[Case<'static>] = &[
    // Weights of one: a newcomer is admitted once it was requested more often than the value used
    // longest ago.
    Case {
        settings: Settings {
            capacity: Some(3),
            ..TINY_LFU
        },
        before: REFUSED_TWICE,
        rows: &[
            Row::Puts(3, 8, 6),
            Row::RunsWhole,
            Row::Tells(RemovalCause::Size, 2, 7),
            Row::TellsNone,
            Row::Shows(Look::Get, 3, Some(8)),
        ],
        ..CASE
    },
    // A clear removes the values, but not how often they were requested.
    Case {
        settings: Settings {
            capacity: Some(3),
            ..TINY_LFU
        },
        before: REFUSED_TWICE,
        rows: &[
            Row::Clears(6),
            Row::RunsWhole,
            Row::TellsThreeCleared,
            Row::TellsNone,
            Row::Puts(0, 9, 7),
            Row::Puts(1, 9, 8),
            Row::Puts(2, 9, 9),
            Row::RunsWhole,
            Row::Puts(3, 8, 10),
            Row::RunsWhole,
            Row::Tells(RemovalCause::Size, 0, 9),
            Row::TellsNone,
            Row::Shows(Look::Get, 3, Some(8)),
        ],
        ..CASE
    },
    // A heavy newcomer is held against all that would go for it, together; a value that grows
    // pushes others out.
    Case {
        settings: Settings {
            capacity: Some(31),
            ..TINY_LFU
        },
        weighs: ITSELF,
        before: REFUSED_THRICE,
        rows: &[
            Row::Puts(3, 15, 7),
            Row::RunsWhole,
            Row::Tells(RemovalCause::Size, 2, 5),
            Row::Tells(RemovalCause::Size, 0, 10),
            Row::TellsNone,
            Row::Puts(1, 20, 8),
            Row::Tells(RemovalCause::Replaced, 1, 15),
            Row::RunsWhole,
            Row::Tells(RemovalCause::Size, 3, 15),
            Row::TellsNone,
            Row::Weight(20),
        ],
        ..CASE
    },
    // A run that is due makes the table too: the second where memory for it was refused to the
    // first.
    Case {
        settings: Settings {
            capacity: Some(3),
            ..TINY_LFU
        },
        rows: &[
            Row::TableRefused(false),
            Row::Puts(0, 5, 1),
            Row::At(SECOND),
            Row::RunsIfDue,
            Row::At(2 * SECOND),
            Row::RunsIfDue,
            Row::TableRefused(false),
            Row::Number(1),
        ],
        ..CASE
    },
    // A value that was written twice before a run is judged by its later weight.
    Case {
        settings: Settings {
            capacity: Some(12),
            ..TINY_LFU
        },
        weighs: ITSELF,
        rows: &[
            Row::Puts(0, 10, 1),
            Row::RunsWhole,
            Row::Puts(1, 5, 2),
            Row::Puts(1, 1, 3),
            Row::Tells(RemovalCause::Replaced, 1, 5),
            Row::RunsWhole,
            Row::TellsNone,
            Row::Weight(11),
            Row::Number(2),
        ],
        ..CASE
    },
];

#[test]
fn frequencies_of_the_engine(rt: HostRuntime) {
    none_wrong(&rt, rt.alloc(), CASES);
}
