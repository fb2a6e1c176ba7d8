//! Rows on writes, times, room and maintenance.
use crate::rows::{CASE, Case, Look, Row, SECOND, SETTINGS, none_wrong};
use engine_reference::{RemovalCause, Settings};
use moka_engine::Refusal;

const CASES: &[Case<'static>] = &[
    // Live 16 s, idle 7 s, and a second of its own from its creation on: the earliest of them ends
    // a value.
    Case {
        settings: Settings {
            live: Some(16 * SECOND),
            idle: Some(7 * SECOND),
            ..SETTINGS
        },
        own: Some(SECOND),
        rows: &[
            Row::Puts(1, 10, 1),
            Row::Runs,
            Row::Number(1),
            Row::At(999_000_000),
            Row::Contains(1, true),
            Row::Number(1),
            Row::At(SECOND),
            Row::Contains(1, false),
            Row::At(2 * SECOND),
            Row::Runs,
            Row::Number(0),
            Row::Tells(RemovalCause::Expired, 1, 10),
            Row::TellsNone,
        ],
        ..CASE
    },
    // A run notices an end of a value's own once its tick is over.
    Case {
        own: Some(SECOND),
        rows: &[
            Row::Puts(1, 10, 1),
            Row::Runs,
            Row::At(SECOND),
            Row::Contains(1, false),
            Row::Runs,
            Row::Number(1),
            Row::TellsNone,
            Row::At((1 << 30) - 1),
            Row::Runs,
            Row::Number(1),
            Row::At(1 << 30),
            Row::Runs,
            Row::Number(0),
            Row::Tells(RemovalCause::Expired, 1, 10),
            Row::TellsNone,
        ],
        ..CASE
    },
    // Above the capacity the value leaves that was used longest ago.
    Case {
        settings: Settings {
            capacity: Some(2),
            ..SETTINGS
        },
        rows: &[
            Row::Puts(1, 10, 1),
            Row::Puts(2, 20, 2),
            Row::Runs,
            Row::Shows(Look::Get, 1, Some(10)),
            Row::Puts(3, 30, 3),
            Row::Runs,
            Row::Tells(RemovalCause::Size, 2, 20),
            Row::TellsNone,
            Row::Number(2),
            Row::Weight(2),
        ],
        ..CASE
    },
    // The values used longest ago are removed first, reported in this order; those that are kept expire.
    Case {
        settings: Settings {
            capacity: Some(2),
            idle: Some(7),
            ..SETTINGS
        },
        rows: &[
            Row::Puts(1, 10, 1),
            Row::Puts(2, 20, 2),
            Row::Puts(3, 30, 3),
            Row::Puts(4, 40, 4),
            Row::At(6),
            Row::Runs,
            Row::Tells(RemovalCause::Size, 1, 10),
            Row::Tells(RemovalCause::Size, 2, 20),
            Row::TellsNone,
            Row::Number(2),
            Row::Shows(Look::Peek, 1, None),
            Row::Shows(Look::Peek, 4, Some(40)),
            Row::At(7),
            Row::Runs,
            Row::Tells(RemovalCause::Expired, 3, 30),
            Row::Tells(RemovalCause::Expired, 4, 40),
            Row::TellsNone,
            Row::Number(0),
        ],
        ..CASE
    },
    // A record with a write that was not sent is not evicted; its weight counts once.
    Case {
        settings: Settings {
            capacity: Some(4),
            ..SETTINGS
        },
        rows: &[
            Row::Puts(0, 100, 1),
            Row::Runs,
            Row::HoldsBack(0, 200, 2, 1),
            Row::Tells(RemovalCause::Replaced, 0, 100),
            Row::Puts(1, 10, 3),
            Row::Puts(2, 20, 4),
            Row::Puts(3, 30, 5),
            Row::Puts(4, 40, 6),
            Row::Runs,
            Row::Tells(RemovalCause::Size, 1, 10),
            Row::TellsNone,
            Row::Number(4),
            Row::Shows(Look::Peek, 0, Some(200)),
            Row::Sends(1, Ok(())),
            Row::Runs,
            Row::TellsNone,
            Row::Number(4),
        ],
        ..CASE
    },
    // The queue takes 128 writes; a ticket that was sent is unknown, which is said before that the
    // queue is full.
    Case {
        rows: &[
            Row::PutsOften(1, 10, 129),
            Row::HoldsBack(1, 10, 129, 128),
            Row::Sends(128, Err(Refusal::QueueFull)),
            Row::Sends(0, Err(Refusal::UnknownTicket)),
            Row::Sends(500, Err(Refusal::UnknownTicket)),
            Row::Runs,
            Row::Sends(128, Ok(())),
            Row::Sends(128, Err(Refusal::UnknownTicket)),
        ],
        ..CASE
    },
    // What a write reports of the value that it replaces: the first cause of three that holds.
    Case {
        settings: Settings {
            idle: Some(7 * SECOND),
            ..SETTINGS
        },
        rows: &[
            Row::Puts(1, 10, 1),
            Row::At(7 * SECOND - 1),
            Row::Contains(1, true),
            Row::At(7 * SECOND),
            Row::Contains(1, false),
            // its idle time has ended
            Row::Puts(1, 20, 2),
            Row::Tells(RemovalCause::Expired, 1, 10),
            // a clear between two writes at one moment
            Row::Clears(3),
            Row::Shows(Look::Peek, 1, None),
            Row::Puts(1, 30, 4),
            Row::Tells(RemovalCause::Explicit, 1, 20),
            Row::Shows(Look::Peek, 1, Some(30)),
            Row::Puts(1, 40, 5),
            Row::Tells(RemovalCause::Replaced, 1, 30),
            Row::TellsNone,
        ],
        ..CASE
    },
    // The counts are those of the last run: a clear changes none of them.
    Case {
        rows: &[
            Row::Puts(1, 10, 1),
            Row::Number(0),
            Row::Runs,
            Row::Number(1),
            Row::Clears(2),
            Row::Number(1),
            Row::Weight(1),
            Row::TellsNone,
            Row::Runs,
            Row::Number(0),
            Row::Weight(0),
            Row::Tells(RemovalCause::Explicit, 1, 10),
            Row::TellsNone,
        ],
        ..CASE
    },
    // A removed key is reported by its remover, dead or not, and once.
    Case {
        settings: Settings {
            live: Some(SECOND),
            ..SETTINGS
        },
        rows: &[
            Row::Puts(1, 10, 1),
            Row::Puts(2, 20, 2),
            Row::At(SECOND - 1),
            Row::Removes(1, Ok(Some((10, 2)))),
            Row::Tells(RemovalCause::Explicit, 1, 10),
            Row::Sends(2, Ok(())),
            Row::Removes(1, Ok(None)),
            Row::At(SECOND),
            Row::Removes(2, Ok(Some((20, 3)))),
            Row::Tells(RemovalCause::Expired, 2, 20),
            Row::Sends(3, Ok(())),
            Row::Runs,
            Row::TellsNone,
            Row::Number(0),
        ],
        ..CASE
    },
    // The same where the removal is sent in the call.
    Case {
        settings: Settings {
            live: Some(SECOND),
            ..SETTINGS
        },
        rows: &[
            Row::PutsByName(1, 10, 1, Ok(())),
            Row::PutsByName(2, 20, 2, Ok(())),
            Row::PutsByName(3, 30, 3, Ok(())),
            Row::At(SECOND - 1),
            Row::RemovesAtOnce(1, Ok(Some(10))),
            Row::Tells(RemovalCause::Explicit, 1, 10),
            Row::RemovesAtOnce(1, Ok(None)),
            Row::Forgets(1, Ok(false)),
            Row::Forgets(2, Ok(true)),
            Row::Tells(RemovalCause::Explicit, 2, 20),
            Row::At(SECOND),
            Row::Forgets(3, Ok(true)),
            Row::Tells(RemovalCause::Expired, 3, 30),
            Row::Runs,
            Row::TellsNone,
            Row::Number(0),
            // the next ticket is the seventh
            Row::HoldsBack(1, 11, 4, 6),
        ],
        ..CASE
    },
    // A value that is written by a name replaces the one that is held.
    Case {
        rows: &[
            Row::PutsByName(1, 10, 1, Ok(())),
            Row::PutsByName(1, 20, 2, Ok(())),
            Row::Tells(RemovalCause::Replaced, 1, 10),
            Row::Shows(Look::Peek, 1, Some(20)),
            Row::Clears(3),
            Row::PutsByName(1, 30, 4, Ok(())),
            Row::Tells(RemovalCause::Explicit, 1, 20),
            Row::Runs,
            Row::Number(1),
            Row::Keys(&[1]),
            Row::TellsNone,
        ],
        ..CASE
    },
    // Maintenance is due 300 milliseconds after the last run.
    Case {
        settings: Settings {
            live: Some(7),
            ..SETTINGS
        },
        rows: &[
            Row::Notifies(true),
            Row::Times(Some(7), None),
            Row::Puts(1, 10, 1),
            Row::At(299_999_999),
            Row::RunsIfDue,
            Row::TellsNone,
            Row::At(300_000_000),
            Row::RunsIfDue,
            Row::Tells(RemovalCause::Expired, 1, 10),
        ],
        ..CASE
    },
];

#[test]
fn writes_of_the_engine(rt: HostRuntime) {
    none_wrong(&rt, rt.alloc(), CASES);
}
