//! Rows on look-ups.
use crate::rows::{CASE, Case, Look, Row, SECOND, SETTINGS, none_wrong};
use engine_reference::Settings;

const CASES: &[Case<'static>] = &[
    // An empty cache shows nothing.
    Case {
        settings: Settings {
            capacity: Some(2),
            ..SETTINGS
        },
        rows: &[
            Row::Clears(1),
            Row::At(5),
            Row::Contains(1, false),
            Row::Shows(Look::Peek, 1, None),
            Row::Shows(Look::Get, 1, None),
            Row::Key(1, None),
            Row::Keys(&[]),
            Row::Number(0),
            Row::Weight(0),
            Row::TellsNone,
            Row::Capacity(Some(2)),
            Row::Segments(1),
            Row::MapDisabled(false),
            Row::Times(None, None),
        ],
        ..CASE
    },
    // Looks that are no uses leave the idle time as it was; a use begins it again.
    Case {
        settings: Settings {
            idle: Some(7 * SECOND),
            ..SETTINGS
        },
        rows: &[
            Row::Puts(1, 10, 1),
            Row::At(6 * SECOND),
            Row::Shows(Look::Scan, 1, Some(10)),
            Row::Shows(Look::Peek, 1, Some(10)),
            Row::Contains(1, true),
            Row::At(7 * SECOND),
            Row::Shows(Look::Scan, 1, None),
            Row::At(6 * SECOND),
            Row::Shows(Look::Get, 1, Some(10)),
            Row::At(12 * SECOND),
            Row::Shows(Look::Scan, 1, Some(10)),
            // a value that is passed over is not used
            Row::Shows(Look::GetPast(10), 1, None),
            Row::At(13 * SECOND),
            Row::Shows(Look::Scan, 1, None),
            // another value is
            Row::At(12 * SECOND),
            Row::Shows(Look::GetPast(11), 1, Some(10)),
            Row::At(13 * SECOND),
            Row::Shows(Look::Scan, 1, Some(10)),
            // a look without a clone is no use, and what is held is shown dead too
            Row::At(18 * SECOND),
            Row::Shows(Look::Borrow, 1, Some(10)),
            Row::At(19 * SECOND),
            Row::Shows(Look::Borrow, 1, None),
            Row::Shows(Look::Held, 1, Some(10)),
            Row::Shows(Look::Held, 2, None),
            // a look-up in two halves is a use
            Row::At(18 * SECOND),
            Row::Shows(Look::InHalves, 1, Some(10)),
            Row::Shows(Look::InHalves, 2, None),
            Row::At(24 * SECOND),
            Row::Shows(Look::Borrow, 1, Some(10)),
            Row::At(25 * SECOND),
            Row::Shows(Look::Borrow, 1, None),
            // so is one that may pass over a value, if it does not
            Row::At(24 * SECOND),
            Row::Shows(Look::GetUnless(10), 1, None),
            Row::At(25 * SECOND),
            Row::Shows(Look::Borrow, 1, None),
            Row::At(24 * SECOND),
            Row::Shows(Look::GetUnless(11), 1, Some(10)),
            Row::Shows(Look::GetUnless(11), 2, None),
            Row::At(30 * SECOND),
            Row::Shows(Look::Borrow, 1, Some(10)),
            Row::At(31 * SECOND),
            Row::Shows(Look::GetUnless(11), 1, None),
        ],
        ..CASE
    },
    // The keys of all that is held, covered values among them.
    Case {
        rows: &[
            Row::Puts(1, 10, 1),
            Row::Puts(2, 20, 2),
            Row::Clears(3),
            Row::Puts(3, 30, 4),
            Row::Removes(2, Ok(Some((20, 3)))),
            Row::Keys(&[1, 3]),
            Row::NoKeys(1),
            Row::Key(1, Some(1)),
            Row::Key(2, None),
            Row::Shows(Look::Scan, 1, None),
            Row::Shows(Look::Scan, 3, Some(30)),
            Row::RemovesInHalves(3, Ok(Some((30, 4)))),
            Row::RemovesInHalves(3, Ok(None)),
            Row::Keys(&[1]),
            Row::Named(None),
        ],
        ..CASE
    },
    // A cache has the name that it was made with. A capacity of 0 says that nothing is to be held.
    Case {
        name: Some("first"),
        settings: Settings {
            capacity: Some(0),
            ..SETTINGS
        },
        rows: &[
            Row::MapDisabled(true),
            Row::Named(Some("first")),
            Row::Puts(1, 10, 1),
            Row::Runs,
            Row::Named(Some("first")),
        ],
        ..CASE
    },
];

#[test]
fn looks_of_the_engine(rt: HostRuntime) {
    none_wrong(&rt, rt.alloc(), CASES);
}
