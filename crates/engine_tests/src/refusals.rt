//! A row on a value whose clone is refused: the calls answer so and leave all as it was.
use crate::rows::{CASE, Case, Look, NOT_CLONED, Row, SETTINGS, none_wrong};
use engine_reference::Settings;
use moka_engine::Refusal;

const CASES: &[Case<'static>] = &[
    // Look-ups and a removal answer that the clone is refused. The value is still there, was not
    // used, and no ticket was given for it.
    Case {
        settings: Settings {
            idle: Some(7),
            ..SETTINGS
        },
        rows: &[
            Row::HoldsBack(1, NOT_CLONED, 1, 0),
            Row::HoldsBack(2, 14, 2, 1),
            Row::Sends(0, Ok(())),
            Row::Sends(1, Ok(())),
            Row::Runs,
            Row::At(5),
            Row::Refuses(Look::Peek, 1),
            Row::Refuses(Look::Scan, 1),
            Row::Refuses(Look::Get, 1),
            Row::Refuses(Look::GetPast(14), 1),
            Row::Refuses(Look::GetUnless(14), 1),
            Row::Removes(1, Err(Refusal::OutOfMemory)),
            Row::RemovesAtOnce(1, Err(Refusal::OutOfMemory)),
            Row::Forgets(1, Err(Refusal::OutOfMemory)),
            Row::Shows(Look::Get, 2, Some(14)),
            // its idle time ends first
            Row::At(6),
            Row::Contains(1, true),
            Row::At(7),
            Row::Contains(1, false),
            Row::Contains(2, true),
            Row::TellsNone,
            Row::At(0),
            Row::HoldsBack(3, 15, 3, 2),
        ],
        ..CASE
    },
    // If removals are not reported, a removal that returns no value clones none.
    Case {
        settings: Settings {
            tells: false,
            ..SETTINGS
        },
        rows: &[
            Row::Puts(1, NOT_CLONED, 1),
            Row::Puts(2, 14, 2),
            Row::RemovesAtOnce(1, Err(Refusal::OutOfMemory)),
            Row::Forgets(1, Ok(true)),
            Row::Forgets(1, Ok(false)),
            Row::RemovesAtOnce(2, Ok(Some(14))),
            Row::Runs,
            Row::TellsNone,
            Row::Number(0),
        ],
        ..CASE
    },
];

#[test]
fn refusals_of_the_engine(rt: HostRuntime) {
    none_wrong(&rt, rt.alloc(), CASES);
}
