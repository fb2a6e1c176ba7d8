//! Loads with memory refused: what is refused is asked once more, so these come out so with any one allocation refused.
use crate::playing::first_wrong;
use crate::rows::{Asked, FIRST, FIRST_LOAD, Given, PLAIN, Row, SECOND, SECOND_LOAD, none_wrong};
use audit_model::Config;

const ANSWERED_AT_THE_SECOND_TRY: &[Row<'static>] = &[
    Row::Opens(FIRST),
    Row::Opens(SECOND),
    Row::Says(FIRST, b"LOAD k\nGET k\n", b""),
    Row::Says(SECOND, b"LOAD k\n", b""),
    Row::Sends(0, &[(FIRST_LOAD, b"k")]),
    Row::Does(Asked::Answers(FIRST_LOAD, Given::Value(b"v", None))),
    Row::Says(FIRST, b"", b"VAL v\nVAL v\n"),
    Row::Output(SECOND, b"VAL v\n"),
    Row::LoadsOpen(0, 0),
];

// a `LOAD` that finds no memory in a give-up is held back, and an empty piece sends the next load
const GIVEN_UP_WITHOUT_MEMORY: &[Row<'static>] = &[
    Row::Opens(FIRST),
    Row::Opens(SECOND),
    Row::Says(FIRST, b"LOAD k\nGET k\n", b""),
    Row::Says(SECOND, b"LOAD k\n", b""),
    Row::Sends(0, &[(FIRST_LOAD, b"k")]),
    Row::Does(Asked::GivesUp(FIRST_LOAD)),
    Row::Says(FIRST, b"", b""),
    Row::Says(SECOND, b"", b""),
    Row::Waits(FIRST, true),
    Row::Waits(SECOND, true),
    Row::Sends(0, &[(SECOND_LOAD, b"k")]),
    Row::Does(Asked::Answers(SECOND_LOAD, Given::Value(b"v", None))),
    Row::Says(FIRST, b"", b"VAL v\nVAL v\n"),
    Row::Output(SECOND, b"VAL v\n"),
];

const TABLES: &[(Config, &[Row<'static>])] = &[
    (PLAIN, ANSWERED_AT_THE_SECOND_TRY),
    (PLAIN, GIVEN_UP_WITHOUT_MEMORY),
];

#[test]
fn settled_without_memory(rt: HostRuntime) {
    none_wrong(&rt, first_wrong(rt.alloc(), TABLES));
}
