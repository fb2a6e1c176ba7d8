//! What wrong services would have recorded, each beside what is right.
use crate::transcripts::rows::{BRIEF, Case, FULL, OWN, PLAIN, Row, TWO_PARTS, all_right};

/// Whatever the settings.
const WRONG: &[Row] = &[
    // Keeps nothing, and tells each value `Size`; or tells nothing.
    Row {
        lines: b"open 1\nfeed 1 0 'SET_a_-_1~\nstep 1 run 'SET_a_-_1 'OK~ - 0\nnote Size 'a '1\n",
        breaks: 2,
    },
    Row {
        lines: b"open 1\nfeed 1 0 'SET_a_-_1~\nstep 1 run 'SET_a_-_1 'OK~ - 0\nfeed 1 0 'GET_a~\nstep 1 run 'GET_a 'NONE~ - -\n",
        breaks: 3,
    },
    Row {
        lines: b"open 1\nfeed 1 0 'SET_a_-_1~\nstep 1 run 'SET_a_-_1 'OK~ - 0\nfeed 1 0 'GET_a~\nstep 1 run 'GET_a 'VAL_1~ - -\n",
        breaks: 0,
    },
    // A value written just before a `CLEAR`, at its moment, stays.
    Row {
        lines: b"open 1\nfeed 1 0 'SET_a_-_1~\nstep 1 run 'SET_a_-_1 'OK~ - 0\nfeed 1 0 'CLEAR~\nstep 1 run 'CLEAR 'OK~ - -\nfeed 1 0 'GET_a~\nstep 1 run 'GET_a 'VAL_1~ - -\n",
        breaks: 4,
    },
    Row {
        lines: b"open 1\nfeed 1 0 'SET_a_-_1~\nstep 1 run 'SET_a_-_1 'OK~ - 0\nfeed 1 0 'CLEAR~\nstep 1 run 'CLEAR 'OK~ - -\nfeed 1 0 'GET_a~\nstep 1 run 'GET_a 'NONE~ - -\n",
        breaks: 0,
    },
    // A replaced value is told twice.
    Row {
        lines: b"open 1\nfeed 1 0 'SET_a_-_1~\nstep 1 run 'SET_a_-_1 'OK~ - 0\nfeed 1 0 'SET_a_-_2~\nstep 1 run 'SET_a_-_2 'OK~ - 0\nnote Replaced 'a '1\nfeed 1 0 'GET_a~\nstep 1 run 'GET_a 'VAL_2~ - -\nnote Replaced 'a '1\n",
        breaks: 4,
    },
    Row {
        lines: b"open 1\nfeed 1 0 'SET_a_-_1~\nstep 1 run 'SET_a_-_1 'OK~ - 0\nfeed 1 0 'SET_a_-_2~\nstep 1 run 'SET_a_-_2 'OK~ - 0\nnote Replaced 'a '1\nfeed 1 0 'GET_a~\nstep 1 run 'GET_a 'VAL_2~ - -\n",
        breaks: 0,
    },
    // A `DROPIF` does not reach a key of its prefix.
    Row {
        lines: b"open 1\nfeed 1 0 'SET_ab_-_1~\nstep 1 run 'SET_ab_-_1 'OK~ - 0\nfeed 1 0 'DROPIF_a~\nstep 1 run 'DROPIF_a 'OK~ - -\nfeed 1 0 'GET_ab~\nstep 1 run 'GET_ab 'VAL_1~ - -\n",
        breaks: 4,
    },
    // A refused `DROPIF` covers values; a `DEL` that is held back hides its value.
    Row {
        lines: b"open 1\nfeed 1 0 'DROPIF_z~\nstep 1 run 'DROPIF_z 'OK~ - -\nfeed 1 0 'SET_ab_-_1~\nstep 1 run 'SET_ab_-_1 'OK~ - 0\nfeed 1 0 'DROPIF_a~\nstep 1 run 'DROPIF_a 'ERR_id~ - -\nfeed 1 0 'GET_ab~\nstep 1 run 'GET_ab 'NONE~ - -\n",
        breaks: 5,
    },
    Row {
        lines: b"open 1\nfeed 1 0 'DROPIF_z~\nstep 1 run 'DROPIF_z 'OK~ - -\nfeed 1 0 'SET_ab_-_1~\nstep 1 run 'SET_ab_-_1 'OK~ - 0\nfeed 1 0 'DROPIF_a~\nstep 1 run 'DROPIF_a 'ERR_id~ - -\nfeed 1 0 'GET_ab~\nstep 1 run 'GET_ab 'VAL_1~ - -\n",
        breaks: 0,
    },
    Row {
        lines: b"open 1\nfeed 1 0 'SET_a_-_1~\nstep 1 run 'SET_a_-_1 'OK~ - 0\nfeed 1 0 'DEL_a~\nstep 1 held 'DEL_a - - -\nopen 2\nfeed 2 0 'GET_a~\nstep 2 run 'GET_a 'NONE~ - -\n",
        breaks: 5,
    },
    Row {
        lines: b"open 1\nfeed 1 0 'SET_a_-_1~\nstep 1 run 'SET_a_-_1 'OK~ - 0\nfeed 1 0 'DEL_a~\nstep 1 held 'DEL_a - - -\nopen 2\nfeed 2 0 'GET_a~\nstep 2 run 'GET_a 'VAL_1~ - -\n",
        breaks: 0,
    },
    // Counts drift.
    Row {
        lines: b"open 1\nfeed 1 0 'SET_a_-_1~\nstep 1 run 'SET_a_-_1 'OK~ - 0\nfeed 1 0 'SYNC~\nstep 1 run 'SYNC 'SYNC_0_0~ - -\n",
        breaks: 3,
    },
    Row {
        lines: b"open 1\nfeed 1 0 'SET_a_-_1~\nstep 1 run 'SET_a_-_1 'OK~ - 0\nfeed 1 0 'SYNC~\nstep 1 run 'SYNC 'SYNC_1_1~ - -\n",
        breaks: 0,
    },
    // A cause is always `Explicit`.
    Row {
        lines: b"open 1\nfeed 1 0 'SET_a_-_1~\nstep 1 run 'SET_a_-_1 'OK~ - 0\nfeed 1 0 'SET_a_-_2~\nstep 1 run 'SET_a_-_2 'OK~ - 0\nnote Explicit 'a '1\n",
        breaks: 3,
    },
];

/// Notes, causes and coverage.
const NOTES: &[Row] = &[
    // Hides a value that came after a `CLEAR` of the same moment.
    Row {
        lines: b"open 1\nfeed 1 5 'CLEAR~\nstep 1 run 'CLEAR 'OK~ - -\nfeed 1 5 'SET_a_-_1~\nstep 1 run 'SET_a_-_1 'OK~ - 0\nfeed 1 5 'GET_a~\nstep 1 run 'GET_a 'NONE~ - -\n",
        breaks: 4,
    },
    // Tells a replaced value again in a run.
    Row {
        lines: b"open 1\nfeed 1 0 'SET_a_-_1~\nstep 1 run 'SET_a_-_1 'OK~ - 0\nfeed 1 0 'SET_a_-_2~\nstep 1 run 'SET_a_-_2 'OK~ - 0\nnote Replaced 'a '1\nfeed 1 0 'SYNC~\nstep 1 run 'SYNC 'SYNC_1_1~ - -\nnote Replaced 'a '1\n",
        breaks: 4,
    },
    // Tells a replaced value twice in one step.
    Row {
        lines: b"open 1\nfeed 1 0 'SET_a_-_1~\nstep 1 run 'SET_a_-_1 'OK~ - 0\nfeed 1 0 'SET_a_-_2~\nstep 1 run 'SET_a_-_2 'OK~ - 0\nnote Replaced 'a '1\nnote Replaced 'a '1\n",
        breaks: 3,
    },
    // Covers by a refused `DROPIF`.
    Row {
        lines: b"open 1\nfeed 1 0 'SET_b_-_1~\nstep 1 run 'SET_b_-_1 'OK~ - 0\nfeed 1 0 'DROPIF_a~\nstep 1 run 'DROPIF_a 'OK~ - -\nfeed 1 0 'DROPIF_b~\nstep 1 run 'DROPIF_b 'ERR_id~ - -\nfeed 1 0 'GET_b~\nstep 1 run 'GET_b 'NONE~ - -\n",
        breaks: 5,
    },
    // Covers nothing by a refused `DROPIF`.
    Row {
        lines: b"open 1\nfeed 1 0 'SET_b_-_1~\nstep 1 run 'SET_b_-_1 'OK~ - 0\nfeed 1 0 'DROPIF_a~\nstep 1 run 'DROPIF_a 'OK~ - -\nfeed 1 0 'DROPIF_b~\nstep 1 run 'DROPIF_b 'ERR_id~ - -\nfeed 1 0 'GET_b~\nstep 1 run 'GET_b 'VAL_1~ - -\n",
        breaks: 0,
    },
    // Counts a value that is gone.
    Row {
        lines: b"open 1\nfeed 1 0 'SET_a_-_1~\nstep 1 run 'SET_a_-_1 'OK~ - 0\nfeed 1 0 'SET_b_-_2~\nstep 1 run 'SET_b_-_2 'OK~ - 0\nfeed 1 0 'DEL_a~\nstep 1 run 'DEL_a 'OK~ - -\nnote Explicit 'a '1\nfeed 1 0 'SYNC~\nstep 1 run 'SYNC 'SYNC_2_2~ - -\n",
        breaks: 5,
    },
    // Counts the values that are held.
    Row {
        lines: b"open 1\nfeed 1 0 'SET_a_-_1~\nstep 1 run 'SET_a_-_1 'OK~ - 0\nfeed 1 0 'SET_b_-_2~\nstep 1 run 'SET_b_-_2 'OK~ - 0\nfeed 1 0 'DEL_a~\nstep 1 run 'DEL_a 'OK~ - -\nnote Explicit 'a '1\nfeed 1 0 'SYNC~\nstep 1 run 'SYNC 'SYNC_1_1~ - -\n",
        breaks: 0,
    },
    // Names the first true cause of a covered value.
    Row {
        lines: b"open 1\nfeed 1 0 'SET_a_-_1~\nstep 1 run 'SET_a_-_1 'OK~ - 0\nfeed 1 0 'CLEAR~\nstep 1 run 'CLEAR 'OK~ - -\nfeed 1 0 'SET_a_-_2~\nstep 1 run 'SET_a_-_2 'OK~ - 0\nnote Explicit 'a '1\n",
        breaks: 0,
    },
    // Names a later true cause of a covered value.
    Row {
        lines: b"open 1\nfeed 1 0 'SET_a_-_1~\nstep 1 run 'SET_a_-_1 'OK~ - 0\nfeed 1 0 'CLEAR~\nstep 1 run 'CLEAR 'OK~ - -\nfeed 1 0 'SET_a_-_2~\nstep 1 run 'SET_a_-_2 'OK~ - 0\nnote Replaced 'a '1\n",
        breaks: 4,
    },
    // Tells in a step that tells nothing.
    Row {
        lines: b"open 1\nfeed 1 0 'SET_a_-_1~\nstep 1 run 'SET_a_-_1 'OK~ - 0\nfeed 1 0 'CLEAR~\nstep 1 run 'CLEAR 'OK~ - -\nfeed 1 0 'HAS_a~\nstep 1 run 'HAS_a 'NO~ - -\nnote Explicit 'a '1\n",
        breaks: 4,
    },
    // Tells a live value as expired.
    Row {
        lines: b"open 1\nfeed 1 0 'SET_a_-_1~\nstep 1 run 'SET_a_-_1 'OK~ - 0\nfeed 1 0 'GET_a~\nstep 1 run 'GET_a 'VAL_1~ - -\nnote Expired 'a '1\n",
        breaks: 3,
    },
    // Tells other bytes.
    Row {
        lines: b"open 1\nfeed 1 0 'SET_a_-_1~\nstep 1 run 'SET_a_-_1 'OK~ - 0\nfeed 1 0 'SET_a_-_2~\nstep 1 run 'SET_a_-_2 'OK~ - 0\nnote Replaced 'a '3\n",
        breaks: 3,
    },
];

/// Values deleted, told, counted and listed; identifiers.
const LINES: &[Row] = &[
    // Shows a value that a `DEL` told.
    Row {
        lines: b"open 1\nfeed 1 0 'SET_a_-_1~\nstep 1 run 'SET_a_-_1 'OK~ - 0\nfeed 1 0 'DEL_a~\nstep 1 run 'DEL_a 'OK~ - -\nnote Explicit 'a '1\nfeed 1 0 'GET_a~\nstep 1 run 'GET_a 'VAL_1~ - -\n",
        breaks: 4,
    },
    // Shows it no more.
    Row {
        lines: b"open 1\nfeed 1 0 'SET_a_-_1~\nstep 1 run 'SET_a_-_1 'OK~ - 0\nfeed 1 0 'DEL_a~\nstep 1 run 'DEL_a 'OK~ - -\nnote Explicit 'a '1\nfeed 1 0 'GET_a~\nstep 1 run 'GET_a 'NONE~ - -\n",
        breaks: 0,
    },
    // Runs no line behind a `QUIT`.
    Row {
        lines: b"open 1\nfeed 1 0 'SET_a_-_1~QUIT~GET_a~\nstep 1 run 'SET_a_-_1 'OK~ - 0\nstep 1 run 'QUIT 'OK~ - -\n",
        breaks: 0,
    },
    // Refuses an identifier before one was taken.
    Row {
        lines: b"open 1\nfeed 1 0 'SET_a_-_1~\nstep 1 run 'SET_a_-_1 'OK~ - 0\nfeed 1 0 'DROPIF_z~\nstep 1 run 'DROPIF_z 'ERR_id~ - -\n",
        breaks: 3,
    },
    // Refuses one after another was taken.
    Row {
        lines: b"open 1\nfeed 1 0 'DROPIF_z~\nstep 1 run 'DROPIF_z 'OK~ - -\nfeed 1 0 'DROPIF_z~\nstep 1 run 'DROPIF_z 'ERR_id~ - -\n",
        breaks: 0,
    },
    // Replaces a value and does not tell it.
    Row {
        lines: b"open 1\nfeed 1 0 'SET_a_-_1~\nstep 1 run 'SET_a_-_1 'OK~ - 0\nfeed 1 0 'SET_a_-_2~\nstep 1 run 'SET_a_-_2 'OK~ - 0\n",
        breaks: 3,
    },
    // Counts a value that a `CLEAR` covers and that is not told yet.
    Row {
        lines: b"open 1\nfeed 1 0 'SET_a_-_1~\nstep 1 run 'SET_a_-_1 'OK~ - 0\nfeed 1 0 'CLEAR~\nstep 1 run 'CLEAR 'OK~ - -\nfeed 1 0 'SYNC~\nstep 1 run 'SYNC 'SYNC_1_1~ - -\n",
        breaks: 0,
    },
    // Lists keys in order.
    Row {
        lines: b"open 1\nfeed 1 0 'SET_b_-_7~\nstep 1 run 'SET_b_-_7 'OK~ - 0\nfeed 1 0 'SET_a_-_1~\nstep 1 run 'SET_a_-_1 'OK~ - 0\nfeed 1 0 'KEYS~\nstep 1 run 'KEYS 'KEYS_2~a~b~ - -\n",
        breaks: 0,
    },
    // Lists them out of order.
    Row {
        lines: b"open 1\nfeed 1 0 'SET_b_-_7~\nstep 1 run 'SET_b_-_7 'OK~ - 0\nfeed 1 0 'SET_a_-_1~\nstep 1 run 'SET_a_-_1 'OK~ - 0\nfeed 1 0 'KEYS~\nstep 1 run 'KEYS 'KEYS_2~b~a~ - -\n",
        breaks: 4,
    },
    // Replaces a value by its sum and does not tell it.
    Row {
        lines: b"open 1\nfeed 1 0 'SET_b_-_7~\nstep 1 run 'SET_b_-_7 'OK~ - 0\nfeed 1 0 'ADD_b_-_5~\nstep 1 run 'ADD_b_-_5 'VAL_12~ - 0\n",
        breaks: 3,
    },
];

/// A value is shown from its deadline on, and what is right.
const LATE: &[Row] = &[
    Row {
        lines: b"open 1\nfeed 1 0 'SET_a_-_1~\nstep 1 run 'SET_a_-_1 'OK~ - 0\nfeed 1 1000000 'GET_a~\nstep 1 run 'GET_a 'VAL_1~ - -\n",
        breaks: 3,
    },
    Row {
        lines: b"open 1\nfeed 1 0 'SET_a_-_1~\nstep 1 run 'SET_a_-_1 'OK~ - 0\nfeed 1 1000000 'GET_a~\nstep 1 run 'GET_a 'NONE~ - -\n",
        breaks: 0,
    },
    Row {
        lines: b"open 1\nfeed 1 0 'SET_a_-_1~\nstep 1 run 'SET_a_-_1 'OK~ - 0\nfeed 1 999999 'GET_a~\nstep 1 run 'GET_a 'VAL_1~ - -\n",
        breaks: 0,
    },
];

/// Own deadlines.
const DEADLINES: &[Row] = &[
    // Shows a value until its deadline, and no longer.
    Row {
        lines: b"open 1\nfeed 1 0 'SET_a_1_x~\nstep 1 run 'SET_a_1_x 'OK~ - 0\nfeed 1 999423 'GET_a~\nstep 1 run 'GET_a 'VAL_x~ - -\n",
        breaks: 0,
    },
    // Shows a value at its deadline.
    Row {
        lines: b"open 1\nfeed 1 0 'SET_a_1_x~\nstep 1 run 'SET_a_1_x 'OK~ - 0\nfeed 1 999424 'GET_a~\nstep 1 run 'GET_a 'VAL_x~ - -\n",
        breaks: 3,
    },
    // Hides a value before its deadline.
    Row {
        lines: b"open 1\nfeed 1 0 'SET_a_1_x~\nstep 1 run 'SET_a_1_x 'OK~ - 0\nfeed 1 999423 'GET_a~\nstep 1 run 'GET_a 'NONE~ - -\n",
        breaks: 3,
    },
];

/// Two parts.
const PARTS: &[Row] = &[
    // Covers only one part.
    Row {
        lines: b"open 1\nfeed 1 0 'SET_ab_-_1~\nstep 1 run 'SET_ab_-_1 'OK~ - 0\nfeed 1 0 'SET_ac_-_2~\nstep 1 run 'SET_ac_-_2 'OK~ - 1\nfeed 1 0 'DROPIF_a~\nstep 1 run 'DROPIF_a 'OK~ - -\nfeed 1 0 'GET_ab~\nstep 1 run 'GET_ab 'NONE~ - -\nfeed 1 0 'GET_ac~\nstep 1 run 'GET_ac 'VAL_2~ - -\n",
        breaks: 6,
    },
    // Covers all parts.
    Row {
        lines: b"open 1\nfeed 1 0 'SET_ab_-_1~\nstep 1 run 'SET_ab_-_1 'OK~ - 0\nfeed 1 0 'SET_ac_-_2~\nstep 1 run 'SET_ac_-_2 'OK~ - 1\nfeed 1 0 'DROPIF_a~\nstep 1 run 'DROPIF_a 'OK~ - -\nfeed 1 0 'GET_ab~\nstep 1 run 'GET_ab 'NONE~ - -\nfeed 1 0 'GET_ac~\nstep 1 run 'GET_ac 'NONE~ - -\n",
        breaks: 0,
    },
    // Moves a key to another part.
    Row {
        lines: b"open 1\nfeed 1 0 'SET_a_-_1~\nstep 1 run 'SET_a_-_1 'OK~ - 0\nfeed 1 0 'SET_a_-_2~\nstep 1 run 'SET_a_-_2 'OK~ - 1\nnote Replaced 'a '1\n",
        breaks: 3,
    },
    // Moves a key to another part when its value is gone.
    Row {
        lines: b"open 1\nfeed 1 0 'SET_a_-_1~\nstep 1 run 'SET_a_-_1 'OK~ - 0\nfeed 1 0 'DEL_a~\nstep 1 run 'DEL_a 'OK~ - -\nnote Explicit 'a '1\nfeed 1 0 'SET_a_-_2~\nstep 1 run 'SET_a_-_2 'OK~ - 1\n",
        breaks: 4,
    },
];

/// Room for one value.
const ROOM: &[Row] = &[
    // Lets the value used last leave, which obeys.
    Row {
        lines: b"open 1\nfeed 1 0 'SET_a_-_1~\nstep 1 run 'SET_a_-_1 'OK~ - 0\nfeed 1 0 'SET_b_-_2~\nstep 1 run 'SET_b_-_2 'OK~ - 0\nnote Size 'a '1\nfeed 1 0 'GET_b~\nstep 1 run 'GET_b 'VAL_2~ - -\n",
        breaks: 0,
    },
    // Is above its share after a `SYNC`.
    Row {
        lines: b"open 1\nfeed 1 0 'SET_a_-_1~\nstep 1 run 'SET_a_-_1 'OK~ - 0\nfeed 1 0 'SET_b_-_2~\nstep 1 run 'SET_b_-_2 'OK~ - 0\nfeed 1 0 'SYNC~\nstep 1 run 'SYNC 'SYNC_2_2~ - -\n",
        breaks: 4,
    },
    // Lets a value leave with room to spare.
    Row {
        lines: b"open 1\nfeed 1 0 'SET_a_-_1~\nstep 1 run 'SET_a_-_1 'OK~ - 0\nfeed 1 0 'GET_a~\nstep 1 run 'GET_a 'VAL_1~ - -\nnote Size 'a '1\n",
        breaks: 3,
    },
    // Lets a value leave at an earlier point.
    Row {
        lines: b"open 1\nfeed 1 0 'SET_a_-_1~\nstep 1 run 'SET_a_-_1 'OK~ - 0\nfeed 1 0 'SET_b_-_2~\nstep 1 run 'SET_b_-_2 'OK~ - 0\nfeed 1 0 'DEL_b~\nstep 1 run 'DEL_b 'OK~ - -\nnote Explicit 'b '2\nfeed 1 0 'GET_a~\nstep 1 run 'GET_a 'VAL_1~ - -\nnote Size 'a '1\n",
        breaks: 0,
    },
    // Forgets no earlier point at a `SYNC`.
    Row {
        lines: b"open 1\nfeed 1 0 'SET_a_-_1~\nstep 1 run 'SET_a_-_1 'OK~ - 0\nfeed 1 0 'SET_b_-_2~\nstep 1 run 'SET_b_-_2 'OK~ - 0\nfeed 1 0 'SYNC~\nstep 1 run 'SYNC 'SYNC_1_1~ - -\nnote Size 'b '2\nfeed 1 0 'GET_a~\nstep 1 run 'GET_a 'VAL_1~ - -\nnote Size 'a '1\n",
        breaks: 5,
    },
];

const CASES: &[Case] = &[
    Case {
        head: PLAIN,
        rows: WRONG,
    },
    Case {
        head: PLAIN,
        rows: NOTES,
    },
    Case {
        head: PLAIN,
        rows: LINES,
    },
    Case {
        head: BRIEF,
        rows: LATE,
    },
    Case {
        head: OWN,
        rows: DEADLINES,
    },
    Case {
        head: TWO_PARTS,
        rows: PARTS,
    },
    Case {
        head: FULL,
        rows: ROOM,
    },
];

#[test]
fn wrong_services(rt: HostRuntime) {
    all_right(&rt, rt.alloc(), CASES);
}
