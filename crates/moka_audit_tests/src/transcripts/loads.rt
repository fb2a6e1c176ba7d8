//! Loads: those of the worked scripts, and what wrong services would have recorded of them.
use crate::transcripts::rows::{Case, NOTHING, OWN, PLAIN, Row, all_right, verdict_again};
use std::alloc::{AllocError, Global};

/// Whatever the settings.
const LOADS: &[Row] = &[
    // One load for two connections, and its value is there then.
    Row {
        lines: b"open 1\nopen 2\nfeed 1 0 'LOAD_k~\nstep 1 run 'LOAD_k - 1 -\nfeed 2 0 'LOAD_k~\nstep 2 run 'LOAD_k - - -\nanswer 1 0 value 'v -\nown 0\nstep 1 run 'LOAD_k 'VAL_v~ - -\nstep 2 run 'LOAD_k 'VAL_v~ - -\nfeed 1 0 'GET_k~\nstep 1 run 'GET_k 'VAL_v~ - -\n",
        breaks: 0,
    },
    // Each connection starts its own load of a key.
    Row {
        lines: b"open 1\nopen 2\nfeed 1 0 'LOAD_k~\nstep 1 run 'LOAD_k - 1 -\nfeed 2 0 'LOAD_k~\nstep 2 run 'LOAD_k - 2 -\n",
        breaks: 4,
    },
    // A give-up runs both again, and one load goes out.
    Row {
        lines: b"open 1\nopen 2\nfeed 1 0 'LOAD_k~\nstep 1 run 'LOAD_k - 1 -\nfeed 2 0 'LOAD_k~\nstep 2 run 'LOAD_k - - -\ngiveup 1 0\nstep 1 run 'LOAD_k - 2 -\nstep 2 run 'LOAD_k - - -\nanswer 2 0 value 'v -\nown 0\nstep 1 run 'LOAD_k 'VAL_v~ - -\nstep 2 run 'LOAD_k 'VAL_v~ - -\n",
        breaks: 0,
    },
    // After a give-up those that wait are answered `NONE`.
    Row {
        lines: b"open 1\nopen 2\nfeed 1 0 'LOAD_k~\nstep 1 run 'LOAD_k - 1 -\nfeed 2 0 'LOAD_k~\nstep 2 run 'LOAD_k - - -\ngiveup 1 0\nstep 1 run 'LOAD_k 'NONE~ - -\nstep 2 run 'LOAD_k 'NONE~ - -\n",
        breaks: 5,
    },
    // After a give-up the one that waits is run again, and the others are left out.
    Row {
        lines: b"open 1\nopen 2\nfeed 1 0 'LOAD_k~\nstep 1 run 'LOAD_k - 1 -\nfeed 2 0 'LOAD_k~\nstep 2 run 'LOAD_k - - -\ngiveup 1 0\nstep 1 run 'LOAD_k - 2 -\n",
        breaks: 5,
    },
    // A line behind a `LOAD` that waits runs early, as it came in another piece, or in the same
    // one.
    Row {
        lines: b"open 1\nopen 2\nfeed 1 0 'LOAD_k~\nstep 1 run 'LOAD_k - 1 -\nfeed 1 0 'GET_a~\nstep 1 run 'GET_a 'NONE~ - -\n",
        breaks: 4,
    },
    Row {
        lines: b"open 1\nfeed 1 0 'LOAD_k~GET_a~\nstep 1 run 'LOAD_k - 1 -\nstep 1 run 'GET_a 'NONE~ - -\n",
        breaks: 2,
    },
    // The line runs behind its `LOAD`'s answer.
    Row {
        lines: b"open 1\nfeed 1 0 'LOAD_k~\nstep 1 run 'LOAD_k - 1 -\nfeed 1 0 'GET_a~\nanswer 1 0 none\nstep 1 run 'LOAD_k 'NONE~ - -\nstep 1 run 'GET_a 'NONE~ - -\n",
        breaks: 0,
    },
    // All that wait are answered before a line runs.
    Row {
        lines: b"open 1\nopen 2\nfeed 1 0 'LOAD_k~GET_k~\nstep 1 run 'LOAD_k - 1 -\nfeed 2 0 'LOAD_k~\nstep 2 run 'LOAD_k - - -\nanswer 1 0 value 'v -\nown 0\nstep 1 run 'LOAD_k 'VAL_v~ - -\nstep 2 run 'LOAD_k 'VAL_v~ - -\nstep 1 run 'GET_k 'VAL_v~ - -\n",
        breaks: 0,
    },
    Row {
        lines: b"open 1\nopen 2\nfeed 1 0 'LOAD_k~GET_k~\nstep 1 run 'LOAD_k - 1 -\nfeed 2 0 'LOAD_k~\nstep 2 run 'LOAD_k - - -\nanswer 1 0 value 'v -\nown 0\nstep 1 run 'LOAD_k 'VAL_v~ - -\nstep 1 run 'GET_k 'VAL_v~ - -\nstep 2 run 'LOAD_k 'VAL_v~ - -\n",
        breaks: 5,
    },
    // A `DEL` that came meanwhile does not stop the value.
    Row {
        lines: b"open 1\nopen 2\nfeed 1 0 'LOAD_k~\nstep 1 run 'LOAD_k - 1 -\nfeed 2 0 'DEL_k~\nstep 2 run 'DEL_k 'OK~ - -\nanswer 1 0 value 'v -\nown 0\nstep 1 run 'LOAD_k 'VAL_v~ - -\nfeed 2 0 'GET_k~\nstep 2 run 'GET_k 'VAL_v~ - -\n",
        breaks: 0,
    },
    // An answer skips its value as a `DEL` came meanwhile, and says so, or does not.
    Row {
        lines: b"open 1\nopen 2\nfeed 1 0 'LOAD_k~\nstep 1 run 'LOAD_k - 1 -\nfeed 2 0 'DEL_k~\nstep 2 run 'DEL_k 'OK~ - -\nanswer 1 0 value 'v -\nstep 1 run 'LOAD_k 'VAL_v~ - -\n",
        breaks: 5,
    },
    Row {
        lines: b"open 1\nopen 2\nfeed 1 0 'LOAD_k~\nstep 1 run 'LOAD_k - 1 -\nfeed 2 0 'DEL_k~\nstep 2 run 'DEL_k 'OK~ - -\nanswer 1 0 value 'v -\nown 0\nstep 1 run 'LOAD_k 'VAL_v~ - -\nfeed 2 0 'GET_k~\nstep 2 run 'GET_k 'NONE~ - -\n",
        breaks: 6,
    },
    // What a fault says is told, and no value comes of it.
    Row {
        lines: b"open 1\nfeed 1 0 'LOAD_k~\nstep 1 run 'LOAD_k - 1 -\nanswer 1 0 fault 'down\nstep 1 run 'LOAD_k 'ERR_load_down~ - -\nfeed 1 0 'QUIT~GET_a~\nstep 1 run 'QUIT 'OK~ - -\n",
        breaks: 0,
    },
    // An outcome that the event refuses: a line end in a value or a fault, a time where there are
    // no own deadlines.
    Row {
        lines: b"open 1\nfeed 1 0 'LOAD_k~\nstep 1 run 'LOAD_k - 1 -\nanswer 1 0 value 'x~y -\nown 0\nstep 1 run 'LOAD_k 'VAL_x~y~ - -\n",
        breaks: 3,
    },
    Row {
        lines: b"open 1\nfeed 1 0 'LOAD_k~\nstep 1 run 'LOAD_k - 1 -\nanswer 1 0 fault 'x^\nstep 1 run 'LOAD_k 'ERR_load_x^~ - -\n",
        breaks: 3,
    },
    Row {
        lines: b"open 1\nfeed 1 0 'LOAD_k~\nstep 1 run 'LOAD_k - 1 -\nanswer 1 0 value 'x 1\nown 0\nstep 1 run 'LOAD_k 'VAL_x~ - -\n",
        breaks: 3,
    },
    // A load is answered twice, or answered after it was given up.
    Row {
        lines: b"open 1\nfeed 1 0 'LOAD_k~\nstep 1 run 'LOAD_k - 1 -\nanswer 1 0 none\nstep 1 run 'LOAD_k 'NONE~ - -\nanswer 1 0 none\n",
        breaks: 4,
    },
    Row {
        lines: b"open 1\nfeed 1 0 'LOAD_k~\nstep 1 run 'LOAD_k - 1 -\ngiveup 1 0\nstep 1 run 'LOAD_k - 2 -\nanswer 1 0 none\nstep 1 run 'LOAD_k 'NONE~ - -\n",
        breaks: 4,
    },
    // A live value is answered, and no load goes out.
    Row {
        lines: b"open 1\nfeed 1 0 'SET_a_-_1~\nstep 1 run 'SET_a_-_1 'OK~ - 0\nfeed 1 0 'LOAD_a~\nstep 1 run 'LOAD_a 'VAL_1~ - -\n",
        breaks: 0,
    },
    Row {
        lines: b"open 1\nfeed 1 0 'SET_a_-_1~\nstep 1 run 'SET_a_-_1 'OK~ - 0\nfeed 1 0 'LOAD_a~\nstep 1 run 'LOAD_a - 1 -\n",
        breaks: 3,
    },
    // The value that it finds replaced is told; without a value nothing is told.
    Row {
        lines: b"open 1\nopen 2\nfeed 1 0 'LOAD_k~\nstep 1 run 'LOAD_k - 1 -\nfeed 2 0 'SET_k_-_1~\nstep 2 run 'SET_k_-_1 'OK~ - 0\nanswer 1 0 value 'v -\nown 0\nownnote Replaced 'k '1\nstep 1 run 'LOAD_k 'VAL_v~ - -\n",
        breaks: 0,
    },
    Row {
        lines: b"open 1\nopen 2\nfeed 1 0 'LOAD_k~\nstep 1 run 'LOAD_k - 1 -\nfeed 2 0 'SET_k_-_1~\nstep 2 run 'SET_k_-_1 'OK~ - 0\nanswer 1 0 value 'v -\nown 0\nstep 1 run 'LOAD_k 'VAL_v~ - -\n",
        breaks: 5,
    },
    Row {
        lines: b"open 1\nopen 2\nfeed 1 0 'LOAD_k~\nstep 1 run 'LOAD_k - 1 -\nfeed 2 0 'SET_k_-_1~\nstep 2 run 'SET_k_-_1 'OK~ - 0\nanswer 1 0 none\nownnote Replaced 'k '1\nstep 1 run 'LOAD_k 'NONE~ - -\n",
        breaks: 5,
    },
    // A closed connection is left out, and its load stays under way.
    Row {
        lines: b"open 1\nopen 2\nfeed 1 0 'LOAD_k~\nstep 1 run 'LOAD_k - 1 -\nclose 1\nfeed 2 0 'LOAD_k~\nstep 2 run 'LOAD_k - - -\nanswer 1 0 value 'v -\nown 0\nstep 2 run 'LOAD_k 'VAL_v~ - -\n",
        breaks: 0,
    },
    Row {
        lines: b"open 1\nopen 2\nfeed 1 0 'LOAD_k~\nstep 1 run 'LOAD_k - 1 -\nclose 1\nfeed 2 0 'LOAD_k~\nstep 2 run 'LOAD_k - 2 -\n",
        breaks: 5,
    },
    // Loads of several keys are answered in another order, and one of those that wait closes.
    Row {
        lines: b"open 1\nopen 2\nopen 3\nfeed 1 0 'LOAD_a~\nstep 1 run 'LOAD_a - 1 -\nfeed 2 0 'LOAD_b~\nstep 2 run 'LOAD_b - 2 -\nfeed 3 0 'LOAD_c~\nstep 3 run 'LOAD_c - 3 -\nanswer 2 0 none\nstep 2 run 'LOAD_b 'NONE~ - -\nfeed 2 0 'LOAD_a~\nstep 2 run 'LOAD_a - - -\nclose 1\nanswer 3 0 none\nstep 3 run 'LOAD_c 'NONE~ - -\nfeed 3 0 'LOAD_b~\nstep 3 run 'LOAD_b - 4 -\nanswer 1 0 none\nstep 2 run 'LOAD_a 'NONE~ - -\nanswer 4 0 none\nstep 3 run 'LOAD_b 'NONE~ - -\n",
        breaks: 0,
    },
    // Those that wait are told in the order in which they joined, without the one that closed.
    Row {
        lines: b"open 1\nopen 2\nopen 3\nopen 4\nfeed 1 0 'LOAD_k~\nstep 1 run 'LOAD_k - 1 -\nfeed 2 0 'LOAD_k~\nstep 2 run 'LOAD_k - - -\nfeed 3 0 'LOAD_k~\nstep 3 run 'LOAD_k - - -\nfeed 4 0 'LOAD_k~\nstep 4 run 'LOAD_k - - -\nclose 2\nopen 5\nfeed 5 0 'LOAD_k~\nstep 5 run 'LOAD_k - - -\nanswer 1 0 value 'v -\nown 0\nstep 1 run 'LOAD_k 'VAL_v~ - -\nstep 3 run 'LOAD_k 'VAL_v~ - -\nstep 4 run 'LOAD_k 'VAL_v~ - -\nstep 5 run 'LOAD_k 'VAL_v~ - -\n",
        breaks: 0,
    },
    Row {
        lines: b"open 1\nopen 2\nopen 3\nopen 4\nfeed 1 0 'LOAD_k~\nstep 1 run 'LOAD_k - 1 -\nfeed 2 0 'LOAD_k~\nstep 2 run 'LOAD_k - - -\nfeed 3 0 'LOAD_k~\nstep 3 run 'LOAD_k - - -\nfeed 4 0 'LOAD_k~\nstep 4 run 'LOAD_k - - -\nclose 2\nopen 5\nfeed 5 0 'LOAD_k~\nstep 5 run 'LOAD_k - - -\nanswer 1 0 value 'v -\nown 0\nstep 1 run 'LOAD_k 'VAL_v~ - -\nstep 4 run 'LOAD_k 'VAL_v~ - -\nstep 3 run 'LOAD_k 'VAL_v~ - -\nstep 5 run 'LOAD_k 'VAL_v~ - -\n",
        breaks: 12,
    },
    // A `LOAD` that runs again finds no memory, and is held back.
    Row {
        lines: b"open 1\nfeed 1 0 'LOAD_k~\nstep 1 run 'LOAD_k - 1 -\ngiveup 1 0\nstep 1 held 'LOAD_k - - -\nfeed 1 0 '\nstep 1 run 'LOAD_k - 2 -\n",
        breaks: 0,
    },
    // One that is answered is not.
    Row {
        lines: b"open 1\nfeed 1 0 'LOAD_k~\nstep 1 run 'LOAD_k - 1 -\nanswer 1 0 none\nstep 1 held 'LOAD_k - - -\n",
        breaks: 3,
    },
];

/// Nothing is kept.
const OFF: &[Row] = &[
    Row {
        lines: b"open 1\nfeed 1 0 'SET_a_-_1~\nstep 1 run 'SET_a_-_1 'OFF~ - -\nfeed 1 0 'LOAD_k~\nstep 1 run 'LOAD_k - 1 -\nanswer 1 0 value 'v -\nstep 1 run 'LOAD_k 'VAL_v~ - -\nfeed 1 0 'GET_k~\nstep 1 run 'GET_k 'NONE~ - -\n",
        breaks: 0,
    },
    Row {
        lines: b"open 1\nfeed 1 0 'LOAD_k~\nstep 1 run 'LOAD_k - 1 -\nanswer 1 0 value 'v -\nown 0\nstep 1 run 'LOAD_k 'VAL_v~ - -\n",
        breaks: 3,
    },
];

/// A loaded value dies at its own deadline.
const TIMED: &[Row] = &[
    Row {
        lines: b"open 1\nfeed 1 0 'LOAD_k~\nstep 1 run 'LOAD_k - 1 -\nanswer 1 0 value 'v 1\nown 0\nstep 1 run 'LOAD_k 'VAL_v~ - -\nfeed 1 999423 'GET_k~\nstep 1 run 'GET_k 'VAL_v~ - -\nfeed 1 999424 'GET_k~\nstep 1 run 'GET_k 'NONE~ - -\n",
        breaks: 0,
    },
    Row {
        lines: b"open 1\nfeed 1 0 'LOAD_k~\nstep 1 run 'LOAD_k - 1 -\nanswer 1 0 value 'v 1\nown 0\nstep 1 run 'LOAD_k 'VAL_v~ - -\nfeed 1 999424 'GET_k~\nstep 1 run 'GET_k 'VAL_v~ - -\n",
        breaks: 4,
    },
];

const CASES: &[Case] = &[
    Case {
        head: PLAIN,
        rows: LOADS,
    },
    Case {
        head: NOTHING,
        rows: OFF,
    },
    Case {
        head: OWN,
        rows: TIMED,
    },
];

#[test]
fn loads(rt: HostRuntime) {
    all_right(&rt, rt.alloc(), CASES);
}

/// Puts a give-up, behind which the next load is sent.
fn put_give_up(alloc: Global, lines: &mut Vec<u8>, number: u64) -> Result<(), AllocError> {
    let next = number.saturating_add(1);
    let text = format!(in alloc; "giveup {number} 0\nstep 1 run 'LOAD_k - {next} -\n")?;
    lines.extend_from_slice(text.as_bytes())
}

/// Puts a give-up that is the last, and a `LOAD` that comes then.
fn put_last(alloc: Global, lines: &mut Vec<u8>, number: u64) -> Result<(), AllocError> {
    let next = number.saturating_add(1);
    let text = format!(in alloc;
        "giveup {number} 0\nstep 1 run 'LOAD_k 'ERR_abandoned~ - -\nfeed 1 0 'LOAD_k~\nstep 1 run 'LOAD_k - {next} -\n"
    )?;
    lines.extend_from_slice(text.as_bytes())
}

/// Puts the give-ups that come before this one.
fn put_earlier(alloc: Global, lines: &mut Vec<u8>, times: u64) -> Result<(), AllocError> {
    for number in 1..times {
        put_give_up(alloc, lines, number)?;
    }
    Ok(())
}

/// The lines of a `LOAD` that is given up again and again, at each but the last time sending a load
/// anew, and abandoned at the last.
fn given_up(alloc: Global, times: u64) -> Result<Vec<u8>, AllocError> {
    let start = b"open 1\nfeed 1 0 'LOAD_k~\nstep 1 run 'LOAD_k - 1 -\n";
    let mut lines = Vec::from_slice(alloc, start)?;
    put_earlier(alloc, &mut lines, times)?;
    put_last(alloc, &mut lines, times)?;
    Ok(lines)
}

/// Puts so many bytes.
fn put_bytes(lines: &mut Vec<u8>, count: u64) -> Result<(), AllocError> {
    for _byte in 0..count {
        lines.push(b'x')?;
    }
    Ok(())
}

/// The lines of a `LOAD` with that many bytes behind it, and its answer.
fn behind(alloc: Global, count: u64, steps: &[u8]) -> Result<Vec<u8>, AllocError> {
    let mut lines = Vec::from_slice(alloc, b"open 1\nfeed 1 0 'LOAD_k~")?;
    put_bytes(&mut lines, count)?;
    lines.extend_from_slice(b"\nstep 1 run 'LOAD_k - 1 -\nanswer 1 0 none\n")?;
    lines.extend_from_slice(steps)?;
    Ok(lines)
}

const TOLD: &[u8] = b"step 1 run 'LOAD_k 'NONE~ - -\n";

/// Lines that are too long to be written out.
#[derive(Clone, Copy)]
enum Long {
    /// A load is given up so often.
    GivenUp(u64),
    /// So many bytes stand behind a `LOAD`, whose answer has these steps.
    Behind(u64, &'static [u8]),
}

/// Such lines, and the record at which they break a rule, or 0.
const LONG: &[(Long, u64)] = &[
    (Long::GivenUp(200), 0),
    (Long::GivenUp(199), 201),
    (Long::GivenUp(201), 202),
    (Long::Behind(8192, TOLD), 0),
    (Long::Behind(8192, b""), 3),
    (Long::Behind(8193, b""), 0),
    (Long::Behind(8193, TOLD), 3),
];

fn lines_of(alloc: Global, long: Long) -> Result<Vec<u8>, AllocError> {
    match long {
        Long::GivenUp(times) => given_up(alloc, times),
        Long::Behind(count, steps) => behind(alloc, count, steps),
    }
}

/// The same, on the second attempt if memory is refused.
fn lines_again(alloc: Global, long: Long) -> Result<Vec<u8>, AllocError> {
    match lines_of(alloc, long) {
        Ok(lines) => Ok(lines),
        Err(_) => lines_of(alloc, long),
    }
}

/// Whether such lines are judged to break a rule at that record.
fn is_right(alloc: Global, long: Long, breaks: u64) -> bool {
    match lines_again(alloc, long) {
        Ok(lines) => verdict_again(alloc, PLAIN, &lines) == Some(breaks),
        Err(_) => false,
    }
}

/// How many of these are judged so before one is not.
fn right_long(alloc: Global) -> usize {
    for place in 0..LONG.len() {
        let (long, breaks) = LONG[place];
        if !is_right(alloc, long, breaks) {
            return place;
        }
    }
    LONG.len()
}

#[test]
fn many_give_ups_and_bytes_behind_a_load(rt: HostRuntime) {
    assert_eq!(rt; right_long(rt.alloc()), LONG.len());
}
