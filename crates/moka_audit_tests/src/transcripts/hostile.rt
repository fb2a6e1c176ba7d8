//! What is no transcript of a service.
use crate::transcripts::rows::{Case, PLAIN, Row, all_right};

/// Wrong numbers, lines, parts and moments.
const HOSTILE: &[Row] = &[
    Row {
        lines: b"",
        breaks: 0,
    },
    Row {
        lines: b"feed 1 0 'GET_a~\n",
        breaks: 1,
    },
    Row {
        lines: b"open 18446744073709551615\n",
        breaks: 1,
    },
    Row {
        lines: b"open 0\n",
        breaks: 1,
    },
    Row {
        lines: b"open 2\n",
        breaks: 1,
    },
    Row {
        lines: b"open 1\n",
        breaks: 0,
    },
    Row {
        lines: b"close 0\n",
        breaks: 1,
    },
    Row {
        lines: b"open 1\nclose 1\nclose 1\n",
        breaks: 3,
    },
    Row {
        lines: b"answer 18446744073709551615 0 none\n",
        breaks: 1,
    },
    Row {
        lines: b"giveup 1 0\n",
        breaks: 1,
    },
    Row {
        lines: b"open 1\nfeed 1 9223372036854775808 'G\n",
        breaks: 2,
    },
    Row {
        lines: b"open 1\nfeed 1 0 'GET_a~\nstep 1 run 'GET_b 'NONE~ - -\n",
        breaks: 2,
    },
    Row {
        lines: b"open 1\nfeed 1 0 'GET_a~\nstep 2 run 'GET_a 'NONE~ - -\n",
        breaks: 2,
    },
    Row {
        lines: b"open 1\nfeed 1 0 'GET_a~\nstep 1 held 'GET_a 'NONE~ - -\n",
        breaks: 2,
    },
    Row {
        lines: b"open 1\nfeed 1 0 'GET_a~\nstep 1 run 'GET_a 'NONE~ - 0\n",
        breaks: 2,
    },
    Row {
        lines: b"open 1\nfeed 1 0 'GET_a~\nstep 1 run 'GET_a 'NONE~ 1 -\n",
        breaks: 2,
    },
    Row {
        lines: b"open 1\nfeed 1 0 'GET_a~\nstep 1 run 'GET_a 'NONE~ - -\nnote Expired 'zz '1\n",
        breaks: 2,
    },
    Row {
        lines: b"open 1\nfeed 1 0 'GET_a~\nstep 1 run 'GET_a 'NONE~ - -\nstep 1 run 'GET_a 'NONE~ - -\n",
        breaks: 2,
    },
    Row {
        lines: b"open 1\nfeed 1 0 'GET_a\nstep 1 run 'GET_a 'NONE~ - -\n",
        breaks: 2,
    },
    Row {
        lines: b"open 1\nfeed 1 0 'GET_a~\nstep 1 run 'GET_a 'NONE~ - -\n",
        breaks: 0,
    },
    Row {
        lines: b"open 1\nfeed 1 0 'SET_a_-_1~\nstep 1 run 'SET_a_-_1 'OK~ - 1\n",
        breaks: 2,
    },
    Row {
        lines: b"open 1\nfeed 1 0 'SET_a_-_1~\nstep 1 run 'SET_a_-_1 'OK~ - 18446744073709551615\n",
        breaks: 2,
    },
    Row {
        lines: b"open 1\nfeed 1 0 'SET_a_-_1~\nstep 1 run 'SET_a_-_1 'OK~ - -\n",
        breaks: 2,
    },
    Row {
        lines: b"open 1\nfeed 1 0 'SET_a_-_1~\nstep 1 run 'SET_a_-_1 'OK~ - 0\n",
        breaks: 0,
    },
    Row {
        lines: b"open 1\nfeed 1 0 'SET_a_-_1~\nstep 1 run 'SET_a_-_1 'OK~ - 0\nfeed 1 0 'HAS_a~\nstep 1 run 'HAS_a 'YES~ - -\nnote Explicit 'a '1\n",
        breaks: 3,
    },
    Row {
        lines: b"open 1\nown 0\n",
        breaks: 1,
    },
];

/// More of them: one step too few or too much said of a line.
const MORE: &[Row] = &[
    // Tells a key that was never held.
    Row {
        lines: b"open 1\nfeed 1 0 'SYNC~\nstep 1 run 'SYNC 'SYNC_0_0~ - -\nnote Size 'z '1\n",
        breaks: 2,
    },
    // Is fed at a moment above all.
    Row {
        lines: b"open 1\nfeed 1 9223372036854775807 'GET_a~\nstep 1 run 'GET_a 'NONE~ - -\nfeed 1 9223372036854775808 'GET_a~\nstep 1 run 'GET_a 'NONE~ - -\n",
        breaks: 3,
    },
    // Runs a line of the last connection of all.
    Row {
        lines: b"open 1\nfeed 1 0 'GET_a~\nstep 18446744073709551615 run 'GET_a 'NONE~ - -\n",
        breaks: 2,
    },
    // Runs a line with its line end.
    Row {
        lines: b"open 1\nfeed 1 0 'GET_a~\nstep 1 run 'GET_a~ 'NONE~ - -\n",
        breaks: 2,
    },
    // Leaves a line that could run.
    Row {
        lines: b"open 1\nfeed 1 0 'GET_a~GET_b~\nstep 1 run 'GET_a 'NONE~ - -\n",
        breaks: 2,
    },
    // Runs a line without the one carriage return.
    Row {
        lines: b"open 1\nfeed 1 0 'GET_a^~\nstep 1 run 'GET_a 'NONE~ - -\n",
        breaks: 0,
    },
    // Runs an empty line.
    Row {
        lines: b"open 1\nfeed 1 0 '~\nstep 1 run ' 'ERR_command~ - -\n",
        breaks: 0,
    },
    // Adds beyond the last number of all.
    Row {
        lines: b"open 1\nfeed 1 0 'SET_n_-_18446744073709551615~\nstep 1 run 'SET_n_-_18446744073709551615 'OK~ - 0\nfeed 1 0 'ADD_n_-_1~\nstep 1 run 'ADD_n_-_1 'VAL_18446744073709551616~ - 0\nnote Replaced 'n '18446744073709551615\n",
        breaks: 3,
    },
    // Adds up to the last number of all.
    Row {
        lines: b"open 1\nfeed 1 0 'SET_n_-_18446744073709551614~\nstep 1 run 'SET_n_-_18446744073709551614 'OK~ - 0\nfeed 1 0 'ADD_n_-_1~\nstep 1 run 'ADD_n_-_1 'VAL_18446744073709551615~ - 0\nnote Replaced 'n '18446744073709551614\n",
        breaks: 0,
    },
    // Replies without a line end.
    Row {
        lines: b"open 1\nfeed 1 0 'GET_a~\nstep 1 run 'GET_a 'NONE - -\n",
        breaks: 2,
    },
];

const CASES: &[Case] = &[
    Case {
        head: PLAIN,
        rows: HOSTILE,
    },
    Case {
        head: PLAIN,
        rows: MORE,
    },
];

#[test]
fn hostile_transcripts(rt: HostRuntime) {
    all_right(&rt, rt.alloc(), CASES);
}
