//! Verdicts whose requests for memory are refused one after the other: each is `OutOfMemory` and no other, until no request is refused.
//!
//! A test asks for a block of `ARMS` and so many bytes, and in the end for one of `ARMS` alone, which nothing else asks for.
//! `tools/refuse_allocations.py --between` refuses these, and of the requests behind the first the one of that number alone.
//! Otherwise these are requests like any other, and each transcript is judged once.
use crate::transcripts::rows::{FULL, PLAIN, Row, breaks_at, read_lines};
use moka_audit::model::{Config, Transcript};
use std::alloc::Global;

const ARMS: usize = 21_000;

/// No verdict takes so many requests.
const MOST: usize = 200;

/// Has the request of that number refused, or none from here on if it is 0. Returns whether requests are refused at all.
fn arm(alloc: Global, number: usize) -> bool {
    Vec::<u8>::with_capacity(alloc, ARMS.saturating_add(number)).is_err()
}

/// The verdict with its request of that number refused: the record at which the transcript breaks a rule, or 0.
fn armed_verdict(
    alloc: Global,
    config: &Config,
    transcript: &Transcript,
    number: usize,
) -> Option<u64> {
    arm(alloc, number);
    let found = breaks_at(alloc, config, transcript);
    arm(alloc, 0);
    found
}

/// Judges a transcript until no request is refused. Returns how many were, if the verdict is the right one then.
fn refusals_of(
    alloc: Global,
    config: &Config,
    transcript: &Transcript,
    breaks: u64,
) -> Option<usize> {
    for refused in 0..MOST {
        if let Some(found) = armed_verdict(alloc, config, transcript, refused.saturating_add(1)) {
            return if found == breaks { Some(refused) } else { None };
        }
    }
    None
}

/// Whether each refused request of a row's verdict is told, of which there are some where requests are refused.
fn is_told(alloc: Global, head: &[u8], row: &Row) -> bool {
    let is_refusing = arm(alloc, 0);
    match read_lines(alloc, head, row.lines) {
        Some((config, transcript)) => {
            match refusals_of(alloc, &config, &transcript, row.breaks) {
                Some(refused) => (refused > 0) == is_refusing,
                None => false,
            }
        }
        None => false,
    }
}

/// How many rows come out so before one does not.
fn told_rows(alloc: Global, head: &[u8], rows: &[Row]) -> usize {
    for (place, row) in rows.iter().enumerate() {
        if !is_told(alloc, head, row) {
            return place;
        }
    }
    rows.len()
}

/// Values, connections and loads that wait; a right one and a wrong one.
const OF_LOADS: &[Row] = &[
    Row {
        lines: b"open 1\nopen 2\nfeed 1 0 'LOAD_k~\nstep 1 run 'LOAD_k - 1 -\nfeed 2 0 'LOAD_k~\nstep 2 run 'LOAD_k - - -\nanswer 1 0 value 'v -\nown 0\nstep 1 run 'LOAD_k 'VAL_v~ - -\nstep 2 run 'LOAD_k 'VAL_v~ - -\nfeed 1 0 'GET_k~\nstep 1 run 'GET_k 'VAL_v~ - -\n",
        breaks: 0,
    },
    Row {
        lines: b"open 1\nopen 2\nfeed 1 0 'LOAD_k~\nstep 1 run 'LOAD_k - 1 -\nfeed 2 0 'LOAD_k~\nstep 2 run 'LOAD_k - - -\ngiveup 1 0\nstep 1 run 'LOAD_k 'NONE~ - -\nstep 2 run 'LOAD_k 'NONE~ - -\n",
        breaks: 5,
    },
];

/// Room for one value: the second evicts the first, or is told twice.
const OF_NOTES: &[Row] = &[
    Row {
        lines: b"open 1\nfeed 1 0 'SET_a_-_1~\nstep 1 run 'SET_a_-_1 'OK~ - 0\nfeed 1 0 'SET_a_-_2~\nstep 1 run 'SET_a_-_2 'OK~ - 0\nnote Replaced 'a '1\n",
        breaks: 0,
    },
    Row {
        lines: b"open 1\nfeed 1 0 'SET_a_-_1~\nstep 1 run 'SET_a_-_1 'OK~ - 0\nfeed 1 0 'SET_a_-_2~\nstep 1 run 'SET_a_-_2 'OK~ - 0\nnote Replaced 'a '1\nfeed 1 0 'GET_a~\nstep 1 run 'GET_a 'VAL_2~ - -\nnote Replaced 'a '1\n",
        breaks: 4,
    },
];

#[test]
fn verdicts_on_loads(rt: HostRuntime) {
    assert_eq!(rt; told_rows(rt.alloc(), PLAIN, OF_LOADS), OF_LOADS.len());
}

#[test]
fn verdicts_on_notes(rt: HostRuntime) {
    assert_eq!(rt; told_rows(rt.alloc(), FULL, OF_NOTES), OF_NOTES.len());
}
