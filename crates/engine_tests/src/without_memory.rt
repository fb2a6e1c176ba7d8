//! What needs no memory: it comes out so with every request refused.
//!
//! A test asks for a block of a size that nothing else asks for, `BEGINS`, and at the end for one of
//! another, `ENDS`. `tools/refuse_allocations.py --between` refuses whatever is asked for from the
//! one to the other. Otherwise these are requests as any.
use crate::rows::{CASE, Case, Numbers, Row, SECOND, SETTINGS, at, empty_cache, wrong_among};
use engine_reference::{RemovalCause, Settings};
use std::alloc::Global;

const BEGINS: usize = 20_011;

const ENDS: usize = 20_012;

/// Asks for a block of so many bytes, whatever the answer is.
fn mark(alloc: Global, size: usize) {
    let _ = Vec::<u8>::with_capacity(alloc, size);
}

/// The place of the first row that does not come out so, after those before, with every request
/// refused.
fn wrong_row(alloc: Global, cache: &mut Numbers, case: &Case<'_>) -> Option<usize> {
    let mut now = at(0);
    let before = wrong_among(cache, case.before, &mut now);
    mark(alloc, BEGINS);
    let wrong = wrong_among(cache, case.rows, &mut now);
    mark(alloc, ENDS);
    before.or(wrong)
}

/// The same with a new cache; the first where there was no memory for one.
fn wrong_row_of(alloc: Global, case: &Case<'_>) -> Option<usize> {
    match empty_cache(alloc, case) {
        Ok(mut cache) => wrong_row(alloc, &mut cache, case),
        Err(_) => Some(0),
    }
}

/// The first case that does not come out so, and the place of its row.
fn first_wrong(alloc: Global, cases: &[Case<'_>]) -> Option<(usize, usize)> {
    for (number, case) in cases.iter().enumerate() {
        if let Some(place) = wrong_row_of(alloc, case) {
            return Some((number, place));
        }
    }
    None
}

const CASES: &[Case<'static>] = &[
    // A run after sixty writes, two of which leave for want of room.
    Case {
        settings: Settings {
            capacity: Some(2),
            ..SETTINGS
        },
        before: &[
            Row::PutsOften(1, 10, 58),
            Row::Puts(2, 20, 58),
            Row::Puts(3, 30, 59),
            Row::Puts(4, 40, 60),
        ],
        rows: &[
            Row::Runs,
            Row::Contains(1, false),
            Row::Contains(2, false),
            Row::Contains(3, true),
            Row::Contains(4, true),
            Row::Number(2),
            Row::Weight(2),
            Row::Tells(RemovalCause::Replaced, 1, 10),
        ],
        ..CASE
    },
    // A clear.
    Case {
        before: &[
            Row::Puts(0, 10, 1),
            Row::Puts(1, 11, 2),
            Row::Puts(2, 12, 3),
            Row::Runs,
        ],
        rows: &[
            Row::Clears(4),
            Row::Contains(0, false),
            Row::Contains(1, false),
            Row::Contains(2, false),
            Row::Runs,
            Row::Number(0),
            Row::TellsThreeCleared,
            Row::TellsNone,
        ],
        ..CASE
    },
    // A run that finds what has expired.
    Case {
        own: Some(SECOND),
        before: &[Row::Puts(1, 10, 1), Row::Runs],
        rows: &[
            Row::At(1 << 30),
            Row::Runs,
            Row::Number(0),
            Row::Tells(RemovalCause::Expired, 1, 10),
            Row::TellsNone,
        ],
        ..CASE
    },
];

#[test]
fn runs_and_clears(rt: HostRuntime) {
    assert_eq!(rt; first_wrong(rt.alloc(), CASES), None);
}
