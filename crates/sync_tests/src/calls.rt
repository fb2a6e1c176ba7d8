//! Calls of one thread.
use crate::forms::{FIVE_HUNDRED, Form, Settings};
use crate::making::Replaced;
use crate::rows::Row;
use crate::scenes::{Scene, Step, holds, holds_in};

const CALLS: &[Row] = &[
    Row::Insert(1, 10),
    Row::Insert(2, 20),
    Row::Get(1, Some(10)),
    Row::Get(3, None),
    Row::Has(2, true),
    Row::Insert(1, 11),
    Row::Get(1, Some(11)),
    Row::Run,
    Row::Count(2),
    Row::Weight(2),
    Row::Remove(2, Some(20)),
    Row::Has(2, false),
    Row::Invalidate(2),
    Row::Clear,
    Row::Get(1, None),
    Row::Remove(7, None),
    // a value stays if it is not to be replaced, and is made anew if it is
    Row::MakeIf(0, 5, Replaced::Value(5), 5),
    Row::MakeIf(0, 6, Replaced::Value(6), 5),
    Row::MakeIf(0, 6, Replaced::Value(5), 6),
    Row::Get(0, Some(6)),
];

/// What one thread calls.
const CALLED: &Scene = &Scene {
    settings: FIVE_HUNDRED,
    steps: &[Step::Rows(CALLS)],
};

#[test]
fn calls_of_one_thread(rt: HostRuntime) {
    assert!(rt; holds(&rt, rt.alloc(), CALLED));
}

const UNKEPT: &[Row] = &[
    Row::Insert(0, 1),
    Row::Has(0, false),
    Row::Get(0, None),
    Row::Count(0),
    Row::Run,
    Row::Has(0, false),
    Row::Get(0, None),
    Row::Count(0),
];

/// A value is taken by a cache of capacity 0 and not kept, before a run and after it.
const NO_ROOM: &Scene = &Scene {
    settings: Settings {
        capacity: 0,
        ..FIVE_HUNDRED
    },
    steps: &[Step::Rows(UNKEPT)],
};

#[test]
fn capacity_zero_keeps_nothing(rt: HostRuntime) {
    assert!(rt; holds(&rt, rt.alloc(), NO_ROOM));
}

/// Segments make a value by two names more, once for both.
const OTHERWISE_NAMED: &Scene = &Scene {
    settings: FIVE_HUNDRED,
    steps: &[Step::OtherNames],
};

#[test]
fn segments_have_other_names(rt: HostRuntime) {
    assert!(rt; holds_in(&rt, rt.alloc(), Form::Segments, OTHERWISE_NAMED));
}
