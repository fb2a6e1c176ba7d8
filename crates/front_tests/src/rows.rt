//! Rows of values: made, chosen, told, and let go for want of room.
use crate::playing::{Call, Case, Closure, Done, Form, ONE, Select, all_right};
use engine_reference::RemovalCause;

/// Values that live for a hundred milliseconds, in four parts.
const SHORT: Form = Form {
    segments: 4,
    live: Some(100),
    ..ONE
};

/// Calls that make a value where none is visible.
const MADE: &[(u64, Call)] = &[
    (0, Call::With(Closure::GetWith(1, 7, 7))),
    (0, Call::With(Closure::GetWith(1, 8, 7))),
    (0, Call::With(Closure::GetWithIf(1, 8, 9, 7))),
    (0, Call::With(Closure::GetWithIf(1, 7, 9, 9))),
    (0, Call::Get(1, Some(9))),
    (0, Call::With(Closure::Optionally(2, None, None))),
    (0, Call::Has(2, false)),
    (0, Call::With(Closure::Optionally(2, Some(5), Some(5)))),
    (0, Call::With(Closure::Optionally(2, None, Some(5)))),
    (0, Call::With(Closure::Try(3, Err(()), Err(())))),
    (0, Call::Has(3, false)),
    (0, Call::With(Closure::Try(3, Ok(6), Ok(6)))),
    (0, Call::With(Closure::Try(3, Err(()), Ok(6)))),
    (99_999_999, Call::Has(3, true)),
    (100_000_000, Call::With(Closure::Try(3, Err(()), Err(())))),
    (100_000_000, Call::With(Closure::GetWith(1, 8, 8))),
];

/// Selectors: what is inserted, put, counted, and removed after its deadline has come.
const SELECTED: &[(u64, Call)] = &[
    (0, Call::With(Closure::OrInsert(1, 3, (3, true)))),
    (0, Call::With(Closure::OrInsert(1, 6, (3, false)))),
    (
        0,
        Call::With(Closure::OrInsertIf(1, 4, 5, (3, false, false))),
    ),
    (
        0,
        Call::With(Closure::OrInsertIf(1, 3, 5, (5, true, false))),
    ),
    (0, Call::With(Closure::Upsert(2, 1, (true, false)))),
    (0, Call::With(Closure::Upsert(2, 2, (true, true)))),
    (0, Call::With(Closure::CountUp(3, Done::Inserted(1)))),
    (0, Call::With(Closure::CountUp(3, Done::ReplacedWith(2)))),
    (0, Call::With(Closure::CountUp(3, Done::Removed(2)))),
    (0, Call::Has(3, false)),
    (0, Call::With(Closure::CountUp(3, Done::Inserted(1)))),
    (0, Call::With(Closure::TakeOut(3, Done::Unchanged(1)))),
    (0, Call::With(Closure::TakeOut(4, Done::StillNone))),
    (100_000_000, Call::Has(3, false)),
    (
        100_000_000,
        Call::With(Closure::TakeOut(3, Done::Removed(1))),
    ),
    (
        100_000_000,
        Call::With(Closure::TakeOut(3, Done::StillNone)),
    ),
];

/// Each other call that makes a value, where none is there, where one is, and where its closure
/// makes none.
const CHOSEN: &[(u64, Call)] = &[
    (0, Call::With(Closure::Select(1, Select::Get(7, 7)))),
    (0, Call::With(Closure::Select(1, Select::Get(8, 7)))),
    (
        0,
        Call::With(Closure::Select(2, Select::Optionally(None, None))),
    ),
    (
        0,
        Call::With(Closure::Select(2, Select::Optionally(Some(5), Some(5)))),
    ),
    (
        0,
        Call::With(Closure::Select(3, Select::Try(Err(()), Err(())))),
    ),
    (0, Call::With(Closure::Select(3, Select::Try(Ok(6), Ok(6))))),
    (
        0,
        Call::With(Closure::Select(4, Select::OrInsertWith(3, (3, true)))),
    ),
    (
        0,
        Call::With(Closure::Select(4, Select::OrInsertWith(6, (3, false)))),
    ),
    (
        0,
        Call::With(Closure::Select(5, Select::OrDefault((0, true)))),
    ),
    (
        0,
        Call::With(Closure::Select(5, Select::OrDefault((0, false)))),
    ),
    (
        0,
        Call::With(Closure::Select(6, Select::OrOptionally(None, None))),
    ),
    (
        0,
        Call::With(Closure::Select(6, Select::OrOptionally(Some(8), Some((8, true))))),
    ),
    (
        0,
        Call::With(Closure::Select(7, Select::OrTry(Err(()), Err(())))),
    ),
    (
        0,
        Call::With(Closure::Select(7, Select::OrTry(Ok(9), Ok((9, true))))),
    ),
    (
        0,
        Call::With(Closure::Select(7, Select::TryCompute(Err(()), Err(())))),
    ),
    (
        0,
        Call::With(Closure::Select(7, Select::TryCompute(Ok(None), Ok(Some(9))))),
    ),
    (
        0,
        Call::With(Closure::Select(7, Select::TryCompute(Ok(Some(2)), Ok(Some(2))))),
    ),
    (0, Call::With(Closure::Select(8, Select::Put(4)))),
];

/// A compute call takes out what has expired, and that is told.
const TAKEN_OUT: &[(u64, Call)] = &[
    (0, Call::Insert(1, 10)),
    (
        100_000_000,
        Call::With(Closure::TakeOut(1, Done::Removed(10))),
    ),
    (100_000_000, Call::Told(1, RemovalCause::Expired)),
    (100_000_000, Call::NoneTold),
];

/// Three segments, which become four, each with a share of 3 of a capacity of 10; all keys belong
/// to one.
const SHARED: Form = Form {
    segments: 3,
    capacity: Some(10),
    factor: 0,
    ..ONE
};

const FITTING: &[(u64, Call)] = &[
    (0, Call::Insert(0, 10)),
    (0, Call::Insert(1, 11)),
    (0, Call::Insert(2, 12)),
    (0, Call::Run),
    (0, Call::Count(3)),
    (0, Call::Insert(3, 13)),
    (0, Call::Run),
    (0, Call::Count(3)),
];

/// A cache of capacity 3.
const SMALL: Form = Form {
    capacity: Some(3),
    ..ONE
};

/// Who was used least recently leaves, and is told so.
const EVICTED: &[(u64, Call)] = &[
    (0, Call::Insert(1, 10)),
    (0, Call::Insert(2, 20)),
    (0, Call::Get(1, Some(10))),
    (0, Call::Get(2, Some(20))),
    (0, Call::Run),
    (0, Call::Insert(3, 30)),
    (0, Call::Get(3, Some(30))),
    (0, Call::Run),
    (0, Call::Get(1, Some(10))),
    (0, Call::Get(2, Some(20))),
    (0, Call::Run),
    (0, Call::Insert(4, 40)),
    (0, Call::Run),
    (0, Call::Has(3, false)),
    (0, Call::Count(3)),
    (0, Call::Told(3, RemovalCause::Size)),
    (0, Call::Invalidate(2)),
    (0, Call::Has(2, false)),
    (0, Call::Told(2, RemovalCause::Explicit)),
    (0, Call::Remove(4, Some(40))),
    (0, Call::Has(4, false)),
    (0, Call::Told(4, RemovalCause::Explicit)),
    (0, Call::Run),
    (0, Call::Insert(5, 50)),
    (0, Call::Insert(6, 60)),
    (0, Call::Insert(7, 70)),
    (0, Call::Run),
    (0, Call::Has(1, false)),
    (0, Call::Get(5, Some(50))),
    (0, Call::Get(6, Some(60))),
    (0, Call::Get(7, Some(70))),
    (0, Call::Told(1, RemovalCause::Size)),
    (0, Call::NoneTold),
];

/// What is looked up stays, and what is only peeked at, or whose look-up is refused, leaves.
const LOOKED_UP: &[(u64, Call)] = &[
    (0, Call::InsertNamed(1, 10)),
    (0, Call::InsertNamed(2, 20)),
    (0, Call::InsertNamed(3, 30)),
    (0, Call::Run),
    (1, Call::LookUp(1, Some(10))),
    (1, Call::Peek(3, Some(30))),
    (1, Call::RefusedLookUp(3, Some(30))),
    (1, Call::LookUp(2, Some(20))),
    (1, Call::LookUp(9, None)),
    (1, Call::Run),
    (1, Call::Insert(4, 40)),
    (1, Call::Run),
    (1, Call::Peek(3, None)),
    (1, Call::Peek(1, Some(10))),
    (1, Call::Told(3, RemovalCause::Size)),
    (1, Call::NoneTold),
];

/// What leaves after its deadline is told so, whoever takes it out; and so is what is written over.
const TOLD: &[(u64, Call)] = &[
    (0, Call::Insert(1, 10)),
    (0, Call::Insert(1, 11)),
    (0, Call::Told(1, RemovalCause::Replaced)),
    (0, Call::Insert(2, 20)),
    (0, Call::Insert(3, 30)),
    (0, Call::Visible(3)),
    (100_000_000, Call::Visible(0)),
    (100_000_000, Call::Held(1, true)),
    (100_000_000, Call::Remove(1, Some(11))),
    (100_000_000, Call::Held(1, false)),
    (100_000_000, Call::Told(1, RemovalCause::Expired)),
    (100_000_000, Call::Insert(2, 21)),
    (100_000_000, Call::Told(2, RemovalCause::Expired)),
    (100_000_000, Call::NoneTold),
    (100_000_000, Call::Run),
    (100_000_000, Call::Told(3, RemovalCause::Expired)),
    (100_000_000, Call::NoneTold),
];

/// A cache that takes nothing.
const NONE: Form = Form {
    capacity: Some(0),
    ..ONE
};

const NOTHING_TAKEN: &[(u64, Call)] = &[
    (0, Call::Insert(0, 0)),
    (0, Call::Has(0, false)),
    (0, Call::Get(0, None)),
    (0, Call::Run),
    (0, Call::Has(0, false)),
    (0, Call::Get(0, None)),
    (0, Call::Count(0)),
    (0, Call::With(Closure::GetWith(0, 5, 5))),
];

/// Four parts, and each key of the same hash: all belong to one part, whose share is 2.
const COLLIDING: Form = Form {
    segments: 4,
    capacity: Some(8),
    factor: 0,
    ..ONE
};

const COLLIDED: &[(u64, Call)] = &[
    (0, Call::Insert(0, 10)),
    (0, Call::Run),
    (0, Call::Count(1)),
    (0, Call::Insert(1, 11)),
    (0, Call::Run),
    (0, Call::Count(2)),
    (0, Call::Insert(2, 12)),
    (0, Call::Run),
    (0, Call::Count(2)),
    (0, Call::Has(0, false)),
    (0, Call::Get(1, Some(11))),
    (0, Call::Get(2, Some(12))),
];

/// Two parts with a share of one each, and each key its own hash.
const HALVES: Form = Form {
    segments: 2,
    capacity: Some(2),
    factor: 1,
    ..ONE
};

/// The key that differs from 1 in its highest bit alone, and so belongs to the other part.
const FAR: u64 = 9_223_372_036_854_775_809;

const APART: &[(u64, Call)] = &[
    (0, Call::Insert(1, 10)),
    (0, Call::Insert(FAR, 20)),
    (0, Call::Visible(2)),
    (0, Call::Run),
    (0, Call::Count(2)),
    (0, Call::Get(1, Some(10))),
    (0, Call::Get(FAR, Some(20))),
    (0, Call::Insert(2, 30)),
    (0, Call::Run),
    (0, Call::Has(1, false)),
    (0, Call::Get(FAR, Some(20))),
];

/// What one part told is taken, and what the other told waits.
const TOLD_APART: &[(u64, Call)] = &[
    (0, Call::Insert(1, 10)),
    (0, Call::Insert(FAR, 20)),
    (1, Call::Invalidate(1)),
    (1, Call::Invalidate(FAR)),
    (
        1,
        Call::ToldOfPart(FAR, Some((FAR, RemovalCause::Explicit))),
    ),
    (1, Call::ToldOfPart(FAR, None)),
    (1, Call::ToldOfPart(1, Some((1, RemovalCause::Explicit)))),
    (1, Call::NoneTold),
];

const MAKING: &[Case<'static>] = &[
    Case {
        form: SHORT,
        calls: MADE,
    },
    Case {
        form: SHORT,
        calls: SELECTED,
    },
    Case {
        form: SHORT,
        calls: CHOSEN,
    },
];

const LEAVING: &[Case<'static>] = &[
    Case {
        form: SHORT,
        calls: TAKEN_OUT,
    },
    Case {
        form: SHORT,
        calls: TOLD,
    },
    Case {
        form: SMALL,
        calls: EVICTED,
    },
    Case {
        form: SMALL,
        calls: LOOKED_UP,
    },
    Case {
        form: HALVES,
        calls: TOLD_APART,
    },
];

const PARTS: &[Case<'static>] = &[
    Case {
        form: SHARED,
        calls: FITTING,
    },
    Case {
        form: NONE,
        calls: NOTHING_TAKEN,
    },
    Case {
        form: COLLIDING,
        calls: COLLIDED,
    },
    Case {
        form: HALVES,
        calls: APART,
    },
];

#[test]
fn calls_make_values(rt: HostRuntime) {
    all_right(&rt, rt.alloc(), MAKING);
}

#[test]
fn what_leaves_is_told(rt: HostRuntime) {
    all_right(&rt, rt.alloc(), LEAVING);
}

#[test]
fn parts_have_their_shares(rt: HostRuntime) {
    all_right(&rt, rt.alloc(), PARTS);
}
