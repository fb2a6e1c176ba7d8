//! Rows of predicates.
use crate::playing::{Call, Case, Form, ONE, all_right};
use engine_reference::RemovalCause;
use front_reference::CacheError;

/// A cache of one part.
const COVERED: Form = Form {
    capacity: Some(100),
    ..ONE
};

/// The same of four parts.
const COVERED_FOUR: Form = Form {
    segments: 4,
    ..COVERED
};

/// The same of two parts.
const COVERED_TWO: Form = Form {
    segments: 2,
    ..COVERED
};

/// The same, with each key its own hash.
const COVERED_HALVES: Form = Form {
    factor: 1,
    ..COVERED_TWO
};

const SECOND: u64 = 1_000_000_000;

/// 1 is alice, 2 is bob and 3 is alex: alice and alex are covered, and a later alice is not.
const NAMES: &[(u64, Call)] = &[
    (0, Call::Insert(0, 1)),
    (0, Call::Insert(1, 2)),
    (0, Call::Insert(2, 3)),
    (5 * SECOND, Call::Cover(1, 3, 4, Ok(()))),
    (10 * SECOND, Call::Insert(3, 1)),
    (10 * SECOND, Call::Run),
    (10 * SECOND, Call::Run),
    (11 * SECOND, Call::Get(0, None)),
    (11 * SECOND, Call::Get(1, Some(2))),
    (11 * SECOND, Call::Get(2, None)),
    (11 * SECOND, Call::Get(3, Some(1))),
    (11 * SECOND, Call::ToldBoth(0, 2, RemovalCause::Explicit)),
    (11 * SECOND, Call::NoneTold),
    (11 * SECOND, Call::Count(2)),
];

/// Two parts draw different identifiers; then the second part draws what it has, and neither keeps
/// the predicate.
const ALL_OR_NONE: &[(u64, Call)] = &[
    (0, Call::Insert(1, 7)),
    (0, Call::Insert(2, 7)),
    (0, Call::Insert(3, 7)),
    (0, Call::Insert(4, 7)),
    (1, Call::Cover(9, 9, 4, Ok(()))),
    (2, Call::Cover(7, 7, 0, Err(CacheError::IdsInUse))),
    (3, Call::Get(1, Some(7))),
    (3, Call::Get(4, Some(7))),
    (3, Call::NoneTold),
];

/// The key that differs from 1 in its highest bit alone, and so belongs to the other part.
const FAR: u64 = 9_223_372_036_854_775_809;

/// One key in each of two parts, with the same value: the second part refuses a predicate that
/// covers both, and neither keeps it.
const EACH_KEEPS: &[(u64, Call)] = &[
    (0, Call::Insert(1, 7)),
    (0, Call::Insert(FAR, 7)),
    (1, Call::Cover(9, 9, 4, Ok(()))),
    (2, Call::Cover(7, 7, 0, Err(CacheError::IdsInUse))),
    (3, Call::Get(1, Some(7))),
    (3, Call::Get(FAR, Some(7))),
    (3, Call::NoneTold),
];

const CASES: &[Case<'static>] = &[
    Case {
        form: COVERED,
        calls: NAMES,
    },
    Case {
        form: COVERED_FOUR,
        calls: NAMES,
    },
    Case {
        form: COVERED_TWO,
        calls: ALL_OR_NONE,
    },
    Case {
        form: COVERED_HALVES,
        calls: EACH_KEEPS,
    },
];

#[test]
fn predicates(rt: HostRuntime) {
    all_right(&rt, rt.alloc(), CASES);
}
