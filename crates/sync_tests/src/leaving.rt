//! What is removed from a cache and reported: by predicates, for lack of room, and in time.
use crate::forms::{FIVE_HUNDRED, Form, Settings};
use crate::rows::{Deed, Row};
use crate::scenes::{Scene, Step, holds, holds_in};
use moka_sync::{EvictionPolicy, RemovalCause};
use std::alloc::Global;
use std::sync::Wait;
use std::thread::Threads;

/// A hundred values, the least recently used of which are evicted.
const HUNDRED: Settings = Settings {
    capacity: 100,
    policy: EvictionPolicy::Lru,
    ..FIVE_HUNDRED
};

const SECOND: u64 = 1_000_000_000;

// 1 is alice, 2 is bob and 3 is alex
const NAMES: &[Row] = &[
    Row::Insert(0, 1),
    Row::Insert(1, 2),
    Row::Insert(2, 3),
    Row::At(5 * SECOND),
];

// what is written after the predicate, at the same moment and later, is not covered
const LATER: &[Row] = &[
    Row::Insert(3, 1),
    Row::At(10 * SECOND),
    Row::Insert(4, 1),
    Row::Run,
    Row::Run,
];

// alice and alex were covered, and later ones are not
const COVERED_NAMES: &[Row] = &[
    Row::Get(0, None),
    Row::Get(1, Some(2)),
    Row::Get(2, None),
    Row::Get(3, Some(1)),
    Row::Get(4, Some(1)),
    Row::Are(0, 2, RemovalCause::Explicit),
    Row::NoneTold,
    Row::Count(3),
];

/// A predicate covers names.
const COVERED: &Scene = &Scene {
    settings: HUNDRED,
    steps: &[
        Step::Rows(NAMES),
        Step::Cover,
        Step::Rows(LATER),
        Step::Rows(COVERED_NAMES),
    ],
};

#[test]
fn names_are_covered(rt: HostRuntime) {
    assert!(rt; holds(&rt, rt.alloc(), COVERED));
}

/// One segment returns the identifier of a predicate, which has 36 bytes. Maintenance has an older name.
const IDENTIFIED: &Scene = &Scene {
    settings: HUNDRED,
    steps: &[Step::Cover, Step::Rows(&[Row::Insert(3, 1), Row::Sync])],
};

#[test]
fn predicates_have_identifiers(rt: HostRuntime) {
    assert!(rt; holds_in(&rt, rt.alloc(), Form::One, IDENTIFIED));
}

// the one used longest ago is evicted
const EVICTED: &[Row] = &[
    Row::Insert(1, 10),
    Row::Insert(2, 20),
    Row::Get(1, Some(10)),
    Row::Get(2, Some(20)),
    Row::Run,
    Row::Insert(3, 30),
    Row::Get(3, Some(30)),
    Row::Run,
    Row::Get(1, Some(10)),
    Row::Get(2, Some(20)),
    Row::Run,
    Row::Insert(4, 40),
    Row::Run,
    Row::Has(3, false),
    Row::Is(3, RemovalCause::Size),
    Row::Invalidate(2),
    Row::Is(2, RemovalCause::Explicit),
    Row::Remove(4, Some(40)),
    Row::Is(4, RemovalCause::Explicit),
    Row::Run,
    Row::Insert(5, 50),
    Row::Insert(6, 60),
    Row::Insert(7, 70),
    Row::Run,
    Row::Is(1, RemovalCause::Size),
    Row::NoneTold,
    Row::Get(5, Some(50)),
    Row::Get(6, Some(60)),
    Row::Get(7, Some(70)),
];

const ENDED_OF_ITS_OWN: &[Row] = &[
    Row::Insert(1, 10),
    Row::Run,
    Row::Count(1),
    Row::At(999_000_000),
    Row::Has(1, true),
    Row::Count(1),
    Row::At(SECOND),
    Row::Has(1, false),
    Row::At(2 * SECOND),
    Row::Run,
    Row::Count(0),
    Row::Is(1, RemovalCause::Expired),
    Row::NoneTold,
];

// a look-up is a use, and whether a key is there is none
const ENDED_IDLE: &[Row] = &[
    Row::Insert(1, 10),
    Row::At(7 * SECOND - 1),
    Row::Get(1, Some(10)),
    Row::At(14 * SECOND - 2),
    Row::Has(1, true),
    Row::At(14 * SECOND - 1),
    Row::Get(1, None),
    Row::Run,
    Row::Count(0),
    Row::Is(1, RemovalCause::Expired),
    Row::NoneTold,
];

const WRITTEN_OVER_TOO_LATE: &[Row] = &[
    Row::Insert(1, 10),
    Row::At(7 * SECOND),
    Row::Insert(1, 11),
    Row::Is(1, RemovalCause::Expired),
    Row::Get(1, Some(11)),
    Row::NoneTold,
];

// a use does not prolong it
const REMOVED_TOO_LATE: &[Row] = &[
    Row::Insert(1, 10),
    Row::At(7 * SECOND - 1),
    Row::Get(1, Some(10)),
    Row::At(7 * SECOND),
    Row::Has(1, false),
    Row::Remove(1, Some(10)),
    Row::Is(1, RemovalCause::Expired),
    Row::NoneTold,
];

/// Values live 7 seconds without a use.
const IDLE: Settings = Settings {
    idle: Some(7),
    ..HUNDRED
};

const SCENES: &[Scene] = &[
    Scene {
        settings: Settings {
            parts: 1,
            capacity: 3,
            ..HUNDRED
        },
        steps: &[Step::Rows(EVICTED)],
    },
    Scene {
        settings: Settings {
            live: Some(16),
            own: Some(1),
            ..IDLE
        },
        steps: &[Step::Rows(ENDED_OF_ITS_OWN)],
    },
    Scene {
        settings: IDLE,
        steps: &[Step::Rows(ENDED_IDLE)],
    },
    Scene {
        settings: IDLE,
        steps: &[Step::Rows(WRITTEN_OVER_TOO_LATE)],
    },
    Scene {
        settings: Settings {
            live: Some(7),
            ..HUNDRED
        },
        steps: &[Step::Rows(REMOVED_TOO_LATE)],
    },
];

/// The place of the first scene that does not come out so in each form.
fn first_wrong<R: Threads + Wait + Sync + Copy>(
    rt: &R,
    alloc: Global,
    scenes: &[Scene],
) -> Option<usize> {
    for (place, scene) in scenes.iter().enumerate() {
        if !holds(rt, alloc, scene) {
            return Some(place);
        }
    }
    None
}

#[test]
fn what_leaves_is_told(rt: HostRuntime) {
    assert_eq!(rt; first_wrong(&rt, rt.alloc(), SCENES), None);
}

// 600 keys come into a cache of 500: 100 are told `Size`; then all are invalidated: 500 are told `Explicit`
const SIX_HUNDRED: &Scene = &Scene {
    settings: Settings {
        parts: 1,
        ..FIVE_HUNDRED
    },
    steps: &[Step::Rows(&[
        Row::Each(Deed::InsertAndRun, 600),
        Row::Told(100, RemovalCause::Size),
        Row::Each(Deed::Invalidate, 600),
        Row::Told(500, RemovalCause::Explicit),
    ])],
};

#[test]
fn six_hundred_into_five_hundred(rt: HostRuntime) {
    assert!(rt; holds(&rt, rt.alloc(), SIX_HUNDRED));
}
