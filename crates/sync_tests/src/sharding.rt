//! Calls on a whole cache of several parts, by threads beside one another: none waits for itself, and a predicate covers all parts or none.
use crate::crowds::Work;
use crate::forms::{FIVE_HUNDRED, Form, Settings};
use crate::rows::Row;
use crate::scenes::{Scene, Step, holds, holds_in, never_fails};

/// 13 wanted parts, which are 16, and room for all.
pub const ROOMY: Settings = Settings {
    parts: 13,
    capacity: 1 << 20,
    ..FIVE_HUNDRED
};

/// What four threads fill is covered by a predicate, is made once each by four threads, and is gone after a clear.
const FILLED: &Scene = &Scene {
    settings: ROOMY,
    steps: &[
        Step::All(4, Work::Fill),
        Step::Visible(1600),
        Step::Cover,
        Step::Visible(800),
        Step::All(4, Work::MakeEach),
        Step::Rows(&[Row::Ran(800)]),
        Step::Visible(1600),
        Step::Rows(&[Row::Clear]),
        Step::Visible(0),
    ],
};

#[test]
fn threads_fill_and_clear(rt: HostRuntime) {
    assert!(rt; holds_in(&rt, rt.alloc(), Form::One, FILLED));
}

#[test]
fn threads_fill_and_clear_segments(rt: HostRuntime) {
    assert!(rt; holds_in(&rt, rt.alloc(), Form::Segments, FILLED));
}

#[test]
fn threads_fill_and_clear_shards(rt: HostRuntime) {
    assert!(rt; holds_in(&rt, rt.alloc(), Form::Shards, FILLED));
}

/// Calls on the whole return, whose callers come beside one another.
const MIXED: &Scene = &Scene {
    settings: ROOMY,
    steps: &[Step::All(4, Work::Mix)],
};

#[test]
fn no_caller_waits_for_itself(rt: HostRuntime) {
    assert!(rt; holds(&rt, rt.alloc(), MIXED));
}

/// A predicate that is refused covers nothing.
const REFUSED: &Scene = &Scene {
    settings: ROOMY,
    steps: &[Step::CoverOrNot],
};

/// A predicate is not refused.
const COVERED: &Scene = &Scene {
    settings: ROOMY,
    steps: &[Step::Cover],
};

#[test]
fn a_predicate_covers_all_parts_or_none(rt: HostRuntime) {
    assert!(rt; never_fails(&rt, rt.alloc(), REFUSED) && holds(&rt, rt.alloc(), COVERED));
}
