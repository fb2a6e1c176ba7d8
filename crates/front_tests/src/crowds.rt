//! More keys than there is room for.
use crate::playing::{Call, Case, Form, ONE, is_right_in_segments};
use engine_reference::RemovalCause;

/// A cache of capacity 500.
const WIDE: Form = Form {
    capacity: Some(500),
    ..ONE
};

/// 100 of 600 leave for want of room, and the other 500 when they are invalidated.
const CROWD: Case<'static> = Case {
    form: WIDE,
    calls: &[
        (0, Call::InsertEachAndRun(600)),
        (0, Call::ToldEach(100, RemovalCause::Size)),
        (0, Call::NoneTold),
        (0, Call::InvalidateEach(600)),
        (0, Call::ToldEach(500, RemovalCause::Explicit)),
        (0, Call::NoneTold),
    ],
};

#[test]
fn each_removal_is_told_once(rt: HostRuntime) {
    assert!(rt; is_right_in_segments(rt.alloc(), CROWD));
}
