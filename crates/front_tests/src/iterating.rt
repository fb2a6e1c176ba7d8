//! Iterators.
use crate::playing::{Call, Case, Form, ONE, is_right_in_segments};

/// A cache of four parts.
const FOUR: Form = Form { segments: 4, ..ONE };

const CASES: &[Case<'static>] = &[
    Case {
        form: FOUR,
        calls: &[(0, Call::InsertEach(0)), (1000, Call::Gives(0))],
    },
    Case {
        form: ONE,
        calls: &[(0, Call::InsertEach(50)), (1000, Call::Gives(50))],
    },
    Case {
        form: FOUR,
        calls: &[(0, Call::InsertEach(50)), (1000, Call::Gives(50))],
    },
];

#[test]
fn gives_each_once(rt: HostRuntime) {
    let alloc = rt.alloc();
    assert!(rt; CASES.iter().all(|case| is_right_in_segments(alloc, *case)));
}
