//! TinyLFU counts requests once half the capacity is held, whichever call ran maintenance then.
use crate::playing::{Call, Case, Form, ONE, is_right_in_segments, none_wrong};
use engine_reference::EvictionPolicy;
use std::alloc::Global;

/// The key of a newcomer.
const NEWCOMER: u64 = 9;

/// Each call that runs maintenance if it is due: on a key that is held, on the newcomer, and on one that is not held.
const RUNS: [Call; 7] = [
    Call::Run,
    Call::TryRun,
    Call::Get(4, Some(4)),
    Call::Get(NEWCOMER, None),
    Call::Insert(4, 4),
    Call::Remove(77, None),
    Call::Invalidate(77),
];

/// How long after a run the next one is due, in nanoseconds.
const SPAN: u64 = 300_000_000;

/// A cache of at most four values, of which those that are requested more often stay.
const FOUR: Form = Form {
    capacity: Some(4),
    policy: EvictionPolicy::TinyLfu,
    live: None,
    ..ONE
};

/// Whether a newcomer is admitted: four values fill the cache, and the call runs maintenance; the newcomer is requested twice, and the call
/// runs it again; then it is inserted.
fn is_admitted(alloc: Global, run: Call) -> bool {
    let calls = [
        (0, Call::Insert(1, 1)),
        (0, Call::Insert(2, 2)),
        (0, Call::Insert(3, 3)),
        (0, Call::Insert(4, 4)),
        (SPAN, run),
        (SPAN, Call::Get(NEWCOMER, None)),
        (SPAN, Call::Get(NEWCOMER, None)),
        (2 * SPAN, run),
        (2 * SPAN, Call::Insert(NEWCOMER, NEWCOMER)),
        (2 * SPAN, Call::Run),
        (2 * SPAN, Call::Has(NEWCOMER, true)),
    ];
    let case = Case {
        form: FOUR,
        calls: &calls,
    };
    is_right_in_segments(alloc, case)
}

/// The place of the first call after whose runs requests are not counted.
fn first_uncounted(alloc: Global) -> Option<usize> {
    for (place, call) in RUNS.iter().enumerate() {
        if !is_admitted(alloc, *call) {
            return Some(place);
        }
    }
    None
}

#[test]
fn requests_are_counted_whichever_call_ran(rt: HostRuntime) {
    none_wrong(&rt, first_uncounted(rt.alloc()));
}
