//! The frequency sketch. A table that is refused for lack of memory is requested once more, and the sketch
//! is as it was; so the tests pass with any one allocation refused.
use crate::rows::{Stage, Table, first_wrong};
use moka_policy::FrequencySketch;
use std::alloc::Global;

/// What is done with a sketch.
#[derive(Clone, Copy)]
enum Act {
    Grow(u32),
    /// So many increments of one hash.
    Count(u32),
    /// How often that hash was counted.
    Frequency(u8),
}

const HASH: u64 = 77;

/// Makes the table larger, on the second attempt if memory is refused: then the count stays.
fn grow(sketch: &mut FrequencySketch, capacity: u32) -> bool {
    let before = sketch.frequency(HASH);
    if sketch.ensure_capacity(capacity).is_ok() {
        return true;
    }
    sketch.frequency(HASH) == before && sketch.ensure_capacity(capacity).is_ok()
}

fn count(sketch: &mut FrequencySketch, times: u32) {
    for _ in 0..times {
        sketch.increment(HASH);
    }
}

/// Performs it, and returns whether the result was the expected one.
fn comes_so(sketch: &mut FrequencySketch, act: Act) -> bool {
    match act {
        Act::Grow(capacity) => grow(sketch, capacity),
        Act::Count(times) => {
            count(sketch, times);
            true
        }
        Act::Frequency(wanted) => sketch.frequency(HASH) == wanted,
    }
}

impl Stage<Act> for FrequencySketch {
    fn new(alloc: Global) -> Option<Self> {
        Some(FrequencySketch::default(alloc))
    }

    fn plays(&mut self, act: &Act) -> bool {
        comes_so(self, *act)
    }
}

const TABLES: &[Table<'_, Act>] = &[
    Table {
        name: "a sketch counts up to fifteen",
        rows: &[
            Act::Count(1),
            Act::Frequency(0),
            Act::Grow(512),
            Act::Count(20),
            Act::Frequency(15),
            Act::Grow(100),
            Act::Frequency(15),
        ],
    },
    Table {
        name: "a sketch ages at the sample",
        rows: &[
            Act::Grow(1),
            Act::Count(9),
            Act::Frequency(9),
            Act::Count(1),
            Act::Frequency(5),
            Act::Count(4),
            Act::Frequency(9),
            Act::Count(1),
            Act::Frequency(5),
        ],
    },
    Table {
        name: "a larger table begins anew",
        rows: &[
            Act::Grow(64),
            Act::Count(7),
            Act::Frequency(7),
            Act::Grow(512),
            Act::Frequency(0),
        ],
    },
];

#[test]
fn sketches_count(rt: HostRuntime) {
    assert_eq!(rt;
        first_wrong::<FrequencySketch, Act>(rt.alloc(), TABLES),
        None
    );
}
