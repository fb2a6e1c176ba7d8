//! Closures that say which values are replaced, and look into the same cache.
use crate::crowds::Work;
use crate::forms::FIVE_HUNDRED;
use crate::making::Replaced;
use crate::rows::Row;
use crate::scenes::{Scene, Step, holds};

// a value that is not to be replaced stays, and one that is to be is made anew; each is asked about once
const LOOKED: &[Row] = &[
    Row::Insert(1, 4),
    Row::MakeIf(1, 6, Replaced::Shown(5), 4),
    Row::Insert(1, 5),
    Row::MakeIf(1, 6, Replaced::Shown(5), 6),
    Row::Ran(2),
    Row::Insert(1, 7),
];

// the closure, if a value is written while it runs, is called again with that value
const ASKED_AGAIN: &[Row] = &[Row::Ran(4)];

const REPLACED: &Scene = &Scene {
    settings: FIVE_HUNDRED,
    steps: &[
        Step::Rows(LOOKED),
        Step::All(2, Work::Replace),
        Step::Rows(ASKED_AGAIN),
    ],
};

#[test]
fn closures_look_into_the_cache(rt: HostRuntime) {
    assert!(rt; holds(&rt, rt.alloc(), REPLACED));
}
