//! Calls that make a value, by two threads that wait for one another.
use crate::caches::{LIFE, Stage, begin_turn};
use crate::crowds::{Work, all_work};
use crate::forms::{FIVE_HUNDRED, Settings, Staged};
use crate::making::{Making, make, make_or_none, try_make};
use crate::scenes::{Scene, Step, holds};
use moka_sync::TurnKind;
use std::sync::Wait;
use std::sync::atomic::Ordering;
use std::thread::Threads;

/// A turn of two callers for a key: its kind, and the value that its leader makes and both receive. A leader that makes none ends a
/// call of `Try` with the fault 7.
#[derive(Clone, Copy)]
pub struct Turn {
    key: u64,
    kind: TurnKind,
    pub made: Option<u64>,
}

const TURNS: &Scene = &Scene {
    settings: Settings {
        live: Some(LIFE),
        ..FIVE_HUNDRED
    },
    steps: &[
        // Both receive the error of a call that makes no value; then both receive a value.
        Step::Share(Turn {
            key: 1,
            kind: TurnKind::Try,
            made: None,
        }),
        Step::Share(Turn {
            key: 1,
            kind: TurnKind::Try,
            made: Some(6),
        }),
        Step::Share(Turn {
            key: 2,
            kind: TurnKind::Optionally,
            made: None,
        }),
        Step::Share(Turn {
            key: 2,
            kind: TurnKind::Optionally,
            made: Some(6),
        }),
        // A value is made once for both.
        Step::Share(Turn {
            key: 3,
            kind: TurnKind::With,
            made: Some(6),
        }),
    ],
};

/// Whether a call whose closure may fail returns what its turn makes.
fn is_tried<H: Wait, T: Staged>(rt: &H, stage: &Stage<T>, turn: Turn, making: Making) -> bool {
    match try_make(rt, stage, turn.key, making) {
        Ok(Ok(value)) => turn.made == Some(value),
        Ok(Err(fault)) => turn.made.is_none() && *fault == 7,
        Err(_) => false,
    }
}

/// Whether a call of the turn's kind returns what its turn makes.
pub fn is_answered<H: Wait, T: Staged>(
    rt: &H,
    stage: &Stage<T>,
    turn: Turn,
    making: Making,
) -> bool {
    match turn.kind {
        TurnKind::Try => is_tried(rt, stage, turn, making),
        TurnKind::Optionally => make_or_none(rt, stage, turn.key, making) == Ok(turn.made),
        _ => make(rt, stage, turn.key, making) == Ok(turn.made.unwrap_or(0)),
    }
}

/// Whether one of two calls makes it, and both return it.
fn is_shared<R: Threads + Wait + Sync + Copy, T: Staged + Sync>(
    rt: &R,
    stage: &Stage<T>,
    turn: Turn,
) -> bool {
    let led = begin_turn(stage);
    all_work(rt, stage, 2, Work::Share(turn))
        && stage.runs.load(Ordering::SeqCst) == led.saturating_add(1)
}

/// Whether a turn has the expected result. A third caller gets the value too.
pub fn is_right<R: Threads + Wait + Sync + Copy, T: Staged + Sync>(
    rt: &R,
    stage: &Stage<T>,
    turn: Turn,
) -> bool {
    is_shared(rt, stage, turn)
        && (turn.made.is_none() || is_answered(rt, stage, turn, Making::Value(97)))
}

#[test]
fn a_turn_is_answered_to_all(rt: HostRuntime) {
    assert!(rt; holds(&rt, rt.alloc(), TURNS));
}
