//! Rows of turns and values, of one part and of four.
use crate::playing::{Call, Case, Form, ONE, Start, all_right};
use engine_reference::RemovalCause;
use front_reference::{CacheError, TurnKind};

/// A cache of four parts.
const FOUR: Form = Form { segments: 4, ..ONE };

/// A cache whose keys all have the same hash.
const COLLIDING: Form = Form { factor: 0, ..ONE };

const UNKNOWN: Result<(), CacheError> = Err(CacheError::UnknownTurn);

/// One turn of a kind and a key; a value that was made is inserted whatever happened to the key
/// meanwhile.
const TURNS: &[(u64, Call)] = &[
    (0, Call::Begin(TurnKind::Try, 7, Start::Lead(0))),
    (0, Call::Begin(TurnKind::Try, 7, Start::Wait(0))),
    (0, Call::Begin(TurnKind::With, 7, Start::Lead(1))),
    (0, Call::IsFree(TurnKind::Optionally, 7, true)),
    (0, Call::IsFree(TurnKind::With, 7, false)),
    (1, Call::Insert(7, 1)),
    (2, Call::Finish(0, 2, Ok(()))),
    (2, Call::Told(7, RemovalCause::Replaced)),
    (2, Call::Get(7, Some(2))),
    (2, Call::Begin(TurnKind::Try, 7, Start::Found(2))),
    (3, Call::Finish(0, 3, UNKNOWN)),
    (3, Call::Abandon(1, Ok(()))),
    (3, Call::Abandon(1, UNKNOWN)),
    (4, Call::Begin(TurnKind::Compute, 7, Start::Lead(2))),
    (4, Call::Begin(TurnKind::Compute, 7, Start::Wait(2))),
    (4, Call::Abandon(2, Ok(()))),
    (4, Call::Begin(TurnKind::Compute, 7, Start::Lead(3))),
];

/// The same in two halves; a value of 0 counts as none. A value that is written by a name replaces
/// the one that is held.
const HALVES: &[(u64, Call)] = &[
    (0, Call::BeginInHalves(TurnKind::Try, 7, Start::Lead(0))),
    (0, Call::BeginInHalves(TurnKind::Try, 7, Start::Wait(0))),
    (0, Call::BeginInHalves(TurnKind::Compute, 7, Start::Lead(1))),
    (0, Call::BeginInHalves(TurnKind::Compute, 7, Start::Wait(1))),
    (1, Call::InsertKept(7, 0)),
    (1, Call::BeginInHalves(TurnKind::Try, 7, Start::Wait(0))),
    (1, Call::BeginInHalves(TurnKind::With, 7, Start::Lead(2))),
    (2, Call::InsertKept(7, 5)),
    (2, Call::Told(7, RemovalCause::Replaced)),
    (2, Call::Get(7, Some(5))),
    (2, Call::BeginInHalves(TurnKind::With, 7, Start::Found(5))),
    (3, Call::Finish(2, 6, Ok(()))),
    (3, Call::Told(7, RemovalCause::Replaced)),
    (3, Call::NoneTold),
];

/// Turns of several keys, each found, whatever began or ended before or after it.
const CROWDED: &[(u64, Call)] = &[
    (0, Call::Begin(TurnKind::With, 1, Start::Lead(0))),
    (0, Call::Begin(TurnKind::With, 2, Start::Lead(1))),
    (0, Call::Begin(TurnKind::Try, 1, Start::Lead(2))),
    (0, Call::Begin(TurnKind::With, 3, Start::Lead(3))),
    (0, Call::Begin(TurnKind::With, 3, Start::Wait(3))),
    (0, Call::Begin(TurnKind::Try, 1, Start::Wait(2))),
    (0, Call::Begin(TurnKind::With, 2, Start::Wait(1))),
    (0, Call::IsFree(TurnKind::Try, 2, true)),
    (1, Call::Finish(1, 20, Ok(()))),
    (1, Call::IsFree(TurnKind::With, 2, true)),
    (1, Call::IsFree(TurnKind::With, 1, false)),
    (1, Call::Begin(TurnKind::With, 3, Start::Wait(3))),
    (1, Call::Begin(TurnKind::With, 2, Start::Found(20))),
    (2, Call::Abandon(0, Ok(()))),
    (2, Call::Begin(TurnKind::With, 1, Start::Lead(4))),
    (2, Call::Begin(TurnKind::Try, 1, Start::Wait(2))),
    (2, Call::Abandon(3, Ok(()))),
    (2, Call::Finish(3, 30, UNKNOWN)),
    (2, Call::IsFree(TurnKind::With, 3, true)),
    (3, Call::Finish(2, 10, Ok(()))),
    (3, Call::Get(1, Some(10))),
    (3, Call::IsFree(TurnKind::With, 1, false)),
    (3, Call::Finish(4, 11, Ok(()))),
    (3, Call::IsFree(TurnKind::With, 1, true)),
    (3, Call::Get(1, Some(11))),
];

/// Values come, are used, leave, and are counted after a run.
const VALUES: &[(u64, Call)] = &[
    (0, Call::Get(1, None)),
    (0, Call::Has(1, false)),
    (0, Call::OrInsert(1, 3, (3, true))),
    (0, Call::OrInsert(1, 6, (3, false))),
    (1, Call::Insert(2, 20)),
    (1, Call::Insert(3, 30)),
    (1, Call::Has(3, true)),
    (2, Call::Run),
    (2, Call::Count(3)),
    (3, Call::Remove(2, Some(20))),
    (3, Call::Remove(2, None)),
    (3, Call::Invalidate(3)),
    (4, Call::Get(3, None)),
    (5, Call::Clear),
    (5, Call::Get(1, None)),
    (6, Call::Run),
];

const CASES: &[Case<'static>] = &[
    Case {
        form: ONE,
        calls: TURNS,
    },
    Case {
        form: FOUR,
        calls: TURNS,
    },
    Case {
        form: COLLIDING,
        calls: TURNS,
    },
    Case {
        form: COLLIDING,
        calls: HALVES,
    },
    Case {
        form: FOUR,
        calls: HALVES,
    },
    Case {
        form: COLLIDING,
        calls: CROWDED,
    },
    Case {
        form: FOUR,
        calls: CROWDED,
    },
    Case {
        form: ONE,
        calls: VALUES,
    },
    Case {
        form: FOUR,
        calls: VALUES,
    },
];

#[test]
fn turns_and_values(rt: HostRuntime) {
    all_right(&rt, rt.alloc(), CASES);
}
