//! What a step does to the values held, as tables of rows.
use audit_model::{Bytes, Config, EvictionPolicy, Note, NoteKey, RemovalCause, Seq, Weight};
use audit_situation::{Covering, Deed, Held, Holding, do_deed, live};
use std::alloc::{AllocError, Global};

/// A note's cause, key and value.
type Told<'a> = (RemovalCause, &'a [u8], &'a [u8]);

/// What is done to the values held, and what has to come of it. Moments are in nanoseconds.
#[derive(Clone, Copy)]
enum Row<'a> {
    /// A step accepts a value of a key at a moment with these notes, and whether they are true.
    Accepts(u64, &'a [u8], &'a [u8], &'a [Told<'a>], bool),
    /// A step that accepts nothing does that at a moment with these notes, and whether they are
    /// true.
    Does(u64, Deed<'a>, &'a [Told<'a>], bool),
    /// The bytes of a key's live value at a moment.
    IsLive(u64, &'a [u8], Option<&'a [u8]>),
    /// So many values are held.
    Holds(usize),
}

/// Rows one behind the other, from nothing held on.
type Case<'a> = &'a [Row<'a>];

/// Without capacity and times.
const PLAIN: Config = Config {
    capacity: None,
    policy: EvictionPolicy::Lru,
    parts: 1,
    weight: Weight::One,
    live_ms: None,
    idle_ms: None,
    own_deadlines: false,
};

/// Room for one value.
const ONE_VALUE: Config = Config {
    capacity: Some(1),
    ..PLAIN
};

/// Values live for a millisecond.
const BRIEF: Config = Config {
    live_ms: Some(1),
    ..PLAIN
};

/// What a step does that does nothing.
const IDLE: Deed<'static> = Deed {
    uses: None,
    deletes: None,
    covers: Covering::Nothing,
    syncs: false,
};

/// What a step does that deletes `b`.
const DELETES_B: Deed<'static> = Deed {
    deletes: Some(b"b"),
    ..IDLE
};

/// What a step does that runs all parts.
const SYNCS: Deed<'static> = Deed {
    syncs: true,
    ..IDLE
};

const CLEARS: Deed<'static> = Deed {
    covers: Covering::Everything,
    ..IDLE
};

/// What a step does that drops a prefix.
const DROPS_A: Deed<'static> = Deed {
    covers: Covering::Prefixed(b"a"),
    ..IDLE
};

const DROPS_B: Deed<'static> = Deed {
    covers: Covering::Prefixed(b"b"),
    ..IDLE
};

const DROPS_ABC: Deed<'static> = Deed {
    covers: Covering::Prefixed(b"abc"),
    ..IDLE
};

const REPLACED: Told<'static> = (RemovalCause::Replaced, b"a", b"1");

const OTHER_VALUE: Told<'static> = (RemovalCause::Replaced, b"a", b"2");

const EXPIRED: Told<'static> = (RemovalCause::Expired, b"a", b"1");

const SIZE: Told<'static> = (RemovalCause::Size, b"a", b"1");

const DELETED: Told<'static> = (RemovalCause::Explicit, b"b", b"2");

const COVERED: Told<'static> = (RemovalCause::Explicit, b"ab", b"1");

fn bytes(alloc: Global, text: &[u8]) -> Result<Bytes, AllocError> {
    Ok(Seq::from_vec(Vec::from_slice(alloc, text)?))
}

fn note_of(alloc: Global, told: Told<'_>) -> Result<Note, AllocError> {
    let (cause, key, value) = told;
    let key = NoteKey::from(Vec::from_slice(alloc, key)?);
    let value = bytes(alloc, value)?;
    Ok(Note { cause, key, value })
}

fn notes_of(alloc: Global, told: &[Told<'_>]) -> Result<Vec<Note>, AllocError> {
    let mut notes = Vec::new(alloc);
    for one in told {
        notes.push(note_of(alloc, *one)?)?;
    }
    Ok(notes)
}

/// Judges a step that accepts a value.
fn accept(
    alloc: Global,
    config: &Config,
    now: u64,
    held: &mut Holding,
    key: &[u8],
    value: &[u8],
    notes: &[Note],
) -> Result<bool, AllocError> {
    let key = bytes(alloc, key)?;
    let value = bytes(alloc, value)?;
    let newcomer = Held::accepted(key, value, 0, 1, now, None);
    do_deed(alloc, config, now, held, &IDLE, Some(newcomer), notes)
}

/// Judges a step that accepts a value, with these notes.
fn accept_with(
    alloc: Global,
    config: &Config,
    now: u64,
    held: &mut Holding,
    key: &[u8],
    value: &[u8],
    told: &[Told<'_>],
) -> Result<bool, AllocError> {
    let notes = notes_of(alloc, told)?;
    accept(alloc, config, now, held, key, value, &notes)
}

/// Judges a step that accepts nothing, with these notes.
fn do_with(
    alloc: Global,
    config: &Config,
    now: u64,
    held: &mut Holding,
    deed: Deed<'_>,
    told: &[Told<'_>],
) -> Result<bool, AllocError> {
    let notes = notes_of(alloc, told)?;
    do_deed(alloc, config, now, held, &deed, None, &notes)
}

/// Whether these are the bytes of a key's live value.
fn is_live(config: &Config, now: u64, held: &Holding, key: &[u8], wanted: Option<&[u8]>) -> bool {
    match live(config, now, held, key) {
        Some(seen) => wanted == Some(seen.bytes),
        None => wanted.is_none(),
    }
}

/// Does a row, and returns whether the result was the expected one.
fn comes_so(alloc: Global, config: &Config, held: &mut Holding, row: Row<'_>) -> bool {
    match row {
        Row::Accepts(now, key, value, told, right) => {
            accept_with(alloc, config, now, held, key, value, told) == Ok(right)
        }
        Row::Does(now, deed, told, right) => {
            do_with(alloc, config, now, held, deed, told) == Ok(right)
        }
        Row::IsLive(now, key, wanted) => is_live(config, now, held, key, wanted),
        Row::Holds(number) => held.len() == number,
    }
}

/// Whether each row comes out so.
fn come_so(alloc: Global, config: &Config, held: &mut Holding, rows: &[Row<'_>]) -> bool {
    for row in rows {
        if !comes_so(alloc, config, held, *row) {
            return false;
        }
    }
    true
}

/// Whether each row of a case comes out so.
fn is_right(alloc: Global, config: &Config, case: Case<'_>) -> bool {
    match Holding::new(alloc) {
        Ok(mut held) => come_so(alloc, config, &mut held, case),
        Err(_) => false,
    }
}

/// The same, on the second attempt if memory is refused.
fn is_right_again(alloc: Global, config: &Config, case: Case<'_>) -> bool {
    is_right(alloc, config, case) || is_right(alloc, config, case)
}

/// How many of these cases come out so before one does not.
fn right_cases(alloc: Global, config: &Config, cases: &[Case<'_>]) -> usize {
    for (place, case) in cases.iter().enumerate() {
        if !is_right_again(alloc, config, *case) {
            return place;
        }
    }
    cases.len()
}

/// The first group with a case that does not come out so, and the place of the case.
fn first_wrong(alloc: Global, groups: &[Group]) -> Option<(usize, usize)> {
    for (number, group) in groups.iter().enumerate() {
        let place = right_cases(alloc, &group.config, group.cases);
        if place < group.cases.len() {
            return Some((number, place));
        }
    }
    None
}

const OLDER_VALUES: &[Case<'static>] = &[
    &[
        Row::Accepts(5, b"a", b"1", &[], true),
        Row::Accepts(6, b"a", b"2", &[], false),
    ],
    &[
        Row::Accepts(5, b"a", b"1", &[], true),
        Row::Accepts(6, b"a", b"2", &[OTHER_VALUE], false),
    ],
    &[
        Row::Accepts(5, b"a", b"1", &[], true),
        Row::Accepts(6, b"a", b"2", &[EXPIRED], false),
    ],
    &[
        Row::Accepts(5, b"a", b"1", &[], true),
        Row::Accepts(6, b"b", b"2", &[REPLACED], false),
    ],
    &[
        Row::Accepts(5, b"a", b"1", &[], true),
        Row::Accepts(6, b"a", b"2", &[REPLACED], true),
    ],
    &[
        Row::Accepts(5, b"a", b"1", &[], true),
        Row::Accepts(6, b"a", b"2", &[REPLACED, REPLACED], false),
    ],
];

const NEWER_VALUES: &[Case<'static>] = &[&[
    Row::Accepts(5, b"a", b"1", &[], true),
    Row::Accepts(5, b"a", b"2", &[REPLACED], true),
    Row::Holds(1),
    Row::IsLive(5, b"a", Some(b"2")),
]];

/// Nothing is told `Size` without a capacity.
const UNBOUNDED: &[Case<'static>] = &[&[
    Row::Accepts(1, b"a", b"1", &[], true),
    Row::Accepts(1, b"b", b"2", &[SIZE], false),
]];

/// `Size` needs a point, and none counts behind a run of all parts.
const SIZES: &[Case<'static>] = &[
    &[
        Row::Accepts(1, b"a", b"1", &[], true),
        Row::Accepts(1, b"b", b"2", &[SIZE], true),
    ],
    &[
        Row::Accepts(1, b"a", b"1", &[], true),
        Row::Accepts(1, b"b", b"2", &[], true),
        Row::Does(2, DELETES_B, &[DELETED], true),
        Row::Does(3, IDLE, &[], true),
        Row::Does(4, IDLE, &[SIZE], true),
    ],
    &[
        Row::Accepts(1, b"a", b"1", &[], true),
        Row::Accepts(1, b"b", b"2", &[], true),
        Row::Does(2, DELETES_B, &[DELETED], true),
        Row::Does(3, SYNCS, &[], true),
        Row::Does(4, IDLE, &[SIZE], false),
    ],
];

const COVERED_VALUES: &[Case<'static>] = &[
    &[
        Row::Accepts(1, b"ab", b"1", &[], true),
        Row::Does(2, DROPS_A, &[], true),
        Row::IsLive(2, b"ab", None),
        Row::Does(3, IDLE, &[COVERED], true),
    ],
    &[
        Row::Accepts(1, b"ab", b"1", &[], true),
        Row::Does(2, DROPS_B, &[], true),
        Row::IsLive(2, b"ab", Some(b"1")),
        Row::Does(3, IDLE, &[COVERED], false),
    ],
    &[
        Row::Accepts(1, b"ab", b"1", &[], true),
        Row::Does(2, DROPS_ABC, &[], true),
        Row::IsLive(2, b"ab", Some(b"1")),
        Row::Does(3, IDLE, &[COVERED], false),
    ],
    &[
        Row::Accepts(1, b"ab", b"1", &[], true),
        Row::Does(2, CLEARS, &[], true),
        Row::Does(3, IDLE, &[COVERED], true),
        Row::Holds(0),
    ],
];

const DEADLINES: &[Case<'static>] = &[
    &[
        Row::Accepts(0, b"a", b"1", &[], true),
        Row::IsLive(999_999, b"a", Some(b"1")),
        Row::Does(999_999, IDLE, &[EXPIRED], false),
    ],
    &[
        Row::Accepts(0, b"a", b"1", &[], true),
        Row::IsLive(1_000_000, b"a", None),
        Row::Does(1_000_000, IDLE, &[EXPIRED], true),
    ],
    &[
        Row::Accepts(0, b"a", b"1", &[], true),
        Row::IsLive(u64::MAX, b"a", None),
        Row::Does(u64::MAX, IDLE, &[EXPIRED], true),
    ],
];

/// Cases by one configuration.
#[derive(Clone, Copy)]
struct Group {
    config: Config,
    cases: &'static [Case<'static>],
}

const GROUPS: &[Group] = &[
    // An older value is told once.
    Group {
        config: PLAIN,
        cases: OLDER_VALUES,
    },
    // The newer value is live.
    Group {
        config: PLAIN,
        cases: NEWER_VALUES,
    },
    // `Size` needs a capacity and a point.
    Group {
        config: PLAIN,
        cases: UNBOUNDED,
    },
    Group {
        config: ONE_VALUE,
        cases: SIZES,
    },
    // Covered values are told `Explicit`.
    Group {
        config: PLAIN,
        cases: COVERED_VALUES,
    },
    // A deadline comes at its moment.
    Group {
        config: BRIEF,
        cases: DEADLINES,
    },
];

#[test]
fn what_steps_do(rt: HostRuntime) {
    assert_eq!(rt; first_wrong(rt.alloc(), GROUPS), None);
}
