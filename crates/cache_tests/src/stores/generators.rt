//! What a namespace replies whose generator gives few words.
use crate::rows::{FIRST, PLAIN, Row, none_wrong};
use crate::stores::lengths::ByLength;
use crate::stores::turning::Turning;
use crate::stores::wrong_row;
use audit_model::{Config, Weight};
use cache_front::KeyedHasher;
use std::alloc::Global;

const BYTES: Config = Config {
    weight: Weight::Bytes,
    own_deadlines: true,
    ..PLAIN
};

const A_SECOND_DROP_FINDS_NO_IDENTIFIER: &[Row<'static>] = &[
    Row::Opens(FIRST),
    Row::Says(
        FIRST,
        b"SET ab - 1\nSET b - 2\nDROPIF a\nDROPIF b\nGET ab\nGET b\n",
        b"OK\nOK\nOK\nERR id\nNONE\nVAL 2\n",
    ),
    // a run releases the identifier
    Row::Says(FIRST, b"SYNC\nDROPIF b\nGET b\n", b"SYNC 1 1\nOK\nNONE\n"),
];

// the first covers nothing, and is registered until a run comes
const AN_IDENTIFIER_THAT_COVERS_NOTHING_IS_IN_USE: &[Row<'static>] = &[
    Row::Opens(FIRST),
    Row::Says(
        FIRST,
        b"SET b - 1\nDROPIF a\nDROPIF b\nGET b\nSYNC\nDROPIF b\nGET b\n",
        b"OK\nOK\nERR id\nVAL 1\nSYNC 1 1\nOK\nNONE\n",
    ),
];

const TABLES: &[(Config, &[Row<'static>])] = &[
    (BYTES, A_SECOND_DROP_FINDS_NO_IDENTIFIER),
    (PLAIN, AN_IDENTIFIER_THAT_COVERS_NOTHING_IS_IN_USE),
];

/// The place of the first row that does not come out so where each word that is drawn is 0.
fn wrong_of_zeros(alloc: Global, config: Config, rows: &[Row<'_>]) -> Option<usize> {
    let hasher = KeyedHasher::new(b"sixteen bytes ...");
    wrong_row(alloc, config, Turning(u32::MAX), hasher, rows)
}

/// The same, at the second try where memory is refused.
fn wrong_at_last(alloc: Global, config: Config, rows: &[Row<'_>]) -> Option<usize> {
    match wrong_of_zeros(alloc, config, rows) {
        Some(_) => wrong_of_zeros(alloc, config, rows),
        None => None,
    }
}

/// The place of the first table, and of its first row that does not come out so.
fn first_wrong(alloc: Global) -> Option<(usize, usize)> {
    for (place, (config, rows)) in TABLES.iter().enumerate() {
        if let Some(row) = wrong_at_last(alloc, *config, rows) {
            return Some((place, row));
        }
    }
    None
}

#[test]
fn identifiers_that_are_in_use(rt: HostRuntime) {
    none_wrong(&rt, first_wrong(rt.alloc()));
}

// keys of length 1 are in part 0, of length 2 in part 1
const TWO: Config = Config { parts: 2, ..PLAIN };

// the first identifier is 0 and goes to part 0; all others are alike, and the first of them goes to part 1
const A_DROP_THAT_IS_REFUSED_IN_A_PART_COVERS_NONE: &[Row<'static>] = &[
    Row::Opens(FIRST),
    Row::Says(FIRST, b"SET a - 1\nSET ab - 1\nDROPIF x\n", b"OK\nOK\nOK\n"),
    // part 0 draws one that it has not, part 1 a thousand that it has
    Row::Says(
        FIRST,
        b"DROPIF a\nGET a\nGET ab\nSYNC\n",
        b"ERR id\nVAL 1\nVAL 1\nSYNC 2 2\n",
    ),
    Row::TellsNone,
    // a run releases the identifiers
    Row::Says(FIRST, b"DROPIF a\nGET a\nGET ab\n", b"OK\nNONE\nNONE\n"),
];

/// Whether the rows come out so where four words that are drawn are 0, and all others are alike.
fn covers_none(alloc: Global) -> bool {
    let rows = A_DROP_THAT_IS_REFUSED_IN_A_PART_COVERS_NONE;
    wrong_row(alloc, TWO, Turning(4), ByLength, rows).is_none()
}

#[test]
fn a_drop_that_is_refused_in_a_part_covers_none(rt: HostRuntime) {
    assert!(rt; covers_none(rt.alloc()) || covers_none(rt.alloc()));
}
