//! What a namespace of several parts replies and tells whose keys are sent where their lengths say.
ghost use Rattle.std.specs.Prelude.{◌≡◌, ◌≤◌};

use crate::rows::{FIRST, PLAIN, Row, no_row_wrong, none_wrong};
use crate::stores::keeping::part_taking;
use crate::stores::lengths::ByLength;
use crate::stores::wrong_row;
use audit_model::{Config, Key, RemovalCause};
use cache_commands::{Store, StoreError};
use cache_front::{FrontStore, KeyedHasher};
use rand_core::SeedableRng;
use rand_xoshiro::SplitMix64;
use std::alloc::Global;

// of two parts: keys of length 1 are in part 0, of length 2 in part 1
const TWO: Config = Config { parts: 2, ..PLAIN };

const A_DROP_REACHES_EACH_PART: &[Row<'static>] = &[
    Row::Opens(FIRST),
    Row::Says(
        FIRST,
        b"SET a - 1\nSET ab - 2\nSET b - 3\nDROPIF a\nGET a\nGET ab\nGET b\nSYNC\n",
        b"OK\nOK\nOK\nOK\nNONE\nNONE\nVAL 3\nSYNC 1 1\n",
    ),
    Row::Tells(RemovalCause::Explicit, b"a", b"1"),
    Row::Tells(RemovalCause::Explicit, b"ab", b"2"),
    Row::TellsNone,
];

// notes of a part come in the order in which they were told, here of all
const NOTES_COME_AS_THEY_WERE_TOLD: &[Row<'static>] = &[
    Row::Opens(FIRST),
    Row::Says(
        FIRST,
        b"SET ab - 1\nSET a - 1\nDEL ab\nSET a - 2\nSET ab - 2\nSET ab - 3\n",
        b"OK\nOK\nOK\nOK\nOK\nOK\n",
    ),
    Row::Tells(RemovalCause::Explicit, b"ab", b"1"),
    Row::Tells(RemovalCause::Replaced, b"a", b"1"),
    Row::Tells(RemovalCause::Replaced, b"ab", b"2"),
    Row::TellsNone,
];

// of two parts, each of which has room for two
const THREE_IN_TWO: Config = Config {
    capacity: Some(3),
    ..TWO
};

const EACH_PART_HAS_ITS_SHARE: &[Row<'static>] = &[
    Row::Opens(FIRST),
    Row::Says(
        FIRST,
        b"SET xx - 1\nSET a - 1\nSET b - 1\nSET yy - 1\n",
        b"OK\nOK\nOK\nOK\n",
    ),
    Row::TellsNone,
    // the one of its part used longest ago leaves, and not those of the other
    Row::Says(
        FIRST,
        b"SYNC\nSET c - 1\nSYNC\n",
        b"SYNC 4 4\nOK\nSYNC 4 4\n",
    ),
    Row::Tells(RemovalCause::Size, b"a", b"1"),
    Row::TellsNone,
    Row::Says(FIRST, b"DEL xx\nSET zz - 1\n", b"OK\nOK\n"),
    Row::Tells(RemovalCause::Explicit, b"xx", b"1"),
    Row::TellsNone,
    Row::Says(FIRST, b"SYNC\n", b"SYNC 4 4\n"),
];

const EACH_PART_KEEPS_ITS_ORDER_OF_USE: &[Row<'static>] = &[
    Row::Opens(FIRST),
    Row::Says(
        FIRST,
        b"SET xx - 1\nSET a - 1\nSET b - 1\nSET yy - 1\n",
        b"OK\nOK\nOK\nOK\n",
    ),
    // used last, of part 0: b, a; of part 1: yy, xx, which stands behind a and stays there
    Row::Says(FIRST, b"SET c - 1\nSYNC\n", b"OK\nSYNC 4 4\n"),
    Row::Tells(RemovalCause::Size, b"a", b"1"),
    Row::Says(FIRST, b"SET zz - 1\nSYNC\n", b"OK\nSYNC 4 4\n"),
    Row::Tells(RemovalCause::Size, b"xx", b"1"),
    // of part 0: b, c; of part 1: yy, zz
    Row::Says(FIRST, b"GET b\nGET yy\n", b"VAL 1\nVAL 1\n"),
    Row::Says(FIRST, b"SET d - 1\nSYNC\n", b"OK\nSYNC 4 4\n"),
    Row::Tells(RemovalCause::Size, b"c", b"1"),
    Row::Says(FIRST, b"SET ww - 1\nSYNC\n", b"OK\nSYNC 4 4\n"),
    Row::Tells(RemovalCause::Size, b"zz", b"1"),
    Row::TellsNone,
    Row::Says(FIRST, b"SYNC\n", b"SYNC 4 4\n"),
];

// of four parts, each of which has room for two
const EIGHT_IN_FOUR: Config = Config {
    capacity: Some(8),
    parts: 4,
    ..PLAIN
};

// keys of length 4 all have the hash 0
const KEYS_OF_ONE_HASH_SHARE_A_PART: &[Row<'static>] = &[
    Row::Opens(FIRST),
    Row::Says(
        FIRST,
        b"SET zero - 1\nSYNC\nSET one. - 2\nSYNC\nSET two. - 3\nSYNC\n",
        b"OK\nSYNC 1 1\nOK\nSYNC 2 2\nOK\nSYNC 2 2\n",
    ),
    Row::Tells(RemovalCause::Size, b"zero", b"1"),
    Row::TellsNone,
    Row::Says(
        FIRST,
        b"GET zero\nGET one.\nGET two.\nDEL two.\nKEYS\n",
        b"NONE\nVAL 2\nVAL 3\nOK\nKEYS 1\none.\n",
    ),
    Row::Tells(RemovalCause::Explicit, b"two.", b"3"),
    Row::TellsNone,
];

const TABLES: &[(Config, &[Row<'static>])] = &[
    (TWO, A_DROP_REACHES_EACH_PART),
    (TWO, NOTES_COME_AS_THEY_WERE_TOLD),
    (THREE_IN_TWO, EACH_PART_HAS_ITS_SHARE),
    (THREE_IN_TWO, EACH_PART_KEEPS_ITS_ORDER_OF_USE),
    (EIGHT_IN_FOUR, KEYS_OF_ONE_HASH_SHARE_A_PART),
];

/// The place of the first row that does not come out so.
fn wrong_by_length(alloc: Global, config: Config, rows: &[Row<'_>]) -> Option<usize> {
    let generator = SplitMix64::seed_from_u64(1);
    wrong_row(alloc, config, generator, ByLength, rows)
}

/// The same, at the second try where memory is refused.
fn wrong_at_last(alloc: Global, config: Config, rows: &[Row<'_>]) -> Option<usize> {
    match wrong_by_length(alloc, config, rows) {
        Some(_) => wrong_by_length(alloc, config, rows),
        None => None,
    }
}

/// The place of the first table, and of its first row that does not come out so.
fn first_wrong(alloc: Global) -> Option<(usize, usize)> {
    for (place, (config, rows)) in TABLES.iter().enumerate() {
        if let Some(row) = wrong_at_last(alloc, *config, rows) {
            return Some((place, row));
        }
    }
    None
}

#[test]
fn parts_of_a_namespace(rt: HostRuntime) {
    none_wrong(&rt, first_wrong(rt.alloc()));
}

/// How many parts are wanted, a key, and its part. Three wanted parts become four.
const PLACES: &[(u32, &[u8], u64)] = &[
    (3, b"a", 1),
    (3, b"ab", 2),
    (3, b"abc", 3),
    (3, b"abcd", 0),
    (3, b"b", 1),
    (4, b"zero", 0),
    (4, b"one.", 0),
    (4, b"two.", 0),
    (2, b"a", 0),
    (2, b"ab", 1),
    (2, b"b", 0),
    (2, b"xx", 1),
    (2, b"yy", 1),
    (2, b"zz", 1),
    (2, b"ww", 1),
    (2, b"c", 0),
    (2, b"d", 0),
];

fn key_of(alloc: Global, name: &[u8]) -> Result<Key, StoreError> {
    let mut key = Key::with_capacity(alloc, 4)?;
    key.fill(name)?;
    Ok(key)
}

/// The part in which a new store of so many wanted parts accepts a key's value.
fn part_in_new(alloc: Global, parts: u32, key: &Key) -> Result<u64, StoreError> {
    let config = Config { parts, ..PLAIN };
    let generator = SplitMix64::seed_from_u64(1);
    let mut store = FrontStore::new(alloc, config, 0, generator, ByLength)?;
    store.accept(key, b"1", None, 0)
}

/// The same by the key's name.
fn part_of(alloc: Global, parts: u32, name: &[u8]) -> Result<u64, StoreError> {
    let key = key_of(alloc, name)?;
    part_in_new(alloc, parts, &key)
}

/// Whether that is a key's part.
fn is_in_part(alloc: Global, parts: u32, name: &[u8], part: u64) -> bool {
    part_of(alloc, parts, name) == Ok(part)
}

/// The place of the first key that is in another part, at the second try where memory is refused.
fn first_misplaced(alloc: Global) -> Option<usize> {
    for (place, (parts, name, part)) in PLACES.iter().enumerate() {
        if !is_in_part(alloc, *parts, name, *part) && !is_in_part(alloc, *parts, name, *part) {
            return Some(place);
        }
    }
    None
}

#[test]
fn a_keys_part_is_its_hashs(rt: HostRuntime) {
    no_row_wrong(&rt, first_misplaced(rt.alloc()));
}

/// Whether two keys have two parts, and the first has the same again.
fn have_two_parts<S: Store>(store: &mut S, config: &Config, one: &Key, other: &Key) -> bool
    requires config { (S.view store.old).frame.config ≡ config.now }
    requires in_time { (S.view store.old).frame.latest ≤ 0 }
{
    let first = part_taking(store, config, 0, one, b"1");
    let second = part_taking(store, config, 0, other, b"1");
    let again = part_taking(store, config, 0, one, b"2");
    first.is_some() && second.is_some() && first != second && first == again
}

/// The same of a new store.
fn have_two_parts_in_new(alloc: Global, one: &Key, other: &Key) -> Result<bool, StoreError> {
    let generator = SplitMix64::seed_from_u64(1);
    let hasher = KeyedHasher::new(b"sixteen bytes ...");
    let mut store = FrontStore::new(alloc, TWO, 0, generator, hasher)?;
    Ok(have_two_parts(&mut store, &TWO, one, other))
}

/// The same of two names.
fn uses_both_parts(alloc: Global) -> Result<bool, StoreError> {
    let one = key_of(alloc, b"a")?;
    let other = key_of(alloc, b"c")?;
    have_two_parts_in_new(alloc, &one, &other)
}

#[test]
fn the_keyed_hasher_uses_both_parts(rt: HostRuntime) {
    assert!(rt; uses_both_parts(rt.alloc()) == Ok(true) || uses_both_parts(rt.alloc()) == Ok(true));
}
