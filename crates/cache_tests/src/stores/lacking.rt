//! A store that finds no memory for some moments, and what a namespace over it holds back meanwhile.
ghost use Rattle.std.specs.Prelude.{◌≡◌};

use crate::rows::{Asked, Case, FIRST, FIRST_LOAD, Given, PLAIN, Row, SECOND, none_wrong};
use crate::stores::{is_brief, wrong_over};
use audit_model::{Config, Key, Note, RemovalCause, ServiceError};
use cache_commands::{Counts, Store, StoreError};
use cache_front::{FrontStore, KeyedHasher};
use rand_core::SeedableRng;
use rand_xoshiro::SplitMix64;
use std::alloc::{AllocError, Global};

/// A store that refuses each growth at the moments 3 and 4.
#[derive(Drop)]
struct Lacking<S: Store> {
    inner: S,
}

/// Whether there is no memory at a moment.
fn is_lacking(now: u64) -> bool {
    now == 3 || now == 4
}

impl<S: Store> Store for Lacking<S> {
    ghost view = { λ store. S.view store.inner };

    fn config(&self) -> &Config {
        self.inner.config()
    }

    fn sound(&self) {
        self.inner.sound();
    }

    fn len(&self) -> usize {
        self.inner.len()
    }

    fn peek(&self, key: &Key, now: u64) -> Option<&[u8]> {
        self.inner.peek(key, now)
    }

    fn count_live(&self, now: u64) -> usize {
        self.inner.count_live(now)
    }

    fn write_live_keys(&self, now: u64, output: &mut Vec<u8>) -> Result<(), AllocError> {
        if is_lacking(now) {
            return Err(AllocError);
        }
        self.inner.write_live_keys(now, output)
    }

    fn look_up<T, E, F: FnOnce(Option<&[u8]>, &mut Vec<u8>) -> Result<T, E> + Drop>(
        &mut self,
        key: &Key,
        now: u64,
        output: &mut Vec<u8>,
        read: F,
    ) -> Result<T, E> {
        self.inner.look_up(key, now, output, read)
    }

    fn accept(
        &mut self,
        key: &Key,
        bytes: &[u8],
        milliseconds: Option<u64>,
        now: u64,
    ) -> Result<u64, StoreError> {
        if is_lacking(now) {
            return Err(StoreError::OutOfMemory);
        }
        self.inner.accept(key, bytes, milliseconds, now)
    }

    fn remove(&mut self, key: &Key, now: u64) -> Result<(), StoreError> {
        if is_lacking(now) {
            return Err(StoreError::OutOfMemory);
        }
        self.inner.remove(key, now)
    }

    fn clear(&mut self, now: u64) -> Result<(), StoreError> {
        self.inner.clear(now)
    }

    fn drop_prefix(&mut self, prefix: &[u8], now: u64) -> Result<bool, StoreError> {
        if is_lacking(now) {
            return Err(StoreError::OutOfMemory);
        }
        self.inner.drop_prefix(prefix, now)
    }

    fn run_all(&mut self, now: u64) -> Counts {
        self.inner.run_all(now)
    }

    fn next_notice(&mut self) -> Option<Note> {
        self.inner.next_notice()
    }
}

// what is held back is as if it had not come; while it is refused again, no piece is taken
const A_SET_IS_HELD_BACK: &[Row<'static>] = &[
    Row::Opens(FIRST),
    Row::Opens(SECOND),
    Row::At(3),
    Row::Holds(FIRST, b"SET a - 1\nGET a\n"),
    Row::Output(FIRST, b""),
    Row::Says(SECOND, b"GET a\n", b"NONE\n"),
    Row::At(4),
    Row::Refuses(Asked::Feeds(FIRST, b""), ServiceError::HeldAgain),
    Row::Refuses(Asked::Feeds(FIRST, b"DEL a\n"), ServiceError::HeldAgain),
    Row::Output(FIRST, b""),
    Row::Says(SECOND, b"GET a\n", b"NONE\n"),
    Row::At(5),
    Row::Says(FIRST, b"", b"OK\nVAL 1\n"),
    Row::Says(SECOND, b"GET a\n", b"VAL 1\n"),
    Row::TellsNone,
];

const A_DEL_IS_HELD_BACK: &[Row<'static>] = &[
    Row::Opens(FIRST),
    Row::Opens(SECOND),
    Row::Says(FIRST, b"SET a - 1\n", b"OK\n"),
    Row::At(3),
    Row::Holds(FIRST, b"DEL a\n"),
    Row::Says(SECOND, b"GET a\n", b"VAL 1\n"),
    Row::TellsNone,
    Row::At(5),
    Row::Says(FIRST, b"", b"OK\n"),
    Row::Says(SECOND, b"GET a\n", b"NONE\n"),
    Row::Tells(RemovalCause::Explicit, b"a", b"1"),
];

const A_DROPIF_AND_KEYS_ARE_HELD_BACK: &[Row<'static>] = &[
    Row::Opens(FIRST),
    Row::Opens(SECOND),
    Row::Says(FIRST, b"SET ab - 1\nSET b - 2\n", b"OK\nOK\n"),
    Row::At(3),
    Row::Holds(FIRST, b"DROPIF a\n"),
    Row::Holds(SECOND, b"KEYS\n"),
    Row::Output(SECOND, b""),
    Row::At(5),
    Row::Says(SECOND, b"GET ab\n", b"KEYS 2\nab\nb\nVAL 1\n"),
    Row::Says(FIRST, b"", b"OK\n"),
    Row::Says(SECOND, b"GET ab\nGET b\n", b"NONE\nVAL 2\n"),
];

const VALUE: Asked<'static> = Asked::Answers(FIRST_LOAD, Given::Value(b"v", None));

const AN_ANSWER_IS_HANDED_BACK: &[Row<'static>] = &[
    Row::Opens(FIRST),
    Row::Opens(SECOND),
    Row::Says(FIRST, b"LOAD k\n", b""),
    Row::Says(SECOND, b"LOAD k\n", b""),
    Row::At(3),
    Row::Refuses(VALUE, ServiceError::OutOfMemory),
    Row::Output(FIRST, b""),
    Row::Output(SECOND, b""),
    Row::Waits(FIRST, true),
    Row::LoadsOpen(0, 1),
    Row::At(5),
    Row::Does(VALUE),
    Row::Output(FIRST, b"VAL v\n"),
    Row::Output(SECOND, b"VAL v\n"),
];

// of four parts
const FOUR: Config = Config { parts: 4, ..PLAIN };

const TABLES: &[(Config, &[Row<'static>])] = &[
    (PLAIN, A_SET_IS_HELD_BACK),
    (PLAIN, A_DEL_IS_HELD_BACK),
    (FOUR, A_DROPIF_AND_KEYS_ARE_HELD_BACK),
    (PLAIN, AN_ANSWER_IS_HANDED_BACK),
];

/// The place of the first row that does not come out so over a new store.
fn wrong_row(alloc: Global, config: Config, rows: &[Row<'_>]) -> Option<usize> {
    if !is_brief(&config) {
        return Some(0);
    }
    let configs = [config];
    let case = Case {
        configs: &configs,
        made: 0,
        rows,
    };
    let generator = SplitMix64::seed_from_u64(1);
    let hasher = KeyedHasher::new(b"sixteen bytes ...");
    match FrontStore::new(alloc, config, 0, generator, hasher) {
        Ok(inner) => wrong_over(alloc, Lacking { inner }, case),
        Err(_) => Some(0),
    }
}

/// The same, at the second try where memory is refused.
fn wrong_at_last(alloc: Global, config: Config, rows: &[Row<'_>]) -> Option<usize> {
    match wrong_row(alloc, config, rows) {
        Some(_) => wrong_row(alloc, config, rows),
        None => None,
    }
}

/// The place of the first table, and of its first row that does not come out so.
fn first_wrong(alloc: Global) -> Option<(usize, usize)> {
    for (place, (config, rows)) in TABLES.iter().enumerate() {
        if let Some(row) = wrong_at_last(alloc, *config, rows) {
            return Some((place, row));
        }
    }
    None
}

#[test]
fn held_back_for_want_of_memory(rt: HostRuntime) {
    none_wrong(&rt, first_wrong(rt.alloc()));
}
