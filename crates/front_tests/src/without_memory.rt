//! What needs no memory: it comes out so with every request refused. And an iterator that finds none
//! gives the same pair later.
//!
//! A test asks for a block of a size that nothing else asks for, `BEGINS`, and at the end for one of
//! another, `ENDS`. `tools/refuse_allocations.py --between` refuses whatever is asked for from the
//! one to the other. Otherwise these are requests as any.
ghost use Rattle.std.specs.Prelude.{◌≡◌};

use crate::playing::{Call, Form, ONE, Played, empty_cache, wrong_call};
use engine_reference::RemovalCause;
use moka::{CacheBuilder, CacheError, CacheState, Instant, Iter, Shared, StdHasher, next_call};
use std::alloc::{AllocError, Global};
use std::marker::Model;

const BEGINS: usize = 20_011;

const ENDS: usize = 20_012;

/// Asks for a block of so many bytes, whatever the answer is.
fn mark(alloc: Global, size: usize) {
    let _ = Vec::<u8>::with_capacity(alloc, size);
}

/// Room for two values in one part.
const TWO: Form = Form {
    capacity: Some(2),
    ..ONE
};

const BEFORE: &[(u64, Call)] = &[
    (0, Call::Insert(1, 10)),
    (0, Call::Insert(2, 20)),
    (0, Call::Insert(3, 30)),
];

/// A run, looks and a clear, and what is told.
const ROWS: &[(u64, Call)] = &[
    (0, Call::Run),
    (0, Call::Count(2)),
    (0, Call::Told(1, RemovalCause::Size)),
    (0, Call::Has(1, false)),
    (0, Call::Peek(2, Some(20))),
    (0, Call::LookUp(3, Some(30))),
    (0, Call::Visible(2)),
    (0, Call::Clear),
    (0, Call::Visible(0)),
    (0, Call::Run),
    (0, Call::Count(0)),
    (0, Call::ToldBoth(2, 3, RemovalCause::Explicit)),
    (0, Call::NoneTold),
];

/// The place of the first row that does not come out so, after those before.
fn wrong_row<T: Played>(alloc: Global, state: &mut T) -> Option<usize> {
    let before = wrong_call(alloc, state, BEFORE);
    mark(alloc, BEGINS);
    let wrong = wrong_call(alloc, state, ROWS);
    mark(alloc, ENDS);
    before.or(wrong)
}

/// The same with a new cache; the first where there was no memory for one.
fn wrong_row_of(alloc: Global) -> Option<usize> {
    match empty_cache(alloc, TWO) {
        Some(mut state) => wrong_row(alloc, &mut state),
        None => Some(0),
    }
}

#[test]
fn runs_looks_and_clears(rt: HostRuntime) {
    assert_eq!(rt; wrong_row_of(rt.alloc()), None);
}

/// Bytes, whose clones take memory.
#[derive(Drop)]
struct Text {
    bytes: Vec<u8>,
}

impl Model for Text {
    ghost use Rattle.std.specs.Prelude.{List, ℕ};

    ghost Value = { List ℕ };

    ghost view = { λ text. text.bytes.items };
}

impl Clone for Text {
    ghost is_clone = { λ old made. made ≡ old };

    fn clone(&self) -> Result<Text, AllocError> {
        let bytes = self.bytes.clone()?;
        Ok(Text { bytes })
    }
}

type Texts = CacheState<u64, Text>;

type Given<'a> = Iter<'a, Shared<u64>, Text, Texts>;

fn new_texts(alloc: Global) -> Option<Texts> {
    CacheBuilder::default()
        .build_state(alloc, StdHasher::new(), Instant::from_nanos(0))
        .ok()
}

fn try_insert(alloc: Global, texts: &mut Texts, key: u64) -> Result<(), CacheError> {
    let bytes = vec![in alloc; 7u8; 20]?;
    let at = next_call(texts, Instant::from_nanos(0))?;
    texts.insert(key, Text { bytes }, at)
}

/// Adds three texts, each on the second attempt if memory is refused.
fn insert_three(alloc: Global, texts: &mut Texts) -> bool {
    for key in 0..3 {
        if try_insert(alloc, texts, key).is_err() && try_insert(alloc, texts, key).is_err() {
            return false;
        }
    }
    true
}

/// The next key, on the second attempt if memory is refused.
fn next_key(given: &mut Given<'_>) -> Option<u64> {
    match given.next() {
        Some(Ok((key, _))) => Some(*key),
        Some(Err(_)) => match given.next() {
            Some(Ok((key, _))) => Some(*key),
            _ => None,
        },
        None => None,
    }
}

/// The key that is given by a call that is refused, and by the next one.
fn next_refused(alloc: Global, given: &mut Given<'_>) -> Option<u64> {
    mark(alloc, BEGINS);
    let refused = given.next();
    mark(alloc, ENDS);
    match refused {
        Some(Ok((key, _))) => Some(*key),
        Some(Err(_)) => next_key(given),
        None => None,
    }
}

/// Whether an iterator, each of whose calls is refused first, gives the same three keys as another.
fn gives_again(alloc: Global, texts: &Texts) -> bool {
    let mut whole = texts.iter(Instant::from_nanos(0));
    let mut given = texts.iter(Instant::from_nanos(0));
    for _ in 0..3u32 {
        let wanted = next_key(&mut whole);
        if wanted.is_none() || next_refused(alloc, &mut given) != wanted {
            return false;
        }
    }
    next_key(&mut given).is_none()
}

fn inserted_are_given(alloc: Global, texts: &mut Texts) -> bool {
    insert_three(alloc, texts) && gives_again(alloc, texts)
}

fn texts_are_given(alloc: Global) -> bool {
    match new_texts(alloc) {
        Some(mut texts) => inserted_are_given(alloc, &mut texts),
        None => false,
    }
}

#[test]
fn the_next_call_gives_what_was_refused(rt: HostRuntime) {
    assert!(rt; texts_are_given(rt.alloc()) || texts_are_given(rt.alloc()));
}
