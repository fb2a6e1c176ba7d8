//! What goes over a whole cache: iterators beside writers, and printed text.
use crate::caches::Stage;
use crate::choosing::Handle;
use crate::crowds::Work;
use crate::forms::{FIVE_HUNDRED, Form, Settings, Staged};
use crate::rows::{Deed, Row};
use crate::scenes::{Scene, Step, holds_in};
use moka_sync::{CacheError, Shared};
use std::alloc::{AllocError, Global};
use std::fmt::{Debug, Write};
use std::sync::Wait;

/// Whether a pair is that of a key that was not seen before.
fn is_new(seen: &mut Vec<bool>, key: u64, value: u64) -> bool {
    let place = key as usize;
    if place < seen.len() && !seen[place] && value == key.wrapping_mul(2) {
        seen[place] = true;
        true
    } else {
        false
    }
}

/// Whether an item is such a pair.
fn is_new_item(seen: &mut Vec<bool>, item: Result<(Shared<u64>, u64), CacheError>) -> bool {
    match item {
        Ok((key, value)) => is_new(seen, *key, value),
        Err(_) => false,
    }
}

/// How many items come, if each of them is such a pair. (It stops at one that is not: a call that lacks memory would go on for ever.)
pub fn count_seen<H: Wait, C: Drop>(
    attached: &Handle<H, C>,
    seen: &mut Vec<bool>,
) -> Option<usize> {
    let mut count: usize = 0;
    let mut are_new = true;
    for item in attached {
        are_new = is_new_item(seen, item);
        if !are_new {
            break;
        }
        count = count.saturating_add(1);
    }
    are_new.then_some(count)
}

/// So many keys, none of which was seen.
fn make_unseen(alloc: Global, keys: usize) -> Result<Vec<bool>, AllocError> {
    vec![in alloc; false; keys]
}

/// Whether each of so many keys comes once.
pub fn shows_each_once<H: Wait + Copy, T: Staged>(rt: &H, stage: &Stage<T>, keys: usize) -> bool {
    match make_unseen(stage.alloc, keys) {
        Ok(mut seen) => stage.cache.count_items(rt, &mut seen) == Some(keys),
        Err(_) => false,
    }
}

/// Whether something is printed so, or in another way that it may be.
pub fn prints<A: Debug + Drop>(alloc: Global, printed: A, wanted: &str, other: &str) -> bool {
    let mut text = String::new(alloc);
    write!(text, "{printed:?}").is_ok() && (text.as_str() == wanted || text.as_str() == other)
}

/// Eight threads insert, and eight go over all, with room for all.
const VISITED: &Scene = &Scene {
    settings: Settings {
        capacity: 2048,
        ..FIVE_HUNDRED
    },
    steps: &[
        Step::Rows(&[Row::Each(Deed::Insert, 1024)]),
        Step::All(16, Work::Visit),
    ],
};

#[test]
fn iterators_beside_writers(rt: HostRuntime) {
    assert!(rt; holds_in(&rt, rt.alloc(), Form::One, VISITED));
}

#[test]
fn iterators_beside_writers_of_segments(rt: HostRuntime) {
    assert!(rt; holds_in(&rt, rt.alloc(), Form::Segments, VISITED));
}

#[test]
fn iterators_beside_writers_of_shards(rt: HostRuntime) {
    assert!(rt; holds_in(&rt, rt.alloc(), Form::Shards, VISITED));
}
