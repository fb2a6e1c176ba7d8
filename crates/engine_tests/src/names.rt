//! A key that is looked for by what names it, and the texts of refusals.
ghost use Rattle.std.specs.Prelude.{◌≡◌};

use crate::rows::{CASE, Case, Numbers, Row, none_wrong, put};
use engine_reference::Names;
use moka_engine::Refusal;
use policy_base::Instant;
use std::alloc::{AllocError, Global};

/// A key that is lent for a look-up.
#[derive(Drop)]
struct LentNumber<'a> {
    key: &'a u32,
}

impl<'a> Names<u32> for LentNumber<'a> {
    ghost named_key = { λ lent. lent.key.now };

    fn is_name_of(&self, key: &u32) -> bool {
        *self.key == *key
    }
}

fn start() -> Instant {
    Instant::from_nanos(0)
}

/// What is found by a name of a key.
fn found(cache: &Numbers, key: u32) -> Option<u32> {
    let hash = cache.hash(&key);
    match cache.get_with_hash_without_recording(&LentNumber { key: &key }, hash, start()) {
        Ok(Some(value)) => Some(value.number),
        _ => None,
    }
}

/// Names of 7 and 8, where 70 is written under 7.
pub fn finds_by_names(cache: &mut Numbers) -> bool {
    put(cache, 7, 70, start(), 1).is_ok()
        && found(cache, 7) == Some(70)
        && found(cache, 8).is_none()
}

const CASES: &[Case<'static>] = &[Case {
    rows: &[Row::FindsByNames],
    ..CASE
}];

#[test]
fn a_name_finds_its_key(rt: HostRuntime) {
    none_wrong(&rt, rt.alloc(), CASES);
}

const TEXTS: [(Refusal, &str); 6] = [
    (Refusal::OutOfMemory, "out of memory"),
    (Refusal::UnknownTicket, "unknown ticket"),
    (Refusal::QueueFull, "queue full"),
    (
        Refusal::InvalidationClosuresDisabled,
        "invalidation closures disabled",
    ),
    (Refusal::IdsInUse, "ids in use"),
    (Refusal::UsedUp, "used up"),
];

fn says(alloc: Global, refusal: Refusal, text: &str) -> Result<bool, AllocError> {
    Ok(format!(in alloc; "{refusal}")?.as_str() == text)
}

/// Whether a refusal has its text, at the second try where memory is refused.
fn has_text(alloc: Global, refusal: Refusal, text: &str) -> bool {
    says(alloc, refusal, text) == Ok(true) || says(alloc, refusal, text) == Ok(true)
}

fn have_texts(alloc: Global) -> bool {
    for row in &TEXTS {
        if !has_text(alloc, row.0, row.1) {
            return false;
        }
    }
    true
}

#[test]
fn refusals_have_texts(rt: HostRuntime) {
    assert!(rt; have_texts(rt.alloc()));
}
