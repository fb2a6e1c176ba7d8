//! How a cache prints, what a loop over it gives, and that it refuses predicates where it was not
//! made to take them.
ghost use Rattle.std.specs.Prelude.{◌<◌, IfSome};
ghost use Rattle.front_reference.specs.Fronts.{ComesAfter};

use crate::playing::Turning;
use engine_reference::{Bundle, NoExpiry, NoPredicate, WeighOne};
use front_parts::Iter;
use front_reference::{At, CacheError, Shared};
use front_state::LentState;
use moka::{BuildError, CacheBuilder};
use policy_base::Instant;
use std::alloc::Global;
use std::hash::{BuildHasherDefault, FoldHasher};

/// A cache of numbers by std's fixed hasher.
type Numbers = LentState<
    u64,
    u64,
    BuildHasherDefault<FoldHasher>,
    Bundle<NoExpiry, WeighOne, NoPredicate, ()>,
>;

/// What a loop over it gives.
type Pairs<'a> = Iter<'a, Shared<u64>, u64, Numbers>;

/// When the next call comes.
fn next(cache: &Numbers) -> Option<At>
    ensures follows { IfSome result (λ at. ComesAfter at.now at.step cache.now) }
    ensures rises { IfSome result (λ at. cache.now.step < at.step) }
{
    let last = cache.last_call();
    let step = last.step.checked_add(1)?;
    Some(At {
        now: last.now,
        step,
    })
}

/// Puts 10 under 1.
fn puts_one(cache: &mut Numbers) -> bool {
    match next(cache) {
        Some(at) => cache.insert(1, 10, at).is_ok(),
        None => false,
    }
}

fn prints_as_a_map(alloc: Global, cache: &Numbers) -> bool {
    match format!(in alloc; "{cache:?}") {
        Ok(text) => text.as_str() == "{1: 10}",
        Err(_) => false,
    }
}

/// What is given next is key 1 with 10.
fn gives_first(pairs: &mut Pairs<'_>) -> bool {
    match pairs.next() {
        Some(Ok((key, value))) => *key == 1 && value == 10,
        _ => false,
    }
}

fn is_iterated(cache: &Numbers) -> bool {
    let mut pairs = cache.into_iter();
    gives_first(&mut pairs) && pairs.next().is_none()
}

/// A cache that was not made to take predicates refuses one.
fn refuses_predicates(cache: &mut Numbers) -> bool {
    match next(cache) {
        Some(at) => match cache.invalidate_entries_if(NoPredicate, &mut Turning(4), at) {
            Ok(_) => false,
            Err(refused) => refused == CacheError::InvalidationClosuresDisabled,
        },
        None => false,
    }
}

/// The value stays, and nothing is reported.
fn keeps_its_value(cache: &mut Numbers) -> bool {
    let now = cache.last_call().now;
    let is_there = match cache.peek(&1, now) {
        Some(value) => *value == 10,
        None => false,
    };
    is_there && cache.next_notice().is_none()
}

/// What a cache with one value shows.
fn shows(alloc: Global, cache: &mut Numbers) -> bool {
    puts_one(cache)
        && prints_as_a_map(alloc, cache)
        && is_iterated(cache)
        && refuses_predicates(cache)
        && keeps_its_value(cache)
}

fn made(alloc: Global) -> Result<Numbers, BuildError> {
    CacheBuilder::new(10)
        .eviction_listener()
        .build_state(alloc, BuildHasherDefault::new(), Instant::from_nanos(0))
}

fn is_shown(alloc: Global) -> bool {
    match made(alloc) {
        Ok(mut cache) => shows(alloc, &mut cache),
        Err(_) => false,
    }
}

#[test]
fn a_cache_with_one_value(rt: HostRuntime) {
    assert!(rt; is_shown(rt.alloc()) || is_shown(rt.alloc()));
}
