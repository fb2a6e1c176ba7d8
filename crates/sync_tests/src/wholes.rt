//! Whole caches: keys alone, printed text, what builders make.
use crate::caches::{Moments, NumbersBy, Play, Stage, make_moments, passes};
use crate::forms::{FIVE_HUNDRED, Settings};
use crate::numbers::Numbers;
use crate::scenes::{Scene, Step, holds};
use crate::visiting::prints;
use moka_sync::{
    Build, BuildError, CacheBuilder, Made, PlainCache, PlainRules, Segmented, SegmentedCache,
    Sharded, ShardedCache, Shared, StdHasher, WaiterValue, shards_for,
};
use std::alloc::{AllocError, Global};
use std::sync::Wait;
use std::thread::Threads;

/// A cache of numbers in segments, by plain rules.
type Plain = NumbersBy<PlainRules, Segmented>;

/// A cache of nothing but keys.
type Keys = SegmentedCache<u64, (), StdHasher, PlainRules, Moments>;

/// Whether key 0 has no value, and nothing is counted.
fn shows_nothing<H: Wait>(rt: &H, cache: &Keys) -> bool {
    !cache.contains_key(rt, &0) && cache.get(rt, &0) == Ok(None) && cache.entry_count(rt) == 0
}

/// Keys are not kept without room either.
struct NoRoom;

impl<H: Wait> Play<H> for NoRoom {
    type Cache = Keys;

    fn make(&self, _rt: &H, alloc: Global, moments: Moments) -> Result<Keys, BuildError> {
        SegmentedCache::new(alloc, 0, 1, moments)
    }

    fn plays(&self, rt: &H, stage: &Stage<Keys>) -> bool {
        stage.cache.insert(rt, 0, ()).is_ok()
            && shows_nothing(rt, &stage.cache)
            && stage.cache.run_pending_tasks(rt).is_ok()
            && shows_nothing(rt, &stage.cache)
    }
}

#[test]
fn capacity_zero_keeps_no_key(rt: HostRuntime) {
    assert!(rt; passes(&rt, rt.alloc(), &NoRoom));
}

/// A cache of names.
type Names = PlainCache<char, Shared<String>, Moments>;

/// A name, to be shared.
fn make_name(alloc: Global, name: &str) -> Result<Shared<String>, AllocError> {
    Shared::new(alloc, String::from_str(alloc, name)?)
}

/// Whether a name is inserted.
fn keeps<H: Wait>(rt: &H, alloc: Global, names: &Names, key: char, name: &str) -> bool {
    match make_name(alloc, name) {
        Ok(name) => names.insert(rt, key, name).is_ok(),
        Err(_) => false,
    }
}

/// The two ways in which two names are printed as a map of their pairs.
const PRINTED: [&str; 2] = [
    "{'a': \"alice\", 'b': \"bob\"}",
    "{'b': \"bob\", 'a': \"alice\"}",
];

/// Whether another handle of a cache is printed so.
fn is_printed<H: Wait + Copy>(rt: &H, alloc: Global, names: &Names) -> bool {
    match names.clone() {
        Ok(names) => prints(alloc, names.attach(*rt), PRINTED[0], PRINTED[1]),
        Err(_) => false,
    }
}

struct Printing;

impl<H: Wait + Copy> Play<H> for Printing {
    type Cache = Names;

    fn make(&self, _rt: &H, alloc: Global, moments: Moments) -> Result<Names, BuildError> {
        PlainCache::new(alloc, 10, moments)
    }

    fn plays(&self, rt: &H, stage: &Stage<Names>) -> bool {
        keeps(rt, stage.alloc, &stage.cache, 'a', "alice")
            && keeps(rt, stage.alloc, &stage.cache, 'b', "bob")
            && is_printed(rt, stage.alloc, &stage.cache)
    }
}

#[test]
fn prints_as_map(rt: HostRuntime) {
    assert!(rt; passes(&rt, rt.alloc(), &Printing));
}

/// What those that wait see of a turn.
type Seen = WaiterValue<u64, u64>;

/// Whether it is printed so.
fn shows(alloc: Global, seen: &Seen, text: &str) -> Result<bool, AllocError> {
    Ok(format!(in alloc; "{seen:?}")?.as_str() == text)
}

/// The same, on the second attempt if memory is refused.
fn has_word(alloc: Global, seen: Seen, word: &str) -> bool {
    shows(alloc, &seen, word) == Ok(true) || shows(alloc, &seen, word) == Ok(true)
}

/// Whether each turn has its word.
fn have_words(alloc: Global) -> bool {
    has_word(alloc, WaiterValue::Underway, "Computing")
        && has_word(alloc, WaiterValue::Done(Made::Value(7)), "Ready")
        && has_word(alloc, WaiterValue::Done(Made::Nothing), "ReadyNone")
        && has_word(alloc, WaiterValue::GivenUp, "InitFuturePanicked")
}

#[test]
fn turns_have_words(rt: HostRuntime) {
    assert!(rt; have_words(rt.alloc()));
}

/// 24 wanted segments are 32; the capacity is the wanted one, and the name is kept.
struct Tracked;

impl<H> Play<H> for Tracked {
    type Cache = Plain;

    fn make(&self, _rt: &H, alloc: Global, moments: Moments) -> Result<Plain, BuildError> {
        let name = String::from_str(alloc, "tracked")?;
        CacheBuilder::new(400)
            .name(name)
            .segments(24)
            .build(alloc, moments)
    }

    fn plays(&self, _rt: &H, stage: &Stage<Plain>) -> bool {
        let policy = stage.cache.policy();
        policy.max_capacity() == Some(400)
            && policy.num_segments() == 32
            && stage.cache.name() == Some("tracked")
    }
}

/// 24 wanted parts are 32, where there are several.
const ROUNDED: &Scene = &Scene {
    settings: Settings {
        parts: 24,
        ..FIVE_HUNDRED
    },
    steps: &[Step::Parts(32)],
};

#[test]
fn parts_are_rounded(rt: HostRuntime) {
    assert!(rt; holds(&rt, rt.alloc(), ROUNDED));
}

/// How many segments or shards a cache has, or why it was refused.
fn parts_of<T: Numbers>(made: Result<T, BuildError>) -> Result<usize, BuildError> {
    match made {
        Ok(cache) => Ok(cache.parts()),
        Err(why) => Err(why),
    }
}

/// A cache of shards, by plain rules.
type PlainShards = NumbersBy<PlainRules, Sharded>;

/// How many segments a cache of so many has, or why it was refused.
fn count_segments(alloc: Global, parts: usize) -> Result<usize, BuildError> {
    match make_moments(alloc) {
        Some(moments) => parts_of::<Plain>(SegmentedCache::new(alloc, 1, parts, moments)),
        None => Err(BuildError::OutOfMemory),
    }
}

/// The same of shards.
fn count_shards(alloc: Global, parts: usize) -> Result<usize, BuildError> {
    match make_moments(alloc) {
        Some(moments) => parts_of::<PlainShards>(ShardedCache::new(alloc, 1, parts, moments)),
        None => Err(BuildError::OutOfMemory),
    }
}

/// Whether so many segments and shards are refused for this reason.
fn are_refused(alloc: Global, parts: usize, why: BuildError) -> bool {
    count_segments(alloc, parts) == Err(why) && count_shards(alloc, parts) == Err(why)
}

/// The same, on the second attempt if memory is refused.
fn refuses(alloc: Global, parts: usize, why: BuildError) -> bool {
    are_refused(alloc, parts, why) || are_refused(alloc, parts, why)
}

#[test]
fn builders(rt: HostRuntime) {
    assert!(rt;
        passes(&rt, rt.alloc(), &Tracked)
            && refuses(rt.alloc(), 0, BuildError::NoSegments)
            && refuses(rt.alloc(), 65_537, BuildError::TooManySegments)
    );
}

/// So many cores, a capacity, and how many shards suit them.
const SUITING: [(usize, u64, usize); 10] = [
    (0, 1_000_000, 16),
    (1, 1_000_000, 16),
    (4, 1_000_000, 16),
    (5, 1_000_000, 32),
    (64, 1_000_000, 256),
    (4, 1_600, 16),
    (4, 1_599, 8),
    (4, 199, 1),
    (4, 0, 1),
    (usize::MAX, u64::MAX, 65_536),
];

#[test]
fn shards_suit_cores(rt: HostRuntime) {
    assert!(rt; SUITING.iter().all(|row| shards_for(row.0, row.1) == row.2));
}

/// How many shards are chosen for a capacity on this machine.
fn count_chosen<R: Threads>(rt: &R, alloc: Global, capacity: u64) -> Result<usize, BuildError> {
    match make_moments(alloc) {
        Some(moments) => {
            parts_of::<PlainShards>(ShardedCache::for_cores(rt, alloc, capacity, moments))
        }
        None => Err(BuildError::OutOfMemory),
    }
}

/// Whether a small cache has one shard, and a large one 16 or more.
fn are_shards_chosen<R: Threads>(rt: &R, alloc: Global) -> bool {
    count_chosen(rt, alloc, 150) == Ok(1) && matches!(count_chosen(rt, alloc, 1_000_000), Ok(16..))
}

#[test]
fn shards_are_chosen_by_cores(rt: HostRuntime) {
    assert!(rt; are_shards_chosen(&rt, rt.alloc()) || are_shards_chosen(&rt, rt.alloc()));
}
