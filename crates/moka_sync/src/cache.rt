//! The cache, and its calls that take the lock once.
ghost use Rattle.std.specs.Prelude.{◌≡◌, None, IfErr, IfOk, OnOk, option_map};
ghost use Rattle.std.specs.Arc.{arc_value};
ghost use Rattle.std.specs.String.{string_bytes};
ghost use Rattle.front_reference.specs.Wholes.{total_number, total_weight};
ghost use Rattle.front_reference.specs.declared.errors.CacheError.TheVariants as errors;
ghost use Rattle.front_state.specs.Reading.{ShowsPolicy};
ghost use Rattle.moka_sync.specs.Holding.{DidClear, DoneUnderEach, DoneUnderLock, DidGet, DidInsert, DidInvalidate, DidRemove, DidRun, DidSee};
ghost use Rattle.moka_sync.specs.Spreading.{desk_count, desk_number};
ghost use Rattle.moka_sync.specs.Telling.{SumsUnderEach};
ghost use Rattle.sync_desk.specs.Slots.Refusals.{IsShortage};

use crate::inner::Inner;
use engine_reference::{Hashes, Policy, Rules};
use front_parts::HasWays;
use front_reference::CacheError;
use front_state::{LentState, Segmented, Single};
use std::alloc::{AllocError, Global};
use std::hash::{BuildHasher, Hash};
use std::sync::{Arc, Wait};
use sync_desk::Env;

/// A cache of one segment that threads share. Its calls are those of `SharedCache`.
/// ```
/// let cache: PlainCache<u64, u64, MachineEnv<C>> = Cache::new(alloc, 10_000, MachineEnv::new(rt)?)?;
/// cache.insert(&rt, 7, 49)?;
/// let square = cache.get(&rt, &7)?;
/// ```
pub type Cache<K, V, S, R, E> = SharedCache<K, V, S, R, E, Single>;

/// A cache of several segments that threads share, each with its share of the capacity. Its calls are those of `SharedCache`. The cache is
/// created with its number of segments, `invalidate_entries_if` returns `()` instead of an identifier, and it has `get_or_insert_with` and
/// `get_or_try_insert_with` in addition.
/// ```
/// let cache: SegmentedCache<u64, u64, StdHasher, PlainRules, MachineEnv<C>> =
///     SegmentedCache::new(alloc, 10_000, 4, env)?;
/// ```
pub type SegmentedCache<K, V, S, R, E> = SharedCache<K, V, S, R, E, Segmented>;

/// A cache that threads share, in one of three forms: `Cache` and `SegmentedCache`, which have one lock, and `ShardedCache`, which has one
/// for each shard. A clone is another handle of the same cache. Unlike `moka`'s, most calls return a `Result`, since an allocation may
/// fail.
///
/// Each call takes a handle `rt`, by which it may wait for the lock, and takes the lock once. With shards, a call on a key takes the lock
/// of the key's shard, and one on the whole cache takes each lock once, one after another. A call that makes a value or computes takes it
/// several times, and its closures run in between, so they may use the same cache. Each call has a moment, the later of the environment's,
/// which is read before the lock is taken, and the last call's, and the next step. In a cache that `new` creates, where nothing expires,
/// only `run_pending_tasks` and each 64th call read one, and the others come at the last call's. Whenever the lock is taken, what it guards
/// keeps what a lent cache keeps between calls. If a call that takes the lock once is refused, it has changed nothing.
///
/// **Clones, comparisons and hashes of keys and values run under the lock, and so do the rules (`Expiry`, `Weigher`, `Predicate`) and the
/// environment's generator. None of them may call the cache, or it waits for itself forever.**
#[derive(Drop)]
pub struct SharedCache<K: Eq + Hash, V, S: BuildHasher, R: Rules<K, V>, E: Env, C = Single> {
    pub(crate) inner: Arc<Inner<K, V, S, R, E, C>>,
    pub(crate) alloc: Global,
}

/// Another handle of the same cache.
impl<
    K: Eq + Hash + Drop,
    V: Drop,
    S: BuildHasher + Drop,
    R: Rules<K, V> + Drop,
    E: Env + Drop,
    C: Drop,
> Clone for SharedCache<K, V, S, R, E, C> {
    ghost use Rattle.std.specs.Prelude.{◌≡◌};
    ghost use Rattle.std.specs.Arc.{arc_value};

    ghost is_clone = { λ old made. arc_value made.inner ≡ arc_value old.inner };

    fn clone(&self) -> Result<Self, AllocError> {
        Ok(SharedCache {
            inner: Arc::try_clone(&self.inner)?,
            alloc: self.alloc,
        })
    }
}

impl<
    K: Eq + Hash + Drop,
    V: Clone + Drop,
    S: BuildHasher + Drop,
    R: Rules<K, V> + Drop,
    E: Env + Drop,
    C: Drop,
> SharedCache<K, V, S, R, E, C> {
    /// Makes a lent cache shared.
    pub(crate) fn over(
        alloc: Global,
        state: LentState<K, V, S, R, C>,
        env: E,
        is_timed: bool,
    ) -> Result<Self, AllocError>
        ensures spread { IfOk result (λ cache. (arc_value cache.inner).spread ≡ None) }
        ensures name { IfOk result (λ cache.
            option_map string_bytes (arc_value cache.inner).name ≡ state.name) }
        ensures policy { IfOk result (λ cache. ShowsPolicy state (arc_value cache.inner).policy) }
    {
        let made = Inner::one(alloc, state, env, is_timed)?;
        let inner = Arc::new(alloc, made)?;
        Ok(SharedCache { inner, alloc })
    }

    /// Returns the name of the cache, or `None` if it has none.
    pub fn name(&self) -> Option<&str>
        ensures { option_map (λ text. text.now) result
            ≡ option_map string_bytes (arc_value self.now.inner).name }
    {
        match &self.inner.name {
            Some(name) => Some(name.as_str()),
            None => None,
        }
    }

    /// Returns the settings of the cache: the maximum capacity of all segments together, the number of segments (a power of two), and the
    /// times to live and to idle, each at most 2^64 - 2 nanoseconds.
    pub fn policy(&self) -> Policy
        ensures { result ≡ (arc_value self.now.inner).policy }
    {
        self.inner.policy
    }

    /// Returns the number of entries as of each segment's last maintenance run, at most 2^64 - 1. The number is exact after
    /// `run_pending_tasks`.
    pub fn entry_count(&self, rt: &impl Wait) -> u64
        ensures { SumsUnderEach {K = K} {V = V} {P = R.Predicate} {S = S} {R = R}
            (desk_count (arc_value self.now.inner).spread) total_number result }
    {
        let inner = &*self.inner;
        let mut sum = 0u64;
        for number in 0..inner.desks.len() {
            let guard = inner.get(number).lock_untimed(rt);
            let desk = &*guard;
            sum = sum.saturating_add(desk.entry_count());
        }
        sum
    }

    /// Returns the total weight of the entries as of each segment's last maintenance run, at most 2^64 - 1. The weight is exact after
    /// `run_pending_tasks`.
    pub fn weighted_size(&self, rt: &impl Wait) -> u64
        ensures { SumsUnderEach {K = K} {V = V} {P = R.Predicate} {S = S} {R = R}
            (desk_count (arc_value self.now.inner).spread) total_weight result }
    {
        let inner = &*self.inner;
        let mut sum = 0u64;
        for number in 0..inner.desks.len() {
            let guard = inner.get(number).lock_untimed(rt);
            let desk = &*guard;
            sum = sum.saturating_add(desk.weighted_size());
        }
        sum
    }

    /// Returns a clone of the value of a key, or `None` if none is visible. The call counts as a use of the value: it restarts the value's
    /// idle time, and makes its eviction less likely. Returns `OutOfMemory` if there is not enough memory for the clone, and `UsedUp` if
    /// 2^64 - 1 calls have been made. The clone must equal the value to contracts. The clone of a `String`, a `Vec` or an `Arc` does not:
    /// with such values the call runs under `rt try`, and `rt check` can never prove it. Keep a `Shared<String>`, a `Shared<Vec<X>>` or a
    /// `Shared<X>`.
    pub fn get(&self, rt: &impl Wait, key: &K) -> Result<Option<V>, CacheError>
        requires exact { (x y : V) → V.is_clone x y → y ≡ x }
        ensures did { DoneUnderLock (desk_number (⟦<S as Hashes<K>>⟧.hash)
            (arc_value self.now.inner).spread key.now)
            (DidGet ⟦<R as HasWays<K, V, S>>⟧.ways key.now result) }
        ensures cause { IfErr result IsShortage }
    {
        let mut guard = self.inner.lock_of(rt, key);
        let desk = &mut *guard;
        desk.get(key)
    }

    /// Returns whether a key has a visible value: one that is neither expired nor invalidated. The call does not count as a use, and never
    /// fails.
    pub fn contains_key(&self, rt: &impl Wait, key: &K) -> bool
        ensures { DoneUnderLock (desk_number (⟦<S as Hashes<K>>⟧.hash)
            (arc_value self.now.inner).spread key.now)
            (DidSee ⟦<R as HasWays<K, V, S>>⟧.ways key.now result) }
    {
        let mut guard = self.inner.lock_of(rt, key);
        let desk = &mut *guard;
        desk.contains_key(key)
    }

    /// Inserts a value, replacing the one that the key may have. The new value is visible at once, even above the capacity; maintenance
    /// decides which values stay. A cache of capacity 0 stores nothing and returns `Ok`. Returns `OutOfMemory` if there is not enough
    /// memory, and `UsedUp` if 2^64 - 1 calls have been made or the 64-bit numbers of writes are used up.
    pub fn insert(&self, rt: &impl Wait, key: K, value: V) -> Result<(), CacheError>
        ensures did { DoneUnderLock (desk_number (⟦<S as Hashes<K>>⟧.hash)
            (arc_value self.now.inner).spread key)
            (DidInsert ⟦<R as HasWays<K, V, S>>⟧.ways key value result) }
        ensures cause { IfErr result IsShortage }
    {
        let mut guard = self.inner.lock_of(rt, &key);
        let desk = &mut *guard;
        desk.insert(key, value)
    }

    /// Removes a key, and returns a clone of its value, even one that has expired or was invalidated and is still held; `None` if there is
    /// none. Returns `OutOfMemory` if there is not enough memory, and `UsedUp` if 2^64 - 1 calls have been made or the 64-bit numbers of
    /// writes are used up. Which values can be proved is said at `get`.
    pub fn remove(&self, rt: &impl Wait, key: &K) -> Result<Option<V>, CacheError>
        requires exact { (x y : V) → V.is_clone x y → y ≡ x }
        ensures did { DoneUnderLock (desk_number (⟦<S as Hashes<K>>⟧.hash)
            (arc_value self.now.inner).spread key.now)
            (DidRemove ⟦<R as HasWays<K, V, S>>⟧.ways key.now result) }
        ensures cause { IfErr result IsShortage }
    {
        let mut guard = self.inner.lock_of(rt, key);
        let desk = &mut *guard;
        desk.remove(key)
    }

    /// Removes a key like `remove`, with the same errors, without returning its value. Which values can be proved is said at `get`.
    pub fn invalidate(&self, rt: &impl Wait, key: &K) -> Result<(), CacheError>
        requires exact { (x y : V) → V.is_clone x y → y ≡ x }
        ensures did { DoneUnderLock (desk_number (⟦<S as Hashes<K>>⟧.hash)
            (arc_value self.now.inner).spread key.now)
            (DidInvalidate ⟦<R as HasWays<K, V, S>>⟧.ways key.now result) }
        ensures cause { IfErr result IsShortage }
    {
        let mut guard = self.inner.lock_of(rt, key);
        let desk = &mut *guard;
        desk.invalidate(key)
    }

    /// Invalidates all values that were written before. The values become invisible at once; maintenance removes them later. The call
    /// allocates nothing. Returns `UsedUp` if 2^64 - 1 calls have been made. With shards, a value that is written during the call may be
    /// covered or not, and the shards before the one that refused are cleared.
    pub fn invalidate_all(&self, rt: &impl Wait) -> Result<(), CacheError>
        ensures clears { OnOk result (DoneUnderEach
            (desk_count (arc_value self.now.inner).spread)
            (DidClear {K = K} {V = V} {P = R.Predicate} {S = S} {R = R})) }
        ensures cause { IfErr result (λ e. e ≡ errors.UsedUp) }
    {
        let inner = &*self.inner;
        for number in 0..inner.desks.len() {
            let mut guard = inner.get(number).lock(rt);
            let desk = &mut *guard;
            desk.invalidate_all()?;
        }
        Ok(())
    }

    /// Runs the maintenance of every segment to its end: it removes values that have expired or were invalidated, and evicts those above
    /// the capacity. After the runs the counts are exact. Returns `UsedUp` if 2^64 - 1 calls have been made. Other calls run maintenance
    /// when it is due: at 64 reads or writes of a segment, or 300 milliseconds after its last run. (No run is cut short, as one of `moka`
    /// may be.)
    pub fn run_pending_tasks(&self, rt: &impl Wait) -> Result<(), CacheError>
        ensures runs { OnOk result (DoneUnderEach
            (desk_count (arc_value self.now.inner).spread) (DidRun {S = S} R.answers)) }
        ensures cause { IfErr result (λ e. e ≡ errors.UsedUp) }
    {
        let inner = &*self.inner;
        for number in 0..inner.desks.len() {
            let mut guard = inner.get(number).lock_now(rt);
            let desk = &mut *guard;
            desk.run_pending_tasks()?;
        }
        Ok(())
    }
}
