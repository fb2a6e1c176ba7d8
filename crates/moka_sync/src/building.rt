//! Building a cache that threads share.
ghost use Rattle.std.specs.Prelude.{◌≡◌, ◌⊎◌, ℕ, List, Option, Some, None, IfErr, IfOk, OnOk, option_map};
ghost use Rattle.std.specs.Arc.{arc_value};
ghost use Rattle.std.specs.String.{string_bytes};
ghost use Rattle.engine_reference.specs.declared.rules.settings.Policy.{Policy};
ghost use Rattle.moka.specs.Building.{blank, fault_of, segments_fault};
ghost use Rattle.moka.specs.declared.errors.BuildError.{BuildError};
ghost use Rattle.moka.specs.declared.errors.BuildError.TheVariants.{OutOfMemory};
ghost use Rattle.moka_sync.specs.Showing.{ShowsPlan};
ghost use Rattle.moka_sync.specs.Spreading.{SpreadsBy};

use crate::cache::{Cache, SharedCache};
use engine_reference::{Bundle, Expiry, Predicate, Rules, Weigher};
use front_state::{Segmented, Single};
use moka::{BuildError, CacheBuilder, PlainBuilder, PlainRules, StdHasher};
use std::alloc::Global;
use std::hash::{BuildHasher, Hash};
use sync_desk::Env;

/// A cache of one segment with std's hasher (without a random seed), in which each value weighs one and none expires by itself, and which
/// takes no predicates.
pub type PlainCache<K, V, E> = Cache<K, V, StdHasher, PlainRules, E>;

/// The form of a cache whose calls all take one lock.
pub trait OneLock {}

impl OneLock for Single {}

impl OneLock for Segmented {}

/// Builds a cache that threads share, in an environment. The environment of a cache of shards makes one for each shard (`Fork`).
pub trait Build<K: Eq + Hash, V, E: Env>: Sized {
    /// The rules that the cache follows.
    type Rules: Rules<K, V>;

    /// The form of the cache: `Single` for a `Cache`, `Segmented` for a `SegmentedCache`, `Sharded` for a `ShardedCache`.
    type Form;

    // what is wrong with what is set, if anything
    ghost fault: { Self → Option BuildError };

    // the name and the settings that the cache shows
    ghost shown: { Self → Option (List ℕ) → Policy → Type 0 };

    /// Builds a cache that hashes keys with std's hasher (without a random seed), created at the moment that its environment gives. Returns
    /// the first cause of `BuildError` that applies. If untrusted clients choose the keys, use `build_with_hasher` with a hasher that they
    /// cannot predict.
    /// ```
    /// let cache: PlainCache<u64, u64, _> = CacheBuilder::new(10_000)
    ///     .time_to_live(Duration::from_secs(60))
    ///     .build(alloc, MachineEnv::new(rt)?)?;
    /// ```
    fn build(
        self,
        alloc: Global,
        env: E,
    ) -> Result<SharedCache<K, V, StdHasher, Self::Rules, E, Self::Form>, BuildError>
        ensures shows { IfOk result (λ cache. shown self
            (option_map string_bytes (arc_value cache.inner).name)
            (arc_value cache.inner).policy) }
        ensures sound { OnOk result (fault self ≡ None) }
        ensures cause { IfErr result
            (λ e. (fault self ≡ Some e) ⊎ ((e ≡ OutOfMemory) × (fault self ≡ None))) };

    /// Like `build`, with another hasher, and the same errors.
    /// ```
    /// let cache: Cache<String, u64, RandomState, PlainRules, _> =
    ///     CacheBuilder::new(10_000).build_with_hasher(alloc, RandomState::new(&rt), env)?;
    /// ```
    fn build_with_hasher<S: BuildHasher + Drop>(
        self,
        alloc: Global,
        hasher: S,
        env: E,
    ) -> Result<SharedCache<K, V, S, Self::Rules, E, Self::Form>, BuildError>
        ensures shows { IfOk result (λ cache. shown self
            (option_map string_bytes (arc_value cache.inner).name)
            (arc_value cache.inner).policy) }
        ensures hasher { IfOk result
            (λ cache. SpreadsBy hasher (arc_value cache.inner).spread) }
        ensures sound { OnOk result (fault self ≡ None) }
        ensures cause { IfErr result
            (λ e. (fault self ≡ Some e) ⊎ ((e ≡ OutOfMemory) × (fault self ≡ None))) };
}

/// Builds a cache whose calls all take one lock. Unless it is timed, none of its values may expire.
fn build_under_one_lock<
    K: Eq + Hash + Drop,
    V: Clone + Drop,
    X: Expiry<K, V> + Drop,
    W: Weigher<K, V> + Drop,
    P: Predicate<K, V>,
    F: Drop,
    C: OneLock + Drop,
    S: BuildHasher + Drop,
    E: Env + Drop,
>(
    builder: CacheBuilder<X, W, P, F, C>,
    alloc: Global,
    hasher: S,
    env: E,
    is_timed: bool,
) -> Result<SharedCache<K, V, S, Bundle<X, W, P, F>, E, C>, BuildError>
    ensures shows { IfOk result (λ cache. ShowsPlan builder.plan
        (option_map string_bytes (arc_value cache.inner).name) (arc_value cache.inner).policy) }
    ensures hasher { IfOk result (λ cache. SpreadsBy hasher (arc_value cache.inner).spread) }
    ensures sound { OnOk result (fault_of builder.plan ≡ None) }
    ensures cause { IfErr result (λ e. (fault_of builder.plan ≡ Some e)
        ⊎ ((e ≡ OutOfMemory) × (fault_of builder.plan ≡ None))) }
{
    let moment = env.now();
    match builder.build_state(alloc, hasher, moment) {
        Ok(state) => match SharedCache::over(alloc, state, env, is_timed) {
            Ok(cache) => Ok(cache),
            Err(_) => Err(BuildError::OutOfMemory),
        },
        Err(fault) => Err(fault),
    }
}

impl<
    K: Eq + Hash + Drop,
    V: Clone + Drop,
    X: Expiry<K, V> + Drop,
    W: Weigher<K, V> + Drop,
    P: Predicate<K, V>,
    F: Drop,
    C: OneLock + Drop,
    E: Env + Drop,
> Build<K, V, E> for CacheBuilder<X, W, P, F, C> {
    ghost use Rattle.moka.specs.Building.{fault_of};
    ghost use Rattle.moka_sync.specs.Showing.{ShowsPlan};

    type Rules = Bundle<X, W, P, F>;

    type Form = C;

    ghost fault = { λ builder. fault_of builder.plan };

    ghost shown = { λ builder name policy. ShowsPlan builder.plan name policy };

    fn build(
        self,
        alloc: Global,
        env: E,
    ) -> Result<SharedCache<K, V, StdHasher, Bundle<X, W, P, F>, E, C>, BuildError> {
        self.build_with_hasher(alloc, StdHasher::new(), env)
    }

    fn build_with_hasher<S: BuildHasher + Drop>(
        self,
        alloc: Global,
        hasher: S,
        env: E,
    ) -> Result<SharedCache<K, V, S, Bundle<X, W, P, F>, E, C>, BuildError> {
        build_under_one_lock(self, alloc, hasher, env, true)
    }
}

impl<K: Eq + Hash + Drop, V: Clone + Drop, E: Env + Drop> SharedCache<
    K,
    V,
    StdHasher,
    PlainRules,
    E,
    Single,
> {
    /// Creates a cache that holds at most this many entries, with nothing else set: it evicts by TinyLFU, its values never expire, and it
    /// reports no removals.
    /// The only possible error is `OutOfMemory`.
    pub fn new(alloc: Global, max_capacity: u64, env: E) -> Result<Self, BuildError>
        ensures shows { IfOk result (λ cache.
            ShowsPlan (record blank { max_capacity = Some max_capacity })
            (option_map string_bytes (arc_value cache.inner).name)
            (arc_value cache.inner).policy) }
        ensures cause { IfErr result (λ e. e ≡ OutOfMemory) }
    {
        let builder = CacheBuilder::new(max_capacity);
        build_under_one_lock(builder, alloc, StdHasher::new(), env, false)
    }

    /// Returns a builder with nothing set: no capacity, no times, TinyLFU, one segment.
    pub fn builder() -> PlainBuilder
        ensures { result.plan ≡ blank }
    {
        CacheBuilder::default()
    }
}

impl<K: Eq + Hash + Drop, V: Clone + Drop, E: Env + Drop> SharedCache<
    K,
    V,
    StdHasher,
    PlainRules,
    E,
    Segmented,
> {
    /// Creates a cache that holds at most this many entries in this many segments, rounded up to a power of two, with nothing else set. The
    /// number of segments is 1 to 65,536. Each segment holds at most the capacity divided by their number, rounded up, so together they may
    /// hold slightly more. Returns `NoSegments` for 0 segments, `TooManySegments` for more than 65,536, and `OutOfMemory` if there is not
    /// enough memory.
    pub fn new(
        alloc: Global,
        max_capacity: u64,
        segments: usize,
        env: E,
    ) -> Result<Self, BuildError>
        ensures shows { IfOk result (λ cache. ShowsPlan (record blank {
          max_capacity = Some max_capacity;
          segments = segments;
        }) (option_map string_bytes (arc_value cache.inner).name)
            (arc_value cache.inner).policy) }
        ensures sound { OnOk result (segments_fault segments ≡ None) }
        ensures cause { IfErr result (λ e. (segments_fault segments ≡ Some e)
            ⊎ ((e ≡ OutOfMemory) × (segments_fault segments ≡ None))) }
    {
        let builder = CacheBuilder::new(max_capacity).segments(segments);
        build_under_one_lock(builder, alloc, StdHasher::new(), env, false)
    }

    /// Returns a builder with this number of segments, 1 to 65,536, rounded up to a power of two, and nothing else set. `build` refuses 0
    /// (`NoSegments`) and greater numbers (`TooManySegments`).
    pub fn builder(segments: usize) -> PlainBuilder<Segmented>
        ensures { result.plan ≡ record blank { segments = segments } }
    {
        CacheBuilder::default().segments(segments)
    }
}
