//! The cache of several shards: how it is built, and its calls that take the locks of all.
ghost use Rattle.std.specs.Prelude.{◌≡◌, ◌⊎◌, ◌<◌, ◌≤◌, ◌^◌, ℕ, None, Some, true, IfErr, IfOk, OnOk, length, option_map};
ghost use Rattle.std.specs.Arc.{arc_value};
ghost use Rattle.std.specs.String.{string_bytes};
ghost use Rattle.moka.specs.Building.{blank, fault_of, segments_fault};
ghost use Rattle.moka.specs.declared.errors.BuildError.TheVariants.{OutOfMemory};
ghost use Rattle.moka_sync.specs.Covering.{CoversShards};
ghost use Rattle.moka_sync.specs.Holding.{BearTheirPlaces, DoneUnderAll};
ghost use Rattle.moka_sync.specs.Showing.{ShowsPlan, ShowsShard, ShowsShards};
ghost use Rattle.moka_sync.specs.Sizing.{IsShardCount};
ghost use Rattle.moka_sync.specs.Spreading.{SpreadsBy, desk_count, desk_number};
ghost use Rattle.sync_desk.specs.Slots.Refusals.{IsCoverRefusal};

use crate::building::Build;
use crate::cache::SharedCache;
use crate::covering::AllDesks;
use crate::inner::Inner;
use crate::sizing::shards_for;
use crate::spreading::Spread;
use engine_reference::{Bundle, Expiry, Hashes, Policy, Predicate, Rules, Weigher};
use front_reference::{CacheError, Shared};
use front_state::{LentState, Sharded};
use moka::{BuildError, CacheBuilder, PlainBuilder, PlainRules, Shards, StdHasher};
use std::alloc::{AllocError, Global};
use std::hash::{BuildHasher, Hash};
use std::sync::{Arc, Wait};
use std::thread::{Threads, available_parallelism};
use sync_desk::{Env, Fork};

/// A cache of several shards that threads share, each a cache of one segment with its share of the capacity, under a lock of its own. Its
/// calls are those of `SharedCache`. A call on a key holds the lock of the key's shard, and only that. A call on the whole cache goes from
/// one shard to the next; a call with a predicate holds all locks at once, and returns `()`.
/// ```
/// let cache: ShardedCache<u64, u64, StdHasher, PlainRules, MachineEnv<C, G>> =
///     ShardedCache::new(alloc, 10_000, 16, env)?;
/// ```
pub type ShardedCache<K, V, S, R, E> = SharedCache<K, V, S, R, E, Sharded>;

/// What so many shards show together, which are like this one and have this capacity.
fn policy_of<K: Eq + Hash, V, S: BuildHasher, R: Rules<K, V>>(
    one: &LentState<K, V, S, R, Sharded>,
    shards: usize,
    capacity: Option<u64>,
) -> Policy
    ensures { ShowsShard capacity shards one.now result }
{
    let policy = one.policy();
    Policy::new(
        capacity,
        shards,
        policy.time_to_live(),
        policy.time_to_idle(),
    )
}

impl<
    K: Eq + Hash + Drop,
    V: Clone + Drop,
    S: BuildHasher + Drop,
    R: Rules<K, V> + Drop,
    E: Fork + Drop,
> SharedCache<K, V, S, R, E, Sharded> {
    /// Makes shards shared, each with an environment of its own.
    fn over_shards(
        alloc: Global,
        shards: Shards<K, V, S, R>,
        env: E,
        is_timed: bool,
    ) -> Result<Self, AllocError>
        requires few { shards.bits ≤ 16 }
        requires counted { length shards.states.items ≡ 2 ^ shards.bits }
        ensures name { IfOk result (λ cache. (arc_value cache.inner).name ≡ shards.name) }
        ensures policy { IfOk result (λ cache.
            ShowsShards shards.capacity shards.states.items (arc_value cache.inner).policy) }
        ensures hasher { IfOk result
            (λ cache. SpreadsBy shards.hasher (arc_value cache.inner).spread) }
    {
        let Shards {
            states,
            bits,
            hasher,
            name,
            capacity,
        } = shards;
        let policy = policy_of(&states[0], states.len(), capacity);
        let spread = Spread { bits, hasher };
        let made = Inner::of_shards(alloc, states, spread, env, is_timed, name, policy)?;
        let inner = Arc::new(alloc, made)?;
        Ok(SharedCache { inner, alloc })
    }
}

/// Builds a cache of several shards. Unless it is timed, none of its values may expire.
fn build_in_shards<
    K: Eq + Hash + Drop,
    V: Clone + Drop,
    X: Expiry<K, V> + Drop,
    W: Weigher<K, V> + Drop,
    P: Predicate<K, V>,
    F: Drop,
    S: BuildHasher + Drop,
    E: Fork + Drop,
>(
    builder: CacheBuilder<X, W, P, F, Sharded>,
    alloc: Global,
    hasher: S,
    env: E,
    is_timed: bool,
) -> Result<SharedCache<K, V, S, Bundle<X, W, P, F>, E, Sharded>, BuildError>
    ensures shows { IfOk result (λ cache. ShowsPlan builder.plan
        (option_map string_bytes (arc_value cache.inner).name) (arc_value cache.inner).policy) }
    ensures hasher { IfOk result (λ cache. SpreadsBy hasher (arc_value cache.inner).spread) }
    ensures sound { OnOk result (fault_of builder.plan ≡ None) }
    ensures cause { IfErr result (λ e. (fault_of builder.plan ≡ Some e)
        ⊎ ((e ≡ OutOfMemory) × (fault_of builder.plan ≡ None))) }
{
    let moment = env.now();
    match builder.build_shards(alloc, hasher, moment) {
        Ok(shards) => match SharedCache::over_shards(alloc, shards, env, is_timed) {
            Ok(cache) => Ok(cache),
            Err(_) => Err(BuildError::OutOfMemory),
        },
        Err(fault) => Err(fault),
    }
}

impl<
    K: Eq + Hash + Drop,
    V: Clone + Drop,
    X: Expiry<K, V> + Drop,
    W: Weigher<K, V> + Drop,
    P: Predicate<K, V>,
    F: Drop,
    E: Fork + Drop,
> Build<K, V, E> for CacheBuilder<X, W, P, F, Sharded> {
    ghost use Rattle.moka.specs.Building.{fault_of};
    ghost use Rattle.moka_sync.specs.Showing.{ShowsPlan};

    type Rules = Bundle<X, W, P, F>;

    type Form = Sharded;

    ghost fault = { λ builder. fault_of builder.plan };

    ghost shown = { λ builder name policy. ShowsPlan builder.plan name policy };

    fn build(
        self,
        alloc: Global,
        env: E,
    ) -> Result<SharedCache<K, V, StdHasher, Bundle<X, W, P, F>, E, Sharded>, BuildError> {
        self.build_with_hasher(alloc, StdHasher::new(), env)
    }

    fn build_with_hasher<S: BuildHasher + Drop>(
        self,
        alloc: Global,
        hasher: S,
        env: E,
    ) -> Result<SharedCache<K, V, S, Bundle<X, W, P, F>, E, Sharded>, BuildError> {
        build_in_shards(self, alloc, hasher, env, true)
    }
}

/// The number of cores that this process may use; 1 if that is not known.
fn count_cores(rt: &impl Threads) -> usize {
    match available_parallelism(rt) {
        Ok(cores) => cores.get(),
        Err(_) => 1,
    }
}

impl<K: Eq + Hash + Drop, V: Clone + Drop, E: Fork + Drop> SharedCache<
    K,
    V,
    StdHasher,
    PlainRules,
    E,
    Sharded,
> {
    /// Creates a cache that holds at most this many entries in this many shards, rounded up to a power of two, with nothing else set. The
    /// number of shards is 1 to 65,536. Each shard holds at most the capacity divided by their number, rounded up, so together they may
    /// hold slightly more. Returns `NoSegments` for 0 shards, `TooManySegments` for more than 65,536, and `OutOfMemory` if there is not
    /// enough memory.
    pub fn new(alloc: Global, max_capacity: u64, shards: usize, env: E) -> Result<Self, BuildError>
        ensures shows { IfOk result (λ cache. ShowsPlan (record blank {
          max_capacity = Some max_capacity;
          segments = shards;
        }) (option_map string_bytes (arc_value cache.inner).name)
            (arc_value cache.inner).policy) }
        ensures sound { OnOk result (segments_fault shards ≡ None) }
        ensures cause { IfErr result (λ e. (segments_fault shards ≡ Some e)
            ⊎ ((e ≡ OutOfMemory) × (segments_fault shards ≡ None))) }
    {
        let builder = CacheBuilder::new(max_capacity).shards(shards);
        build_in_shards(builder, alloc, StdHasher::new(), env, false)
    }

    /// Creates a cache that holds at most this many entries, with nothing else set, in as many shards as suit the cores that this process
    /// may use (`shards_for`).
    /// The only possible error is `OutOfMemory`.
    /// ```
    /// let cache: ShardedCache<u64, u64, StdHasher, PlainRules, _> =
    ///     ShardedCache::for_cores(&rt, alloc, 1_000_000, MachineEnv::new(rt)?)?;
    /// ```
    pub fn for_cores(
        rt: &impl Threads,
        alloc: Global,
        max_capacity: u64,
        env: E,
    ) -> Result<Self, BuildError>
        ensures shows { IfOk result (λ cache. (cores shards : ℕ)
            × IsShardCount cores max_capacity shards × ShowsPlan (record blank {
              max_capacity = Some max_capacity;
              segments = shards;
            }) (option_map string_bytes (arc_value cache.inner).name)
            (arc_value cache.inner).policy) }
        ensures cause { IfErr result (λ e. e ≡ OutOfMemory) }
    {
        let shards = shards_for(count_cores(rt), max_capacity);
        ShardedCache::new(alloc, max_capacity, shards, env)
    }

    /// Returns a builder with this number of shards, 1 to 65,536, rounded up to a power of two, and nothing else set. `build` refuses 0
    /// (`NoSegments`) and greater numbers (`TooManySegments`).
    pub fn builder(shards: usize) -> PlainBuilder<Sharded>
        ensures { result.plan ≡ record blank { segments = shards } }
    {
        CacheBuilder::default().shards(shards)
    }
}

impl<
    K: Eq + Hash + Drop,
    V: Clone + Drop,
    S: BuildHasher + Drop,
    R: Rules<K, V> + Drop,
    E: Env + Drop,
> SharedCache<K, V, S, R, E, Sharded> {
    /// Returns the number of the shard that a key belongs to, whose lock each call on the key takes. Equal keys belong to one shard.
    /// ```
    /// let shard = cache.shard(&7);
    /// ```
    pub fn shard(&self, key: &K) -> usize
        ensures number { result ≡ desk_number (⟦<S as Hashes<K>>⟧.hash)
            (arc_value self.now.inner).spread key.now }
        ensures alike { (other : K) → K.eq key.now other ≡ true
            → desk_number (⟦<S as Hashes<K>>⟧.hash) (arc_value self.now.inner).spread other
            ≡ result }
    {
        self.inner.number_of(key)
    }

    /// Reads the moment, and then takes the locks of all shards, in their order. No other call takes a lock while it has one, so no two
    /// callers wait for each other.
    fn lock_all<'a, H: Wait>(
        &'a self,
        rt: &H,
    ) -> Result<AllDesks<'a, K, V, S, R, E::Generator>, AllocError>
        ensures many { IfOk result
            (λ all. length all ≡ desk_count (arc_value self.now.inner).spread) }
        ensures numbered { IfOk result (λ all. BearTheirPlaces all (λ d. d.number)) }
    {
        let inner: &'a Inner<K, V, S, R, E, Sharded> = &*self.inner;
        let count = inner.desks.len();
        let moment = inner.first().moment();
        let mut guards = Vec::with_capacity(self.alloc, count)?;
        for number in 0..count {
            guards.push(inner.get(number).lock_at(rt, moment))?;
        }
        Ok(AllDesks::new(guards))
    }

    /// Invalidates the values that were written before and for which the predicate returns true, in all shards or, if the call is refused,
    /// in none. The call holds the locks of all shards. Returns `InvalidationClosuresDisabled` if the builder did not call
    /// `support_invalidation_closures`, `IdsInUse` if each of a thousand identifiers that were drawn for a shard is already registered
    /// there, `OutOfMemory` if there is not enough memory, and `UsedUp` if the cache's 64-bit numbers are used up.
    /// ```
    /// cache.invalidate_entries_if(&rt, KeyPrefix(prefix))?;
    /// ```
    pub fn invalidate_entries_if(
        &self,
        rt: &impl Wait,
        predicate: R::Predicate,
    ) -> Result<(), CacheError>
        ensures did { OnOk result (DoneUnderAll
            (desk_count (arc_value self.now.inner).spread)
            (CoversShards {K = K} {V = V} {S = S} {R = R} predicate)) }
        ensures cause { IfErr result IsCoverRefusal }
    {
        let alloc = self.alloc;
        let mut all = self.lock_all(rt)?;
        all.invalidate_entries_if(alloc, predicate)
    }
}
