//! The builder.
ghost use Rattle.std.specs.Prelude.{◌≡◌, ◌⊎◌, Some, None, true, false, IfOk, IfErr, OnOk};
ghost use Rattle.moka.specs.Building.{IsBuilt, blank, fault_of, settings_of};
ghost use Rattle.moka.specs.declared.errors.BuildError.TheVariants.{OutOfMemory};

use crate::errors::BuildError;
use crate::settling::{as_limit, bits_for, segments_fault, time_fault};
use engine_reference::{
    Bundle, EvictionPolicy, ExpirationPolicy, Expiry, NoExpiry, NoPredicate, Predicate, Settings,
    WeighOne, Weigher,
};
use front_state::{LentState, Segmented, Single};
use policy_base::Instant;
use std::alloc::Global;
use std::hash::{BuildHasher, Hash};
use std::marker::PhantomData;
use std::time::Duration;

mod sharding;

pub use sharding::Shards;

/// The settings of a cache other than its rules.
#[derive(Drop)]
pub struct Plan {
    name: Option<String>,
    max_capacity: Option<u64>,
    initial_capacity: usize,
    segments: usize,
    policy: EvictionPolicy,
    expiration: ExpirationPolicy,
    tells: bool,
    takes_predicates: bool,
}

/// Collects the settings of a cache and creates it. By default nothing is set: no capacity, no times, TinyLFU, one segment, each value
/// weighs one and does not expire by itself, removals are not reported, and no predicates are accepted. The last parameter is the form of
/// the cache that is built: `Single`, a cache of one segment, or, after `segments`, `Segmented`, or, after `shards`, `Sharded`. What `moka`
/// panics at is an error of the call that builds.
#[derive(Drop)]
pub struct CacheBuilder<X, W, P, F, C = Single> {
    plan: Plan,
    expiry: X,
    weigher: W,
    parts: PhantomData<(P, F, C)>,
}

impl CacheBuilder<NoExpiry, WeighOne, NoPredicate, ()> {
    /// Returns a builder of a cache that holds at most this weight.
    /// ```
    /// let cache: CacheState<u64, u64> = CacheBuilder::new(1000).build_state(alloc, hasher, moment)?;
    /// ```
    pub fn new(max_capacity: u64) -> Self
        ensures { result.plan ≡ record blank { max_capacity = Some max_capacity } }
    {
        CacheBuilder::default().max_capacity(max_capacity)
    }
}

impl Default for CacheBuilder<NoExpiry, WeighOne, NoPredicate, ()> {
    ghost use Rattle.std.specs.Prelude.{◌≡◌};
    ghost use Rattle.moka.specs.Building.{blank};

    ghost is_default = { λ b. b.plan ≡ blank };

    fn default() -> Self {
        CacheBuilder {
            plan: Plan {
                name: None,
                max_capacity: None,
                initial_capacity: 0,
                segments: 1,
                policy: EvictionPolicy::default(),
                expiration: ExpirationPolicy::default(),
                tells: false,
                takes_predicates: false,
            },
            expiry: NoExpiry,
            weigher: WeighOne,
            parts: PhantomData,
        }
    }
}

impl<X, W, P, F> CacheBuilder<X, W, P, F> {
    /// Sets the number of segments, each of which has its share of the capacity: 1 to 65,536, rounded up to a power of two. A segment's
    /// share is the capacity divided by the number of segments, rounded up, so together they may hold slightly more. `build` refuses 0
    /// (`NoSegments`) and greater numbers (`TooManySegments`).
    /// ```
    /// let cache: SegmentedState<u64, u64> = CacheBuilder::new(1000).segments(4).build_state(alloc, hasher, moment)?;
    /// ```
    pub fn segments(self, segments: usize) -> CacheBuilder<X, W, P, F, Segmented>
        ensures plan { result.plan ≡ record self.plan { segments = segments } }
        ensures expiry { result.expiry ≡ self.expiry }
        ensures weigher { result.weigher ≡ self.weigher }
    {
        let mut plan = self.plan;
        plan.segments = segments;
        CacheBuilder {
            plan,
            expiry: self.expiry,
            weigher: self.weigher,
            parts: PhantomData,
        }
    }
}

impl<X, W, P, F, C> CacheBuilder<X, W, P, F, C> {
    /// Sets the name of the cache.
    /// ```
    /// let builder = CacheBuilder::new(1000).name(name);
    /// ```
    pub fn name(mut self, name: String) -> Self
        ensures { result ≡ record self { plan = record self.plan { name = Some name } } }
    {
        self.plan.name = Some(name);
        self
    }

    /// Sets the maximum weight of the cache, of all segments together.
    /// With capacity 0 no value is stored.
    /// ```
    /// let builder = CacheBuilder::default().max_capacity(1000);
    /// ```
    pub fn max_capacity(mut self, max_capacity: u64) -> Self
        ensures { result
            ≡ record self { plan = record self.plan { max_capacity = Some max_capacity } } }
    {
        self.plan.max_capacity = Some(max_capacity);
        self
    }

    /// Sets for how many entries of all segments together there is room from the start. By default there is room for none.
    /// ```
    /// let builder = CacheBuilder::new(1000).initial_capacity(100);
    /// ```
    pub fn initial_capacity(mut self, number_of_entries: usize) -> Self
        ensures { result
            ≡ record self { plan = record self.plan { initial_capacity = number_of_entries } } }
    {
        self.plan.initial_capacity = number_of_entries;
        self
    }

    /// Sets which entries the cache evicts if it is too heavy. The default is TinyLFU.
    /// TinyLFU keeps values that are requested often, and admits a new one only if it is requested more often than those that would be
    /// evicted for it. LRU evicts the least recently used values.
    /// ```
    /// let builder = CacheBuilder::new(1000).eviction_policy(EvictionPolicy::lru());
    /// ```
    pub fn eviction_policy(mut self, policy: EvictionPolicy) -> Self
        ensures { result ≡ record self { plan = record self.plan { policy = policy } } }
    {
        self.plan.policy = policy;
        self
    }

    /// Makes the cache report removals, as notices.
    /// `next_notice` takes them. If nobody does, they accumulate, one for each removal.
    /// ```
    /// let builder = CacheBuilder::new(1000).report_removals();
    /// ```
    pub fn report_removals(mut self) -> Self
        ensures { result ≡ record self { plan = record self.plan { tells = true } } }
    {
        self.plan.tells = true;
        self
    }

    /// Makes the cache report removals: the older name of `report_removals`. The call takes no listener; `next_notice` takes what is
    /// reported.
    pub fn eviction_listener(self) -> Self
        ensures { result ≡ record self { plan = record self.plan { tells = true } } }
    {
        self.report_removals()
    }

    /// Sets how long a value lives after it was written: at most 1000 years of 365 days. `build` refuses a longer time
    /// (`TimeToLiveTooLong`).
    /// ```
    /// let builder = CacheBuilder::new(1000).time_to_live(Duration::from_secs(60));
    /// ```
    pub fn time_to_live(mut self, duration: Duration) -> Self
        ensures { result ≡ record self {
          plan = record self.plan
              { expiration = record self.plan.expiration { time_to_live = Some duration } };
        } }
    {
        self.plan.expiration.set_time_to_live(duration);
        self
    }

    /// Sets how long a value lives after its last use: at most 1000 years of 365 days. A use is a write or a `get`; `contains_key`, `peek`
    /// and the iterator are not. `build` refuses a longer time (`TimeToIdleTooLong`).
    /// ```
    /// let builder = CacheBuilder::new(1000).time_to_idle(Duration::from_secs(60));
    /// ```
    pub fn time_to_idle(mut self, duration: Duration) -> Self
        ensures { result ≡ record self {
          plan = record self.plan
              { expiration = record self.plan.expiration { time_to_idle = Some duration } };
        } }
    {
        self.plan.expiration.set_time_to_idle(duration);
        self
    }

    /// Sets how long each value lives by itself.
    /// A value ends at the earliest of its own time, the time to live and the time to idle. Its own time is rounded down to a multiple of
    /// 4096 ns.
    /// ```
    /// let builder = CacheBuilder::new(1000).expire_after(OwnTime);
    /// ```
    pub fn expire_after<Y>(self, expiry: Y) -> CacheBuilder<Y, W, P, F, C>
    where
        X: Drop,
        ensures plan { result.plan ≡ self.plan }
        ensures expiry { result.expiry ≡ expiry }
        ensures weigher { result.weigher ≡ self.weigher }
    {
        CacheBuilder {
            plan: self.plan,
            expiry,
            weigher: self.weigher,
            parts: PhantomData,
        }
    }

    /// Sets what each value weighs.
    /// Weights limit how much the cache holds; they do not influence which values are evicted.
    /// ```
    /// let builder = CacheBuilder::new(1_000_000).weigher(ByLength);
    /// ```
    pub fn weigher<U>(self, weigher: U) -> CacheBuilder<X, U, P, F, C>
    where
        W: Drop,
        ensures plan { result.plan ≡ self.plan }
        ensures expiry { result.expiry ≡ self.expiry }
        ensures weigher { result.weigher ≡ weigher }
    {
        CacheBuilder {
            plan: self.plan,
            expiry: self.expiry,
            weigher,
            parts: PhantomData,
        }
    }

    /// Makes the cache accept predicates of a type, which invalidate the values that they match.
    /// ```
    /// let builder = CacheBuilder::new(1000).support_invalidation_closures::<OlderThan>();
    /// ```
    pub fn support_invalidation_closures<Q>(self) -> CacheBuilder<X, W, Q, F, C>
        ensures plan { result.plan ≡ record self.plan { takes_predicates = true } }
        ensures expiry { result.expiry ≡ self.expiry }
        ensures weigher { result.weigher ≡ self.weigher }
    {
        let mut plan = self.plan;
        plan.takes_predicates = true;
        CacheBuilder {
            plan,
            expiry: self.expiry,
            weigher: self.weigher,
            parts: PhantomData,
        }
    }

    /// Sets the type of the error with which making a value may fail.
    /// ```
    /// let builder = CacheBuilder::new(1000).faults::<ReadError>();
    /// ```
    pub fn faults<G>(self) -> CacheBuilder<X, W, P, G, C>
        ensures plan { result.plan ≡ self.plan }
        ensures expiry { result.expiry ≡ self.expiry }
        ensures weigher { result.weigher ≡ self.weigher }
    {
        CacheBuilder {
            plan: self.plan,
            expiry: self.expiry,
            weigher: self.weigher,
            parts: PhantomData,
        }
    }

    /// Creates a cache that its owner lends, at this moment, with this hasher. If untrusted clients choose the keys, use a hasher that they
    /// cannot predict. Checks the settings in the order of `BuildError`, and returns the first error that applies.
    /// ```
    /// let cache: CacheState<u64, u64> = CacheBuilder::new(1000)
    ///     .time_to_live(Duration::from_secs(60))
    ///     .build_state(alloc, StdHasher::new(), moment)?;
    /// ```
    pub fn build_state<K: Eq + Hash + Drop, V: Drop, S: BuildHasher + Drop>(
        self,
        alloc: Global,
        hasher: S,
        moment: Instant,
    ) -> Result<LentState<K, V, S, Bundle<X, W, P, F>, C>, BuildError>
    where
        X: Expiry<K, V> + Drop,
        W: Weigher<K, V> + Drop,
        P: Predicate<K, V>,
        F: Drop,
        ensures built { IfOk result (IsBuilt self.plan self.expiry self.weigher hasher moment) }
        ensures sound { OnOk result (fault_of self.plan ≡ None) }
        ensures cause { IfErr result (λ e. (fault_of self.plan ≡ Some e)
            ⊎ ((e ≡ OutOfMemory) × (fault_of self.plan ≡ None))) }
    {
        let CacheBuilder {
            plan,
            expiry,
            weigher,
            parts: _,
        } = self;
        if let Some(fault) = fault_of(&plan) {
            return Err(fault);
        }
        let bits = bits_for(plan.segments);
        let settings = settings_of(&plan, moment);
        let rules = Bundle::new(expiry, weigher);
        let state = LentState::with_parts(
            alloc,
            plan.name,
            bits,
            plan.initial_capacity,
            settings,
            hasher,
            rules,
        )?;
        Ok(state)
    }
}

/// The first thing that is wrong with the settings, if any.
fn fault_of(plan: &Plan) -> Option<BuildError>
    ensures { result ≡ fault_of plan.now }
{
    let times = time_fault(
        plan.expiration.time_to_live(),
        plan.expiration.time_to_idle(),
    );
    match times {
        Some(fault) => Some(fault),
        None => segments_fault(plan.segments),
    }
}

/// The settings of all segments together.
fn settings_of(plan: &Plan, moment: Instant) -> Settings
    ensures { result ≡ settings_of plan.now moment }
{
    Settings {
        capacity: plan.max_capacity,
        live: as_limit(plan.expiration.time_to_live()),
        idle: as_limit(plan.expiration.time_to_idle()),
        policy: plan.policy,
        tells: plan.tells,
        takes_predicates: plan.takes_predicates,
        made: moment.as_nanos(),
    }
}
