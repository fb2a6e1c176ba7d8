//! The caches of which a sharded one consists.
ghost use Rattle.std.specs.Prelude.{◌≡◌, ◌⊎◌, ◌<◌, ◌≤◌, Some, None, IfOk, IfErr, OnOk, length};
ghost use Rattle.front_state.specs.Making.{IsMadeWith, with_share};
ghost use Rattle.moka.specs.Building.{fault_of};
ghost use Rattle.moka.specs.Sharding.{AreMadeWith, AreShards};
ghost use Rattle.moka.specs.declared.errors.BuildError.TheVariants.{OutOfMemory};

use crate::builder::{CacheBuilder, fault_of, settings_of};
use crate::errors::BuildError;
use crate::settling::bits_for;
use engine_reference::{Bundle, Expiry, Predicate, Rules, Settings, Weigher};
use front_parts::for_part;
use front_reference::Shared;
use front_state::{LentState, Sharded};
use policy_base::Instant;
use std::alloc::{AllocError, Global};
use std::hash::{BuildHasher, Hash};
use std::marker::PhantomData;

/// Caches of one segment, a power of two of them, which share a hasher and rules. A key belongs to the cache whose number is the upper
/// `bits` bits of the key's hash.
#[derive(Drop)]
pub struct Shards<K: Eq + Hash, V, S: BuildHasher, R: Rules<K, V>> {
    /// The caches, each with its share of the capacity.
    pub states: Vec<LentState<K, V, S, R, Sharded>>,
    /// How many bits of a hash are the number of a shard, at most 16.
    pub bits: u32,
    /// The hasher of all caches.
    pub hasher: Shared<S>,
    /// The name of all caches together, or `None` if they have none.
    pub name: Option<String>,
    /// The maximum weight of all caches together, or `None` without a limit.
    pub capacity: Option<u64>,
}

/// One shard.
fn new_shard<K: Eq + Hash + Drop, V: Drop, S: BuildHasher + Drop, R: Rules<K, V> + Drop>(
    alloc: Global,
    initial_capacity: usize,
    settings: Settings,
    hasher: &Shared<S>,
    rules: &Shared<R>,
) -> Result<LentState<K, V, S, R, Sharded>, AllocError>
    requires in_range { settings.made ≤ 18446744073709551614 }
    ensures { IfOk result (IsMadeWith None 0 settings hasher.now rules.now) }
{
    let hasher = hasher.clone()?;
    let rules = rules.clone()?;
    LentState::with_shared(alloc, None, 0, initial_capacity, settings, hasher, rules)
}

/// This many shards.
fn new_shards<K: Eq + Hash + Drop, V: Drop, S: BuildHasher + Drop, R: Rules<K, V> + Drop>(
    alloc: Global,
    count: usize,
    initial_capacity: usize,
    settings: Settings,
    hasher: &Shared<S>,
    rules: &Shared<R>,
) -> Result<Vec<LentState<K, V, S, R, Sharded>>, AllocError>
    requires in_range { settings.made ≤ 18446744073709551614 }
    ensures count { IfOk result (λ shards. length shards.items ≡ count) }
    ensures made { IfOk result
        (λ shards. AreMadeWith settings hasher.now rules.now shards.items) }
{
    let mut shards = Vec::with_capacity(alloc, count)?;
    for _ in 0..count {
        let shard = new_shard(alloc, initial_capacity, settings, hasher, rules)?;
        shards.push(shard)?;
    }
    Ok(shards)
}

impl<X, W, P, F> CacheBuilder<X, W, P, F> {
    /// Sets the number of shards, each a cache of one segment with its share of the capacity: 1 to 65,536, rounded up to a power of two. A
    /// shard's share is the capacity divided by the number of shards, rounded up, so together they may hold slightly more. `build` refuses
    /// another number.
    /// ```
    /// let cache: ShardedCache<u64, u64, StdHasher, PlainRules, _> = CacheBuilder::new(1000).shards(16).build(alloc, env)?;
    /// ```
    pub fn shards(self, shards: usize) -> CacheBuilder<X, W, P, F, Sharded>
        ensures plan { result.plan ≡ record self.plan { segments = shards } }
        ensures expiry { result.expiry ≡ self.expiry }
        ensures weigher { result.weigher ≡ self.weigher }
    {
        let mut plan = self.plan;
        plan.segments = shards;
        CacheBuilder {
            plan,
            expiry: self.expiry,
            weigher: self.weigher,
            parts: PhantomData,
        }
    }
}

impl<X, W, P, F> CacheBuilder<X, W, P, F, Sharded> {
    /// Creates the shards at this moment, with this hasher. If untrusted clients choose the keys, use a hasher that they cannot predict.
    /// Checks the settings, in the order of `BuildError`. Returns the first error that applies.
    /// ```
    /// let shards: Shards<u64, u64, StdHasher, PlainRules> =
    ///     CacheBuilder::new(1000).shards(16).build_shards(alloc, StdHasher::new(), moment)?;
    /// ```
    pub fn build_shards<K: Eq + Hash + Drop, V: Drop, S: BuildHasher + Drop>(
        self,
        alloc: Global,
        hasher: S,
        moment: Instant,
    ) -> Result<Shards<K, V, S, Bundle<X, W, P, F>>, BuildError>
    where
        X: Expiry<K, V> + Drop,
        W: Weigher<K, V> + Drop,
        P: Predicate<K, V>,
        F: Drop,
        ensures built { IfOk result (λ shards. AreShards self.plan self.expiry self.weigher hasher
            moment shards.bits shards.states.items) }
        ensures few { IfOk result (λ shards. shards.bits ≤ 16) }
        ensures hasher { IfOk result (λ shards. shards.hasher ≡ hasher) }
        ensures name { IfOk result (λ shards. shards.name ≡ self.plan.name) }
        ensures capacity { IfOk result (λ shards. shards.capacity ≡ self.plan.max_capacity) }
        ensures sound { OnOk result (fault_of self.plan ≡ None) }
        ensures cause { IfErr result (λ e. (fault_of self.plan ≡ Some e)
            ⊎ ((e ≡ OutOfMemory) × (fault_of self.plan ≡ None))) }
    {
        let CacheBuilder {
            plan,
            expiry,
            weigher,
            parts: _,
        } = self;
        if let Some(fault) = fault_of(&plan) {
            return Err(fault);
        }
        let bits = bits_for(plan.segments);
        let count = 2_usize.pow(bits);
        let share = for_part(count as u64, settings_of(&plan, moment));
        let room = plan.initial_capacity.div_ceil(count);
        let hasher = Shared::new(alloc, hasher)?;
        let rules = Shared::new(alloc, Bundle::new(expiry, weigher))?;
        let states = new_shards(alloc, count, room, share, &hasher, &rules)?;
        Ok(Shards {
            states,
            bits,
            hasher,
            name: plan.name,
            capacity: plan.max_capacity,
        })
    }
}
