//! What the handles of a cache share: desks, each under a lock of its own, and the properties of the cache that never change.
ghost use Rattle.std.specs.Prelude.{◌≡◌, ◌+◌, ◌<◌, ◌≤◌, ◌^◌, None, Some, true, length, suc, IfErr, IfOk, OnOk, option_map, slice_get, vec_len};
ghost use Rattle.std.specs.String.{string_bytes};
ghost use Rattle.std.specs.Sync.Mutex.{mutex_guard_value};
ghost use Rattle.crossbeam_utils.specs.Padded.{padded_value};
ghost use Rattle.front_reference.specs.declared.errors.CacheError.TheVariants as errors;
ghost use Rattle.front_state.specs.Reading.{ShowsPolicy};
ghost use Rattle.moka_sync.specs.Holding.{BearTheirPlaces};
ghost use Rattle.moka_sync.specs.Spreading.{desk_count, desk_number};

use crate::shared::SharedDesk;
use crate::spreading::Spread;
use crossbeam_utils::CachePadded;
use engine_reference::{Hashes, Policy, Rules};
use front_parts::place_of;
use front_reference::{CacheError, LentKey, Shared};
use front_state::{HashedName, LentState, Sharded};
use std::alloc::{AllocError, Global};
use std::hash::{BuildHasher, Hash};
use std::sync::atomic::{AtomicUsize, Ordering};
use std::sync::{MutexGuard, Wait};
use sync_desk::{Desk, Env, Fork};

/// The desks, as many as a power of two, and the properties of the cache. If there are several desks, each is a shard.
#[derive(Drop)]
pub(crate) struct Inner<K: Eq + Hash, V, S: BuildHasher, R: Rules<K, V>, E: Env, C> {
    pub(crate) desks: Vec<CachePadded<SharedDesk<K, V, S, R, E, C>>>,
    spread: Option<Spread<S>>,
    // The number of the desk that is asked for notices next.
    pub(crate) next_asked: AtomicUsize,
    pub(crate) name: Option<String>,
    pub(crate) policy: Policy,
    ghost counted: { vec_len desks ≡ desk_count spread },
    ghost numbered: { BearTheirPlaces desks.items (λ d. (padded_value d).number) },
}

/// A copy of a cache's name.
fn copy_name(alloc: Global, name: Option<&str>) -> Result<Option<String>, AllocError>
    ensures { IfOk result
        (λ copy. option_map string_bytes copy ≡ option_map (λ text. text.now) name.entry) }
{
    match name {
        Some(name) => Ok(Some(String::from_str(alloc, name)?)),
        None => Ok(None),
    }
}

/// Adds a padded desk for a shard, with an environment of its own. The desk's number is its place.
fn add_desk<
    K: Eq + Hash + Drop,
    V: Clone + Drop,
    S: BuildHasher + Drop,
    R: Rules<K, V> + Drop,
    E: Fork + Drop,
>(
    alloc: Global,
    state: LentState<K, V, S, R, Sharded>,
    env: &mut E,
    is_timed: bool,
    desks: &mut Vec<CachePadded<SharedDesk<K, V, S, R, E, Sharded>>>,
) -> Result<(), AllocError>
    requires { BearTheirPlaces desks.old.items (λ d. (padded_value d).number) }
    ensures count { OnOk result (vec_len desks.new ≡ suc (vec_len desks.old)) }
    ensures numbered { OnOk result
        (BearTheirPlaces desks.new.items (λ d. (padded_value d).number)) }
{
    let own = env.fork()?;
    let desk = SharedDesk::numbered(alloc, state, own, is_timed, desks.len());
    desks.push(CachePadded::new(desk))?;
    Ok(())
}

/// A padded desk for each shard.
fn desks_of<
    K: Eq + Hash + Drop,
    V: Clone + Drop,
    S: BuildHasher + Drop,
    R: Rules<K, V> + Drop,
    E: Fork + Drop,
>(
    alloc: Global,
    states: Vec<LentState<K, V, S, R, Sharded>>,
    env: E,
    is_timed: bool,
) -> Result<Vec<CachePadded<SharedDesk<K, V, S, R, E, Sharded>>>, AllocError>
    ensures count { IfOk result (λ desks. vec_len desks ≡ length states.items) }
    ensures numbered { IfOk result
        (λ desks. BearTheirPlaces desks.items (λ d. (padded_value d).number)) }
{
    let mut env = env;
    let mut desks = Vec::with_capacity(alloc, states.len())?;
    for state in states {
        add_desk(alloc, state, &mut env, is_timed, &mut desks)?;
    }
    Ok(desks)
}

impl<
    K: Eq + Hash + Drop,
    V: Clone + Drop,
    S: BuildHasher + Drop,
    R: Rules<K, V> + Drop,
    E: Fork + Drop,
> Inner<K, V, S, R, E, Sharded> {
    /// A desk for each shard.
    pub(crate) fn of_shards(
        alloc: Global,
        states: Vec<LentState<K, V, S, R, Sharded>>,
        spread: Spread<S>,
        env: E,
        is_timed: bool,
        name: Option<String>,
        policy: Policy,
    ) -> Result<Self, AllocError>
        requires counted { length states.items ≡ 2 ^ spread.bits }
        ensures spread { IfOk result (λ made. made.spread ≡ Some spread) }
        ensures name { IfOk result (λ made. made.name ≡ name) }
        ensures policy { IfOk result (λ made. made.policy ≡ policy) }
    {
        let desks = desks_of(alloc, states, env, is_timed)?;
        Ok(Inner {
            desks,
            spread: Some(spread),
            next_asked: AtomicUsize::new(0),
            name,
            policy,
        })
    }
}

impl<
    K: Eq + Hash + Drop,
    V: Clone + Drop,
    S: BuildHasher + Drop,
    R: Rules<K, V> + Drop,
    E: Env + Drop,
    C: Drop,
> Inner<K, V, S, R, E, C> {
    /// A single desk, for all keys, with the properties of a lent cache.
    pub(crate) fn one(
        alloc: Global,
        state: LentState<K, V, S, R, C>,
        env: E,
        is_timed: bool,
    ) -> Result<Self, AllocError>
        ensures spread { IfOk result (λ made. made.spread ≡ None) }
        ensures name { IfOk result (λ made. option_map string_bytes made.name ≡ state.name) }
        ensures policy { IfOk result (λ made. ShowsPolicy state made.policy) }
    {
        let name = copy_name(alloc, state.name())?;
        let policy = state.policy();
        let mut desks = Vec::with_capacity(alloc, 1)?;
        let desk = SharedDesk::numbered(alloc, state, env, is_timed, 0);
        desks.push(CachePadded::new(desk))?;
        Ok(Inner {
            desks,
            spread: None,
            next_asked: AtomicUsize::new(0),
            name,
            policy,
        })
    }

    /// The number of the desk of the key that a name names. If there is one desk, nothing is hashed.
    fn number_of_name<Q: HashedName<K>>(&self, name: &Q) -> usize
        ensures number { result ≡ desk_number (⟦<S as Hashes<K>>⟧.hash) self.now.spread
            (Q.named_key name.now) }
        ensures within { result < vec_len self.now.desks }
    {
        match &self.spread {
            Some(spread) => place_of(spread.bits, name.hash_name(&*spread.hasher)),
            None => 0,
        }
    }

    /// The desk of the key that a name names.
    pub(crate) fn of_name<Q: HashedName<K>>(&self, name: &Q) -> &SharedDesk<K, V, S, R, E, C>
        ensures desk { option_map padded_value (slice_get self.now.desks.items
            (desk_number (⟦<S as Hashes<K>>⟧.hash) self.now.spread (Q.named_key name.now)))
            ≡ Some result.now }
        ensures number { result.now.number
            ≡ desk_number (⟦<S as Hashes<K>>⟧.hash) self.now.spread (Q.named_key name.now) }
    {
        self.get(self.number_of_name(name))
    }

    /// The number of the desk of a key.
    pub(crate) fn number_of(&self, key: &K) -> usize
        ensures number { result
            ≡ desk_number (⟦<S as Hashes<K>>⟧.hash) self.now.spread key.now }
        ensures within { result < vec_len self.now.desks }
    {
        self.number_of_name(&LentKey { key })
    }

    /// The desk of a key.
    pub(crate) fn of(&self, key: &K) -> &SharedDesk<K, V, S, R, E, C>
        ensures desk { option_map padded_value (slice_get self.now.desks.items
            (desk_number (⟦<S as Hashes<K>>⟧.hash) self.now.spread key.now)) ≡ Some result.now }
        ensures number { result.now.number
            ≡ desk_number (⟦<S as Hashes<K>>⟧.hash) self.now.spread key.now }
    {
        self.of_name(&LentKey { key })
    }

    /// Takes the lock of the desk of the key that a name names.
    pub(crate) fn lock_named<H: Wait, Q: HashedName<K>>(
        &self,
        rt: &H,
        name: &Q,
    ) -> MutexGuard<'_, Desk<K, V, S, R, E::Generator, C>>
        ensures { (mutex_guard_value result).number
            ≡ desk_number (⟦<S as Hashes<K>>⟧.hash) self.now.spread (Q.named_key name.now) }
    {
        self.of_name(name).lock(rt)
    }

    /// Takes the lock of the desk of a key.
    pub(crate) fn lock_of<H: Wait>(
        &self,
        rt: &H,
        key: &K,
    ) -> MutexGuard<'_, Desk<K, V, S, R, E::Generator, C>>
        ensures { (mutex_guard_value result).number
            ≡ desk_number (⟦<S as Hashes<K>>⟧.hash) self.now.spread key.now }
    {
        self.of(key).lock(rt)
    }

    /// The first desk, and the only one unless there are shards.
    pub(crate) fn first(&self) -> &SharedDesk<K, V, S, R, E, C>
        ensures { result.now.number ≡ 0 }
    {
        self.get(0)
    }

    /// A desk by its number.
    pub(crate) fn get(&self, number: usize) -> &SharedDesk<K, V, S, R, E, C>
        requires { number < vec_len self.now.desks }
        ensures desk { option_map padded_value (slice_get self.now.desks.items number)
            ≡ Some result.now }
        ensures number { result.now.number ≡ number }
    {
        &*self.desks[number]
    }

    /// The keys of a segment: of the desk of this number if there are several. `None` if there is no such segment.
    pub(crate) fn keys(
        &self,
        rt: &impl Wait,
        segment: usize,
    ) -> Result<Option<Vec<Shared<K>>>, CacheError>
        requires exact { (x y : V) → V.is_clone x y → y ≡ x }
        ensures cause { IfErr result (λ e. e ≡ errors.OutOfMemory) }
    {
        let (number, part) = match &self.spread {
            Some(_) => (segment, 0),
            None => (0, segment),
        };
        match self.desks.get(number) {
            Some(desk) => {
                let guard = desk.lock_untimed(rt);
                guard.keys(part)
            }
            None => Ok(None),
        }
    }

    /// The number of the desk that is asked for notices first.
    pub(crate) fn ask_next(&self) -> usize
        ensures { result < vec_len self.now.desks }
    {
        self.next_asked.load(Ordering::SeqCst) % self.desks.len()
    }
}
