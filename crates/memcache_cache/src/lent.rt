//! Items in a lent cache.
ghost use Rattle.std.specs.Prelude.{◌≡◌, ◌*◌, ◌<◌, ◌≤◌, ◌^◌, [], IfOk, None, OnErr, OnOk, Some, nat_lt, option_map};
ghost use Rattle.memcache_cache.specs.Rules.{item_weight};
ghost use Rattle.memcache_cache.specs.Showing.{shelved_by};
ghost use Rattle.memcache_cache.specs.Weights.{IsItemCache};
ghost use Rattle.memcache_model.specs.Items.{unexpired, with_item};
ghost use Rattle.memcache_model.specs.Outcomes.{new_item};
ghost use Rattle.memcache_service.specs.Shelves.{Becomes, CountsRemovals, MayComeAt, SeesLive, ShowsNothing};

use crate::rules::ItemRules;
use audit_model::Key;
use engine_reference::Rules;
use front_parts::{EvictionPolicy, HasWays, Notice, RemovalCause, Settings};
use front_reference::{At, ClonedKey, Shared};
use front_state::{LentState, Single};
use memcache_model::{Counters, up};
use memcache_service::{Shelf, StoredItem};
use policy_base::Instant;
use std::alloc::{AllocError, Global};
use std::hash::BuildHasher;

/// An item of more bytes is emptied before it is removed, so that a removal needs no memory for a copy of it.
const MOST_COPIED: usize = 4096;

/// A lent cache of one part.
type Cache<S> = LentState<Key, StoredItem, S, ItemRules, Single>;

/// Items by key in a lent cache of one part. Moments are in milliseconds of Unix time, below 2^43.
///
/// An item is live until its own deadline. The cache's expiry, which has a coarser grain, removes the item.
#[derive(Drop)]
pub struct LentShelf<S: BuildHasher + Drop> {
    alloc: Global,
    cache: Cache<S>,
    ghost kept: { ∥ IsItemCache cache ∥₁ },
}

impl<S: BuildHasher + Drop> LentShelf<S> {
    /// Creates an empty shelf of at most this many bytes, at a moment. If untrusted clients choose the keys, use a hasher that they cannot
    /// predict. Returns an error if there is not enough memory.
    pub fn new(
        alloc: Global,
        capacity: u64,
        policy: EvictionPolicy,
        hasher: S,
        moment: u64,
    ) -> Result<LentShelf<S>, AllocError>
        requires { moment < 2 ^ 43 }
        ensures in_time { IfOk result (λ made. MayComeAt
            (shelved_by ⟦<ItemRules as HasWays<Key, StoredItem, S>>⟧.ways made.cache) moment) }
        ensures empty { IfOk result (λ made. ShowsNothing
            (shelved_by ⟦<ItemRules as HasWays<Key, StoredItem, S>>⟧.ways made.cache)) }
        ensures capacity { IfOk result (λ made. (shelved_by
            ⟦<ItemRules as HasWays<Key, StoredItem, S>>⟧.ways made.cache).capacity ≡ capacity) }
        ensures policy { IfOk result (λ made. made.cache.common.settings.policy ≡ policy) }
        ensures hasher { IfOk result (λ made. made.cache.common.hasher ≡ hasher) }
    {
        let settings = Settings {
            capacity: Some(capacity),
            live: None,
            idle: None,
            policy,
            tells: true,
            takes_predicates: false,
            made: nanos(moment),
        };
        let cache = LentState::with_parts(alloc, None, 0, 0, settings, hasher, ItemRules)?;
        Ok(LentShelf { alloc, cache })
    }

    /// A moment, at the step of the last call.
    fn at(&self, moment: u64) -> At
        requires { moment < 2 ^ 43 }
        ensures { result ≡ record { now = moment * 1000000; step = self.now.cache.step } }
    {
        let At { step, .. } = self.cache.last_call();
        At {
            now: instant(moment),
            step,
        }
    }

    /// Whether an item weighs more than all items may.
    fn is_too_heavy(&self, key: &Key, item: &StoredItem) -> bool
        ensures { result ≡ nat_lt (shelved_by
            ⟦<ItemRules as HasWays<Key, StoredItem, S>>⟧.ways self.now.cache).capacity
            (item_weight key.now item.now) }
    {
        let capacity = self.cache.policy().max_capacity().unwrap_or(0);
        capacity < u64::from(ItemRules.weight(key, item))
    }

    /// Whether the item of a key is too large to be copied for the notice of its removal.
    fn is_large(&self, key: &Key, moment: u64) -> bool
        requires { moment < 2 ^ 43 }
    {
        match self.cache.peek(key, instant(moment)) {
            Some(item) => item.bytes().len() > MOST_COPIED,
            None => false,
        }
    }

    /// Takes the item of a key out, of which the cache makes a copy for its notice. Returns an error if there is not enough memory; then
    /// nothing has changed.
    fn take_out(&mut self, key: &Key, moment: u64) -> Result<(), AllocError>
        requires { MayComeAt (shelved_by ⟦<ItemRules as HasWays<Key, StoredItem, S>>⟧.ways
            self.old.cache) moment }
        ensures removes { OnOk result (Becomes moment (with_item key.now None
            ((shelved_by ⟦<ItemRules as HasWays<Key, StoredItem, S>>⟧.ways self.old.cache).items
            moment)) (shelved_by ⟦<ItemRules as HasWays<Key, StoredItem, S>>⟧.ways
            self.new.cache)) }
        ensures capacity { (shelved_by ⟦<ItemRules as HasWays<Key, StoredItem, S>>⟧.ways
            self.new.cache).capacity ≡ (shelved_by
            ⟦<ItemRules as HasWays<Key, StoredItem, S>>⟧.ways self.old.cache).capacity }
        ensures unchanged { OnErr result (self.new ≡ self.old) }
    {
        self.cache.keeps();
        let at = self.at(moment);
        match self.cache.invalidate(key, at) {
            Ok(()) => Ok(()),
            Err(_) => Err(AllocError),
        }
    }
}

/// A moment in nanoseconds.
fn nanos(moment: u64) -> u64
    requires { moment < 2 ^ 43 }
    ensures { result ≡ moment * 1000000 }
{
    moment * 1_000_000
}

/// A moment, as the cache has it.
fn instant(moment: u64) -> Instant
    requires { moment < 2 ^ 43 }
    ensures { result ≡ moment * 1000000 }
{
    Instant::from_nanos(nanos(moment))
}

/// The item, unless it has expired.
fn unexpired(found: Option<&StoredItem>, moment: u64) -> Option<&StoredItem>
    ensures { option_map (λ item. item.now) result
        ≡ unexpired moment (option_map (λ item. item.now) found.entry) }
{
    match found {
        Some(item) => {
            if item.has_expired(moment) {
                None
            } else {
                Some(item)
            }
        }
        None => None,
    }
}

/// Passes an item, unless it has expired, and what is behind `output`, to `see`, and returns what `see` returns, also if that is an error.
fn show_live<O, X, E, F: FnOnce(Option<&StoredItem>, &mut O) -> Result<X, E> + Drop>(
    found: Option<&StoredItem>,
    moment: u64,
    output: &mut O,
    see: F,
) -> Result<X, E>
    requires { F.IsAlwaysCallable see }
    ensures { SeesLive F.FnOnce see
        (unexpired moment (option_map (λ item. item.now) found.entry)) output.old result
        output.new }
{
    see(unexpired(found, moment), output)
}

/// What stands in the place of a large item that is removed: it has expired, and no unique.
fn emptied(alloc: Global, moment: u64) -> Result<StoredItem, AllocError>
    ensures { IfOk result (λ made. made ≡ new_item [] 0 (Some moment)) }
{
    StoredItem::new(alloc, b"", 0, Some(moment))
}

/// Counts an item that left by itself; one without a unique was removed.
fn count_removal(counters: &mut Counters, notice: &Notice<Shared<Key>, StoredItem>)
    ensures { CountsRemovals counters.old counters.new }
{
    match notice.cause {
        RemovalCause::Size => up(&mut counters.evictions),
        RemovalCause::Expired if notice.value.unique() != 0 => up(&mut counters.expired),
        _ => {}
    }
}

impl<S: BuildHasher + Drop> Shelf for LentShelf<S> {
    ghost use Rattle.memcache_cache.specs.Rules.{item_weight};
    ghost use Rattle.memcache_cache.specs.Showing.{AreTold, looks_up_by, shelved_by};

    ghost view = { λ s. shelved_by ⟦<ItemRules as HasWays<Key, StoredItem, S>>⟧.ways s.cache };

    ghost weigh = { item_weight };

    ghost uses = { λ moment key old new. looks_up_by
        ⟦<ItemRules as HasWays<Key, StoredItem, S>>⟧.ways moment key old.cache new.cache };

    ghost counts = { λ old new. AreTold old.cache new.cache };

    fn pass(&self) {}

    fn bounded(&self) {
        self.cache.keeps();
    }

    fn peek(&self, key: &Key, moment: u64) -> Option<&StoredItem> {
        unexpired(self.cache.peek(key, instant(moment)), moment)
    }

    fn look<O, X, E, F: FnOnce(Option<&StoredItem>, &mut O) -> Result<X, E> + Drop>(
        &mut self,
        key: &Key,
        moment: u64,
        output: &mut O,
        see: F,
    ) -> Result<X, E> {
        self.cache.keeps();
        match self
            .cache
            .look_up(key, instant(moment), output, |found, output| {
                show_live(found, moment, output, see)
            }) {
            Ok(answer) => Ok(answer),
            Err(error) => Err(error),
        }
    }

    fn put(&mut self, key: &Key, item: StoredItem, moment: u64) -> Result<(), AllocError> {
        if self.is_too_heavy(key, &item) {
            return Err(AllocError);
        }
        self.cache.keeps();
        let hash = self.cache.hash(key);
        let at = self.at(moment);
        let alloc = self.alloc;
        match self
            .cache
            .insert_named(ClonedKey { key, alloc }, hash, item, at)
        {
            Ok(()) => Ok(()),
            Err(_) => Err(AllocError),
        }
    }

    fn remove(&mut self, key: &Key, moment: u64) -> Result<(), AllocError> {
        if !self.is_large(key, moment) {
            return self.take_out(key, moment);
        }
        let empty = emptied(self.alloc, moment)?;
        self.put(key, empty, moment)?;
        // (nothing is live under the key any more, also if the empty item cannot be taken out yet)
        let _taken = self.take_out(key, moment);
        Ok(())
    }

    fn clear(&mut self, moment: u64) -> Result<(), AllocError> {
        self.cache.keeps();
        let At { now, step } = self.at(moment);
        match step.checked_add(1) {
            Some(step) => {
                self.cache.invalidate_all(At { now, step });
                Ok(())
            }
            None => Err(AllocError),
        }
    }

    fn count_removals(&mut self, counters: &mut Counters) {
        while let Some(notice) = self.cache.next_notice() {
            count_removal(counters, &notice);
        }
    }

    fn item_count(&self) -> u64 {
        self.cache.entry_count()
    }

    fn weight(&self) -> u64 {
        self.cache.weighted_size()
    }
}
