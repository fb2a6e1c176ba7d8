//! A predicate in all shards or in none, under the locks of all.
ghost use Rattle.std.specs.Prelude.{◌≡◌, ◌<◌, ◌≤◌, ℕ, [], Some, IfErr, IfOk, OnErr, OnOk, length, slice_get, slice_set, vec_capacity};
ghost use Rattle.std.specs.Sync.Mutex.{mutex_guard_value};
ghost use Rattle.front_parts.specs.Wholes.Covering.{AreOnly};
ghost use Rattle.front_parts.specs.Wholes.Firsts.{changed_first};
ghost use Rattle.moka_sync.specs.Covering.{Commits, CommitsFirst, CoversShards, IsCauseToCoverShards, IsPrepared, MayCover, MayCoverEach, MayRefuse, each_of, prepared, released};
ghost use Rattle.moka_sync.specs.Holding.{GuardedShard};
ghost use Rattle.front_state.specs.Sharding.{FirstHasRoom};

use engine_reference::Rules;
use front_parts::clone_each;
use front_reference::{CacheError, Shared};
use front_state::Sharded;
use rand_core::Rng;
use std::alloc::Global;
use std::hash::{BuildHasher, Hash};
use std::marker::Model;
use std::sync::MutexGuard;
use sync_desk::Desk;

/// All shards of a cache, whose locks are held. Contracts see of each all but its generator and who waits, in the
/// order of the shards.
#[derive(Drop)]
pub struct AllDesks<'a, K: Eq + Hash, V, S: BuildHasher, R: Rules<K, V>, G> {
    guards: Vec<MutexGuard<'a, Desk<K, V, S, R, G, Sharded>>>,
}

impl<'a, K: Eq + Hash, V, S: BuildHasher, R: Rules<K, V>, G> Model for AllDesks<'a, K, V, S, R, G> {
    ghost use Rattle.std.specs.Prelude.{List};
    ghost use Rattle.std.specs.Sync.Mutex.{mutex_guard_value};
    ghost use Rattle.moka_sync.specs.Covering.{each_of};
    ghost use Rattle.moka_sync.specs.Holding.{GuardedShard};

    ghost Value = { List (GuardedShard K V R.Predicate S R) };

    ghost view = { λ c. each_of c.guards.items (λ g. record {
      number = (mutex_guard_value g).number;
      state = (mutex_guard_value g).state;
      writes = (mutex_guard_value g).writes.steps;
      moment = (mutex_guard_value g).moment;
    }) };
}

impl<
    'a,
    K: Eq + Hash + Drop,
    V: Clone + Drop,
    S: BuildHasher + Drop,
    R: Rules<K, V> + Drop,
    G: Rng + Drop,
> AllDesks<'a, K, V, S, R, G> {
    /// The locks that are held, in the order of the shards.
    pub(crate) fn new(guards: Vec<MutexGuard<'a, Desk<K, V, S, R, G, Sharded>>>) -> Self
        ensures { result ≡ each_of guards.entry.items (λ g. record {
          number = (mutex_guard_value g).number;
          state = (mutex_guard_value g).state;
          writes = (mutex_guard_value g).writes.steps;
          moment = (mutex_guard_value g).moment;
        }) }
    {
        AllDesks { guards }
    }

    /// How many shards there are.
    fn count(&self) -> usize
        ensures { result ≡ length self.now }
    {
        self.guards.len()
    }

    /// Makes room for a predicate in a shard, and draws its identifier.
    fn prepare_at(&mut self, number: usize) -> Result<u128, CacheError>
        requires { number < length self.old }
        ensures ok { OnOk result ((d : GuardedShard K V R.Predicate S R)
            → slice_get self.old number ≡ Some d
            → self.new ≡ slice_set self.old number (prepared d)) }
        ensures may { IfOk result (λ id. (d : GuardedShard K V R.Predicate S R)
            → slice_get self.old number ≡ Some d → MayCover id d) }
        ensures err { OnErr result (self.new ≡ self.old) }
        ensures cause { IfErr result (λ e. (d : GuardedShard K V R.Predicate S R)
            → slice_get self.old number ≡ Some d → MayRefuse d e) }
    {
        let desk = &mut *self.guards[number];
        desk.prepare_cover()
    }

    /// Registers a predicate in a shard, in the room that was made for it.
    fn commit_at(&mut self, number: usize, id: u128, predicate: Shared<R::Predicate>)
        requires within { number < length self.old }
        requires prepared { (d : GuardedShard K V R.Predicate S R)
            → slice_get self.old number ≡ Some d → IsPrepared d }
        ensures { (d : GuardedShard K V R.Predicate S R) → slice_get self.old number ≡ Some d
            → (e : GuardedShard K V R.Predicate S R) × (Commits predicate id d e)
            × (self.new ≡ slice_set self.old number e) }
    {
        let desk = &mut *self.guards[number];
        desk.commit_cover(id, predicate);
    }

    /// Gives up the room that was made in a shard.
    fn release_at(&mut self, number: usize)
        requires within { number < length self.old }
        requires room { (d : GuardedShard K V R.Predicate S R)
            → slice_get self.old number ≡ Some d → FirstHasRoom d.state }
        ensures { (d : GuardedShard K V R.Predicate S R) → slice_get self.old number ≡ Some d
            → self.new ≡ slice_set self.old number (released d) }
    {
        let desk = &mut *self.guards[number];
        desk.release_cover();
    }

    /// Gives up the room that was made in the first shards.
    fn release_first(&mut self, count: usize)
        requires within { count ≤ length self.old }
        requires room { (place : ℕ) (d : GuardedShard K V R.Predicate S R) → place < count
            → slice_get self.old place ≡ Some d → FirstHasRoom d.state }
        ensures { self.new ≡ changed_first (λ _. released) count self.old }
    {
        for number in 0..count {
            self.release_at(number);
        }
    }

    /// Makes room for a predicate in all shards, or in none. Their identifiers are added to a vector that has room for them.
    fn prepare_all(&mut self, ids: &mut Vec<u128>) -> Result<(), CacheError>
        requires empty { ids.old.items ≡ [] }
        requires room { length self.old ≤ vec_capacity ids.old }
        ensures ok { OnOk result
            (self.new ≡ changed_first (λ _. prepared) (length self.old) self.old) }
        ensures count { OnOk result (length ids.new.items ≡ length self.old) }
        ensures may { OnOk result (MayCoverEach ids.new.items self.old) }
        ensures err { OnErr result (self.new ≡ self.old) }
        ensures cause { IfErr result (IsCauseToCoverShards self.old) }
    {
        let count = self.count();
        for number in 0..count {
            match self.prepare_at(number) {
                Ok(id) => ids.push_reserved(id),
                Err(refused) => {
                    self.release_first(number);
                    return Err(refused);
                }
            }
        }
        Ok(())
    }

    /// Registers a predicate, given as a clone for each shard, under an identifier for each, in the room that was made.
    fn commit_all(&mut self, ids: &[u128], mut predicates: Vec<Shared<R::Predicate>>)
        requires ids { length ids.now ≡ length self.old }
        requires predicates { length predicates.items ≡ length self.old }
        requires prepared { (place : ℕ) (d : GuardedShard K V R.Predicate S R)
            → slice_get self.old place ≡ Some d → IsPrepared d }
        ensures { (p : R.Predicate) → AreOnly p predicates.items
            → CommitsFirst p ids.now (length self.old) self.old self.new }
    {
        let count = self.count();
        for number in 0..count {
            let predicate = match predicates.pop() {
                Some(predicate) => predicate,
                None => unreachable!(),
            };
            let id = ids[number];
            self.commit_at(number, id, predicate);
        }
    }

    /// Invalidates the values that were written before and for which the predicate returns true, in all shards or, if the call is refused,
    /// in none. Each shard draws an identifier. Returns `InvalidationClosuresDisabled` if the cache accepts no predicates, `OutOfMemory` if
    /// there is not enough memory, `UsedUp` if the 64-bit numbers are used up, and `IdsInUse` if each of a thousand identifiers that were
    /// drawn for a shard is registered there; then nothing has changed.
    pub fn invalidate_entries_if(
        &mut self,
        alloc: Global,
        predicate: R::Predicate,
    ) -> Result<(), CacheError>
        ensures covers { OnOk result (CoversShards predicate self.old self.new) }
        ensures err { OnErr result (self.new ≡ self.old) }
        ensures cause { IfErr result (IsCauseToCoverShards self.old) }
    {
        let count = self.count();
        let shared = Shared::new(alloc, predicate)?;
        let clones = clone_each(alloc, count, &shared)?;
        let mut ids = Vec::with_capacity(alloc, count)?;
        match self.prepare_all(&mut ids) {
            Ok(()) => {
                self.commit_all(ids.as_slice(), clones);
                Ok(())
            }
            Err(refused) => Err(refused),
        }
    }
}
