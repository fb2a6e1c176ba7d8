//! The state of a lent cache.
ghost use Rattle.std.specs.Prelude.{◌≡◌, ◌<◌, ◌^◌, Ok, IfOk, IfErr, OnOk, OnErr, is_some, true, false};
ghost use Rattle.std.specs.List.{list_any};
ghost use Rattle.std.specs.Fn.{FnOnceReturnsAt};
ghost use Rattle.engine_reference.specs.Calls.{cleared_by, removal_rooms};
ghost use Rattle.front_reference.specs.Fronts.{CallsAll, ComesAfter};
ghost use Rattle.front_reference.specs.Wholes.{RunsPart};
ghost use Rattle.front_reference.specs.declared.errors.CacheError.TheVariants as errors;
ghost use Rattle.front_parts.specs.Named.{IsNamedAlone};
ghost use Rattle.front_parts.specs.Places.Calls.{CoalescesBy, ComputesIn, InsertsIn, IsCauseIn, LooksUpIn, TakesOutIn, hash_in, held_value_in, visible_in};

use engine_reference::{Hashes, Names, Rules, Settings};
use front_parts::{
    BaseCache, HasWays, Turns, clear_all, coalesce, compute, insert, insert_by_name,
    is_table_refused, run_all,
};
use front_reference::{At, CacheError, Computed, IntoKey, LentKey, Made, Op, OwnedKey, Shared};
use policy_base::Instant;
use std::alloc::{AllocError, Global};
use std::hash::{BuildHasher, Hash, Hasher};
use std::marker::{Model, PhantomData};

mod accessing;
mod coalescing;
mod covering;
mod looking;
mod making;
mod naming;
mod parts;
mod reading;
mod sharding;
mod showing;
mod turning;

pub use naming::{BytesName, HashedName, TextName};
use parts::part_mut;

/// The form of a cache of one segment.
#[derive(Clone, Copy, Debug, PartialEq, Eq, Drop)]
pub struct Single;

/// The form of a cache of several segments.
#[derive(Clone, Copy, Debug, PartialEq, Eq, Drop)]
pub struct Segmented;

/// The form of a shard: a cache of one segment that is one of several, which share a hasher and rules.
#[derive(Clone, Copy, Debug, PartialEq, Eq, Drop)]
pub struct Sharded;

/// The identifier of a predicate: the text of a version 4 UUID, hyphenated and in lower case, 36 bytes.
pub type PredicateId = String;

/// A cache of 2^bits parts, which its owner lends by `&mut`, so that calls do not overlap. Each key belongs to the part that the upper bits
/// of its hash select.
/// Each call takes its moment and its step, neither of which may fall. A clear and a predicate need a later step than any call before, as
/// they cover what was written at earlier steps. A call that is refused has changed nothing, including the moment and the step.
/// The form decides which `new` and `builder` the type has, what `invalidate_entries_if` returns, and whether there are
/// `get_or_insert_with` and `get_or_try_insert_with`. Everything else is the same, and either form may have any number of parts.
#[derive(Drop)]
pub struct LentState<K: Eq + Hash, V, S: BuildHasher, R: Rules<K, V>, C = Single> {
    alloc: Global,
    parts: Vec<BaseCache<Shared<K>, V, Shared<S>, Shared<R>>>,
    bits: u32,
    name: Option<String>,
    capacity: Option<u64>,
    settings: Settings,
    hasher: Shared<S>,
    rules: Shared<R>,
    turns: Turns<Shared<K>>,
    next_turn: u64,
    moment: Instant,
    step: u64,
    form: PhantomData<C>,
}

impl<K: Eq + Hash, V, S: BuildHasher, R: Rules<K, V>, C> Model for LentState<K, V, S, R, C> {
    ghost use Rattle.std.specs.Prelude.{option_map};
    ghost use Rattle.std.specs.String.{string_bytes};
    ghost use Rattle.front_reference.specs.Fronts.{Front};
    ghost use Rattle.front_parts.specs.Places.Calls.{IsSteadyBy, ways_by};

    ghost Value = { Front K V R.Predicate S R };

    ghost view = { λ c. record {
      parts = c.parts.items;
      bits = c.bits;
      name = option_map string_bytes c.name;
      capacity = c.capacity;
      common = record { settings = c.settings; hasher = c.hasher; rules = c.rules };
      turns = c.turns;
      next_turn = c.next_turn;
      moment = c.moment;
      step = c.step;
    } };

    ghost invariant = { λ c. ∥ IsSteadyBy
        (ways_by R.Rules K.eq K.hash_input S.BuildHasher S.Hasher.Hasher) (record {
          parts = c.parts.items;
          bits = c.bits;
          name = option_map string_bytes c.name;
          capacity = c.capacity;
          common = record { settings = c.settings; hasher = c.hasher; rules = c.rules };
          turns = c.turns;
          next_turn = c.next_turn;
          moment = c.moment;
          step = c.step;
        }) ∥₁ };
}

impl<K: Eq + Hash, V, S: BuildHasher, R: Rules<K, V>, C> LentState<K, V, S, R, C> {
    /// Returns the hash of a key, for the calls that take a hash.
    /// ```
    /// let hash = cache.hash(&7);
    /// cache.insert_with_hash(OwnedKey { key: 7, alloc }, hash, value, at)?;
    /// ```
    pub fn hash(&self, key: &K) -> u64
        ensures { result ≡ hash_in ⟦<R as HasWays<K, V, S>>⟧.ways self.now key.now }
    {
        self.hasher.hash_key(key)
    }

    /// Returns a clone of the visible value of a key, or `None`, which counts as a use of it. A use makes the value's eviction less likely
    /// and restarts its idle time; TinyLFU counts a miss, too. Returns `OutOfMemory` if there is no memory for the clone; then nothing has
    /// changed. If maintenance is due (when 64 operations wait for it, or 300 ms after the last run), it runs after the value is looked up
    /// and before the use is noted. To read without a use, there are `peek` and `contains_key`.
    /// ```
    /// match cache.get(&7, at)? {
    ///     Some(value) => Ok(value),
    ///     None => read_slowly(7),
    /// }
    /// ```
    pub fn get(&mut self, key: &K, at: At) -> Result<Option<V>, CacheError>
    where
        K: Drop,
        V: Clone + Drop,
        requires exact { (x y : V) → V.is_clone x y → y ≡ x }
        requires follows { ComesAfter at.now at.step self.old }
        ensures found { IfOk result
            (λ found. found ≡ visible_in ⟦<R as HasWays<K, V, S>>⟧.ways self.old at.now key.now) }
        ensures used { OnOk result
            (LooksUpIn ⟦<R as HasWays<K, V, S>>⟧.ways key.now at self.old self.new) }
        ensures err { OnErr result (self.new ≡ self.old) }
        ensures cause { IfErr result (λ e. e ≡ errors.OutOfMemory) }
    {
        self.get_by_name(&LentKey { key }, at)
    }

    /// Returns whether a key has a visible value. The call does not count as a use of it. Expired and invalidated values count as absent,
    /// whether maintenance has removed them or not.
    /// ```
    /// if !cache.contains_key(&7, at.now) {
    ///     cache.insert(7, 49, at)?;
    /// }
    /// ```
    pub fn contains_key(&self, key: &K, now: Instant) -> bool
        ensures { result
            ≡ is_some (visible_in ⟦<R as HasWays<K, V, S>>⟧.ways self.now now key.now) }
    {
        self.contains_key_by_name(&LentKey { key }, now)
    }

    /// Inserts a value. A cache of capacity 0 stores none. A value that is there already leaves, and is reported as `Replaced`, or as
    /// `Expired` or `Explicit` if one of these came first. The new value is visible at once, even above the capacity: maintenance, which
    /// runs within this call if it is due, decides which values stay. A run removes a value that is heavier than its segment's share.
    /// Returns `OutOfMemory` if there is not enough memory, and `UsedUp` if the 64-bit numbers of writes are used up; then nothing has
    /// changed.
    /// ```
    /// cache.insert(7, 49, at)?;
    /// ```
    pub fn insert(&mut self, key: K, value: V, at: At) -> Result<(), CacheError>
    where
        K: Drop,
        V: Drop,
        requires follows { ComesAfter at.now at.step self.old }
        ensures inserts { OnOk result
            (InsertsIn ⟦<R as HasWays<K, V, S>>⟧.ways key value at self.old self.new) }
        ensures err { OnErr result (self.new ≡ self.old) }
        ensures cause { IfErr result
            (IsCauseIn ⟦<R as HasWays<K, V, S>>⟧.ways (λ _. 1) self.old key) }
    {
        let hash = self.hasher.hash_key(&key);
        let alloc = self.alloc;
        self.insert_with_hash(OwnedKey { key, alloc }, hash, value, at)
    }

    /// Like `insert`, with what names a key, and its hash. Returns the errors of `insert`.
    /// ```
    /// let hash = cache.hash(&name);
    /// cache.insert_with_hash(ClonedKey { key: &name, alloc }, hash, value, at)?;
    /// ```
    pub fn insert_with_hash<Q: IntoKey<Shared<K>>>(
        &mut self,
        name: Q,
        hash: u64,
        value: V,
        at: At,
    ) -> Result<(), CacheError>
    where
        K: Drop,
        V: Drop,
        requires hashed { hash
            ≡ hash_in ⟦<R as HasWays<K, V, S>>⟧.ways self.old (Q.named_key name) }
        requires becomes { Q.can_become name }
        requires follows { ComesAfter at.now at.step self.old }
        ensures inserts { OnOk result (InsertsIn ⟦<R as HasWays<K, V, S>>⟧.ways
            (Q.named_key name) value at self.old self.new) }
        ensures err { OnErr result (self.new ≡ self.old) }
        ensures cause { IfErr result
            (IsCauseIn ⟦<R as HasWays<K, V, S>>⟧.ways (λ _. 1) self.old (Q.named_key name)) }
    {
        let At { now, step } = at;
        let key = name.into_key()?;
        let part = part_mut(&mut self.parts, self.bits, hash);
        match insert(part, key, hash, value, At { now, step }) {
            Ok(()) => {
                self.moment = now;
                self.step = step;
                Ok(())
            }
            Err(refused) => Err(refused),
        }
    }

    /// Inserts like `insert_with_hash`, with its errors, under a key that is named and equals no other. A key that is held and equal stays,
    /// and is shared by the notice of what the value replaces, so that no key is made.
    /// ```
    /// let hash = cache.hash(&name);
    /// cache.insert_named(ClonedKey { key: &name, alloc }, hash, value, at)?;
    /// ```
    pub fn insert_named<Q: IntoKey<Shared<K>>>(
        &mut self,
        name: Q,
        hash: u64,
        value: V,
        at: At,
    ) -> Result<(), CacheError>
    where
        K: Drop,
        V: Drop,
        requires hashed { hash
            ≡ hash_in ⟦<R as HasWays<K, V, S>>⟧.ways self.old (Q.named_key name) }
        requires name { Q.can_become name × IsNamedAlone K.eq (Q.named_key name) }
        requires follows { ComesAfter at.now at.step self.old }
        ensures inserts { OnOk result (InsertsIn ⟦<R as HasWays<K, V, S>>⟧.ways
            (Q.named_key name) value at self.old self.new) }
        ensures err { OnErr result (self.new ≡ self.old) }
        ensures cause { IfErr result
            (IsCauseIn ⟦<R as HasWays<K, V, S>>⟧.ways (λ _. 1) self.old (Q.named_key name)) }
    {
        let At { now, step } = at;
        let part = part_mut(&mut self.parts, self.bits, hash);
        match insert_by_name(part, name, hash, value, At { now, step }) {
            Ok(()) => {
                self.moment = now;
                self.step = step;
                Ok(())
            }
            Err(refused) => Err(refused),
        }
    }

    /// Removes a key, whether its deadline has come or not, and returns its value, or `None` if nothing is held under it. The removal is
    /// reported as `Expired` if the deadline has come, otherwise as `Explicit`. The count of requests for the key is kept. Returns
    /// `OutOfMemory` if there is not enough memory, and `UsedUp` if the 64-bit numbers of writes are used up; then nothing has changed.
    /// ```
    /// let last = cache.remove(&7, at)?;
    /// ```
    pub fn remove(&mut self, key: &K, at: At) -> Result<Option<V>, CacheError>
    where
        K: Drop,
        V: Clone + Drop,
        requires exact { (x y : V) → V.is_clone x y → y ≡ x }
        requires follows { ComesAfter at.now at.step self.old }
        ensures value { IfOk result
            (λ value. value ≡ held_value_in ⟦<R as HasWays<K, V, S>>⟧.ways self.old key.now) }
        ensures takes_out { OnOk result
            (TakesOutIn ⟦<R as HasWays<K, V, S>>⟧.ways key.now at self.old self.new) }
        ensures err { OnErr result (self.new ≡ self.old) }
        ensures cause { IfErr result
            (IsCauseIn ⟦<R as HasWays<K, V, S>>⟧.ways removal_rooms self.old key.now) }
    {
        self.remove_by_name(&LentKey { key }, at)
    }

    /// Removes a key, whether its deadline has come or not. Like `remove`, without cloning the value. Returns `OutOfMemory` if there is not
    /// enough memory, and `UsedUp` if the 64-bit numbers of writes are used up; then nothing has changed.
    /// ```
    /// cache.invalidate(&7, at)?;
    /// ```
    pub fn invalidate(&mut self, key: &K, at: At) -> Result<(), CacheError>
    where
        K: Drop,
        V: Clone + Drop,
        requires exact { (x y : V) → V.is_clone x y → y ≡ x }
        requires follows { ComesAfter at.now at.step self.old }
        ensures takes_out { OnOk result
            (TakesOutIn ⟦<R as HasWays<K, V, S>>⟧.ways key.now at self.old self.new) }
        ensures err { OnErr result (self.new ≡ self.old) }
        ensures cause { IfErr result
            (IsCauseIn ⟦<R as HasWays<K, V, S>>⟧.ways removal_rooms self.old key.now) }
    {
        self.invalidate_by_name(&LentKey { key }, at)
    }

    /// Like `invalidate`, with the hash of the key. Returns the errors of `invalidate`.
    /// ```
    /// let hash = cache.hash(&7);
    /// cache.invalidate_with_hash(&7, hash, at)?;
    /// ```
    pub fn invalidate_with_hash(&mut self, key: &K, hash: u64, at: At) -> Result<(), CacheError>
    where
        K: Drop,
        V: Clone + Drop,
        requires hashed { hash ≡ hash_in ⟦<R as HasWays<K, V, S>>⟧.ways self.old key.now }
        requires exact { (x y : V) → V.is_clone x y → y ≡ x }
        requires follows { ComesAfter at.now at.step self.old }
        ensures takes_out { OnOk result
            (TakesOutIn ⟦<R as HasWays<K, V, S>>⟧.ways key.now at self.old self.new) }
        ensures err { OnErr result (self.new ≡ self.old) }
        ensures cause { IfErr result
            (IsCauseIn ⟦<R as HasWays<K, V, S>>⟧.ways removal_rooms self.old key.now) }
    {
        self.invalidate_named(&LentKey { key }, hash, at)
    }

    /// Returns the visible value of a key, which counts as a use of it, and false; or else what `make` makes, and true: a value is then
    /// inserted. A visible value for which `replace_if` returns true counts as none. Closures run before anything changes, and the key is
    /// made only if a value is inserted. Returns `OutOfMemory` if `make` or another allocation fails, and `UsedUp` if the 64-bit numbers of
    /// writes are used up; then nothing has changed. The calls that make a value, such as `get_with`, and the selectors are implemented
    /// with it.
    /// ```
    /// let hash = cache.hash(&7);
    /// let name = OwnedKey { key: 7, alloc };
    /// let (made, is_fresh) = cache.coalesce(name, hash, at, |_| false, || Ok(Made::Value(49)))?;
    /// ```
    pub fn coalesce<
        F: Drop,
        Q: IntoKey<Shared<K>>,
        P: FnOnce(&V) -> bool + Drop,
        M: FnOnce() -> Result<Made<V, F>, AllocError> + Drop,
    >(
        &mut self,
        name: Q,
        hash: u64,
        at: At,
        replace_if: P,
        make: M,
    ) -> Result<(Made<V, F>, bool), CacheError>
    where
        K: Drop,
        V: Clone + Drop,
        requires hashed { hash
            ≡ hash_in ⟦<R as HasWays<K, V, S>>⟧.ways self.old (Q.named_key name) }
        requires becomes { Q.can_become name }
        requires exact { (x y : V) → V.is_clone x y → y ≡ x }
        requires callable { P.IsAlwaysCallable replace_if × M.IsAlwaysCallable make }
        requires follows { ComesAfter at.now at.step self.old }
        ensures answer { IfOk result (CoalescesBy ⟦<R as HasWays<K, V, S>>⟧.ways (Q.named_key name)
            at (FnOnceReturnsAt P.FnOnce replace_if) (M.post make) self.old self.new) }
        ensures err { OnErr result (self.new ≡ self.old) }
        ensures cause { IfErr result
            (IsCauseIn ⟦<R as HasWays<K, V, S>>⟧.ways (λ _. 1) self.old (Q.named_key name)) }
    {
        let At { now, step } = at;
        let part = part_mut(&mut self.parts, self.bits, hash);
        match coalesce(part, name, hash, At { now, step }, replace_if, make) {
            Ok(answer) => {
                self.moment = now;
                self.step = step;
                Ok(answer)
            }
            Err(refused) => Err(refused),
        }
    }

    /// Calls a closure with the visible value of a key, and does what it decides, after the look-up's read is noted. If the closure fails,
    /// its error is returned, and only that read is noted. The closure runs before anything changes, and the key is made only if a value is
    /// put. `and_compute_with` and similar calls are implemented with it. Returns `OutOfMemory` if there is not enough memory, and `UsedUp`
    /// if the 64-bit numbers of writes are used up; then nothing has changed.
    /// ```
    /// let hash = cache.hash(&7);
    /// let name = OwnedKey { key: 7, alloc };
    /// let done = cache.compute(name, hash, at, |seen| match seen {
    ///     Some(_) => Ok(Op::Remove),
    ///     None => Err("there is none"),
    /// })?;
    /// ```
    pub fn compute<E: Drop, Q: IntoKey<Shared<K>>, D: FnOnce(Option<V>) -> Result<Op<V>, E> + Drop>(
        &mut self,
        name: Q,
        hash: u64,
        at: At,
        decide: D,
    ) -> Result<Result<Computed<V>, E>, CacheError>
    where
        K: Drop,
        V: Clone + Drop,
        requires hashed { hash
            ≡ hash_in ⟦<R as HasWays<K, V, S>>⟧.ways self.old (Q.named_key name) }
        requires becomes { Q.can_become name }
        requires exact { (x y : V) → V.is_clone x y → y ≡ x }
        requires callable { D.IsAlwaysCallable decide }
        requires follows { ComesAfter at.now at.step self.old }
        ensures computes { IfOk result (ComputesIn ⟦<R as HasWays<K, V, S>>⟧.ways
            (Q.named_key name) at (D.post decide) self.old self.new) }
        ensures err { OnErr result (self.new ≡ self.old) }
        ensures cause { IfErr result
            (IsCauseIn ⟦<R as HasWays<K, V, S>>⟧.ways removal_rooms self.old (Q.named_key name)) }
    {
        let At { now, step } = at;
        let part = part_mut(&mut self.parts, self.bits, hash);
        match compute(part, name, hash, At { now, step }, decide) {
            Ok(answer) => {
                self.moment = now;
                self.step = step;
                Ok(answer)
            }
            Err(refused) => Err(refused),
        }
    }

    /// Runs the maintenance of each part to its end, after which the counts are exact. The runs remove what has expired or was invalidated,
    /// and then the least useful values until each segment is within its share. Other calls run maintenance when it is due, so a program
    /// needs this one only for exact counts, or to get notices and free memory without further calls.
    /// ```
    /// cache.run_pending_tasks(at);
    /// let exact = cache.entry_count();
    /// ```
    pub fn run_pending_tasks(&mut self, at: At)
    where
        K: Drop,
        V: Drop,
        requires { ComesAfter at.now at.step self.old }
        ensures { CallsAll at.now at.step (RunsPart R.answers at.now) self.old self.new }
    {
        let At { now, step } = at;
        run_all(&mut self.parts, now);
        self.moment = now;
        self.step = step;
    }

    /// Does what `run_pending_tasks` does, and returns an error if a part had no memory for the table in which TinyLFU counts requests.
    /// The runs are complete without it, and the next run tries again.
    /// ```
    /// let counts_requests = cache.try_run_pending_tasks(at).is_ok();
    /// ```
    pub fn try_run_pending_tasks(&mut self, at: At) -> Result<(), AllocError>
    where
        K: Drop,
        V: Drop,
        requires { ComesAfter at.now at.step self.old }
        ensures runs { CallsAll at.now at.step (RunsPart R.answers at.now) self.old self.new }
        ensures made { OnOk result (list_any (λ s. s.table_refused) self.new.parts ≡ false) }
        ensures refused { OnErr result (list_any (λ s. s.table_refused) self.new.parts ≡ true) }
    {
        self.run_pending_tasks(at);
        if is_table_refused(self.parts.as_slice()) {
            return Err(AllocError);
        }
        Ok(())
    }

    /// Invalidates every value that was written at an earlier step. The call needs a later step than any call before. The values are
    /// invisible at once; runs remove them later, and report them as `Explicit`. The call allocates nothing and looks at no record.
    /// ```
    /// cache.invalidate_all(at);
    /// ```
    pub fn invalidate_all(&mut self, at: At)
        requires follows { ComesAfter at.now at.step self.old }
        requires rises { self.old.step < at.step }
        ensures { CallsAll at.now at.step (λ s t. t ≡ cleared_by at.step s) self.old self.new }
    {
        let At { now, step } = at;
        clear_all(&mut self.parts, step);
        self.moment = now;
        self.step = step;
    }
}
