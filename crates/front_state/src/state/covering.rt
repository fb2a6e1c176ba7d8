//! Calls on all parts of a cache: predicates, notices, the iterator; and the part of a key.
ghost use Rattle.std.specs.Prelude.{◌≡◌, ◌≢◌, ◌<◌, ℕ, true, false, IfOk, IfErr, OnOk, OnErr, length};
ghost use Rattle.std.specs.Result.{IsErrOf};
ghost use Rattle.std.specs.String.{string_bytes};
ghost use Rattle.front_reference.specs.Fronts.{ComesAfter, part_of};
ghost use Rattle.front_reference.specs.Wholes.{next_told, without_told};
ghost use Rattle.front_parts.specs.Places.Told.{told_at, without_told_at};
ghost use Rattle.front_parts.specs.Places.Calls.{IsSteadyBy, hash_in, visible_in};
ghost use Rattle.front_reference.specs.declared.errors.CacheError.TheVariants as errors;
ghost use Rattle.front_state.specs.Covering.{CoversAll, GivesVisible, IsCauseToCover, keys_of_part};
ghost use Rattle.front_parts.specs.Wholes.Covering.{id_text};

use crate::state::parts::part_ref;
use crate::state::{LentState, PredicateId, Segmented, Single};
use engine_reference::{Hashes, Rules};
use front_parts::{
    HasWays, Iter, Notice, ScanningGet, clone_each, cover_all, keys_at, next_notice,
    next_notice_at, place_of, write_id,
};
use front_reference::{At, CacheError, LentKey, Shared};
use policy_base::Instant;
use rand_core::Rng;
use std::alloc::AllocError;
use std::hash::{BuildHasher, Hash};

impl<K: Eq + Hash, V, S: BuildHasher, R: Rules<K, V>, C> LentState<K, V, S, R, C> {
    /// Returns the part that a key belongs to, by the upper bits of its hash.
    /// ```
    /// let segment = cache.part(&7);
    /// ```
    pub fn part(&self, key: &K) -> usize
        ensures part { result
            ≡ part_of self.now.bits (hash_in ⟦<R as HasWays<K, V, S>>⟧.ways self.now key.now) }
        ensures within { result < length self.now.parts }
    {
        let hash = self.hasher.hash_key(key);
        self.part_with_hash(hash)
    }

    /// Returns the part that the keys with this hash belong to, by the upper bits of the hash.
    /// ```
    /// let hash = cache.hash(&7);
    /// let segment = cache.part_with_hash(hash);
    /// ```
    pub fn part_with_hash(&self, hash: u64) -> usize
        ensures part { result ≡ part_of self.now.bits hash }
        ensures within { result < length self.now.parts }
    {
        place_of(self.bits, hash)
    }

    /// Does nothing. Its contract says what a cache keeps between its calls, for laws that build on it.
    /// ```
    /// cache.keeps();
    /// ```
    pub fn keeps(&self)
        ensures { ∥ IsSteadyBy ⟦<R as HasWays<K, V, S>>⟧.ways self.now ∥₁ }
    {
        let _step = self.step;
    }

    /// Takes the oldest notice of the first part that has one, or returns `None` if none has. A cache has notices only if its builder
    /// called `eviction_listener`. A removal is reported when it happens; expired, invalidated and evicted values are removed by runs, and
    /// so later than they became invisible. Notices are kept until they are taken.
    /// ```
    /// while let Some(notice) = cache.next_notice() {
    ///     log(&notice.key, notice.cause);
    /// }
    /// ```
    pub fn next_notice(&mut self) -> Option<Notice<Shared<K>, V>>
        ensures notice { result ≡ next_told self.old.parts }
        ensures taken { self.new ≡ record self.old { parts = without_told self.old.parts } }
    {
        next_notice(&mut self.parts)
    }

    /// Takes the oldest notice of a part, or returns `None` if it has none or there is no such part. After a call on one key only its part
    /// may have further notices.
    /// ```
    /// let segment = cache.part(&7);
    /// while let Some(notice) = cache.next_notice_of_part(segment) {
    ///     log(&notice.key, notice.cause);
    /// }
    /// ```
    pub fn next_notice_of_part(&mut self, part: usize) -> Option<Notice<Shared<K>, V>>
        ensures notice { result ≡ told_at part self.old.parts }
        ensures taken { self.new ≡ record self.old { parts = without_told_at part self.old.parts } }
    {
        next_notice_at(&mut self.parts, part)
    }

    /// Registers a predicate in all parts, or in none if it is refused. It covers what was written at earlier steps, so it needs a later
    /// step than any call before. Returns the identifier of the first part.
    fn cover<G: Rng>(
        &mut self,
        predicate: R::Predicate,
        generator: &mut G,
        at: At,
    ) -> Result<u128, CacheError>
        requires follows { ComesAfter at.now at.step self.old }
        requires rises { self.old.step < at.step }
        requires takes { self.old.common.settings.takes_predicates ≡ true }
        ensures covers { IfOk result (λ id. CoversAll predicate at (G.stream generator.old)
            (G.stream generator.new) id self.old self.new) }
        ensures err { OnErr result (self.new ≡ self.old) }
        ensures cause { IfErr result
            (IsCauseToCover self.old (G.stream generator.old) (G.stream generator.new)) }
        ensures undrawn { IfErr result (λ e. e ≢ errors.IdsInUse → generator.new ≡ generator.old) }
    {
        let At { now, step } = at;
        let count = self.parts.len();
        let shared = Shared::new(self.alloc, predicate)?;
        let clones = clone_each(self.alloc, count, &shared)?;
        match cover_all(self.alloc, &mut self.parts, clones, generator, step) {
            Ok(id) => {
                self.moment = now;
                self.step = step;
                Ok(id)
            }
            Err(refused) => Err(refused),
        }
    }
}

impl<K: Eq + Hash, V, S: BuildHasher, R: Rules<K, V>> LentState<K, V, S, R, Single> {
    /// Invalidates the values of earlier steps for which the predicate returns true, in all parts or, if it is refused, in none. The call
    /// needs a later step than any call before. An identifier is drawn for each part, and that of the first one is returned, hyphenated and
    /// in lower case, 36 bytes. A cache that was not built to accept predicates returns `InvalidationClosuresDisabled`, before any other
    /// error. Returns `OutOfMemory` if there is not enough memory and `UsedUp` if the 64-bit numbers of writes of a part are used up, and
    /// then has drawn nothing; or `IdsInUse` if each of a thousand identifiers that were drawn for a part is registered there. After each
    /// error the cache is as before.
    /// ```
    /// let id = cache.invalidate_entries_if(OlderThan(30), &mut generator, at)?;
    /// ```
    pub fn invalidate_entries_if<G: Rng>(
        &mut self,
        predicate: R::Predicate,
        generator: &mut G,
        at: At,
    ) -> Result<PredicateId, CacheError>
        requires follows { ComesAfter at.now at.step self.old }
        requires rises { self.old.step < at.step }
        ensures covers { IfOk result
            (λ text. (id : ℕ) × (string_bytes text ≡ id_text id) × CoversAll predicate at
            (G.stream generator.old) (G.stream generator.new) id self.old self.new) }
        ensures takes { OnOk result (self.old.common.settings.takes_predicates ≡ true) }
        ensures first { self.old.common.settings.takes_predicates ≡ false
            → IsErrOf result errors.InvalidationClosuresDisabled }
        ensures err { OnErr result (self.new ≡ self.old) }
        ensures cause { IfErr result
            (IsCauseToCover self.old (G.stream generator.old) (G.stream generator.new)) }
        ensures undrawn { IfErr result (λ e. e ≢ errors.IdsInUse → generator.new ≡ generator.old) }
    {
        if !self.settings.takes_predicates {
            return Err(CacheError::InvalidationClosuresDisabled);
        }
        let mut text = String::with_capacity(self.alloc, 36)?;
        let id = self.cover(predicate, generator, at)?;
        write_id(&mut text, id);
        Ok(text)
    }
}

impl<K: Eq + Hash, V, S: BuildHasher, R: Rules<K, V>> LentState<K, V, S, R, Segmented> {
    /// Invalidates the values of earlier steps for which the predicate returns true, in all segments or, if it is refused, in none. The
    /// call needs a later step than any call before, and an identifier is drawn for each segment. A cache that was not built to accept
    /// predicates returns `InvalidationClosuresDisabled`, before any other error. Returns `OutOfMemory` if there is not enough memory and
    /// `UsedUp` if the 64-bit numbers of writes of a segment are used up, and then has drawn nothing; or `IdsInUse` if each of a thousand
    /// identifiers that were drawn for a segment is registered there. After each error the cache is as before. (`moka` may stop halfway
    /// over the segments.)
    /// ```
    /// cache.invalidate_entries_if(OlderThan(30), &mut generator, at)?;
    /// ```
    pub fn invalidate_entries_if<G: Rng>(
        &mut self,
        predicate: R::Predicate,
        generator: &mut G,
        at: At,
    ) -> Result<(), CacheError>
        requires follows { ComesAfter at.now at.step self.old }
        requires rises { self.old.step < at.step }
        ensures covers { OnOk result ((id : ℕ) × CoversAll predicate at (G.stream generator.old)
            (G.stream generator.new) id self.old self.new) }
        ensures takes { OnOk result (self.old.common.settings.takes_predicates ≡ true) }
        ensures first { self.old.common.settings.takes_predicates ≡ false
            → IsErrOf result errors.InvalidationClosuresDisabled }
        ensures err { OnErr result (self.new ≡ self.old) }
        ensures cause { IfErr result
            (IsCauseToCover self.old (G.stream generator.old) (G.stream generator.new)) }
        ensures undrawn { IfErr result (λ e. e ≢ errors.IdsInUse → generator.new ≡ generator.old) }
    {
        if !self.settings.takes_predicates {
            return Err(CacheError::InvalidationClosuresDisabled);
        }
        let _id = self.cover(predicate, generator, at)?;
        Ok(())
    }
}

impl<K: Eq + Hash + Drop, V: Clone, S: BuildHasher, R: Rules<K, V>, C> ScanningGet<Shared<K>, V>
    for LentState<K, V, S, R, C> {
    ghost segments = { λ f. length f.parts };

    ghost keys_in = { keys_of_part };

    ghost value_of = { λ f now key. visible_in ⟦<R as HasWays<K, V, S>>⟧.ways f now key };

    ghost can_scan = { λ _. (x y : V) → V.is_clone x y → y ≡ x };

    fn num_cht_segments(&self) -> usize {
        self.parts.len()
    }

    fn scanning_get(&self, key: &Shared<K>, now: Instant) -> Result<Option<V>, AllocError> {
        let key = &**key;
        let hash = self.hasher.hash_key(key);
        let part = part_ref(&self.parts, self.bits, hash);
        part.get_with_hash_without_recording(&LentKey { key }, hash, now)
    }

    fn keys(&self, segment: usize) -> Result<Option<Vec<Shared<K>>>, AllocError> {
        keys_at(self.parts.as_slice(), segment)
    }
}

impl<K: Eq + Hash + Drop, V: Clone, S: BuildHasher, R: Rules<K, V>, C> LentState<K, V, S, R, C> {
    /// Returns an iterator over what is visible at a moment: each key once, with a clone of its value. The call allocates nothing, but the
    /// items do; no item counts as a use. The keys of one segment are cloned at a time, in an unspecified order, and a value that is
    /// removed before its turn is not returned.
    /// ```
    /// for pair in cache.iter(now) {
    ///     let (key, value) = pair?;
    ///     show(&key, value);
    /// }
    /// ```
    pub fn iter(&self, now: Instant) -> Iter<'_, Shared<K>, V, LentState<K, V, S, R, C>>
        ensures source { result.source ≡ self.now }
        ensures now { result.now ≡ now }
        ensures coming { GivesVisible ⟦<R as HasWays<K, V, S>>⟧.ways now self.now result.coming }
    {
        Iter::new(self.alloc, self, now)
    }
}
