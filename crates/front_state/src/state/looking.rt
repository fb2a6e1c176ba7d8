//! Look-ups that make no clone, and so take no memory.
ghost use Rattle.std.specs.Prelude.{◌≡◌, ◌≤◌, IfOk, true, IfSome, OnOk, OnErr, option_map};
ghost use Rattle.front_reference.specs.Wholes.{visible_number};
ghost use Rattle.front_parts.specs.Places.Calls.{LooksUpIn, hash_in, held_key_in, visible_in};
ghost use Rattle.front_parts.specs.Showing.{IsShown};

use crate::state::LentState;
use crate::state::parts::{part_mut, part_ref};
use engine_reference::{Hashes, Rules};
use front_parts::{HasWays, count_visible};
use front_reference::{LentKey, Shared};
use policy_base::Instant;
use std::alloc::AllocError;
use std::hash::{BuildHasher, Hash};

impl<K: Eq + Hash, V, S: BuildHasher, R: Rules<K, V>, C> LentState<K, V, S, R, C> {
    /// Returns the visible value of a key, lent, or `None`. The call does not count as a use of the value.
    /// ```
    /// let length = cache.peek(&7, now).map(|text| text.len());
    /// ```
    pub fn peek(&self, key: &K, now: Instant) -> Option<&V>
        ensures { option_map (λ value. value.now) result
            ≡ visible_in ⟦<R as HasWays<K, V, S>>⟧.ways self.now now key.now }
    {
        let hash = self.hasher.hash_key(key);
        let part = part_ref(&self.parts, self.bits, hash);
        part.peek(&LentKey { key }, hash, now)
    }

    /// Returns the key that is held and equal to this one, shared with the cache, whether its value is visible or not, or `None` if none is
    /// held. The call does not count as a use of the value. Returns an error if the key cannot be shared once more.
    /// ```
    /// let held = cache.held_key(&7, cache.hash(&7))?;
    /// ```
    pub fn held_key(&self, key: &K, hash: u64) -> Result<Option<Shared<K>>, AllocError>
    where
        K: Drop,
        requires hashed { hash ≡ hash_in ⟦<R as HasWays<K, V, S>>⟧.ways self.now key.now }
        ensures found { IfOk result
            (λ found. found ≡ held_key_in ⟦<R as HasWays<K, V, S>>⟧.ways self.now key.now) }
        ensures equal { IfOk result (λ found. IfSome found (λ held. K.eq key.now held ≡ true)) }
    {
        let part = part_ref(&self.parts, self.bits, hash);
        part.get_key_with_hash(&LentKey { key }, hash)
    }

    /// Returns how many keys have a visible value, up to 2^64 - 1. The call counts as a use of no value, allocates nothing, and looks at
    /// every record.
    /// ```
    /// let number = cache.count_visible(now);
    /// ```
    pub fn count_visible(&self, now: Instant) -> usize
        ensures { result ≡ visible_number R.answers K.eq now self.now.parts }
    {
        count_visible(self.parts.as_slice(), now)
    }

    /// Looks a key up without a clone: `see` is passed the visible value, if there is one, and the value behind `output`. If `see` returns
    /// `Ok`, the call is a use of the value, or a miss that is counted; if `see` returns `Err`, nothing has changed. The step of the cache
    /// stays as it was. The key is hashed once, and searched for once.
    /// ```
    /// cache.look_up(&7, now, &mut lengths, |found, lengths| match found {
    ///     Some(text) => lengths.push(text.len()),
    ///     None => Ok(()),
    /// })?;
    /// ```
    pub fn look_up<O, T, E, F: FnOnce(Option<&V>, &mut O) -> Result<T, E> + Drop>(
        &mut self,
        key: &K,
        now: Instant,
        output: &mut O,
        see: F,
    ) -> Result<T, E>
    where
        K: Drop,
        V: Drop,
        requires later { self.old.moment ≤ now }
        requires callable { F.IsAlwaysCallable see }
        ensures shown { IsShown F.FnOnce see (visible_in ⟦<R as HasWays<K, V, S>>⟧.ways self.old now
            key.now) output.old result output.new }
        ensures used { OnOk result
            (LooksUpIn ⟦<R as HasWays<K, V, S>>⟧.ways key.now
            (record { now = now; step = self.old.step }) self.old self.new) }
        ensures err { OnErr result (self.new ≡ self.old) }
    {
        let hash = self.hasher.hash_key(key);
        self.look_up_with_hash(key, hash, now, output, see)
    }

    /// Like `look_up`, with the hash of the key. Returns the errors of `see`.
    /// ```
    /// let hash = cache.hash(&7);
    /// cache.look_up_with_hash(&7, hash, now, &mut lengths, |found, lengths| match found {
    ///     Some(text) => lengths.push(text.len()),
    ///     None => Ok(()),
    /// })?;
    /// ```
    pub fn look_up_with_hash<O, T, E, F: FnOnce(Option<&V>, &mut O) -> Result<T, E> + Drop>(
        &mut self,
        key: &K,
        hash: u64,
        now: Instant,
        output: &mut O,
        see: F,
    ) -> Result<T, E>
    where
        K: Drop,
        V: Drop,
        requires hashed { hash ≡ hash_in ⟦<R as HasWays<K, V, S>>⟧.ways self.old key.now }
        requires later { self.old.moment ≤ now }
        requires callable { F.IsAlwaysCallable see }
        ensures shown { IsShown F.FnOnce see (visible_in ⟦<R as HasWays<K, V, S>>⟧.ways self.old now
            key.now) output.old result output.new }
        ensures used { OnOk result
            (LooksUpIn ⟦<R as HasWays<K, V, S>>⟧.ways key.now
            (record { now = now; step = self.old.step }) self.old self.new) }
        ensures err { OnErr result (self.new ≡ self.old) }
    {
        let part = part_mut(&mut self.parts, self.bits, hash);
        match part.look_up_with_hash(&LentKey { key }, hash, now, output, see) {
            Ok(answer) => {
                self.moment = now;
                Ok(answer)
            }
            Err(error) => Err(error),
        }
    }
}
