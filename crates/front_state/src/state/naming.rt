//! Calls by what names a key, which make no key and so take no memory for one.
ghost use Rattle.std.specs.Prelude.{◌≡◌, ◌<◌, ◌^◌, IfOk, IfErr, OnOk, OnErr, is_some, length, IsUtf8};
ghost use Rattle.engine_reference.specs.Calls.{removal_rooms};
ghost use Rattle.engine_reference.specs.Rules.Hashing.{hash_of_key};
ghost use Rattle.front_parts.specs.Places.Calls.{IsCauseIn, LooksUpIn, TakesOutIn, hash_in, held_value_in, visible_in};
ghost use Rattle.front_reference.specs.Fronts.{ComesAfter};
ghost use Rattle.front_reference.specs.declared.errors.CacheError.TheVariants as errors;
ghost use Rattle.front_state.specs.Naming.{bytes_key, text_key};

use crate::state::LentState;
use crate::state::parts::{part_mut, part_ref};
use engine_reference::{Hashes, Names, Rules};
use front_parts::{HasWays, invalidate, remove};
use front_reference::{At, CacheError, LentKey, Shared};
use policy_base::Instant;
use std::hash::{BuildHasher, Hash};

/// A name of a key, which hashes as that key does, so that a call by a name makes no key. A `TextName` names a `String`, a `BytesName` a
/// `Vec<u8>`, and a `LentKey` the key that it lends.
pub trait HashedName<K: Eq + Hash>: Names<Shared<K>> {
    /// Returns the hash of the key that the name stands for.
    fn hash_name<S: BuildHasher>(&self, hasher: &S) -> u64
        ensures { result ≡ hash_of_key S.Hasher.finish S.Hasher.write S.build_hasher K.hash_input
            hasher.now (Self.named_key self.now) };
}

impl<'a, K: Eq + Hash> HashedName<K> for LentKey<'a, K> {
    fn hash_name<S: BuildHasher>(&self, hasher: &S) -> u64 {
        hasher.hash_key(self.key)
    }
}

/// The name of the `String` with this text.
#[derive(Clone, Copy)]
pub struct TextName<'a> {
    text: &'a str,
    ghost is_short: { length text.now < 2 ^ 63 },
    ghost is_text: { ∥ IsUtf8 text.now ∥₁ },
}

impl<'a> TextName<'a> {
    /// Creates the name of a text.
    pub fn new(text: &'a str) -> Self
        ensures { result.text.now ≡ text.now }
    {
        TextName { text }
    }
}

impl<'a> Names<Shared<String>> for TextName<'a> {
    ghost use Rattle.front_state.specs.Naming.{text_key};

    ghost named_key = { λ name. text_key name.text.now name.is_short name.is_text };

    fn is_name_of(&self, key: &Shared<String>) -> bool {
        self.text == key.as_str()
    }
}

impl<'a> HashedName<String> for TextName<'a> {
    fn hash_name<S: BuildHasher>(&self, hasher: &S) -> u64 {
        hasher.hash_key(&self.text)
    }
}

/// The name of the `Vec<u8>` with these bytes.
#[derive(Clone, Copy)]
pub struct BytesName<'a> {
    bytes: &'a [u8],
    ghost is_short: { length bytes.now < 2 ^ 63 },
}

impl<'a> BytesName<'a> {
    /// Creates the name of a list of bytes.
    pub fn new(bytes: &'a [u8]) -> Self
        ensures { result.bytes.now ≡ bytes.now }
    {
        BytesName { bytes }
    }
}

impl<'a> Names<Shared<Vec<u8>>> for BytesName<'a> {
    ghost use Rattle.front_state.specs.Naming.{bytes_key};

    ghost named_key = { λ name. bytes_key name.bytes.now name.is_short };

    fn is_name_of(&self, key: &Shared<Vec<u8>>) -> bool {
        self.bytes == key.as_slice()
    }
}

impl<'a> HashedName<Vec<u8>> for BytesName<'a> {
    fn hash_name<S: BuildHasher>(&self, hasher: &S) -> u64 {
        hasher.hash_key(&self.bytes)
    }
}

impl<K: Eq + Hash, V, S: BuildHasher, R: Rules<K, V>, C> LentState<K, V, S, R, C> {
    /// Like `get`, by what names the key. Returns `OutOfMemory` if there is no memory for the clone; then nothing has changed.
    /// ```
    /// let price = cache.get_by_name(&TextName::new("pear"), at)?;
    /// ```
    pub fn get_by_name<Q: HashedName<K>>(
        &mut self,
        name: &Q,
        at: At,
    ) -> Result<Option<V>, CacheError>
    where
        K: Drop,
        V: Clone + Drop,
        requires exact { (x y : V) → V.is_clone x y → y ≡ x }
        requires follows { ComesAfter at.now at.step self.old }
        ensures found { IfOk result (λ found. found ≡ visible_in ⟦<R as HasWays<K, V, S>>⟧.ways
            self.old at.now (Q.named_key name.now)) }
        ensures used { OnOk result (LooksUpIn ⟦<R as HasWays<K, V, S>>⟧.ways
            (Q.named_key name.now) at self.old self.new) }
        ensures err { OnErr result (self.new ≡ self.old) }
        ensures cause { IfErr result (λ e. e ≡ errors.OutOfMemory) }
    {
        let At { now, step } = at;
        let hash = name.hash_name(&self.hasher);
        let part = part_mut(&mut self.parts, self.bits, hash);
        let found = part.get_with_hash(name, hash, now)?;
        self.moment = now;
        self.step = step;
        Ok(found)
    }

    /// Like `contains_key`, by what names the key.
    /// ```
    /// let is_known = cache.contains_key_by_name(&TextName::new("pear"), at.now);
    /// ```
    pub fn contains_key_by_name<Q: HashedName<K>>(&self, name: &Q, now: Instant) -> bool
        ensures { result ≡ is_some (visible_in ⟦<R as HasWays<K, V, S>>⟧.ways self.now now
            (Q.named_key name.now)) }
    {
        let hash = name.hash_name(&self.hasher);
        let part = part_ref(&self.parts, self.bits, hash);
        part.contains_key_with_hash(name, hash, now)
    }

    /// Like `remove`, by what names the key. Returns `OutOfMemory` if there is not enough memory, and `UsedUp` if the 64-bit numbers of
    /// writes are used up; then nothing has changed.
    /// ```
    /// let last = cache.remove_by_name(&TextName::new("pear"), at)?;
    /// ```
    pub fn remove_by_name<Q: HashedName<K>>(
        &mut self,
        name: &Q,
        at: At,
    ) -> Result<Option<V>, CacheError>
    where
        K: Drop,
        V: Clone + Drop,
        requires exact { (x y : V) → V.is_clone x y → y ≡ x }
        requires follows { ComesAfter at.now at.step self.old }
        ensures value { IfOk result (λ value. value ≡ held_value_in
            ⟦<R as HasWays<K, V, S>>⟧.ways self.old (Q.named_key name.now)) }
        ensures takes_out { OnOk result (TakesOutIn ⟦<R as HasWays<K, V, S>>⟧.ways
            (Q.named_key name.now) at self.old self.new) }
        ensures err { OnErr result (self.new ≡ self.old) }
        ensures cause { IfErr result (IsCauseIn ⟦<R as HasWays<K, V, S>>⟧.ways removal_rooms
            self.old (Q.named_key name.now)) }
    {
        let At { now, step } = at;
        let hash = name.hash_name(&self.hasher);
        let part = part_mut(&mut self.parts, self.bits, hash);
        match remove(part, name, hash, now) {
            Ok(value) => {
                self.moment = now;
                self.step = step;
                Ok(value)
            }
            Err(refused) => Err(refused),
        }
    }

    /// Like `invalidate`, by what names the key. Returns `OutOfMemory` if there is not enough memory, and `UsedUp` if the 64-bit numbers of
    /// writes are used up; then nothing has changed.
    /// ```
    /// cache.invalidate_by_name(&TextName::new("pear"), at)?;
    /// ```
    pub fn invalidate_by_name<Q: HashedName<K>>(
        &mut self,
        name: &Q,
        at: At,
    ) -> Result<(), CacheError>
    where
        K: Drop,
        V: Clone + Drop,
        requires exact { (x y : V) → V.is_clone x y → y ≡ x }
        requires follows { ComesAfter at.now at.step self.old }
        ensures takes_out { OnOk result (TakesOutIn ⟦<R as HasWays<K, V, S>>⟧.ways
            (Q.named_key name.now) at self.old self.new) }
        ensures err { OnErr result (self.new ≡ self.old) }
        ensures cause { IfErr result (IsCauseIn ⟦<R as HasWays<K, V, S>>⟧.ways removal_rooms
            self.old (Q.named_key name.now)) }
    {
        let hash = name.hash_name(&self.hasher);
        self.invalidate_named(name, hash, at)
    }

    /// Like `invalidate_by_name`, with the hash of the key.
    pub(crate) fn invalidate_named<Q: Names<Shared<K>>>(
        &mut self,
        name: &Q,
        hash: u64,
        at: At,
    ) -> Result<(), CacheError>
    where
        K: Drop,
        V: Clone + Drop,
        requires hashed { hash ≡ hash_in ⟦<R as HasWays<K, V, S>>⟧.ways
            self.old (Q.named_key name.now) }
        requires exact { (x y : V) → V.is_clone x y → y ≡ x }
        requires follows { ComesAfter at.now at.step self.old }
        ensures takes_out { OnOk result (TakesOutIn ⟦<R as HasWays<K, V, S>>⟧.ways
            (Q.named_key name.now) at self.old self.new) }
        ensures err { OnErr result (self.new ≡ self.old) }
        ensures cause { IfErr result (IsCauseIn ⟦<R as HasWays<K, V, S>>⟧.ways removal_rooms
            self.old (Q.named_key name.now)) }
    {
        let At { now, step } = at;
        let part = part_mut(&mut self.parts, self.bits, hash);
        match invalidate(part, name, hash, now) {
            Ok(()) => {
                self.moment = now;
                self.step = step;
                Ok(())
            }
            Err(refused) => Err(refused),
        }
    }
}
