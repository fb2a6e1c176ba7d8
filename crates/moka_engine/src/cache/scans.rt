//! What a cache holds, and a look-up that passes over values.
ghost use Rattle.std.specs.Prelude.{◌≡◌, ◌<◌, ℕ, length, Some, None, IfOk, OnErr, MatchOption, option_map};
ghost use Rattle.std.specs.Fn.{FnOnceReturnsAt};
ghost use Rattle.engine_reference.specs.Records.{held_at};
ghost use Rattle.engine_reference.specs.Visible.{visible_value};
ghost use Rattle.engine_reference.specs.Scanning.{held_keys, past, visible_keys, LooksUpPast, NotesLookUp};

use crate::cache::BaseCache;
use crate::noting::note_read;
use engine_calls::{clone_found, clone_key, clone_value, find, held, look_up, pass_over};
use engine_reference::{Hashes, Names, Rules};
use policy_base::Instant;
use std::alloc::AllocError;
use std::hash::{BuildHasher, Hash};

impl<K: Eq + Hash, V, S: BuildHasher, R: Rules<K, V>> BaseCache<K, V, S, R> {
    /// Returns the number of segments that `keys` has: one.
    pub fn num_cht_segments(&self) -> usize
        ensures { result ≡ 1 }
    {
        1
    }

    /// Returns clones of the keys of everything that is held in the segment, including expired and invalidated values, or `None` if there
    /// is no such segment. Returns an error if there is no memory for the clones.
    pub fn keys(&self, segment: usize) -> Result<Option<Vec<K>>, AllocError>
    where
        K: Clone + Drop,
        requires exact_key { (x y : K) → K.is_clone x y → y ≡ x }
        ensures { IfOk result (λ keys. MatchOption keys (0 < segment)
            (λ found. (segment ≡ 0) × (found.items ≡ held_keys self.now.records))) }
    {
        if segment > 0 {
            return Ok(None);
        }
        let found = self.tables.keys()?;
        Ok(Some(found))
    }

    /// Returns how many keys have a visible value. The call counts as a use of none; it allocates nothing, and looks at every record.
    pub fn count_visible(&self, now: Instant) -> usize
        ensures { result ≡ length (visible_keys R.answers K.eq self.now now) }
    {
        self.tables.count_visible(now.as_nanos())
    }

    /// Returns a clone of the visible value of a key, or `None`. The call does not count as a use of it. Returns an error if there is no
    /// memory for the clone.
    pub fn scanning_get(&self, key: &K, now: Instant) -> Result<Option<V>, AllocError>
    where
        V: Clone,
        requires exact { (x y : V) → V.is_clone x y → y ≡ x }
        ensures { IfOk result (λ found. found ≡ visible_value R.answers K.eq self.now now key.now) }
    {
        let hash = self.hash(key);
        self.get_with_hash_without_recording(key, hash, now)
    }

    /// Returns the visible value of a key, without a clone, or `None`. The call does not count as a use of it.
    pub fn peek<Q: Names<K>>(&self, key: &Q, hash: u64, now: Instant) -> Option<&V>
        requires hashed { hash ≡ ⟦<S as Hashes<K>>⟧.hash self.now.hasher (Q.named_key key.now) }
        ensures { option_map (λ value. value.now) result
            ≡ visible_value R.answers K.eq self.now now (Q.named_key key.now) }
    {
        match look_up(&self.tables, key, hash, now.as_nanos()) {
            Some(found) => Some(found.value()),
            None => None,
        }
    }

    /// Returns a clone of the value that is held under a key, whether it is visible or not, or `None`. The call does not count as a use of
    /// it. Returns an error if there is no memory for the clone.
    pub fn held_value_with_hash<Q: Names<K>>(
        &self,
        key: &Q,
        hash: u64,
    ) -> Result<Option<V>, AllocError>
    where
        V: Clone,
        requires hashed { hash ≡ ⟦<S as Hashes<K>>⟧.hash self.now.hasher (Q.named_key key.now) }
        requires exact { (x y : V) → V.is_clone x y → y ≡ x }
        ensures { IfOk result (λ found. found ≡ option_map (λ r. r.entry.value)
            (held_at K.eq self.now.records (Q.named_key key.now))) }
    {
        clone_value(held(&self.tables, key, hash))
    }

    /// Returns a clone of the stored key that equals a key, whether its value is visible or not, or `None`. Returns an error if there is no
    /// memory for the clone.
    pub fn get_key_with_hash<Q: Names<K>>(
        &self,
        key: &Q,
        hash: u64,
    ) -> Result<Option<K>, AllocError>
    where
        K: Clone + Drop,
        requires hashed { hash ≡ ⟦<S as Hashes<K>>⟧.hash self.now.hasher (Q.named_key key.now) }
        requires exact_key { (x y : K) → K.is_clone x y → y ≡ x }
        ensures { IfOk result (λ found. found
            ≡ option_map (λ r. r.entry.key) (held_at K.eq self.now.records (Q.named_key key.now))) }
    {
        clone_key(held(&self.tables, key, hash))
    }

    /// Returns a clone of the visible value of a key, or `None`, which counts as a use of it. A value for which `ignore_if` returns true
    /// counts as not found, and is not used; `ignore_if` is called on no other value. Returns an error if there is no memory for the clone;
    /// then nothing has changed.
    pub fn get_with_hash_and_ignore_if<Q: Names<K>, F: FnOnce(&V) -> bool + Drop>(
        &mut self,
        key: &Q,
        hash: u64,
        now: Instant,
        ignore_if: F,
    ) -> Result<Option<V>, AllocError>
    where
        K: Drop,
        V: Clone + Drop,
        requires hashed { hash ≡ ⟦<S as Hashes<K>>⟧.hash self.old.hasher (Q.named_key key.now) }
        requires exact { (x y : V) → V.is_clone x y → y ≡ x }
        requires callable { F.IsAlwaysCallable ignore_if }
        ensures found { IfOk result (LooksUpPast R.answers K.eq (Q.named_key key.now) hash now
            (FnOnceReturnsAt F.FnOnce ignore_if) self.old self.new) }
        ensures err { OnErr result (self.new ≡ self.old) }
    {
        let seen = find(&self.tables, key, hash, now.as_nanos());
        let found = pass_over(&self.tables, seen, ignore_if);
        let value = clone_found(&self.tables, found)?;
        note_read(&mut self.tables, found, hash, now);
        Ok(value)
    }

    /// Returns whether `ignore_if` returned true for the visible value of a key, which then counts as not found, and otherwise a clone of that
    /// value, which counts as a use of it. If no clone is returned, nothing has changed, and `note_look_up` is the second half of the
    /// look-up. Returns an error if there is not enough memory; then nothing has changed.
    pub fn get_with_hash_unless<Q: Names<K>, F: FnOnce(&V) -> bool + Drop>(
        &mut self,
        key: &Q,
        hash: u64,
        now: Instant,
        ignore_if: F,
    ) -> Result<(bool, Option<V>), AllocError>
    where
        K: Drop,
        V: Clone + Drop,
        requires hashed { hash ≡ ⟦<S as Hashes<K>>⟧.hash self.old.hasher (Q.named_key key.now) }
        requires exact { (x y : V) → V.is_clone x y → y ≡ x }
        requires callable { F.IsAlwaysCallable ignore_if }
        ensures asked { IfOk result (λ got. (value : V)
            → visible_value R.answers K.eq self.old now (Q.named_key key.now) ≡ Some value
            → FnOnceReturnsAt F.FnOnce ignore_if value got.0) }
        ensures found { IfOk result (λ got. got.1
            ≡ past got.0 (visible_value R.answers K.eq self.old now (Q.named_key key.now))) }
        ensures used { IfOk result (λ got. MatchOption got.1 (self.new ≡ self.old) (λ value.
            NotesLookUp R.answers K.eq (Q.named_key key.now) hash now got.0 self.old self.new)) }
        ensures err { OnErr result (self.new ≡ self.old) }
    {
        let seen = find(&self.tables, key, hash, now.as_nanos());
        match pass_over(&self.tables, seen, ignore_if) {
            Some(place) => {
                let value = self.tables.record_in(place).value().clone()?;
                note_read(&mut self.tables, Some(place), hash, now);
                Ok((false, Some(value)))
            }
            None => Ok((seen.is_some(), None)),
        }
    }
}
