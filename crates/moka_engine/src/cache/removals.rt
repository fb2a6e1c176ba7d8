//! Removal by key: at once, or waiting to be sent, in one call or in two halves.
ghost use Rattle.std.specs.Prelude.{◌≡◌, ◌+◌, ◌<◌, ◌≤◌, ◌^◌, ◌⊎◌, length, slice_get, Some, IfOk, IfErr, OnOk, OnErr, MatchOption, is_some, option_map};
ghost use Rattle.std.specs.Result.{IsErrOf};
ghost use Rattle.engine_calls.specs.Refusing.{LacksRoom};
ghost use Rattle.engine_calls.specs.Sending.{SendsAll};
ghost use Rattle.engine_reference.specs.Calls.{removal_rooms, removed_by, taken_out, with_removal_room, with_reserved_removal};
ghost use Rattle.engine_reference.specs.Records.{held_at};
ghost use Rattle.engine_reference.specs.declared.data.Record.{Record};

use crate::cache::BaseCache;
use engine_calls::{prepare_removal, remove_in, remove_reserved};
use engine_reference::{Entry, Hashes, Names, Refusal, Rules};
use policy_base::Instant;
use std::hash::{BuildHasher, Hash};

impl<K: Eq + Hash, V, S: BuildHasher, R: Rules<K, V>> BaseCache<K, V, S, R> {
    /// Removes a key, whether its deadline has come or not, and returns its entry and the ticket of the removal, or `None` if nothing is
    /// held under the key. If removals are reported, pass the entry to `notify_invalidate`. Returns `UsedUp` if the 64-bit tickets of
    /// writes are used up, and `OutOfMemory` if there is not enough memory; then nothing has changed. (`moka` returns the shared entry.)
    pub fn remove_entry<Q: Names<K>>(
        &mut self,
        key: &Q,
        hash: u64,
        _step: u64,
    ) -> Result<Option<(Entry<K, V>, u64)>, Refusal>
    where
        K: Clone + Drop,
        V: Clone + Drop,
        requires hashed { hash ≡ ⟦<S as Hashes<K>>⟧.hash self.old.hasher (Q.named_key key.now) }
        requires exact_key { (x y : K) → K.is_clone x y → y ≡ x }
        requires exact { (x y : V) → V.is_clone x y → y ≡ x }
        ensures removed { OnOk result (self.new ≡ removed_by K.eq (Q.named_key key.now) self.old) }
        ensures entry { IfOk result
            (λ gone. gone ≡ option_map (λ r. (r.entry, self.old.next_ticket))
            (held_at K.eq self.old.records (Q.named_key key.now))) }
        ensures err { OnErr result (self.new ≡ self.old) }
        ensures used_up { IsErrOf result Refusal.UsedUp
            → 2 ^ 64 ≤ self.old.next_ticket + self.old.reserved + removal_rooms self.old.settings }
        ensures only { OnErr result
            ((IsErrOf result Refusal.OutOfMemory) ⊎ (IsErrOf result Refusal.UsedUp)) }
    {
        match self.prepare_removal(key, hash)? {
            Some(parts) => Ok(self.remove_reserved(key, hash, parts)),
            None => Ok(None),
        }
    }

    /// Removes a key, whether its deadline has come or not, moves the removal into the queue, which has room, and returns whether the key was
    /// held. All earlier tickets were sent. If removals are reported, so is this one, with a clone of the value. If they are not, nothing is
    /// cloned. Returns an error if there is not enough memory, or if the 64-bit numbers of writes are used up; then nothing has changed.
    pub fn invalidate_with_hash<Q: Names<K>>(
        &mut self,
        key: &Q,
        hash: u64,
        now: Instant,
    ) -> Result<bool, Refusal>
    where
        K: Clone + Drop,
        V: Clone + Drop,
        requires hashed { hash ≡ ⟦<S as Hashes<K>>⟧.hash self.old.hasher (Q.named_key key.now) }
        requires exact_key { (x y : K) → K.is_clone x y → y ≡ x }
        requires exact { (x y : V) → V.is_clone x y → y ≡ x }
        requires queue { SendsAll self.old }
        ensures removed { OnOk result
            (MatchOption (held_at K.eq self.old.records (Q.named_key key.now)) (self.new ≡ self.old)
            (λ r. self.new ≡ taken_out R.answers r now self.old)) }
        ensures held { IfOk result (λ was_held. was_held
            ≡ is_some (held_at K.eq self.old.records (Q.named_key key.now))) }
        ensures err { OnErr result (self.new ≡ self.old) }
        ensures cause { IfErr result (LacksRoom (removal_rooms self.old.settings) self.old) }
    {
        match self.tables.place_of(key, hash) {
            Some(place) => {
                remove_in(&mut self.tables, place, now)?;
                Ok(true)
            }
            None => Ok(false),
        }
    }

    /// Removes a key like `invalidate_with_hash`, with its errors, and returns a clone of its value, or `None` if the key was not held.
    pub fn remove_with_hash<Q: Names<K>>(
        &mut self,
        key: &Q,
        hash: u64,
        now: Instant,
    ) -> Result<Option<V>, Refusal>
    where
        K: Clone + Drop,
        V: Clone + Drop,
        requires hashed { hash ≡ ⟦<S as Hashes<K>>⟧.hash self.old.hasher (Q.named_key key.now) }
        requires exact_key { (x y : K) → K.is_clone x y → y ≡ x }
        requires exact { (x y : V) → V.is_clone x y → y ≡ x }
        requires queue { SendsAll self.old }
        ensures removed { OnOk result
            (MatchOption (held_at K.eq self.old.records (Q.named_key key.now)) (self.new ≡ self.old)
            (λ r. self.new ≡ taken_out R.answers r now self.old)) }
        ensures value { IfOk result (λ value. value ≡ option_map (λ r. r.entry.value)
            (held_at K.eq self.old.records (Q.named_key key.now))) }
        ensures err { OnErr result (self.new ≡ self.old) }
        ensures cause { IfErr result (LacksRoom (removal_rooms self.old.settings) self.old) }
    {
        match self.tables.place_of(key, hash) {
            Some(place) => {
                let value = self.tables.record_in(place).value().clone()?;
                remove_in(&mut self.tables, place, now)?;
                Ok(Some(value))
            }
            None => Ok(None),
        }
    }

    /// Does the first half of `remove_entry`: returns clones of the key and value that are held, or `None` if none are, and makes room for
    /// the removal, and for its notice if removals are reported. Returns the errors of that call; then nothing has changed.
    pub fn prepare_removal<Q: Names<K>>(
        &mut self,
        key: &Q,
        hash: u64,
    ) -> Result<Option<(K, V)>, Refusal>
    where
        K: Clone + Drop,
        V: Clone + Drop,
        requires hashed { hash ≡ ⟦<S as Hashes<K>>⟧.hash self.old.hasher (Q.named_key key.now) }
        requires exact_key { (x y : K) → K.is_clone x y → y ≡ x }
        requires exact { (x y : V) → V.is_clone x y → y ≡ x }
        ensures ok { OnOk result (self.new
            ≡ with_removal_room (held_at K.eq self.old.records (Q.named_key key.now)) self.old) }
        ensures parts { IfOk result (λ parts. parts ≡ option_map (λ r. (r.entry.key, r.entry.value))
            (held_at K.eq self.old.records (Q.named_key key.now))) }
        ensures err { OnErr result (self.new ≡ self.old) }
        ensures used_up { IsErrOf result Refusal.UsedUp
            → 2 ^ 64 ≤ self.old.next_ticket + self.old.reserved + removal_rooms self.old.settings }
        ensures only { OnErr result
            ((IsErrOf result Refusal.OutOfMemory) ⊎ (IsErrOf result Refusal.UsedUp)) }
    {
        prepare_removal(&mut self.tables, key, hash)
    }

    /// Does the second half of `remove_entry`, which is never refused: removes the key in the room that was made for it, and returns its
    /// entry as it is now and the ticket of the removal. The key and value are those of the first half. If maintenance removed the key in
    /// the meantime, the call returns `None` and changes nothing, and `release_room` has to give up the room.
    pub fn remove_reserved<Q: Names<K>>(
        &mut self,
        key: &Q,
        hash: u64,
        parts: (K, V),
    ) -> Option<(Entry<K, V>, u64)>
    where
        K: Drop,
        V: Drop,
        requires hashed { hash ≡ ⟦<S as Hashes<K>>⟧.hash self.old.hasher (Q.named_key key.now) }
        requires room { removal_rooms self.old.settings ≤ self.old.reserved }
        requires parts { (r : Record K V) → held_at K.eq self.old.records (Q.named_key key.now)
            ≡ Some r → (parts.0 ≡ r.entry.key) × (parts.1 ≡ r.entry.value) }
        ensures removed { self.new
            ≡ with_reserved_removal (held_at K.eq self.old.records (Q.named_key key.now)) self.old }
        ensures entry { result ≡ option_map (λ r. (r.entry, self.old.next_ticket))
            (held_at K.eq self.old.records (Q.named_key key.now)) }
    {
        remove_reserved(&mut self.tables, key, hash, parts)
    }
}
