//! Removing.
ghost use Rattle.std.specs.Prelude.{◌≡◌, ℕ, ◌+◌, ◌<◌, ◌≤◌, ◌^◌, ◌⊎◌, true, false, [], length, Some, None, IfOk, OnOk, OnErr, IfErr, option_map, if◌then◌else◌};
ghost use Rattle.std.specs.Result.{IsErrOf};
ghost use Rattle.engine_reference.specs.Calls.{removal_rooms, removal_told, with_removal_room};
ghost use Rattle.engine_reference.specs.Records.{held_at};
ghost use Rattle.engine_reference.specs.declared.data.Record.{Record};
ghost use Rattle.front_reference.specs.Parts.{IsCause, IsReady, TakesOut, freed, held_value};

use crate::part::send_now;
use engine_reference::{Hashes, Names, Rules};
use front_reference::CacheError;
use moka_engine::{BaseCache, Entry, Refusal};
use policy_base::Instant;
use std::alloc::AllocError;
use std::hash::{BuildHasher, Hash};

/// Makes room for the removal of a key, if it is held, and clones the key and value that are held.
pub(crate) fn prepare<
    K: Eq + Hash + Clone + Drop,
    V: Clone + Drop,
    S: BuildHasher,
    R: Rules<K, V>,
    Q: Names<K>,
>(part: &mut BaseCache<K, V, S, R>, key: &Q, hash: u64) -> Result<Option<(K, V)>, CacheError>
    requires hashed { hash ≡ ⟦<S as Hashes<K>>⟧.hash part.old.hasher (Q.named_key key.now) }
    requires exact_key { (x y : K) → K.is_clone x y → y ≡ x }
    requires exact { (x y : V) → V.is_clone x y → y ≡ x }
    ensures ok { OnOk result (part.new
        ≡ with_removal_room (held_at K.eq part.old.records (Q.named_key key.now)) part.old) }
    ensures parts { IfOk result (λ parts. parts ≡ option_map (λ r. (r.entry.key, r.entry.value))
        (held_at K.eq part.old.records (Q.named_key key.now))) }
    ensures err { OnErr result (part.new ≡ part.old) }
    ensures cause { IfErr result (IsCause (removal_rooms part.old.settings) part.old) }
{
    match part.prepare_removal(key, hash) {
        Ok(parts) => Ok(parts),
        Err(Refusal::UsedUp) => Err(CacheError::UsedUp),
        Err(_) => Err(CacheError::OutOfMemory),
    }
}

/// The clone that a removal returns if the value itself will be reported.
pub(crate) fn clone_shown<K: Eq + Hash, V: Clone, S: BuildHasher, R: Rules<K, V>, Q: Names<K>>(
    part: &BaseCache<K, V, S, R>,
    key: &Q,
    hash: u64,
) -> Result<Option<V>, AllocError>
    requires hashed { hash ≡ ⟦<S as Hashes<K>>⟧.hash part.now.hasher (Q.named_key key.now) }
    requires exact { (x y : V) → V.is_clone x y → y ≡ x }
    ensures { IfOk result (λ shown. shown ≡ (if part.now.settings.tells
        then held_value K.eq part.now (Q.named_key key.now) else None)) }
{
    if part.is_removal_notifier_enabled() {
        part.held_value_with_hash(key, hash)
    } else {
        Ok(None)
    }
}

/// Reports an entry that was removed, if removals are reported, and returns its value.
fn tell<K: Eq + Hash + Drop, V: Drop, S: BuildHasher, R: Rules<K, V>, Q: Names<K>>(
    part: &mut BaseCache<K, V, S, R>,
    key: &Q,
    entry: Entry<K, V>,
    now: Instant,
    shown: Option<V>,
) -> V
    requires room { part.old.settings.tells ≡ true → 0 < part.old.reserved }
    requires shown { shown ≡ (if part.old.settings.tells then Some entry.value else None) }
    ensures told { part.new ≡ removal_told R.answers entry now part.old }
    ensures value { result ≡ entry.value }
{
    match shown {
        Some(value) => {
            part.notify_invalidate(key, entry, now);
            value
        }
        None => {
            let Entry { value, .. } = entry;
            value
        }
    }
}

/// Gives up the room of a removal.
fn release<K: Eq + Hash, V, S: BuildHasher, R: Rules<K, V>>(part: &mut BaseCache<K, V, S, R>)
    requires { removal_rooms part.old.settings ≤ part.old.reserved }
    ensures { part.new ≡ freed (removal_rooms part.old.settings) part.old }
{
    if part.is_removal_notifier_enabled() {
        part.release_room();
    }
    part.release_room();
}

/// Removes a key in the room that was made for it, and returns its value. If it is not held any more, the room is given up.
pub(crate) fn take_out<K: Eq + Hash + Drop, V: Drop, S: BuildHasher, R: Rules<K, V>, Q: Names<K>>(
    part: &mut BaseCache<K, V, S, R>,
    key: &Q,
    hash: u64,
    parts: (K, V),
    shown: Option<V>,
    now: Instant,
) -> Option<V>
    requires hashed { hash ≡ ⟦<S as Hashes<K>>⟧.hash part.old.hasher (Q.named_key key.now) }
    requires ready { IsReady part.old }
    requires reserved { removal_rooms part.old.settings ≤ part.old.reserved }
    requires parts { (r : Record K V) → held_at K.eq part.old.records (Q.named_key key.now) ≡ Some r
        → (parts.0 ≡ r.entry.key) × (parts.1 ≡ r.entry.value) }
    requires shown { (r : Record K V) → held_at K.eq part.old.records (Q.named_key key.now) ≡ Some r
        → shown ≡ (if part.old.settings.tells then Some r.entry.value else None) }
    ensures takes_out { TakesOut R.answers K.eq (Q.named_key key.now) now
        (freed (removal_rooms part.old.settings) part.old) part.new }
    ensures value { result ≡ held_value K.eq part.old (Q.named_key key.now) }
{
    match part.remove_reserved(key, hash, parts) {
        Some((entry, ticket)) => {
            send_now(part, ticket);
            let value = tell(part, key, entry, now, shown);
            part.apply_reads_writes_if_needed(now);
            Some(value)
        }
        None => {
            release(part);
            None
        }
    }
}

/// Removes a key, whether its deadline has come or not, and returns its value, or `None` if nothing is held under it. Returns `OutOfMemory`
/// if there is not enough memory, and `UsedUp` if the 64-bit numbers of writes are used up; then nothing has changed.
pub fn remove<
    K: Eq + Hash + Clone + Drop,
    V: Clone + Drop,
    S: BuildHasher,
    R: Rules<K, V>,
    Q: Names<K>,
>(
    part: &mut BaseCache<K, V, S, R>,
    key: &Q,
    hash: u64,
    now: Instant,
) -> Result<Option<V>, CacheError>
    requires hashed { hash ≡ ⟦<S as Hashes<K>>⟧.hash part.old.hasher (Q.named_key key.now) }
    requires exact_key { (x y : K) → K.is_clone x y → y ≡ x }
    requires exact { (x y : V) → V.is_clone x y → y ≡ x }
    requires ready { IsReady part.old }
    ensures value { IfOk result (λ value. value ≡ held_value K.eq part.old (Q.named_key key.now)) }
    ensures takes_out { OnOk result
        (TakesOut R.answers K.eq (Q.named_key key.now) now part.old part.new) }
    ensures err { OnErr result (part.new ≡ part.old) }
    ensures cause { IfErr result (IsCause (removal_rooms part.old.settings) part.old) }
{
    match part.remove_with_hash(key, hash, now) {
        Ok(Some(value)) => {
            part.apply_reads_writes_if_needed(now);
            Ok(Some(value))
        }
        Ok(None) => Ok(None),
        Err(Refusal::UsedUp) => Err(CacheError::UsedUp),
        Err(_) => Err(CacheError::OutOfMemory),
    }
}

/// Removes a key, whether its deadline has come or not. Returns `OutOfMemory` if there is not enough memory, and `UsedUp` if the 64-bit
/// numbers of writes are used up; then nothing has changed.
pub fn invalidate<
    K: Eq + Hash + Clone + Drop,
    V: Clone + Drop,
    S: BuildHasher,
    R: Rules<K, V>,
    Q: Names<K>,
>(part: &mut BaseCache<K, V, S, R>, key: &Q, hash: u64, now: Instant) -> Result<(), CacheError>
    requires hashed { hash ≡ ⟦<S as Hashes<K>>⟧.hash part.old.hasher (Q.named_key key.now) }
    requires exact_key { (x y : K) → K.is_clone x y → y ≡ x }
    requires exact { (x y : V) → V.is_clone x y → y ≡ x }
    requires ready { IsReady part.old }
    ensures takes_out { OnOk result
        (TakesOut R.answers K.eq (Q.named_key key.now) now part.old part.new) }
    ensures err { OnErr result (part.new ≡ part.old) }
    ensures cause { IfErr result (IsCause (removal_rooms part.old.settings) part.old) }
{
    match part.invalidate_with_hash(key, hash, now) {
        Ok(true) => {
            part.apply_reads_writes_if_needed(now);
            Ok(())
        }
        Ok(false) => Ok(()),
        Err(Refusal::UsedUp) => Err(CacheError::UsedUp),
        Err(_) => Err(CacheError::OutOfMemory),
    }
}
