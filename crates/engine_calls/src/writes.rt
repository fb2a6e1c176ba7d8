//! Writes, and removals by key.
ghost use Rattle.std.specs.Prelude.{◌≡◌, ℕ, ◌+◌, ◌<◌, ◌≤◌, ◌^◌, ◌⊎◌, true, is_some, Option, Some, None, IfOk, IfErr, OnOk, OnErr, option_map, option_copied};
ghost use Rattle.std.specs.Result.{IsErrOf};
ghost use Rattle.engine_calls.specs.Bounds.{AreBounded};
ghost use Rattle.engine_calls.specs.Named.{IsNamedAlone};
ghost use Rattle.engine_calls.specs.Refusing.{LacksRoom};
ghost use Rattle.engine_calls.specs.Removing.{reported_parts};
ghost use Rattle.engine_calls.specs.Sending.{SendsAll, sent_if};
ghost use Rattle.engine_cells.specs.Kept.{kept_at};
ghost use Rattle.engine_reference.specs.Calls.{removal_rooms, removal_told, sent, taken_out, with_removal_room, with_reserved_removal, with_room, with_written, written};
ghost use Rattle.engine_reference.specs.Records.{held_at};
ghost use Rattle.engine_reference.specs.declared.data.Record.{Record};

use crate::entries::{cause_of_removal, cause_of_write, entry_of, first_entry, next_entry};
use crate::looks::held;
use crate::settings::rooms_of_removal;
use engine_cells::Cell;
use engine_reference::{Entry, Hashes, IntoKey, Names, Refusal, Rules};
use engine_tables::Tables;
use policy_base::Instant;
use std::alloc::AllocError;
use std::hash::{BuildHasher, Hash, Hasher};

/// Writes a value under a key that is new.
fn write_first<K: Eq + Hash, V, S: BuildHasher, R: Rules<K, V>>(
    tables: &mut Tables<K, V, S, R>,
    key: K,
    hash: u64,
    value: V,
    now: Instant,
    step: u64,
    at_once: bool,
)
    requires hashed { hash ≡ ⟦<S as Hashes<K>>⟧.hash tables.old.state.hasher key }
    requires room { 0 < tables.old.state.reserved }
    requires queue { at_once ≡ true → SendsAll tables.old.state }
    requires absent { held_at K.eq tables.old.state.records key ≡ None }
    ensures { tables.new.state ≡ sent_if at_once tables.old.state.next_ticket
        (with_written R.answers None tables.old.state key hash value now step) }
{
    let entry = first_entry(tables, key, value, now, step);
    let number = tables.next_number();
    let _place = tables.add(Cell::new(number, hash, entry), at_once);
}

/// Writes a value over the one in a place.
fn write_over<K: Eq + Hash + Drop, V: Drop, S: BuildHasher, R: Rules<K, V>>(
    tables: &mut Tables<K, V, S, R>,
    place: usize,
    key: K,
    value: V,
    now: Instant,
    step: u64,
    at_once: bool,
)
    requires room { 0 < tables.old.state.reserved }
    requires queue { at_once ≡ true → SendsAll tables.old.state }
    requires bounded { AreBounded tables.old.state }
    requires held { (r : Record K V) × (kept_at tables.old place ≡ Some r)
        × (held_at K.eq tables.old.state.records key ≡ Some r) }
    ensures { (r : Record K V) → kept_at tables.old place ≡ Some r
        → tables.new.state ≡ sent_if at_once tables.old.state.next_ticket
        (written R.answers K.eq tables.old.state key r.hash value now step) }
{
    tables.tickets_last();
    let cause = cause_of_write(tables, place, now.as_nanos());
    let entry = next_entry(tables, place, key, value, now, step);
    tables.write_over(place, entry, cause, at_once);
}

/// Writes a value under its key, in reserved room. The value that it replaces is reported if removals are. The write goes into the queue at
/// once, or waits to be sent.
pub fn write<K: Eq + Hash + Drop, V: Drop, S: BuildHasher, R: Rules<K, V>>(
    tables: &mut Tables<K, V, S, R>,
    key: K,
    hash: u64,
    value: V,
    now: Instant,
    step: u64,
    at_once: bool,
)
    requires hashed { hash ≡ ⟦<S as Hashes<K>>⟧.hash tables.old.state.hasher key }
    requires room { 0 < tables.old.state.reserved }
    requires queue { at_once ≡ true → SendsAll tables.old.state }
    requires bounded { AreBounded tables.old.state }
    ensures { tables.new.state ≡ sent_if at_once tables.old.state.next_ticket
        (written R.answers K.eq tables.old.state key hash value now step) }
{
    match tables.place_of(&key, hash) {
        Some(place) => write_over(tables, place, key, value, now, step, at_once),
        None => write_first(tables, key, hash, value, now, step, at_once),
    }
}

/// Writes a value under the key that a name stands for, and sends the write. A key that is held and equal stays, so that none is made.
/// Returns `UsedUp` if the 64-bit tickets of writes are used up, and `OutOfMemory` if there is not enough memory; then nothing has changed.
pub fn write_by_name<
    K: Eq + Hash + Clone + Drop,
    Q: IntoKey<K>,
    V: Drop,
    S: BuildHasher,
    R: Rules<K, V>,
>(
    tables: &mut Tables<K, V, S, R>,
    name: Q,
    hash: u64,
    value: V,
    now: Instant,
    step: u64,
) -> Result<(), Refusal>
    requires hashed { hash ≡ ⟦<S as Hashes<K>>⟧.hash tables.old.state.hasher (Q.named_key name) }
    requires name { Q.can_become name × IsNamedAlone K.eq (Q.named_key name) }
    requires exact_key { (x y : K) → K.is_clone x y → y ≡ x }
    requires queue { SendsAll tables.old.state }
    requires bounded { AreBounded tables.old.state }
    ensures ok { OnOk result (tables.new.state ≡ sent tables.old.state.next_ticket (written
        R.answers K.eq (with_room tables.old.state) (Q.named_key name) hash value now step)) }
    ensures err { OnErr result (tables.new ≡ tables.old) }
    ensures cause { IfErr result (LacksRoom 1 tables.old.state) }
{
    match tables.place_of(&name, hash) {
        Some(place) => {
            let key = tables.record_in(place).key().clone()?;
            tables.make_room(1)?;
            write_over(tables, place, key, value, now, step, true);
            Ok(())
        }
        None => {
            let key = name.into_key()?;
            tables.make_room(1)?;
            write_first(tables, key, hash, value, now, step, true);
            Ok(())
        }
    }
}

/// Clones of a record's key and value.
fn clone_parts<K: Clone + Drop, V: Clone>(found: &Cell<K, V>) -> Result<(K, V), AllocError>
    requires exact_key { (x y : K) → K.is_clone x y → y ≡ x }
    requires exact { (x y : V) → V.is_clone x y → y ≡ x }
    ensures { IfOk result (λ parts. parts ≡ (found.now.entry.key, found.now.entry.value)) }
{
    let key = found.key().clone()?;
    let value = found.value().clone()?;
    Ok((key, value))
}

/// Clones of the key and the value that are held under a key.
fn clone_held<K: Eq + Hash + Clone + Drop, Q: Names<K>, V: Clone, S: BuildHasher, R: Rules<K, V>>(
    tables: &Tables<K, V, S, R>,
    key: &Q,
    hash: u64,
) -> Result<Option<(K, V)>, AllocError>
    requires hashed { hash ≡ ⟦<S as Hashes<K>>⟧.hash tables.now.state.hasher (Q.named_key key.now) }
    requires exact_key { (x y : K) → K.is_clone x y → y ≡ x }
    requires exact { (x y : V) → V.is_clone x y → y ≡ x }
    ensures { IfOk result (λ parts. parts ≡ option_map (λ r. (r.entry.key, r.entry.value))
        (held_at K.eq tables.now.state.records (Q.named_key key.now))) }
{
    match held(tables, key, hash) {
        Some(found) => {
            let parts = clone_parts(found)?;
            Ok(Some(parts))
        }
        None => Ok(None),
    }
}

/// Makes room for a removal.
fn make_removal_room<K: Eq + Hash, V, S: BuildHasher, R: Rules<K, V>>(
    tables: &mut Tables<K, V, S, R>,
) -> Result<(), Refusal>
    ensures ok { OnOk result (tables.new ≡ record tables.old {
      state = record tables.old.state
          { reserved = tables.old.state.reserved + removal_rooms tables.old.state.settings };
    }) }
    ensures err { OnErr result (tables.new ≡ tables.old) }
    ensures used_up { IsErrOf result Refusal.UsedUp → 2 ^ 64 ≤ tables.old.state.next_ticket
        + tables.old.state.reserved + removal_rooms tables.old.state.settings }
    ensures only { OnErr result
        ((IsErrOf result Refusal.OutOfMemory) ⊎ (IsErrOf result Refusal.UsedUp)) }
{
    let by = rooms_of_removal(tables.settings());
    tables.make_room(by)?;
    Ok(())
}

/// Returns clones of the key and value that are held under a key, or `None` if none are, and makes room for the removal and, if removals
/// are reported, for its notice. Returns `UsedUp` if the 64-bit tickets of writes are used up, and `OutOfMemory` if there is not enough
/// memory; then nothing has changed.
pub fn prepare_removal<
    K: Eq + Hash + Clone + Drop,
    Q: Names<K>,
    V: Clone + Drop,
    S: BuildHasher,
    R: Rules<K, V>,
>(tables: &mut Tables<K, V, S, R>, key: &Q, hash: u64) -> Result<Option<(K, V)>, Refusal>
    requires hashed { hash ≡ ⟦<S as Hashes<K>>⟧.hash tables.old.state.hasher (Q.named_key key.now) }
    requires exact_key { (x y : K) → K.is_clone x y → y ≡ x }
    requires exact { (x y : V) → V.is_clone x y → y ≡ x }
    ensures ok { OnOk result (tables.new.state ≡ with_removal_room
        (held_at K.eq tables.old.state.records (Q.named_key key.now)) tables.old.state) }
    ensures parts { IfOk result (λ parts. parts ≡ option_map (λ r. (r.entry.key, r.entry.value))
        (held_at K.eq tables.old.state.records (Q.named_key key.now))) }
    ensures err { OnErr result (tables.new ≡ tables.old) }
    ensures used_up { IsErrOf result Refusal.UsedUp → 2 ^ 64 ≤ tables.old.state.next_ticket
        + tables.old.state.reserved + removal_rooms tables.old.state.settings }
    ensures only { OnErr result
        ((IsErrOf result Refusal.OutOfMemory) ⊎ (IsErrOf result Refusal.UsedUp)) }
{
    match clone_held(tables, key, hash)? {
        Some(parts) => {
            make_removal_room(tables)?;
            Ok(Some(parts))
        }
        None => Ok(None),
    }
}

/// Removes the key of the record in a place, in the room that was made for it. The removal goes into the queue at once, or waits to be sent.
fn remove_at<K: Eq + Hash, V, S: BuildHasher, R: Rules<K, V>>(
    tables: &mut Tables<K, V, S, R>,
    place: usize,
    at_once: bool,
)
    requires room { removal_rooms tables.old.state.settings ≤ tables.old.state.reserved }
    requires queue { at_once ≡ true → SendsAll tables.old.state }
    requires bounded { AreBounded tables.old.state }
    requires there { (r : Record K V) × (kept_at tables.old place ≡ Some r) }
    ensures { (r : Record K V) → kept_at tables.old place ≡ Some r
        → tables.new.state ≡ sent_if at_once tables.old.state.next_ticket
        (with_reserved_removal (Some r) tables.old.state) }
{
    tables.tickets_last();
    tables.mark_removed(place, at_once);
}

/// Removes a key in reserved room. Returns its entry as it is now, built of these clones of its key and value, and the ticket of the
/// removal. Returns `None` if nothing is held under the key; then nothing has changed.
pub fn remove_reserved<K: Eq + Hash + Drop, Q: Names<K>, V: Drop, S: BuildHasher, R: Rules<K, V>>(
    tables: &mut Tables<K, V, S, R>,
    key: &Q,
    hash: u64,
    parts: (K, V),
) -> Option<(Entry<K, V>, u64)>
    requires hashed { hash ≡ ⟦<S as Hashes<K>>⟧.hash tables.old.state.hasher (Q.named_key key.now) }
    requires room { removal_rooms tables.old.state.settings ≤ tables.old.state.reserved }
    requires bounded { AreBounded tables.old.state }
    requires parts { (r : Record K V) → held_at K.eq tables.old.state.records (Q.named_key key.now)
        ≡ Some r → (parts.0 ≡ r.entry.key) × (parts.1 ≡ r.entry.value) }
    ensures removed { tables.new.state ≡ with_reserved_removal
        (held_at K.eq tables.old.state.records (Q.named_key key.now)) tables.old.state }
    ensures entry { result ≡ option_map (λ r. (r.entry, tables.old.state.next_ticket))
        (held_at K.eq tables.old.state.records (Q.named_key key.now)) }
{
    match tables.place_of(key, hash) {
        Some(place) => {
            let ticket = tables.next_ticket();
            let entry = entry_of(tables, place, parts.0, parts.1);
            remove_at(tables, place, false);
            Some((entry, ticket))
        }
        None => None,
    }
}

/// Reports an entry that was removed by its key, if removals are reported.
pub fn tell_removed<K: Eq + Hash + Drop, V: Drop, S: BuildHasher, R: Rules<K, V>>(
    tables: &mut Tables<K, V, S, R>,
    entry: Entry<K, V>,
    now: Instant,
)
    requires { tables.old.state.settings.tells ≡ true → 0 < tables.old.state.reserved }
    ensures { tables.new.state ≡ removal_told R.answers entry now tables.old.state }
{
    if tables.settings().tells {
        let cause = cause_of_removal(tables.settings(), now.as_nanos(), &entry);
        tables.tell_removed(cause, entry);
    }
}

/// Returns clones of the key and the value in a place, if removals are reported.
fn clone_reported<K: Eq + Hash + Clone + Drop, V: Clone, S: BuildHasher, R: Rules<K, V>>(
    tables: &Tables<K, V, S, R>,
    place: usize,
) -> Result<Option<(K, V)>, AllocError>
    requires exact_key { (x y : K) → K.is_clone x y → y ≡ x }
    requires exact { (x y : V) → V.is_clone x y → y ≡ x }
    requires there { is_some (kept_at tables.now place) ≡ true }
    ensures { (r : Record K V) → kept_at tables.now place ≡ Some r
        → IfOk result (λ parts. parts ≡ reported_parts tables.now.state.settings r) }
{
    if !tables.settings().tells {
        return Ok(None);
    }
    let parts = clone_parts(tables.record_in(place))?;
    Ok(Some(parts))
}

/// Removes the key of the record in a place in the room that was made for it, sends the removal, and reports it, if removals are reported,
/// with these clones.
fn remove_and_tell<K: Eq + Hash + Drop, V: Drop, S: BuildHasher, R: Rules<K, V>>(
    tables: &mut Tables<K, V, S, R>,
    place: usize,
    parts: Option<(K, V)>,
    now: Instant,
)
    requires room { removal_rooms tables.old.state.settings ≤ tables.old.state.reserved }
    requires queue { SendsAll tables.old.state }
    requires bounded { AreBounded tables.old.state }
    requires there { (r : Record K V) × (kept_at tables.old place ≡ Some r) }
    requires parts { (r : Record K V) → kept_at tables.old place ≡ Some r
        → parts ≡ reported_parts tables.old.state.settings r }
    ensures { (r : Record K V) → kept_at tables.old place ≡ Some r
        → tables.new.state ≡ removal_told R.answers r.entry now (sent tables.old.state.next_ticket
        (with_reserved_removal (Some r) tables.old.state)) }
{
    match parts {
        Some((key, value)) => {
            let entry = entry_of(tables, place, key, value);
            remove_at(tables, place, true);
            tell_removed(tables, entry, now);
        }
        None => remove_at(tables, place, true),
    }
}

/// Removes the key of the record in a place, sends the removal, and reports it, if removals are reported. Nothing is cloned if they are not.
/// Returns `UsedUp` if the 64-bit tickets of writes are used up, and `OutOfMemory` if there is not enough memory; then nothing has changed.
pub fn remove_in<K: Eq + Hash + Clone + Drop, V: Clone + Drop, S: BuildHasher, R: Rules<K, V>>(
    tables: &mut Tables<K, V, S, R>,
    place: usize,
    now: Instant,
) -> Result<(), Refusal>
    requires clones { ((x y : K) → K.is_clone x y → y ≡ x) × ((x y : V) → V.is_clone x y → y ≡ x) }
    requires queue { SendsAll tables.old.state }
    requires bounded { AreBounded tables.old.state }
    requires there { (r : Record K V) × (kept_at tables.old place ≡ Some r) }
    ensures ok { OnOk result ((r : Record K V) → kept_at tables.old place ≡ Some r
        → tables.new.state ≡ taken_out R.answers r now tables.old.state) }
    ensures err { OnErr result (tables.new ≡ tables.old) }
    ensures cause { IfErr result
        (LacksRoom (removal_rooms tables.old.state.settings) tables.old.state) }
{
    let parts = clone_reported(tables, place)?;
    make_removal_room(tables)?;
    remove_and_tell(tables, place, parts, now);
    Ok(())
}
