//! Inserting and running.
ghost use Rattle.std.specs.Prelude.{◌≡◌, ℕ, ◌+◌, ◌<◌, ◌≤◌, ◌^◌, ◌⊎◌, true, false, [], length, OnOk, OnErr, IfErr, is_some};
ghost use Rattle.std.specs.Result.{IsErrOf};
ghost use Rattle.engine_reference.specs.Calls.{sent, unsent_at, with_room};
ghost use Rattle.front_reference.specs.Parts.{IsCause, IsReady, Inserts, InsertsReserved, takes_nothing, with_put_room};
ghost use Rattle.front_reference.specs.Wholes.{RunsPart};
ghost use Rattle.moka_engine.specs.Named.{IsNamedAlone};

use engine_reference::{Hashes, IntoKey, Rules};
use front_reference::{At, CacheError};
use moka_engine::{BaseCache, Refusal};
use policy_base::Instant;
use std::hash::{BuildHasher, Hash, Hasher};

/// Sends a waiting ticket, for which the queue has room.
pub(crate) fn send_now<K: Eq + Hash, V, S: BuildHasher, R: Rules<K, V>>(
    part: &mut BaseCache<K, V, S, R>,
    ticket: u64,
)
    requires waits { is_some (unsent_at part.old.unsent ticket) ≡ true }
    requires room { length part.old.writes < 128 }
    ensures { part.new ≡ sent ticket part.old }
{
    match part.send(ticket) {
        Ok(()) => {}
        Err(_) => unreachable!(),
    }
}

/// Makes room for one write.
fn make_room<K: Eq + Hash, V, S: BuildHasher, R: Rules<K, V>>(
    part: &mut BaseCache<K, V, S, R>,
) -> Result<(), CacheError>
    ensures ok { OnOk result (part.new ≡ with_room part.old) }
    ensures err { OnErr result (part.new ≡ part.old) }
    ensures cause { IfErr result (IsCause 1 part.old) }
{
    match part.reserve_write() {
        Ok(()) => Ok(()),
        Err(Refusal::UsedUp) => Err(CacheError::UsedUp),
        Err(_) => Err(CacheError::OutOfMemory),
    }
}

/// Makes room for a value, unless the capacity is 0 and none is stored. `insert_reserved` uses the room. Returns `OutOfMemory` if there is
/// not enough memory, and `UsedUp` if the 64-bit numbers of writes are used up; then nothing has changed.
pub fn reserve_insert<K: Eq + Hash, V, S: BuildHasher, R: Rules<K, V>>(
    part: &mut BaseCache<K, V, S, R>,
) -> Result<(), CacheError>
    ensures ok { OnOk result (part.new ≡ with_put_room part.old) }
    ensures err { OnErr result (part.new ≡ part.old) }
    ensures cause { IfErr result (IsCause 1 part.old) }
{
    if part.is_map_disabled() {
        Ok(())
    } else {
        make_room(part)
    }
}

/// Inserts a value in the room that `reserve_insert` made. The call is never refused.
pub fn insert_reserved<K: Eq + Hash + Drop, V: Drop, S: BuildHasher, R: Rules<K, V>>(
    part: &mut BaseCache<K, V, S, R>,
    key: K,
    hash: u64,
    value: V,
    at: At,
)
    requires hashed { hash ≡ ⟦<S as Hashes<K>>⟧.hash part.old.hasher key }
    requires ready { IsReady part.old }
    requires reserved { takes_nothing part.old.settings.capacity ≡ false → 0 < part.old.reserved }
    ensures { InsertsReserved R.answers K.eq key hash value at.now at.step part.old part.new }
{
    let At { now, step } = at;
    if !part.is_map_disabled() {
        part.insert_and_send_with_hash(key, hash, value, now, step);
        part.apply_reads_writes_if_needed(now);
    }
}

/// Inserts a value. A part of capacity 0 stores none. Returns `OutOfMemory` if there is not enough memory, and `UsedUp` if the 64-bit
/// numbers of writes are used up; then nothing has changed.
pub fn insert<K: Eq + Hash + Drop, V: Drop, S: BuildHasher, R: Rules<K, V>>(
    part: &mut BaseCache<K, V, S, R>,
    key: K,
    hash: u64,
    value: V,
    at: At,
) -> Result<(), CacheError>
    requires hashed { hash ≡ ⟦<S as Hashes<K>>⟧.hash part.old.hasher key }
    requires ready { IsReady part.old }
    ensures inserts { OnOk result
        (Inserts R.answers K.eq key hash value at.now at.step part.old part.new) }
    ensures err { OnErr result (part.new ≡ part.old) }
    ensures cause { IfErr result (IsCause 1 part.old) }
{
    reserve_insert(part)?;
    insert_reserved(part, key, hash, value, at);
    Ok(())
}

/// Inserts a value under the key that a name stands for, which equals no other. A key that is held and equal stays, so that none is made. A
/// part of capacity 0 stores none. Returns `OutOfMemory` if there is not enough memory, and `UsedUp` if the 64-bit numbers of writes are
/// used up; then nothing has changed.
pub fn insert_by_name<
    K: Eq + Hash + Clone + Drop,
    V: Drop,
    S: BuildHasher,
    R: Rules<K, V>,
    Q: IntoKey<K>,
>(part: &mut BaseCache<K, V, S, R>, name: Q, hash: u64, value: V, at: At) -> Result<(), CacheError>
    requires hashed { hash ≡ ⟦<S as Hashes<K>>⟧.hash part.old.hasher (Q.named_key name) }
    requires name { Q.can_become name × IsNamedAlone K.eq (Q.named_key name) }
    requires exact_key { (x y : K) → K.is_clone x y → y ≡ x }
    requires ready { IsReady part.old }
    ensures inserts { OnOk result
        (Inserts R.answers K.eq (Q.named_key name) hash value at.now at.step part.old part.new) }
    ensures err { OnErr result (part.new ≡ part.old) }
    ensures cause { IfErr result (IsCause 1 part.old) }
{
    if part.is_map_disabled() {
        return Ok(());
    }
    let At { now, step } = at;
    match part.insert_by_name(name, hash, value, now, step) {
        Ok(()) => {
            part.apply_reads_writes_if_needed(now);
            Ok(())
        }
        Err(Refusal::UsedUp) => Err(CacheError::UsedUp),
        Err(_) => Err(CacheError::OutOfMemory),
    }
}

/// Inserts a value. A part of capacity 0 stores none. Returns the value with `OutOfMemory` if there is not enough memory, and with `UsedUp`
/// if the 64-bit numbers of writes are used up; then nothing has changed.
pub fn insert_or_back<K: Eq + Hash + Drop, V: Drop, S: BuildHasher, R: Rules<K, V>>(
    part: &mut BaseCache<K, V, S, R>,
    key: K,
    hash: u64,
    value: V,
    at: At,
) -> Result<(), (CacheError, V)>
    requires hashed { hash ≡ ⟦<S as Hashes<K>>⟧.hash part.old.hasher key }
    requires ready { IsReady part.old }
    ensures inserts { OnOk result
        (Inserts R.answers K.eq key hash value at.now at.step part.old part.new) }
    ensures err { OnErr result (part.new ≡ part.old) }
    ensures back { IfErr result (λ refused. refused.1 ≡ value) }
    ensures cause { IfErr result (λ refused. IsCause 1 part.old refused.0) }
{
    match reserve_insert(part) {
        Ok(()) => {
            insert_reserved(part, key, hash, value, at);
            Ok(())
        }
        Err(refused) => Err((refused, value)),
    }
}

/// Runs maintenance to its end.
pub fn run_pending_tasks<K: Eq + Hash + Drop, V: Drop, S: BuildHasher, R: Rules<K, V>>(
    part: &mut BaseCache<K, V, S, R>,
    now: Instant,
)
    requires sent { part.old.unsent ≡ [] }
    ensures { RunsPart R.answers now part.old part.new }
{
    part.run_pending_tasks(now);
}
