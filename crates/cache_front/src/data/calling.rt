//! Calls of a front: at the step of the last call, or, if they cover earlier writes, at the next one.
ghost use Rattle.std.specs.Prelude.{◌≡◌, suc, ◌+◌, ◌<◌, ◌≤◌, ◌^◌, ◌⊎◌, true, false, IfOk, OnOk, OnErr, length, option_map};
ghost use Rattle.std.specs.Result.{IsErrOf};
ghost use Rattle.std.specs.VecDeque.{deque_capacity};
ghost use Rattle.engine_reference.specs.Calls.{cleared_by};
ghost use Rattle.front_state.specs.Showing.{IsShown};
ghost use Rattle.front_reference.specs.Fronts.{CallsAll, part_of};
ghost use Rattle.front_reference.specs.Wholes.{DrawsInVain};
ghost use Rattle.cache_front.specs.View.{kept_value};
ghost use Rattle.cache_front.specs.Data.{hash_with, CoversBy, InsertsBy, LackTickets, TakesOutBy};

use crate::data::{Front, Notes};
use crate::entries::StoredValue;
use audit_model::{Bytes, Key, Seq};
use cache_commands::StoreError;
use front_reference::{At, CacheError, ClonedKey};
use policy_base::Instant;
use rand_core::Rng;
use std::alloc::{AllocError, Global};
use std::hash::BuildHasher;

/// A store holds at most this many values, so that their weight is a 64-bit number.
const MOST_VALUES: usize = 1 << 50;

/// Returns what is kept of a value, and makes room in the queue for a notice of each of `count` values and this one. Returns an error if
/// there is not enough memory.
pub fn prepare(
    alloc: Global,
    notes: &mut Notes,
    count: usize,
    bytes: &[u8],
    milliseconds: Option<u64>,
) -> Result<StoredValue, AllocError>
    requires short { length bytes.now ≤ 8192 }
    ensures value { IfOk result (λ value. value ≡ kept_value bytes.now milliseconds) }
    ensures few { OnOk result (count < 2 ^ 50) }
    ensures room { OnOk result (length notes.new.items + suc count ≤ deque_capacity notes.new) }
    ensures same { notes.new.items ≡ notes.old.items }
    ensures grows { deque_capacity notes.old ≤ deque_capacity notes.new }
{
    if count >= MOST_VALUES {
        return Err(AllocError);
    }
    let value = StoredValue::new(alloc, bytes, milliseconds)?;
    notes.reserve(count + 1)?;
    Ok(value)
}

/// Returns the bytes of a value, or `None` if there is none.
pub fn bytes_found(found: Option<&StoredValue>) -> Option<&[u8]>
    ensures { option_map (λ bytes. bytes.now) result
        ≡ option_map (λ value. value.bytes) (option_map (λ value. value.now) found.entry) }
{
    Some(found?.as_bytes())
}

/// Passes the bytes of a value, and what is behind `output`, to `read`, and returns what `read` returns, also if that is an error.
pub fn read_bytes<T, E, F: FnOnce(Option<&[u8]>, &mut Vec<u8>) -> Result<T, E> + Drop>(
    found: Option<&StoredValue>,
    output: &mut Vec<u8>,
    read: F,
) -> Result<T, E>
    requires { F.IsAlwaysCallable read }
    ensures { IsShown F.FnOnce read
        (option_map (λ value. value.bytes) (option_map (λ value. value.now) found.entry)) output.old
        result output.new }
{
    read(bytes_found(found), output)
}

/// Why a store refuses what its front refuses.
fn refusal_of(error: CacheError) -> StoreError
    ensures { result ≡ StoreError.UsedUp → error ≡ CacheError.UsedUp }
{
    match error {
        CacheError::UsedUp => StoreError::UsedUp,
        _ => StoreError::OutOfMemory,
    }
}

/// Returns the moment, at the step of the last call.
pub fn at_last_step<S: BuildHasher>(front: &Front<S>, now: u64) -> At
    requires { now < 2 ^ 63 }
    ensures { result ≡ record { now = now; step = front.now.step } }
{
    let At { step, .. } = front.last_call();
    At {
        now: Instant::from_nanos(now),
        step,
    }
}

/// Inserts a value, and returns its part. Returns `OutOfMemory` if there is not enough memory, and `UsedUp` if a 64-bit number is used up;
/// then nothing has changed.
pub fn insert<S: BuildHasher>(
    alloc: Global,
    front: &mut Front<S>,
    key: &Key,
    value: StoredValue,
    now: u64,
) -> Result<usize, StoreError>
    requires later { front.old.moment ≤ now }
    requires moment { now < 2 ^ 63 }
    ensures inserts { OnOk result (InsertsBy (hash_with S.BuildHasher S.Hasher.Hasher) key.now value
        now front.old front.new) }
    ensures part { IfOk result (λ part. part ≡ part_of front.old.bits
        (hash_with S.BuildHasher S.Hasher.Hasher front.old.common.hasher key.now)) }
    ensures used_up { IsErrOf result StoreError.UsedUp → LackTickets front.old.parts }
    ensures err { OnErr result (front.new ≡ front.old) }
{
    let hash = front.hash(key);
    let part = front.part_with_hash(hash);
    let at = at_last_step(front, now);
    match front.insert_named(ClonedKey { key, alloc }, hash, value, at) {
        Ok(()) => Ok(part),
        Err(error) => Err(refusal_of(error)),
    }
}

/// Removes a key, and returns its part. Returns `OutOfMemory` if there is not enough memory, and `UsedUp` if a 64-bit number is used up;
/// then nothing has changed.
pub fn invalidate<S: BuildHasher>(
    front: &mut Front<S>,
    key: &Key,
    now: u64,
) -> Result<usize, StoreError>
    requires later { front.old.moment ≤ now }
    requires moment { now < 2 ^ 63 }
    ensures takes_out { OnOk result
        (TakesOutBy (hash_with S.BuildHasher S.Hasher.Hasher) key.now now front.old front.new) }
    ensures part { IfOk result (λ part. part ≡ part_of front.old.bits
        (hash_with S.BuildHasher S.Hasher.Hasher front.old.common.hasher key.now)) }
    ensures used_up { IsErrOf result StoreError.UsedUp → LackTickets front.old.parts }
    ensures err { OnErr result (front.new ≡ front.old) }
{
    let hash = front.hash(key);
    let part = front.part_with_hash(hash);
    let at = at_last_step(front, now);
    match front.invalidate_with_hash(key, hash, at) {
        Ok(()) => Ok(part),
        Err(error) => Err(refusal_of(error)),
    }
}

/// The moment, at the step after that of the last call, if there is one.
fn at_next_step<S: BuildHasher>(front: &Front<S>, now: u64) -> Result<At, StoreError>
    requires { now < 2 ^ 63 }
    ensures next { IfOk result (λ at. at ≡ record { now = now; step = suc front.now.step }) }
    ensures used_up { OnErr result
        (IsErrOf result StoreError.UsedUp × (2 ^ 64 ≤ suc front.now.step)) }
{
    let At { step, .. } = front.last_call();
    match step.checked_add(1) {
        Some(step) => Ok(At {
            now: Instant::from_nanos(now),
            step,
        }),
        None => Err(StoreError::UsedUp),
    }
}

/// Covers all that was written before. Returns `UsedUp` if the 64-bit steps are used up; then nothing has changed.
pub fn clear<S: BuildHasher>(front: &mut Front<S>, now: u64) -> Result<(), StoreError>
    requires later { front.old.moment ≤ now }
    requires moment { now < 2 ^ 63 }
    ensures clears { OnOk result (CallsAll now (suc front.old.step)
        (λ s t. t ≡ cleared_by (suc front.old.step) s) front.old front.new) }
    ensures used_up { OnErr result
        (IsErrOf result StoreError.UsedUp × (2 ^ 64 ≤ suc front.old.step)) }
    ensures err { OnErr result (front.new ≡ front.old) }
{
    let at = at_next_step(front, now)?;
    front.invalidate_all(at);
    Ok(())
}

/// Covers the keys of a prefix in all parts, and returns true; or, if a part lacked identifiers, in none, and returns false. Returns
/// `OutOfMemory` if there is not enough memory, and `UsedUp` if a 64-bit number is used up; then nothing has changed.
pub fn cover<S: BuildHasher, R: Rng>(
    alloc: Global,
    front: &mut Front<S>,
    generator: &mut R,
    prefix: &[u8],
    now: u64,
) -> Result<bool, StoreError>
    requires later { front.old.moment ≤ now }
    requires moment { now < 2 ^ 63 }
    ensures covers { IfOk result (λ covers. covers ≡ true → CoversBy prefix.now now
        (R.stream generator.old) (R.stream generator.new) front.old front.new) }
    ensures lacks { IfOk result (λ covers. covers ≡ false → DrawsInVain front.old.parts
        (R.stream generator.old) (R.stream generator.new) × (front.new ≡ front.old)) }
    ensures used_up { IsErrOf result StoreError.UsedUp → LackTickets front.old.parts
        ⊎ (2 ^ 64 ≤ suc front.old.step) }
    ensures err { OnErr result ((front.new ≡ front.old) × (generator.new ≡ generator.old)) }
{
    let at = at_next_step(front, now)?;
    let predicate = bytes_of(alloc, prefix)?;
    match front.invalidate_entries_if(predicate, generator, at) {
        Ok(()) => Ok(true),
        Err(error) => match error {
            CacheError::IdsInUse => Ok(false),
            _ => Err(refusal_of(error)),
        },
    }
}

/// These bytes, in memory of their own.
fn bytes_of(alloc: Global, bytes: &[u8]) -> Result<Bytes, AllocError>
    ensures { IfOk result (λ made. made ≡ bytes.now) }
{
    let items = Vec::from_slice(alloc, bytes)?;
    Ok(Seq::from_vec(items))
}
