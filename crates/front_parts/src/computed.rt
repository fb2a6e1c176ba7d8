//! Compute calls.
ghost use Rattle.std.specs.Prelude.{◌≡◌, ℕ, ◌<◌, ◌⊎◌, Option, Some, None, [], length, IfOk, OnOk, OnErr, IfErr, is_some};
ghost use Rattle.std.specs.Result.{IsErrOf};
ghost use Rattle.engine_reference.specs.Calls.{removal_rooms};
ghost use Rattle.engine_reference.specs.Records.{held_entries};
ghost use Rattle.engine_reference.specs.Telling.{AreApart};
ghost use Rattle.engine_reference.specs.Visible.{visible_value};
ghost use Rattle.front_reference.specs.Parts.{IsCause, IsReady, Computes, computed_as};
ghost use Rattle.front_reference.specs.declared.data.Op.TheVariants as op;
ghost use Rattle.front_parts.specs.Access.Answering.{IsOutcomeOf};
ghost use Rattle.front_parts.specs.Looking.{IsOpen, OperatesAfterLook, RemovesAfterLook};

use crate::coalesced::{note, note_and_insert};
use crate::removals::{clone_shown, prepare, take_out};
use engine_reference::{Hashes, Names, Rules};
use front_reference::{At, CacheError, Computed, IntoKey, Op};
use moka_engine::BaseCache;
use std::hash::{BuildHasher, Hash};

/// Notes a look-up, and removes the key after it. All room for both is made before. Returns the value that is held then.
fn note_and_remove<
    K: Eq + Hash + Clone + Drop,
    V: Clone + Drop,
    S: BuildHasher,
    R: Rules<K, V>,
    Q: Names<K>,
>(part: &mut BaseCache<K, V, S, R>, key: &Q, hash: u64, at: At) -> Result<Option<V>, CacheError>
    requires hashed { hash ≡ ⟦<S as Hashes<K>>⟧.hash part.old.hasher (Q.named_key key.now) }
    requires exact_key { (x y : K) → K.is_clone x y → y ≡ x }
    requires exact { (x y : V) → V.is_clone x y → y ≡ x }
    requires ready { IsReady part.old }
    requires apart { AreApart K.eq (held_entries part.old.records) }
    ensures removes { IfOk result (λ removed. RemovesAfterLook R.answers K.eq
        (Q.named_key key.now) hash at.now at.step part.old part.new removed) }
    ensures err { OnErr result (part.new ≡ part.old) }
    ensures cause { IfErr result (IsCause (removal_rooms part.old.settings) part.old) }
{
    let shown = clone_shown(part, key, hash)?;
    let prepared = prepare(part, key, hash)?;
    part.note_look_up(key, hash, at.now, false);
    match prepared {
        Some(parts) => Ok(take_out(part, key, hash, parts, shown, at.now)),
        None => Ok(None),
    }
}

/// Notes a look-up, and does what a closure decided after it. All room for both is made before. `was_seen` says whether a value was
/// visible.
fn operate<
    K: Eq + Hash + Clone + Drop,
    V: Clone + Drop,
    S: BuildHasher,
    R: Rules<K, V>,
    Q: IntoKey<K>,
>(
    part: &mut BaseCache<K, V, S, R>,
    name: Q,
    hash: u64,
    does: Op<V>,
    at: At,
    was_seen: bool,
) -> Result<Computed<V>, CacheError>
    requires open { IsOpen K.eq ⟦<S as Hashes<K>>⟧.hash (Q.named_key name) hash part.old }
    requires becomes { Q.can_become name }
    requires exact_key { (x y : K) → K.is_clone x y → y ≡ x }
    requires exact { (x y : V) → V.is_clone x y → y ≡ x }
    requires seen { was_seen
        ≡ is_some (visible_value R.answers K.eq part.old at.now (Q.named_key name)) }
    ensures operates { IfOk result (λ done. OperatesAfterLook R.answers K.eq
        (Q.named_key name) hash at.now at.step does part.old part.new done) }
    ensures err { OnErr result (part.new ≡ part.old) }
    ensures cause { IfErr result (IsCause (removal_rooms part.old.settings) part.old) }
{
    match does {
        Op::Nop => {
            let seen = part.get_with_hash_without_recording(&name, hash, at.now)?;
            note(part, &name, hash, at, false);
            Ok(shown_unchanged(seen))
        }
        Op::Put(value) => {
            let kept = value.clone()?;
            let key = name.into_key()?;
            note_and_insert(part, key, hash, kept, at, false)?;
            Ok(shown_put(value, was_seen))
        }
        Op::Remove => {
            let removed = note_and_remove(part, &name, hash, at)?;
            Ok(shown_removed(removed))
        }
    }
}

/// Returns the result of a compute call by which nothing was to be done.
pub fn shown_unchanged<V>(seen: Option<V>) -> Computed<V>
    ensures shown { (held : Option V) → result ≡ computed_as op.Nop seen held }
    ensures fits { IsOutcomeOf op.Nop result }
{
    match seen {
        Some(value) => Computed::Unchanged(value),
        None => Computed::StillNone,
    }
}

/// Returns the result of a compute call that put a value.
pub fn shown_put<V>(value: V, was_seen: bool) -> Computed<V>
    ensures shown { (seen held : Option V) → was_seen ≡ is_some seen
        → result ≡ computed_as (op.Put value) seen held }
    ensures fits { IsOutcomeOf (op.Put value) result }
{
    if was_seen {
        Computed::ReplacedWith(value)
    } else {
        Computed::Inserted(value)
    }
}

/// Returns the result of a compute call that removed the key.
pub fn shown_removed<V>(removed: Option<V>) -> Computed<V>
    ensures shown { (seen : Option V) → result ≡ computed_as op.Remove seen removed }
    ensures fits { IsOutcomeOf op.Remove result }
{
    match removed {
        Some(value) => Computed::Removed(value),
        None => Computed::StillNone,
    }
}

/// Calls a closure with the visible value of a key, and does what it decides, after the look-up's read is noted. If the closure fails, its
/// error is returned, and only that read is noted. The closure runs before anything changes, and the key is made only if a value is put.
/// Returns `OutOfMemory` if there is not enough memory, and `UsedUp` if the 64-bit numbers of writes are used up; then nothing has changed.
pub fn compute<
    K: Eq + Hash + Clone + Drop,
    V: Clone + Drop,
    S: BuildHasher,
    R: Rules<K, V>,
    E: Drop,
    Q: IntoKey<K>,
    D: FnOnce(Option<V>) -> Result<Op<V>, E> + Drop,
>(
    part: &mut BaseCache<K, V, S, R>,
    name: Q,
    hash: u64,
    at: At,
    decide: D,
) -> Result<Result<Computed<V>, E>, CacheError>
    requires open { IsOpen K.eq ⟦<S as Hashes<K>>⟧.hash (Q.named_key name) hash part.old }
    requires becomes { Q.can_become name }
    requires exact_key { (x y : K) → K.is_clone x y → y ≡ x }
    requires exact { (x y : V) → V.is_clone x y → y ≡ x }
    requires decides { D.IsAlwaysCallable decide }
    ensures computes { IfOk result (Computes R.answers K.eq (Q.named_key name) hash at.now at.step
        (D.post decide) part.old part.new) }
    ensures err { OnErr result (part.new ≡ part.old) }
    ensures cause { IfErr result (IsCause (removal_rooms part.old.settings) part.old) }
{
    let seen = part.get_with_hash_without_recording(&name, hash, at.now)?;
    let was_seen = seen.is_some();
    match decide(seen) {
        Ok(does) => {
            let done = operate(part, name, hash, does, at, was_seen)?;
            Ok(Ok(done))
        }
        Err(fault) => {
            note(part, &name, hash, at, false);
            Ok(Err(fault))
        }
    }
}
