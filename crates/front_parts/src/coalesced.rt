//! Coalesced calls.
ghost use Rattle.std.specs.Prelude.{◌≡◌, ℕ, ◌<◌, ◌⊎◌, Some, None, [], length, IfOk, OnOk, OnErr, IfErr};
ghost use Rattle.std.specs.Fn.{FnOnceReturnsAt};
ghost use Rattle.std.specs.Result.{IsErrOf};
ghost use Rattle.front_reference.specs.Parts.{IsCause, IsReady, Acts, op_of_made};
ghost use Rattle.front_parts.specs.Looking.{CoalescesPart};
ghost use Rattle.front_reference.specs.declared.data.Op.TheVariants as op;
ghost use Rattle.front_reference.specs.declared.data.Made.TheVariants as made;

use crate::part::{insert_reserved, reserve_insert};
use engine_reference::{Hashes, Names, Rules};
use front_reference::{At, CacheError, IntoKey, Made};
use moka_engine::BaseCache;
use std::alloc::AllocError;
use std::hash::{BuildHasher, Hash};

/// Notes a look-up, and inserts a value after it. All room for both is made before.
pub(crate) fn note_and_insert<K: Eq + Hash + Drop, V: Drop, S: BuildHasher, R: Rules<K, V>>(
    part: &mut BaseCache<K, V, S, R>,
    key: K,
    hash: u64,
    value: V,
    at: At,
    ignored: bool,
) -> Result<(), CacheError>
    requires hashed { hash ≡ ⟦<S as Hashes<K>>⟧.hash part.old.hasher key }
    requires ready { IsReady part.old }
    ensures acts { OnOk result
        (Acts R.answers K.eq key hash at.now at.step ignored (op.Put value) part.old part.new) }
    ensures err { OnErr result (part.new ≡ part.old) }
    ensures cause { IfErr result (IsCause 1 part.old) }
{
    reserve_insert(part)?;
    part.note_look_up(&key, hash, at.now, ignored);
    insert_reserved(part, key, hash, value, at);
    Ok(())
}

/// Notes a look-up, and nothing more.
pub(crate) fn note<K: Eq + Hash + Drop, V: Drop, S: BuildHasher, R: Rules<K, V>, Q: Names<K>>(
    part: &mut BaseCache<K, V, S, R>,
    key: &Q,
    hash: u64,
    at: At,
    ignored: bool,
)
    requires hashed { hash ≡ ⟦<S as Hashes<K>>⟧.hash part.old.hasher (Q.named_key key.now) }
    ensures { Acts R.answers K.eq (Q.named_key key.now) hash at.now at.step ignored op.Nop part.old
        part.new }
{
    part.note_look_up(key, hash, at.now, ignored);
}

/// Notes a look-up that found nothing, and inserts what was made for its key, if that is a value. Returns what was made.
fn settle<
    K: Eq + Hash + Drop,
    V: Clone + Drop,
    S: BuildHasher,
    R: Rules<K, V>,
    F: Drop,
    Q: IntoKey<K>,
>(
    part: &mut BaseCache<K, V, S, R>,
    name: Q,
    hash: u64,
    made: Made<V, F>,
    at: At,
    ignored: bool,
) -> Result<Made<V, F>, CacheError>
    requires hashed { hash ≡ ⟦<S as Hashes<K>>⟧.hash part.old.hasher (Q.named_key name) }
    requires becomes { Q.can_become name }
    requires exact { (x y : V) → V.is_clone x y → y ≡ x }
    requires ready { IsReady part.old }
    ensures same { IfOk result (λ answer. answer ≡ made) }
    ensures acts { OnOk result (Acts R.answers K.eq (Q.named_key name) hash at.now at.step ignored
        (op_of_made made) part.old part.new) }
    ensures err { OnErr result (part.new ≡ part.old) }
    ensures cause { IfErr result (IsCause 1 part.old) }
{
    match made {
        Made::Value(value) => {
            let kept = value.clone()?;
            let key = name.into_key()?;
            note_and_insert(part, key, hash, kept, at, ignored)?;
            Ok(Made::Value(value))
        }
        Made::Nothing => {
            note(part, &name, hash, at, ignored);
            Ok(Made::Nothing)
        }
        Made::Fault(fault) => {
            note(part, &name, hash, at, ignored);
            Ok(Made::Fault(fault))
        }
    }
}

/// Returns the visible value of a key, which counts as a use of it, and false; or else what `make` makes, and true: a value is then
/// inserted. A visible value for which `replace_if` returns true counts as none. Closures run before anything changes, and the key is made
/// only if a value is inserted. Returns `OutOfMemory` if `make` or another allocation fails, and `UsedUp` if the 64-bit numbers of writes
/// are used up; then nothing has changed.
pub fn coalesce<
    K: Eq + Hash + Drop,
    V: Clone + Drop,
    S: BuildHasher,
    R: Rules<K, V>,
    F: Drop,
    Q: IntoKey<K>,
    P: FnOnce(&V) -> bool + Drop,
    M: FnOnce() -> Result<Made<V, F>, AllocError> + Drop,
>(
    part: &mut BaseCache<K, V, S, R>,
    name: Q,
    hash: u64,
    at: At,
    replace_if: P,
    make: M,
) -> Result<(Made<V, F>, bool), CacheError>
    requires hashed { hash ≡ ⟦<S as Hashes<K>>⟧.hash part.old.hasher (Q.named_key name) }
    requires becomes { Q.can_become name }
    requires exact { (x y : V) → V.is_clone x y → y ≡ x }
    requires callable { P.IsAlwaysCallable replace_if × M.IsAlwaysCallable make }
    requires ready { IsReady part.old }
    ensures answer { IfOk result (CoalescesPart R.answers K.eq (Q.named_key name) hash at
        (FnOnceReturnsAt P.FnOnce replace_if) (M.post make) part.old part.new) }
    ensures err { OnErr result (part.new ≡ part.old) }
    ensures cause { IfErr result (IsCause 1 part.old) }
{
    let (ignored, found) = part.get_with_hash_unless(&name, hash, at.now, replace_if)?;
    match found {
        Some(value) => Ok((Made::Value(value), false)),
        None => {
            let made = make()?;
            let answer = settle(part, name, hash, made, at, ignored)?;
            Ok((answer, true))
        }
    }
}
