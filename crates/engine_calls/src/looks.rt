//! Look-ups by key, and what follows them.
ghost use Rattle.std.specs.Prelude.{◌≡◌, ℕ, true, is_some, Option, Some, IfOk, option_map, option_copied};
ghost use Rattle.std.specs.Fn.{FnOnceReturnsAt};
ghost use Rattle.engine_calls.specs.Finding.{WasFound, PassesOver};
ghost use Rattle.engine_cells.specs.Kept.{kept_at};
ghost use Rattle.engine_reference.specs.Records.{held_at};
ghost use Rattle.engine_reference.specs.Scanning.{past};
ghost use Rattle.engine_reference.specs.Visible.{is_visible, visible_record};
ghost use Rattle.engine_reference.specs.declared.data.Record.{Record};

use engine_cells::Cell;
use engine_reference::{Hashes, Names, Rules};
use engine_tables::Tables;
use std::alloc::AllocError;
use std::hash::{BuildHasher, Hash};

/// Returns the record of a key, or `None` if no record of the key is held.
pub fn held<'a, K: Eq + Hash, V, S: BuildHasher, R: Rules<K, V>, Q: Names<K>>(
    tables: &'a Tables<K, V, S, R>,
    key: &Q,
    hash: u64,
) -> Option<&'a Cell<K, V>>
    requires hashed { hash ≡ ⟦<S as Hashes<K>>⟧.hash tables.now.state.hasher (Q.named_key key.now) }
    ensures { option_copied result ≡ held_at K.eq tables.now.state.records (Q.named_key key.now) }
{
    match tables.place_of(key, hash) {
        Some(place) => Some(tables.record_in(place)),
        None => None,
    }
}

/// Whether the record in a place is alive and not covered by a clear or a predicate.
fn is_seen_at<K: Eq + Hash, V, S: BuildHasher, R: Rules<K, V>>(
    tables: &Tables<K, V, S, R>,
    place: usize,
    now: u64,
) -> bool
    requires { is_some (kept_at tables.now place) ≡ true }
    ensures { (r : Record K V) → kept_at tables.now place ≡ Some r
        → result ≡ is_visible R.answers tables.now.state now r.entry }
{
    let found = tables.record_in(place);
    !found.is_dead(tables.settings(), now) && !tables.is_over(found)
}

/// Returns the place of the visible record of a key, or `None` if there is none.
pub fn find<K: Eq + Hash, V, S: BuildHasher, R: Rules<K, V>, Q: Names<K>>(
    tables: &Tables<K, V, S, R>,
    key: &Q,
    hash: u64,
    now: u64,
) -> Option<usize>
    requires hashed { hash ≡ ⟦<S as Hashes<K>>⟧.hash tables.now.state.hasher (Q.named_key key.now) }
    ensures { WasFound tables.now hash result
        (visible_record R.answers K.eq tables.now.state now (Q.named_key key.now)) }
{
    match tables.place_of(key, hash) {
        Some(place) => {
            if is_seen_at(tables, place, now) {
                Some(place)
            } else {
                None
            }
        }
        None => None,
    }
}

/// Returns the place of the visible record of a key, or `None` if there is none or it is to be passed over.
pub fn find_unless<K: Eq + Hash, V, S: BuildHasher, R: Rules<K, V>, Q: Names<K>>(
    tables: &Tables<K, V, S, R>,
    key: &Q,
    hash: u64,
    now: u64,
    ignored: bool,
) -> Option<usize>
    requires hashed { hash ≡ ⟦<S as Hashes<K>>⟧.hash tables.now.state.hasher (Q.named_key key.now) }
    ensures { WasFound tables.now hash result
        (past ignored (visible_record R.answers K.eq tables.now.state now (Q.named_key key.now))) }
{
    if ignored {
        return None;
    }
    find(tables, key, hash, now)
}

/// Returns the visible record of a key, or `None` if there is none.
pub fn look_up<'a, K: Eq + Hash, V, S: BuildHasher, R: Rules<K, V>, Q: Names<K>>(
    tables: &'a Tables<K, V, S, R>,
    key: &Q,
    hash: u64,
    now: u64,
) -> Option<&'a Cell<K, V>>
    requires hashed { hash ≡ ⟦<S as Hashes<K>>⟧.hash tables.now.state.hasher (Q.named_key key.now) }
    ensures { option_copied result ≡ visible_record R.answers K.eq tables.now.state now
        (Q.named_key key.now) }
{
    match find(tables, key, hash, now) {
        Some(place) => Some(tables.record_in(place)),
        None => None,
    }
}

/// Returns a clone of a record's value, or `None` without a record. Returns an error if there is not enough memory.
pub fn clone_value<K, V: Clone>(found: Option<&Cell<K, V>>) -> Result<Option<V>, AllocError>
    requires exact { (x y : V) → V.is_clone x y → y ≡ x }
    ensures { IfOk result
        (λ value. value ≡ option_map (λ r. r.entry.value) (option_copied found.entry)) }
{
    match found {
        Some(found) => {
            let value = found.value().clone()?;
            Ok(Some(value))
        }
        None => Ok(None),
    }
}

/// Returns a clone of a record's key, or `None` without a record. Returns an error if there is not enough memory.
pub fn clone_key<K: Clone, V>(found: Option<&Cell<K, V>>) -> Result<Option<K>, AllocError>
    requires exact_key { (x y : K) → K.is_clone x y → y ≡ x }
    ensures { IfOk result (λ key. key ≡ option_map (λ r. r.entry.key) (option_copied found.entry)) }
{
    match found {
        Some(found) => {
            let key = found.key().clone()?;
            Ok(Some(key))
        }
        None => Ok(None),
    }
}

/// Returns a clone of the value of what was found, or `None` if nothing was. Returns an error if there is not enough memory.
pub fn clone_found<K: Eq + Hash, V: Clone, S: BuildHasher, R: Rules<K, V>>(
    tables: &Tables<K, V, S, R>,
    place: Option<usize>,
) -> Result<Option<V>, AllocError>
    requires exact { (x y : V) → V.is_clone x y → y ≡ x }
    requires found { (hash : ℕ) × (o : Option (Record K V)) × WasFound tables.now hash place o }
    ensures { IfOk result (λ value. (hash : ℕ) (o : Option (Record K V))
        → WasFound tables.now hash place o → value ≡ option_map (λ r. r.entry.value) o) }
{
    match place {
        Some(place) => {
            let value = tables.record_in(place).value().clone()?;
            Ok(Some(value))
        }
        None => Ok(None),
    }
}

/// What is said of a value.
fn says_of<V, F: FnOnce(&V) -> bool>(ignore_if: F, value: &V) -> bool
    requires { F.IsAlwaysCallable ignore_if }
    ensures { FnOnceReturnsAt F.FnOnce ignore_if value.now result }
{
    ignore_if(value)
}

/// Whether the value in a place is one to pass over.
fn is_ignored<K: Eq + Hash, V, S: BuildHasher, R: Rules<K, V>, F: FnOnce(&V) -> bool>(
    tables: &Tables<K, V, S, R>,
    place: usize,
    ignore_if: F,
) -> bool
    requires callable { F.IsAlwaysCallable ignore_if }
    requires there { is_some (kept_at tables.now place) ≡ true }
    ensures { (r : Record K V) → kept_at tables.now place ≡ Some r
        → FnOnceReturnsAt F.FnOnce ignore_if r.entry.value result }
{
    let found = tables.record_in(place);
    says_of(ignore_if, found.value())
}

/// Returns the place of what was found, or `None` if nothing was or `ignore_if` returns true for its value. `ignore_if` is called only if
/// something was found.
pub fn pass_over<K: Eq + Hash, V, S: BuildHasher, R: Rules<K, V>, F: FnOnce(&V) -> bool + Drop>(
    tables: &Tables<K, V, S, R>,
    place: Option<usize>,
    ignore_if: F,
) -> Option<usize>
    requires callable { F.IsAlwaysCallable ignore_if }
    requires found { (hash : ℕ) × (o : Option (Record K V)) × WasFound tables.now hash place o }
    ensures { (hash : ℕ) (o : Option (Record K V)) → WasFound tables.now hash place o
        → PassesOver (FnOnceReturnsAt F.FnOnce ignore_if) tables.now hash o result }
{
    match place {
        Some(place) => {
            if is_ignored(tables, place, ignore_if) {
                None
            } else {
                Some(place)
            }
        }
        None => None,
    }
}
