//! The keys of the values that no prefix covers, in byte order: those that begin so stand next to each other.
ghost use Rattle.std.specs.Prelude.{◌≡◌, ◌<◌, ℕ, List, Bool, true, false, cond, not, ◌&&◌, nat_eq, IfOk, OnOk, IfSome, IfNone};
ghost use Rattle.std.specs.List.{starts_with};
ghost use Rattle.std.specs.BTreeSet.{btree_set_len};
ghost use Rattle.audit_model.specs.Bytewise.{same};
ghost use Rattle.audit_situation.specs.Held.Holds.{is_open_key};

use std::alloc::{AllocError, Global};
use std::collections::BTreeSet;

/// Returns whether a key is open: no prefix covered it since it was opened.
pub fn is_open(keys: &BTreeSet<Vec<u8>>, key: &[u8]) -> bool
    ensures { result ≡ is_open_key key.now keys.now }
{
    keys.contains(key)
}

/// Opens a key. Returns an error if there is not enough memory.
pub fn open_key(alloc: Global, keys: &mut BTreeSet<Vec<u8>>, key: &[u8]) -> Result<(), AllocError>
    ensures { OnOk result ((q : List ℕ) → is_open_key q keys.new
        ≡ cond (same key.now q) true (is_open_key q keys.old)) }
{
    let owned = Vec::from_slice(alloc, key)?;
    keys.insert(owned)?;
    Ok(())
}

/// Closes a key.
pub fn close_key(keys: &mut BTreeSet<Vec<u8>>, key: &Vec<u8>)
    ensures closed { (q : List ℕ) → is_open_key q keys.new
        ≡ cond (same key.now.items q) false (is_open_key q keys.old) }
    ensures fewer { is_open_key key.now.items keys.old ≡ true
        → btree_set_len keys.new < btree_set_len keys.old }
{
    let _was = keys.remove(key.as_slice());
}

/// Returns the first open key that begins with a prefix.
fn first_with<'a>(keys: &'a BTreeSet<Vec<u8>>, prefix: &'a Vec<u8>) -> Option<&'a Vec<u8>>
    ensures begins { IfSome result (λ k. starts_with nat_eq k.now.items prefix.now.items ≡ true) }
    ensures member { IfSome result (λ k. is_open_key k.now.items keys.now ≡ true) }
    ensures none { IfNone result ((q : List ℕ) → starts_with nat_eq q prefix.now.items ≡ true
        → is_open_key q keys.now ≡ false) }
{
    match keys.range(prefix..).next() {
        Some(key) if key.starts_with(prefix.as_slice()) => Some(key),
        _ => None,
    }
}

/// Closes the first open key that begins with a prefix, if there is one, and returns whether there was.
fn close_next(
    alloc: Global,
    keys: &mut BTreeSet<Vec<u8>>,
    prefix: &Vec<u8>,
) -> Result<bool, AllocError>
    ensures others { (q : List ℕ) → starts_with nat_eq q prefix.now.items ≡ false
        → is_open_key q keys.new ≡ is_open_key q keys.old }
    ensures done { IfOk result (λ more. more ≡ false → (q : List ℕ)
        → starts_with nat_eq q prefix.now.items ≡ true → is_open_key q keys.new ≡ false) }
    ensures fewer { IfOk result
        (λ more. more ≡ true → btree_set_len keys.new < btree_set_len keys.old) }
{
    let key = match first_with(keys, prefix) {
        Some(key) => Vec::from_slice(alloc, key.as_slice())?,
        None => return Ok(false),
    };
    close_key(keys, &key);
    Ok(true)
}

/// Closes each open key that begins with a prefix. Returns an error if there is not enough memory.
pub fn close_all(
    alloc: Global,
    keys: &mut BTreeSet<Vec<u8>>,
    prefix: &[u8],
) -> Result<(), AllocError>
    ensures { OnOk result ((q : List ℕ) → is_open_key q keys.new
        ≡ (not (starts_with nat_eq q prefix.now) && is_open_key q keys.old)) }
{
    let start = Vec::from_slice(alloc, prefix)?;
    let mut more = true;
    while more {
        more = close_next(alloc, keys, &start)?;
    }
    Ok(())
}
