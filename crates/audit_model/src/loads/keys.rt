//! Numbers of loads by key.
ghost use Rattle.std.specs.Prelude.{◌≡◌, ℕ, List, OnOk, OnErr, Some, None, cond};
ghost use Rattle.audit_model.specs.Bytewise.{same};
ghost use Rattle.audit_model.specs.Underway.{number_at};

use std::alloc::AllocError;
use std::collections::BTreeMap;

/// Returns the number at a key, or `None` if there is none.
pub fn number_at(keys: &BTreeMap<Vec<u8>, u64>, key: &[u8]) -> Option<u64>
    ensures { result ≡ number_at key.now keys.now }
{
    keys.get(key).copied()
}

/// Puts a number at a key. Returns an error if there is not enough memory; then nothing has changed.
pub fn put_key(
    keys: &mut BTreeMap<Vec<u8>, u64>,
    key: Vec<u8>,
    number: u64,
) -> Result<(), AllocError>
    ensures put { OnOk result ((q : List ℕ) → number_at q keys.new
        ≡ cond (same key.items q) (Some number) (number_at q keys.old)) }
    ensures unchanged { OnErr result ((q : List ℕ) → number_at q keys.new ≡ number_at q keys.old) }
{
    keys.insert(key, number)?;
    Ok(())
}

/// Removes a key.
pub fn remove_key(keys: &mut BTreeMap<Vec<u8>, u64>, key: &[u8])
    ensures { (q : List ℕ) → number_at q keys.new
        ≡ cond (same key.now q) None (number_at q keys.old) }
{
    keys.remove(key);
}
