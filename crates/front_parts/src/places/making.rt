//! Parts that were just created.
ghost use Rattle.std.specs.Prelude.{◌≡◌, ◌<◌, ◌≤◌, None, IfOk, length};
ghost use Rattle.engine_reference.specs.Calls.{IsNew};
ghost use Rattle.front_reference.specs.Fronts.{share_of};
ghost use Rattle.front_parts.specs.Places.Making.{AreNew, with_share};

use crate::BaseCache;
use engine_reference::{Rules, Settings};
use policy_base::HousekeeperConfig;
use std::alloc::{AllocError, Global};
use std::hash::{BuildHasher, Hash};

/// The share of each of this many parts of a configured capacity, rounded up.
fn share_of(parts: u64, capacity: u64) -> u64
    requires some { 0 < parts }
    requires few { parts ≤ 65536 }
    ensures { result ≡ share_of parts capacity }
{
    let wanted = u128::from(capacity) + (u128::from(parts) - 1);
    (wanted / u128::from(parts)) as u64
}

/// Returns the settings of each of this many parts: those of all, with a share of the capacity.
pub fn for_part(parts: u64, settings: Settings) -> Settings
    requires some { 0 < parts }
    requires few { parts ≤ 65536 }
    ensures { result ≡ with_share parts settings }
{
    let capacity = match settings.capacity {
        Some(capacity) => Some(share_of(parts, capacity)),
        None => None,
    };
    Settings {
        capacity,
        live: settings.live,
        idle: settings.idle,
        policy: settings.policy,
        tells: settings.tells,
        takes_predicates: settings.takes_predicates,
        made: settings.made,
    }
}

/// Creates `count` parts, each with room for `initial_capacity` entries. Returns an error if there is not enough memory.
pub fn new_parts<
    K: Eq + Hash + Drop,
    V: Drop,
    S: BuildHasher + Clone + Drop,
    R: Rules<K, V> + Clone + Drop,
>(
    alloc: Global,
    count: usize,
    initial_capacity: usize,
    settings: Settings,
    hasher: &S,
    rules: &R,
) -> Result<Vec<BaseCache<K, V, S, R>>, AllocError>
    requires exact_hasher { (x y : S) → S.is_clone x y → y ≡ x }
    requires exact_rules { (x y : R) → R.is_clone x y → y ≡ x }
    ensures count { IfOk result (λ parts. length parts.items ≡ count) }
    ensures new { IfOk result (λ parts. AreNew settings hasher.now rules.now parts.items) }
{
    let mut parts = Vec::with_capacity(alloc, count)?;
    for _ in 0..count {
        let part = new_part(alloc, initial_capacity, settings, hasher, rules)?;
        parts.push(part)?;
    }
    Ok(parts)
}

/// Creates a part with room for `initial_capacity` entries.
fn new_part<
    K: Eq + Hash + Drop,
    V: Drop,
    S: BuildHasher + Clone + Drop,
    R: Rules<K, V> + Clone + Drop,
>(
    alloc: Global,
    initial_capacity: usize,
    settings: Settings,
    hasher: &S,
    rules: &R,
) -> Result<BaseCache<K, V, S, R>, AllocError>
    requires exact_hasher { (x y : S) → S.is_clone x y → y ≡ x }
    requires exact_rules { (x y : R) → R.is_clone x y → y ≡ x }
    ensures { IfOk result (λ part. IsNew None settings hasher.now rules.now part) }
{
    let hasher = hasher.clone()?;
    let rules = rules.clone()?;
    BaseCache::new(
        alloc,
        None,
        initial_capacity,
        settings,
        HousekeeperConfig::default(),
        hasher,
        rules,
    )
}
