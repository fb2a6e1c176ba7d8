//! What a front decides by.
ghost use Rattle.front_parts.specs.Places.Calls.{Ways, ways_by};

use engine_reference::Rules;
use std::hash::{BuildHasher, Hash};

/// Every type of rules, with what contracts say of it together with the keys and the hasher of a front.
pub trait HasWays<K, V, S>: Rules<K, V> {
    /// The results of the rules, which keys are equal, and how the hasher hashes a key.
    ghost ways: { Ways K V Self.Predicate S Self };
}

impl<K: Eq + Hash, V, S: BuildHasher, R: Rules<K, V>> HasWays<K, V, S> for R {
    ghost ways = { ways_by R.Rules K.eq K.hash_input S.BuildHasher S.Hasher.Hasher };
}
