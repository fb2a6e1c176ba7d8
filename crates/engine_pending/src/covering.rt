//! What predicates cover.
ghost use Rattle.std.specs.Prelude.{◌≡◌, nat_lt, ◌&&◌};
ghost use Rattle.std.specs.List.{list_any};

use engine_reference::{Registered, Rules};

/// Returns whether a predicate that was registered at a later step covers a value.
pub fn is_any_over<K, V, R: Rules<K, V>>(
    rules: &R,
    predicates: &[Registered<R::Predicate>],
    step: u64,
    key: &K,
    value: &V,
) -> bool
    ensures { result ≡ list_any (λ p. nat_lt step p.step
        && R.answers.covers rules.now p.predicate key.now value.now) predicates.now }
{
    for p in predicates {
        if step < p.step && rules.is_covered(&p.predicate, key, value) {
            return true;
        }
    }
    false
}
