//! Calls on all parts.
ghost use Rattle.std.specs.Prelude.{◌≡◌, ℕ, [], Some, min, slice_get, sum_by};
ghost use Rattle.std.specs.List.{list_any};
ghost use Rattle.engine_reference.specs.Calls.{cleared_by};
ghost use Rattle.engine_reference.specs.State.{State};
ghost use Rattle.front_reference.specs.Fronts.{CallsEach};
ghost use Rattle.front_reference.specs.Wholes.{RunsPart, visible_number};

use crate::{BaseCache, run_pending_tasks};
use engine_reference::Rules;
use policy_base::Instant;
use std::hash::{BuildHasher, Hash};

/// Runs maintenance of each part to its end.
pub fn run_all<K: Eq + Hash + Drop, V: Drop, S: BuildHasher, R: Rules<K, V>>(
    parts: &mut Vec<BaseCache<K, V, S, R>>,
    now: Instant,
)
    requires { (place : ℕ) (s : State K V R.Predicate S R)
        → slice_get parts.old.items place ≡ Some s → s.unsent ≡ [] }
    ensures { CallsEach (RunsPart R.answers now) parts.old.items parts.new.items }
{
    let count = parts.len();
    for place in 0..count {
        let part = &mut parts[place];
        run_pending_tasks(part, now);
    }
}

/// Returns whether the last run of a part needed the sketch's table and there was no memory for it.
pub fn is_table_refused<K: Eq + Hash, V, S: BuildHasher, R: Rules<K, V>>(
    parts: &[BaseCache<K, V, S, R>],
) -> bool
    ensures { result ≡ list_any (λ s. s.table_refused) parts.now }
{
    let mut rest = parts;
    while let Some((part, others)) = rest.split_first() {
        if part.is_table_refused() {
            return true;
        }
        rest = others;
    }
    false
}

/// Covers, in each part, every value that was written at an earlier step.
pub fn clear_all<K: Eq + Hash, V, S: BuildHasher, R: Rules<K, V>>(
    parts: &mut Vec<BaseCache<K, V, S, R>>,
    step: u64,
)
    ensures { CallsEach (λ s t. t ≡ cleared_by step s) parts.old.items parts.new.items }
{
    let count = parts.len();
    for place in 0..count {
        let part = &mut parts[place];
        part.invalidate_all(step);
    }
}

/// Returns how many records the parts admitted, as of the last run of each part.
pub fn sum_numbers<K: Eq + Hash, V, S: BuildHasher, R: Rules<K, V>>(
    parts: &[BaseCache<K, V, S, R>],
) -> u64
    ensures { result ≡ min (sum_by (λ s. s.number) parts.now) 18446744073709551615 }
{
    let mut total = 0u64;
    let mut rest = parts;
    while let Some((part, others)) = rest.split_first() {
        total = total.saturating_add(part.entry_count());
        rest = others;
    }
    total
}

/// Returns what the records that the parts admitted weigh together, as of the last run of each part.
pub fn sum_weights<K: Eq + Hash, V, S: BuildHasher, R: Rules<K, V>>(
    parts: &[BaseCache<K, V, S, R>],
) -> u64
    ensures { result ≡ min (sum_by (λ s. s.weight) parts.now) 18446744073709551615 }
{
    let mut total = 0u64;
    let mut rest = parts;
    while let Some((part, others)) = rest.split_first() {
        total = total.saturating_add(part.weighted_size());
        rest = others;
    }
    total
}

/// Returns how many keys have a visible value at `now`.
pub fn count_visible<K: Eq + Hash, V, S: BuildHasher, R: Rules<K, V>>(
    parts: &[BaseCache<K, V, S, R>],
    now: Instant,
) -> usize
    ensures { result ≡ visible_number R.answers K.eq now parts.now }
{
    let mut total = 0usize;
    let mut rest = parts;
    while let Some((part, others)) = rest.split_first() {
        total = total.saturating_add(part.count_visible(now));
        rest = others;
    }
    total
}
