//! Settled records that go for a newcomer.
ghost use Rattle.std.specs.Prelude.{◌≡◌, ◌<◌, length, Some, IfSome, IfNone, true, false, is_some};
ghost use Rattle.engine_cells.specs.Kept.{kept_at};
ghost use Rattle.engine_reference.specs.Runs.{counting, next_to_evict};
ghost use Rattle.engine_reference.specs.declared.data.Record.{Record};
ghost use Rattle.engine_runs.specs.Displacing.{front_of, displaced, GivesWay, KeepsUncounted};

use engine_reference::{RemovalCause, Rules, Upsert};
use engine_tables::Tables;
use std::hash::{BuildHasher, Hash};

/// The place of the next record to evict, if the weight is not reached yet.
fn next_victim<K: Eq + Hash, V, S: BuildHasher, R: Rules<K, V>>(
    tables: &Tables<K, V, S, R>,
    left: u32,
) -> Option<usize>
    requires { is_some (front_of left tables.now.state) ≡ true }
    ensures some { IfSome result (λ i. 0 < left) }
    ensures oldest { IfSome result (λ i. (r : Record K V) × (kept_at tables.now i ≡ Some r)
        × (next_to_evict tables.now.state ≡ Some r)) }
    ensures none { IfNone result (displaced left tables.now.state ≡ tables.now.state) }
{
    if left == 0 {
        return None;
    }
    tables.first_settled()
}

/// Evicts the settled record used longest ago. Returns how much of the weight is left to reach.
fn displace_one<K: Eq + Hash + Drop, V: Drop, S: BuildHasher, R: Rules<K, V>>(
    tables: &mut Tables<K, V, S, R>,
    place: usize,
    left: u32,
) -> u32
    requires front { is_some (front_of left tables.old.state) ≡ true }
    requires some { 0 < left }
    requires oldest { (r : Record K V) × (kept_at tables.old place ≡ Some r)
        × (next_to_evict tables.old.state ≡ Some r) }
    ensures way { GivesWay left result tables.old tables.new }
    ensures fewer { length tables.new.state.records < length tables.old.state.records }
{
    tables.access_stands();
    let weight = tables.record_in(place).counts().unwrap_or(0);
    tables.leave(place, RemovalCause::Size);
    left.saturating_sub(weight)
}

/// Evicts the shortest front of settled records that reaches a weight; there is one.
fn displace<K: Eq + Hash + Drop, V: Drop, S: BuildHasher, R: Rules<K, V>>(
    tables: &mut Tables<K, V, S, R>,
    weight: u32,
)
    requires { is_some (front_of weight tables.old.state) ≡ true }
    ensures gone { tables.new.state ≡ displaced weight tables.old.state }
    ensures keeps { KeepsUncounted tables.old tables.new }
{
    let mut left = weight;
    while let Some(place) = next_victim(tables, left) {
        left = displace_one(tables, place, left);
    }
}

/// The record in a place counts with the weight of its write, for which others go.
pub(crate) fn displace_for<K: Eq + Hash + Drop, V: Drop, S: BuildHasher, R: Rules<K, V>>(
    tables: &mut Tables<K, V, S, R>,
    place: usize,
    write: Upsert,
)
    requires front { is_some (front_of write.weight tables.old.state) ≡ true }
    requires found { (r : Record K V) × (kept_at tables.old place ≡ Some r)
        × (r.number ≡ write.number) × (is_some r.counts ≡ false) }
    ensures { tables.new.state ≡ counting write (displaced write.weight tables.old.state) }
{
    displace(tables, write.weight);
    tables.count(place, write.write, write.weight);
}
