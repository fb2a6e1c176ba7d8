//! What is done about a pending write.
ghost use Rattle.std.specs.Prelude.{◌≡◌, ◌+◌, true, Some, is_some};
ghost use Rattle.engine_cells.specs.Kept.{kept_at};
ghost use Rattle.engine_reference.specs.Admission.{is_above, contest, shortest_front, verdict, verdict_of_full};
ghost use Rattle.engine_reference.specs.Records.{settled_in};
ghost use Rattle.engine_reference.specs.declared.data.Record.{Record};
ghost use Rattle.engine_runs.specs.Deciding.{decided, decision, refused_as};

use crate::contesting::is_won;
use engine_cells::Cell;
use engine_reference::{EvictionPolicy, Rules, Upsert};
use engine_tables::Tables;
use std::hash::{BuildHasher, Hash};

/// What is done about a pending write, if its record is there.
#[derive(Clone, Copy)]
pub enum Decision {
    /// Nothing is done, as a later write was applied.
    Skip,
    /// The record is admitted, with its weight.
    Count,
    /// The record is admitted, and others are evicted for it.
    Displace,
    /// The record stays as it is, as it was written or removed since.
    PutOff,
    /// The record leaves: it is not admitted.
    Refuse,
}

/// Whether a capacity is set, and a weight is above it.
fn is_above(capacity: Option<u64>, weight: u64) -> bool
    ensures { result ≡ is_above capacity weight }
{
    match capacity {
        Some(capacity) => capacity < weight,
        None => false,
    }
}

/// What is done about a refused record.
fn refused_as<K, V>(found: &Cell<K, V>, write: Upsert) -> Decision
    ensures { result ≡ refused_as write found.now }
{
    if !found.is_held() || write.write < found.writes() {
        Decision::PutOff
    } else {
        Decision::Refuse
    }
}

/// What the contest of a newcomer with those that would go for it comes to.
fn contest<K: Eq + Hash, V, S: BuildHasher, R: Rules<K, V>>(
    tables: &Tables<K, V, S, R>,
    found: &Cell<K, V>,
    write: Upsert,
) -> Decision
    ensures { result ≡ decided (refused_as write found.now)
        (contest tables.now.state.sketch write.hash (shortest_front write.weight
        (settled_in tables.now.state.records tables.now.state.access))) }
{
    let wanted = tables.sketch().frequency(write.hash);
    if is_won(tables, write.weight, wanted) {
        Decision::Displace
    } else {
        refused_as(found, write)
    }
}

/// What is done about a newcomer for which there is no room, though alone it fits.
fn decide_full<K: Eq + Hash, V, S: BuildHasher, R: Rules<K, V>>(
    tables: &Tables<K, V, S, R>,
    found: &Cell<K, V>,
    write: Upsert,
) -> Decision
    ensures { result ≡ decided (refused_as write found.now)
        (verdict_of_full tables.now.state.settings.policy tables.now.state.sketch write
        (settled_in tables.now.state.records tables.now.state.access)) }
{
    match tables.settings().policy {
        EvictionPolicy::Lru => Decision::Count,
        EvictionPolicy::TinyLfu => contest(tables, found, write),
    }
}

/// What is done about a newcomer.
fn judge<K: Eq + Hash, V, S: BuildHasher, R: Rules<K, V>>(
    tables: &Tables<K, V, S, R>,
    found: &Cell<K, V>,
    write: Upsert,
) -> Decision
    ensures { result ≡ decided (refused_as write found.now) (verdict tables.now.state write) }
{
    let capacity = tables.settings().capacity;
    let weight = u64::from(write.weight);
    if !is_above(capacity, tables.admitted_weight() + weight) {
        return Decision::Count;
    }
    if is_above(capacity, weight) {
        return refused_as(found, write);
    }
    decide_full(tables, found, write)
}

/// What is done about a pending write of a record.
fn decide_on<K: Eq + Hash, V, S: BuildHasher, R: Rules<K, V>>(
    tables: &Tables<K, V, S, R>,
    found: &Cell<K, V>,
    write: Upsert,
) -> Decision
    ensures { result ≡ decision tables.now.state write found.now }
{
    if write.write <= found.applied() {
        return Decision::Skip;
    }
    if found.counts().is_some() {
        return Decision::Count;
    }
    judge(tables, found, write)
}

/// Returns what is done about a pending write of the record in a place.
pub fn decide<K: Eq + Hash, V, S: BuildHasher, R: Rules<K, V>>(
    tables: &Tables<K, V, S, R>,
    place: usize,
    write: Upsert,
) -> Decision
    requires { is_some (kept_at tables.now place) ≡ true }
    ensures { (r : Record K V) → kept_at tables.now place ≡ Some r
        → result ≡ decision tables.now.state write r }
{
    let found = tables.record_in(place);
    decide_on(tables, found, write)
}
