//! Pending reads and writes.
ghost use Rattle.std.specs.Prelude.{◌≡◌, ℕ, ◌<◌, [], length, slice_get, Some};
ghost use Rattle.engine_cells.specs.Kept.{kept_at};
ghost use Rattle.engine_cells.specs.Noting.{AimsOnlyAt};
ghost use Rattle.engine_reference.specs.Records.{record_at};
ghost use Rattle.engine_reference.specs.Runs.{after_put, after_write, all_applied, IsApplied};
ghost use Rattle.engine_reference.specs.Soundness.{number_of};
ghost use Rattle.engine_reference.specs.State.{Answers};
ghost use Rattle.engine_reference.specs.declared.data.Record.{Record};
ghost use Rattle.engine_reference.specs.declared.data.Write.{Write};
ghost use Rattle.engine_cells.specs.Stretches.{Stretch};

use crate::deciding::{Decision, decide};
use crate::displacing::displace_for;
use engine_reference::{RemovalCause, Rules, Upsert, Write};
use engine_tables::Tables;
use std::hash::{BuildHasher, Hash};

/// A write of the record in a place is applied.
fn apply_found<K: Eq + Hash + Drop, V: Drop, S: BuildHasher, R: Rules<K, V>>(
    tables: &mut Tables<K, V, S, R>,
    place: usize,
    write: Upsert,
)
    requires { (r : Record K V) × (kept_at tables.old place ≡ Some r)
        × (record_at tables.old.state.records write.number ≡ Some r) }
    ensures { tables.new.state
        ≡ after_put write (record_at tables.old.state.records write.number) tables.old.state }
{
    match decide(tables, place, write) {
        Decision::Skip => {}
        Decision::Count => tables.count(place, write.write, write.weight),
        Decision::Displace => displace_for(tables, place, write),
        Decision::PutOff => tables.put_off(place, write.write),
        Decision::Refuse => tables.leave(place, RemovalCause::Size),
    }
}

/// Applies a write of a record. The record, if there is one of its number, can only be in this place.
pub fn apply_put<K: Eq + Hash + Drop, V: Drop, S: BuildHasher, R: Rules<K, V>>(
    tables: &mut Tables<K, V, S, R>,
    place: usize,
    write: Upsert,
)
    requires { AimsOnlyAt tables.old.numbers place write.number }
    ensures { tables.new.state
        ≡ after_put write (record_at tables.old.state.records write.number) tables.old.state }
{
    if tables.has_record(place, write.number) {
        apply_found(tables, place, write);
    }
}

/// Applies a write or the removal of a record. The record, if there is one of its number, can only be in this place.
pub fn apply_write<K: Eq + Hash + Drop, V: Drop, S: BuildHasher, R: Rules<K, V>>(
    tables: &mut Tables<K, V, S, R>,
    place: usize,
    write: Write,
)
    requires { AimsOnlyAt tables.old.numbers place (number_of write) }
    ensures { tables.new.state ≡ after_write write tables.old.state }
{
    match write {
        Write::Put(upsert) => apply_put(tables, place, upsert),
        Write::Removed(number) => tables.apply_removal(place, number),
    }
}

/// Counts all reads, the oldest first.
pub fn apply_reads<K: Eq + Hash, V, S: BuildHasher, R: Rules<K, V>>(tables: &mut Tables<K, V, S, R>)
    ensures stretch { (answers : Answers K V R.Predicate R) (moment : ℕ)
        → Stretch answers moment tables.old.state tables.new.state }
    ensures counted { tables.new.state.reads ≡ [] }
    ensures all { all_applied tables.new.state ≡ all_applied tables.old.state }
{
    for index in 0..tables.number_of_reads() {
        tables.apply_read(index);
    }
    tables.end_reads();
}

/// Applies the write at a place of those that wait.
fn apply_at<K: Eq + Hash + Drop, V: Drop, S: BuildHasher, R: Rules<K, V>>(
    tables: &mut Tables<K, V, S, R>,
    index: usize,
)
    requires { index < length tables.old.state.writes }
    ensures { (w : Write) × (slice_get tables.old.state.writes index ≡ Some w)
        × (tables.new.state ≡ after_write w tables.old.state) }
{
    let oldest = tables.write_at(index);
    let place = oldest.place;
    let write = oldest.write.to_write();
    apply_write(tables, place, write);
}

/// If no read is left to count, applies all writes, in the order in which they were sent.
pub fn apply_writes<K: Eq + Hash + Drop, V: Drop, S: BuildHasher, R: Rules<K, V>>(
    tables: &mut Tables<K, V, S, R>,
)
    requires { tables.old.state.reads ≡ [] }
    ensures stretch { (answers : Answers K V R.Predicate R) (moment : ℕ)
        → Stretch answers moment tables.old.state tables.new.state }
    ensures applied { IsApplied tables.new.state }
    ensures all { tables.new.state ≡ all_applied tables.old.state }
{
    for index in 0..tables.number_of_writes() {
        apply_at(tables, index);
    }
    tables.end_writes();
}
