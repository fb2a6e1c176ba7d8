//! Uses of records, and their reads.
ghost use Rattle.std.specs.Prelude.{◌≡◌, ◌<◌, ℕ, true, length, is_some, Some};
ghost use Rattle.engine_calls.specs.Bounds.{AreBounded};
ghost use Rattle.engine_cells.specs.Kept.{kept_at};
ghost use Rattle.engine_reference.specs.Calls.{with_read};
ghost use Rattle.engine_reference.specs.Records.{record_at};
ghost use Rattle.engine_reference.specs.declared.data.Record.{Record};

use crate::entries::expires_after_use;
use engine_reference::Rules;
use engine_tables::Tables;
use policy_base::Instant;
use std::hash::{BuildHasher, Hash};

/// Notes that a look-up used the record in a place, and adds its read to those that wait to be counted.
pub fn use_in<K: Eq + Hash, V, S: BuildHasher, R: Rules<K, V>>(
    tables: &mut Tables<K, V, S, R>,
    place: usize,
    hash: u64,
    now: Instant,
)
    requires room { length tables.old.state.reads < 64 }
    requires bounded { AreBounded tables.old.state }
    requires there { is_some (kept_at tables.old place) ≡ true }
    ensures { (r : Record K V) → kept_at tables.old place ≡ Some r
        → tables.new.state ≡ with_read R.answers (Some r) hash now tables.old.state }
{
    let expires = expires_after_use(tables, place, now);
    let number = tables.use_at(place, now.as_nanos(), expires);
    tables.push_hit(place, number, hash);
}

/// Notes that a look-up that found the record of a number used it, if it is still there, and adds its read to those that wait to be
/// counted.
pub fn use_found<K: Eq + Hash, V, S: BuildHasher, R: Rules<K, V>>(
    tables: &mut Tables<K, V, S, R>,
    number: u64,
    hash: u64,
    now: Instant,
)
    requires room { length tables.old.state.reads < 64 }
    requires bounded { AreBounded tables.old.state }
    requires made { number < tables.old.state.next_number }
    requires held { (r : Record K V) → record_at tables.old.state.records number ≡ Some r
        → (r.is_held ≡ true) × (r.hash ≡ hash) }
    ensures { (r : Record K V) → r.number ≡ number
        → tables.new.state ≡ with_read R.answers (Some r) hash now tables.old.state }
{
    match tables.place_of_number(number, hash) {
        Some(place) => use_in(tables, place, hash, now),
        None => tables.push_gone(number, hash),
    }
}
