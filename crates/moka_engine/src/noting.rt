//! The second half of a look-up.
ghost use Rattle.std.specs.Prelude.{◌≡◌, true, Option};
ghost use Rattle.moka_engine.specs.Keeping.{IsWellKept, NotesRead};
ghost use Rattle.engine_calls.specs.Finding.{IsFoundIn, WasFound};
ghost use Rattle.engine_reference.specs.Runs.{is_due};
ghost use Rattle.engine_reference.specs.declared.data.Record.{Record};

use engine_calls::{use_found, use_in};
use engine_reference::Rules;
use engine_runs::{run, run_if_due};
use engine_tables::Tables;
use policy_base::Instant;
use std::hash::{BuildHasher, Hash};

/// Runs maintenance. Then the record that was found in a place is used, if it is still there, and its read waits to be counted.
#[tactic(auto, using(crate::proofs::Keeping::kept_sound))]
fn note_after_run<K: Eq + Hash + Drop, V: Drop, S: BuildHasher, R: Rules<K, V>>(
    tables: &mut Tables<K, V, S, R>,
    place: usize,
    hash: u64,
    now: Instant,
)
    requires kept { IsWellKept tables.old.state }
    requires due { is_due tables.old.state now ≡ true }
    requires found { (o : Option (Record K V)) × IsFoundIn tables.old hash o place }
    ensures { (o : Option (Record K V)) → IsFoundIn tables.old hash o place
        → NotesRead R.answers o hash now tables.old.state tables.new.state }
{
    let number = tables.record_in(place).number();
    run(tables, now.as_nanos());
    use_found(tables, number, hash, now);
}

/// Runs maintenance if it is due. Then the record that was found in a place is used, if it is still there, and its read waits to be
/// counted.
fn note_hit<K: Eq + Hash + Drop, V: Drop, S: BuildHasher, R: Rules<K, V>>(
    tables: &mut Tables<K, V, S, R>,
    place: usize,
    hash: u64,
    now: Instant,
)
    requires kept { IsWellKept tables.old.state }
    requires found { (o : Option (Record K V)) × IsFoundIn tables.old hash o place }
    ensures { (o : Option (Record K V)) → IsFoundIn tables.old hash o place
        → NotesRead R.answers o hash now tables.old.state tables.new.state }
{
    if tables.is_due(now.as_nanos()) {
        note_after_run(tables, place, hash, now);
    } else {
        use_in(tables, place, hash, now);
    }
}

/// Runs maintenance if it is due. Then the read of what was found waits to be counted. A record that was found counts as used, if it is
/// still there.
#[tactic(auto, using(crate::proofs::Keeping::kept_sound))]
pub fn note_read<K: Eq + Hash + Drop, V: Drop, S: BuildHasher, R: Rules<K, V>>(
    tables: &mut Tables<K, V, S, R>,
    place: Option<usize>,
    hash: u64,
    now: Instant,
)
    requires kept { IsWellKept tables.old.state }
    requires found { (o : Option (Record K V)) × WasFound tables.old hash place o }
    ensures { (o : Option (Record K V)) → WasFound tables.old hash place o
        → NotesRead R.answers o hash now tables.old.state tables.new.state }
{
    match place {
        Some(place) => note_hit(tables, place, hash, now),
        None => {
            run_if_due(tables, now.as_nanos());
            tables.push_miss(hash);
        }
    }
}
