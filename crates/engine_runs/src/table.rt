//! The sketch's table: when it is made, and for how many hashes.
ghost use Rattle.std.specs.Prelude.{◌≡◌, ◌==◌, ◌&&◌, ℕ, false, IfSome, IfNone};
ghost use Rattle.std.specs.Result.{is_err};
ghost use Rattle.engine_reference.specs.Admission.{sketch_room, wants_table};
ghost use Rattle.engine_reference.specs.Runs.{IsApplied, lacks_table};
ghost use Rattle.engine_reference.specs.State.{Answers};
ghost use Rattle.engine_cells.specs.Stretches.{Stretch};
ghost use Rattle.engine_runs.specs.Tables.{LacksTableFor};

use engine_reference::Rules;
use engine_tables::Tables;
use policy_base::FrequencySketch;
use std::alloc::AllocError;
use std::hash::{BuildHasher, Hash};

/// The least and the most hashes for which a table is made.
const LEAST_HASHES: u128 = 128;

const MOST_HASHES: u128 = 4_294_967_295;

/// For how many hashes the table is made: for the capacity, or where weight is held for as many of that weight as fit.
fn sketch_room(capacity: u64, number: u64, weight: u64) -> u32
    ensures { result ≡ sketch_room capacity number weight }
{
    let capacity = u128::from(capacity);
    let wanted = if weight == 0 {
        capacity
    } else {
        capacity * u128::from(number) / u128::from(weight)
    };
    wanted.max(LEAST_HASHES).min(MOST_HASHES) as u32
}

/// Whether half the capacity is held, and there is no table yet.
fn wants_table(capacity: Option<u64>, sketch: &FrequencySketch, weight: u64) -> bool
    ensures { result ≡ wants_table capacity sketch.now weight }
{
    match capacity {
        Some(capacity) => { 0 < capacity && !sketch.has_table() && capacity / 2 <= weight }
        None => false,
    }
}

/// For how many hashes the table is to be made, where it is.
fn table_wanted<K: Eq + Hash, V, S: BuildHasher, R: Rules<K, V>>(
    tables: &Tables<K, V, S, R>,
) -> Option<u32>
    ensures some { IfSome result (λ hashes. LacksTableFor hashes tables.now.state) }
    ensures none { IfNone result (lacks_table tables.now.state ≡ false) }
{
    let capacity = tables.settings().capacity?;
    let weight = tables.admitted_weight();
    if wants_table(Some(capacity), tables.sketch(), weight) {
        let number = tables.admitted_number();
        return Some(sketch_room(capacity, number, weight));
    }
    None
}

/// Makes the table for so many hashes, unless there is no memory for it.
fn make_table<K: Eq + Hash, V, S: BuildHasher, R: Rules<K, V>>(
    tables: &mut Tables<K, V, S, R>,
    hashes: u32,
) -> Result<(), AllocError>
    requires applied { IsApplied tables.old.state }
    requires lacks { LacksTableFor hashes tables.old.state }
    ensures stretch { (answers : Answers K V R.Predicate R) (now : ℕ)
        → Stretch answers now tables.old.state tables.new.state }
    ensures applied { IsApplied tables.new.state }
    ensures refused { is_err result ≡ (tables.new.state.sketch.words == 0) }
{
    tables.make_table(hashes)?;
    Ok(())
}

/// Makes the sketch's table, if half the capacity is held and there is none. Returns an error if there is not enough memory.
pub fn grow<K: Eq + Hash, V, S: BuildHasher, R: Rules<K, V>>(
    tables: &mut Tables<K, V, S, R>,
) -> Result<(), AllocError>
    requires { IsApplied tables.old.state }
    ensures stretch { (answers : Answers K V R.Predicate R) (now : ℕ)
        → Stretch answers now tables.old.state tables.new.state }
    ensures applied { IsApplied tables.new.state }
    ensures refused { is_err result
        ≡ (lacks_table tables.old.state && (tables.new.state.sketch.words == 0)) }
{
    match table_wanted(tables) {
        Some(hashes) => make_table(tables, hashes),
        None => Ok(()),
    }
}
