//! The whole run.
ghost use Rattle.std.specs.Prelude.{◌≡◌, ℕ, ◌≤◌, ◌<◌, true, false, [], OnOk, OnErr, length};
ghost use Rattle.engine_reference.specs.RunLaws.Sweeping.{IsTimely, LeavesNoneDue};
ghost use Rattle.engine_reference.specs.Calls.{MaintainsIfDue};
ghost use Rattle.engine_reference.specs.Laws.{CountsExactly};
ghost use Rattle.engine_reference.specs.Runs.{RunsToEnd};
ghost use Rattle.engine_reference.specs.Soundness.{IsSound};
ghost use Rattle.engine_reference.specs.State.{Answers};

use crate::applying::{apply_reads, apply_writes};
use crate::covered::end_predicates;
use crate::sweeping::settle;
use crate::table::grow;
use engine_reference::Rules;
use engine_tables::Tables;
use std::alloc::AllocError;
use std::hash::{BuildHasher, Hash};

/// Runs maintenance to its end: applies everything that is pending, removes what predicates cover and then the predicates, then what is
/// due, and then the excess. If all tickets were sent when it began, the counts are exact. If moments never fell and steps rose, nothing
/// that is kept is due. If half the capacity is held and the sketch has no table, the table is made first. Returns an error if there was no
/// memory for the table; the run is complete without it. Other memory is allocated only if there was none for a timer before.
pub fn try_run<K: Eq + Hash + Drop, V: Drop, S: BuildHasher, R: Rules<K, V>>(
    tables: &mut Tables<K, V, S, R>,
    now: u64,
) -> Result<(), AllocError>
    requires { ∥ IsSound tables.old.state ∥₁ }
    ensures runs { (answers : Answers K V R.Predicate R) → answers.covers ≡ R.answers.covers
        → RunsToEnd answers now tables.old.state tables.new.state }
    ensures counts { (answers : Answers K V R.Predicate R) → answers.covers ≡ R.answers.covers →
        tables.old.state.unsent ≡ [] → CountsExactly K V R.Predicate S R answers tables.new.state }
    ensures due { (moment step : ℕ) → IsTimely moment step tables.old.state → moment ≤ now
        → now ≤ 9223372036854775807 → LeavesNoneDue now tables.new.state }
    ensures sound { ∥ IsSound tables.new.state ∥₁ }
    ensures made { OnOk result (tables.new.state.table_refused ≡ false) }
    ensures refused { OnErr result (tables.new.state.table_refused ≡ true) }
{
    tables.mend_timers();
    apply_reads(tables);
    apply_writes(tables);
    let grown = grow(tables);
    end_predicates(tables);
    settle(tables, now, grown.is_err());
    grown
}

/// Runs maintenance to its end, whether or not there is memory for the sketch's table.
pub fn run<K: Eq + Hash + Drop, V: Drop, S: BuildHasher, R: Rules<K, V>>(
    tables: &mut Tables<K, V, S, R>,
    now: u64,
)
    requires { ∥ IsSound tables.old.state ∥₁ }
    ensures runs { (answers : Answers K V R.Predicate R) → answers.covers ≡ R.answers.covers
        → RunsToEnd answers now tables.old.state tables.new.state }
    ensures counts { (answers : Answers K V R.Predicate R) → answers.covers ≡ R.answers.covers →
        tables.old.state.unsent ≡ [] → CountsExactly K V R.Predicate S R answers tables.new.state }
    ensures due { (moment step : ℕ) → IsTimely moment step tables.old.state → moment ≤ now
        → now ≤ 9223372036854775807 → LeavesNoneDue now tables.new.state }
    ensures sound { ∥ IsSound tables.new.state ∥₁ }
{
    let _grown = try_run(tables, now);
}

/// Runs maintenance if it is due: if 64 reads or 64 writes wait, or 300 milliseconds after the last run.
pub fn run_if_due<K: Eq + Hash + Drop, V: Drop, S: BuildHasher, R: Rules<K, V>>(
    tables: &mut Tables<K, V, S, R>,
    now: u64,
)
    requires { ∥ IsSound tables.old.state ∥₁ }
    ensures due { (answers : Answers K V R.Predicate R) → answers.covers ≡ R.answers.covers
        → MaintainsIfDue answers now tables.old.state tables.new.state }
    ensures sound { ∥ IsSound tables.new.state ∥₁ }
    ensures room { length tables.new.state.reads < 64 }
{
    if tables.is_due(now) {
        run(tables, now);
    }
}
