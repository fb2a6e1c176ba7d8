//! The loop.
ghost use Rattle.std.specs.Prelude.{◌≡◌, ◌<◌, ℕ, length, []};
ghost use Rattle.engine_cells.specs.Kept.{kept_at};
ghost use Rattle.engine_reference.specs.Runs.{IsApplied};
ghost use Rattle.engine_reference.specs.Soundness.{IsSound};
ghost use Rattle.engine_reference.specs.State.{Answers};
ghost use Rattle.engine_reference.specs.declared.data.Record.{Record};
ghost use Rattle.engine_runs.specs.Fronts.{MayLeave, IsClean, HidesNone};
ghost use Rattle.engine_cells.specs.Stretches.{Stretch, StepsFor};
ghost use Rattle.engine_cells.specs.Swept.{NoneIsCleared};
ghost use Rattle.engine_runs.specs.Stretches.{EndsRun, KeepsRest};

use crate::covered::end_cleared;
use crate::fronts::{is_in_later_tick, next_leaving};
use engine_reference::{RemovalCause, Rules};
use engine_tables::Tables;
use std::hash::{BuildHasher, Hash};

/// A record that has to leave does.
fn leave_for<K: Eq + Hash + Drop, V: Drop, S: BuildHasher, R: Rules<K, V>>(
    tables: &mut Tables<K, V, S, R>,
    place: usize,
    cause: RemovalCause,
)
    requires applied { IsApplied tables.old.state }
    requires there { (r : Record K V) × (kept_at tables.old place ≡ Some r) }
    ensures step { (answers : Answers K V R.Predicate R) (now : ℕ) (r : Record K V)
        → kept_at tables.old place ≡ Some r → MayLeave tables.old.state now r cause
        → StepsFor answers now tables.old.state tables.new.state }
    ensures applied { IsApplied tables.new.state }
    ensures rest { KeepsRest tables.old.state tables.new.state }
    ensures fewer { length tables.new.state.records < length tables.old.state.records }
    ensures none { ∥ IsSound tables.old.state ∥₁ → NoneIsCleared tables.old.state
        → NoneIsCleared tables.new.state }
{
    tables.leave(place, cause);
}

/// Removes all that is due by the fronts, until each front is clean and the weight is within the capacity.
pub fn sweep<K: Eq + Hash + Drop, V: Drop, S: BuildHasher, R: Rules<K, V>>(
    tables: &mut Tables<K, V, S, R>,
    now: u64,
)
    requires applied { IsApplied tables.old.state }
    requires predicates { tables.old.state.predicates ≡ [] }
    requires sound { ∥ IsSound tables.old.state ∥₁ }
    requires hides { HidesNone tables.old.state }
    ensures stretch { (answers : Answers K V R.Predicate R)
        → Stretch answers now tables.old.state tables.new.state }
    ensures applied { IsApplied tables.new.state }
    ensures rest { KeepsRest tables.old.state tables.new.state }
    ensures clean { IsClean now tables.new.state }
{
    let is_later = is_in_later_tick(tables, now);
    while let Some((place, cause)) = next_leaving(tables, now, is_later) {
        leave_for(tables, place, cause);
    }
}

/// Ends a run that has nothing to apply and no predicate: removes what a clear covers and what is due by the fronts, and notes the counts, and whether there was no
/// memory for the sketch's table.
pub fn settle<K: Eq + Hash + Drop, V: Drop, S: BuildHasher, R: Rules<K, V>>(
    tables: &mut Tables<K, V, S, R>,
    now: u64,
    table_refused: bool,
)
    requires applied { IsApplied tables.old.state }
    requires predicates { tables.old.state.predicates ≡ [] }
    requires sound { ∥ IsSound tables.old.state ∥₁ }
    ensures runs { (answers : Answers K V R.Predicate R) → answers.covers ≡ R.answers.covers
        → EndsRun answers now tables.old.state tables.new.state }
    ensures refused { tables.new.state.table_refused ≡ table_refused }
{
    end_cleared(tables);
    sweep(tables, now);
    tables.finish_run(now, table_refused);
}
