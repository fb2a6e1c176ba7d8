//! Predicates and clears: removes what they cover, and then the predicates.
ghost use Rattle.std.specs.Prelude.{◌≡◌, ◌+◌, ◌<◌, ℕ, false, [], length};
ghost use Rattle.engine_cells.specs.Kept.{kept_at};
ghost use Rattle.engine_cells.specs.Stretches.{Stretch, StepsFor};
ghost use Rattle.engine_reference.specs.Runs.{IsApplied};
ghost use Rattle.engine_reference.specs.Soundness.{IsSound};
ghost use Rattle.engine_reference.specs.State.{Answers};
ghost use Rattle.engine_runs.specs.Covered.{is_covered_as, IsScanned, NoneIsCovered, CoverNone};
ghost use Rattle.engine_runs.specs.Fronts.{HidesNone};
ghost use Rattle.engine_runs.specs.Stretches.{KeepsRest};

use engine_reference::{RemovalCause, Rules};
use engine_tables::Tables;
use std::hash::{BuildHasher, Hash};

/// Whether the record in a place is held and covered by a clear or a predicate.
fn is_covered_at<K: Eq + Hash, V, S: BuildHasher, R: Rules<K, V>>(
    tables: &Tables<K, V, S, R>,
    place: usize,
) -> bool
    ensures { (answers : Answers K V R.Predicate R) → answers.covers ≡ R.answers.covers
        → result ≡ is_covered_as answers tables.now.state (kept_at tables.now place) }
{
    match tables.record(place) {
        Some(found) => found.is_held() && tables.is_over(found),
        None => false,
    }
}

/// Removes the record in a place, if it is held and covered.
fn leave_covered<K: Eq + Hash + Drop, V: Drop, S: BuildHasher, R: Rules<K, V>>(
    tables: &mut Tables<K, V, S, R>,
    place: usize,
)
    requires { IsApplied tables.old.state }
    ensures stretch { (answers : Answers K V R.Predicate R) (now : ℕ)
        → answers.covers ≡ R.answers.covers
        → Stretch answers now tables.old.state tables.new.state }
    ensures applied { IsApplied tables.new.state }
    ensures rest { KeepsRest tables.old.state tables.new.state }
    ensures scanned { (answers : Answers K V R.Predicate R) → answers.covers ≡ R.answers.covers
        → IsScanned answers place tables.old → IsScanned answers (place + 1) tables.new }
    ensures places { length tables.new.numbers ≡ length tables.old.numbers }
{
    if is_covered_at(tables, place) {
        tables.leave(place, RemovalCause::Explicit);
    }
}

/// All held records that are covered leave, in one walk over the places.
fn scan<K: Eq + Hash + Drop, V: Drop, S: BuildHasher, R: Rules<K, V>>(
    tables: &mut Tables<K, V, S, R>,
)
    requires { IsApplied tables.old.state }
    ensures stretch { (answers : Answers K V R.Predicate R) (now : ℕ)
        → answers.covers ≡ R.answers.covers
        → Stretch answers now tables.old.state tables.new.state }
    ensures applied { IsApplied tables.new.state }
    ensures rest { KeepsRest tables.old.state tables.new.state }
    ensures none { (answers : Answers K V R.Predicate R) → answers.covers ≡ R.answers.covers
        → NoneIsCovered answers tables.new.state }
{
    for place in 0..tables.places() {
        leave_covered(tables, place);
    }
    let _stand = tables.places();
}

/// Removes the last predicate, which covers nothing.
fn end_last<K: Eq + Hash, V, S: BuildHasher, R: Rules<K, V>>(tables: &mut Tables<K, V, S, R>)
    requires applied { IsApplied tables.old.state }
    requires some { 0 < length tables.old.state.predicates }
    requires none { (answers : Answers K V R.Predicate R) → answers.covers ≡ R.answers.covers
        → CoverNone answers tables.old.state }
    ensures step { (answers : Answers K V R.Predicate R) (now : ℕ)
        → answers.covers ≡ R.answers.covers
        → StepsFor answers now tables.old.state tables.new.state }
    ensures applied { IsApplied tables.new.state }
    ensures none { (answers : Answers K V R.Predicate R) → answers.covers ≡ R.answers.covers
        → CoverNone answers tables.new.state }
    ensures sketch { tables.new.state.sketch ≡ tables.old.state.sketch }
    ensures fewer { length tables.new.state.predicates < length tables.old.state.predicates }
{
    let last = tables.predicates().len() - 1;
    tables.end_predicate(last);
}

/// Removes all predicates, none of which covers anything.
fn end_all<K: Eq + Hash, V, S: BuildHasher, R: Rules<K, V>>(tables: &mut Tables<K, V, S, R>)
    requires applied { IsApplied tables.old.state }
    requires none { (answers : Answers K V R.Predicate R) → answers.covers ≡ R.answers.covers
        → CoverNone answers tables.old.state }
    ensures stretch { (answers : Answers K V R.Predicate R) (now : ℕ)
        → answers.covers ≡ R.answers.covers
        → Stretch answers now tables.old.state tables.new.state }
    ensures applied { IsApplied tables.new.state }
    ensures ended { tables.new.state.predicates ≡ [] }
    ensures sketch { tables.new.state.sketch ≡ tables.old.state.sketch }
{
    while 0 < tables.predicates().len() {
        end_last(tables);
    }
}

/// Removes all held records that predicates cover, and then the predicates.
pub fn end_predicates<K: Eq + Hash + Drop, V: Drop, S: BuildHasher, R: Rules<K, V>>(
    tables: &mut Tables<K, V, S, R>,
)
    requires applied { IsApplied tables.old.state }
    requires sound { ∥ IsSound tables.old.state ∥₁ }
    ensures stretch { (answers : Answers K V R.Predicate R) (now : ℕ)
        → answers.covers ≡ R.answers.covers
        → Stretch answers now tables.old.state tables.new.state }
    ensures applied { IsApplied tables.new.state }
    ensures ended { tables.new.state.predicates ≡ [] }
    ensures sketch { tables.new.state.sketch ≡ tables.old.state.sketch }
{
    if 0 < tables.predicates().len() {
        scan(tables);
        end_all(tables);
    }
}

/// Whether held records may be of a step before the last clear, and no write list shows them.
fn hides_cleared<K: Eq + Hash, V, S: BuildHasher, R: Rules<K, V>>(
    tables: &Tables<K, V, S, R>,
) -> bool
    ensures { result ≡ false → HidesNone tables.now.state }
{
    tables.settings().live.is_none() && !tables.is_swept()
}

/// Removes all held records that a clear covers, in one walk over the places, where no write list shows them.
pub fn end_cleared<K: Eq + Hash + Drop, V: Drop, S: BuildHasher, R: Rules<K, V>>(
    tables: &mut Tables<K, V, S, R>,
)
    requires { IsApplied tables.old.state }
    ensures stretch { (answers : Answers K V R.Predicate R) (now : ℕ)
        → answers.covers ≡ R.answers.covers
        → Stretch answers now tables.old.state tables.new.state }
    ensures applied { IsApplied tables.new.state }
    ensures rest { KeepsRest tables.old.state tables.new.state }
    ensures hides { HidesNone tables.new.state }
{
    if hides_cleared(tables) {
        scan(tables);
        tables.note_swept();
    }
}
