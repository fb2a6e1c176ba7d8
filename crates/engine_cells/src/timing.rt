//! Timers of records that expire by themselves.
ghost use Rattle.std.specs.Prelude.{◌≡◌, ◌+◌, ◌<◌, ◌≤◌, ℕ, true, Some, length};
ghost use Rattle.engine_pending.specs.Timers.Awaited.{IsSet, KeepsOthers};
ghost use Rattle.engine_cells.specs.Awaiting.{AreAwaited};
ghost use Rattle.engine_cells.specs.Cells.{cell_at};
ghost use Rattle.engine_reference.specs.declared.data.Record.{Record};

use crate::cell::Cell;
use crate::cell_slab::CellSlab;
use engine_pending::Expirations;

/// Sets the moment in nanoseconds at which a place expires, if `after` differs from `before`. With `None` the place does not expire.
pub fn set_changed(
    expirations: &mut Expirations,
    place: usize,
    before: Option<u64>,
    after: Option<u64>,
)
    ensures others { KeepsOthers place expirations.old.timers expirations.new.timers }
    ensures whole { expirations.new.is_whole ≡ true → expirations.old.is_whole ≡ true }
    ensures set { IsSet expirations.old place before → IsSet expirations.new place after }
{
    if before != after {
        expirations.set(place, after);
    }
}

/// When the record in a place expires by itself, if it is held.
fn expiration_at<K, V>(cells: &CellSlab<Cell<K, V>>, place: usize) -> Option<u64>
    ensures { (c : Record K V) → cell_at cells.now.slots place ≡ Some c → c.is_held ≡ true
        → result ≡ c.entry.expires }
{
    match cells.get(place) {
        Some(cell) => { if cell.is_held() { cell.expires() } else { None } }
        None => None,
    }
}

/// A place gets the timer that it is to have.
fn time_place<K, V>(cells: &CellSlab<Cell<K, V>>, place: usize, expirations: &mut Expirations)
    ensures others { KeepsOthers place expirations.old.timers expirations.new.timers }
    ensures whole { expirations.new.is_whole ≡ true → expirations.old.is_whole ≡ true }
    ensures set { (c : Record K V) → cell_at cells.now.slots place ≡ Some c → c.is_held ≡ true
        → IsSet expirations.new place c.entry.expires }
{
    let expires = expiration_at(cells, place);
    expirations.set(place, expires);
}

/// Sets the timer of each place anew, whatever there was memory for before.
pub fn time_all<K, V>(cells: &CellSlab<Cell<K, V>>, expirations: &mut Expirations)
    ensures { AreAwaited cells.now.slots expirations.new }
{
    expirations.start_again();
    for place in 0..cells.capacity() {
        time_place(cells, place, expirations);
    }
}
