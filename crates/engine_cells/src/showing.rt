//! How many records show a value.
ghost use Rattle.std.specs.Prelude.{◌≡◌, ◌≤◌};
ghost use Rattle.engine_cells.specs.Cells.{cell_at};
ghost use Rattle.engine_cells.specs.Showing.{shows_value, shown_in, shown_part};
ghost use Rattle.engine_cells.specs.Tallying.{sum_over};

use crate::cell::Cell;
use crate::cell_slab::CellSlab;
use crate::noting::{Noted, PlacedWrite};
use engine_pending::Backlog;
use engine_reference::Rules;

/// Whether a record is held and alive, and its entry is not covered.
fn shows_value<K, V, S, R: Rules<K, V>>(
    found: &Cell<K, V>,
    backlog: &Backlog<K, V, Noted, PlacedWrite, S, R>,
    now: u64,
) -> bool
    ensures { result ≡ shows_value R.answers.covers backlog.now now found.now }
{
    found.is_held()
        && !found.is_dead(backlog.settings(), now)
        && !backlog.is_over(found.step(), found.key(), found.value())
}

/// 1 if the record in a place shows a value, otherwise 0.
fn shown_at<K, V, S, R: Rules<K, V>>(
    cells: &CellSlab<Cell<K, V>>,
    place: usize,
    backlog: &Backlog<K, V, Noted, PlacedWrite, S, R>,
    now: u64,
) -> usize
    ensures is { result
        ≡ shown_in R.answers.covers backlog.now now (cell_at cells.now.slots place) }
    ensures most { result ≤ 1 }
{
    match cells.get(place) {
        Some(cell) => usize::from(shows_value(cell, backlog, now)),
        None => 0,
    }
}

/// Returns how many records show a value at `now`, a moment in nanoseconds. Every record is looked at.
pub fn count_shown<K, V, S, R: Rules<K, V>>(
    cells: &CellSlab<Cell<K, V>>,
    backlog: &Backlog<K, V, Noted, PlacedWrite, S, R>,
    now: u64,
) -> usize
    ensures { result ≡ sum_over (shown_part R.answers.covers backlog.now now) cells.now.slots }
{
    let mut number = 0;
    for place in 0..cells.capacity() {
        number += shown_at(cells, place, backlog, now);
    }
    number
}
