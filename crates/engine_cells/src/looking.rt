//! Walks over cells and the access queue.
ghost use Rattle.std.specs.Prelude.{◌≡◌, ◌≤◌, ℕ, true, false, [], Some, None, IfSome, IfNone, is_some, if◌then◌else◌};
ghost use Rattle.engine_reference.specs.Records.{settled_in};
ghost use Rattle.engine_cells.specs.Cells.{cell_at, records_by_number, numbers_in, HaveOwnNumbers, AreListed};
ghost use Rattle.engine_cells.specs.Awaiting.{AreAwaited};
ghost use Rattle.engine_cells.specs.Looking.{is_expired, is_settled_as, HasFirstSettled};
ghost use Rattle.engine_reference.specs.declared.data.Record.{Record};

use crate::cell::Cell;
use crate::cell_slab::CellSlab;
use engine_pending::Expirations;
use policy_base::{Instant, MAX_NANOS};
use policy_queue::IndexQueue;

/// Whether a record is held, and its own expiration was reached.
fn is_expired<K, V>(found: &Cell<K, V>, now: u64) -> bool
    ensures { result ≡ is_expired now found.now }
{
    match found.expires() {
        Some(moment) => found.is_held() && moment <= now,
        None => false,
    }
}

/// Whether a place has a held record whose own expiration was reached.
fn is_expired_at<K, V>(cells: &CellSlab<Cell<K, V>>, place: usize, now: u64) -> bool
    ensures due { result ≡ true → (c : Record K V) × (cell_at cells.now.slots place ≡ Some c)
        × (is_expired now c ≡ true) }
    ensures not { result ≡ false → (c : Record K V) → cell_at cells.now.slots place ≡ Some c
        → is_expired now c ≡ false }
{
    match cells.get(place) {
        Some(cell) => is_expired(cell, now),
        None => false,
    }
}

/// The place of a held record whose own expiration was reached, by a look at every record.
fn first_due<K, V>(cells: &CellSlab<Cell<K, V>>, now: u64) -> Option<usize>
    ensures found { IfSome result
        (λ i. (c : Record K V) × (cell_at cells.now.slots i ≡ Some c) × (is_expired now c ≡ true)) }
    ensures none { IfNone result
        ((i : ℕ) (c : Record K V) → cell_at cells.now.slots i ≡ Some c → is_expired now c ≡ false) }
{
    for place in 0..cells.capacity() {
        if is_expired_at(cells, place, now) {
            return Some(place);
        }
    }
    None
}

/// Returns the place of a held record whose own expiration was reached at `now`, by the first timer, or `None` if there is none. Every
/// record is looked at only if there was no memory for a timer.
pub fn first_expired<K, V>(
    cells: &CellSlab<Cell<K, V>>,
    expirations: &Expirations,
    now: u64,
) -> Option<usize>
    requires { ∥ AreAwaited cells.now.slots expirations.now ∥₁ }
    ensures found { IfSome result
        (λ i. (c : Record K V) × (cell_at cells.now.slots i ≡ Some c) × (is_expired now c ≡ true)) }
    ensures none { IfNone result
        ((i : ℕ) (c : Record K V) → cell_at cells.now.slots i ≡ Some c → is_expired now c ≡ false) }
{
    if MAX_NANOS < now {
        return first_due(cells, now);
    }
    match expirations.first_due(Instant::from_nanos(now)) {
        Some(place) => {
            if is_expired_at(cells, place, now) {
                return Some(place);
            }
            first_due(cells, now)
        }
        None => {
            if expirations.is_whole() {
                return None;
            }
            first_due(cells, now)
        }
    }
}

/// Whether the record in a place is settled.
fn is_settled_at<K, V>(cells: &CellSlab<Cell<K, V>>, place: usize) -> bool
    ensures { result ≡ is_settled_as (cell_at cells.now.slots place) }
{
    match cells.get(place) {
        Some(cell) => cell.writes() == cell.applied(),
        None => false,
    }
}

/// Returns the place of the first settled record of a list, whose places are in this queue, or `None` if there is none.
pub fn first_settled<K, V>(cells: &CellSlab<Cell<K, V>>, queue: &IndexQueue) -> Option<usize>
    requires apart { HaveOwnNumbers cells.now.slots }
    requires listed { AreListed cells.now.slots queue.now.indices }
    ensures found { IfSome result (HasFirstSettled cells.now.slots queue.now.indices) }
    ensures none { IfNone result (settled_in (records_by_number cells.now.slots)
        (numbers_in cells.now.slots queue.now.indices) ≡ []) }
{
    let mut next = queue.first();
    while let Some(index) = next {
        if is_settled_at(cells, index as usize) {
            return Some(index as usize);
        }
        next = queue.behind(index);
    }
    None
}
