//! The row of timers behind a wheel, and the slab that leads from a timer's name to its key.
ghost use Rattle.std.specs.Prelude.{◌≡◌, ◌≢◌, ℕ, ◌+◌, ◌*◌, ◌^◌, ◌<◌, ◌≤◌, true, List, [], ◌∷◌, length, MatchOption, Some, None, slice_index_or};
ghost use Rattle.std.specs.List.{All};
ghost use Rattle.slab.specs.Slab.{slab_len, get, HasRoomFor};
ghost use Rattle.policy_queue.specs.Timers.Timers.{TheTimer};
ghost use Rattle.policy_queue.specs.Timers.Places.{ThePlace, timer_at, taken, IsTaken, IsNamed, Comes, Goes};
ghost use Rattle.policy_queue.specs.Timers.Array.{IsArranged, LacksSerial, MovesTo};

use crate::timers::places::{Place, key};
use crate::timers::row::Row;
use policy_base::{Cells, Instant, NodeId};

/// A timer's record: its entry, and the generation of the entry's own expiration under which it was placed.
#[derive(Clone, Copy, Debug, PartialEq, Eq)]
pub struct TimerNode {
    /// The number of the entry.
    pub entry_info: usize,
    /// The generation of the entry's own expiration, from 0 to 4095.
    pub expiry_gen: u16,
}

/// A timer: the time at which it was placed, its name and its record.
#[derive(Clone, Copy)]
pub struct Timer {
    /// The moment at which the timer was placed to go off.
    pub placed: Instant,
    /// The name of the timer.
    pub id: NodeId,
    /// The record of the timer.
    pub node: TimerNode,
}

/// When an entry is due, with the generation of its own expiration.
#[derive(Clone, Copy)]
pub struct Due {
    /// The moment at which the entry is due.
    pub time: Instant,
    /// The generation of the entry's own expiration, from 0 to 4095.
    pub expiry_gen: u16,
}

/// The place of the timer of this name.
pub(crate) fn find(row: &Row, slots: &Cells<Instant, u64>, id: NodeId) -> Option<usize>
    requires { IsArranged (taken row.now.places) slots.now }
    ensures { MatchOption result (All (λ t. t.id ≢ id) (taken row.now.places))
        (IsNamed row.now.places id) }
{
    match slots.get(id.slot) {
        Some((placed, serial)) => row.seek(key(*placed, *serial), id),
        None => None,
    }
}

/// Inserts a timer at its place. There must be room.
pub(crate) fn add(row: &mut Row, slots: &mut Cells<Instant, u64>, place: Place)
    requires arranged { IsArranged (taken row.old.places) slots.old }
    requires place { length (taken row.old.places) < row.old.capacity }
    requires slot { (place.slot ≡ slots.old.vacant_key) × HasRoomFor slots.old 1 }
    requires new { (place.is_taken ≡ true) × LacksSerial place.serial (taken row.old.places) }
    ensures comes { Comes (taken row.old.places) (taken row.new.places) (timer_at place) }
    ensures arranged { IsArranged (taken row.new.places) slots.new }
    ensures capacity { row.old.capacity ≤ row.new.capacity }
    ensures slots { slots.new.capacity ≡ slots.old.capacity }
{
    let _slot = slots.insert_reserved(place.placed, place.serial);
    row.put(place);
}

/// Removes a timer.
pub(crate) fn take(row: &mut Row, slots: &mut Cells<Instant, u64>, k: usize) -> Timer
    requires arranged { IsArranged (taken row.old.places) slots.old }
    requires taken { IsTaken row.old.places k }
    ensures timer { (d : ThePlace) → result ≡ timer_at (slice_index_or row.old.places k d) }
    ensures goes { Goes k (taken row.old.places) (taken row.new.places) result }
    ensures arranged { IsArranged (taken row.new.places) slots.new }
    ensures alone { LacksSerial result.id.serial (taken row.new.places) }
    ensures capacity { (row.new.capacity ≡ row.old.capacity)
        × (length (taken row.new.places) < row.new.capacity) }
    ensures slots { (slots.new.capacity ≡ slots.old.capacity)
        × (slots.new.vacant_key ≡ result.id.slot) × HasRoomFor slots.new 1 }
{
    let timer = row.take(k);
    slots.remove(timer.id.slot);
    timer
}

/// Moves a timer to another time. It keeps its name.
pub(crate) fn move_timer(row: &mut Row, slots: &mut Cells<Instant, u64>, k: usize, due: Due)
    requires arranged { IsArranged (taken row.old.places) slots.old }
    requires taken { IsTaken row.old.places k }
    ensures moves { (t : TheTimer)
        × ((d : ThePlace) → t ≡ timer_at (slice_index_or row.old.places k d))
        × MovesTo k (taken row.old.places) (taken row.new.places) t due.time due.expiry_gen }
    ensures arranged { IsArranged (taken row.new.places) slots.new }
    ensures capacity { row.old.capacity ≤ row.new.capacity }
    ensures slots { slots.new.capacity ≡ slots.old.capacity }
{
    let timer = take(row, slots, k);
    let place = Place {
        placed: due.time,
        serial: timer.id.serial,
        entry: timer.node.entry_info,
        slot: timer.id.slot,
        expiry_gen: due.expiry_gen,
        is_taken: true,
    };
    add(row, slots, place);
}
