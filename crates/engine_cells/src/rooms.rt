//! Room for writes.
ghost use Rattle.std.specs.Prelude.{◌≡◌, true};
ghost use Rattle.policy_queue.specs.Indices.{OnlyGainsPlaces};
ghost use Rattle.engine_cells.specs.Keys.Spots.{OnlyGainsSpace};
ghost use Rattle.engine_cells.specs.Rooms.{OnlyMoreCells, HasRooms};

use crate::cell::Cell;
use crate::cell_slab::CellSlab;
use crate::keys::Keys;
use crate::write_order::WriteOrder;
use policy_queue::IndexQueue;

/// Makes room for `more` records, if `waiting` of those that are there are in no queue. Returns whether there was enough memory.
#[inline(always)]
pub fn grow<K, V>(
    cells: &mut CellSlab<Cell<K, V>>,
    access: &mut IndexQueue,
    order: &mut WriteOrder,
    keys: &mut Keys,
    more: usize,
    waiting: usize,
) -> bool
    ensures cells { OnlyMoreCells cells.old cells.new }
    ensures access { OnlyGainsPlaces access.old access.new }
    ensures order { OnlyGainsPlaces order.old.places order.new.places }
    ensures kept { order.new.is_kept ≡ order.old.is_kept }
    ensures keys { OnlyGainsSpace keys.old keys.new }
    ensures room { result ≡ true
        → HasRooms cells.new access.new order.new.places keys.new more waiting }
{
    let Some(queued) = waiting.checked_add(more) else {
        return false;
    };
    if cells.reserve(more).is_err() {
        return false;
    }
    let places = cells.capacity() as u32;
    if access.reserve(queued, places).is_err() {
        return false;
    }
    order.reserve(queued, places).is_ok() && keys.reserve(more).is_ok()
}
