//! Look-up by key and hash.
ghost use Rattle.std.specs.Prelude.{◌≡◌, ◌≤◌, ℕ, true, false, Some, None, IfSome, IfNone, is_some};
ghost use Rattle.engine_reference.specs.Records.{held_at};
ghost use Rattle.engine_cells.specs.Keys.Spots.{IsUnder};
ghost use Rattle.engine_cells.specs.Cells.{cell_at, records_by_number};
ghost use Rattle.engine_cells.specs.Spotted.{is_match, holds_number, AreSpotted, HaveHash, IsHeldUnder, LeavesIf};

use crate::cell::Cell;
use crate::cell_slab::CellSlab;
use crate::keys::Keys;
use engine_reference::Names;

/// Whether the record in a place is held under a key.
fn is_match<K: Eq, Q: Names<K>, V>(cells: &CellSlab<Cell<K, V>>, place: usize, key: &Q) -> bool
    ensures { result ≡ is_match K.eq (Q.named_key key.now) (cell_at cells.now.slots place) }
{
    match cells.get(place) {
        Some(cell) => cell.is_held() && key.is_name_of(cell.key()),
        None => false,
    }
}

/// Takes a place from under a hash, if `goes`.
pub fn take_if(keys: &mut Keys, goes: bool, hash: u64, place: usize)
    requires { goes ≡ true → IsUnder keys.old hash place }
    ensures { LeavesIf goes keys.old keys.new hash place }
{
    if goes {
        keys.take(hash, place);
    }
}

/// Returns the place of a key's record, by the key's hash, or `None` if no record of the key is held.
pub fn find_held<K: Eq, Q: Names<K>, V>(
    cells: &CellSlab<Cell<K, V>>,
    keys: &Keys,
    key: &Q,
    hash: u64,
) -> Option<usize>
    requires spotted { AreSpotted K.eq cells.now.slots keys.now }
    requires hashed { HaveHash K.eq (Q.named_key key.now) hash cells.now.slots }
    ensures found { IfSome result (λ i. held_at K.eq (records_by_number cells.now.slots)
        (Q.named_key key.now) ≡ cell_at cells.now.slots i) }
    ensures matched { IfSome result
        (λ i. is_match K.eq (Q.named_key key.now) (cell_at cells.now.slots i) ≡ true) }
    ensures there { IfSome result (λ i. is_some (cell_at cells.now.slots i) ≡ true) }
    ensures none { IfNone result
        (held_at K.eq (records_by_number cells.now.slots) (Q.named_key key.now) ≡ None) }
{
    keys.get(hash, |place| is_match(cells, place, key))
}

/// Whether a place has the record of a number.
fn is_numbered<K, V>(cells: &CellSlab<Cell<K, V>>, place: usize, number: u64) -> bool
    ensures { result ≡ holds_number number (cell_at cells.now.slots place) }
{
    match cells.get(place) {
        Some(cell) => cell.number() == number,
        None => false,
    }
}

/// Returns the place of the record of a number, or `None` if there is none. A record that is there is held under this hash.
pub fn find_number<K: Eq, V>(
    cells: &CellSlab<Cell<K, V>>,
    keys: &Keys,
    number: u64,
    hash: u64,
) -> Option<usize>
    requires spotted { AreSpotted K.eq cells.now.slots keys.now }
    requires held { IsHeldUnder number hash cells.now.slots }
    ensures found { IfSome result (λ i. holds_number number (cell_at cells.now.slots i) ≡ true) }
    ensures none { IfNone result
        ((i : ℕ) → holds_number number (cell_at cells.now.slots i) ≡ false) }
{
    keys.get(hash, |place| is_numbered(cells, place, number))
}
