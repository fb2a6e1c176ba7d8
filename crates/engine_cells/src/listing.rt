//! The keys that are held, in the order in which their records were made.
ghost use Rattle.std.specs.Prelude.{◌≡◌, ℕ, [], ◌++◌, OnOk};
ghost use Rattle.std.specs.List.Sorted.{IsPermutation, IsNonDecreasingBy};
ghost use Rattle.engine_cells.specs.Cells.{cell_at, records_by_number, HaveOwnNumbers};
ghost use Rattle.engine_reference.specs.Scanning.{held_keys};
ghost use Rattle.engine_cells.specs.Listing.{stand_of, stands_from, cell_key, keys_in};

use crate::cell::Cell;
use crate::cell_slab::CellSlab;
use std::alloc::AllocError;

/// The number of a held record, and its place.
#[derive(Clone, Copy)]
pub struct Stand {
    number: u64,
    place: usize,
}

/// Adds the record in a place, if it is held.
fn push_held<K, V>(
    cells: &CellSlab<Cell<K, V>>,
    place: usize,
    found: &mut Vec<Stand>,
) -> Result<(), AllocError>
    ensures { OnOk result
        (found.new.items ≡ found.old.items ++ stand_of place (cell_at cells.now.slots place)) }
{
    if let Some(cell) = cells.get(place)
        && cell.is_held()
    {
        found.push(Stand {
            number: cell.number(),
            place,
        })?;
    }
    Ok(())
}

/// Adds all held records, by their places.
fn push_all<K, V>(cells: &CellSlab<Cell<K, V>>, found: &mut Vec<Stand>) -> Result<(), AllocError>
    requires { found.old.items ≡ [] }
    ensures { OnOk result (found.new.items ≡ stands_from 0 cells.now.slots) }
{
    for place in 0..cells.capacity() {
        push_held(cells, place, found)?;
    }
    Ok(())
}

/// Puts records in the order of their numbers.
fn sort(found: &mut Vec<Stand>)
    ensures sorted { IsNonDecreasingBy (λ s. s.number) found.new.items }
    ensures same { IsPermutation found.old.items found.new.items }
{
    found.sort_unstable_by_key(|s| s.number);
}

/// Adds a clone of the key of the record in a place.
fn push_key<K: Clone + Drop, V>(
    cells: &CellSlab<Cell<K, V>>,
    place: usize,
    keys: &mut Vec<K>,
) -> Result<(), AllocError>
    requires exact_key { (x y : K) → K.is_clone x y → y ≡ x }
    ensures { OnOk result
        (keys.new.items ≡ keys.old.items ++ cell_key (cell_at cells.now.slots place)) }
{
    if let Some(cell) = cells.get(place) {
        let key = cell.key().clone()?;
        keys.push(key)?;
    }
    Ok(())
}

/// Adds clones of the keys of records, in their order.
fn push_keys<K: Clone + Drop, V>(
    cells: &CellSlab<Cell<K, V>>,
    found: &[Stand],
    keys: &mut Vec<K>,
) -> Result<(), AllocError>
    requires exact_key { (x y : K) → K.is_clone x y → y ≡ x }
    requires empty { keys.old.items ≡ [] }
    ensures { OnOk result (keys.new.items ≡ keys_in cells.now.slots found.now) }
{
    for stand in found {
        push_key(cells, stand.place, keys)?;
    }
    Ok(())
}

/// Appends clones of the keys of all held records to an empty list, in the order of the records' numbers. Returns an error if there is not
/// enough memory; the list may then hold some of the keys.
pub fn push_held_keys<K: Clone + Drop, V>(
    cells: &CellSlab<Cell<K, V>>,
    mut found: Vec<Stand>,
    keys: &mut Vec<K>,
) -> Result<(), AllocError>
    requires exact_key { (x y : K) → K.is_clone x y → y ≡ x }
    requires apart { HaveOwnNumbers cells.now.slots }
    requires none { found.items ≡ [] }
    requires empty { keys.old.items ≡ [] }
    ensures { OnOk result (keys.new.items ≡ held_keys (records_by_number cells.now.slots)) }
{
    push_all(cells, &mut found)?;
    sort(&mut found);
    push_keys(cells, &found, keys)
}
