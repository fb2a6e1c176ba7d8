//! A slab whose keys have 32 bits.
//!
//! It does what the kit's `slab` does, with the same contracts; but its keys are below 2^32 - 1, and it refuses room for
//! more.
ghost use Rattle.std.specs.Prelude.{◌≡◌, ◌+◌, ◌-◌, ◌<◌, ◌≤◌, ◌^◌, [], length, max, IsOk, OnOk, IsSome, None, Some, option_copied, slice_set};
ghost use Rattle.std.specs.Borrow.{Lends, sem};
ghost use Rattle.slab.specs.Slab.{get, ContainsKey, slab_len, HasRoomFor, Updates};
ghost use Rattle.engine_cells.specs.Drawers.{value_in};

use std::alloc::{AllocError, Global};
use std::marker::Model;
use std::mem;
use std::ops::{Index, IndexMut};

/// How many values there may be.
const MOST_VALUES: usize = 0xFFFF_FFFF;

/// Storage for values, each under a key that the slab picks.
#[derive(Drop)]
pub struct CellSlab<T> {
    drawers: Vec<Drawer<T>>,
    // How many drawers are taken.
    len: usize,
    // The first of the list of vacant drawers, or the number of drawers if there is none.
    next: usize,
}

#[derive(Drop)]
enum Drawer<T> {
    Vacant(usize),
    Taken(T),
}

impl<T> Model for CellSlab<T> {
    ghost use Rattle.std.specs.Prelude.{map, vec_capacity, min, ◌-◌, ◌^◌};
    ghost use Rattle.slab.specs.Slab.{Slab as Slots, slab_code};

    ghost Value = { Slots T };

    ghost coded = { slab_code T.code };

    ghost use Rattle.slab.specs.Entry.{value_of};
    ghost use Rattle.engine_cells.specs.Drawers.{slab_entry, AreSoundDrawers};

    ghost view = { λ s. record {
      slots = map value_of (map slab_entry s.drawers.items);
      vacant_key = s.next;
      capacity = min (vec_capacity s.drawers) (2 ^ 32 - 1);
    } };

    ghost invariant = { λ s. AreSoundDrawers s.drawers.items s.len s.next };
}

impl<T> Drawer<T> {
    ghost use Rattle.engine_cells.specs.contracts.cell_slab.Drawer.{the_row};

    fn value_mut(&mut self) -> &mut T
        requires { IsSome (value_in self.old) }
        ensures* lends { sem 𝓛 (Lends (the_row T.row) T.row self.entry result Drawer.Taken) }
        ensures value { value_in self.old ≡ Some result.now }
    {
        match self {
            Drawer::Taken(value) => value,
            Drawer::Vacant(_) => unreachable!(),
        }
    }
}

impl<T> CellSlab<T> {
    ghost use Rattle.engine_cells.specs.Lending.{lends_value};

    /// Creates a slab without values. The call allocates nothing.
    pub fn new(alloc: Global) -> Self
        ensures { result.slots ≡ [] }
    {
        CellSlab {
            drawers: Vec::new(alloc),
            len: 0,
            next: 0,
        }
    }

    /// Returns the number of values.
    pub fn len(&self) -> usize
        ensures { result ≡ slab_len self.now }
    {
        self.len
    }

    /// Returns how many values fit before more is allocated.
    pub fn capacity(&self) -> usize
        ensures value { result ≡ self.now.capacity }
        ensures holds_all { slab_len self.now ≤ result }
        ensures slots { length self.now.slots ≤ result }
        ensures fits { result ≤ 2 ^ 32 - 1 }
    {
        self.drawers.capacity().min(MOST_VALUES)
    }

    /// Makes room for `additional` more values, which then allocate nothing. Returns an error if there would be more than 2^32 - 1 values
    /// or there is not enough memory; the values then stay as they are.
    pub fn reserve(&mut self, additional: usize) -> Result<(), AllocError>
        ensures room { OnOk result (HasRoomFor self.new additional) }
        ensures succeeds { HasRoomFor self.old additional → IsOk result }
        ensures capacity { self.old.capacity ≤ self.new.capacity }
        ensures rest_kept { self.new ≡ record self.old { capacity = self.new.capacity } }
    {
        if additional > MOST_VALUES - self.len {
            return Err(AllocError);
        }
        let vacant = self.drawers.len() - self.len;
        self.drawers.reserve(additional.saturating_sub(vacant))
    }

    /// Stores a value and returns its key. There must be room for it.
    pub fn insert_reserved(&mut self, value: T) -> usize
        requires { HasRoomFor self.old 1 }
        ensures key { result ≡ self.old.vacant_key }
        ensures was_vacant { get self.old result ≡ None }
        ensures updates { Updates self.old self.new result (Some value) }
        ensures len { slab_len self.new ≡ slab_len self.old + 1 }
        ensures slots { length self.new.slots
            ≤ max (length self.old.slots) (slab_len self.old + 1) }
        ensures key_in_range { result < self.new.capacity }
        ensures capacity { self.new.capacity ≡ self.old.capacity }
    {
        let key = self.next;
        self.len += 1;
        if key == self.drawers.len() {
            self.drawers.push_reserved(Drawer::Taken(value));
            self.next = key + 1;
            return key;
        }
        match mem::replace(&mut self.drawers[key], Drawer::Taken(value)) {
            Drawer::Vacant(next) => self.next = next,
            Drawer::Taken(_) => unreachable!(),
        }
        key
    }

    /// Removes and returns the value at `key`, which must hold one.
    pub fn remove(&mut self, key: usize) -> T
        requires { ContainsKey self.old key }
        ensures value { get self.old key ≡ Some result }
        ensures updates { Updates self.old self.new key None }
        ensures slots { self.new.slots ≡ slice_set self.old.slots key None }
        ensures len { slab_len self.new + 1 ≡ slab_len self.old }
        ensures room { HasRoomFor self.new 1 }
        ensures key_is_next { self.new.vacant_key ≡ key }
        ensures capacity { self.new.capacity ≡ self.old.capacity }
    {
        let vacant = Drawer::Vacant(self.next);
        match mem::replace(&mut self.drawers[key], vacant) {
            Drawer::Taken(value) => {
                self.len -= 1;
                self.next = key;
                value
            }
            Drawer::Vacant(_) => unreachable!(),
        }
    }

    /// Returns the value at `key`, or `None` if there is no value at it.
    pub fn get(&self, key: usize) -> Option<&T>
        ensures { option_copied result ≡ get self.now key }
    {
        match self.drawers.get(key) {
            Some(Drawer::Taken(value)) => Some(value),
            Some(Drawer::Vacant(_)) => None,
            None => None,
        }
    }

    /// Returns a key that has a value, in 32 bits.
    pub fn index_of(&self, key: usize) -> u32
        requires { ContainsKey self.now key }
        ensures is { result ≡ key }
        ensures within { result < length self.now.slots }
    {
        let _many = self.drawers.len();
        key as u32
    }

    fn value_mut(&mut self, key: usize) -> &mut T
        requires { ContainsKey self.old key }
        ensures* writes_back { sem 𝓛 (lends_value T.row self.entry key result) }
        ensures value { get self.old key ≡ Some result.now }
    {
        self.drawers[key].value_mut()
    }
}

impl<T> Index<usize> for CellSlab<T> {
    type Output = T;

    ghost can_index = { ContainsKey };

    ghost index_gives = { λ s key value. get s key ≡ Some value };

    fn index(&self, key: usize) -> &T {
        self.get(key).unwrap()
    }
}

impl<T> IndexMut<usize> for CellSlab<T> {
    ghost use Rattle.engine_cells.specs.Lending.{lends_value};

    fn index_mut(&mut self, key: usize) -> &mut T
        requires { ContainsKey self.old key }
        ensures* writes_back { sem 𝓛 (lends_value T.row self.entry key result) }
        ensures value { get self.old key ≡ Some result.now }
    {
        self.value_mut(key)
    }
}
