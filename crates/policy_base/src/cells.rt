//! A slab with 32-bit keys, whose cells waste no bytes.
//!
//! It does what the kit's `slab` does, and contracts see it in the same way. A cell's mark has 32 bits: with two parts of eight
//! bytes each, a cell takes 24.
ghost use Rattle.std.specs.Prelude.{◌≡◌, ◌+◌, ◌-◌, ◌<◌, ◌≤◌, ◌^◌, [], length, max, IsSome, IsOk, OnOk, option_map, None, Some, vec_len, vec_capacity};
ghost use Rattle.slab.specs.Slab.{get, ContainsKey, slab_len, HasRoomFor, Updates};

use std::alloc::{AllocError, Global};
use std::marker::Model;
use std::mem;

/// The maximum number of cells: 2^32 - 2.
pub const MOST_CELLS: u32 = u32::MAX - 1;

/// Storage for values of two parts, each under a key that the slab picks. There are `MOST_CELLS` keys.
#[derive(Drop)]
pub struct Cells<A, B> {
    cells: Vec<Cell<A, B>>,
    // The number of taken cells.
    len: usize,
    // The first of the list of vacant cells, or the number of cells if there is none.
    next: u32,
}

#[derive(Drop)]
enum Cell<A, B> {
    Vacant(u32),
    Taken(A, B),
}

impl<A, B> Model for Cells<A, B> {
    ghost use Rattle.std.specs.Prelude.{map, vec_capacity, min, ◌-◌, ◌^◌};
    ghost use Rattle.slab.specs.Slab.{Slab as Slots};
    ghost use Rattle.slab.specs.Entry.{value_of};
    ghost use Rattle.policy_base.specs.Cells.{slab_entry_of, IsSoundly};

    ghost Value = { Slots (A × B) };

    ghost view = { λ s. record {
      slots = map value_of (map slab_entry_of s.cells.items);
      vacant_key = s.next;
      capacity = min (vec_capacity s.cells) (2 ^ 32 - 2);
    } };

    ghost invariant = { λ s. IsSoundly s.cells.items s.len s.next };
}

impl<A, B> Cells<A, B> {
    /// Creates a slab without cells. The call allocates nothing.
    pub fn new(alloc: Global) -> Self
        ensures slots { result.slots ≡ [] }
    {
        Cells {
            cells: Vec::new(alloc),
            len: 0,
            next: 0,
        }
    }

    /// Returns the number of values.
    pub fn len(&self) -> usize
        ensures { result ≡ slab_len self.now }
    {
        self.len
    }

    /// Returns the key that the next insert will use.
    pub fn vacant_key(&self) -> u32
        ensures { result ≡ self.now.vacant_key }
    {
        self.next
    }

    /// Reserves room for `additional` more values, which then allocate nothing. Returns an error if there would be more than `MOST_CELLS`
    /// cells or there is not enough memory; the values then stay as they are.
    pub fn reserve(&mut self, additional: usize) -> Result<(), AllocError>
        ensures room { OnOk result (HasRoomFor self.new additional) }
        ensures fits { OnOk result (slab_len self.new + additional ≤ 2 ^ 32 - 2) }
        ensures succeeds { HasRoomFor self.old additional → IsOk result }
        ensures capacity { self.old.capacity ≤ self.new.capacity }
        ensures rest_kept { self.new ≡ record self.old { capacity = self.new.capacity } }
    {
        if additional > MOST_CELLS as usize - self.len {
            return Err(AllocError);
        }
        let vacant = self.cells.len() - self.len;
        self.cells.reserve(additional.saturating_sub(vacant))
    }

    /// Stores a value of two parts and returns its key, which is the vacant one. There must be room for it.
    pub fn insert_reserved(&mut self, first: A, second: B) -> u32
        requires { HasRoomFor self.old 1 }
        ensures key { result ≡ self.old.vacant_key }
        ensures was_vacant { get self.old result ≡ None }
        ensures updates { Updates self.old self.new result (Some (first, second)) }
        ensures len { slab_len self.new ≡ slab_len self.old + 1 }
        ensures key_in_range { result < 2 ^ 32 - 2 }
        ensures capacity { self.new.capacity ≡ self.old.capacity }
        ensures slots { length self.new.slots ≤ max (length self.old.slots) (slab_len self.new) }
    {
        let key = self.next;
        self.len += 1;
        if key as usize == self.cells.len() {
            self.cells.push_reserved(Cell::Taken(first, second));
            self.next = key + 1;
            return key;
        }
        match mem::replace(&mut self.cells[key as usize], Cell::Taken(first, second)) {
            Cell::Vacant(next) => self.next = next,
            Cell::Taken(_, _) => unreachable!(),
        }
        key
    }

    /// Removes and returns the value at `key`, which must hold one.
    pub fn remove(&mut self, key: u32) -> (A, B)
        requires { ContainsKey self.old key }
        ensures value { get self.old key ≡ Some result }
        ensures updates { Updates self.old self.new key None }
        ensures len { slab_len self.new + 1 ≡ slab_len self.old }
        ensures room { HasRoomFor self.new 1 }
        ensures key_is_next { self.new.vacant_key ≡ key }
        ensures capacity { self.new.capacity ≡ self.old.capacity }
        ensures slots { length self.new.slots ≡ length self.old.slots }
    {
        let vacant = Cell::Vacant(self.next);
        match mem::replace(&mut self.cells[key as usize], vacant) {
            Cell::Taken(first, second) => {
                self.len -= 1;
                self.next = key;
                (first, second)
            }
            Cell::Vacant(_) => unreachable!(),
        }
    }

    /// Returns the two parts of the value at `key`, or `None` if there is no value at it.
    pub fn get(&self, key: u32) -> Option<(&A, &B)>
        ensures value { option_map (λ parts. (parts.0.now, parts.1.now)) result ≡ get self.now key }
        ensures key_in_range { IsSome result → key < 2 ^ 32 - 2 }
    {
        match self.cells.get(key as usize) {
            Some(Cell::Taken(first, second)) => Some((first, second)),
            Some(Cell::Vacant(_)) => None,
            None => None,
        }
    }
}
