//! The map from keys to what is kept, in the order of acceptance.
ghost use Rattle.std.specs.Prelude.{◌≡◌, ℕ, List, ◌++◌, ◌∷◌, [], map, true, length, nat_lt, None, IfOk, OnOk, OnErr};
ghost use Rattle.std.specs.List.{list_all};
ghost use Rattle.std.specs.Option.{option_map};
ghost use Rattle.std.specs.Map.Iter.{ShowsInOrder, deref_pair};
ghost use Rattle.std.specs.declared.vec.Vec.{Vec as Word};
ghost use Rattle.std.specs.declared.alloc.Global.{Global as Heap};
ghost use Rattle.audit_situation.specs.Held.Slots.{slot_of, slots_of, oldest_first, slot_of_key, slots_without, slot_used_at, have_keys_apart, have_stamps_apart};
ghost use Rattle.audit_situation.specs.declared.held.kept.StoredValue.{StoredValue as Stored};

use crate::held::kept::StoredValue;
use indexmap::IndexMap;
use indexmap::map::Iter;
use std::alloc::{AllocError, Global};
use std::marker::Model;

/// Values by key, seen as the list of their slots, oldest first.
#[derive(Drop)]
pub struct Table {
    values: IndexMap<Vec<u8>, StoredValue>,
    ghost apart: { have_keys_apart values.entries ≡ true },
    ghost numbered: { have_stamps_apart values.entries ≡ true },
}

impl Model for Table {
    ghost use Rattle.std.specs.Prelude.{List};
    ghost use Rattle.audit_situation.specs.Held.Slots.{HeldSlot, slots_of, oldest_first};

    ghost Value = { List HeldSlot };

    ghost view = { λ t. oldest_first (slots_of t.values.entries) };
}

impl Table {
    /// Creates an empty table.
    pub fn new(alloc: Global) -> Table
        ensures { result ≡ [] }
    {
        Table {
            values: IndexMap::new(alloc),
        }
    }

    /// Returns the number of values.
    pub fn len(&self) -> usize
        ensures number { result ≡ length self.now }
        ensures apart { (key : List ℕ) → slot_of_key key (slots_without key self.now) ≡ None }
    {
        self.values.len()
    }

    /// Returns all values with their keys, in no order.
    pub fn iter(&self) -> Iter<'_, Vec<u8>, StoredValue>
        ensures rest { oldest_first (slots_of result) ≡ self.now }
        ensures numbered { have_stamps_apart result ≡ true }
        ensures runs { ShowsInOrder (deref_pair {K = Word ℕ Heap} {X = Stored}) }
    {
        self.values.iter()
    }

    /// Returns what is kept of a key's value, or `None` if there is none.
    pub fn get(&self, key: &[u8]) -> Option<&StoredValue>
        ensures { option_map (λ kept. slot_of key.now kept.now) result
            ≡ slot_of_key key.now self.now }
    {
        self.values.get(key)
    }

    /// Notes that the value of a key, if there is one, was used at `now`, in nanoseconds.
    pub fn use_at(&mut self, key: &[u8], now: u64)
        ensures { self.new ≡ map (slot_used_at key.now now) self.old }
    {
        if let Some(kept) = self.values.get_mut(key) {
            kept.last_use = now;
        }
    }

    /// Adds a value of a key that has none, as the newest. Returns an error if there is not enough memory; then nothing has changed.
    pub fn add(&mut self, key: Vec<u8>, kept: StoredValue) -> Result<(), AllocError>
        requires absent { slot_of_key key.items self.old ≡ None }
        requires newest { list_all (λ s. nat_lt s.stamp kept.stamp) self.old ≡ true }
        ensures added { OnOk result (self.new ≡ self.old ++ slot_of key.items kept ∷ []) }
        ensures unchanged { OnErr result (self.new ≡ self.old) }
    {
        self.values.insert(key, kept)?;
        Ok(())
    }

    /// Removes the value of a key, and returns it with its key, or `None` if there is none.
    pub fn take(&mut self, key: &[u8]) -> Option<(Vec<u8>, StoredValue)>
        ensures found { option_map (λ e. slot_of e.0.items e.1) result
            ≡ slot_of_key key.now self.old }
        ensures rest { self.new ≡ slots_without key.now self.old }
    {
        self.values.swap_remove_entry(key)
    }
}
