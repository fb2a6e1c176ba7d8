//! The values held.
ghost use Rattle.std.specs.Prelude.{◌≡◌, ℕ, List, ◌<◌, ◌++◌, ◌∷◌, [], true, false, cond, not, ◌||◌, ◌&&◌, nat_lt, map, reverse, length, option_map, None, IfOk, IfSome, OnOk};
ghost use Rattle.std.specs.List.{find, list_all, sum_by};
ghost use Rattle.audit_model.specs.Bytewise.{same};
ghost use Rattle.audit_model.specs.Values.{without_key};
ghost use Rattle.audit_situation.specs.Held.Slots.{slot_of};
ghost use Rattle.audit_situation.specs.Held.Seeing.{held_of};
ghost use Rattle.audit_situation.specs.Held.Weights.{weight_of_part, values_of};
ghost use Rattle.audit_situation.specs.Held.Holds.{held_by, is_open_key, value_used_at, value_covered_by, marked_in, RepresentsHeld};

use crate::held::held::{Held, Seen};
use crate::held::kept::StoredValue;
use crate::held::open::{close_all, close_key, is_open, open_key};
use crate::held::sums::{
    mark_after, mark_at, next_number, put_mark, put_weight, sum_with, weight_at,
};
use crate::held::table::Table;
use audit_model::Seq;
use std::alloc::{AllocError, Global};
use std::collections::{BTreeMap, BTreeSet};
use std::marker::Model;

/// The values held, seen as the list of them, oldest first. Each is of one of 256 parts.
#[derive(Drop)]
pub struct Holding {
    alloc: Global,
    table: Table,
    open_keys: BTreeSet<Vec<u8>>,
    marks: Vec<u64>,
    weights: Vec<u128>,
    total: u128,
    next: u64,
    ghost keeps: { RepresentsHeld next marks.items weights.items total table },
}

impl Model for Holding {
    ghost use Rattle.std.specs.Prelude.{List, map};
    ghost use Rattle.audit_model.specs.Situation.{HeldValue};
    ghost use Rattle.audit_situation.specs.Held.Holds.{held_by};

    ghost Value = { List HeldValue };

    ghost view = { λ h. map (held_by h.open_keys h.marks.items) h.table };
}

/// A value as it is lent.
fn lend<'a>(
    keys: &BTreeSet<Vec<u8>>,
    marks: &[u64],
    key: &'a [u8],
    kept: &'a StoredValue,
) -> Seen<'a>
    ensures { held_of result ≡ held_by keys.now marks.now (slot_of key.now kept.now) }
{
    Seen {
        key,
        bytes: kept.bytes.as_slice(),
        part: kept.part,
        weight: kept.weight,
        accepted_at: kept.accepted_at,
        own_deadline: kept.own_deadline,
        last_use: kept.last_use,
        covered: !is_open(keys, key),
        evictable: kept.stamp < mark_at(marks, kept.part as usize),
    }
}

/// All values of a table as they are lent, by their numbers.
fn lend_by_number<'a>(
    alloc: Global,
    table: &'a Table,
    keys: &BTreeSet<Vec<u8>>,
    marks: &[u64],
) -> Result<BTreeMap<u64, Seen<'a>>, AllocError>
    ensures { IfOk result (λ lent. map (λ e. held_of e.1) lent.entries
        ≡ map (held_by keys.now marks.now) table.now) }
{
    let mut lent = BTreeMap::new(alloc);
    for (key, kept) in table.iter() {
        lent.insert(kept.stamp, lend(keys, marks, key.as_slice(), kept))?;
    }
    Ok(lent)
}

/// The values of a map, from the last one on.
fn newest_first<'a>(
    alloc: Global,
    lent: &BTreeMap<u64, Seen<'a>>,
) -> Result<Vec<Seen<'a>>, AllocError>
    ensures { IfOk result (λ all. reverse (map held_of all.items)
        ≡ map (λ e. held_of e.1) lent.entry.now.entries) }
{
    let mut all = Vec::with_capacity(alloc, lent.len())?;
    for (_, seen) in lent {
        all.push(*seen)?;
    }
    all.reverse();
    Ok(all)
}

/// A value as it is handed out; its key is closed.
fn hand_out(keys: &mut BTreeSet<Vec<u8>>, marks: &[u64], key: Vec<u8>, kept: StoredValue) -> Held
    ensures value { result ≡ held_by keys.old marks.now (slot_of key.items kept) }
    ensures closed { (q : List ℕ) → is_open_key q keys.new
        ≡ cond (same key.items q) false (is_open_key q keys.old) }
{
    let covered = !is_open(keys, key.as_slice());
    let evictable = kept.stamp < mark_at(marks, kept.part as usize);
    close_key(keys, &key);
    Held::from_kept(key, kept, covered, evictable)
}

impl Holding {
    /// Creates an empty list of values. Returns an error if there is not enough memory.
    pub fn new(alloc: Global) -> Result<Holding, AllocError>
        ensures { IfOk result (λ h. h ≡ []) }
    {
        Ok(Holding {
            alloc,
            table: Table::new(alloc),
            open_keys: BTreeSet::new(alloc),
            marks: vec![in alloc; 0; 256]?,
            weights: vec![in alloc; 0; 256]?,
            total: 0,
            next: 0,
        })
    }

    /// Returns the number of values.
    pub fn len(&self) -> usize
        ensures number { result ≡ length self.now }
        ensures small { list_all (λ h. nat_lt h.value.part 256) self.now ≡ true }
        ensures apart { (key : List ℕ) → find (λ h. same key h.value.key)
            (without_key (λ h. h.value.key) key self.now) ≡ None }
    {
        self.table.len()
    }

    /// Returns what the values of a part weigh.
    pub fn weight_of(&self, part: usize) -> u128
        ensures { result ≡ weight_of_part part (values_of self.now) }
    {
        weight_at(&self.weights, part)
    }

    /// Returns what all values weigh.
    pub fn total(&self) -> u128
        ensures { result ≡ sum_by (λ v. v.weight) (values_of self.now) }
    {
        self.total
    }

    /// Returns the value of a key, or `None` if there is none.
    pub fn get<'a>(&'a self, key: &'a [u8]) -> Option<Seen<'a>>
        ensures { option_map held_of result ≡ find (λ h. same key.now h.value.key) self.now }
    {
        match self.table.get(key) {
            Some(kept) => Some(lend(&self.open_keys, &self.marks, key, kept)),
            None => None,
        }
    }

    /// Removes the value of a key, and returns it, or `None` if there is none.
    pub fn take(&mut self, key: &[u8]) -> Option<Held>
        ensures found { result ≡ find (λ h. same key.now h.value.key) self.old }
        ensures rest { self.new ≡ without_key (λ h. h.value.key) key.now self.old }
        ensures small { IfSome result (λ h. h.value.part < 256) }
    {
        let _number = self.table.len();
        match self.table.take(key) {
            Some((key, kept)) => {
                let part = kept.part as usize;
                let weight = weight_at(&self.weights, part) - u128::from(kept.weight);
                put_weight(&mut self.weights, part, weight);
                self.total -= u128::from(kept.weight);
                Some(hand_out(&mut self.open_keys, &self.marks, key, kept))
            }
            None => None,
        }
    }

    /// Adds a value that was accepted just now, of a key that has none. Returns an error if there is not enough memory.
    pub fn add(&mut self, held: Held) -> Result<(), AllocError>
        requires absent { find (λ h. same held.value.key h.value.key) self.old ≡ None }
        requires small { held.value.part < 256 }
        requires open { held.covered ≡ false }
        requires kept { held.evictable ≡ false }
        ensures { OnOk result (self.new ≡ self.old ++ held ∷ []) }
    {
        let next = next_number(self.next)?;
        let total = sum_with(self.total, held.weight())?;
        let part = held.part() as usize;
        let weight = sum_with(weight_at(&self.weights, part), held.weight())?;
        let (key, kept) = held.into_kept(self.next);
        open_key(self.alloc, &mut self.open_keys, key.as_slice())?;
        self.table.add(key, kept)?;
        put_weight(&mut self.weights, part, weight);
        self.total = total;
        self.next = next;
        Ok(())
    }

    /// Notes that the value of a key, if there is one, was used at `now`, in nanoseconds.
    pub fn use_at(&mut self, key: &[u8], now: u64)
        ensures { self.new ≡ map (value_used_at key.now now) self.old }
    {
        self.table.use_at(key, now);
    }

    /// Covers each value whose key begins with a prefix. Returns an error if there is not enough memory.
    pub fn cover(&mut self, prefix: &[u8]) -> Result<(), AllocError>
        ensures { OnOk result (self.new ≡ map (value_covered_by prefix.now) self.old) }
    {
        close_all(self.alloc, &mut self.open_keys, prefix)
    }

    /// Marks the values of a part if its weight is a point, and unmarks them if it is not and earlier points no longer count.
    pub fn mark(&mut self, part: usize, over: bool, anew: bool)
        requires { part < 256 }
        ensures { self.new ≡ map (marked_in part over anew) self.old }
    {
        let mark = mark_after(mark_at(&self.marks, part), self.next, over, anew);
        put_mark(&mut self.marks, part, mark);
    }

    /// Returns all values, lent, the newest first. Returns an error if there is not enough memory.
    pub fn lent(&self) -> Result<Vec<Seen<'_>>, AllocError>
        ensures { IfOk result (λ all. reverse (map held_of all.items) ≡ self.now) }
    {
        let lent = lend_by_number(self.alloc, &self.table, &self.open_keys, &self.marks)?;
        newest_first(self.alloc, &lent)
    }
}
