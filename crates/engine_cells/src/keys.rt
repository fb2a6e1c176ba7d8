//! Places by hash: a ready hash leads to the places that stand under it, and the caller says which of them it seeks.
ghost use Rattle.std.specs.Prelude.{◌≡◌, ◌≢◌, ◌↔◌, IsTrue, true, false, ℕ, ◌+◌, ◌-◌, ◌*◌, ◌/◌, ◌^◌, ◌<◌, ◌≤◌, length, replicate, IsOk, OnOk, OnErr, IfOk, IfSome, IfNone};
ghost use Rattle.engine_cells.specs.Keys.Spots.{tag_of, IsUnder, Spots, ComesUnder, LeavesFrom, OnlyGainsSpace};
ghost use Rattle.engine_cells.specs.Keys.Slots.{nowhere, vacant_slot, slot_at, HoldsPlace, taken_in, most_in, home_of, steps_on, steps_to, IsOnWay, Has, HasAll, AreFound, IsFirstVacant, Adds, IsHoled, LeavesOut, Loses};

use std::alloc::{AllocError, Global};
use std::marker::Model;

/// What a vacant slot has in place of a place.
const NOWHERE: u32 = u32::MAX;

/// How many places there may be: 2^32.
pub const MOST_PLACES: usize = 1 << 32;

/// What spreads hashes over the slots: an odd number near 2^64 over the golden ratio.
const SPREAD: u64 = 0x9E37_79B9_7F4A_7C15;

/// A tag with a place, in 8 bytes. A vacant slot has the place `NOWHERE`.
#[derive(Clone, Copy)]
struct Slot {
    tag: u32,
    place: u32,
}

/// Places by hash. Several places may stand under one hash, each of them once; those of hashes with one tag stand under
/// each of these hashes.
#[derive(Drop)]
pub struct Keys {
    // At most two thirds of the slots are taken.
    slots: Vec<Slot>,
    // How many places there are.
    count: usize,
}

impl Model for Keys {
    ghost use Rattle.std.specs.Prelude.{◌-◌, ◌≡◌, ◌≤◌, length};
    ghost use Rattle.engine_cells.specs.Keys.Spots.{Spots};
    ghost use Rattle.engine_cells.specs.Keys.Slots.{AreFound, entries_in, most_in, taken_in};

    ghost Value = { Spots };

    ghost view = { λ k. record
        { entries = entries_in k.slots.items; space = most_in (length k.slots.items) - k.count } };

    // each place is found from its tag's home on, and there are vacant slots
    ghost invariant = { λ k. record {
      found : AreFound k.slots.items;
      counted : taken_in k.slots.items ≡ k.count;
      loose : k.count ≤ most_in (length k.slots.items);
    } };
}

impl Keys {
    /// Creates a table without places. The call allocates nothing.
    pub fn new(alloc: Global) -> Self
        ensures { (hash place : ℕ) → IsUnder result hash place → ⊥ }
    {
        Keys {
            slots: Vec::new(alloc),
            count: 0,
        }
    }

    /// Makes room for `additional` more places, which then allocate nothing. Returns an error if there would be more than `MOST_PLACES`
    /// places or there is not enough memory; then nothing has changed.
    pub fn reserve(&mut self, additional: usize) -> Result<(), AllocError>
        ensures room { OnOk result (additional ≤ self.new.space) }
        ensures had_room { additional ≤ self.old.space → IsOk result }
        ensures stays { OnlyGainsSpace self.old self.new }
        ensures refused { OnErr result (self.new ≡ self.old) }
    {
        if additional <= most_in(self.slots.len()) - self.count {
            return Ok(());
        }
        let Some(wanted) = self.count.checked_add(additional) else {
            return Err(AllocError);
        };
        if MOST_PLACES < wanted {
            return Err(AllocError);
        }
        let many = slots_for(wanted.max(self.count + self.count / 4));
        let mut slots = vacant_slots(*self.slots.allocator(), many)?;
        put_all(&mut slots, &self.slots);
        self.slots = slots;
        Ok(())
    }

    /// Returns the place that is sought, of those that stand under a hash, or `None` if none is. The search allocates nothing, and calls
    /// `is_sought` on no place that stands under another tag, nor on any once one is found.
    pub fn get<F: Fn(usize) -> bool>(&self, hash: u64, is_sought: F) -> Option<usize>
        requires { F.IsAlwaysCallable is_sought }
        ensures found { IfSome result
            (λ place. IsUnder self.now hash place × F.post is_sought place true) }
        ensures none { IfNone result
            ((place : ℕ) → IsUnder self.now hash place → F.post is_sought place false) }
    {
        find(&self.slots, tag_of(hash), is_sought)
    }

    /// Puts a place, which is not there, under a hash. There must be room for it.
    pub fn put(&mut self, hash: u64, place: usize)
        requires room { 0 < self.old.space }
        requires absent { IsUnder self.old hash place → ⊥ }
        requires place { place < 2 ^ 32 - 1 }
        ensures { ComesUnder self.old self.new hash place }
    {
        put_in(&mut self.slots, tag_of(hash), place as u32);
        self.count += 1;
    }

    /// Takes a place from under a hash, where it is.
    pub fn take(&mut self, hash: u64, place: usize)
        requires { IsUnder self.old hash place }
        ensures { LeavesFrom self.old self.new hash place }
    {
        let at = slot_of(&self.slots, tag_of(hash), place as u32);
        take_out(&mut self.slots, at);
        self.count -= 1;
    }
}

/// How many places stand in so many slots at most.
fn most_in(many: usize) -> usize
    ensures { result ≡ most_in many }
{
    many / 3 * 2
}

/// How many slots so many places want.
fn slots_for(places: usize) -> usize
    requires { places ≤ 2 ^ 33 }
    ensures { places ≤ most_in result }
{
    places.div_ceil(2) * 3
}

/// A hash's tag.
fn tag_of(hash: u64) -> u32
    ensures { result ≡ tag_of hash }
{
    (hash.wrapping_mul(SPREAD) >> 32) as u32
}

/// The slot in which a tag is looked for first, of so many.
fn home_of(tag: u32, many: usize) -> usize
    ensures value { result ≡ home_of tag many }
    ensures within { 0 < many → result < many }
{
    ((tag as u128 * many as u128) >> 32) as usize
}

/// The slot behind another: the first one behind the last.
fn next_slot(many: usize, at: usize) -> usize
    requires { at < many }
    ensures { (from steps : ℕ) → from < many → steps < many → at ≡ steps_on many from steps
        → result ≡ steps_on many from (steps + 1) }
{
    if at + 1 < many { at + 1 } else { 0 }
}

/// How many steps lead from one slot to another.
fn steps_to(many: usize, from: usize, to: usize) -> usize
    requires from { from < many }
    requires to { to < many }
    ensures { result ≡ steps_to many from to }
{
    if to < from {
        many - from + to
    } else {
        to - from
    }
}

/// So many vacant slots.
fn vacant_slots(alloc: Global, many: usize) -> Result<Vec<Slot>, AllocError>
    ensures { IfOk result (λ slots. slots.items ≡ replicate many vacant_slot) }
{
    let slot = Slot {
        tag: 0,
        place: NOWHERE,
    };
    Vec::from_elem(alloc, slot, many)
}

/// The vacant slot that comes first for a tag.
fn vacant_for(slots: &Vec<Slot>, tag: u32) -> usize
    requires { taken_in slots.now.items < length slots.now.items }
    ensures { IsFirstVacant slots.now.items tag result }
{
    let many = slots.len();
    let home = home_of(tag, many);
    let mut at = home;
    for _steps in 0..many {
        if slots[at].place == NOWHERE {
            return at;
        }
        at = next_slot(many, at);
    }
    unreachable!()
}

/// Puts a place, which is not there, under a tag. Not all slots are taken.
fn put_in(slots: &mut Vec<Slot>, tag: u32, place: u32)
    requires room { taken_in slots.old.items < length slots.old.items }
    requires found { AreFound slots.old.items }
    requires absent { Has slots.old.items tag place → ⊥ }
    requires place { place < nowhere }
    ensures added { Adds slots.old.items slots.new.items tag place }
    ensures found { AreFound slots.new.items }
{
    let at = vacant_for(slots, tag);
    slots[at] = Slot { tag, place };
}

/// Puts the places of other slots under their tags.
fn put_all(slots: &mut Vec<Slot>, others: &Vec<Slot>)
    requires vacant { slots.old.items ≡ replicate (length slots.old.items) vacant_slot }
    requires room { taken_in others.now.items < length slots.old.items }
    requires found { AreFound others.now.items }
    ensures same { HasAll others.now.items slots.new.items }
    ensures count { taken_in slots.new.items ≡ taken_in others.now.items }
    ensures length { length slots.new.items ≡ length slots.old.items }
    ensures found { AreFound slots.new.items }
{
    for k in 0..others.len() {
        let slot = others[k];
        if slot.place < NOWHERE {
            put_in(slots, slot.tag, slot.place);
        }
    }
}

/// The place that is sought, of those that stand under a tag.
fn find<F: Fn(usize) -> bool>(slots: &Vec<Slot>, tag: u32, is_sought: F) -> Option<usize>
    requires callable { F.IsAlwaysCallable is_sought }
    requires stand { AreFound slots.now.items }
    ensures found { IfSome result
        (λ place. Has slots.now.items tag place × F.post is_sought place true) }
    ensures none { IfNone result
        ((place : ℕ) → Has slots.now.items tag place → F.post is_sought place false) }
{
    let many = slots.len();
    let home = home_of(tag, many);
    let mut at = home;
    for _steps in 0..many {
        let slot = slots[at];
        if slot.place == NOWHERE {
            return None;
        }
        if slot.tag == tag && is_sought(slot.place as usize) {
            return Some(slot.place as usize);
        }
        at = next_slot(many, at);
    }
    None
}

/// The slot of a place, which stands under the tag.
fn slot_of(slots: &Vec<Slot>, tag: u32, place: u32) -> usize
    requires { Has slots.now.items tag place }
    ensures { slot_at slots.now.items result ≡ record { tag = tag; place = place } }
{
    let many = slots.len();
    let home = home_of(tag, many);
    let mut at = home;
    for _steps in 0..many {
        let slot = slots[at];
        if slot.tag == tag && slot.place == place {
            return at;
        }
        at = next_slot(many, at);
    }
    unreachable!()
}

/// Whether a slot that is so many steps before another is on the way from a tag's home to that one, or is that one.
fn is_on_way(many: usize, tag: u32, to: usize, steps: usize) -> bool
    requires { to < many }
    ensures { (at : ℕ) → at < many → steps_to many at to ≡ steps
        → IsTrue result ↔ IsOnWay many tag to at }
{
    steps <= steps_to(many, home_of(tag, many), to)
}

/// Moves up what stands behind a slot whose place goes, up to a vacant slot, where that slot is on its way. The slot
/// that is free in the end is answered.
fn move_up(slots: &mut Vec<Slot>, from: usize) -> usize
    requires there { HoldsPlace slots.old.items from }
    requires loose { taken_in slots.old.items < length slots.old.items }
    requires found { AreFound slots.old.items }
    ensures holed { IsHoled slots.old.items slots.new.items from result }
    ensures apart { LeavesOut slots.new.items result }
{
    let many = slots.len();
    let mut hole = from;
    let mut at = from;
    // so many steps lead from the hole to there
    let mut gap = 0;
    for _steps in 1..many {
        at = next_slot(many, at);
        gap += 1;
        let slot = slots[at];
        if slot.place == NOWHERE {
            return hole;
        }
        if is_on_way(many, slot.tag, at, gap) {
            slots[hole] = slot;
            hole = at;
            gap = 0;
        }
    }
    unreachable!()
}

/// Takes a place out of its slot.
fn take_out(slots: &mut Vec<Slot>, from: usize)
    requires there { HoldsPlace slots.old.items from }
    requires loose { taken_in slots.old.items < length slots.old.items }
    requires found { AreFound slots.old.items }
    ensures taken { Loses slots.old.items slots.new.items from }
    ensures found { AreFound slots.new.items }
{
    let hole = move_up(slots, from);
    slots[hole] = Slot {
        tag: 0,
        place: NOWHERE,
    };
}
