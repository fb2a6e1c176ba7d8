//! Who waits for which turn, and how it ended.
ghost use Rattle.std.specs.Prelude.{◌≡◌, ◌<◌, ◌≤◌, ◌+◌, ◌-◌, ◌^◌, ◌==◌, ◌&&◌, if◌then◌else◌, true, false, nat_eq, nat_lt, Some, None, option_map, IfOk, IfErr, IfSome, OnOk, OnErr};
ghost use Rattle.std.specs.Option.{option_map_or};
ghost use Rattle.std.specs.HashMap.{IsEmpty, spare};
ghost use Rattle.front_reference.specs.Fronts.{same_kind};
ghost use Rattle.front_reference.specs.declared.data.TurnKind.{TurnKind};
ghost use Rattle.sync_desk.specs.Slots.Endings.{IsExact, fits, is_underway, suits};
ghost use Rattle.sync_desk.specs.Slots.Waiting.{ChangesTurnAt, IsPutAt, SlotsStay, ended_with, turn_hash, if_of, joined_by_one, fresh_turn, seen_with, turn_by_number, told_of, turn_in, waiters_at, with_one_less};
ghost use Rattle.sync_desk.specs.declared.slots.slot.Ending.TheVariants.{Underway};

use crate::slots::slot::{Ending, TurnSlot};
use front_reference::{Made, TurnKind};
use std::alloc::{AllocError, Global};
use std::collections::HashMap;

/// The turns that are led, or that some callers still wait for, by their numbers.
#[derive(Drop)]
pub struct Slots<V, F> {
    pub(crate) slots: HashMap<u64, TurnSlot<V, F>>,
}

impl<V: Drop, F: Drop> TurnSlot<V, F> {
    /// Whether it is the turn of this kind.
    fn is(&self, kind: TurnKind) -> bool
        ensures same { result ≡ true → self.now.kind ≡ kind }
        ensures value { result ≡ same_kind self.now.kind kind }
    {
        self.kind.is_same(kind)
    }

    /// Whether the turn is under way.
    fn is_underway(&self) -> bool
        ensures { result ≡ is_underway self.now.ending }
    {
        matches!(&self.ending, Ending::Underway)
    }

    /// The turn ends so, if it is of this kind. Answers the hash of its key, and whether some wait for it.
    fn end(&mut self, kind: TurnKind, ending: Ending<V, F>) -> Option<(u64, bool)>
        requires { fits kind ending ≡ true }
        ensures told { result ≡ (if same_kind self.old.kind kind
            then Some (self.old.hash, nat_lt 0 self.old.waiting) else None) }
        ensures ends { turn_in self.new ≡ (if same_kind self.old.kind kind
            then record (turn_in self.old) { ending = ending } else turn_in self.old) }
    {
        if !self.is(kind) {
            return None;
        }
        self.ending = ending;
        Some((self.hash, 0 < self.waiting))
    }

    /// One more waits, if it is of this kind.
    fn join(&mut self, kind: TurnKind)
        requires { self.old.waiting + 1 < 2 ^ 64 }
        ensures { Some (turn_in self.new) ≡ (if same_kind self.old.kind kind
            then joined_by_one (turn_in self.old) else Some (turn_in self.old)) }
    {
        if self.is(kind) {
            self.waiting += 1;
        }
    }
}

impl<V: Clone + Drop, F: Clone + Drop> TurnSlot<V, F> {
    /// One less waits, and gets a clone of what the turn ended with.
    fn leave(&mut self) -> Result<Ending<V, F>, AllocError>
        ensures fits { IfOk result (λ ending. fits self.old.kind ending ≡ true) }
        ensures tells { IsExact V.is_clone → IsExact F.is_clone
            → IfOk result (λ ending. ending ≡ self.old.ending) }
        ensures leaves { turn_in self.new ≡ with_one_less (turn_in self.old) }
    {
        self.waiting = self.waiting.saturating_sub(1);
        match &self.ending {
            Ending::Underway => Ok(Ending::Underway),
            Ending::Done(made) => Ok(Ending::Done(copy_made(made)?)),
            Ending::GivenUp => Ok(Ending::GivenUp),
        }
    }
}

/// Returns a clone of what was made. Returns an error if there is not enough memory.
pub fn copy_made<V: Clone, F: Clone>(made: &Made<V, F>) -> Result<Made<V, F>, AllocError>
    ensures suits { IfOk result
        (λ copy. (kind : TurnKind) → suits kind copy ≡ suits kind made.now) }
    ensures exact { IsExact V.is_clone → IsExact F.is_clone
        → IfOk result (λ copy. copy ≡ made.now) }
{
    match made {
        Made::Value(value) => Ok(Made::Value(value.clone()?)),
        Made::Nothing => Ok(Made::Nothing),
        Made::Fault(fault) => Ok(Made::Fault(fault.clone()?)),
    }
}

impl<V: Drop, F: Drop> Slots<V, F> {
    /// Creates an empty table of turns.
    pub fn new(alloc: Global) -> Self
        ensures { IsEmpty result.slots }
    {
        Slots {
            slots: HashMap::new(alloc),
        }
    }

    /// Makes room for one more turn. Returns an error if there is not enough memory.
    pub fn reserve(&mut self) -> Result<(), AllocError>
        ensures room { OnOk result (0 < spare self.new.slots) }
        ensures same { SlotsStay self.old.slots self.new.slots }
    {
        self.slots.reserve(1)
    }

    /// Begins a turn of a key of this hash, in room that was made.
    pub fn open(&mut self, kind: TurnKind, number: u64, hash: u64)
        requires room { 0 < spare self.old.slots }
        ensures opens { IsPutAt number (Some (fresh_turn kind hash)) self.old.slots self.new.slots }
    {
        let slot = TurnSlot {
            kind,
            hash,
            waiting: 0,
            ending: Ending::Underway,
        };
        let Ok(_) = self.slots.insert(number, slot) else {
            unreachable!();
        };
    }

    /// Returns whether one more caller can be counted among those that wait for a turn.
    pub fn can_join(&self, number: u64) -> bool
        ensures room { result ≡ true → waiters_at number self.now.slots + 1 < 2 ^ 64 }
        ensures full { result ≡ false → 2 ^ 64 ≤ waiters_at number self.now.slots + 1 }
    {
        match self.slots.get(&number) {
            Some(slot) => slot.waiting < u64::MAX,
            None => true,
        }
    }

    /// Counts one more caller that waits for a turn, whose count has room.
    pub fn join(&mut self, kind: TurnKind, number: u64)
        requires { waiters_at number self.old.slots + 1 < 2 ^ 64 }
        ensures { ChangesTurnAt kind number joined_by_one self.old.slots self.new.slots }
    {
        if let Some(slot) = self.slots.get_mut(&number) {
            slot.join(kind);
        }
    }

    /// Returns whether callers wait for a turn.
    pub fn is_waited_for(&self, kind: TurnKind, number: u64) -> bool
        ensures { result ≡ option_map_or (λ slot. same_kind slot.kind kind && nat_lt 0 slot.waiting)
            (turn_by_number number self.now.slots) false }
    {
        match self.slots.get(&number) {
            Some(slot) => slot.is(kind) && 0 < slot.waiting,
            None => false,
        }
    }

    /// Ends a turn, which is kept only if callers wait for it. Returns the hash of its key, or `None` if there is no turn of this kind.
    pub fn end(&mut self, kind: TurnKind, number: u64, ending: Ending<V, F>) -> Option<u64>
        requires { fits kind ending ≡ true }
        ensures hash { result ≡ turn_hash kind (turn_by_number number self.old.slots) }
        ensures ends { ChangesTurnAt kind number (ended_with ending) self.old.slots self.new.slots }
    {
        let (hash, waited) = match self.slots.get_mut(&number) {
            Some(slot) => slot.end(kind, ending)?,
            None => return None,
        };
        if !waited {
            self.slots.remove(&number);
        }
        Some(hash)
    }

    /// Removes a turn, and returns how it ended.
    fn take(&mut self, number: u64) -> Ending<V, F>
        ensures fits { (kind : TurnKind) → IfSome (turn_by_number number self.old.slots)
            (λ slot. slot.kind ≡ kind) → fits kind result ≡ true }
        ensures tells { result ≡ told_of (turn_by_number number self.old.slots) }
        ensures takes { IsPutAt number None self.old.slots self.new.slots }
    {
        match self.slots.remove(&number) {
            Some(slot) => slot.ending,
            None => Ending::GivenUp,
        }
    }
}

impl<V: Clone + Drop, F: Clone + Drop> Slots<V, F> {
    /// Returns the state of a turn that the caller waits for. If the turn ended, the caller no longer waits, and the last that waits takes
    /// the result; the others get a clone. Returns an error if there is no memory for the clone.
    pub fn look(&mut self, kind: TurnKind, number: u64) -> Result<Ending<V, F>, AllocError>
        ensures fits { IfOk result (λ ending. fits kind ending ≡ true) }
        ensures tells { IsExact V.is_clone → IsExact F.is_clone → IfOk result
            (λ ending. ending ≡ told_of (if_of kind (turn_by_number number self.old.slots))) }
        ensures leaves { ChangesTurnAt kind number (λ turn. seen_with turn.ending turn)
            self.old.slots self.new.slots }
    {
        let Some(slot) = self.slots.get(&number) else {
            return Ok(Ending::GivenUp);
        };
        if !slot.is(kind) {
            return Ok(Ending::GivenUp);
        }
        if slot.is_underway() {
            return Ok(Ending::Underway);
        }
        if slot.waiting <= 1 {
            return Ok(self.take(number));
        }
        self.leave(number)
    }

    /// One less waits for a turn, and gets a clone of what it ended with.
    fn leave(&mut self, number: u64) -> Result<Ending<V, F>, AllocError>
        ensures fits { IfOk result (λ ending. (kind : TurnKind) → IfSome
            (turn_by_number number self.old.slots) (λ slot. slot.kind ≡ kind)
            → fits kind ending ≡ true) }
        ensures tells { IsExact V.is_clone → IsExact F.is_clone
            → IfOk result (λ ending. ending ≡ told_of (turn_by_number number self.old.slots)) }
        ensures leaves { IsPutAt number
            (option_map with_one_less (turn_by_number number self.old.slots))
            self.old.slots self.new.slots }
    {
        match self.slots.get_mut(&number) {
            Some(slot) => slot.leave(),
            None => Ok(Ending::GivenUp),
        }
    }
}
