//! The tables.
ghost use Rattle.std.specs.Prelude.{◌≡◌, ℕ, ◌+◌, ◌-◌, ◌<◌, ◌≤◌, ◌^◌, min, true, false, [], ◌∷◌, ◌⊎◌, ◌++◌, length, remove, slice_get, slice_set, is_some, Some, None, IfSome, IfNone, IfOk, OnOk, OnErr, ◌↔◌, option_copied, if◌then◌else◌, ◌≢◌, option_map};
ghost use Rattle.std.specs.String.{string_bytes};
ghost use Rattle.policy_queue.specs.Indices.{has_index};
ghost use Rattle.std.specs.Result.{IsErrOf};
ghost use Rattle.std.specs.Int.{IsNextPowerOfTwo};
ghost use Rattle.engine_reference.specs.Records.{record_at, held_at, changed_at, without_record, without, moved_to_back, settled_in, admitted_number, admitted_weight, held_weight};
ghost use Rattle.engine_reference.specs.Admission.{is_above};
ghost use Rattle.engine_reference.specs.declared.data.Record.{Record};
ghost use Rattle.engine_reference.specs.Visible.{told, is_covered};
ghost use Rattle.engine_reference.specs.State.{Answers};
ghost use Rattle.engine_cells.specs.Swept.{NoneIsCleared};
ghost use Rattle.engine_cells.specs.Noting.{read_of, write_of, number_written, AimsRight, AimsOnlyAt};
ghost use Rattle.engine_reference.specs.Runs.{after_hit, after_read, after_removal, next_to_evict, is_due};
ghost use Rattle.engine_reference.specs.Calls.{IsNew, without_room, without_notice, cleared_by, registered, sent, unsent_at, is_full};
ghost use Rattle.engine_reference.specs.Soundness.{AreOnce, IsIn};
ghost use Rattle.engine_cells.specs.Looking.{is_expired, behind};
ghost use Rattle.engine_reference.specs.declared.data.Read.{Read};
ghost use Rattle.policy_base.specs.Counts.{incremented, grown};
ghost use Rattle.engine_cells.specs.Writing.{put_for, with_put_for, IsNewcomer};
ghost use Rattle.engine_tables.specs.Changing.{ChangesAt, GoesToBack, IsWrittenOver, IsMarkedRemoved, CountsAt, IsForgotten, LeavesAt, taken_down};
ghost use Rattle.engine_cells.specs.Kept.{numbered_at, kept_at, StandsFirst, is_admitted_as, is_removed_as};

use engine_cells::{
    Cell, CellSlab, Keys, Noted, PlacedWrite, Tally, WaitingWrite, WriteOrder, find_held,
    first_expired, first_settled, grow, put_last, set_changed, take_if, take_off, time_all,
};
use engine_pending::{Backlog, Expirations};
use engine_reference::{
    Entry, Hashes, Names, Notice, Refusal, Registered, RemovalCause, Rules, Settings,
};
use policy_base::FrequencySketch;
use policy_queue::IndexQueue;
use std::alloc::{AllocError, Global};
use std::hash::{BuildHasher, Hash, Hasher};
use std::marker::Model;

mod again;

/// For how many writes more than those asked for room is made, so that most writes find it made.
const SPARE: u64 = 16;

/// The tables of a cache of one part. Each method that changes them makes one change, for which there is room.
#[derive(Drop)]
pub struct Tables<K: Eq + Hash, V, S: BuildHasher, R: Rules<K, V>> {
    cells: CellSlab<Cell<K, V>>,
    // The places of the admitted records, by their last uses, and, where a live time is set, by their last writes.
    access: IndexQueue,
    order: WriteOrder,
    tally: Tally,
    next_number: u64,
    keys: Keys,
    expirations: Expirations,
    backlog: Backlog<K, V, Noted, PlacedWrite, S, R>,
    // For how many writes or predicates room was asked for. The backlog's room is for these, and for some to come.
    reserved: u64,
    // No held record is of an earlier step.
    since: u64,
}

impl<K: Eq + Hash, V, S: BuildHasher, R: Rules<K, V>> Model for Tables<K, V, S, R> {
    ghost use Rattle.std.specs.Prelude.{ℕ, ◌≡◌, true, is_some, ◌+◌, ◌≤◌, ◌<◌, ◌^◌};
    ghost use Rattle.slab.specs.Slab.{slab_len};
    ghost use Rattle.engine_pending.specs.Whole.{whole};
    ghost use Rattle.engine_cells.specs.Cells.{records_by_number, numbers_in, numbers_of, AreNumberedBelow, AreListed};
    ghost use Rattle.engine_cells.specs.Fitting.{HasPlacesFor};
    ghost use Rattle.engine_cells.specs.Noting.{read_of, write_of, AreAllAimed};
    ghost use Rattle.engine_cells.specs.Kept.{Kept};
    ghost use Rattle.engine_cells.specs.Tallying.{IsTallied};
    ghost use Rattle.engine_cells.specs.Spotted.{AreSpotted, AreHashed};
    ghost use Rattle.engine_cells.specs.Awaiting.{AreAwaited};
    ghost use Rattle.engine_cells.specs.Swept.{AreSince};
    ghost use Rattle.engine_reference.specs.Rules.Hashing.{hash_of_key};

    ghost Value = { Kept K V R.Predicate S R };

    ghost view = { λ c. record {
      state = whole read_of write_of (records_by_number c.cells.slots) (numbers_in c.cells.slots c.access.indices) (numbers_in c.cells.slots c.order.places.indices) c.next_number (record c.backlog { reserved = c.reserved });
      numbers = numbers_of c.cells.slots;
    } };

    // the access queue and the write list have the places of the admitted records; each record has room in both and, where removals are told, for its notice, and what is reserved serves a write; what waits, and the hashes of keys, lead to their records; what expires has a timer; the write list is kept where a live time is set
    ghost invariant = { λ c. record {
      kept : AreNumberedBelow c.cells.slots c.next_number;
      used : AreListed c.cells.slots c.access.indices;
      written : AreListed c.cells.slots c.order.places.indices;
      cells : slab_len c.cells + c.backlog.reserved ≤ c.cells.capacity;
      access : HasPlacesFor c.cells c.tally.number c.backlog.reserved c.access;
      order : HasPlacesFor c.cells c.tally.number c.backlog.reserved c.order.places;
      notices : c.backlog.settings.tells ≡ true → slab_len c.cells + c.backlog.reserved ≤ c.backlog.notice_room;
      tallied : IsTallied c.cells.slots c.tally;
      aimed : AreAllAimed c.cells.slots c.next_number c.backlog.reads c.backlog.writes c.backlog.unsent;
      reserved : c.reserved ≤ c.backlog.reserved;
      tickets : c.backlog.next_ticket + c.backlog.reserved < 2 ^ 64;
      numbers : c.next_number ≤ c.backlog.next_ticket;
      spotted : AreSpotted K.eq c.cells.slots c.keys;
      hashed : AreHashed (hash_of_key S.Hasher.finish S.Hasher.write S.build_hasher K.hash_input c.backlog.hasher) c.cells.slots;
      keys : c.backlog.reserved ≤ c.keys.space;
      awaited : ∥ AreAwaited c.cells.slots c.expirations ∥₁;
      live : is_some c.backlog.settings.live ≡ true → c.order.is_kept ≡ true;
      since : AreSince c.since c.cells.slots;
    } };
}

impl<K: Eq + Hash, V, S: BuildHasher, R: Rules<K, V>> Tables<K, V, S, R> {
    /// Creates the tables of a cache. Returns an error if there is not enough memory.
    pub fn new(
        alloc: Global,
        name: Option<String>,
        settings: Settings,
        hasher: S,
        rules: R,
    ) -> Result<Self, AllocError>
    where
        S: Drop,
        R: Drop,
        ensures { IfOk result
            (λ made. IsNew (option_map string_bytes name) settings hasher rules made.state) }
    {
        let backlog = Backlog::new(alloc, name, settings, hasher, rules)?;
        Ok(Tables {
            cells: CellSlab::new(alloc),
            access: IndexQueue::new(alloc),
            order: WriteOrder::new(alloc, settings.live.is_some()),
            tally: Tally {
                held: 0,
                weight: 0,
                number: 0,
            },
            next_number: 0,
            keys: Keys::new(alloc),
            expirations: Expirations::new(alloc),
            backlog,
            reserved: 0,
            since: 0,
        })
    }

    // ---- room

    /// Makes room for `by` more writes or predicates, which are then not refused. Returns `UsedUp` if the 64-bit tickets of writes are used
    /// up, and `OutOfMemory` if there is not enough memory; then nothing has changed.
    #[inline(always)]
    pub fn make_room(&mut self, by: u64) -> Result<(), Refusal>
        ensures ok { OnOk result (self.new ≡ record self.old
            { state = record self.old.state { reserved = self.old.state.reserved + by } }) }
        ensures err { OnErr result (self.new ≡ self.old) }
        ensures used_up { (result ≡ Err Refusal.UsedUp)
            ↔ (2 ^ 64 ≤ self.old.state.next_ticket + self.old.state.reserved + by) }
        ensures only { OnErr result
            ((IsErrOf result Refusal.OutOfMemory) ⊎ (IsErrOf result Refusal.UsedUp)) }
    {
        if by <= self.backlog.reserved() - self.reserved {
            self.reserved += by;
            return Ok(());
        }
        self.make_more_room(by)
    }

    /// Makes room for `by` more writes or predicates, and for some to come, by memory.
    fn make_more_room(&mut self, by: u64) -> Result<(), Refusal>
        ensures ok { OnOk result (self.new ≡ record self.old
            { state = record self.old.state { reserved = self.old.state.reserved + by } }) }
        ensures err { OnErr result (self.new ≡ self.old) }
        ensures used_up { (result ≡ Err Refusal.UsedUp)
            ↔ (2 ^ 64 ≤ self.old.state.next_ticket + self.old.state.reserved + by) }
        ensures only { OnErr result
            ((IsErrOf result Refusal.OutOfMemory) ⊎ (IsErrOf result Refusal.UsedUp)) }
    {
        let free = (u64::MAX - self.backlog.next_ticket()).saturating_sub(self.reserved);
        if free < by {
            return Err(Refusal::UsedUp);
        }
        let there = self.backlog.reserved();
        let wanted = self.reserved + by.saturating_add(SPARE).min(free);
        let more = wanted.saturating_sub(there);
        let waiting = self.cells.len() - self.tally.number as usize;
        let has_grown = grow(
            &mut self.cells,
            &mut self.access,
            &mut self.order,
            &mut self.keys,
            (there + more) as usize,
            waiting,
        );
        if !has_grown {
            return Err(Refusal::OutOfMemory);
        }
        match self.backlog.make_room(more, self.cells.len()) {
            Ok(()) => {
                self.reserved += by;
                Ok(())
            }
            Err(_) => Err(Refusal::OutOfMemory),
        }
    }

    /// Gives up the room of one write or predicate.
    pub fn release_room(&mut self)
        requires { 0 < self.old.state.reserved }
        ensures { self.new ≡ record self.old { state = without_room self.old.state } }
    {
        let _ = &self.backlog;
        self.reserved -= 1;
    }

    // ---- clears and predicates

    /// Covers every entry of an earlier step.
    pub fn clear(&mut self, step: u64)
        ensures { self.new ≡ record self.old { state = cleared_by step self.old.state } }
    {
        self.backlog.clear(step);
    }

    /// Returns whether it is known that no held record is of a step before the last clear.
    pub fn is_swept(&self) -> bool
        ensures { result ≡ true → NoneIsCleared self.now.state }
    {
        self.backlog.cleared() <= self.since
    }

    /// Notes that no held record is of a step before the last clear.
    pub fn note_swept(&mut self)
        requires { NoneIsCleared self.old.state }
        ensures { self.new ≡ self.old }
    {
        self.since = self.backlog.cleared();
    }

    /// Registers a predicate, for which there is room.
    pub fn register(&mut self, predicate: Registered<R::Predicate>)
        requires { 0 < self.old.state.reserved }
        ensures { self.new ≡ record self.old { state = registered predicate self.old.state } }
    {
        self.backlog.register(predicate);
        self.reserved -= 1;
    }

    /// Removes the predicate at an index.
    pub fn end_predicate(&mut self, place: usize)
        requires { place < length self.old.state.predicates }
        ensures { self.new ≡ record self.old {
          state
              = record self.old.state { predicates = remove self.old.state.predicates place };
        } }
    {
        self.backlog.end_predicate(place);
    }

    /// Returns the predicates, the oldest first.
    pub fn predicates(&self) -> &[Registered<R::Predicate>]
        ensures { result.now ≡ self.now.state.predicates }
    {
        self.backlog.predicates()
    }

    /// Returns whether a later clear or predicate covers a record's entry.
    pub fn is_over(&self, found: &Cell<K, V>) -> bool
        ensures { (answers : Answers K V R.Predicate R) → answers.covers ≡ R.answers.covers
            → result ≡ is_covered answers self.now.state found.now.entry }
    {
        self.backlog
            .is_over(found.step(), found.key(), found.value())
    }

    // ---- records

    /// Returns the record in a place, or `None` if there is none.
    pub fn record(&self, place: usize) -> Option<&Cell<K, V>>
        ensures { option_copied result ≡ kept_at self.now place }
    {
        self.cells.get(place)
    }

    /// Returns the record in a place, which must have one.
    pub fn record_in(&self, place: usize) -> &Cell<K, V>
        requires { is_some (kept_at self.now place) ≡ true }
        ensures { kept_at self.now place ≡ Some result.now }
    {
        match self.record(place) {
            Some(found) => found,
            None => unreachable!(),
        }
    }

    /// Returns how many places there are at most: each record stands in one of them.
    pub fn places(&self) -> usize
        ensures most { length self.now.numbers ≤ result }
        ensures stand { (r : Record K V) → record_at self.now.state.records r.number ≡ Some r
            → (i : ℕ) × (i < length self.now.numbers) × (kept_at self.now i ≡ Some r) }
    {
        self.cells.capacity()
    }

    /// Returns the place of a key's record, by the key's hash, or `None` if no record of the key is held.
    pub fn place_of<Q: Names<K>>(&self, key: &Q, hash: u64) -> Option<usize>
        requires hashed { hash
            ≡ ⟦<S as Hashes<K>>⟧.hash self.now.state.hasher (Q.named_key key.now) }
        ensures found { IfSome result (λ i. (r : Record K V) × (kept_at self.now i ≡ Some r)
            × (held_at K.eq self.now.state.records (Q.named_key key.now) ≡ Some r)) }
        ensures hash { IfSome result
            (λ i. (r : Record K V) → kept_at self.now i ≡ Some r → r.hash ≡ hash) }
        ensures none { IfNone result
            (held_at K.eq self.now.state.records (Q.named_key key.now) ≡ None) }
    {
        find_held(&self.cells, &self.keys, key, hash)
    }

    /// Notes that a look-up used the record in a place at a moment in nanoseconds, and when its value expires by itself from then on.
    /// Returns the record's number.
    pub fn use_at(&mut self, place: usize, used: u64, expires: Option<u64>) -> u64
        requires { is_some (kept_at self.old place) ≡ true }
        ensures changes { ChangesAt (λ x. record x {
          entry = record x.entry { used = used; expires = expires };
        }) place self.old self.new }
        ensures number { (r : Record K V) → kept_at self.old place ≡ Some r → result ≡ r.number }
    {
        let cell = &mut self.cells[place];
        let number = cell.number();
        let before = cell.expires();
        cell.use_at(used, expires);
        set_changed(&mut self.expirations, place, before, expires);
        number
    }

    /// Moves the number of the record in a place, which is admitted, to the back of the access list.
    pub fn use_again(&mut self, place: usize)
        requires { (r : Record K V) × (kept_at self.old place ≡ Some r)
            × (is_some r.counts ≡ true) }
        ensures { GoesToBack place self.old self.new }
    {
        let index = self.cells.index_of(place);
        self.access.move_to_back(index);
    }

    /// Adds the record of a new key, and its write, for which there is room: the write goes into the queue at once, or waits to be sent.
    /// Returns the record's place.
    pub fn add(&mut self, added: Cell<K, V>, at_once: bool) -> usize
        requires room { 0 < self.old.state.reserved }
        requires queue { at_once ≡ true → length self.old.state.writes < 128 }
        requires newcomer { IsNewcomer K.eq
            (⟦<S as Hashes<K>>⟧.hash self.old.state.hasher) self.old.state added }
        ensures vacant { numbered_at self.old.numbers result ≡ None }
        ensures place { kept_at self.new result ≡ Some added }
        ensures others { (i : ℕ) → i ≢ result → numbered_at self.new.numbers i
            ≡ numbered_at self.old.numbers i }
        ensures state { self.new.state
            ≡ with_put_for at_once added (record self.old.state {
              records = self.old.state.records ++ added
                  ∷ [];
              next_number = self.old.state.next_number + 1;
            }) }
    {
        let _many = self.cells.capacity();
        let held = self.tally.held_with(0, added.weight());
        let write = WaitingWrite::put(&added, held);
        self.tally.held = held;
        self.since = self.since.min(added.step());
        let hash = added.hash();
        let expires = added.expires();
        let place = self.cells.insert_reserved(added);
        self.keys.put(hash, place);
        set_changed(&mut self.expirations, place, None, expires);
        self.backlog
            .add_write(PlacedWrite { place, write }, at_once);
        self.reserved -= 1;
        self.next_number += 1;
        place
    }

    /// Writes over the entry in a place, which is held, and reports the entry that was there if removals are reported. The write, for which
    /// there is room, goes into the queue at once, or waits to be sent. The new key compares equal to the old one.
    pub fn write_over(
        &mut self,
        place: usize,
        entry: Entry<K, V>,
        cause: RemovalCause,
        at_once: bool,
    )
    where
        K: Drop,
        V: Drop,
        requires there { is_some (kept_at self.old place) ≡ true }
        requires room { 0 < self.old.state.reserved }
        requires queue { at_once ≡ true → length self.old.state.writes < 128 }
        requires fits { (r : Record K V) → kept_at self.old place ≡ Some r
            → (r.is_held ≡ true) × (r.writes < 2 ^ 64 - 1) }
        requires alike { (r : Record K V) → kept_at self.old place ≡ Some r
            → K.eq r.entry.key entry.key ≡ true }
        ensures { IsWrittenOver entry cause at_once place self.old self.new }
    {
        let _many = self.cells.capacity();
        self.since = self.since.min(entry.step);
        let cell = &mut self.cells[place];
        let before = cell.expires();
        let expires = entry.expires;
        let held = self.tally.held_with(cell.weight(), entry.weight);
        let replaced = cell.write_over(entry, cause);
        let write = WaitingWrite::put(cell, held);
        self.tally.held = held;
        set_changed(&mut self.expirations, place, before, expires);
        self.backlog.tell(true, replaced);
        self.backlog
            .add_write(PlacedWrite { place, write }, at_once);
        self.reserved -= 1;
    }

    /// Notes that the key of the record in a place was removed: the record is no longer held. Its removal, for which there is room, goes
    /// into the queue if `at_once` is true, and otherwise waits to be sent.
    pub fn mark_removed(&mut self, place: usize, at_once: bool)
        requires there { is_some (kept_at self.old place) ≡ true }
        requires room { 0 < self.old.state.reserved }
        requires queue { at_once ≡ true → length self.old.state.writes < 128 }
        requires fits { (r : Record K V) → kept_at self.old place ≡ Some r → r.writes < 2 ^ 64 - 1 }
        ensures { IsMarkedRemoved at_once place self.old self.new }
    {
        let cell = &mut self.cells[place];
        let number = cell.number();
        let hash = cell.hash();
        let was_held = cell.is_held();
        let expires = cell.expires();
        self.tally = self.tally.unheld(cell);
        cell.mark_removed();
        take_if(&mut self.keys, was_held, hash, place);
        set_changed(&mut self.expirations, place, expires, None);
        let write = WaitingWrite::removed(number);
        self.backlog
            .add_write(PlacedWrite { place, write }, at_once);
        self.reserved -= 1;
    }

    /// Notes that a write of the record in a place is applied. The record stays as it is otherwise, not admitted if it was not.
    pub fn put_off(&mut self, place: usize, write: u64)
        requires { is_some (kept_at self.old place) ≡ true }
        ensures { ChangesAt (λ x. record x { applied = write }) place self.old self.new }
    {
        let cell = &mut self.cells[place];
        cell.apply(write);
    }

    /// Removes the record in a place, which is not held. The record was reported when its key was removed.
    pub fn forget(&mut self, place: usize)
    where
        K: Drop,
        V: Drop,
        requires there { is_some (kept_at self.old place) ≡ true }
        requires unheld { (r : Record K V) → kept_at self.old place ≡ Some r → r.is_held ≡ false }
        ensures { IsForgotten place self.old self.new }
    {
        self.leave(place, RemovalCause::Explicit);
    }

    /// Reports an entry that was removed, if removals are reported, in the room of one write.
    pub fn tell_removed(&mut self, cause: RemovalCause, entry: Entry<K, V>)
    where
        K: Drop,
        V: Drop,
        requires room { 0 < self.old.state.reserved }
        ensures { self.new ≡ record self.old {
          state = record self.old.state {
            notices = told self.old.state.settings.tells cause
                entry self.old.state.notices;
            reserved = self.old.state.reserved - 1;
          };
        } }
    {
        self.backlog.tell_removed(Notice {
            cause,
            key: entry.key,
            value: entry.value,
        });
        self.reserved -= 1;
    }

    /// Applies the removal of the record of a number: removes the record if it is there and not held. The record can only be in this place.
    pub fn apply_removal(&mut self, place: usize, number: u64)
    where
        K: Drop,
        V: Drop,
        requires { AimsOnlyAt self.old.numbers place number }
        ensures { self.new.state
            ≡ after_removal (record_at self.old.state.records number) self.old.state }
    {
        let _ = &self.cells;
        if self.is_removed_at(place, number) {
            self.forget(place);
        }
    }

    /// Whether a place has the record of a number, and it is not held.
    fn is_removed_at(&self, place: usize, number: u64) -> bool
        ensures { result ≡ is_removed_as number (kept_at self.now place) }
    {
        match self.cells.get(place) {
            Some(cell) => is_removed_as(cell, number),
            None => false,
        }
    }

    /// Returns what all held records weigh, whether admitted or not.
    pub fn held_weight(&self) -> u64
        ensures { result ≡ held_weight self.now.state.records }
    {
        self.tally.held
    }

    /// Returns what the admitted records weigh.
    pub fn admitted_weight(&self) -> u64
        ensures is { result ≡ admitted_weight self.now.state.records }
        ensures light { result + 2 ^ 32 ≤ 2 ^ 64 }
    {
        let _many = self.cells.capacity();
        self.tally.weight
    }

    /// Returns how many records are admitted.
    pub fn admitted_number(&self) -> u64
        ensures { result ≡ admitted_number self.now.state.records }
    {
        self.tally.number
    }

    /// Removes the record in a place, and reports it if it was held and removals are reported.
    #[inline(always)]
    pub fn leave(&mut self, place: usize, cause: RemovalCause)
    where
        K: Drop,
        V: Drop,
        requires { is_some (kept_at self.old place) ≡ true }
        ensures { LeavesAt cause place self.old self.new }
    {
        let index = self.cells.index_of(place);
        let gone = self.cells.remove(place);
        self.tally = self.tally.without(&gone);
        let is_queued = gone.counts().is_some();
        take_off(&mut self.access, index, is_queued);
        self.order.take_off(index, is_queued);
        let was_held = gone.is_held();
        take_if(&mut self.keys, was_held, gone.hash(), place);
        set_changed(&mut self.expirations, place, gone.expires(), None);
        self.backlog.tell(was_held, gone.into_notice(cause));
    }

    /// Returns the place of the record that was used longest ago, or `None` if no record is on the access list.
    pub fn oldest(&self) -> Option<usize>
        ensures first { IfSome result (λ i. (r : Record K V) × (kept_at self.now i ≡ Some r)
            × (slice_get self.now.state.access 0 ≡ Some r.number) × (is_some r.counts ≡ true)) }
        ensures none { IfNone result (self.now.state.access ≡ []) }
    {
        place_at(self.access.first())
    }

    /// Returns the place of the record behind that of a place on the access list, or `None` after the last one.
    pub fn next_used(&self, place: usize) -> Option<usize>
        requires { (r : Record K V) × (kept_at self.now place ≡ Some r)
            × (is_some r.counts ≡ true) }
        ensures next { (r : Record K V) → kept_at self.now place ≡ Some r
            → IfSome result (StandsFirst self.now (behind r.number self.now.state.access)) }
        ensures last { (r : Record K V) → kept_at self.now place ≡ Some r
            → IfNone result (behind r.number self.now.state.access ≡ []) }
    {
        let index = self.cells.index_of(place);
        place_at(self.access.behind(index))
    }

    /// No number stands on the access list twice, and each there is of an admitted record. The call does nothing: its contract says so.
    pub fn access_stands(&self)
        ensures once { AreOnce self.now.state.access }
        ensures admitted { (number : ℕ) → IsIn number self.now.state.access
            → is_admitted_as number (record_at self.now.state.records number) ≡ true }
    {
        let _ = &self.access;
    }

    /// Returns the place of the record whose write was applied longest ago, or `None` if no record is on the write list. The list is kept
    /// only where a live time is set.
    pub fn first_written(&self) -> Option<usize>
        requires { is_some self.now.state.settings.live ≡ true }
        ensures first { IfSome result (λ i. (r : Record K V) × (kept_at self.now i ≡ Some r)
            × (slice_get self.now.state.order 0 ≡ Some r.number) × (is_some r.counts ≡ true)) }
        ensures none { IfNone result (self.now.state.order ≡ []) }
    {
        place_at(self.order.first())
    }

    /// Returns the place of the settled record that was used longest ago, or `None` if there is none.
    pub fn first_settled(&self) -> Option<usize>
        ensures found { IfSome result (λ i. (r : Record K V) × (kept_at self.now i ≡ Some r)
            × (next_to_evict self.now.state ≡ Some r)) }
        ensures none { IfNone result
            (settled_in self.now.state.records self.now.state.access ≡ []) }
    {
        first_settled(&self.cells, &self.access)
    }

    /// Returns the place of a held record whose own expiration was reached at `now`, a moment in nanoseconds, or `None` if there is none.
    pub fn first_due(&self, now: u64) -> Option<usize>
        ensures found { IfSome result
            (λ i. (r : Record K V) × (kept_at self.now i ≡ Some r) × (is_expired now r ≡ true)) }
        ensures none { IfNone result ((r : Record K V) → record_at self.now.state.records r.number
            ≡ Some r → is_expired now r ≡ false) }
    {
        first_expired(&self.cells, &self.expirations, now)
    }

    /// Sets all timers anew, if there was no memory for one before.
    pub fn mend_timers(&mut self)
        ensures { self.new ≡ self.old }
    {
        if !self.expirations.is_whole() {
            time_all(&self.cells, &mut self.expirations);
        }
    }

    /// Returns whether the admitted records weigh more than the capacity.
    pub fn is_too_heavy(&self) -> bool
        ensures { result
            ≡ is_above self.now.state.settings.capacity (admitted_weight self.now.state.records) }
    {
        match self.backlog.settings().capacity {
            Some(capacity) => capacity < self.tally.weight,
            None => false,
        }
    }

    /// Returns the settings with which the cache was made.
    pub fn settings(&self) -> Settings
        ensures { result ≡ self.now.state.settings }
    {
        self.backlog.settings()
    }

    /// Returns the step of the last clear, or 0 if there was none.
    pub fn cleared(&self) -> u64
        ensures { result ≡ self.now.state.cleared }
    {
        self.backlog.cleared()
    }

    /// Returns the counts of how often hashes were requested.
    pub fn sketch(&self) -> &FrequencySketch
        ensures { result.now ≡ self.now.state.sketch }
    {
        self.backlog.sketch()
    }

    /// Returns how many records were admitted at the end of the last run.
    pub fn number(&self) -> u64
        ensures { result ≡ self.now.state.number }
    {
        self.backlog.number()
    }

    /// Returns what the admitted records weighed at the end of the last run.
    pub fn weight(&self) -> u64
        ensures { result ≡ self.now.state.weight }
    {
        self.backlog.weight()
    }

    /// Returns the moment of the last run, in nanoseconds.
    pub fn ran(&self) -> u64
        ensures { result ≡ self.now.state.ran }
    {
        self.backlog.ran()
    }

    /// Returns whether the last run wanted the sketch's table and there was no memory for it.
    pub fn table_refused(&self) -> bool
        ensures { result ≡ self.now.state.table_refused }
    {
        self.backlog.table_refused()
    }

    /// Returns the number of the next record.
    pub fn next_number(&self) -> u64
        ensures { result ≡ self.now.state.next_number }
    {
        self.next_number
    }

    /// Returns the ticket of the next write.
    pub fn next_ticket(&self) -> u64
        ensures { result ≡ self.now.state.next_ticket }
    {
        self.backlog.next_ticket()
    }

    /// Returns the name of the cache, or `None` if it has none.
    pub fn name(&self) -> Option<&str>
        ensures { option_map (λ text. text.now) result ≡ self.now.state.name }
    {
        self.backlog.name()
    }

    /// Returns the rules.
    pub fn rules(&self) -> &R
        ensures { result.now ≡ self.now.state.rules }
    {
        self.backlog.rules()
    }

    /// Returns what makes hashers.
    pub fn hasher(&self) -> &S
        ensures { result.now ≡ self.now.state.hasher }
    {
        self.backlog.hasher()
    }

    /// Notes at the end of a run how many records are admitted, what they weigh, the run's moment in nanoseconds, and whether there was no
    /// memory for the sketch's table.
    pub fn finish_run(&mut self, now: u64, table_refused: bool)
        ensures { self.new
            ≡ record self.old { state = taken_down now table_refused self.old.state } }
    {
        let _many = self.cells.capacity();
        self.backlog
            .finish_run(self.tally.number, self.tally.weight, now, table_refused);
    }

    /// Makes the sketch's table for so many hashes. Returns an error if there is not enough memory; then nothing has changed.
    pub fn make_table(&mut self, hashes: u32) -> Result<(), AllocError>
        ensures made { OnOk result ((words : ℕ) × IsNextPowerOfTwo (min hashes (2 ^ 24)) words
            × (self.new ≡ record self.old {
              state
                  = record self.old.state { sketch = grown self.old.state.sketch words hashes };
            })) }
        ensures err { OnErr result (self.new ≡ self.old) }
    {
        self.backlog.make_table(hashes)
    }

    /// Returns whether a run is due at `now`, a moment in nanoseconds: 64 writes or 64 reads wait, or the last run is 300 milliseconds old.
    pub fn is_due(&self, now: u64) -> bool
        ensures { result ≡ is_due self.now.state now }
    {
        self.backlog.is_due(now)
    }

    // ---- notices

    /// Takes the oldest notice that was not taken, or returns `None` if there is none.
    pub fn next_notice(&mut self) -> Option<Notice<K, V>>
        ensures notice { result ≡ slice_get self.old.state.notices 0 }
        ensures taken { self.new ≡ record self.old { state = without_notice self.old.state } }
    {
        self.backlog.next_notice()
    }

    // ---- writes that wait

    /// Returns how many writes wait to be applied.
    pub fn number_of_writes(&self) -> usize
        ensures { result ≡ length self.now.state.writes }
    {
        self.backlog.writes().len()
    }

    /// Returns whether each ticket was sent and the queue has room, so that a write can go into the queue at once.
    pub fn can_send(&self) -> bool
        ensures { result ≡ true
            → (self.now.state.unsent ≡ []) × (length self.now.state.writes < 128) }
    {
        self.backlog.can_send()
    }

    /// Moves the write of a ticket into the queue. Returns `UnknownTicket` if no write waits under this ticket, and otherwise `QueueFull`
    /// if 128 writes are in the queue; then nothing has changed.
    pub fn send(&mut self, ticket: u64) -> Result<(), Refusal>
        ensures ok { OnOk result
            (self.new ≡ record self.old { state = sent ticket self.old.state }) }
        ensures known { OnOk result (is_some (unsent_at self.old.state.unsent ticket) ≡ true) }
        ensures room { OnOk result (is_full self.old.state ≡ false) }
        ensures err { OnErr result (self.new ≡ self.old) }
        ensures unknown { IsErrOf result Refusal.UnknownTicket
            → unsent_at self.old.state.unsent ticket ≡ None }
        ensures full { IsErrOf result Refusal.QueueFull
            → (is_some (unsent_at self.old.state.unsent ticket) ≡ true)
            × (is_full self.old.state ≡ true) }
        ensures only { OnErr result
            ((IsErrOf result Refusal.UnknownTicket) ⊎ (IsErrOf result Refusal.QueueFull)) }
    {
        self.backlog.send(ticket)
    }

    /// Returns the write at an index of those that wait to be applied. Its record can only be in the place that it names.
    pub fn write_at(&self, index: usize) -> &PlacedWrite
        requires { index < length self.now.state.writes }
        ensures is { slice_get self.now.state.writes index ≡ Some (write_of result.now) }
        ensures right { AimsOnlyAt self.now.numbers result.now.place
            (number_written result.now.write) }
    {
        &self.backlog.writes()[index]
    }

    /// Removes all writes that wait to be applied.
    pub fn end_writes(&mut self)
        ensures { self.new
            ≡ record self.old { state = record self.old.state { writes = [] } } }
    {
        self.backlog.end_writes();
    }

    // ---- reads that wait

    /// Returns how many reads wait to be counted.
    pub fn number_of_reads(&self) -> usize
        ensures { result ≡ length self.now.state.reads }
    {
        self.backlog.reads().len()
    }

    /// Adds the read of a look-up that found the record of a number, in a place, to be counted. There must be room for it.
    pub fn push_hit(&mut self, place: usize, number: u64, hash: u64)
        requires room { length self.old.state.reads < 64 }
        requires there { (r : Record K V) × (kept_at self.old place ≡ Some r)
            × (number ≡ r.number) }
        ensures { (r : Record K V) × (kept_at self.old place ≡ Some r)
            × (self.new ≡ record self.old {
              state = record self.old.state
                  { reads = self.old.state.reads ++ Read.Hit r.number hash ∷ [] };
            }) }
    {
        self.backlog.push_read(Noted::Hit {
            hash,
            place,
            number,
        });
    }

    /// Adds the read of a look-up that found nothing, to be counted. There must be room for it.
    pub fn push_miss(&mut self, hash: u64)
        requires { length self.old.state.reads < 64 }
        ensures { self.new ≡ record self.old {
          state
              = record self.old.state { reads = self.old.state.reads ++ Read.Miss hash ∷ [] };
        } }
    {
        self.backlog.push_read(Noted::Miss(hash));
    }

    /// Counts a hash as asked for.
    fn count_hash(&mut self, hash: u64)
        ensures { self.new ≡ record self.old
            { state = record self.old.state { sketch = incremented self.old.state.sketch hash } } }
    {
        self.backlog.count_hash(hash);
    }

    /// The read at a place of those that wait to be counted.
    fn read_at(&self, index: usize) -> Noted
        requires { index < length self.now.state.reads }
        ensures is { slice_get self.now.state.reads index ≡ Some (read_of result) }
        ensures right { AimsRight self.now.numbers result }
    {
        self.backlog.reads()[index]
    }

    /// Removes all reads that wait to be counted.
    pub fn end_reads(&mut self)
        ensures { self.new ≡ record self.old { state = record self.old.state { reads = [] } } }
    {
        self.backlog.end_reads();
    }

    /// Moves the record of a number to the back of the access list, where it is there and admitted. It can only stand in this place.
    fn hit(&mut self, place: usize, number: u64)
        requires { AimsOnlyAt self.old.numbers place number }
        ensures { self.new ≡ record self.old
            { state = after_hit (record_at self.old.state.records number) self.old.state } }
    {
        let _ = &self.cells;
        if self.is_admitted_at(place, number) {
            self.use_again(place);
        }
    }

    /// Returns whether the record of a number is there. The record can only be in this place.
    pub fn has_record(&self, place: usize, number: u64) -> bool
        requires { AimsOnlyAt self.now.numbers place number }
        ensures there { result ≡ true → (r : Record K V) × (kept_at self.now place ≡ Some r)
            × (record_at self.now.state.records number ≡ Some r) }
        ensures gone { result ≡ false → record_at self.now.state.records number ≡ None }
    {
        match self.cells.get(place) {
            Some(cell) => cell.number() == number,
            None => false,
        }
    }

    /// Whether a place has the record of a number, and it is admitted.
    fn is_admitted_at(&self, place: usize, number: u64) -> bool
        ensures { result ≡ is_admitted_as number (kept_at self.now place) }
    {
        match self.cells.get(place) {
            Some(cell) => is_admitted_as(cell, number),
            None => false,
        }
    }

    /// Counts the read at an index of those that wait.
    pub fn apply_read(&mut self, index: usize)
        requires { index < length self.old.state.reads }
        ensures { (r : Read) × (slice_get self.old.state.reads index ≡ Some r)
            × (self.new ≡ record self.old { state = after_read r self.old.state }) }
    {
        match self.read_at(index) {
            Noted::Hit {
                hash,
                place,
                number,
            } => {
                self.count_hash(hash);
                self.hit(place, number);
            }
            Noted::Miss(hash) => self.count_hash(hash),
        }
    }

    /// Notes that a write of the record in a place is applied, and that the record counts with a weight, at the back of the access list.
    #[inline(always)]
    pub fn count(&mut self, place: usize, write: u64, weight: u32)
        requires { is_some (kept_at self.old place) ≡ true }
        ensures { CountsAt write weight place self.old self.new }
    {
        let index = self.cells.index_of(place);
        let _many = self.cells.capacity();
        let cell = &mut self.cells[place];
        let before = cell.counts();
        let is_queued = before.is_some();
        self.tally = self.tally.counted(before, weight);
        cell.count(write, weight);
        put_last(&mut self.access, index, is_queued);
        self.order.put_last(index, is_queued);
    }
}

/// The place that an index of a queue names.
fn place_at(index: Option<u32>) -> Option<usize>
    ensures { result ≡ index }
{
    match index {
        Some(index) => Some(index as usize),
        None => None,
    }
}

/// Whether a record has a number, and is not held.
fn is_removed_as<K, V>(found: &Cell<K, V>, number: u64) -> bool
    ensures { result ≡ is_removed_as number (Some found.now) }
{
    found.number() == number && !found.is_held()
}

/// Whether a record has a number, and is admitted.
fn is_admitted_as<K, V>(found: &Cell<K, V>, number: u64) -> bool
    ensures { result ≡ is_admitted_as number (Some found.now) }
{
    found.number() == number && found.counts().is_some()
}
