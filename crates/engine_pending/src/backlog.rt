//! What waits, and one change of it for each method.
ghost use Rattle.std.specs.Prelude.{◌≡◌, ℕ, ◌+◌, ◌-◌, ◌<◌, ◌≤◌, ◌^◌, ◌&&◌, ◌||◌, true, false, [], ◌∷◌, ◌⊎◌, ◌++◌, length, vec_len, vec_capacity, drop, min, max, remove, slice_get, is_some, Some, None, IfSome, IfNone, IfOk, OnOk, OnErr, option_map, option_copied, nat_le, nat_lt};
ghost use Rattle.std.specs.String.{string_bytes};
ghost use Rattle.std.specs.VecDeque.{deque_capacity};
ghost use Rattle.std.specs.Result.{IsErrOf};
ghost use Rattle.std.specs.Int.{IsNextPowerOfTwo};
ghost use Rattle.policy_base.specs.Counts.{incremented, grown};
ghost use Rattle.engine_pending.specs.Pending.{IsUntouched, MakesRoom, is_run_due, notice_taken, stands_over, ticket_sent, ticketed_at, told_if, with_queued_write, without_ticketed};
ghost use Rattle.engine_pending.specs.declared.tickets.Ticketed.{Ticketed};

use crate::covering::is_any_over;
use crate::fifo;
use crate::tickets::{Ticketed, place_of_ticket, take_ticketed};
use engine_reference::{Notice, Refusal, Registered, Rules, Settings};
use policy_base::{FrequencySketch, MAX_NANOS};
use std::alloc::{AllocError, Global};
use std::collections::VecDeque;
use std::marker::Model;

/// How many writes may wait for maintenance.
pub const MAX_WRITES: usize = 128;

/// How many reads may wait for maintenance.
pub const MAX_READS: usize = 64;

/// How many reads, or how many writes, make a run due.
const FLUSH_POINT: usize = 64;

/// How long after a run the next one is due, in nanoseconds.
const RUN_INTERVAL: u64 = 300_000_000;

/// All that a cache of one part keeps beside its records and their lists. `O` is what is kept of a read, `W` of a write: the owner says
/// where the record of each stands.
/// Each method that changes it makes one change, for which there is room.
#[derive(Drop)]
pub struct Backlog<K, V, O, W, S, R: Rules<K, V>> {
    cleared: u64,
    predicates: Vec<Registered<R::Predicate>>,
    unsent: Vec<Ticketed<W>>,
    reads: Vec<O>,
    writes: Vec<W>,
    notices: VecDeque<Notice<K, V>>,
    sketch: FrequencySketch,
    number: u64,
    weight: u64,
    ran: u64,
    table_refused: bool,
    next_ticket: u64,
    reserved: u64,
    name: Option<String>,
    settings: Settings,
    hasher: S,
    rules: R,
}

impl<K, V, O, W, S, R: Rules<K, V>> Model for Backlog<K, V, O, W, S, R> {
    ghost use Rattle.std.specs.Prelude.{ℕ, ◌≡◌, ◌+◌, ◌-◌, ◌≤◌, ◌<◌, ◌^◌, length, vec_len, vec_capacity, option_map};
    ghost use Rattle.std.specs.String.{string_bytes};
    ghost use Rattle.std.specs.VecDeque.{deque_capacity};
    ghost use Rattle.engine_pending.specs.Pending.{Pending};

    ghost Value = { Pending K V O W R.Predicate S R };

    ghost view = { λ c. record {
      cleared = c.cleared;
      predicates = c.predicates.items;
      unsent = c.unsent.items;
      reads = c.reads.items;
      writes = c.writes.items;
      notices = c.notices.items;
      notice_room = deque_capacity c.notices - length c.notices.items;
      sketch = c.sketch;
      number = c.number;
      weight = c.weight;
      ran = c.ran;
      table_refused = c.table_refused;
      next_ticket = c.next_ticket;
      reserved = c.reserved;
      name = option_map string_bytes c.name;
      settings = c.settings;
      hasher = c.hasher;
      rules = c.rules;
    } };

    // what is reserved serves a write or a predicate, and there are tickets for it
    ghost invariant = { λ c. record {
      unsent : vec_len c.unsent + c.reserved ≤ vec_capacity c.unsent;
      predicates : vec_len c.predicates + c.reserved ≤ vec_capacity c.predicates;
      reads : 64 ≤ vec_capacity c.reads;
      writes : 128 ≤ vec_capacity c.writes;
      tickets : c.next_ticket + c.reserved < 2 ^ 64;
    } };
}

impl<K, V, O, W, S, R: Rules<K, V>> Backlog<K, V, O, W, S, R> {
    /// Creates what a cache keeps that is made at the moment of its settings. Returns an error if there is not enough memory.
    pub fn new(
        alloc: Global,
        name: Option<String>,
        settings: Settings,
        hasher: S,
        rules: R,
    ) -> Result<Self, AllocError>
    where
        O: Drop,
        W: Drop,
        S: Drop,
        R: Drop,
        ensures { IfOk result
            (λ made. IsUntouched (option_map string_bytes name) settings hasher rules made) }
    {
        let reads = Vec::with_capacity(alloc, MAX_READS)?;
        let writes = Vec::with_capacity(alloc, MAX_WRITES)?;
        Ok(Backlog {
            cleared: 0,
            predicates: Vec::new(alloc),
            unsent: Vec::new(alloc),
            reads,
            writes,
            notices: VecDeque::new(alloc),
            sketch: FrequencySketch::default(alloc),
            number: 0,
            weight: 0,
            ran: settings.made,
            table_refused: false,
            next_ticket: 0,
            reserved: 0,
            name,
            settings,
            hasher,
            rules,
        })
    }

    // ---- what is there

    /// Returns the step of the last clear, or 0 if there was none.
    pub fn cleared(&self) -> u64
        ensures { result ≡ self.now.cleared }
    {
        self.cleared
    }

    /// Returns an empty list, which takes its memory from where the lists here take theirs.
    pub fn empty<T>(&self) -> Vec<T>
        ensures { result.items ≡ [] }
    {
        Vec::new(*self.predicates.allocator())
    }

    /// Returns the predicates, the oldest first.
    pub fn predicates(&self) -> &[Registered<R::Predicate>]
        ensures { result.now ≡ self.now.predicates }
    {
        self.predicates.as_slice()
    }

    /// Returns the reads that wait to be counted, the oldest first.
    pub fn reads(&self) -> &[O]
        ensures { result.now ≡ self.now.reads }
    {
        self.reads.as_slice()
    }

    /// Returns the writes that wait to be applied, the oldest first.
    pub fn writes(&self) -> &[W]
        ensures { result.now ≡ self.now.writes }
    {
        self.writes.as_slice()
    }

    /// Returns the counts of how often hashes were requested.
    pub fn sketch(&self) -> &FrequencySketch
        ensures { result.now ≡ self.now.sketch }
    {
        &self.sketch
    }

    /// Returns how many records were admitted at the end of the last run.
    pub fn number(&self) -> u64
        ensures { result ≡ self.now.number }
    {
        self.number
    }

    /// Returns what the records weighed that were admitted at the end of the last run.
    pub fn weight(&self) -> u64
        ensures { result ≡ self.now.weight }
    {
        self.weight
    }

    /// Returns the moment of the last run, in nanoseconds.
    pub fn ran(&self) -> u64
        ensures { result ≡ self.now.ran }
    {
        self.ran
    }

    /// Returns whether the last run wanted the sketch's table and there was no memory for it.
    pub fn table_refused(&self) -> bool
        ensures { result ≡ self.now.table_refused }
    {
        self.table_refused
    }

    /// Returns the next ticket.
    pub fn next_ticket(&self) -> u64
        ensures { result ≡ self.now.next_ticket }
    {
        self.next_ticket
    }

    /// Returns for how many writes or predicates there is room.
    pub fn reserved(&self) -> u64
        ensures { result ≡ self.now.reserved }
    {
        self.reserved
    }

    /// Returns the settings with which the cache was made.
    pub fn settings(&self) -> Settings
        ensures { result ≡ self.now.settings }
    {
        self.settings
    }

    /// Returns the name of the cache, or `None` if it has none.
    pub fn name(&self) -> Option<&str>
        ensures { option_map (λ text. text.now) result ≡ self.now.name }
    {
        match &self.name {
            Some(name) => Some(name.as_str()),
            None => None,
        }
    }

    /// Returns the hasher, which hashes keys.
    pub fn hasher(&self) -> &S
        ensures { result.now ≡ self.now.hasher }
    {
        &self.hasher
    }

    /// Returns the rules, which say weights, expirations, and what predicates cover.
    pub fn rules(&self) -> &R
        ensures { result.now ≡ self.now.rules }
    {
        &self.rules
    }

    /// Returns whether a run is due: 64 writes or 64 reads wait, or the last run is 300 milliseconds old.
    pub fn is_due(&self, now: u64) -> bool
        ensures { result ≡ is_run_due self.now now }
    {
        let ends = self.ran.saturating_add(RUN_INTERVAL).min(MAX_NANOS);
        FLUSH_POINT <= self.writes.len() || FLUSH_POINT <= self.reads.len() || ends <= now
    }

    /// Returns whether a later clear or predicate covers what was written at a step.
    pub fn is_over(&self, step: u64, key: &K, value: &V) -> bool
        ensures { result ≡ stands_over R.answers.covers self.now step key.now value.now }
    {
        step < self.cleared
            || is_any_over(&self.rules, self.predicates.as_slice(), step, key, value)
    }

    // ---- clears and predicates

    /// Covers every value that was written at a step before this one.
    pub fn clear(&mut self, step: u64)
        ensures { self.new ≡ record self.old { cleared = max self.old.cleared step } }
    {
        self.cleared = self.cleared.max(step);
    }

    /// Registers a predicate, for which there is room.
    pub fn register(&mut self, registered: Registered<R::Predicate>)
        requires { 0 < self.old.reserved }
        ensures { self.new ≡ record self.old {
          predicates = self.old.predicates ++ registered
              ∷ [];
          reserved = self.old.reserved - 1;
        } }
    {
        self.predicates.push_reserved(registered);
        self.reserved -= 1;
    }

    /// Removes the predicate at an index.
    pub fn end_predicate(&mut self, place: usize)
        requires { place < length self.old.predicates }
        ensures { self.new ≡ record self.old { predicates = remove self.old.predicates place } }
    {
        self.predicates.remove(place);
    }

    // ---- notices

    /// Takes the oldest notice that was not taken, or returns `None` if there is none.
    pub fn next_notice(&mut self) -> Option<Notice<K, V>>
        ensures notice { result ≡ slice_get self.old.notices 0 }
        ensures taken { self.new ≡ notice_taken self.old }
    {
        fifo::take_first(&mut self.notices)
    }

    /// Adds the notice of what left, in room that there is for it, if `is_told` and removals are reported.
    pub fn tell(&mut self, is_told: bool, notice: Notice<K, V>)
    where
        K: Drop,
        V: Drop,
        requires { self.old.settings.tells ≡ true → 0 < self.old.notice_room }
        ensures { self.new ≡ told_if (is_told && self.old.settings.tells) notice self.old }
    {
        if is_told && self.settings.tells {
            self.push_notice(notice);
        }
    }

    fn push_notice(&mut self, notice: Notice<K, V>)
    where
        K: Drop,
        V: Drop,
        requires { 0 < self.old.notice_room }
        ensures { self.new ≡ told_if true notice self.old }
    {
        match self.notices.push_back(notice) {
            Ok(()) => {}
            Err(_) => unreachable!(),
        }
    }

    /// Adds the notice of what was removed by its key, in the room that the removal left, if removals are reported.
    pub fn tell_removed(&mut self, notice: Notice<K, V>)
    where
        K: Drop,
        V: Drop,
        requires room { self.old.settings.tells ≡ true → 0 < self.old.notice_room }
        requires reserved { 0 < self.old.reserved }
        ensures { self.new ≡ told_if self.old.settings.tells notice
            (record self.old { reserved = self.old.reserved - 1 }) }
    {
        self.reserved -= 1;
        self.tell(true, notice);
    }

    // ---- room

    /// Makes room for `by` more writes or predicates, and, if removals are reported, for a notice of each of so many records and of those
    /// to come. Returns `UsedUp` if the 64-bit tickets of writes are used up, and `OutOfMemory` if there is not enough memory; then nothing
    /// has changed.
    pub fn make_room(&mut self, by: u64, records: usize) -> Result<(), Refusal>
        ensures ok { OnOk result (MakesRoom by records self.old self.new) }
        ensures err { OnErr result (self.new ≡ self.old) }
        ensures used_up { IsErrOf result Refusal.UsedUp
            → 2 ^ 64 ≤ self.old.next_ticket + self.old.reserved + by }
        ensures only { OnErr result
            ((IsErrOf result Refusal.OutOfMemory) ⊎ (IsErrOf result Refusal.UsedUp)) }
    {
        let free = (u64::MAX - self.next_ticket).saturating_sub(self.reserved);
        if free < by {
            return Err(Refusal::UsedUp);
        }
        let more = self.reserved + by;
        match records.checked_add(more as usize) {
            Some(told) => {
                self.unsent.reserve(more as usize)?;
                self.predicates.reserve(more as usize)?;
                grow_if(self.settings.tells, &mut self.notices, told)?;
                self.reserved = more;
                Ok(())
            }
            None => Err(Refusal::OutOfMemory),
        }
    }

    /// Gives up the room for one write or predicate.
    pub fn release_room(&mut self)
        requires { 0 < self.old.reserved }
        ensures { self.new ≡ record self.old { reserved = self.old.reserved - 1 } }
    {
        self.reserved -= 1;
    }

    // ---- writes

    /// Adds a write, for which there is room: into the queue at once, or to those that wait to be sent, under the next ticket.
    pub fn add_write(&mut self, write: W, at_once: bool)
        requires room { 0 < self.old.reserved }
        requires queue { at_once ≡ true → length self.old.writes < 128 }
        ensures { self.new ≡ with_queued_write at_once write self.old }
    {
        let ticket = self.next_ticket;
        self.next_ticket += 1;
        self.reserved -= 1;
        if at_once {
            self.writes.push_reserved(write);
        } else {
            self.unsent.push_reserved(Ticketed { ticket, write });
        }
    }

    /// Returns whether each ticket was sent and the queue has room, so that a write can go into the queue at once.
    pub fn can_send(&self) -> bool
        ensures { result ≡ true → (self.now.unsent ≡ []) × (length self.now.writes < 128) }
    {
        self.unsent.is_empty() && self.writes.len() < MAX_WRITES
    }

    /// Moves the write of a ticket into the queue. Returns `UnknownTicket` if no write waits under this ticket, and otherwise `QueueFull`
    /// if 128 writes are in the queue; then nothing has changed.
    pub fn send(&mut self, ticket: u64) -> Result<(), Refusal>
        ensures ok { OnOk result (self.new ≡ ticket_sent ticket self.old) }
        ensures known { OnOk result (is_some (ticketed_at self.old.unsent ticket) ≡ true) }
        ensures room { OnOk result (length self.old.writes < 128) }
        ensures err { OnErr result (self.new ≡ self.old) }
        ensures unknown { IsErrOf result Refusal.UnknownTicket
            → ticketed_at self.old.unsent ticket ≡ None }
        ensures full { IsErrOf result Refusal.QueueFull
            → (is_some (ticketed_at self.old.unsent ticket) ≡ true)
            × (128 ≤ length self.old.writes) }
        ensures only { OnErr result
            ((IsErrOf result Refusal.UnknownTicket) ⊎ (IsErrOf result Refusal.QueueFull)) }
    {
        match place_of_ticket(self.unsent.as_slice(), ticket) {
            Some(place) => {
                if MAX_WRITES <= self.writes.len() {
                    return Err(Refusal::QueueFull);
                }
                let sent = take_ticketed(&mut self.unsent, place);
                self.writes.push_reserved(sent.write);
                Ok(())
            }
            None => Err(Refusal::UnknownTicket),
        }
    }

    /// Removes all writes that wait to be applied.
    pub fn end_writes(&mut self)
    where
        W: Drop,
        ensures { self.new ≡ record self.old { writes = [] } }
    {
        self.writes.clear();
    }

    // ---- reads

    /// Adds a read, for which there is room.
    pub fn push_read(&mut self, read: O)
        requires { length self.old.reads < 64 }
        ensures { self.new ≡ record self.old { reads = self.old.reads ++ read ∷ [] } }
    {
        self.reads.push_reserved(read);
    }

    /// Removes all reads that wait to be counted.
    pub fn end_reads(&mut self)
    where
        O: Drop,
        ensures { self.new ≡ record self.old { reads = [] } }
    {
        self.reads.clear();
    }

    /// Counts a hash as requested once more.
    pub fn count_hash(&mut self, hash: u64)
        ensures { self.new ≡ record self.old { sketch = incremented self.old.sketch hash } }
    {
        self.sketch.increment(hash);
    }

    // ---- runs

    /// Makes the sketch's table for so many hashes. Returns an error if there is not enough memory; then nothing has changed.
    pub fn make_table(&mut self, hashes: u32) -> Result<(), AllocError>
        ensures made { OnOk result ((words : ℕ) × IsNextPowerOfTwo (min hashes (2 ^ 24)) words
            × (self.new ≡ record self.old { sketch = grown self.old.sketch words hashes })) }
        ensures err { OnErr result (self.new ≡ self.old) }
    {
        self.sketch.ensure_capacity(hashes)?;
        Ok(())
    }

    /// Notes at the end of a run how many records are admitted, what they weigh, the run's moment, and whether there was no memory for the
    /// sketch's table.
    pub fn finish_run(&mut self, number: u64, weight: u64, now: u64, table_refused: bool)
        ensures { self.new ≡ record self.old
            { number = number; weight = weight; ran = now; table_refused = table_refused } }
    {
        self.number = number;
        self.weight = weight;
        self.ran = now;
        self.table_refused = table_refused;
    }
}

/// Makes room for so many more items, where it is wanted.
fn grow_if<T>(is_wanted: bool, items: &mut VecDeque<T>, more: usize) -> Result<(), AllocError>
    ensures items { items.new.items ≡ items.old.items }
    ensures room { OnOk result
        (is_wanted ≡ true → length items.new.items + more ≤ deque_capacity items.new) }
    ensures err { OnErr result (deque_capacity items.new ≡ deque_capacity items.old) }
{
    if is_wanted {
        fifo::make_room(items, more)
    } else {
        Ok(())
    }
}
