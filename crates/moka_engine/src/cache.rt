//! The cache.
ghost use Rattle.std.specs.Prelude.{◌≡◌, ℕ, ◌+◌, ◌<◌, ◌≤◌, ◌^◌, true, false, [], ◌⊎◌, length, slice_get, is_some, None, IfOk, IfErr, OnOk, OnErr, option_map};
ghost use Rattle.std.specs.Duration.{as_nanos};
ghost use Rattle.std.specs.Result.{IsErrOf};
ghost use Rattle.std.specs.String.{string_bytes};
ghost use Rattle.engine_calls.specs.Named.{IsNamedAlone};
ghost use Rattle.engine_calls.specs.Refusing.{LacksRoom};
ghost use Rattle.engine_calls.specs.Sending.{SendsAll};
ghost use Rattle.engine_reference.specs.RunLaws.Sweeping.{IsTimely, LeavesNoneDue};
ghost use Rattle.engine_reference.specs.Calls.{IsNew, written, sent, unsent_at, is_full, removal_told, MaintainsIfDue, cleared_by, without_notice, with_room};
ghost use Rattle.engine_reference.specs.Laws.{CountsExactly};
ghost use Rattle.engine_reference.specs.Runs.{RunsToEnd};
ghost use Rattle.engine_reference.specs.Visible.{visible_record, visible_value};

use engine_calls::{clone_value, look_up, policy_of, tell_removed, write, write_by_name};
use engine_reference::{Entry, Hashes, IntoKey, Names, Notice, Policy, Refusal, Rules, Settings};
use engine_runs::{run, run_if_due, try_run};
use engine_tables::Tables;
use policy_base::{HousekeeperConfig, Instant};
use std::alloc::{AllocError, Global};
use std::hash::{BuildHasher, Hash, Hasher};
use std::marker::Model;

mod housekeeping;
mod lookups;
mod predicates;
mod removals;
mod scans;
mod settings;

/// A cache of one part. Steps rise from call to call; moments may come in any order. The cache is owned, while clones of `moka`'s share
/// one.
#[derive(Drop)]
pub struct BaseCache<K: Eq + Hash, V, S: BuildHasher, R: Rules<K, V>> {
    tables: Tables<K, V, S, R>,
}

impl<K: Eq + Hash, V, S: BuildHasher, R: Rules<K, V>> Model for BaseCache<K, V, S, R> {
    ghost use Rattle.engine_reference.specs.State.{State};
    ghost use Rattle.moka_engine.specs.Keeping.{IsWellKept};

    ghost Value = { State K V R.Predicate S R };

    ghost view = { λ c. c.tables.state };

    ghost invariant = { λ c. IsWellKept c.tables.state };
}

impl<K: Eq + Hash, V, S: BuildHasher, R: Rules<K, V>> BaseCache<K, V, S, R> {
    /// Creates an empty cache with this name, at the moment of its settings, with room for this many entries if there is enough memory for
    /// it. The housekeeper's configuration has no effect: a run is never cut short, and no contract shows the size of its batches. Returns
    /// an error if there is not enough memory for the cache itself.
    pub fn new(
        alloc: Global,
        name: Option<String>,
        initial_capacity: usize,
        settings: Settings,
        _housekeeper_config: HousekeeperConfig,
        hasher: S,
        rules: R,
    ) -> Result<Self, AllocError>
    where
        S: Drop,
        R: Drop,
        ensures { IfOk result
            (λ made. IsNew (option_map string_bytes name) settings hasher rules made) }
    {
        let mut tables = Tables::new(alloc, name, settings, hasher, rules)?;
        let _has_space = tables.make_space(initial_capacity);
        Ok(BaseCache { tables })
    }

    /// Returns the number of records that were admitted at the end of the last run.
    pub fn entry_count(&self) -> u64
        ensures { result ≡ self.now.number }
    {
        self.tables.number()
    }

    /// Returns the weight of the records that were admitted at the end of the last run.
    pub fn weighted_size(&self) -> u64
        ensures { result ≡ self.now.weight }
    {
        self.tables.weight()
    }

    /// Returns whether removals are reported.
    pub fn is_removal_notifier_enabled(&self) -> bool
        ensures { result ≡ self.now.settings.tells }
    {
        self.tables.settings().tells
    }

    /// Returns what the cache shows of its settings.
    pub fn policy(&self) -> Policy
        ensures capacity { result.max_capacity ≡ self.now.settings.capacity }
        ensures parts { result.num_segments ≡ 1 }
        ensures live { option_map as_nanos result.time_to_live ≡ self.now.settings.live }
        ensures idle { option_map as_nanos result.time_to_idle ≡ self.now.settings.idle }
    {
        policy_of(self.tables.settings())
    }

    /// Invalidates every value that was written at an earlier step.
    pub fn invalidate_all(&mut self, step: u64)
        ensures { self.new ≡ cleared_by step self.old }
    {
        self.tables.clear(step);
    }

    /// Takes the oldest notice that was not taken, or returns `None` if there is none.
    pub fn next_notice(&mut self) -> Option<Notice<K, V>>
        ensures notice { result ≡ slice_get self.old.notices 0 }
        ensures taken { self.new ≡ without_notice self.old }
    {
        self.tables.next_notice()
    }

    /// Makes room for one more write, which `do_insert_with_hash` or `insert_and_send_with_hash` uses. Returns `OutOfMemory`, or `UsedUp`
    /// if the 64-bit tickets are used up; then nothing has changed.
    pub fn reserve_write(&mut self) -> Result<(), Refusal>
        ensures ok { OnOk result (self.new ≡ with_room self.old) }
        ensures err { OnErr result (self.new ≡ self.old) }
        ensures used_up { IsErrOf result Refusal.UsedUp
            → 2 ^ 64 ≤ self.old.next_ticket + self.old.reserved + 1 }
        ensures only { OnErr result
            ((IsErrOf result Refusal.OutOfMemory) ⊎ (IsErrOf result Refusal.UsedUp)) }
    {
        self.tables.make_room(1)?;
        Ok(())
    }

    /// Returns whether a key has a visible value. The call does not count as a use of it.
    pub fn contains_key_with_hash<Q: Names<K>>(&self, key: &Q, hash: u64, now: Instant) -> bool
        requires hashed { hash ≡ ⟦<S as Hashes<K>>⟧.hash self.now.hasher (Q.named_key key.now) }
        ensures { result
            ≡ is_some (visible_record R.answers K.eq self.now now (Q.named_key key.now)) }
    {
        look_up(&self.tables, key, hash, now.as_nanos()).is_some()
    }

    /// Returns a clone of the visible value of a key, or `None`. The call does not count as a use of it. Returns an error if there is no
    /// memory for the clone.
    pub fn get_with_hash_without_recording<Q: Names<K>>(
        &self,
        key: &Q,
        hash: u64,
        now: Instant,
    ) -> Result<Option<V>, AllocError>
    where
        V: Clone,
        requires hashed { hash ≡ ⟦<S as Hashes<K>>⟧.hash self.now.hasher (Q.named_key key.now) }
        requires exact { (x y : V) → V.is_clone x y → y ≡ x }
        ensures { IfOk result
            (λ found. found ≡ visible_value R.answers K.eq self.now now (Q.named_key key.now)) }
    {
        clone_value(look_up(&self.tables, key, hash, now.as_nanos()))
    }

    // ---- writing

    /// Writes a value under its key, in room that was reserved, and returns the ticket of the write. The value that it replaces is reported
    /// if removals are. (In `moka` a writer waits while the queue is full; here `send` refuses.)
    pub fn do_insert_with_hash(
        &mut self,
        key: K,
        hash: u64,
        value: V,
        now: Instant,
        step: u64,
    ) -> u64
    where
        K: Drop,
        V: Drop,
        requires hashed { hash ≡ ⟦<S as Hashes<K>>⟧.hash self.old.hasher key }
        requires room { 0 < self.old.reserved }
        ensures ticket { result ≡ self.old.next_ticket }
        ensures written { self.new ≡ written R.answers K.eq self.old key hash value now step }
    {
        let _moment = now.as_nanos();
        let ticket = self.tables.next_ticket();
        write(&mut self.tables, key, hash, value, now, step, false);
        ticket
    }

    /// Returns whether each ticket was sent and the queue has room, so that `insert_and_send_with_hash` may be called.
    pub fn can_send(&self) -> bool
        ensures { result ≡ true → (self.now.unsent ≡ []) × (length self.now.writes < 128) }
    {
        self.tables.can_send()
    }

    /// Writes a value under its key, in room that was reserved, and moves the write into the queue, which must have room. The value that it
    /// replaces is reported if removals are. All earlier tickets must be sent. The call does what `do_insert_with_hash` and then `send` do,
    /// for less.
    pub fn insert_and_send_with_hash(
        &mut self,
        key: K,
        hash: u64,
        value: V,
        now: Instant,
        step: u64,
    )
    where
        K: Drop,
        V: Drop,
        requires hashed { hash ≡ ⟦<S as Hashes<K>>⟧.hash self.old.hasher key }
        requires room { 0 < self.old.reserved }
        requires sent { self.old.unsent ≡ [] }
        requires queue { length self.old.writes < 128 }
        ensures { self.new
            ≡ sent self.old.next_ticket (written R.answers K.eq self.old key hash value now step) }
    {
        let _moment = now.as_nanos();
        write(&mut self.tables, key, hash, value, now, step, true);
    }

    /// Writes a value under the key that a name stands for, which equals no other, and moves the write into the queue, which has room. All
    /// earlier tickets were sent. What the value replaces is reported. A key that is held and equal stays, so that none is made. Returns an
    /// error if there is not enough memory, or if the 64-bit numbers of writes are used up; then nothing has changed.
    pub fn insert_by_name<Q: IntoKey<K>>(
        &mut self,
        name: Q,
        hash: u64,
        value: V,
        now: Instant,
        step: u64,
    ) -> Result<(), Refusal>
    where
        K: Clone + Drop,
        V: Drop,
        requires hashed { hash ≡ ⟦<S as Hashes<K>>⟧.hash self.old.hasher (Q.named_key name) }
        requires name { Q.can_become name × IsNamedAlone K.eq (Q.named_key name) }
        requires exact_key { (x y : K) → K.is_clone x y → y ≡ x }
        requires queue { SendsAll self.old }
        ensures ok { OnOk result (self.new ≡ sent self.old.next_ticket
            (written R.answers K.eq (with_room self.old) (Q.named_key name) hash value now step)) }
        ensures err { OnErr result (self.new ≡ self.old) }
        ensures cause { IfErr result (LacksRoom 1 self.old) }
    {
        let _moment = now.as_nanos();
        write_by_name(&mut self.tables, name, hash, value, now, step)
    }

    /// Reports an entry that was removed by its key, in the room that the removal left. The key itself is not looked at.
    pub fn notify_invalidate<Q: Names<K>>(&mut self, _key: &Q, entry: Entry<K, V>, now: Instant)
    where
        K: Drop,
        V: Drop,
        requires room { self.old.settings.tells ≡ true → 0 < self.old.reserved }
        ensures { self.new ≡ removal_told R.answers entry now self.old }
    {
        tell_removed(&mut self.tables, entry, now);
    }

    /// Moves the write of a ticket into the queue. Returns `UnknownTicket` if no write waits under this ticket, and otherwise `QueueFull`
    /// if 128 writes are in the queue; then nothing has changed.
    pub fn send(&mut self, ticket: u64) -> Result<(), Refusal>
        ensures ok { OnOk result (self.new ≡ sent ticket self.old) }
        ensures known { OnOk result (is_some (unsent_at self.old.unsent ticket) ≡ true) }
        ensures room { OnOk result (is_full self.old ≡ false) }
        ensures err { OnErr result (self.new ≡ self.old) }
        ensures unknown { IsErrOf result Refusal.UnknownTicket
            → unsent_at self.old.unsent ticket ≡ None }
        ensures full { IsErrOf result Refusal.QueueFull
            → (is_some (unsent_at self.old.unsent ticket) ≡ true) × (is_full self.old ≡ true) }
        ensures only { OnErr result
            ((IsErrOf result Refusal.UnknownTicket) ⊎ (IsErrOf result Refusal.QueueFull)) }
    {
        self.tables.send(ticket)
    }

    /// Runs maintenance to its end: it applies everything that is pending, and removes what is due and then the excess. If all tickets were
    /// sent as it began, the counts are exact; if moments never fell and steps rose as well, nothing that is due is left. If half the
    /// capacity is held and the sketch has no table, it is created first. Returns an error if there was not enough memory for the table;
    /// the run is complete without it.
    #[tactic(auto, using(crate::proofs::Keeping::kept_sound))]
    pub fn try_run_pending_tasks(&mut self, now: Instant) -> Result<(), AllocError>
    where
        K: Drop,
        V: Drop,
        ensures runs { RunsToEnd R.answers now self.old self.new }
        ensures counts { self.old.unsent ≡ []
            → CountsExactly K V R.Predicate S R R.answers self.new }
        ensures due { (moment step : ℕ) → IsTimely moment step self.old → moment ≤ now
            → now ≤ 9223372036854775807 → LeavesNoneDue now self.new }
        ensures made { OnOk result (self.new.table_refused ≡ false) }
        ensures refused { OnErr result (self.new.table_refused ≡ true) }
    {
        try_run(&mut self.tables, now.as_nanos())
    }

    /// Runs maintenance to its end, whether or not there is enough memory for the sketch's table.
    #[tactic(auto, using(crate::proofs::Keeping::kept_sound))]
    pub fn run_pending_tasks(&mut self, now: Instant)
    where
        K: Drop,
        V: Drop,
        ensures runs { RunsToEnd R.answers now self.old self.new }
        ensures counts { self.old.unsent ≡ []
            → CountsExactly K V R.Predicate S R R.answers self.new }
        ensures due { (moment step : ℕ) → IsTimely moment step self.old → moment ≤ now
            → now ≤ 9223372036854775807 → LeavesNoneDue now self.new }
    {
        run(&mut self.tables, now.as_nanos());
    }

    /// Returns whether the last run needed the sketch's table and there was not enough memory for it.
    pub fn is_table_refused(&self) -> bool
        ensures { result ≡ self.now.table_refused }
    {
        self.tables.table_refused()
    }

    /// Runs maintenance if it is due: if 64 reads or 64 writes are pending, or 300 milliseconds after the last run.
    #[tactic(auto, using(crate::proofs::Keeping::kept_sound))]
    pub fn apply_reads_writes_if_needed(&mut self, now: Instant)
    where
        K: Drop,
        V: Drop,
        ensures due { MaintainsIfDue R.answers now self.old self.new }
        ensures room { length self.new.reads < 64 }
    {
        run_if_due(&mut self.tables, now.as_nanos());
    }
}
