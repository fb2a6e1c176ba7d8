//! Records that were found before, found again.
ghost use Rattle.std.specs.Prelude.{◌≡◌, ℕ, ◌+◌, ◌<◌, ◌^◌, true, [], ◌∷◌, ◌++◌, length, Some, None, IfSome, IfNone, IfOk};
ghost use Rattle.engine_reference.specs.Records.{record_at};
ghost use Rattle.engine_reference.specs.Scanning.{held_keys, visible_keys};
ghost use Rattle.engine_reference.specs.State.{Answers};
ghost use Rattle.engine_reference.specs.declared.data.Read.{Read};
ghost use Rattle.engine_reference.specs.declared.data.Record.{Record};
ghost use Rattle.engine_cells.specs.Kept.{kept_at};

use crate::tables::Tables;
use engine_cells::{Noted, count_shown, find_number, grow, push_held_keys};
use engine_reference::Rules;
use std::alloc::AllocError;
use std::hash::{BuildHasher, Hash};

/// For how many records more than are asked for space is made: those whose writes wait for a run, and those to come for which room is made
/// ahead.
const WAITING: usize = 128;

impl<K: Eq + Hash, V, S: BuildHasher, R: Rules<K, V>> Tables<K, V, S, R> {
    /// Returns the place of the record of a number, by the hash of its key, or `None` if there is no such record. A record that is there is
    /// held.
    pub fn place_of_number(&self, number: u64, hash: u64) -> Option<usize>
        requires held { (r : Record K V) → record_at self.now.state.records number ≡ Some r
            → (r.is_held ≡ true) × (r.hash ≡ hash) }
        ensures found { IfSome result (λ i. (r : Record K V) × (kept_at self.now i ≡ Some r)
            × (record_at self.now.state.records number ≡ Some r)) }
        ensures none { IfNone result (record_at self.now.state.records number ≡ None) }
    {
        find_number(&self.cells, &self.keys, number, hash)
    }

    /// Adds the read of a look-up that found a record which is gone, to be counted. There must be room for it.
    pub fn push_gone(&mut self, number: u64, hash: u64)
        requires room { length self.old.state.reads < 64 }
        requires gone { record_at self.old.state.records number ≡ None }
        requires made { number < self.old.state.next_number }
        ensures { self.new ≡ record self.old {
          state = record self.old.state
              { reads = self.old.state.reads ++ Read.Hit number hash ∷ [] };
        } }
    {
        self.backlog.push_read(Noted::Hit {
            hash,
            place: 0,
            number,
        });
    }

    /// Makes space for so many records, and for those that wait for a run, in tables that have none. Returns whether there was enough
    /// memory.
    pub fn make_space(&mut self, records: usize) -> bool
        ensures { self.new ≡ self.old }
    {
        let _ = &self.tally;
        grow(
            &mut self.cells,
            &mut self.access,
            &mut self.order,
            &mut self.keys,
            records.saturating_add(WAITING),
            0,
        )
    }

    /// Returns clones of the keys of all held records, in the order in which the records were made. Returns an error if there is not enough
    /// memory.
    pub fn keys(&self) -> Result<Vec<K>, AllocError>
    where
        K: Clone + Drop,
        requires exact_key { (x y : K) → K.is_clone x y → y ≡ x }
        ensures { IfOk result (λ keys. keys.items ≡ held_keys self.now.state.records) }
    {
        let mut keys = self.backlog.empty();
        push_held_keys(&self.cells, self.backlog.empty(), &mut keys)?;
        Ok(keys)
    }

    /// Returns how many keys have a visible value at `now`, a moment in nanoseconds. Every record is looked at.
    pub fn count_visible(&self, now: u64) -> usize
        ensures { (answers : Answers K V R.Predicate R) → answers.covers ≡ R.answers.covers
            → result ≡ length (visible_keys answers K.eq self.now.state now) }
    {
        count_shown(&self.cells, &self.backlog, now)
    }

    /// There is a ticket for each write that has room, and one more. The call does nothing: its contract says so.
    pub fn tickets_last(&self)
        ensures { self.now.state.next_ticket + self.now.state.reserved < 2 ^ 64 }
    {
        let _next = self.backlog.next_ticket();
    }
}
