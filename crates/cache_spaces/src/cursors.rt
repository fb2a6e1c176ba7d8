//! How far the replies and notes in journals were taken.
ghost use Rattle.std.specs.Prelude.{◌≡◌, ◌≢◌, ◌<◌, ◌≤◌, ℕ, [], length};
ghost use Rattle.std.specs.List.{slice_get};
ghost use Rattle.cache_spaces.specs.Cursors.{cursor_of, taken_through, IsPlaceIn, TakesFrom, notes_from};

use crate::told::{Told, find_note};
use audit_model::Record;
use std::alloc::Global;

/// How far the replies and notes of a namespace were taken.
#[derive(Drop)]
pub struct Cursors {
    /// For each connection that was opened, in the order of their numbers, through how many records its replies were taken.
    pub replies: Vec<u64>,
    /// The position of the first note that was not taken.
    pub notes: Told,
}

impl Cursors {
    /// Creates the cursors of a namespace of which nothing was taken, and no connection was opened.
    pub fn new(alloc: Global) -> Cursors
        ensures replies { result.replies.items ≡ [] }
        ensures notes { result.notes ≡ record { entry = 0; list = 0; note = 0 } }
    {
        Cursors {
            replies: Vec::new(alloc),
            notes: Told {
                entry: 0,
                list: 0,
                note: 0,
            },
        }
    }

    /// Returns through how many records the replies of a connection were taken.
    pub fn replies_taken(&self, number: u64) -> u64
        requires { (0 < number) × (number ≤ length self.now.replies.items) }
        ensures { result ≡ taken_through (cursor_of self.now) number }
    {
        self.replies[number as usize - 1]
    }

    /// Moves a connection's cursor behind so many records.
    pub fn pass_replies(&mut self, number: u64, count: u64)
        requires { (0 < number) × (number ≤ length self.old.replies.items) }
        ensures cursor { taken_through (cursor_of self.new) number ≡ count }
        ensures others { (other : ℕ) → other ≢ number → taken_through (cursor_of self.new) other
            ≡ taken_through (cursor_of self.old) other }
        ensures notes { self.new.notes ≡ self.old.notes }
        ensures len { length self.new.replies.items ≡ length self.old.replies.items }
    {
        self.replies[number as usize - 1] = count;
    }

    /// Moves the cursor behind the first note in these records that was not taken, and returns the position from which that note is the
    /// first.
    pub fn pass_note(&mut self, records: &[Record]) -> Told
        ensures was { result ≡ self.old.notes }
        ensures note { TakesFrom records.now self.old.notes self.new.notes
            (slice_get (notes_from records.now self.old.notes) 0) }
        ensures place { IsPlaceIn records.now self.new.notes }
        ensures replies { self.new.replies ≡ self.old.replies }
    {
        let told = self.notes;
        self.notes = match find_note(records, told) {
            Some((_, behind)) => behind,
            None => Told {
                entry: records.len(),
                list: 0,
                note: 0,
            },
        };
        told
    }
}
