//! A word for each connection, of which those of neighbours that closed for the same cause are the same.
ghost use Rattle.std.specs.Prelude.{◌≡◌, ◌≢◌, ◌+◌, ◌<◌, ◌++◌, ◌∷◌, [], ℕ, true, is_some, Some, None, length, slice_set, OnOk, OnErr};
ghost use Rattle.std.specs.List.{slice_get};
ghost use Rattle.cache_core.specs.Connections.Words.{IsChangedAt, IsJoinedAt, StandsApart, streak_at, word_at, words_to};

use std::alloc::{AllocError, Global};
use std::collections::BTreeMap;
use std::marker::Model;

/// A list of words, kept as streaks of equal ones. A streak takes the same memory, however long it is.
#[derive(Drop)]
pub struct Words {
    // The word of each streak, by the place where it begins. Streaks side by side may have the same.
    streaks: BTreeMap<usize, u32>,
    len: usize,
}

impl Model for Words {
    ghost use Rattle.std.specs.Prelude.{List, ℕ};
    ghost use Rattle.cache_core.specs.Connections.Words.{AreStreaks, streak_at, words_to};

    ghost Value = { List ℕ };

    ghost view = { λ w. words_to (streak_at w.streaks) w.len };

    ghost invariant = { λ w. AreStreaks (streak_at w.streaks) w.len };
}

/// Has a streak begin at a place. Returns an error if there is not enough memory; then nothing has changed.
fn begin_streak(
    streaks: &mut BTreeMap<usize, u32>,
    place: usize,
    word: u32,
) -> Result<(), AllocError>
    ensures begins { OnOk result
        (IsChangedAt place (Some word) (streak_at streaks.old) (streak_at streaks.new)) }
    ensures unchanged { OnErr result (streaks.new.entries ≡ streaks.old.entries) }
{
    streaks.insert(place, word)?;
    Ok(())
}

/// Gives the streak that begins at a place another word.
fn change_streak(streaks: &mut BTreeMap<usize, u32>, place: usize, word: u32)
    requires { is_some (streak_at streaks.old place) ≡ true }
    ensures { IsChangedAt place (Some word) (streak_at streaks.old) (streak_at streaks.new) }
{
    let Ok(_) = streaks.insert(place, word) else {
        unreachable!();
    };
}

/// Has no streak begin at a place, so that the one before it goes on.
fn end_streak(streaks: &mut BTreeMap<usize, u32>, place: usize)
    ensures { IsChangedAt place None (streak_at streaks.old) (streak_at streaks.new) }
{
    let _word = streaks.remove(&place);
}

/// Returns the word of the streak that a place is in.
fn word_in(streaks: &BTreeMap<usize, u32>, place: usize) -> u32
    requires { is_some (streak_at streaks.now 0) ≡ true }
    ensures { result ≡ word_at (streak_at streaks.now) place }
{
    match streaks.range(..=place).next_back() {
        Some((_, word)) => *word,
        None => unreachable!(),
    }
}

/// Returns whether a streak of this word begins at a place.
fn begins_with(streaks: &BTreeMap<usize, u32>, place: usize, word: u32) -> bool
    ensures has { result ≡ true → streak_at streaks.now place ≡ Some word }
{
    match streaks.get(&place) {
        Some(found) => *found == word,
        None => false,
    }
}

/// Has the streak that begins at a place go into the one before it, if this is its word.
fn join_streak(streaks: &mut BTreeMap<usize, u32>, place: usize, word: u32)
    ensures { IsJoinedAt place word (streak_at streaks.old) (streak_at streaks.new) }
{
    if begins_with(streaks, place, word) {
        end_streak(streaks, place);
    }
}

/// Gives the streak that begins at a place another word. If this is the word before it, the two become one.
fn set_streak(streaks: &mut BTreeMap<usize, u32>, place: usize, word: u32)
    requires first { is_some (streak_at streaks.old 0) ≡ true }
    requires begins { is_some (streak_at streaks.old place) ≡ true }
    ensures first { is_some (streak_at streaks.new 0) ≡ true }
    ensures here { word_at (streak_at streaks.new) place ≡ word }
    ensures others { (other : ℕ) → other ≢ place
        → streak_at streaks.new other ≡ streak_at streaks.old other }
{
    if 0 < place && word_in(streaks, place - 1) == word {
        end_streak(streaks, place);
    } else {
        change_streak(streaks, place, word);
    }
}

impl Words {
    /// Creates an empty list of words. The call allocates nothing.
    pub fn new(alloc: Global) -> Words
        ensures { result ≡ [] }
    {
        Words {
            streaks: BTreeMap::new(alloc),
            len: 0,
        }
    }

    /// Returns how many words there are.
    pub fn len(&self) -> usize
        ensures { result ≡ length self.now }
    {
        self.len
    }

    /// Adds a word at the end. Returns an error if there is not enough memory; then nothing has changed.
    pub fn push(&mut self, word: u32) -> Result<(), AllocError>
        ensures pushed { OnOk result (self.new ≡ self.old ++ word ∷ []) }
        ensures unchanged { OnErr result (self.new ≡ self.old) }
    {
        let Some(len) = self.len.checked_add(1) else {
            return Err(AllocError);
        };
        begin_streak(&mut self.streaks, self.len, word)?;
        self.len = len;
        Ok(())
    }

    /// Returns the word at a place.
    pub fn get(&self, place: usize) -> u32
        requires { place < length self.now }
        ensures { slice_get self.now place ≡ Some result }
    {
        word_in(&self.streaks, place)
    }

    /// Sets the word at a place, which differs from those beside it. The call allocates nothing, and gives memory back if the new word is one
    /// beside it.
    pub fn set(&mut self, place: usize, word: u32)
        requires within { place < length self.old }
        requires apart { StandsApart self.old place }
        ensures { self.new ≡ slice_set self.old place word }
    {
        let _len = self.len;
        join_streak(&mut self.streaks, place + 1, word);
        set_streak(&mut self.streaks, place, word);
    }
}
