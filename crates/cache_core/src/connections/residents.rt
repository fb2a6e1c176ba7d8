//! The connections that are not gone, in one list, and a word for each place that says where its connection is, or why it closed.
ghost use Rattle.std.specs.Prelude.{◌≡◌, ◌+◌, ◌-◌, ◌<◌, ◌≤◌, ◌++◌, ◌∷◌, [], Some, None, true, false, length, slice_set, vec_len, vec_capacity, IfSome, OnOk, OnErr, MatchOption};
ghost use Rattle.std.specs.List.{slice_get};
ghost use Rattle.cache_core.specs.Connections.Presence.{Gone, Here, Out, closing_at, is_here, retired, retired_at};
ghost use Rattle.cache_core.specs.Connections.Residents.{AreSettled, first_reason, held_or_out, presences_of, reason_numbered, reason_word};
ghost use Rattle.cache_core.specs.Taking.{IsLeftOf, IsOwed};

use crate::connection::{Connection, Taken, take_owed};
use crate::connections::guesses::Guesses;
use crate::connections::words::Words;
use audit_model::Closing;
use std::alloc::Global;

/// The first of the words that say why a connection closed.
pub const FIRST_REASON: u32 = 0xFFFF_FFF0;

/// A connection that is not gone, and its index among all that were opened. While it is out, the connection is not there.
#[derive(Drop)]
pub struct Resident {
    /// The index of the connection among all that were opened.
    pub place: usize,
    /// The connection, or `None` while it is out.
    pub connection: Option<Connection>,
}

/// The word for a reason.
fn word_of(why: Closing) -> u32
    ensures { result ≡ reason_word why }
{
    match why {
        Closing::Asked => 0xFFFF_FFF0,
        Closing::Quit => 0xFFFF_FFF1,
        Closing::Long => 0xFFFF_FFF2,
        Closing::Behind => 0xFFFF_FFF3,
    }
}

/// Returns the cause that a word stands for.
pub fn reason_of(word: u32) -> Closing
    requires { first_reason ≤ word }
    ensures { result ≡ reason_numbered (word - first_reason) }
{
    match word - FIRST_REASON {
        0 => Closing::Asked,
        1 => Closing::Quit,
        2 => Closing::Long,
        _ => Closing::Behind,
    }
}

/// Returns why a resident may go, or `None` if it has to stay: its connection has closed, and its replies were taken.
pub fn gone_for(resident: &Resident) -> Option<Closing>
    ensures { MatchOption result
        (retired (held_or_out resident.now.connection) ≡ held_or_out resident.now.connection)
        (λ why. retired (held_or_out resident.now.connection) ≡ Gone why) }
{
    match &resident.connection {
        Some(connection) if connection.output.text.is_empty() => connection.closing,
        _ => None,
    }
}

/// Moves out what the connection of a resident is owed; nothing while it is out.
pub fn take_held(alloc: Global, resident: &mut Resident) -> Taken
    ensures place { resident.new.place ≡ resident.old.place }
    ensures left { IsLeftOf (held_or_out resident.old.connection)
        (held_or_out resident.new.connection) }
    ensures owed { IsOwed (held_or_out resident.old.connection) result }
{
    match &mut resident.connection {
        Some(connection) => take_owed(alloc, connection),
        None => Taken {
            replies: Vec::new(alloc),
            closing: Some(Closing::Asked),
            waits: false,
        },
    }
}

/// Returns the word for an index: the guess, if the resident there is the one of this index, and otherwise what the words have.
pub fn find(residents: &Vec<Resident>, words: &Words, guesses: &Guesses, place: usize) -> u32
    requires settled { AreSettled residents.now.items words.now }
    requires within { place < length words.now }
    ensures { slice_get words.now place ≡ Some result }
{
    let guess = guesses.get(place);
    match residents.get(guess as usize) {
        Some(resident) if resident.place == place => guess,
        _ => words.get(place),
    }
}

/// Removes the resident of an index, and sets the word that says why. The last resident moves into the gap.
pub fn remove_at(residents: &mut Vec<Resident>, words: &mut Words, index: usize, why: Closing)
    requires settled { AreSettled residents.old.items words.old }
    requires within { index < length words.old }
    requires here { IfSome (slice_get words.old index) (λ word. word < first_reason) }
    ensures settled { AreSettled residents.new.items words.new }
    ensures gone { presences_of residents.new.items words.new
        ≡ slice_set (presences_of residents.old.items words.old) index (Gone why) }
{
    let gap = words.get(index) as usize;
    words.set(index, word_of(why));
    let Some(last) = residents.pop() else {
        unreachable!();
    };
    if gap < residents.len() {
        words.set(last.place, gap as u32);
        residents[gap] = last;
    }
}
