//! The connections of a namespace, each at the place below its number.
ghost use Rattle.std.specs.Prelude.{◌≡◌, ◌<◌, ◌++◌, ◌∷◌, [], Some, true, false, length, slice_set, OnOk, OnErr, MatchOption};
ghost use Rattle.std.specs.List.{slice_get};
ghost use Rattle.cache_core.specs.Connections.Presence.{Here, Out, closing_at, is_here, retired_at};
ghost use Rattle.cache_core.specs.Taking.{TakesOwedAt};

use crate::connection::{Connection, Taken};
use crate::connections::guesses::Guesses;
use crate::connections::residents::{
    FIRST_REASON, Resident, find, gone_for, reason_of, remove_at, take_held,
};
use crate::connections::words::Words;
use audit_model::Closing;
use cache_commands::push_within;
use std::alloc::{AllocError, Global};
use std::marker::Model;
use std::mem;

/// The connections that were opened, in the order of their numbers. Those that are gone for the same cause side by side take no more memory
/// than one of them.
#[derive(Drop)]
pub struct Connections {
    residents: Vec<Resident>,
    // For each place the index of its resident, or why its connection closed.
    words: Words,
    guesses: Guesses,
}

impl Model for Connections {
    ghost use Rattle.std.specs.Prelude.{List};
    ghost use Rattle.cache_core.specs.Connections.Presence.{Presence};
    ghost use Rattle.cache_core.specs.Connections.Residents.{AreSettled, presences_of};

    ghost Value = { List Presence };

    ghost view = { λ s. presences_of s.residents.items s.words };

    ghost invariant = { λ s. AreSettled s.residents.items s.words };
}

impl Connections {
    /// Creates an empty list of connections. The call allocates nothing.
    pub fn new(alloc: Global) -> Connections
        ensures { result ≡ [] }
    {
        Connections {
            residents: Vec::new(alloc),
            words: Words::new(alloc),
            guesses: Guesses::new(),
        }
    }

    /// Returns how many connections were opened.
    pub fn len(&self) -> usize
        ensures { result ≡ length self.now }
    {
        self.words.len()
    }

    /// Adds a connection at the end. Returns an error if there is not enough memory; then nothing has changed.
    pub fn push(&mut self, connection: Connection) -> Result<(), AllocError>
        ensures pushed { OnOk result (self.new ≡ self.old ++ Here connection ∷ []) }
        ensures unchanged { OnErr result (self.new ≡ self.old) }
    {
        let index = self.residents.len();
        if index >= FIRST_REASON as usize {
            return Err(AllocError);
        }
        self.residents.try_reserve(1)?;
        let place = self.words.len();
        self.words.push(index as u32)?;
        let connection = Some(connection);
        push_within(&mut self.residents, Resident { place, connection });
        Ok(())
    }

    /// Returns the connection at an index, or `None` if it is gone or out.
    pub fn get(&self, index: usize) -> Option<&Connection>
        requires { index < length self.now }
        ensures { MatchOption result (is_here (slice_get self.now index) ≡ false)
            (λ c. slice_get self.now index ≡ Some (Here c.now)) }
    {
        let word = find(&self.residents, &self.words, &self.guesses, index);
        if word >= FIRST_REASON {
            return None;
        }
        self.residents[word as usize].connection.as_ref()
    }

    /// Returns why the connection at an index has closed, or `None` if it has not.
    pub fn closing(&self, index: usize) -> Option<Closing>
        requires { index < length self.now }
        ensures { result ≡ closing_at self.now index }
    {
        let word = find(&self.residents, &self.words, &self.guesses, index);
        if word >= FIRST_REASON {
            return Some(reason_of(word));
        }
        match &self.residents[word as usize].connection {
            Some(connection) => connection.closing,
            None => Some(Closing::Asked),
        }
    }

    /// Moves the connection at an index out. The connection has to be put back. The call allocates nothing.
    pub fn take(&mut self, index: usize) -> Connection
        requires { is_here (slice_get self.old index) ≡ true }
        ensures taken { slice_get self.old index ≡ Some (Here result) }
        ensures rest { self.new ≡ slice_set self.old index Out }
    {
        let word = find(&self.residents, &self.words, &self.guesses, index);
        self.guesses.keep(index, word);
        let resident = &mut self.residents[word as usize];
        match mem::replace(&mut resident.connection, None) {
            Some(connection) => connection,
            None => unreachable!(),
        }
    }

    /// Puts a connection back at the index of one that is out. The call allocates nothing.
    pub fn put(&mut self, index: usize, connection: Connection)
        requires { slice_get self.old index ≡ Some Out }
        ensures { self.new ≡ slice_set self.old index (Here connection) }
    {
        let word = find(&self.residents, &self.words, &self.guesses, index);
        let resident = &mut self.residents[word as usize];
        resident.connection = Some(connection);
    }

    /// Moves out what the connection at an index is owed. The call allocates nothing.
    pub fn take_owed(&mut self, alloc: Global, index: usize) -> Taken
        requires { index < length self.old }
        ensures { TakesOwedAt self.old self.new index result }
    {
        let word = find(&self.residents, &self.words, &self.guesses, index);
        if word >= FIRST_REASON {
            return Taken {
                replies: Vec::new(alloc),
                closing: Some(reason_of(word)),
                waits: false,
            };
        }
        self.guesses.keep(index, word);
        take_held(alloc, &mut self.residents[word as usize])
    }

    /// Drops the connection at an index if it has closed and its replies were taken. The cause of its closing is kept. The call allocates
    /// nothing.
    pub fn retire(&mut self, index: usize)
        requires { index < length self.old }
        ensures { self.new ≡ retired_at self.old index }
    {
        let word = find(&self.residents, &self.words, &self.guesses, index);
        if word >= FIRST_REASON {
            return;
        }
        match gone_for(&self.residents[word as usize]) {
            Some(why) => remove_at(&mut self.residents, &mut self.words, index, why),
            None => {}
        }
    }
}
