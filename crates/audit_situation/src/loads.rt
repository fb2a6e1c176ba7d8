//! The loads under way.
ghost use Rattle.std.specs.Prelude.{◌≡◌, ◌++◌, ◌∷◌, [], map, not, ◌==◌, IfOk, OnOk, option_map};
ghost use Rattle.std.specs.List.{find, filter};
ghost use Rattle.audit_model.specs.Bytewise.{same};
ghost use Rattle.audit_model.specs.Situation.{with_waiting, without_waiting};
ghost use Rattle.audit_model.specs.Underway.{KeepsNumbers};

use crate::joined::remove_all;
use crate::numbered::Numbered;
use crate::pending::Pending;
use crate::waiters::Waiters;
use audit_model::Seq;
use audit_model::loads::{load_of, number_at, put_key, put_waiting, remove_key, take_waiting};
use std::alloc::{AllocError, Global};
use std::collections::BTreeMap;
use std::marker::Model;

/// Loads by number and by key, seen as the list of them, the newest first.
#[derive(Drop)]
pub struct LoadTable {
    alloc: Global,
    table: Numbered,
    keys: BTreeMap<Vec<u8>, u64>,
    joined: BTreeMap<u64, u64>,
    last: u64,
    ghost keeps: { KeepsNumbers last keys joined table },
}

impl Model for LoadTable {
    ghost use Rattle.std.specs.Prelude.{List};
    ghost use Rattle.audit_model.specs.Situation.{PendingLoad};

    ghost Value = { List PendingLoad };

    ghost view = { λ l. l.table };
}

/// A load for which one connection waits.
fn new_load(alloc: Global, number: u64, key: &[u8], conn: u64) -> Result<Pending, AllocError>
    ensures { IfOk result
        (λ load. load ≡ record { number = number; key = key.now; waiting = conn ∷ [] }) }
{
    let key = Seq::from_vec(Vec::from_slice(alloc, key)?);
    let mut waiting = Waiters::new(alloc);
    waiting.push(conn)?;
    Ok(Pending::new(number, key, waiting))
}

impl LoadTable {
    /// Creates an empty table of loads.
    pub fn new(alloc: Global) -> LoadTable
        ensures { result ≡ [] }
    {
        LoadTable {
            alloc,
            table: Numbered::new(alloc),
            keys: BTreeMap::new(alloc),
            joined: BTreeMap::new(alloc),
            last: 0,
        }
    }

    /// Returns the load of that number, or `None` if it is not under way.
    pub fn get(&self, number: u64) -> Option<&Pending>
        ensures { option_map (λ p. p.now) result ≡ find (λ p. p.number == number) self.now }
    {
        self.table.get(number)
    }

    /// Returns the load of a key, or `None` if none is under way.
    pub fn of_key(&self, key: &[u8]) -> Option<&Pending>
        ensures { option_map (λ p. p.now) result ≡ find (λ p. same p.key key.now) self.now }
    {
        match number_at(&self.keys, key) {
            Some(number) => self.table.get(number),
            None => None,
        }
    }

    /// Adds a load of a key, for which a connection waits. Returns an error if there is not enough memory, the number is not above the
    /// earlier ones, the key has a load, or the connection waits for one.
    pub fn send(&mut self, number: u64, key: &[u8], conn: u64) -> Result<(), AllocError>
        ensures { OnOk result
            (self.new ≡ record { number = number; key = key.now; waiting = conn ∷ [] } ∷ self.old) }
    {
        if number <= self.last
            || number_at(&self.keys, key).is_some()
            || load_of(&self.joined, conn).is_some()
        {
            return Err(AllocError);
        }
        let load = new_load(self.alloc, number, key, conn)?;
        let key = Vec::from_slice(self.alloc, key)?;
        put_waiting(&mut self.joined, conn, number)?;
        put_key(&mut self.keys, key, number)?;
        self.last = number;
        self.table.add(load)
    }

    /// Makes a connection join those that wait for the load of a key, if there is one. Returns an error if there is not enough memory, or
    /// the connection waits for a load.
    pub fn join(&mut self, conn: u64, key: &[u8]) -> Result<(), AllocError>
        ensures { OnOk result (self.new ≡ map (with_waiting conn key.now) self.old) }
    {
        let Some(number) = number_at(&self.keys, key) else {
            return Ok(());
        };
        if load_of(&self.joined, conn).is_some() {
            return Err(AllocError);
        }
        put_waiting(&mut self.joined, conn, number)?;
        self.table.join(number, conn)
    }

    /// Makes a connection wait for no load.
    pub fn leave(&mut self, conn: u64)
        ensures { self.new ≡ map (without_waiting conn) self.old }
    {
        if let Some(number) = take_waiting(&mut self.joined, conn) {
            self.table.leave(number, conn);
        }
    }

    /// Removes a load.
    pub fn remove(&mut self, number: u64)
        ensures { self.new ≡ filter (λ p. not (p.number == number)) self.old }
    {
        if let Some(load) = self.table.take(number) {
            remove_key(&mut self.keys, load.key());
            remove_all(&mut self.joined, load.waiters());
        }
    }
}
