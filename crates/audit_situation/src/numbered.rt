//! Loads by number.
ghost use Rattle.std.specs.Prelude.{◌≡◌, ◌++◌, ◌∷◌, [], map, true, not, ◌==◌, nat_lt, OnOk, OnErr, option_map};
ghost use Rattle.std.specs.List.{find, filter, list_all};
ghost use Rattle.audit_model.specs.Situation.{PendingLoad, without_waiting};
ghost use Rattle.audit_model.specs.Numbered.{changed_numbered};
ghost use Rattle.audit_situation.specs.Listings.{is_listing};

use crate::pending::Pending;
use indexmap::IndexMap;
use std::alloc::{AllocError, Global};
use std::marker::Model;

/// Loads by number, seen as the list of them, the newest first. Each has a higher number than those that were added before it.
#[derive(Drop)]
pub struct Numbered {
    table: IndexMap<u64, Pending>,
    ghost listing: { is_listing (λ (p : PendingLoad). p.number) table.entries ≡ true },
}

impl Model for Numbered {
    ghost use Rattle.std.specs.Prelude.{List, nat_lt};
    ghost use Rattle.std.specs.Map.{values_of};
    ghost use Rattle.audit_model.specs.Situation.{PendingLoad};
    ghost use Rattle.audit_situation.specs.Listings.{ranked};

    ghost Value = { List PendingLoad };

    ghost view = { λ n. ranked (λ a b. nat_lt b a) (λ p. p.number) (values_of n.table.entries) };
}

impl Numbered {
    /// Creates an empty table of loads.
    pub fn new(alloc: Global) -> Numbered
        ensures { result ≡ [] }
    {
        Numbered {
            table: IndexMap::new(alloc),
        }
    }

    /// Returns the load of that number, or `None` if there is none.
    pub fn get(&self, number: u64) -> Option<&Pending>
        ensures { option_map (λ p. p.now) result ≡ find (λ p. p.number == number) self.now }
    {
        self.table.get(&number)
    }

    /// Adds a load, as the first one. Returns an error if there is not enough memory; then nothing has changed.
    pub fn add(&mut self, load: Pending) -> Result<(), AllocError>
        requires { list_all (λ p. nat_lt p.number load.number) self.old ≡ true }
        ensures added { OnOk result (self.new ≡ load ∷ self.old) }
        ensures unchanged { OnErr result (self.new ≡ self.old) }
    {
        self.table.insert(load.number(), load)?;
        Ok(())
    }

    /// Removes the load of that number, and returns it, or `None` if there is none.
    pub fn take(&mut self, number: u64) -> Option<Pending>
        ensures found { result ≡ find (λ p. p.number == number) self.old }
        ensures rest { self.new ≡ filter (λ p. not (p.number == number)) self.old }
    {
        self.table.swap_remove(&number)
    }

    /// Makes a connection wait no more for the load of that number.
    pub fn leave(&mut self, number: u64, conn: u64)
        ensures { self.new ≡ map (changed_numbered (λ p. p.number) number (without_waiting conn))
            self.old }
    {
        if let Some(load) = self.table.get_mut(&number) {
            load.leave(conn);
        }
    }

    /// Makes a connection join those that wait for the load of that number. Returns an error if there is not enough memory; then nothing
    /// has changed.
    pub fn join(&mut self, number: u64, conn: u64) -> Result<(), AllocError>
        ensures joined { OnOk result (self.new ≡ map (changed_numbered (λ p. p.number) number
            (λ p. record p { waiting = p.waiting ++ conn ∷ [] })) self.old) }
        ensures unchanged { OnErr result (self.new ≡ self.old) }
    {
        match self.table.get_mut(&number) {
            Some(load) => load.join(conn),
            None => Ok(()),
        }
    }
}
