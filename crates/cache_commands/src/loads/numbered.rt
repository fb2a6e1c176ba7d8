//! Loads under way by number.
ghost use Rattle.std.specs.Prelude.{◌≡◌, ◌++◌, ◌∷◌, ◌==◌, [], not, true, length, map, option_map, OnOk, OnErr};
ghost use Rattle.std.specs.List.{filter};
ghost use Rattle.audit_model.specs.Situation.{without_waiting};
ghost use Rattle.audit_model.specs.Numbered.{changed_numbered};
ghost use Rattle.cache_commands.specs.Loads.Keys.{pending_load};
ghost use Rattle.cache_commands.specs.Loads.Numbers.{are_below, are_falling, have_own_numbers, load_numbered, loads_of};

use crate::loads::load::{Load, join, leave};
use std::alloc::{AllocError, Global};
use std::cmp::Reverse;
use std::collections::BTreeMap;
use std::marker::Model;

/// Loads by number, seen as the list of them, the newest first.
#[derive(Drop)]
pub struct Numbered {
    loads: BTreeMap<Reverse<u64>, Load>,
    ghost own: { have_own_numbers loads.entries ≡ true },
    ghost falling: { are_falling (loads_of loads.entries) ≡ true },
}

impl Model for Numbered {
    ghost use Rattle.std.specs.Prelude.{List};
    ghost use Rattle.audit_model.specs.Situation.{PendingLoad};
    ghost use Rattle.cache_commands.specs.Loads.Numbers.{loads_of};

    ghost Value = { List PendingLoad };

    ghost view = { λ n. loads_of n.loads.entries };
}

impl Numbered {
    /// Creates an empty table of loads. The call allocates nothing.
    pub fn new(alloc: Global) -> Numbered
        ensures { result ≡ [] }
    {
        Numbered {
            loads: BTreeMap::new(alloc),
        }
    }

    /// Returns the number of loads.
    pub fn len(&self) -> usize
        ensures { result ≡ length self.now }
    {
        self.loads.len()
    }

    /// Returns the load of that number, or `None` if there is none.
    pub fn get(&self, number: u64) -> Option<&Load>
        ensures { option_map (λ load. pending_load load.now) result
            ≡ load_numbered number self.now }
    {
        self.loads.get(&Reverse(number))
    }

    /// Adds a load whose number is above the others. Returns an error if there is not enough memory; then nothing has changed.
    pub fn add(&mut self, load: Load) -> Result<(), AllocError>
        requires newest { are_below load.number self.old ≡ true }
        ensures added { OnOk result (self.new ≡ pending_load load ∷ self.old) }
        ensures same { OnErr result (self.new ≡ self.old) }
    {
        self.loads.insert(Reverse(load.number), load)?;
        Ok(())
    }

    /// Removes the load of that number, and returns it, or `None` if there is none.
    pub fn take(&mut self, number: u64) -> Option<Load>
        ensures found { option_map pending_load result ≡ load_numbered number self.old }
        ensures rest { self.new ≡ filter (λ load. not (load.number == number)) self.old }
    {
        self.loads.remove(&Reverse(number))
    }

    /// Makes a connection wait no more for the load of that number.
    pub fn leave(&mut self, number: u64, conn: u64)
        ensures { self.new
            ≡ map (changed_numbered (λ load. load.number) number (without_waiting conn)) self.old }
    {
        if let Some(load) = self.loads.get_mut(&Reverse(number)) {
            leave(load, conn);
        }
    }

    /// Makes a connection join those that wait for the load of that number. Returns an error if there is not enough memory; then nothing
    /// has changed.
    pub fn join(&mut self, number: u64, conn: u64) -> Result<(), AllocError>
        ensures joined { OnOk result (self.new ≡ map (changed_numbered (λ load. load.number) number
            (λ load. record load { waiting = load.waiting ++ conn ∷ [] })) self.old) }
        ensures same { OnErr result (self.new ≡ self.old) }
    {
        match self.loads.get_mut(&Reverse(number)) {
            Some(load) => join(load, conn),
            None => Ok(()),
        }
    }
}
