//! A load under way.
ghost use Rattle.std.specs.Prelude.{◌≡◌, ◌∷◌, [], ◌++◌, IfOk, OnOk, OnErr};
ghost use Rattle.audit_model.specs.Situation.{without_waiting};

use crate::waiters::Waiters;
use audit_model::Bytes;
use std::alloc::{AllocError, Global};
use std::marker::Model;

/// A load under way, with the connections that wait for it in the order in which they joined.
#[derive(Drop)]
pub struct Pending {
    number: u64,
    key: Bytes,
    waiting: Waiters,
}

impl Model for Pending {
    ghost use Rattle.audit_model.specs.Situation.{PendingLoad};

    ghost Value = { PendingLoad };

    ghost view = { λ p. record { number = p.number; key = p.key; waiting = p.waiting } };
}

impl Pending {
    /// Creates a load of a key, for which these connections wait.
    pub fn new(number: u64, key: Bytes, waiting: Waiters) -> Pending
        ensures { result ≡ record { number = number; key = key; waiting = waiting } }
    {
        Pending {
            number,
            key,
            waiting,
        }
    }

    /// Returns the load's number.
    pub fn number(&self) -> u64
        ensures { result ≡ self.now.number }
    {
        self.number
    }

    /// Returns the load's key.
    pub fn key(&self) -> &[u8]
        ensures { result.now ≡ self.now.key }
    {
        self.key.as_slice()
    }

    /// Returns the connections that wait for the load.
    pub fn waiters(&self) -> &Waiters
        ensures { result.now ≡ self.now.waiting }
    {
        &self.waiting
    }

    /// Returns the numbers of the connections that wait for the load, in the order in which they joined. Returns an error if there is not
    /// enough memory.
    pub fn waiting(&self, alloc: Global) -> Result<Vec<u64>, AllocError>
        ensures { IfOk result (λ conns. conns.items ≡ self.now.waiting) }
    {
        self.waiting.to_vec(alloc)
    }

    /// Makes a connection wait for the load no more.
    pub fn leave(&mut self, conn: u64)
        ensures { self.new ≡ without_waiting conn self.old }
    {
        self.waiting.remove(conn);
    }

    /// Makes a connection join those that wait for the load. Returns an error if there is not enough memory, or if the connection is
    /// already among them; then nothing has changed.
    pub fn join(&mut self, conn: u64) -> Result<(), AllocError>
        ensures joined { OnOk result
            (self.new ≡ record self.old { waiting = self.old.waiting ++ conn ∷ [] }) }
        ensures unchanged { OnErr result (self.new ≡ self.old) }
        ensures number { self.new.number ≡ self.old.number }
    {
        self.waiting.push(conn)?;
        Ok(())
    }
}
