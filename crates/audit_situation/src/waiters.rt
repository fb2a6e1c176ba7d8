//! The connections that wait for one load.
ghost use Rattle.std.specs.Prelude.{◌≡◌, ◌++◌, ◌∷◌, [], ℕ, not, ◌==◌, IfOk, OnOk, OnErr};
ghost use Rattle.std.specs.List.{filter};
ghost use Rattle.std.specs.Map.Iter.{ShowsInOrder, deref};

use indexmap::IndexSet;
use indexmap::set::Iter;
use std::alloc::{AllocError, Global};
use std::marker::Model;

/// Connections, each once, seen as the list of them in the order in which they joined.
#[derive(Drop)]
pub struct Waiters {
    conns: IndexSet<u64>,
}

impl Model for Waiters {
    ghost use Rattle.std.specs.Prelude.{ℕ, List};

    ghost Value = { List ℕ };

    ghost view = { λ w. w.conns.keys };
}

impl Waiters {
    /// Creates an empty list of connections.
    pub fn new(alloc: Global) -> Waiters
        ensures { result ≡ [] }
    {
        Waiters {
            conns: IndexSet::new(alloc),
        }
    }

    /// Returns the numbers of the connections, in their order.
    pub fn iter(&self) -> Iter<'_, u64>
        ensures rest { result ≡ self.now }
        ensures runs { ShowsInOrder (deref {X = ℕ}) }
    {
        self.conns.iter()
    }

    /// Adds a connection, as the last one. Returns an error if there is not enough memory, or if the connection is already there; then
    /// nothing has changed.
    pub fn push(&mut self, conn: u64) -> Result<(), AllocError>
        ensures added { OnOk result (self.new ≡ self.old ++ conn ∷ []) }
        ensures unchanged { OnErr result (self.new ≡ self.old) }
    {
        if self.conns.contains(&conn) {
            return Err(AllocError);
        }
        self.conns.insert(conn)?;
        Ok(())
    }

    /// Removes a connection. The others keep their order.
    pub fn remove(&mut self, conn: u64)
        ensures { self.new ≡ filter (λ n. not (n == conn)) self.old }
    {
        self.conns.shift_remove(&conn);
    }

    /// Returns the numbers of the connections, in their order. Returns an error if there is not enough memory.
    pub fn to_vec(&self, alloc: Global) -> Result<Vec<u64>, AllocError>
        ensures { IfOk result (λ conns. conns.items ≡ self.now) }
    {
        let mut conns = Vec::new(alloc);
        for conn in self.iter() {
            conns.push(*conn)?;
        }
        Ok(conns)
    }
}
