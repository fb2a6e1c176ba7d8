//! The map from keys to parts.
ghost use Rattle.std.specs.Prelude.{◌≡◌, ◌++◌, ◌∷◌, [], None, OnOk};
ghost use Rattle.audit_situation.specs.Held.Known.{parts_of, part_of_key, agrees, with_part};

use indexmap::IndexMap;
use std::alloc::{AllocError, Global};
use std::marker::Model;

/// Keys with their parts, seen as the list of them.
#[derive(Drop)]
pub struct Parts {
    alloc: Global,
    parts: IndexMap<Vec<u8>, u64>,
}

impl Model for Parts {
    ghost use Rattle.std.specs.Prelude.{List};
    ghost use Rattle.audit_situation.specs.Held.Known.{KeyPart, parts_of};

    ghost Value = { List KeyPart };

    ghost view = { λ p. parts_of p.parts.entries };
}

impl Parts {
    /// Creates an empty map.
    pub fn new(alloc: Global) -> Parts
        ensures { result ≡ [] }
    {
        Parts {
            alloc,
            parts: IndexMap::new(alloc),
        }
    }

    /// Returns the part of a key, or `None` if it has none yet.
    pub fn get(&self, key: &[u8]) -> Option<u64>
        ensures { result ≡ part_of_key self.now key.now }
    {
        self.parts.get(key).copied()
    }

    /// Returns whether a key has that part, or none yet.
    pub fn agrees(&self, key: &[u8], part: u64) -> bool
        ensures { result ≡ agrees self.now key.now part }
    {
        match self.get(key) {
            Some(known) => known == part,
            None => true,
        }
    }

    /// Adds a key that has no part.
    fn insert(&mut self, key: Vec<u8>, part: u64) -> Result<(), AllocError>
        requires { part_of_key self.old key.items ≡ None }
        ensures { OnOk result
            (self.new ≡ self.old ++ record { key = key.items; part = part } ∷ []) }
    {
        self.parts.insert(key, part)?;
        Ok(())
    }

    /// Keeps the part of a key, if it had none. Returns an error if there is not enough memory.
    pub fn keep(&mut self, key: &[u8], part: u64) -> Result<(), AllocError>
        ensures { OnOk result (self.new ≡ with_part self.old key.now part) }
    {
        if self.get(key).is_none() {
            let key = Vec::from_slice(self.alloc, key)?;
            self.insert(key, part)?;
        }
        Ok(())
    }
}
