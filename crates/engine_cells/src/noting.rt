//! Reads and writes that wait, with the places of their records.
ghost use Rattle.std.specs.Prelude.{◌≡◌};
ghost use Rattle.engine_cells.specs.Writing.{put_for};
ghost use Rattle.engine_reference.specs.declared.data.Write.TheVariants.{Removed};

use crate::cell::Cell;
use engine_reference::{Upsert, Write};
use std::marker::Model;

/// A look-up that maintenance has to count. A record that was found is named by its number, and by the place in which it stood.
#[derive(Clone, Copy)]
pub enum Noted {
    /// A record was found.
    Hit {
        hash: u64,
        place: usize,
        number: u64,
    },
    /// Nothing was found under this hash.
    Miss(u64),
}

/// A write that maintenance has to apply, in 40 bytes.
#[derive(Drop)]
pub struct WaitingWrite {
    number: u64,
    write: u64,
    hash: u64,
    kept: u64,
    // None for a removal, of which only the number is of use.
    weight: Option<u32>,
}

impl Model for WaitingWrite {
    ghost use Rattle.std.specs.Prelude.{if◌then◌else◌, is_some, unwrap_or};
    ghost use Rattle.engine_reference.specs.declared.data.Write.{Write};
    ghost use Rattle.engine_reference.specs.declared.data.Write.TheVariants.{Put, Removed};

    ghost Value = { Write };

    ghost view = { λ w. if is_some w.weight then Put (record {
      number = w.number;
      write = w.write;
      weight = unwrap_or w.weight 0;
      hash = w.hash;
      kept = w.kept;
    }) else Removed w.number };
}

impl WaitingWrite {
    /// Returns the write of a record as it stands, with the weight of all that is held.
    pub fn put<K, V>(found: &Cell<K, V>, kept: u64) -> Self
        ensures { result ≡ put_for found.now kept }
    {
        WaitingWrite {
            number: found.number(),
            write: found.writes(),
            hash: found.hash(),
            kept,
            weight: Some(found.weight()),
        }
    }

    /// Returns the removal of the record of a number.
    pub fn removed(number: u64) -> Self
        ensures { result ≡ Removed number }
    {
        WaitingWrite {
            number,
            write: 0,
            hash: 0,
            kept: 0,
            weight: None,
        }
    }

    /// Returns what has to be applied.
    pub fn to_write(&self) -> Write
        ensures { result ≡ self.now }
    {
        match self.weight {
            Some(weight) => Write::Put(Upsert {
                number: self.number,
                write: self.write,
                weight,
                hash: self.hash,
                kept: u128::from(self.kept),
            }),
            None => Write::Removed(self.number),
        }
    }
}

/// A write that waits, and the place in which its record stood when it was made.
#[derive(Drop)]
pub struct PlacedWrite {
    /// The place in which the record stood when the write was made.
    pub place: usize,
    /// The write itself.
    pub write: WaitingWrite,
}
