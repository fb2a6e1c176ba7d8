//! A value that is held.
ghost use Rattle.std.specs.Prelude.{◌≡◌, true};
ghost use Rattle.audit_model.specs.Changes.{newly_held};
ghost use Rattle.audit_situation.specs.Held.Slots.{slot_of};
ghost use Rattle.audit_situation.specs.Held.Seeing.{held_of};

use crate::held::kept::StoredValue;
use audit_model::{Bytes, Seq};
use std::marker::Model;

/// A value that a namespace holds.
#[derive(Drop)]
pub struct Held {
    key: Bytes,
    bytes: Bytes,
    part: u64,
    weight: u64,
    accepted_at: u64,
    own_deadline: Option<u64>,
    last_use: u64,
    covered: bool,
    evictable: bool,
}

impl Model for Held {
    ghost use Rattle.audit_model.specs.Situation.{HeldValue};

    ghost Value = { HeldValue };

    ghost view = { λ h. record {
      value = record { key = h.key; bytes = h.bytes; part = h.part; weight = h.weight; accepted_at = h.accepted_at; own_deadline = h.own_deadline };
      last_use = h.last_use;
      covered = h.covered;
      evictable = h.evictable;
    } };
}

impl Held {
    /// Creates the value that is accepted into a part at `moment`, with its own deadline; both are in nanoseconds.
    pub fn accepted(
        key: Bytes,
        bytes: Bytes,
        part: u64,
        weight: u64,
        moment: u64,
        own_deadline: Option<u64>,
    ) -> Held
        ensures { result ≡ newly_held (record {
          key = key;
          bytes = bytes;
          part = part;
          weight = weight;
          accepted_at = moment;
          own_deadline = own_deadline;
        }) }
    {
        Held {
            key,
            bytes,
            part,
            weight,
            accepted_at: moment,
            own_deadline,
            last_use: moment,
            covered: false,
            evictable: false,
        }
    }

    /// Returns the value's key.
    pub fn key(&self) -> &[u8]
        ensures { result.now ≡ self.now.value.key }
    {
        self.key.as_slice()
    }

    /// Returns the number of the value's part.
    pub fn part(&self) -> u64
        ensures { result ≡ self.now.value.part }
    {
        self.part
    }

    /// Returns what the value weighs.
    pub fn weight(&self) -> u64
        ensures { result ≡ self.now.value.weight }
    {
        self.weight
    }

    /// Creates the value of what a table kept.
    pub fn from_kept(key: Vec<u8>, kept: StoredValue, covered: bool, evictable: bool) -> Held
        ensures { result ≡ record {
          value = (slot_of key.items kept).value;
          last_use = kept.last_use;
          covered = covered;
          evictable = evictable;
        } }
    {
        Held {
            key: Seq::from_vec(key),
            bytes: kept.bytes,
            part: kept.part,
            weight: kept.weight,
            accepted_at: kept.accepted_at,
            own_deadline: kept.own_deadline,
            last_use: kept.last_use,
            covered,
            evictable,
        }
    }

    /// Returns the value's key, and what a table keeps of the value under that number.
    pub fn into_kept(self, stamp: u64) -> (Vec<u8>, StoredValue)
        ensures { slot_of result.0.items result.1
            ≡ record { value = self.value; last_use = self.last_use; stamp = stamp } }
    {
        let Held {
            key,
            bytes,
            part,
            weight,
            accepted_at,
            own_deadline,
            last_use,
            covered: _,
            evictable: _,
        } = self;
        (
            key.into_vec(),
            StoredValue {
                bytes,
                part,
                weight,
                accepted_at,
                own_deadline,
                last_use,
                stamp,
            },
        )
    }

    /// Returns the value, lent.
    pub fn see(&self) -> Seen<'_>
        ensures { held_of result ≡ self.now }
    {
        Seen {
            key: self.key.as_slice(),
            bytes: self.bytes.as_slice(),
            part: self.part,
            weight: self.weight,
            accepted_at: self.accepted_at,
            own_deadline: self.own_deadline,
            last_use: self.last_use,
            covered: self.covered,
            evictable: self.evictable,
        }
    }
}

/// A value that is held, lent. Moments are in nanoseconds.
#[derive(Clone, Copy)]
pub struct Seen<'a> {
    /// The value's key.
    pub key: &'a [u8],
    /// The value itself.
    pub bytes: &'a [u8],
    /// The number of the value's part, counted from 0.
    pub part: u64,
    /// What the value weighs.
    pub weight: u64,
    /// The moment at which the value was accepted.
    pub accepted_at: u64,
    /// The value's own deadline, or `None` if it has none.
    pub own_deadline: Option<u64>,
    /// The moment at which the value was last used.
    pub last_use: u64,
    /// Whether a `CLEAR` or a `DROPIF` covers the value.
    pub covered: bool,
    /// Whether the value's part was over its share at a point that still counts for the value.
    pub evictable: bool,
}
