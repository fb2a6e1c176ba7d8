//! What is known about an entry.
ghost use Rattle.std.specs.Prelude.{◌≡◌, ◌≢◌, ℕ, ◌+◌, ◌-◌, ◌%◌, ◌^◌, ◌<◌, ◌≤◌, ◌↔◌, true, false, IsTrue, OnOk, OnErr, IsErr, IfOk, Option, Some, None, if◌then◌else◌, nat_lt, option_map, min};
ghost use Rattle.policy_base.specs.Info.{kept_time};

use crate::moment::{AccessTime, Instant};
use crate::records::KeyHash;
use std::marker::Model;
use thiserror::Error;

/// How many generations an own expiration has before they start again.
const EXPIRATION_GENERATIONS: u16 = 4096;

/// An own expiration is kept as a multiple of this number of nanoseconds.
const EXPIRATION_STEP: u64 = 4096;

/// The last own expiration.
const LAST_EXPIRATION: u64 = 0xFFFF_FFFF_FFFF_E000;

/// The numbers of the writes of an entry are used up.
#[derive(Clone, Copy, Debug, PartialEq, Eq, Drop, Error)]
#[error("used up")]
pub struct UsedUp;

/// An entry: its key, its weight, its moments, and how far its writes are applied.
#[derive(Drop)]
pub struct EntryInfo<K> {
    key_hash: KeyHash<K>,
    is_admitted: bool,
    is_retired: bool,
    entry_gen: u64,
    policy_gen: u64,
    last_accessed: Instant,
    last_modified: Instant,
    write_step: u64,
    policy_weight: u32,
    expiration_time: Option<Instant>,
    expiry_gen: u16,
}

impl<K> Model for EntryInfo<K> {
    ghost use Rattle.std.specs.Prelude.{◌<◌};
    ghost use Rattle.policy_base.specs.Info.{Info};

    ghost Value = { Info K };

    ghost view = { λ e. record {
      key_hash = e.key_hash;
      is_admitted = e.is_admitted;
      is_retired = e.is_retired;
      entry_gen = e.entry_gen;
      policy_gen = e.policy_gen;
      last_accessed = e.last_accessed;
      last_modified = e.last_modified;
      write_step = e.write_step;
      policy_weight = e.policy_weight;
      expiration_time = e.expiration_time;
      expiry_gen = e.expiry_gen;
    } };

    ghost invariant = { λ e. e.expiry_gen < 4096 };
}

impl<K> EntryInfo<K> {
    ghost use Rattle.policy_base.specs.Info.{kept_time, new_info};

    /// Creates an entry that was written at this moment.
    pub fn new(key_hash: KeyHash<K>, moment: Instant, policy_weight: u32) -> Self
        ensures { result ≡ new_info key_hash moment policy_weight }
    {
        EntryInfo {
            key_hash,
            is_admitted: false,
            is_retired: false,
            entry_gen: 1,
            policy_gen: 0,
            last_accessed: moment,
            last_modified: moment,
            write_step: 0,
            policy_weight,
            expiration_time: None,
            expiry_gen: 0,
        }
    }

    /// Returns the key with its hash.
    pub fn key_hash(&self) -> &KeyHash<K>
        ensures { result.now ≡ self.now.key_hash }
    {
        &self.key_hash
    }

    /// Returns whether the policy holds the entry.
    pub fn is_admitted(&self) -> bool
        ensures { result ≡ self.now.is_admitted }
    {
        self.is_admitted
    }

    /// Sets whether the policy holds the entry.
    pub fn set_admitted(&mut self, value: bool)
        ensures { self.new ≡ record self.old { is_admitted = value } }
    {
        self.is_admitted = value;
    }

    /// Returns the number of the entry's last write, counted from 1.
    pub fn entry_gen(&self) -> u64
        ensures { result ≡ self.now.entry_gen }
    {
        self.entry_gen
    }

    /// Counts a write, and returns its number. Returns `UsedUp` after 2^64 - 1 writes; then nothing has changed.
    pub fn incr_entry_gen(&mut self) -> Result<u64, UsedUp>
        ensures counted { IfOk result
            (λ v. (v ≡ self.old.entry_gen + 1) × (self.new ≡ record self.old { entry_gen = v })) }
        ensures refused { IsErr result ↔ (self.old.entry_gen ≡ u64.MAX) }
        ensures unchanged { OnErr result (self.new ≡ self.old) }
    {
        if self.entry_gen == u64::MAX {
            return Err(UsedUp);
        }
        self.entry_gen += 1;
        Ok(self.entry_gen)
    }

    /// Returns the number of the last write that the policy applied, or 0 if it applied none.
    pub fn policy_gen(&self) -> u64
        ensures { result ≡ self.now.policy_gen }
    {
        self.policy_gen
    }

    /// Notes that a write was applied, unless one with a higher number was.
    pub fn set_policy_gen(&mut self, value: u64)
        ensures { self.new ≡ (if nat_lt self.old.policy_gen value
            then record self.old { policy_gen = value } else self.old) }
    {
        if self.policy_gen < value {
            self.policy_gen = value;
        }
    }

    /// Returns whether the entry has a write that is not yet applied.
    pub fn is_dirty(&self) -> bool
        ensures { IsTrue result ↔ (self.now.entry_gen ≢ self.now.policy_gen) }
    {
        self.entry_gen != self.policy_gen
    }

    /// Returns the step of the last write.
    pub fn write_step(&self) -> u64
        ensures { result ≡ self.now.write_step }
    {
        self.write_step
    }

    /// Sets the step of the last write.
    pub fn set_write_step(&mut self, step: u64)
        ensures { self.new ≡ record self.old { write_step = step } }
    {
        self.write_step = step;
    }

    /// Returns the entry's weight.
    pub fn policy_weight(&self) -> u32
        ensures { result ≡ self.now.policy_weight }
    {
        self.policy_weight
    }

    /// Sets the entry's weight.
    pub fn set_policy_weight(&mut self, weight: u32)
        ensures { self.new ≡ record self.old { policy_weight = weight } }
    {
        self.policy_weight = weight;
    }

    /// Returns whether the entry has left the cache.
    pub fn is_retired(&self) -> bool
        ensures { result ≡ self.now.is_retired }
    {
        self.is_retired
    }

    /// Notes that the entry, which must not have left before, has left the cache.
    pub fn retire(&mut self)
        requires { self.old.is_retired ≡ false }
        ensures { self.new ≡ record self.old { is_retired = true } }
    {
        self.is_retired = true;
    }

    /// Returns the moment at which the entry expires by itself, or `None` if it does not.
    pub fn expiration_time(&self) -> Option<Instant>
        ensures { result ≡ self.now.expiration_time }
    {
        self.expiration_time
    }

    /// Returns the moment at which the entry expires by itself, if it does, with the generation of this expiration, from 0 to 4095.
    pub fn expiration_state(&self) -> (Option<Instant>, u16)
        ensures time { result.0 ≡ self.now.expiration_time }
        ensures generation { result.1 ≡ self.now.expiry_gen }
        ensures in_range { result.1 < 4096 }
    {
        (self.expiration_time, self.expiry_gen)
    }

    /// Sets the moment at which the entry expires by itself, rounded down to a multiple of 4096 nanoseconds, or that it does not, and
    /// starts the next generation of its expiration.
    pub fn set_expiration_time(&mut self, time: Option<Instant>)
        ensures { self.new ≡ record self.old {
          expiration_time
              = option_map kept_time time;
          expiry_gen = (self.old.expiry_gen + 1) % 4096;
        } }
    {
        self.expiration_time = match time {
            Some(moment) => Some(kept(moment)),
            None => None,
        };
        self.expiry_gen = (self.expiry_gen + 1) % EXPIRATION_GENERATIONS;
    }
}

/// The moment, rounded as an own expiration is.
fn kept(moment: Instant) -> Instant
    ensures { result ≡ kept_time moment }
{
    let nanos = moment.as_nanos() / EXPIRATION_STEP * EXPIRATION_STEP;
    Instant::from_nanos(nanos.min(LAST_EXPIRATION))
}

impl<K> AccessTime for EntryInfo<K> {
    ghost accessed = { λ e. e.last_accessed };

    ghost modified = { λ e. e.last_modified };

    fn last_accessed(&self) -> Instant
        ensures { result ≡ self.now.last_accessed }
    {
        self.last_accessed
    }

    fn last_modified(&self) -> Instant
        ensures { result ≡ self.now.last_modified }
    {
        self.last_modified
    }

    fn set_last_accessed(&mut self, moment: Instant)
        ensures { self.new ≡ record self.old { last_accessed = moment } }
    {
        self.last_accessed = moment;
    }

    fn set_last_modified(&mut self, moment: Instant)
        ensures { self.new ≡ record self.old { last_modified = moment } }
    {
        self.last_modified = moment;
    }
}
