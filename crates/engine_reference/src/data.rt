//! What the reference cache is made of. Moments and times are in nanoseconds.

use crate::rules::{EvictionPolicy, RemovalCause};

/// The settings of a cache.
#[derive(Clone, Copy)]
pub struct Settings {
    /// The maximum weight, or `None` without a limit.
    pub capacity: Option<u64>,
    /// For how many nanoseconds a value lives after it was written, or `None` without a limit.
    pub live: Option<u64>,
    /// For how many nanoseconds a value lives after its last use, or `None` without a limit.
    pub idle: Option<u64>,
    /// Which entries are evicted if the cache is too heavy.
    pub policy: EvictionPolicy,
    /// Whether removals are reported as notices.
    pub tells: bool,
    /// Whether predicates are accepted.
    pub takes_predicates: bool,
    /// The moment of creation, in nanoseconds.
    pub made: u64,
}

/// A key with its value, and everything that decides whether it is visible.
#[derive(Drop)]
pub struct Entry<K, V> {
    /// The key.
    pub key: K,
    /// The value.
    pub value: V,
    /// The step of the last write.
    pub step: u64,
    /// The moment of the last write, in nanoseconds.
    pub written: u64,
    /// The moment of the last use, in nanoseconds: of a write, or of a look-up that found the entry.
    pub used: u64,
    /// The moment in nanoseconds at which the entry expires by itself, or `None` if it does not.
    pub expires: Option<u64>,
    /// The weight that the rules give to the value.
    pub weight: u32,
}

/// An entry with what maintenance knows about it. The record stays while an operation on it may come.
#[derive(Drop)]
pub struct Record<K, V> {
    /// A number that no other record of the cache ever had.
    pub number: u64,
    /// The hash of the key.
    pub hash: u64,
    /// The entry itself.
    pub entry: Entry<K, V>,
    /// False after the key was removed.
    pub is_held: bool,
    /// How many times the record was written or removed.
    pub writes: u64,
    /// The number of the latest write or removal that maintenance has applied, or 0 if it has applied none.
    pub applied: u64,
    /// The weight with which the record counts, or `None` if it is not admitted.
    pub counts: Option<u32>,
}

/// A write of a record that maintenance has to apply.
#[derive(Clone, Copy)]
pub struct Upsert {
    /// The record's number.
    pub number: u64,
    /// Which of the record's writes it is, counted from 1.
    pub write: u64,
    /// The weight of the value that was written.
    pub weight: u32,
    /// The hash of the key.
    pub hash: u64,
    /// The weight of all that was held right after the write.
    pub kept: u128,
}

/// What maintenance has to apply.
#[derive(Clone, Copy)]
pub enum Write {
    /// A record was written.
    Put(Upsert),
    /// The record of this number was removed by its key.
    Removed(u64),
}

/// A look-up that maintenance has to count.
#[derive(Clone, Copy)]
pub enum Read {
    /// The record of this number was found, under the hash that follows.
    Hit(u64, u64),
    /// Nothing was found under this hash.
    Miss(u64),
}

/// A write that was made and not yet sent to maintenance, with its ticket.
#[derive(Clone, Copy)]
pub struct Unsent {
    /// The ticket, under which the write is sent.
    pub ticket: u64,
    /// The write itself.
    pub write: Write,
}

/// A predicate with its identifier, which covers what was written at earlier steps.
#[derive(Drop)]
pub struct Registered<P> {
    /// The identifier.
    pub id: u128,
    /// The predicate itself.
    pub predicate: P,
    /// The step at which the predicate was registered.
    pub step: u64,
}

/// The report of a value that left a cache. (`moka` passes the same to a listener.)
#[derive(Drop)]
pub struct Notice<K, V> {
    /// Why the value left.
    pub cause: RemovalCause,
    /// The key of the value.
    pub key: K,
    /// The value that left.
    pub value: V,
}
