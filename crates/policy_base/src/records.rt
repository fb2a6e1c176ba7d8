//! Entries with their places, and the records about them.
ghost use Rattle.std.specs.Prelude.{◌≡◌, ℕ, None, IfOk};
ghost use Rattle.std.specs.Arc.{arc_value};

use crate::entry_info::EntryInfo;
use crate::moment::Instant;
use crate::name::NodeId;
use std::alloc::AllocError;
use std::fmt;
use std::sync::Arc;

/// A key with its hash.
#[derive(Drop)]
pub struct KeyHash<K> {
    /// The key, which others may share.
    pub key: Arc<K>,
    /// The hash of the key.
    pub hash: u64,
}

impl<K> KeyHash<K> {
    /// Puts a key together with its hash.
    pub fn new(key: Arc<K>, hash: u64) -> Self
        ensures key { result.key ≡ key }
        ensures hash { result.hash ≡ hash }
    {
        KeyHash { key, hash }
    }
}

impl<K: Drop> KeyHash<K> {
    /// Returns the same key with the same hash. Returns an error if there is not enough memory.
    pub fn clone(&self) -> Result<Self, AllocError>
        ensures key { IfOk result (λ copy. arc_value copy.key ≡ arc_value self.now.key) }
        ensures hash { IfOk result (λ copy. copy.hash ≡ self.now.hash) }
    {
        Ok(KeyHash {
            key: self.key.clone()?,
            hash: self.hash,
        })
    }
}

/// An entry, as a queue holds it.
#[derive(Clone, Copy, Debug, PartialEq, Eq)]
pub struct KeyHashDate {
    /// The number of the entry.
    pub entry: usize,
}

impl KeyHashDate {
    /// Creates what a queue holds of the entry with this number.
    pub fn new(entry: usize) -> Self
        ensures { result.entry ≡ entry }
    {
        KeyHashDate { entry }
    }
}

/// A value with its entry's number.
#[derive(Drop)]
pub struct ValueEntry<V> {
    /// The value itself.
    pub value: V,
    /// The number of the value's entry.
    pub entry: usize,
}

impl<V> ValueEntry<V> {
    /// Puts a value together with its entry's number.
    pub fn new(value: V, entry: usize) -> Self
        ensures value { result.value ≡ value }
        ensures entry { result.entry ≡ entry }
    {
        ValueEntry { value, entry }
    }

    /// Returns another value of the same entry.
    pub fn new_from(value: V, other: &ValueEntry<V>) -> Self
        ensures value { result.value ≡ value }
        ensures entry { result.entry ≡ other.now.entry }
    {
        ValueEntry {
            value,
            entry: other.entry,
        }
    }
}

/// A key with its value and its entry's number.
#[derive(Drop)]
pub struct KvEntry<K, V> {
    /// The key, which others may share.
    pub key: Arc<K>,
    /// The value with its entry's number.
    pub entry: ValueEntry<V>,
}

impl<K, V> KvEntry<K, V> {
    /// Puts a key together with its value and its entry's number.
    pub fn new(key: Arc<K>, entry: ValueEntry<V>) -> Self
        ensures key { result.key ≡ key }
        ensures entry { result.entry ≡ entry }
    {
        KvEntry { key, entry }
    }
}

impl<K: Drop, V: Clone> KvEntry<K, V> {
    /// Returns the same key with a clone of the value. Returns an error if there is not enough memory.
    pub fn clone(&self) -> Result<Self, AllocError>
        ensures key { IfOk result (λ copy. arc_value copy.key ≡ arc_value self.now.key) }
        ensures value { IfOk result (λ copy. V.is_clone self.now.entry.value copy.entry.value) }
        ensures entry { IfOk result (λ copy. copy.entry.entry ≡ self.now.entry.entry) }
    {
        let value = self.entry.value.clone()?;
        let key = self.key.clone()?;
        Ok(KvEntry {
            key,
            entry: ValueEntry {
                value,
                entry: self.entry.entry,
            },
        })
    }
}

/// A value that was replaced, with what its entry knew about it.
#[derive(Drop)]
pub struct OldEntryInfo<V> {
    /// The value that was replaced, with its entry's number.
    pub entry: ValueEntry<V>,
    /// The moment of the entry's last use before.
    pub last_accessed: Instant,
    /// The moment of the entry's last write before.
    pub last_modified: Instant,
}

impl<V> OldEntryInfo<V> {
    /// Puts a value that was replaced together with the moments of its last use and last write.
    pub fn new(entry: ValueEntry<V>, last_accessed: Instant, last_modified: Instant) -> Self
        ensures entry { result.entry ≡ entry }
        ensures accessed { result.last_accessed ≡ last_accessed }
        ensures modified { result.last_modified ≡ last_modified }
    {
        OldEntryInfo {
            entry,
            last_accessed,
            last_modified,
        }
    }
}

/// A read that is not yet applied.
#[derive(Clone, Copy, Debug, PartialEq, Eq)]
pub enum ReadOp {
    /// The entry's value was found.
    Hit {
        entry: usize,
        is_expiry_modified: bool,
    },
    /// No value was found under this hash.
    Miss(u64),
}

/// A write that is not yet applied.
#[derive(Drop)]
pub enum WriteOp<K, V> {
    /// A value was written.
    Upsert {
        key_hash: KeyHash<K>,
        entry: usize,
        entry_gen: u64,
        old_weight: u32,
        new_weight: u32,
    },
    /// A value was removed.
    Remove {
        kv_entry: KvEntry<K, V>,
        entry_gen: u64,
    },
}

impl<K: Drop, V: Clone> WriteOp<K, V> {
    ghost use Rattle.policy_base.specs.Operations.{IsCopy};

    /// Returns the same operation. Returns an error if there is not enough memory.
    pub fn clone(&self) -> Result<Self, AllocError>
        ensures { IfOk result (IsCopy V.is_clone self.now) }
    {
        match self {
            WriteOp::Upsert {
                key_hash,
                entry,
                entry_gen,
                old_weight,
                new_weight,
            } => Ok(WriteOp::Upsert {
                key_hash: key_hash.clone()?,
                entry: *entry,
                entry_gen: *entry_gen,
                old_weight: *old_weight,
                new_weight: *new_weight,
            }),
            WriteOp::Remove {
                kv_entry,
                entry_gen,
            } => Ok(WriteOp::Remove {
                kv_entry: kv_entry.clone()?,
                entry_gen: *entry_gen,
            }),
        }
    }
}

impl<K, V> fmt::Debug for WriteOp<K, V> {
    fn fmt<W: fmt::Write>(&self, f: &mut fmt::Formatter<W>) -> fmt::Result {
        match self {
            WriteOp::Upsert { .. } => f.write_str("Upsert"),
            WriteOp::Remove { .. } => f.write_str("Remove"),
        }
    }
}

/// What a node of a queue holds.
#[derive(Clone, Copy, Debug, PartialEq, Eq)]
pub struct DeqNode<T> {
    /// The element that the node holds.
    pub element: T,
}

impl<T> DeqNode<T> {
    /// Creates a node that holds this element.
    pub fn new(element: T) -> Self
        ensures { result.element ≡ element }
    {
        DeqNode { element }
    }
}

/// The places of an entry in the queues and among the timers.
#[derive(Clone, Copy, Debug, PartialEq, Eq)]
pub struct DeqNodes {
    /// The entry's node in the queue of its region, which is in order of use, if it has one.
    pub access_queue: Option<NodeId>,
    /// The entry's node in the queue in order of writes, if it has one.
    pub write_queue: Option<NodeId>,
    /// The entry's timer, if it has one.
    pub timer: Option<NodeId>,
}

impl DeqNodes {
    /// Creates the places of an entry.
    pub fn new(
        access_queue: Option<NodeId>,
        write_queue: Option<NodeId>,
        timer: Option<NodeId>,
    ) -> Self
        ensures access_queue { result.access_queue ≡ access_queue }
        ensures write_queue { result.write_queue ≡ write_queue }
        ensures timer { result.timer ≡ timer }
    {
        DeqNodes {
            access_queue,
            write_queue,
            timer,
        }
    }
}

impl Default for DeqNodes {
    ghost is_default = { λ nodes. nodes
        ≡ record { access_queue = None; write_queue = None; timer = None } };

    /// The places of an entry that is in no queue and has no timer.
    fn default() -> Self {
        DeqNodes {
            access_queue: None,
            write_queue: None,
            timer: None,
        }
    }
}

/// An entry with its places.
#[derive(Drop)]
pub struct Slot<K> {
    /// What is known about the entry.
    pub info: EntryInfo<K>,
    /// The entry's places.
    pub nodes: DeqNodes,
}

impl<K> Slot<K> {
    /// Creates an entry that has no place yet.
    pub fn new(info: EntryInfo<K>) -> Self
        ensures info { result.info ≡ info }
        ensures nodes { result.nodes
            ≡ record { access_queue = None; write_queue = None; timer = None } }
    {
        Slot {
            info,
            nodes: DeqNodes::default(),
        }
    }
}
