//! The queues of a cache's entries. What is refused for memory is tried once more, and has changed
//! nothing; so the tests pass with any one allocation refused.
use crate::rows::{Stage, Table, first_wrong};
use moka_policy::{
    CacheRegion, Deques, EntryInfo, Instant, KeyHash, KeyHashDate, NodeId, PushError, Slot, Stale,
};
use slab::Slab;
use std::alloc::Global;
use std::sync::Arc;

/// Entries in the queues in order of use and in order of writes.
#[derive(Drop)]
struct Cache {
    alloc: Global,
    entries: Slab<Slot<u8>>,
    deques: Deques<u8>,
}

/// What is done with the queues, and what has to come of it. Entries are numbered from 0 as they
/// are added.
#[derive(Clone, Copy)]
enum Act {
    /// Adds the entry of that number behind all others, in both orders.
    Add(usize),
    /// Makes room for this many in each queue.
    Reserve(usize),
    /// Adds the entry of that number behind all others in order of writes, where there is room for
    /// it already.
    AddWritten(usize),
    Use(usize, Result<(), Stale>),
    Write(usize, Result<(), Stale>),
    UnlinkUsed(usize, Result<(), Stale>),
    /// The same by one queue alone.
    UseInDeque(usize, Result<(), Stale>),
    WriteInDeque(usize, Result<(), Stale>),
    UnlinkUsedInDeque(usize, Result<(), Stale>),
    UnlinkWrittenInDeque(usize, Result<(), Stale>),
    /// The entry's node in order of writes, unlinked from the queue in order of use, or from its
    /// own.
    UnlinkWrittenAsUsed(usize, Option<Result<(), Stale>>),
    UnlinkWrittenNode(usize, Option<Result<(), Stale>>),
    ResetCursor,
    Next(CacheRegion, Option<usize>),
    Pop(CacheRegion, Option<usize>),
    Front(CacheRegion, Option<usize>),
    Back(CacheRegion, Option<usize>),
    Len(CacheRegion, usize),
}

const PROBATION: CacheRegion = CacheRegion::MainProbation;

const WRITTEN: CacheRegion = CacheRegion::Other;

fn new_cache(alloc: Global) -> Cache {
    Cache {
        alloc,
        entries: Slab::new(alloc),
        deques: Deques::default(alloc),
    }
}

/// An entry in no queue, on the second attempt if memory is refused.
fn slot(alloc: Global) -> Option<Slot<u8>> {
    let key = match Arc::new(alloc, 1u8) {
        Ok(key) => Some(key),
        Err(_) => Arc::new(alloc, 1u8).ok(),
    };
    match key {
        Some(key) => Some(Slot::new(EntryInfo::new(
            KeyHash::new(key, 7),
            Instant::from_nanos(0),
            1,
        ))),
        None => None,
    }
}

/// Makes room for one more entry, on the second attempt if memory is refused.
fn reserve_entry(entries: &mut Slab<Slot<u8>>) -> bool {
    entries.reserve(1).is_ok() || entries.reserve(1).is_ok()
}

/// A new entry's number.
fn insert(cache: &mut Cache) -> Option<usize> {
    if !reserve_entry(&mut cache.entries) {
        return None;
    }
    match slot(cache.alloc) {
        Some(slot) => cache.entries.insert(slot).ok(),
        None => None,
    }
}

/// Puts an entry last in order of use.
fn push_used(cache: &mut Cache, node: KeyHashDate) -> bool {
    let before = cache.deques.len(PROBATION);
    match cache
        .deques
        .push_back_ao(PROBATION, node, &mut cache.entries)
    {
        Ok(()) => true,
        Err(PushError::OutOfMemory(back)) => {
            back == node
                && cache.deques.len(PROBATION) == before
                && cache
                    .deques
                    .push_back_ao(PROBATION, node, &mut cache.entries)
                    .is_ok()
        }
        Err(PushError::UsedUp(_)) => false,
    }
}

/// Puts an entry last in order of writes.
fn push_written(cache: &mut Cache, node: KeyHashDate) -> bool {
    let before = cache.deques.len(WRITTEN);
    match cache.deques.push_back_wo(node, &mut cache.entries) {
        Ok(()) => true,
        Err(PushError::OutOfMemory(back)) => {
            back == node
                && cache.deques.len(WRITTEN) == before
                && cache.deques.push_back_wo(node, &mut cache.entries).is_ok()
        }
        Err(PushError::UsedUp(_)) => false,
    }
}

/// Adds an entry, and returns whether it has that number.
fn add(cache: &mut Cache, number: usize) -> bool {
    match insert(cache) {
        Some(entry) => {
            entry == number
                && push_used(cache, KeyHashDate::new(entry))
                && push_written(cache, KeyHashDate::new(entry))
        }
        None => false,
    }
}

/// Makes room, on the second attempt if memory is refused.
fn reserve(deques: &mut Deques<u8>, n: usize) -> bool {
    deques.reserve(n).is_ok() || deques.reserve(n).is_ok()
}

/// Adds an entry in order of writes within a reservation, and returns whether it has that number.
fn add_written(cache: &mut Cache, number: usize) -> bool {
    insert(cache) == Some(number)
        && cache
            .deques
            .push_back_wo(KeyHashDate::new(number), &mut cache.entries)
            .is_ok()
}

/// The entry's node in order of writes.
fn written_node(cache: &Cache, entry: usize) -> Option<NodeId> {
    match cache.entries.get(entry) {
        Some(slot) => slot.nodes.write_queue,
        None => None,
    }
}

fn unlink_written_as_used(cache: &mut Cache, entry: usize) -> Option<Result<(), Stale>> {
    match written_node(cache, entry) {
        Some(node) => Some(cache.deques.unlink_node_ao(node)),
        None => None,
    }
}

fn unlink_written_node(cache: &mut Cache, entry: usize) -> Option<Result<(), Stale>> {
    match written_node(cache, entry) {
        Some(node) => Some(Deques::<u8>::unlink_node_wo(cache.deques.select_mut(WRITTEN), node)),
        None => None,
    }
}

fn use_in_deque(cache: &mut Cache, entry: usize) -> Result<(), Stale> {
    let queue = cache.deques.select_mut(PROBATION);
    Deques::move_to_back_ao_in_deque(queue, entry, &cache.entries)
}

fn write_in_deque(cache: &mut Cache, entry: usize) -> Result<(), Stale> {
    let queue = cache.deques.select_mut(WRITTEN);
    Deques::move_to_back_wo_in_deque(queue, entry, &cache.entries)
}

fn unlink_used_in_deque(cache: &mut Cache, entry: usize) -> Result<(), Stale> {
    let queue = cache.deques.select_mut(PROBATION);
    Deques::unlink_ao_from_deque(queue, entry, &mut cache.entries)
}

fn unlink_written_in_deque(cache: &mut Cache, entry: usize) -> Result<(), Stale> {
    let queue = cache.deques.select_mut(WRITTEN);
    Deques::unlink_wo(queue, entry, &mut cache.entries)
}

/// Does what changes an entry's place, and returns whether the result was the expected one.
fn changes_so(cache: &mut Cache, act: Act) -> bool {
    match act {
        Act::Add(number) => add(cache, number),
        Act::Reserve(n) => reserve(&mut cache.deques, n),
        Act::AddWritten(number) => add_written(cache, number),
        Act::Use(entry, wanted) => cache.deques.move_to_back_ao(entry, &cache.entries) == wanted,
        Act::Write(entry, wanted) => cache.deques.move_to_back_wo(entry, &cache.entries) == wanted,
        Act::UnlinkUsed(entry, wanted) => {
            cache.deques.unlink_ao(entry, &mut cache.entries) == wanted
        }
        Act::UseInDeque(entry, wanted) => use_in_deque(cache, entry) == wanted,
        Act::WriteInDeque(entry, wanted) => write_in_deque(cache, entry) == wanted,
        Act::UnlinkUsedInDeque(entry, wanted) => unlink_used_in_deque(cache, entry) == wanted,
        Act::UnlinkWrittenInDeque(entry, wanted) => unlink_written_in_deque(cache, entry) == wanted,
        Act::UnlinkWrittenAsUsed(entry, wanted) => unlink_written_as_used(cache, entry) == wanted,
        Act::UnlinkWrittenNode(entry, wanted) => unlink_written_node(cache, entry) == wanted,
        act => shows_so(cache, act),
    }
}

/// The number of a node's entry.
fn entry_of(node: Option<KeyHashDate>) -> Option<usize> {
    match node {
        Some(node) => Some(node.entry),
        None => None,
    }
}

/// Looks or walks, and returns whether the result was the expected one.
fn shows_so(cache: &mut Cache, act: Act) -> bool {
    match act {
        Act::ResetCursor => {
            cache.deques.reset_cursor(WRITTEN);
            true
        }
        Act::Next(region, wanted) => entry_of(cache.deques.next(region)) == wanted,
        Act::Pop(region, wanted) => entry_of(cache.deques.pop_front(region)) == wanted,
        Act::Front(region, wanted) => {
            entry_of(cache.deques.peek_front(region).copied()) == wanted
        }
        Act::Back(region, wanted) => entry_of(cache.deques.peek_back(region).copied()) == wanted,
        Act::Len(region, wanted) => {
            cache.deques.len(region) == wanted && cache.deques.select(region).len() == wanted
        }
        _ => false,
    }
}

impl Stage<Act> for Cache {
    fn new(alloc: Global) -> Option<Self> {
        Some(new_cache(alloc))
    }

    fn plays(&mut self, act: &Act) -> bool {
        changes_so(self, *act)
    }
}

const TABLES: &[Table<'_, Act>] = &[
    Table {
        name: "entries in order of use",
        rows: &[
            Act::Add(0),
            Act::Add(1),
            Act::Add(2),
            Act::Use(0, Ok(())),
            Act::Front(PROBATION, Some(1)),
            Act::Back(PROBATION, Some(0)),
            Act::Front(WRITTEN, Some(0)),
            Act::Len(CacheRegion::Window, 0),
            Act::Front(CacheRegion::Window, None),
        ],
    },
    Table {
        name: "entries in order of writes",
        rows: &[
            Act::Add(0),
            Act::Add(1),
            Act::Add(2),
            Act::Write(1, Ok(())),
            Act::Next(WRITTEN, Some(0)),
            Act::Next(WRITTEN, Some(2)),
            Act::Next(WRITTEN, Some(1)),
            Act::Next(WRITTEN, None),
            Act::Next(WRITTEN, Some(0)),
            Act::ResetCursor,
            Act::Next(WRITTEN, Some(0)),
        ],
    },
    Table {
        name: "an entry that left one order stays in the other",
        rows: &[
            Act::Add(0),
            Act::Add(1),
            Act::Add(2),
            Act::UnlinkUsed(1, Ok(())),
            Act::UnlinkUsed(1, Ok(())),
            Act::Len(PROBATION, 2),
            Act::Len(WRITTEN, 3),
            Act::Use(1, Ok(())),
            Act::Back(PROBATION, Some(2)),
        ],
    },
    Table {
        name: "nodes of another queue are stale",
        rows: &[
            Act::Add(0),
            Act::Add(1),
            Act::UnlinkWrittenAsUsed(0, Some(Err(Stale))),
            Act::Len(WRITTEN, 2),
        ],
    },
    Table {
        name: "a popped node is stale",
        rows: &[
            Act::Add(0),
            Act::Add(1),
            Act::Pop(PROBATION, Some(0)),
            Act::Use(0, Err(Stale)),
            Act::UnlinkUsed(0, Err(Stale)),
            Act::Front(PROBATION, Some(1)),
        ],
    },
    Table {
        name: "calls on one queue",
        rows: &[
            Act::Add(0),
            Act::Add(1),
            Act::UseInDeque(0, Ok(())),
            Act::Front(PROBATION, Some(1)),
            Act::WriteInDeque(0, Ok(())),
            Act::Front(WRITTEN, Some(1)),
            Act::UnlinkUsedInDeque(1, Ok(())),
            Act::Front(PROBATION, Some(0)),
            Act::UnlinkWrittenInDeque(1, Ok(())),
            Act::UnlinkWrittenNode(0, Some(Ok(()))),
            Act::Len(WRITTEN, 0),
        ],
    },
    Table {
        name: "entries within a reservation",
        rows: &[
            Act::Reserve(9),
            Act::AddWritten(0),
            Act::AddWritten(1),
            Act::AddWritten(2),
            Act::AddWritten(3),
            Act::AddWritten(4),
            Act::AddWritten(5),
            Act::AddWritten(6),
            Act::AddWritten(7),
            Act::AddWritten(8),
            Act::Len(WRITTEN, 9),
        ],
    },
];

#[test]
fn entries_keep_both_orders(rt: HostRuntime) {
    assert_eq!(rt; first_wrong::<Cache, Act>(rt.alloc(), TABLES), None);
}
