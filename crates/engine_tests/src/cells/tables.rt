//! Tables.
use engine_reference::{
    Bundle, EvictionPolicy, NoExpiry, NoPredicate, Refusal, Settings, WeighOne,
};
use engine_tables::Tables;
use std::alloc::{AllocError, Global};
use std::hash::{BuildHasherDefault, FoldHasher};

type Folding = BuildHasherDefault<FoldHasher>;

type OneTable = Tables<u32, u32, Folding, Bundle<NoExpiry, WeighOne, NoPredicate, u8>>;

const SETTINGS: Settings = Settings {
    capacity: Some(4),
    live: None,
    idle: None,
    policy: EvictionPolicy::Lru,
    tells: true,
    takes_predicates: false,
    made: 0,
};

/// New tables.
fn made_once(alloc: Global) -> Result<OneTable, AllocError> {
    Tables::new(
        alloc,
        None,
        SETTINGS,
        Folding::new(),
        Bundle::new(NoExpiry, WeighOne),
    )
}

/// The same, at the second try where memory is refused.
fn made(alloc: Global) -> Result<OneTable, AllocError> {
    match made_once(alloc) {
        Ok(tables) => Ok(tables),
        Err(_) => made_once(alloc),
    }
}

/// Whether there is room, at the second try where memory is refused.
fn has_room(tables: &mut OneTable) -> bool {
    tables.make_room(2).is_ok() || tables.make_room(2).is_ok()
}

/// There is room for two writes, and more than there are tickets is refused.
fn makes_room(tables: &mut OneTable) -> bool {
    has_room(tables) && tables.make_room(u64::MAX) == Err(Refusal::UsedUp)
}

/// Whether the sketch's table is made, at the second try where memory is refused.
fn makes_table(tables: &mut OneTable) -> bool {
    tables.make_table(16).is_ok() || tables.make_table(16).is_ok()
}

/// What tables hold: their weight, the place used longest ago, and the first that is due.
fn held(tables: &OneTable) -> (u64, Option<usize>, Option<usize>) {
    (tables.held_weight(), tables.oldest(), tables.first_due(0))
}

/// New tables hold nothing, have room for writes, and make the table of the sketch.
fn are_right(tables: &mut OneTable) -> bool {
    held(tables) == (0, None, None) && makes_room(tables) && makes_table(tables)
}

fn new_are_right(alloc: Global) -> bool {
    match made(alloc) {
        Ok(mut tables) => are_right(&mut tables),
        Err(_) => false,
    }
}

#[test]
fn new_tables(rt: HostRuntime) {
    assert!(rt; new_are_right(rt.alloc()));
}
