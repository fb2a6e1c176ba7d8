//! Runs.
ghost use Rattle.std.specs.Prelude.{IfOk};
ghost use Rattle.engine_reference.specs.Soundness.{IsSound};

use engine_reference::{Bundle, EvictionPolicy, NoExpiry, NoPredicate, Settings, WeighOne};
use engine_runs::try_run;
use engine_tables::Tables;
use std::alloc::{AllocError, Global};
use std::hash::{BuildHasherDefault, FoldHasher};

type Folding = BuildHasherDefault<FoldHasher>;

type OneTable = Tables<u32, u32, Folding, Bundle<NoExpiry, WeighOne, NoPredicate, u8>>;

const SETTINGS: Settings = Settings {
    capacity: Some(1),
    live: None,
    idle: None,
    policy: EvictionPolicy::TinyLfu,
    tells: true,
    takes_predicates: false,
    made: 0,
};

/// New tables.
fn tables_of(
    alloc: Global,
    hasher: Folding,
    rules: Bundle<NoExpiry, WeighOne, NoPredicate, u8>,
) -> Result<OneTable, AllocError>
    ensures { IfOk result (λ made. ∥ IsSound made.state ∥₁) }
{
    Tables::new(alloc, None, SETTINGS, hasher, rules)
}

/// New tables, on the second attempt if memory is refused.
fn made(alloc: Global) -> Result<OneTable, AllocError>
    ensures { IfOk result (λ made. ∥ IsSound made.state ∥₁) }
{
    match tables_of(alloc, Folding::new(), Bundle::new(NoExpiry, WeighOne)) {
        Ok(tables) => Ok(tables),
        Err(_) => tables_of(alloc, Folding::new(), Bundle::new(NoExpiry, WeighOne)),
    }
}

/// Runs, on the second attempt if memory is refused.
fn run(tables: &mut OneTable) -> Result<(), AllocError>
    requires { ∥ IsSound tables.old.state ∥₁ }
{
    match try_run(tables, 5) {
        Ok(()) => Ok(()),
        Err(_) => try_run(tables, 5),
    }
}

/// A first run where half the capacity is held finds memory, has its moment, and makes the sketch's
/// table.
fn makes_table(tables: &mut OneTable) -> bool
    requires { ∥ IsSound tables.old.state ∥₁ }
{
    run(tables) == Ok(()) && tables.ran() == 5 && tables.sketch().has_table()
}

fn new_make_table(alloc: Global) -> bool {
    match made(alloc) {
        Ok(mut tables) => makes_table(&mut tables),
        Err(_) => false,
    }
}

#[test]
fn a_run_makes_the_table_of_the_sketch(rt: HostRuntime) {
    assert!(rt; new_make_table(rt.alloc()));
}
