//! Values whose making may fail.
use crate::caches::{Moments, Play, Stage, passes};
use moka_sync::{
    Build, BuildError, Bundle, Cache, CacheBuilder, CacheError, Env, NoExpiry, NoPredicate,
    StdHasher, WeighOne,
};
use std::alloc::Global;
use std::sync::{Arc, Wait};

// example: try_get_with
/// There is no such row.
#[derive(Clone, Copy, Debug, PartialEq, Eq, Drop)]
struct NoRow;

/// The rules of a cache of rows: making one may fail with `NoRow`.
type RowRules = Bundle<NoExpiry, WeighOne, NoPredicate, NoRow>;

/// Rows by their number.
type Rows<E> = Cache<u64, u64, StdHasher, RowRules, E>;

/// An empty cache of rows.
fn make_rows<E: Env + Drop>(alloc: Global, env: E) -> Result<Rows<E>, BuildError> {
    CacheBuilder::new(5_000).faults::<NoRow>().build(alloc, env)
}

/// The row with a number, from the cache or else from a table. If there is none, all waiting callers get `NoRow`, and nothing is stored.
fn find<H: Wait, E: Env + Drop>(
    rt: &H,
    rows: &Rows<E>,
    table: &[u64],
    number: u64,
) -> Result<Result<u64, Arc<NoRow>>, CacheError> {
    rows.try_get_with(rt, number, || -> Result<u64, NoRow> {
        match usize::try_from(number) {
            Ok(place) => table.get(place).copied().ok_or(NoRow),
            Err(_) => Err(NoRow),
        }
    })
}
// end

/// Whether a row is found, or is none.
fn is_found<H: Wait, E: Env + Drop>(rt: &H, rows: &Rows<E>, number: u64, row: Option<u64>) -> bool {
    match find(rt, rows, &[10, 11, 12], number) {
        Ok(Ok(found)) => row == Some(found),
        Ok(Err(fault)) => row.is_none() && *fault == NoRow,
        Err(_) => false,
    }
}

struct Finding;

impl<H: Wait> Play<H> for Finding {
    type Cache = Rows<Moments>;

    fn make(&self, _rt: &H, alloc: Global, moments: Moments) -> Result<Rows<Moments>, BuildError> {
        make_rows(alloc, moments)
    }

    fn plays(&self, rt: &H, stage: &Stage<Rows<Moments>>) -> bool {
        is_found(rt, &stage.cache, 2, Some(12)) && is_found(rt, &stage.cache, 3, None)
    }
}

#[test]
fn rows_are_found(rt: HostRuntime) {
    assert!(rt; passes(&rt, rt.alloc(), &Finding));
}
