//! All that is in a cache.
use crate::caches::{Stage, passes};
use crate::plain::PlainPlay;
use crate::rows::{Plain, Row, plain_are_so};
use moka_sync::{CacheError, Env, PlainCache};
use std::sync::Wait;

// example: iteration
/// Amounts by account.
type Amounts<E> = PlainCache<u64, u64, E>;

/// The sum of the amounts of all accounts from a number on.
fn sum_from<H: Wait, E: Env + Drop>(
    rt: &H,
    amounts: &Amounts<E>,
    first: u64,
) -> Result<u64, CacheError> {
    let mut sum: u64 = 0;
    for item in amounts.iter(rt) {
        let (account, amount) = item?;
        if first <= *account {
            sum = sum.saturating_add(amount);
        }
    }
    Ok(sum)
}
// end

const THREE: &[Row] = &[Row::Insert(1, 10), Row::Insert(2, 20), Row::Insert(3, 30)];

/// Whether the amounts of two of three accounts are summed.
pub fn sums<H: Wait>(rt: &H, stage: &Stage<Plain>) -> bool {
    plain_are_so(rt, stage, THREE) && sum_from(rt, &stage.cache, 2) == Ok(50)
}

#[test]
fn amounts_are_summed(rt: HostRuntime) {
    assert!(rt; passes(&rt, rt.alloc(), &PlainPlay::Summing));
}
