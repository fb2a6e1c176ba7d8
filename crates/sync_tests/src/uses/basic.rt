//! One cache, which two threads fill.
use crate::caches::{Moments, make_moments};
use moka_sync::{BuildError, Cache, CacheError, Env, MachineEnv, PlainCache};
use std::alloc::Global;
use std::random::RandomSource;
use std::sync::Wait;
use std::thread;
use std::thread::Threads;
use std::time::Clock;

// example: basic
/// Prices by article number.
type Prices<E> = PlainCache<u64, u64, E>;

/// An empty cache of at most five thousand prices. The machine's environment is `MachineEnv::new(rt)?`.
fn make_prices<E: Env + Drop>(alloc: Global, env: E) -> Result<Prices<E>, BuildError> {
    Cache::new(alloc, 5_000, env)
}

/// Inserts the prices of some articles.
fn fill<H: Wait, E: Env + Drop>(
    rt: &H,
    prices: &Prices<E>,
    articles: &[u64],
) -> Result<(), CacheError> {
    for article in articles {
        prices.insert(rt, *article, 100)?;
    }
    Ok(())
}

/// Two threads insert at the same time. Then one price is invalidated.
fn fill_twice<R: Threads + Wait + Sync, E: Env<Watch: Send + Sync, Generator: Send> + Drop + Send>(
    rt: &R,
    prices: &Prices<E>,
) -> Result<(), CacheError> {
    let (low, high) = thread::join(
        rt,
        || fill(rt, prices, &[1, 2, 3]),
        || fill(rt, prices, &[4, 5, 6]),
    );
    low?;
    high?;
    prices.invalidate(rt, &1)
}
// end

/// Whether the prices that were written can be read, but for the one that was taken back.
fn is_filled<R: Threads + Wait + Sync, E: Env<Watch: Send + Sync, Generator: Send> + Drop + Send>(
    rt: &R,
    prices: &Prices<E>,
) -> bool {
    fill_twice(rt, prices) == Ok(())
        && prices.get(rt, &1) == Ok(None)
        && prices.get(rt, &2) == Ok(Some(100))
        && prices.get(rt, &6) == Ok(Some(100))
}

/// The same of a cache, if it could be made.
fn is_made_and_filled<
    R: Threads + Wait + Sync,
    E: Env<Watch: Send + Sync, Generator: Send> + Drop + Send,
>(rt: &R, made: Result<Prices<E>, BuildError>) -> bool {
    match made {
        Ok(prices) => is_filled(rt, &prices),
        Err(_) => false,
    }
}

/// An empty cache, by the machine's clock.
fn make_by_machine<C: Clock + RandomSource + Drop>(
    alloc: Global,
    rt: C,
) -> Result<Prices<MachineEnv<C>>, BuildError> {
    match MachineEnv::new(rt) {
        Ok(env) => make_prices(alloc, env),
        Err(_) => Err(BuildError::OutOfMemory),
    }
}

/// An empty cache, by a clock that is set by hand.
fn make_by_hand(alloc: Global) -> Result<Prices<Moments>, BuildError> {
    match make_moments(alloc) {
        Some(moments) => make_prices(alloc, moments),
        None => Err(BuildError::OutOfMemory),
    }
}

/// The same of a new cache by each of these clocks.
fn is_filled_anew<R: Threads + Wait + Sync + Clock + RandomSource + Copy + Drop + Send>(
    rt: &R,
    alloc: Global,
) -> bool {
    is_made_and_filled(rt, make_by_machine(alloc, *rt))
        && is_made_and_filled(rt, make_by_hand(alloc))
}

#[test]
fn two_threads_fill(rt: HostRuntime) {
    assert!(rt; is_filled_anew(&rt, rt.alloc()) || is_filled_anew(&rt, rt.alloc()));
}
