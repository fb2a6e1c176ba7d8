//! Caches of numbers under numbers, of any form and by any rules, as the rows call them.
use crate::caches::Visible;
use moka_sync::{CacheError, ConcurrentCacheExt, Env, Notice, Rules, Shared, SharedCache};
use std::hash::BuildHasher;
use std::sync::Wait;

/// The report of a number that left.
pub type Told = Notice<Shared<u64>, u64>;

/// What every cache of numbers can do.
pub trait Numbers: Visible {
    fn put<H: Wait>(&self, rt: &H, key: u64, value: u64) -> Result<(), CacheError>;

    fn take_out<H: Wait>(&self, rt: &H, key: u64) -> Result<Option<u64>, CacheError>;

    fn take_back<H: Wait>(&self, rt: &H, key: u64) -> Result<(), CacheError>;

    fn clear<H: Wait>(&self, rt: &H) -> Result<(), CacheError>;

    fn run<H: Wait>(&self, rt: &H) -> Result<(), CacheError>;

    /// The same by its older name, `sync`.
    fn run_as_sync<H: Wait>(&self, rt: &H) -> Result<(), CacheError>;

    /// How many segments or shards it shows.
    fn parts(&self) -> usize;

    fn count<H: Wait>(&self, rt: &H) -> u64;

    fn weight<H: Wait>(&self, rt: &H) -> u64;

    /// The oldest report.
    fn tell<H: Wait>(&self, rt: &H) -> Option<Told>;

    /// As many reports as a vector has room for.
    fn tell_all<H: Wait>(&self, rt: &H, told: &mut Vec<Told>);

    /// `get_with`.
    fn make<H: Wait, M: FnOnce() -> u64 + Drop>(
        &self,
        rt: &H,
        key: u64,
        make: M,
    ) -> Result<u64, CacheError>
        requires { M.IsAlwaysCallable make };

    /// `get_with_if`.
    fn make_if<H: Wait, M: FnOnce() -> u64 + Drop, P: Fn(&u64) -> bool + Drop>(
        &self,
        rt: &H,
        key: u64,
        make: M,
        replace_if: P,
    ) -> Result<u64, CacheError>
        requires { P.IsAlwaysCallable replace_if × M.IsAlwaysCallable make };

    /// `optionally_get_with`.
    fn make_or_none<H: Wait, M: FnOnce() -> Option<u64> + Drop>(
        &self,
        rt: &H,
        key: u64,
        make: M,
    ) -> Result<Option<u64>, CacheError>
        requires { M.IsAlwaysCallable make };
}

impl<S: BuildHasher + Drop, R: Rules<u64, u64> + Drop, E: Env + Drop, C: Drop> Visible
    for SharedCache<u64, u64, S, R, E, C> {
    fn find<H: Wait>(&self, rt: &H, key: u64) -> Result<Option<u64>, CacheError> {
        self.get(rt, &key)
    }

    fn has<H: Wait>(&self, rt: &H, key: u64) -> bool {
        self.contains_key(rt, &key)
    }
}

impl<S: BuildHasher + Drop, R: Rules<u64, u64> + Drop, E: Env + Drop, C: Drop> Numbers
    for SharedCache<u64, u64, S, R, E, C> {
    fn put<H: Wait>(&self, rt: &H, key: u64, value: u64) -> Result<(), CacheError> {
        self.insert(rt, key, value)
    }

    fn take_out<H: Wait>(&self, rt: &H, key: u64) -> Result<Option<u64>, CacheError> {
        self.remove(rt, &key)
    }

    fn take_back<H: Wait>(&self, rt: &H, key: u64) -> Result<(), CacheError> {
        self.invalidate(rt, &key)
    }

    fn clear<H: Wait>(&self, rt: &H) -> Result<(), CacheError> {
        self.invalidate_all(rt)
    }

    fn run<H: Wait>(&self, rt: &H) -> Result<(), CacheError> {
        self.run_pending_tasks(rt)
    }

    fn run_as_sync<H: Wait>(&self, rt: &H) -> Result<(), CacheError> {
        self.sync(rt)
    }

    fn parts(&self) -> usize {
        self.policy().num_segments()
    }

    fn count<H: Wait>(&self, rt: &H) -> u64 {
        self.entry_count(rt)
    }

    fn weight<H: Wait>(&self, rt: &H) -> u64 {
        self.weighted_size(rt)
    }

    fn tell<H: Wait>(&self, rt: &H) -> Option<Told> {
        self.next_notice(rt)
    }

    fn tell_all<H: Wait>(&self, rt: &H, told: &mut Vec<Told>) {
        self.take_notices(rt, told)
    }

    fn make<H: Wait, M: FnOnce() -> u64 + Drop>(
        &self,
        rt: &H,
        key: u64,
        make: M,
    ) -> Result<u64, CacheError> {
        self.get_with(rt, key, make)
    }

    fn make_if<H: Wait, M: FnOnce() -> u64 + Drop, P: Fn(&u64) -> bool + Drop>(
        &self,
        rt: &H,
        key: u64,
        make: M,
        replace_if: P,
    ) -> Result<u64, CacheError> {
        self.get_with_if(rt, key, make, replace_if)
    }

    fn make_or_none<H: Wait, M: FnOnce() -> Option<u64> + Drop>(
        &self,
        rt: &H,
        key: u64,
        make: M,
    ) -> Result<Option<u64>, CacheError> {
        self.optionally_get_with(rt, key, make)
    }
}
