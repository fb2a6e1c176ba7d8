//! Devices for tests.
use audit_model::{Note, Outcome};
use cache_run::{Clock, Loader};
use cache_service::{Devices, Teller};
use std::alloc::Global;
use std::sync::atomic::{AtomicU64, Ordering};
use std::sync::{Arc, Wait};

/// A clock that stands at 0.
#[derive(Clone, Copy, Drop)]
pub struct StillClock;

impl Clock for StillClock {
    ghost reads = { λ c t d. Unit {0} };

    fn now(&mut self) -> u64 {
        0
    }
}

/// A loader that answers nothing.
#[derive(Clone, Copy, Drop)]
pub struct NoLoader;

impl Loader for NoLoader {
    ghost loads = { λ c key answer d. Unit {0} };

    fn load(&mut self, key: &[u8]) -> Option<Outcome> {
        let _key = key;
        None
    }
}

/// Counts what is told.
#[derive(Drop)]
pub struct Counter {
    told: Arc<AtomicU64>,
}

impl Teller for Counter {
    ghost tells = { λ before notes after. Unit {0} };

    fn is_told(&self) -> bool {
        true
    }

    fn tell<R: Wait>(&mut self, rt: &R, notes: &[Note]) {
        let _rt = rt;
        self.told.fetch_add(notes.len() as u64, Ordering::SeqCst);
    }
}

/// Makes still clocks, loaders without answers, and counters of one count.
#[derive(Drop)]
pub struct Plain {
    pub told: Arc<AtomicU64>,
}

impl Devices for Plain {
    type Clock = StillClock;

    type Loader = NoLoader;

    type Teller = Counter;

    fn make(&self, alloc: Global) -> Option<(StillClock, NoLoader, Counter)> {
        let _alloc = alloc;
        let told = Arc::try_clone(&self.told).ok()?;
        Some((StillClock, NoLoader, Counter { told }))
    }
}
