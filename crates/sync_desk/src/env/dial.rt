//! A clock that is set by hand.
ghost use Rattle.std.specs.Prelude.{◌≡◌, ◌≤◌};

use crate::env::env::{Env, Watch};
use crate::env::fork::Fork;
use policy_base::{Instant, MAX_NANOS};
use rand_core::{Rng, SeedableRng};
use std::alloc::AllocError;
use std::sync::Arc;
use std::sync::atomic::{AtomicU64, Ordering};

/// A moment that any thread can set by hand, and how often it was read. For tests.
#[derive(Drop)]
pub struct Dial {
    nanos: AtomicU64,
    readings: AtomicU64,
}

impl Dial {
    /// Creates a dial at moment 0 that was never read.
    pub fn new() -> Self {
        Dial {
            nanos: AtomicU64::new(0),
            readings: AtomicU64::new(0),
        }
    }

    /// Sets the moment, in nanoseconds. 2^64 - 1 counts as 2^64 - 2, the last moment that there is.
    pub fn set(&self, nanos: u64) {
        self.nanos.store(nanos, Ordering::SeqCst);
    }

    /// Returns how often the dial was read. A call of a cache reads the dial before it takes the cache's lock. So if the count rises, a call
    /// has its moment, but may have done nothing yet.
    pub fn readings(&self) -> u64 {
        self.readings.load(Ordering::SeqCst)
    }

    /// The moment; counts one more reading.
    fn read(&self) -> Instant {
        let nanos = self.nanos.load(Ordering::SeqCst);
        self.readings.fetch_add(1, Ordering::SeqCst);
        Instant::from_nanos(nanos.min(MAX_NANOS))
    }
}

/// An environment with the moments of a dial, and a generator.
#[derive(Drop)]
pub struct DialEnv<G> {
    dial: Arc<Dial>,
    generator: G,
}

impl<G> DialEnv<G> {
    /// Creates an environment with the moments of this dial.
    pub fn new(dial: Arc<Dial>, generator: G) -> Self
        ensures { result.generator ≡ generator }
    {
        DialEnv { dial, generator }
    }
}

impl Watch for Arc<Dial> {
    fn now(&self) -> Instant {
        self.read()
    }
}

impl<G> Watch for DialEnv<G> {
    fn now(&self) -> Instant {
        self.dial.read()
    }
}

impl<G: Rng + Drop> Env for DialEnv<G> {
    type Watch = Arc<Dial>;

    type Generator = G;

    fn split(self) -> (Arc<Dial>, G)
        ensures watch { result.0 ≡ self.dial }
        ensures generator { result.1 ≡ self.generator }
    {
        let DialEnv { dial, generator } = self;
        (dial, generator)
    }
}

impl<G: Rng + SeedableRng + Drop> Fork for DialEnv<G> {
    fn fork(&mut self) -> Result<Self, AllocError> {
        Ok(DialEnv {
            dial: Arc::try_clone(&self.dial)?,
            generator: self.generator.fork(),
        })
    }
}
