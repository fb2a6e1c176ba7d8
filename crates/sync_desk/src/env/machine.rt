//! The machine's clock and a generator.
ghost use Rattle.std.specs.Prelude.{◌≡◌, ◌≤◌, IfOk};

use crate::env::env::{Env, Watch};
use crate::env::fork::Fork;
use policy_base::Instant;
use rand_core::{Rng, SeedableRng};
use rand_xoshiro::Xoshiro256PlusPlus;
use std::alloc::AllocError;
use std::random::RandomSource;
use std::time::Clock;
use std::{io, time};

/// Reads the machine's clock. Moments count the nanoseconds since the environment was created. If the clock cannot be read, the moment is 0,
/// which a cache treats as its last.
#[derive(Drop)]
pub struct MachineWatch<C> {
    clock: C,
    start: time::Instant,
}

impl<C: Clock> Watch for MachineWatch<C> {
    fn now(&self) -> Instant {
        match self.start.elapsed(&self.clock) {
            Ok(passed) => Instant::from_duration_since_clock_start(passed),
            Err(_) => Instant::from_nanos(0),
        }
    }
}

/// The machine's clock (`MachineWatch`) and a generator.
///
/// The identifiers of predicates come from the generator. If others must not be able to predict one from those before it, use a secure
/// generator with a secret seed (`with_generator`).
#[derive(Drop)]
pub struct MachineEnv<C, G = Xoshiro256PlusPlus> {
    watch: MachineWatch<C>,
    generator: G,
}

impl<C: Clock + RandomSource + Drop> MachineEnv<C, Xoshiro256PlusPlus> {
    /// Creates an environment whose moments count from now on, with a generator that the machine's random source seeds. Returns an error if
    /// the clock or the random source cannot be read. `RandomState::new(&rt)?` is a hasher that the same source seeds, for
    /// `build_with_hasher`.
    /// ```
    /// let cache: PlainCache<u64, u64, _> = Cache::new(rt.alloc(), 10_000, MachineEnv::new(rt)?)?;
    /// ```
    pub fn new(rt: C) -> io::Result<Self> {
        let mut seed = [0; 32];
        rt.fill_bytes(&mut seed)?;
        MachineEnv::with_generator(rt, Xoshiro256PlusPlus::from_seed(seed))
    }
}

impl<C: Clock, G> MachineEnv<C, G> {
    /// Creates an environment whose moments count from now on, with this generator. Returns an error if the clock cannot be read.
    pub fn with_generator(clock: C, generator: G) -> io::Result<Self>
    where
        C: Drop,
        G: Drop,
        ensures { IfOk result (λ env. env.generator ≡ generator) }
    {
        let start = time::Instant::now(&clock)?;
        let watch = MachineWatch { clock, start };
        Ok(MachineEnv { watch, generator })
    }
}

impl<C: Clock, G> Watch for MachineEnv<C, G> {
    fn now(&self) -> Instant {
        self.watch.now()
    }
}

impl<C: Clock + Drop, G: Rng + Drop> Env for MachineEnv<C, G> {
    type Watch = MachineWatch<C>;

    type Generator = G;

    fn split(self) -> (MachineWatch<C>, G)
        ensures watch { result.0 ≡ self.watch }
        ensures generator { result.1 ≡ self.generator }
    {
        let MachineEnv { watch, generator } = self;
        (watch, generator)
    }
}

impl<C: Clock + Copy + Drop, G: Rng + SeedableRng + Drop> Fork for MachineEnv<C, G> {
    fn fork(&mut self) -> Result<Self, AllocError> {
        let watch = MachineWatch {
            clock: self.watch.clock,
            start: self.watch.start,
        };
        Ok(MachineEnv {
            watch,
            generator: self.generator.fork(),
        })
    }
}
