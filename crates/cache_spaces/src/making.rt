//! Creating the namespaces of a service.
ghost use Rattle.std.specs.Prelude.{◌≡◌, ◌<◌, ◌^◌, IfOk, IsTrue};
ghost use Rattle.std.specs.List.{list_all};
ghost use Rattle.cache_spaces.specs.Services.{is_served, AreNewSpaces, IsNewNamespace, are_taken};

use crate::service::SpaceStore;
use crate::tapes::NewTape;
use audit_model::{Config, Instant};
use cache_commands::Store;
use cache_core::Namespace;
use cache_front::{FrontStore, KeyedHasher};
use rand_core::{Rng, SeedableRng};
use rand_xoshiro::Xoshiro256PlusPlus;
use std::alloc::{AllocError, Global};

/// The maximum number of namespaces of a service.
const MOST: usize = 16;

/// The number of bytes of a hasher's secret.
const SECRET: usize = 16;

/// Returns whether a service accepts these configurations: 1 to 16 of them, each in range.
pub fn are_taken(configs: &[Config]) -> bool
    ensures { result ≡ are_taken configs.now }
{
    !configs.is_empty() && configs.len() <= MOST && are_served(configs)
}

/// Whether each of the configurations is in range.
fn are_served(configs: &[Config]) -> bool
    ensures { result ≡ list_all is_served configs.now }
{
    for config in configs {
        if !config.is_valid() {
            return false;
        }
    }
    true
}

/// Creates namespaces with these configurations, in their order, each with a fork of the generator. Returns `OutOfMemory` if there is not
/// enough memory.
pub fn new_spaces<T: NewTape>(
    alloc: Global,
    configs: &[Config],
    generator: Xoshiro256PlusPlus,
    made: Instant,
) -> Result<Vec<Namespace<SpaceStore, T>>, AllocError>
    requires configs { IsTrue (list_all is_served configs.now) }
    requires moment { made.nanos < 2 ^ 63 }
    ensures { IfOk result (λ spaces. AreNewSpaces T.Tape.view (T.blank made) spaces.items
        configs.now generator made.nanos) }
{
    let mut generator = generator;
    let mut spaces = Vec::with_capacity(alloc, configs.len())?;
    for config in configs {
        let namespace = spaces.len() as u64;
        spaces.push(new_space(alloc, namespace, *config, generator.fork(), made)?)?;
    }
    Ok(spaces)
}

/// A namespace without connections, loads and values, with a generator of its own; its place in the service.
fn new_space<T: NewTape>(
    alloc: Global,
    namespace: u64,
    config: Config,
    generator: Xoshiro256PlusPlus,
    made: Instant,
) -> Result<Namespace<SpaceStore, T>, AllocError>
    requires config { IsTrue (is_served config) }
    requires moment { made.nanos < 2 ^ 63 }
    ensures { IfOk result (λ space. IsNewNamespace T.Tape.view (T.blank made) space namespace config
        generator made.nanos) }
{
    let hasher = keyed_by(&generator)?;
    let store = FrontStore::new(alloc, config, made.nanos, generator, hasher)?;
    store.sound();
    Namespace::new(alloc, namespace, store, T::make(alloc, made), made.nanos)
}

/// A hasher that others cannot predict: its secret comes long after the numbers that the generator gives itself.
fn keyed_by(generator: &Xoshiro256PlusPlus) -> Result<KeyedHasher, AllocError> {
    let mut far = generator.clone()?;
    far.long_jump();
    let mut secret = [0; SECRET];
    far.fill_bytes(&mut secret);
    Ok(KeyedHasher::new(&secret))
}
