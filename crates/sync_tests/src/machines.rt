//! The environment of the machine.
use moka_sync::{Env, MachineEnv, Watch};
use rand_core::{Rng, SeedableRng};
use rand_xoshiro::Xoshiro256PlusPlus;
use std::random::RandomSource;
use std::time::Clock;

/// The first word of an environment, if its moments do not fall.
fn word_of<E: Env>(env: E) -> Option<u64> {
    let first = env.now();
    let (watch, mut generator) = env.split();
    if first <= watch.now() {
        Some(generator.next_u64())
    } else {
        None
    }
}

/// Whether an environment gives the words of the generator that was handed in.
fn gives_words<C: Clock + Drop>(clock: C) -> bool {
    let mut generator = Xoshiro256PlusPlus::seed_from_u64(7);
    match MachineEnv::with_generator(clock, Xoshiro256PlusPlus::seed_from_u64(7)) {
        Ok(env) => word_of(env) == Some(generator.next_u64()),
        Err(_) => false,
    }
}

/// The first word of a new environment of the machine.
fn word_anew<C: Clock + RandomSource + Drop>(rt: C) -> Option<u64> {
    match MachineEnv::new(rt) {
        Ok(env) => word_of(env),
        Err(_) => None,
    }
}

/// Whether two environments of the machine give other words than one another.
fn differ<C: Clock + RandomSource + Copy + Drop>(rt: C) -> bool {
    match (word_anew(rt), word_anew(rt)) {
        (Some(word), Some(another)) => word != another,
        _ => false,
    }
}

#[test]
fn the_machine_gives_moments_and_words(rt: HostRuntime) {
    assert!(rt; gives_words(rt) && differ(rt));
}
