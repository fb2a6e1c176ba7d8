//! What a store keeps of a key, the empty one too, and that a call that is refused changes nothing.
ghost use Rattle.std.specs.Prelude.{◌≡◌, ◌≤◌, ◌<◌, ◌^◌};
ghost use Rattle.audit_model.specs.History.{accepts_values};

use crate::rows::PLAIN;
use audit_model::{Config, Key, Weight};
use cache_commands::Store;
use cache_front::{FrontStore, KeyedHasher};
use rand_core::SeedableRng;
use rand_xoshiro::SplitMix64;
use std::alloc::{AllocError, Global};

const BYTES: Config = Config {
    weight: Weight::Bytes,
    own_deadlines: true,
    ..PLAIN
};

fn takes_values(capacity: Option<u64>) -> bool
    ensures { result ≡ accepts_values capacity }
{
    match capacity {
        Some(limit) => limit > 0,
        None => true,
    }
}

/// The part in which a value is accepted, if it is in range.
pub fn part_taking<S: Store>(
    store: &mut S,
    config: &Config,
    now: u64,
    key: &Key,
    value: &[u8],
) -> Option<u64>
    requires config { (S.view store.old).frame.config ≡ config.now }
    requires in_time { (S.view store.old).frame.latest ≤ now }
    requires moment { now < 2 ^ 63 }
    ensures config { (S.view store.new).frame.config ≡ config.now }
    ensures in_time { (S.view store.new).frame.latest ≤ now }
{
    if !takes_values(config.capacity) || value.len() > 8192 {
        return None;
    }
    store.accept(key, value, None, now).ok()
}

/// Whether a value is accepted in the first part.
fn accepts<S: Store>(store: &mut S, config: &Config, now: u64, key: &Key, value: &[u8]) -> bool
    requires config { (S.view store.old).frame.config ≡ config.now }
    requires in_time { (S.view store.old).frame.latest ≤ now }
    requires moment { now < 2 ^ 63 }
    ensures config { (S.view store.new).frame.config ≡ config.now }
    ensures in_time { (S.view store.new).frame.latest ≤ now }
{
    part_taking(store, config, now, key, value) == Some(0)
}

/// Accepts a value of a key. Where memory is wanted for it, so many values are held as before, the key has the value that it had, and
/// nothing was told; then the second try accepts it.
fn accepts_at_last<S: Store>(
    store: &mut S,
    config: &Config,
    now: u64,
    key: &Key,
    value: &[u8],
    held: usize,
    before: Option<&[u8]>,
) -> bool
    requires config { (S.view store.old).frame.config ≡ config.now }
    requires in_time { (S.view store.old).frame.latest ≤ now }
    requires moment { now < 2 ^ 63 }
    ensures config { (S.view store.new).frame.config ≡ config.now }
    ensures in_time { (S.view store.new).frame.latest ≤ now }
{
    accepts(store, config, now, key, value)
        || (store.len() == held
            && store.next_notice().is_none()
            && store.peek(key, now) == before
            && accepts(store, config, now, key, value))
}

/// Whether two values of a key are accepted, and a refusal changes nothing.
fn replaces<S: Store>(store: &mut S, config: &Config, key: &mut Key) -> bool
    requires config { (S.view store.old).frame.config ≡ config.now }
    requires in_time { (S.view store.old).frame.latest ≤ 5 }
{
    key.fill(b"key").is_ok()
        && accepts_at_last(store, config, 5, key, b"one", 0, None)
        && accepts_at_last(store, config, 5, key, b"two", 1, Some(b"one"))
        && store.peek(key, 5) == Some(b"two".as_slice())
}

/// The same of a new store.
fn replaces_in_new(alloc: Global, key: &mut Key) -> Result<bool, AllocError> {
    let generator = SplitMix64::seed_from_u64(1);
    let hasher = KeyedHasher::new(b"sixteen bytes ...");
    let mut store = FrontStore::new(alloc, BYTES, 0, generator, hasher)?;
    Ok(replaces(&mut store, &BYTES, key))
}

/// The same with a new key.
fn replaces_anew(alloc: Global) -> Result<bool, AllocError> {
    let mut key = Key::with_capacity(alloc, 250)?;
    replaces_in_new(alloc, &mut key)
}

/// The same, at the second try where there is no memory for the store or the key, and only there: a store that a refused call has
/// changed does not come so far.
fn replaces_at_last(alloc: Global) -> bool {
    match replaces_anew(alloc) {
        Ok(replaced) => replaced,
        Err(_) => replaces_anew(alloc) == Ok(true),
    }
}

// for `tools/refuse_allocations.py`: a call that is refused is tried again in the same store
#[test]
fn a_refused_call_changes_nothing(rt: HostRuntime) {
    assert!(rt; replaces_at_last(rt.alloc()));
}

/// Whether that is found of a key.
fn finds<S: Store>(store: &S, now: u64, key: &mut Key, name: &[u8], wanted: Option<&[u8]>) -> bool
    requires in_time { (S.view store.now).frame.latest ≤ now }
    requires moment { now < 2 ^ 63 }
{
    key.fill(name).is_ok() && store.peek(key, now) == wanted
}

/// Copies what was found behind `output`, where it is what is wanted.
fn copies(
    found: Option<&[u8]>,
    wanted: Option<&[u8]>,
    output: &mut Vec<u8>,
) -> Result<(), AllocError> {
    if found != wanted {
        return Err(AllocError);
    }
    match found {
        Some(bytes) => output.extend_from_slice(bytes),
        None => Ok(()),
    }
}

/// The same, and it is a use of it; the bytes go behind `output`.
fn looks_up<S: Store>(
    store: &mut S,
    config: &Config,
    now: u64,
    key: &mut Key,
    name: &[u8],
    wanted: Option<&[u8]>,
    output: &mut Vec<u8>,
) -> bool
    requires config { (S.view store.old).frame.config ≡ config.now }
    requires in_time { (S.view store.old).frame.latest ≤ now }
    requires moment { now < 2 ^ 63 }
    ensures config { (S.view store.new).frame.config ≡ config.now }
    ensures in_time { (S.view store.new).frame.latest ≤ now }
{
    key.fill(name).is_ok()
        && store
            .look_up(
                key,
                now,
                output,
                |found, output| copies(found, wanted, output),
            )
            .is_ok()
}

/// Whether a run leaves so many values, which weigh that much.
fn runs<S: Store>(store: &mut S, now: u64, number: u64, weight: u64) -> bool
    requires in_time { (S.view store.old).frame.latest ≤ now }
    requires moment { now < 2 ^ 63 }
{
    let counts = store.run_all(now);
    counts.number == number && counts.weight == weight && store.len() as u64 == number
}

/// Whether values of a key and of the empty key are accepted and found.
fn gives_back<S: Store>(store: &mut S, config: &Config, key: &mut Key, output: &mut Vec<u8>) -> bool
    requires config { (S.view store.old).frame.config ≡ config.now }
    requires in_time { (S.view store.old).frame.latest ≤ 5 }
{
    key.fill(b"key").is_ok()
        && accepts(store, config, 5, key, b"one")
        && key.fill(b"").is_ok()
        && accepts(store, config, 6, key, b"")
        && looks_up(store, config, 7, key, b"key", Some(b"one"), output)
        && looks_up(store, config, 7, key, b"ke", None, output)
        && looks_up(store, config, 7, key, b"", Some(b""), output)
        && output.as_slice() == b"one".as_slice()
        && store.next_notice().is_none()
        && runs(store, 7, 2, 3)
}

/// The same of a new store.
fn gives_back_in_new(alloc: Global, key: &mut Key, output: &mut Vec<u8>) -> bool {
    let generator = SplitMix64::seed_from_u64(1);
    let hasher = KeyedHasher::new(b"sixteen bytes ...");
    match FrontStore::new(alloc, BYTES, 0, generator, hasher) {
        Ok(mut store) => gives_back(&mut store, &BYTES, key, output),
        Err(_) => false,
    }
}

/// The same with a new key.
fn gives_back_anew(alloc: Global) -> Result<bool, AllocError> {
    let mut key = Key::with_capacity(alloc, 250)?;
    let mut output = Vec::new(alloc);
    Ok(gives_back_in_new(alloc, &mut key, &mut output))
}

#[test]
fn gives_back_what_it_accepted(rt: HostRuntime) {
    assert!(rt; gives_back_anew(rt.alloc()) == Ok(true) || gives_back_anew(rt.alloc()) == Ok(true));
}
