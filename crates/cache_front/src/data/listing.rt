//! Live keys in byte order.
ghost use Rattle.std.specs.Prelude.{◌≡◌, ◌<◌, ◌^◌, ◌++◌, true, map, is_some, IfOk, OnOk, OnErr, slice_get};
ghost use Rattle.std.specs.List.{concat, filter};
ghost use Rattle.audit_model.specs.Bytewise.{text_line};
ghost use Rattle.audit_model.specs.Values.{sorted};
ghost use Rattle.cache_commands.specs.Among.{are_distinct};
ghost use Rattle.front_state.specs.Calls.{keys_of};
ghost use Rattle.cache_front.specs.Data.{hash_with};
ghost use Rattle.cache_front.specs.Listing.{held_by_all, is_seen, seen_by_all};

use crate::data::Front;
use audit_model::Key;
use front_parts::ScanningGet;
use front_reference::Shared;
use policy_base::Instant;
use std::alloc::{AllocError, Global};
use std::collections::BTreeMap;
use std::hash::{BuildHasher, Hasher};

/// Appends the keys that have a visible value to `output`, in byte order, each with a line feed. Returns an error if there is not enough
/// memory; then nothing is written.
pub fn write_keys<S: BuildHasher>(
    alloc: Global,
    front: &Front<S>,
    now: u64,
    output: &mut Vec<u8>,
) -> Result<(), AllocError>
    requires moment { now < 2 ^ 63 }
    requires distinct { are_distinct (held_by_all front.now.parts) ≡ true }
    ensures written { OnOk result (output.new.items ≡ output.old.items ++ concat (map text_line
        (sorted (seen_by_all (hash_with S.BuildHasher S.Hasher.Hasher) now front.now)))) }
    ensures unwritten { OnErr result (output.new.items ≡ output.old.items) }
{
    let held = held_keys(alloc, front)?;
    let keys = sorted_keys(alloc, front, held.as_slice(), Instant::from_nanos(now))?;
    let lines = lines_of(alloc, &keys)?;
    output.extend_from_slice(&lines)
}

/// The keys of all parts.
fn held_keys<S: BuildHasher>(
    alloc: Global,
    front: &Front<S>,
) -> Result<Vec<Shared<Key>>, AllocError>
    ensures { IfOk result (λ keys. keys.items ≡ held_by_all front.now.parts) }
{
    let mut keys = Vec::new(alloc);
    for place in 0..front.num_cht_segments() {
        add_held(front, place, &mut keys)?;
    }
    Ok(keys)
}

/// Adds those of the part at a place.
fn add_held<S: BuildHasher>(
    front: &Front<S>,
    place: usize,
    keys: &mut Vec<Shared<Key>>,
) -> Result<(), AllocError>
    ensures { OnOk result
        (keys.new.items ≡ keys.old.items ++ keys_of (slice_get front.now.parts place)) }
{
    match front.keys(place)? {
        Some(mut held) => keys.append(&mut held),
        None => Ok(()),
    }
}

/// Those of some keys that have a visible value, in byte order.
fn sorted_keys<'a, S: BuildHasher>(
    alloc: Global,
    front: &Front<S>,
    keys: &'a [Shared<Key>],
    now: Instant,
) -> Result<BTreeMap<&'a [u8], ()>, AllocError>
    requires { are_distinct keys.now ≡ true }
    ensures { IfOk result (λ found. map (λ e. e.0.now) found.entries ≡ sorted
        (filter (is_seen (hash_with S.BuildHasher S.Hasher.Hasher) now front.now) keys.now)) }
{
    let mut found = BTreeMap::new(alloc);
    for key in keys {
        let key = &**key;
        if front.contains_key(key, now) {
            found.insert(key.as_bytes(), ())?;
        }
    }
    Ok(found)
}

/// The keys, each with a line feed.
fn lines_of(alloc: Global, keys: &BTreeMap<&[u8], ()>) -> Result<Vec<u8>, AllocError>
    ensures { IfOk result
        (λ lines. lines.items ≡ concat (map text_line (map (λ e. e.0.now) keys.now.entries))) }
{
    let mut lines = Vec::new(alloc);
    for (key, _unit) in keys {
        write_line(&mut lines, key)?;
    }
    Ok(lines)
}

/// Writes a key and a line feed.
fn write_line(output: &mut Vec<u8>, key: &[u8]) -> Result<(), AllocError>
    ensures { OnOk result (output.new.items ≡ output.old.items ++ text_line key.now) }
{
    output.extend_from_slice(key)?;
    output.push(b'\n')?;
    Ok(())
}
