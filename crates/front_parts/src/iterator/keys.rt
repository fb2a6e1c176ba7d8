//! Keys that are tried one after another.
ghost use Rattle.std.specs.Prelude.{◌≡◌, ◌+◌, ◌<◌, IfOk, OnOk, OnErr, length, reverse};
ghost use Rattle.front_parts.specs.Iterator.Coming.{LeavesComing, LeavesKeys, LeavesPairs, TakesComing, TakesLast, TriesLast, source_at};

use crate::iterator::scanning::ScanningGet;
use policy_base::Instant;
use std::alloc::AllocError;

/// The value of the last key, which is then removed.
fn try_last<K: Drop, V, C: ScanningGet<K, V>>(
    source: &C,
    now: Instant,
    keys: &mut Vec<K>,
) -> Result<Option<(K, V)>, AllocError>
    requires can_scan { C.can_scan source.now }
    requires some { 0 < length keys.old.items }
    ensures found { IfOk result
        (λ found. TriesLast (source_at C.segments C.keys_in C.value_of source.now now) found
        keys.old.items keys.new.items) }
    ensures shorter { OnOk result (length keys.new.items + 1 ≡ length keys.old.items) }
    ensures err { OnErr result (keys.new.items ≡ keys.old.items) }
{
    let last = keys.len() - 1;
    let value = source.scanning_get(&keys[last], now)?;
    let key = match keys.pop() {
        Some(key) => key,
        None => unreachable!(),
    };
    match value {
        Some(value) => Ok(Some((key, value))),
        None => Ok(None),
    }
}

/// The last key that has a value, with its value. It is removed, and so are those after it, which have none. After a refusal the key that
/// was tried is still there.
fn take_last<K: Drop, V, C: ScanningGet<K, V>>(
    source: &C,
    now: Instant,
    keys: &mut Vec<K>,
) -> Result<Option<(K, V)>, AllocError>
    requires { C.can_scan source.now }
    ensures found { IfOk result
        (λ found. TakesLast (source_at C.segments C.keys_in C.value_of source.now now) found
        keys.old.items keys.new.items) }
    ensures left { IfOk result (λ found. LeavesKeys found keys.new.items) }
    ensures err { OnErr result (LeavesPairs
        (source_at C.segments C.keys_in C.value_of source.now now) keys.old.items keys.new.items) }
{
    while !keys.is_empty() {
        match try_last(source, now, keys)? {
            Some(pair) => return Ok(Some(pair)),
            None => {}
        }
    }
    Ok(None)
}

/// The keys of a segment, the first one last.
fn open<K: Drop, V, C: ScanningGet<K, V>>(source: &C, place: usize) -> Result<Vec<K>, AllocError>
    requires can_scan { C.can_scan source.now }
    requires within { place < C.segments source.now }
    ensures { IfOk result (λ keys. keys.items ≡ reverse (C.keys_in source.now place)) }
{
    match source.keys(place)? {
        Some(mut keys) => {
            keys.reverse();
            Ok(keys)
        }
        None => unreachable!(),
    }
}

/// The first pair that is still to come, from the keys, of which the next one is last, and from the segments at and after a place.
pub(crate) fn advance<K: Drop, V, C: ScanningGet<K, V>>(
    source: &C,
    now: Instant,
    keys: &mut Vec<K>,
    place: &mut usize,
) -> Result<Option<(K, V)>, AllocError>
    requires { C.can_scan source.now }
    ensures found { IfOk result
        (λ found. TakesComing (source_at C.segments C.keys_in C.value_of source.now now) found
        keys.old.items place.old keys.new.items place.new) }
    ensures err { OnErr result
        (LeavesComing (source_at C.segments C.keys_in C.value_of source.now now) keys.old.items
        place.old keys.new.items place.new) }
{
    let count = source.num_cht_segments();
    while *place < count {
        match take_last(source, now, keys)? {
            Some(pair) => return Ok(Some(pair)),
            None => {}
        }
        *keys = open(source, *place)?;
        *place += 1;
    }
    take_last(source, now, keys)
}
