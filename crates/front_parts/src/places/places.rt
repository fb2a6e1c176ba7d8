//! Calls on the part at a place, if there is one.
ghost use Rattle.std.specs.Prelude.{◌≡◌, ◌≤◌, IfOk, MatchOption, length, slice_get};
ghost use Rattle.front_parts.specs.Places.Calls.{keys_of};
ghost use Rattle.front_parts.specs.Places.Told.{told_at, without_told_at};

use crate::{BaseCache, Notice};
use engine_reference::Rules;
use std::alloc::AllocError;
use std::hash::{BuildHasher, Hash};

/// Returns clones of the keys that the part at a place holds, or `None` if there is no such part. Returns an error if there is no memory
/// for the clones.
pub fn keys_at<K: Eq + Hash + Clone + Drop, V, S: BuildHasher, R: Rules<K, V>>(
    parts: &[BaseCache<K, V, S, R>],
    place: usize,
) -> Result<Option<Vec<K>>, AllocError>
    requires exact_key { (x y : K) → K.is_clone x y → y ≡ x }
    ensures { IfOk result (λ keys. MatchOption keys (length parts.now ≤ place)
        (λ found. found.items ≡ keys_of (slice_get parts.now place))) }
{
    if place >= parts.len() {
        return Ok(None);
    }
    parts[place].keys(0)
}

/// Takes the oldest notice of the part at a place, or returns `None` if it has none or there is no such part.
pub fn next_notice_at<K: Eq + Hash, V, S: BuildHasher, R: Rules<K, V>>(
    parts: &mut Vec<BaseCache<K, V, S, R>>,
    place: usize,
) -> Option<Notice<K, V>>
    ensures notice { result ≡ told_at place parts.old.items }
    ensures taken { parts.new.items ≡ without_told_at place parts.old.items }
{
    if place >= parts.len() {
        return None;
    }
    let part = &mut parts[place];
    part.next_notice()
}
