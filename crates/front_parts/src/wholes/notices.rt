//! Notices.
ghost use Rattle.std.specs.Prelude.{◌≡◌};
ghost use Rattle.front_reference.specs.Wholes.{next_told, without_told};

use engine_reference::Rules;
use moka_engine::{BaseCache, Notice};
use std::hash::{BuildHasher, Hash};

/// Takes the oldest notice of the first part that has one, or returns `None` if none has.
pub fn next_notice<K: Eq + Hash, V, S: BuildHasher, R: Rules<K, V>>(
    parts: &mut Vec<BaseCache<K, V, S, R>>,
) -> Option<Notice<K, V>>
    ensures notice { result ≡ next_told parts.old.items }
    ensures taken { parts.new.items ≡ without_told parts.old.items }
{
    let count = parts.len();
    for place in 0..count {
        let part = &mut parts[place];
        match part.next_notice() {
            Some(notice) => return Some(notice),
            None => {}
        }
    }
    None
}
