//! Room for a predicate in all parts.
ghost use Rattle.std.specs.Prelude.{◌≡◌, ◌≤◌, ◌<◌, ℕ, true, Some, OnOk, OnErr, IfErr, length, slice_get};
ghost use Rattle.engine_reference.specs.Calls.{with_room, without_room};
ghost use Rattle.engine_reference.specs.State.{State};
ghost use Rattle.front_reference.specs.Parts.{IsCause};
ghost use Rattle.front_parts.specs.Wholes.Covering.{IsRoomCause, TakeAll};
ghost use Rattle.front_parts.specs.Wholes.Firsts.{changed_first};

use engine_reference::Rules;
use front_reference::CacheError;
use moka_engine::{BaseCache, Refusal};
use std::hash::{BuildHasher, Hash};

/// Gives up the room of one predicate in each of the first parts.
pub(crate) fn release_first<K: Eq + Hash, V, S: BuildHasher, R: Rules<K, V>>(
    parts: &mut Vec<BaseCache<K, V, S, R>>,
    count: usize,
)
    requires within { count ≤ length parts.old.items }
    requires room { (place : ℕ) (s : State K V R.Predicate S R) → place < count
        → slice_get parts.old.items place ≡ Some s → 0 < s.reserved }
    ensures { parts.new.items ≡ changed_first (λ _. without_room) count parts.old.items }
{
    for place in 0..count {
        let part = &mut parts[place];
        part.release_room();
    }
}

/// Makes room for one predicate in a part that accepts predicates.
fn reserve_one<K: Eq + Hash, V, S: BuildHasher, R: Rules<K, V>>(
    part: &mut BaseCache<K, V, S, R>,
) -> Result<(), CacheError>
    requires { part.old.settings.takes_predicates ≡ true }
    ensures ok { OnOk result (part.new ≡ with_room part.old) }
    ensures err { OnErr result (part.new ≡ part.old) }
    ensures cause { IfErr result (IsCause 1 part.old) }
{
    match part.reserve_predicate() {
        Ok(()) => Ok(()),
        Err(Refusal::UsedUp) => Err(CacheError::UsedUp),
        Err(_) => Err(CacheError::OutOfMemory),
    }
}

/// Makes room for one predicate in each part, or in none.
pub(crate) fn reserve_all<K: Eq + Hash, V, S: BuildHasher, R: Rules<K, V>>(
    parts: &mut Vec<BaseCache<K, V, S, R>>,
) -> Result<(), CacheError>
    requires { TakeAll parts.old.items }
    ensures ok { OnOk result (parts.new.items
        ≡ changed_first (λ _. with_room) (length parts.old.items) parts.old.items) }
    ensures err { OnErr result (parts.new.items ≡ parts.old.items) }
    ensures cause { IfErr result (IsRoomCause parts.old.items) }
{
    let count = parts.len();
    for place in 0..count {
        let part = &mut parts[place];
        match reserve_one(part) {
            Ok(()) => {}
            Err(refused) => {
                release_first(parts, place);
                return Err(refused);
            }
        }
    }
    Ok(())
}
