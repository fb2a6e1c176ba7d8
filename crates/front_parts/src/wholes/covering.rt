//! Predicates that are registered in all parts or in none.
ghost use Rattle.std.specs.Prelude.{◌≡◌, ◌≢◌, ◌≤◌, ◌<◌, ◌+◌, ℕ, [], Some, OnOk, OnErr, IfOk, IfErr, length};
ghost use Rattle.std.specs.Vec.{vec_capacity, vec_len};
ghost use Rattle.front_reference.specs.Wholes.{DrawAll, DrawsInVain};
ghost use Rattle.front_parts.specs.Wholes.Covering.{AreOnly, CoversEach, HaveRoom, IsCoverCause, TakeAll, commits};
ghost use Rattle.front_parts.specs.Wholes.Firsts.{changed_first};
ghost use Rattle.front_reference.specs.declared.errors.CacheError.TheVariants as errors;

use crate::wholes::rooms::{release_first, reserve_all};
use engine_reference::Rules;
use front_reference::CacheError;
use moka_engine::BaseCache;
use rand_core::Rng;
use std::alloc::Global;
use std::hash::{BuildHasher, Hash};

/// Draws an identifier for each part that is not registered there.
fn draw_all<K: Eq + Hash, V, S: BuildHasher, R: Rules<K, V>, G: Rng>(
    parts: &[BaseCache<K, V, S, R>],
    ids: &mut Vec<u128>,
    generator: &mut G,
) -> Result<(), CacheError>
    requires empty { ids.old.items ≡ [] }
    requires room { vec_len ids.old + length parts.now ≤ vec_capacity ids.old }
    ensures draws { OnOk result
        (DrawAll parts.now (G.stream generator.old) (G.stream generator.new) ids.new.items) }
    ensures err { IfErr result (λ e. e ≡ errors.IdsInUse) }
    ensures in_use { OnErr result
        (DrawsInVain parts.now (G.stream generator.old) (G.stream generator.new)) }
{
    let mut rest = parts;
    while let Some((part, others)) = rest.split_first() {
        match part.draw_predicate_id(generator) {
            Ok(id) => ids.push_reserved(id),
            Err(_) => return Err(CacheError::IdsInUse),
        }
        rest = others;
    }
    Ok(())
}

/// Registers a predicate in each part, in the room that was made for it. It is never refused.
fn commit_all<K: Eq + Hash, V, S: BuildHasher, R: Rules<K, V>>(
    parts: &mut Vec<BaseCache<K, V, S, R>>,
    ids: &[u128],
    mut predicates: Vec<R::Predicate>,
    step: u64,
)
    requires ids { length parts.old.items ≤ length ids.now }
    requires predicates { length predicates.items ≡ length parts.old.items }
    requires room { HaveRoom parts.old.items }
    ensures { (p : R.Predicate) → AreOnly p predicates.items → parts.new.items
        ≡ changed_first (commits p step ids.now) (length parts.old.items) parts.old.items }
{
    let count = parts.len();
    for place in 0..count {
        let predicate = match predicates.pop() {
            Some(predicate) => predicate,
            None => unreachable!(),
        };
        let id = ids[place];
        let part = &mut parts[place];
        part.commit_predicate(id, predicate, step);
    }
}

/// Registers a predicate, given as a clone for each part, in all parts, under an identifier that is drawn for each, or in none. Room is
/// made in all parts first, then identifiers are drawn, and after that nothing is refused. Returns the first identifier. Returns
/// `OutOfMemory` if there is not enough memory, `UsedUp` if the 64-bit numbers of writes of a part are used up, and `IdsInUse` if each of a
/// thousand identifiers that were drawn for a part is registered there; then the parts are as before, and only `IdsInUse` has drawn from
/// the generator.
pub fn cover_all<K: Eq + Hash, V, S: BuildHasher, R: Rules<K, V>, G: Rng>(
    alloc: Global,
    parts: &mut Vec<BaseCache<K, V, S, R>>,
    predicates: Vec<R::Predicate>,
    generator: &mut G,
    step: u64,
) -> Result<u128, CacheError>
    requires takes { TakeAll parts.old.items }
    requires some { 0 < length parts.old.items }
    requires predicates { length predicates.items ≡ length parts.old.items }
    ensures covers { IfOk result
        (λ first. (p : R.Predicate) → AreOnly p predicates.items → CoversEach p step
        (G.stream generator.old) (G.stream generator.new) first parts.old.items parts.new.items) }
    ensures err { OnErr result (parts.new.items ≡ parts.old.items) }
    ensures cause { IfErr result
        (IsCoverCause parts.old.items (G.stream generator.old) (G.stream generator.new)) }
    ensures undrawn { IfErr result (λ e. e ≢ errors.IdsInUse → generator.new ≡ generator.old) }
{
    let count = parts.len();
    let mut ids = Vec::with_capacity(alloc, count)?;
    reserve_all(parts)?;
    match draw_all(parts.as_slice(), &mut ids, generator) {
        Ok(()) => {
            commit_all(parts, ids.as_slice(), predicates, step);
            Ok(ids[0])
        }
        Err(refused) => {
            release_first(parts, count);
            Err(refused)
        }
    }
}
