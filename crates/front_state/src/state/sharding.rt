//! A predicate in two halves: it is prepared in all shards, and then registered in each or given up in each.
ghost use Rattle.std.specs.Prelude.{◌≡◌, ◌<◌, true, false, IfOk, IfErr, OnOk, OnErr};
ghost use Rattle.std.specs.Result.{IsErrOf};
ghost use Rattle.engine_reference.specs.Calls.{registered, with_room, without_room};
ghost use Rattle.front_reference.specs.Fronts.{ComesAfter, passed};
ghost use Rattle.front_reference.specs.declared.errors.CacheError.TheVariants as errors;
ghost use Rattle.front_state.specs.Covering.{IsCauseToCover};
ghost use Rattle.front_state.specs.Sharding.{DrawsForFirst, FirstHasRoom, cover_error, with_first_part};

use crate::state::{LentState, Sharded};
use engine_reference::{Refusal, Rules};
use front_reference::{At, CacheError, Shared};
use rand_core::Rng;
use std::hash::{BuildHasher, Hash};

/// The same refusal of a predicate, as calls of a cache return it.
fn cover_error(refused: Refusal) -> CacheError
    ensures { result ≡ cover_error refused }
{
    match refused {
        Refusal::InvalidationClosuresDisabled => CacheError::InvalidationClosuresDisabled,
        Refusal::IdsInUse => CacheError::IdsInUse,
        Refusal::UsedUp => CacheError::UsedUp,
        _ => CacheError::OutOfMemory,
    }
}

impl<K: Eq + Hash, V, S: BuildHasher, R: Rules<K, V>> LentState<K, V, S, R, Sharded> {
    /// Does the first half of a predicate in the first part, the only one that a shard has: makes room for the predicate, and draws an
    /// identifier. `commit_cover` registers the predicate, or `release_cover` gives its room up; until then nothing is invalidated. Returns
    /// `InvalidationClosuresDisabled` if the cache accepts no predicates, `OutOfMemory`, `UsedUp` if the 64-bit numbers of writes are used
    /// up, and `IdsInUse` if each of a thousand identifiers that were drawn is registered; then the cache is as before.
    /// ```
    /// let id = shard.prepare_cover(&mut generator)?;
    /// shard.commit_cover(id, predicate, at);
    /// ```
    pub fn prepare_cover<G: Rng>(&mut self, generator: &mut G) -> Result<u128, CacheError>
        ensures ok { OnOk result (self.new ≡ with_first_part with_room self.old) }
        ensures drawn { IfOk result (λ id. DrawsForFirst (G.stream generator.old)
            (G.stream generator.new) id self.old) }
        ensures takes { OnOk result (self.old.common.settings.takes_predicates ≡ true) }
        ensures first { self.old.common.settings.takes_predicates ≡ false
            → IsErrOf result errors.InvalidationClosuresDisabled }
        ensures err { OnErr result (self.new ≡ self.old) }
        ensures cause { IfErr result
            (IsCauseToCover self.old (G.stream generator.old) (G.stream generator.new)) }
    {
        let part = &mut self.parts[0];
        match part.prepare_predicate(generator) {
            Ok(id) => Ok(id),
            Err(refused) => Err(cover_error(refused)),
        }
    }

    /// Does the second half, which is never refused: registers a predicate under its identifier, in the room that `prepare_cover` made. The
    /// predicate covers what was written at earlier steps, so the call needs a later step than any before.
    pub fn commit_cover(&mut self, id: u128, predicate: Shared<R::Predicate>, at: At)
        requires room { FirstHasRoom self.old }
        requires follows { ComesAfter at.now at.step self.old }
        requires rises { self.old.step < at.step }
        ensures { self.new ≡ passed at.now at.step (with_first_part
            (registered (record { id = id; predicate = predicate; step = at.step })) self.old) }
    {
        let At { now, step } = at;
        let part = &mut self.parts[0];
        part.commit_predicate(id, predicate, step);
        self.moment = now;
        self.step = step;
    }

    /// Gives up the room that `prepare_cover` made.
    pub fn release_cover(&mut self)
        requires { FirstHasRoom self.old }
        ensures { self.new ≡ with_first_part without_room self.old }
    {
        let part = &mut self.parts[0];
        part.release_room();
    }
}
