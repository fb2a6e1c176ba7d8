//! A predicate in two halves: it is prepared in all shards, and then registered in each or given up in each.
ghost use Rattle.std.specs.Prelude.{◌≡◌, ◌+◌, ◌<◌, ◌^◌, true, false, IfErr, IfOk, OnOk, OnErr};
ghost use Rattle.std.specs.Result.{IsErrOf};
ghost use Rattle.engine_reference.specs.Calls.{without_room};
ghost use Rattle.front_reference.specs.declared.errors.CacheError.TheVariants as errors;
ghost use Rattle.front_state.specs.Sharding.{FirstHasRoom, with_first_part};
ghost use Rattle.sync_desk.specs.Drawing.{IsCauseToCoverAsDrawn};
ghost use Rattle.sync_desk.specs.Sharding.{CommitsAsDrawn, PreparesAsDrawn};

use crate::desk::Desk;
use engine_reference::Rules;
use front_reference::{CacheError, Shared};
use front_state::Sharded;
use rand_core::Rng;
use std::hash::{BuildHasher, Hash};

impl<
    K: Eq + Hash + Drop,
    V: Clone + Drop,
    S: BuildHasher + Drop,
    R: Rules<K, V> + Drop,
    G: Rng + Drop,
> Desk<K, V, S, R, G, Sharded> {
    /// Does the first half of a predicate: makes room for it, and draws its identifier. `commit_cover` registers the predicate, or
    /// `release_cover` gives its room up; until then nothing is invalidated. Returns `InvalidationClosuresDisabled` if the cache accepts no
    /// predicates, `OutOfMemory`, `UsedUp` if the 64-bit numbers are used up, and `IdsInUse` if each of a thousand identifiers that were
    /// drawn is registered; then the cache is as before.
    pub fn prepare_cover(&mut self) -> Result<u128, CacheError>
        ensures prepares { IfOk result (λ id. PreparesAsDrawn (G.stream self.old.generator)
            (G.stream self.new.generator) id self.old.state self.new.state) }
        ensures takes { OnOk result (self.old.state.common.settings.takes_predicates ≡ true) }
        ensures first { self.old.state.common.settings.takes_predicates ≡ false
            → IsErrOf result errors.InvalidationClosuresDisabled }
        ensures err { OnErr result (self.new.state ≡ self.old.state) }
        ensures rest { self.new
            ≡ record self.old { state = self.new.state; generator = self.new.generator } }
        ensures cause { IfErr result (IsCauseToCoverAsDrawn (G.stream self.old.generator)
            (G.stream self.new.generator) self.old.state) }
    {
        match self.draw_to_cover() {
            Ok(at) => {
                let _step = at.step;
                let Desk {
                    state,
                    generator,
                    ..
                } = self;
                state.prepare_cover(generator)
            }
            Err(refused) => Err(refused),
        }
    }

    /// Does the second half, which is never refused: registers a predicate under its identifier, in the room that `prepare_cover` made.
    pub fn commit_cover(&mut self, id: u128, predicate: Shared<R::Predicate>)
        requires room { FirstHasRoom self.old.state }
        requires steps { self.old.state.step + 1 < 2 ^ 64 }
        ensures commits { CommitsAsDrawn self.old.moment id predicate self.old.state
            self.new.state }
        ensures rest { self.new ≡ record self.old { state = self.new.state } }
    {
        match self.draw() {
            Some(at) => self.state.commit_cover(id, predicate, at),
            None => unreachable!(),
        }
    }

    /// Gives up the room that `prepare_cover` made.
    pub fn release_cover(&mut self)
        requires { FirstHasRoom self.old.state }
        ensures state { self.new.state ≡ with_first_part without_room self.old.state }
        ensures rest { self.new ≡ record self.old { state = self.new.state } }
    {
        self.state.release_cover();
    }
}
