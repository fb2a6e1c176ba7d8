//! Predicates that invalidate the values that they match.
ghost use Rattle.std.specs.Prelude.{◌≡◌, ◌+◌, ◌-◌, ◌<◌, ◌≤◌, ◌^◌, ◌⊎◌, true, false, IfOk, IfErr, OnOk, OnErr};
ghost use Rattle.std.specs.Result.{IsErrOf};
ghost use Rattle.engine_calls.specs.Refusing.{IsCauseToRegister};
ghost use Rattle.engine_reference.specs.Identifiers.Drawing.{Draws, AreInUse, is_registered};
ghost use Rattle.engine_reference.specs.Calls.{with_room, with_predicate, without_room, registered};

use crate::cache::BaseCache;
use engine_calls::{commit, draw_id, invalidate, prepare, reserve};
use engine_reference::{Refusal, Rules};
use rand_core::Rng;
use std::hash::{BuildHasher, Hash};

impl<K: Eq + Hash, V, S: BuildHasher, R: Rules<K, V>> BaseCache<K, V, S, R> {
    /// Registers a predicate, which covers what was written at earlier steps, under an identifier that is drawn, and returns the
    /// identifier. Returns `InvalidationClosuresDisabled` if the cache accepts no predicates, `UsedUp` if the 64-bit tickets (the numbers
    /// under which writes wait to be sent) are used up, `OutOfMemory` if there is not enough memory, and `IdsInUse` if each of a thousand
    /// identifiers that were drawn is registered. After a refusal the cache is as before, and only `IdsInUse` has drawn from the generator.
    pub fn invalidate_entries_if<G: Rng>(
        &mut self,
        predicate: R::Predicate,
        step: u64,
        generator: &mut G,
    ) -> Result<u128, Refusal>
        ensures ok { IfOk result (λ id. self.new
            ≡ with_predicate (record { id = id; predicate = predicate; step = step }) self.old) }
        ensures drawn { IfOk result (λ id. Draws (G.stream generator.old) (G.stream generator.new)
            (is_registered self.old.predicates) id) }
        ensures err { OnErr result (self.new ≡ self.old) }
        ensures takes { OnOk result (self.old.settings.takes_predicates ≡ true) }
        ensures first { self.old.settings.takes_predicates ≡ false
            → IsErrOf result Refusal.InvalidationClosuresDisabled }
        ensures refused { IfErr result
            (IsCauseToRegister self.old (G.stream generator.old) (G.stream generator.new)) }
    {
        invalidate(&mut self.tables, predicate, step, generator)
    }

    /// Does the first half of `invalidate_entries_if`: draws the identifier and makes room, which `commit_predicate` uses. Returns the
    /// errors of that call; then the cache is as before.
    pub fn prepare_predicate<G: Rng>(&mut self, generator: &mut G) -> Result<u128, Refusal>
        ensures ok { OnOk result (self.new ≡ with_room self.old) }
        ensures drawn { IfOk result (λ id. Draws (G.stream generator.old) (G.stream generator.new)
            (is_registered self.old.predicates) id) }
        ensures err { OnErr result (self.new ≡ self.old) }
        ensures takes { OnOk result (self.old.settings.takes_predicates ≡ true) }
        ensures first { self.old.settings.takes_predicates ≡ false
            → IsErrOf result Refusal.InvalidationClosuresDisabled }
        ensures refused { IfErr result
            (IsCauseToRegister self.old (G.stream generator.old) (G.stream generator.new)) }
    {
        prepare(&mut self.tables, generator)
    }

    /// Makes room for a predicate, which `commit_predicate` uses, and draws nothing. Returns `InvalidationClosuresDisabled` if the cache
    /// accepts no predicates, and otherwise `UsedUp` if the 64-bit tickets of writes are used up, or `OutOfMemory`; then nothing has
    /// changed.
    pub fn reserve_predicate(&mut self) -> Result<(), Refusal>
        ensures ok { OnOk result (self.new ≡ with_room self.old) }
        ensures err { OnErr result (self.new ≡ self.old) }
        ensures takes { OnOk result (self.old.settings.takes_predicates ≡ true) }
        ensures first { self.old.settings.takes_predicates ≡ false
            → IsErrOf result Refusal.InvalidationClosuresDisabled }
        ensures disabled { IsErrOf result Refusal.InvalidationClosuresDisabled
            → self.old.settings.takes_predicates ≡ false }
        ensures used_up { IsErrOf result Refusal.UsedUp
            → 2 ^ 64 ≤ self.old.next_ticket + self.old.reserved + 1 }
        ensures kinds { OnErr result ((IsErrOf result Refusal.OutOfMemory) ⊎ ((IsErrOf result
            Refusal.InvalidationClosuresDisabled) ⊎ (IsErrOf result Refusal.UsedUp))) }
    {
        reserve(&mut self.tables)
    }

    /// Draws an identifier under which no predicate is registered. Returns `IdsInUse` if each of a thousand that were drawn is registered.
    pub fn draw_predicate_id<G: Rng>(&self, generator: &mut G) -> Result<u128, Refusal>
        ensures drawn { IfOk result (λ id. Draws (G.stream generator.old) (G.stream generator.new)
            (is_registered self.now.predicates) id) }
        ensures in_use { OnErr result (AreInUse (G.stream generator.old) (G.stream generator.new)
            (is_registered self.now.predicates)) }
        ensures kinds { OnErr result (IsErrOf result Refusal.IdsInUse) }
    {
        draw_id(&self.tables, generator)
    }

    /// Does the second half of `invalidate_entries_if`, which is never refused: registers a predicate under its identifier, in the room
    /// that was made for it.
    pub fn commit_predicate(&mut self, id: u128, predicate: R::Predicate, step: u64)
        requires { 0 < self.old.reserved }
        ensures { self.new ≡ registered (record { id = id; predicate = predicate; step = step })
            self.old }
    {
        commit(&mut self.tables, id, predicate, step);
    }

    /// Gives up the room of one write or predicate that `prepare_predicate` or `reserve_write` made and nothing uses.
    pub fn release_room(&mut self)
        requires { 0 < self.old.reserved }
        ensures { self.new ≡ without_room self.old }
    {
        self.tables.release_room();
    }
}
