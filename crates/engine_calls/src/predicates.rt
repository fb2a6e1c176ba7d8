//! Predicates that invalidate what they cover, in two halves: first an identifier and room, then the predicate.
ghost use Rattle.std.specs.Prelude.{◌≡◌, ◌+◌, ◌<◌, ◌≤◌, ◌^◌, ◌⊎◌, true, false, IfOk, IfErr, OnOk, OnErr};
ghost use Rattle.std.specs.Result.{IsErrOf};
ghost use Rattle.engine_calls.specs.Refusing.{IsCauseToRegister};
ghost use Rattle.engine_reference.specs.Identifiers.Drawing.{Draws, AreInUse, is_registered};
ghost use Rattle.engine_reference.specs.Calls.{with_room, with_predicate, registered};

use engine_reference::{Refusal, Registered, Rules, draw};
use engine_tables::Tables;
use rand_core::Rng;
use std::hash::{BuildHasher, Hash};

/// Makes room for a predicate. Returns `InvalidationClosuresDisabled` if the cache accepts none, and otherwise `UsedUp` if the 64-bit
/// tickets of writes are used up, or `OutOfMemory`; then nothing has changed.
pub fn reserve<K: Eq + Hash, V, S: BuildHasher, R: Rules<K, V>>(
    tables: &mut Tables<K, V, S, R>,
) -> Result<(), Refusal>
    ensures ok { OnOk result
        (tables.new ≡ record tables.old { state = with_room tables.old.state }) }
    ensures err { OnErr result (tables.new ≡ tables.old) }
    ensures takes { OnOk result (tables.old.state.settings.takes_predicates ≡ true) }
    ensures first { tables.old.state.settings.takes_predicates ≡ false
        → IsErrOf result Refusal.InvalidationClosuresDisabled }
    ensures disabled { IsErrOf result Refusal.InvalidationClosuresDisabled
        → tables.old.state.settings.takes_predicates ≡ false }
    ensures used_up { IsErrOf result Refusal.UsedUp
        → 2 ^ 64 ≤ tables.old.state.next_ticket + tables.old.state.reserved + 1 }
    ensures kinds { OnErr result ((IsErrOf result Refusal.OutOfMemory) ⊎
        ((IsErrOf result Refusal.InvalidationClosuresDisabled) ⊎ (IsErrOf result Refusal.UsedUp))) }
{
    if !tables.settings().takes_predicates {
        return Err(Refusal::InvalidationClosuresDisabled);
    }
    tables.make_room(1)?;
    Ok(())
}

/// Draws an identifier under which no predicate is registered. Returns `IdsInUse` if each of a thousand that were drawn is registered.
pub fn draw_id<K: Eq + Hash, V, S: BuildHasher, R: Rules<K, V>, G: Rng>(
    tables: &Tables<K, V, S, R>,
    generator: &mut G,
) -> Result<u128, Refusal>
    ensures drawn { IfOk result (λ id. Draws (G.stream generator.old) (G.stream generator.new)
        (is_registered tables.now.state.predicates) id) }
    ensures in_use { OnErr result (AreInUse (G.stream generator.old) (G.stream generator.new)
        (is_registered tables.now.state.predicates)) }
    ensures kinds { OnErr result (IsErrOf result Refusal.IdsInUse) }
{
    match draw(generator, tables.predicates()) {
        Some(id) => Ok(id),
        None => Err(Refusal::IdsInUse),
    }
}

/// Draws an identifier for a predicate and makes room for the predicate. After a refusal nothing has changed; a further identifier was
/// drawn only if all earlier ones are in use.
pub fn prepare<K: Eq + Hash, V, S: BuildHasher, R: Rules<K, V>, G: Rng>(
    tables: &mut Tables<K, V, S, R>,
    generator: &mut G,
) -> Result<u128, Refusal>
    ensures ok { OnOk result (tables.new.state ≡ with_room tables.old.state) }
    ensures drawn { IfOk result (λ id. Draws (G.stream generator.old) (G.stream generator.new)
        (is_registered tables.old.state.predicates) id) }
    ensures err { OnErr result (tables.new ≡ tables.old) }
    ensures takes { OnOk result (tables.old.state.settings.takes_predicates ≡ true) }
    ensures first { tables.old.state.settings.takes_predicates ≡ false
        → IsErrOf result Refusal.InvalidationClosuresDisabled }
    ensures refused { IfErr result
        (IsCauseToRegister tables.old.state (G.stream generator.old) (G.stream generator.new)) }
{
    reserve(tables)?;
    match draw_id(tables, generator) {
        Ok(id) => Ok(id),
        Err(_refusal) => {
            tables.release_room();
            Err(Refusal::IdsInUse)
        }
    }
}

/// Registers a predicate under its identifier, in reserved room. The predicate covers what was written at earlier steps.
pub fn commit<K: Eq + Hash, V, S: BuildHasher, R: Rules<K, V>>(
    tables: &mut Tables<K, V, S, R>,
    id: u128,
    predicate: R::Predicate,
    step: u64,
)
    requires { 0 < tables.old.state.reserved }
    ensures { tables.new.state
        ≡ registered (record { id = id; predicate = predicate; step = step }) tables.old.state }
{
    tables.register(Registered {
        id,
        predicate,
        step,
    });
}

/// Draws an identifier, registers a predicate under it, and returns it. After a refusal the cache is as before.
pub fn invalidate<K: Eq + Hash, V, S: BuildHasher, R: Rules<K, V>, G: Rng>(
    tables: &mut Tables<K, V, S, R>,
    predicate: R::Predicate,
    step: u64,
    generator: &mut G,
) -> Result<u128, Refusal>
    ensures ok { IfOk result (λ id. tables.new.state ≡ with_predicate
        (record { id = id; predicate = predicate; step = step }) tables.old.state) }
    ensures drawn { IfOk result (λ id. Draws (G.stream generator.old) (G.stream generator.new)
        (is_registered tables.old.state.predicates) id) }
    ensures err { OnErr result (tables.new ≡ tables.old) }
    ensures takes { OnOk result (tables.old.state.settings.takes_predicates ≡ true) }
    ensures first { tables.old.state.settings.takes_predicates ≡ false
        → IsErrOf result Refusal.InvalidationClosuresDisabled }
    ensures refused { IfErr result
        (IsCauseToRegister tables.old.state (G.stream generator.old) (G.stream generator.new)) }
{
    let id = prepare(tables, generator)?;
    commit(tables, id, predicate, step);
    Ok(id)
}
