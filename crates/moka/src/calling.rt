//! The moment and step of calls.
ghost use Rattle.std.specs.Prelude.{◌≡◌, ◌+◌, max, IfOk, IfErr};
ghost use Rattle.front_reference.specs.Fronts.{ComesAfter};

use engine_reference::Rules;
use front_reference::{At, CacheError};
use front_state::LentState;
use policy_base::Instant;
use std::hash::{BuildHasher, Hash};

/// Returns the moment and step of the next call of a cache by a clock: the clock's moment, or that of the last call if the clock went back,
/// and the next step. Returns `UsedUp` if 2^64 - 1 steps were taken.
/// ```
/// let at = next_call(&cache, clock)?;
/// cache.insert(7, 49, at)?;
/// ```
pub fn next_call<K: Eq + Hash, V, S: BuildHasher, R: Rules<K, V>, C>(
    cache: &LentState<K, V, S, R, C>,
    clock: Instant,
) -> Result<At, CacheError>
    ensures moment { IfOk result (λ at. at.now ≡ max clock cache.now.moment) }
    ensures step { IfOk result (λ at. at.step ≡ cache.now.step + 1) }
    ensures follows { IfOk result (λ at. ComesAfter at.now at.step cache.now) }
    ensures cause { IfErr result
        (λ e. (e ≡ CacheError.UsedUp) × (cache.now.step ≡ 18446744073709551615)) }
{
    let last = cache.last_call();
    match last.step.checked_add(1) {
        Some(step) => Ok(At {
            now: clock.max(last.now),
            step,
        }),
        None => Err(CacheError::UsedUp),
    }
}
