//! Reading through a cache.
ghost use Rattle.std.specs.Prelude.{◌≡◌, [], Some, None, Ok, IfOk, OnErr};
ghost use Rattle.moka.specs.Calls.{visible_in};
ghost use Rattle.moka.specs.Fronts.{ComesAfter};

use moka::{At, CacheError, HasWays, LentState, Rules};
use std::hash::{BuildHasher, Hash};
use std::sync::Arc;

/// A value by its key: the one that the cache shows, or what `read` reads, which the cache then
/// keeps.
pub fn read_through<
    K: Eq + Hash + Drop,
    V: Clone + Drop,
    S: BuildHasher,
    R: Rules<K, V>,
    F: Drop,
    M: FnOnce() -> Result<V, F> + Drop,
>(
    cache: &mut LentState<K, V, S, R>,
    key: K,
    read: M,
    at: At,
) -> Result<Result<V, Arc<F>>, CacheError>
    requires exact { (x y : V) → V.is_clone x y → y ≡ x }
    requires readable { M.IsAlwaysCallable read }
    requires follows { ComesAfter at.now at.step cache.old }
    requires alone { cache.old.turns ≡ [] }
    ensures shown { IfOk result (λ r. (value : V) → visible_in ⟦<R as HasWays<K, V, S>>⟧.ways
        cache.old at.now key ≡ Some value → r ≡ Ok value) }
    ensures read { IfOk result (λ r. (value : V) → visible_in ⟦<R as HasWays<K, V, S>>⟧.ways
        cache.old at.now key ≡ None → r ≡ Ok value → M.post read (Ok value)) }
    ensures alone { cache.new.turns ≡ [] }
    ensures refused { OnErr result (cache.new ≡ cache.old) }
{
    cache.try_get_with(key, read, at)
}
