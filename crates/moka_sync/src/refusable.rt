//! A call that makes a value whose allocation may fail.
ghost use Rattle.std.specs.Prelude.{◌≡◌, Ok, IfOk, IfErr};
ghost use Rattle.std.specs.Arc.{arc_value};
ghost use Rattle.front_parts.specs.Access.Answering.{IsValueOf};
ghost use Rattle.moka_sync.specs.Making.{NotPassed, ValueUnderLock};
ghost use Rattle.moka_sync.specs.Spreading.{desk_number};
ghost use Rattle.sync_desk.specs.Slots.Refusals.{IsTurnRefusal};

use crate::cache::SharedCache;
use crate::turns::{Passing, passes_nothing};
use engine_reference::{Hashes, Rules};
use front_parts::{HasWays, value_made};
use front_reference::{CacheError, Made, OwnedKey, Shared, TurnKind};
use std::alloc::AllocError;
use std::hash::{BuildHasher, Hash};
use std::sync::Wait;
use sync_desk::Env;

impl<
    K: Eq + Hash + Drop,
    V: Clone + Drop,
    S: BuildHasher + Drop,
    R: Rules<K, V> + Drop,
    E: Env + Drop,
    C: Drop,
> SharedCache<K, V, S, R, E, C> {
    /// Like `get_with`, and coalesced with it, except that `make` may fail to allocate. Then its turn is given up, so that those that wait
    /// begin again, and the call returns `OutOfMemory`. The other errors are those of `get_with`. Which values can be proved is said at
    /// `get`.
    /// ```
    /// let text = cache.get_with_alloc(&rt, key, || Shared::new(alloc, String::from_str(alloc, "seven")?))?;
    /// ```
    pub fn get_with_alloc<H: Wait, M: FnOnce() -> Result<V, AllocError> + Drop>(
        &self,
        rt: &H,
        key: K,
        make: M,
    ) -> Result<V, CacheError>
        requires exact { (x y : V) → V.is_clone x y → y ≡ x }
        requires callable { M.IsAlwaysCallable make }
        ensures made { IfOk result (ValueUnderLock ⟦<R as HasWays<K, V, S>>⟧.ways
            (desk_number (⟦<S as Hashes<K>>⟧.hash) (arc_value self.now.inner).spread key) R.Fault key
            NotPassed (λ value. M.post make (Ok value))) }
        ensures cause { IfErr result IsTurnRefusal }
    {
        let desk = self.inner.of(&key);
        let asked = OwnedKey {
            key,
            alloc: self.alloc,
        };
        let (made, _is_fresh) = desk.coalesce(
            rt,
            TurnKind::With,
            asked,
            Passing::Never,
            passes_nothing,
            || -> Result<Made<V, Shared<R::Fault>>, AllocError>
                requires { M.IsAlwaysCallable make }
                ensures { IfOk result (IsValueOf (λ value. M.post make (Ok value))) }
            { Ok(Made::Value(make()?)) },
        )?;
        Ok(value_made(made))
    }
}
