//! Calls that make a value if none is visible. Of several callers for a key one makes it, and the others wait for it.
ghost use Rattle.std.specs.Prelude.{◌≡◌, IfOk, IfErr};
ghost use Rattle.std.specs.Arc.{arc_value};
ghost use Rattle.std.specs.Fn.{FnReturnsAt};
ghost use Rattle.front_parts.specs.Access.Answering.{IsOptionOf, IsResultOf, IsValueOf};
ghost use Rattle.front_parts.specs.Access.Selecting.{with_fault};
ghost use Rattle.moka_sync.specs.Making.{MayPass, OptionUnderLock, ResultUnderLock, ValueUnderLock};
ghost use Rattle.sync_desk.specs.Slots.Refusals.{IsTurnRefusal};

use crate::shared::SharedDesk;
use crate::turns::{Passing, passes_nothing};
use engine_reference::Rules;
use front_parts::{HasWays, option_made, result_made, value_made};
use front_reference::{CacheError, Made, Shared, TurnKind};
use std::alloc::AllocError;
use std::hash::{BuildHasher, Hash};
use std::sync::{Arc, Wait};
use sync_desk::{Asked, Env};

impl<
    K: Eq + Hash + Drop,
    V: Clone + Drop,
    S: BuildHasher + Drop,
    R: Rules<K, V> + Drop,
    E: Env + Drop,
    C: Drop,
> SharedDesk<K, V, S, R, E, C> {
    /// The visible value that is not passed over, or the one that is made.
    pub(crate) fn make_value<
        H: Wait,
        A: Asked<K>,
        P: Fn(&V) -> bool + Drop,
        M: FnOnce() -> V + Drop,
    >(&self, rt: &H, asked: A, passing: Passing, replace_if: P, make: M) -> Result<V, CacheError>
        requires becomes { (a : A) → A.can_become a }
        requires exact { (x y : V) → V.is_clone x y → y ≡ x }
        requires callable { P.IsAlwaysCallable replace_if × M.IsAlwaysCallable make }
        ensures made { IfOk result (ValueUnderLock
            ⟦<R as HasWays<K, V, S>>⟧.ways self.now.number R.Fault
            (A.named_key asked) (MayPass passing (FnReturnsAt P.Fn replace_if)) (M.post make)) }
        ensures cause { IfErr result IsTurnRefusal }
    {
        let (made, _is_fresh) = self.coalesce(
            rt,
            TurnKind::With,
            asked,
            passing,
            replace_if,
            || -> Result<Made<V, Shared<R::Fault>>, AllocError>
                requires { M.IsAlwaysCallable make }
                ensures { IfOk result (IsValueOf (M.post make)) }
            { Ok(Made::Value(make())) },
        )?;
        Ok(value_made(made))
    }

    /// Returns the visible value of a key, or the one that `make` makes, or `None` if `make` makes none. Returns the errors of `get_with`.
    pub fn make_option<H: Wait, A: Asked<K>, M: FnOnce() -> Option<V> + Drop>(
        &self,
        rt: &H,
        asked: A,
        make: M,
    ) -> Result<Option<V>, CacheError>
        requires becomes { (a : A) → A.can_become a }
        requires exact { (x y : V) → V.is_clone x y → y ≡ x }
        requires callable { M.IsAlwaysCallable make }
        ensures made { IfOk result (OptionUnderLock
            ⟦<R as HasWays<K, V, S>>⟧.ways self.now.number R.Fault
            (A.named_key asked) (M.post make)) }
        ensures cause { IfErr result IsTurnRefusal }
    {
        let (made, _is_fresh) = self.coalesce(
            rt,
            TurnKind::Optionally,
            asked,
            Passing::Never,
            passes_nothing,
            || -> Result<Made<V, Shared<R::Fault>>, AllocError>
                requires { M.IsAlwaysCallable make }
                ensures { IfOk result (IsOptionOf (M.post make)) }
            {
                match make() {
                    Some(value) => Ok(Made::Value(value)),
                    None => Ok(Made::Nothing),
                }
            },
        )?;
        Ok(option_made(made))
    }

    /// Returns the visible value of a key, or the one that `make` makes, or the fault for which `make` made none. The outer error is the
    /// cache's own, as that of `get_with`.
    pub fn make_result<H: Wait, A: Asked<K>, M: FnOnce() -> Result<V, R::Fault> + Drop>(
        &self,
        rt: &H,
        asked: A,
        make: M,
    ) -> Result<Result<V, Arc<R::Fault>>, CacheError>
        requires becomes { (a : A) → A.can_become a }
        requires exact { (x y : V) → V.is_clone x y → y ≡ x }
        requires callable { M.IsAlwaysCallable make }
        ensures made { IfOk result (λ r. ResultUnderLock
            ⟦<R as HasWays<K, V, S>>⟧.ways self.now.number
            (A.named_key asked) (M.post make) (with_fault arc_value r)) }
        ensures cause { IfErr result IsTurnRefusal }
    {
        let alloc = self.alloc;
        let (made, _is_fresh) = self.coalesce(
            rt,
            TurnKind::Try,
            asked,
            Passing::Never,
            passes_nothing,
            || -> Result<Made<V, Shared<R::Fault>>, AllocError>
                requires { M.IsAlwaysCallable make }
                ensures { IfOk result (IsResultOf (M.post make)) }
            {
                match make() {
                    Ok(value) => Ok(Made::Value(value)),
                    Err(fault) => Ok(Made::Fault(Shared::new(alloc, fault)?)),
                }
            },
        )?;
        Ok(result_made(made))
    }
}
