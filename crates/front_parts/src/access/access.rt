//! Access to a cache.
ghost use Rattle.std.specs.Prelude.{◌≡◌, Bool, Option, Some, Ok, IfOk, IfErr, OnErr};
ghost use Rattle.std.specs.Fn.{FnOnceReturnsAt};
ghost use Rattle.front_reference.specs.declared.data.Computed.{Computed};
ghost use Rattle.front_reference.specs.declared.data.Made.{Made};
ghost use Rattle.front_reference.specs.declared.data.Op.{Op};
ghost use Rattle.front_reference.specs.declared.data.TurnKind.{TurnKind};
ghost use Rattle.front_reference.specs.declared.data.TurnKind.TheVariants as turns;
ghost use Rattle.front_reference.specs.declared.errors.CacheError.{CacheError};
ghost use Rattle.front_parts.specs.Access.Answering.{IsCoalesced, IsComputed, Suits};

use front_reference::{CacheError, Computed, Made, Op, Shared, TurnKind};
use std::alloc::AllocError;

/// The two calls of a cache with which selectors are implemented.
///
/// A lent cache requires that no turn of the kind and key is under way; a shared one waits for the turn, and says nothing about values.
pub trait Access<K, V: Clone> {
    /// The moment and the step of a call, for a cache whose callers name them.
    type When: Copy;

    /// Why a value could not be made.
    type Fault;

    // a call of a kind, or of none, may come for a key
    ghost may_call: { Self → Self.When → Option TurnKind → K → Type 0 };

    // what is visible of a key
    ghost sees: { Self → Self.When → K → Option V → Type 0 };

    // what a coalesced call does, whether a visible value is passed over or not: its result, whether it is fresh, and the cache after it
    ghost coalesced: { Self → Self.When → Option TurnKind → K → Bool → Made V Self.Fault → Bool
        → Self → Type 0 };

    // what an operation does to a key: what it is said to have done, and the cache after it
    ghost computed: { Self → Self.When → K → Op V → Computed V → Self → Type 0 };

    // why a coalesced call of a kind, or of none, is refused for a key
    ghost refuses_coalesced: { Self → Option TurnKind → K → CacheError → Type 0 };

    // why a compute call is refused for a key
    ghost refuses_computed: { Self → K → CacheError → Type 0 };

    /// Returns the visible value of a key for which `replace_if` does not return true, and false; or else what `make` makes, and whether
    /// this call made it. A value that was made is stored. Without a kind, the call does not wait for other calls. Returns `OutOfMemory` if
    /// `make` fails to allocate, and otherwise the errors of the cache's calls; a lent cache is then as before.
    fn coalesce<
        P: FnOnce(&V) -> bool + Drop,
        M: FnOnce() -> Result<Made<V, Shared<Self::Fault>>, AllocError> + Drop,
    >(
        &mut self,
        key: Shared<K>,
        when: Self::When,
        kind: Option<TurnKind>,
        replace_if: P,
        make: M,
    ) -> Result<(Made<V, Shared<Self::Fault>>, bool), CacheError>
        requires exact { (x y : V) → V.is_clone x y → y ≡ x }
        requires free { may_call self.old when kind key }
        requires callable { P.IsAlwaysCallable replace_if × M.IsAlwaysCallable make }
        requires suitable { (made : Made V Self.Fault) → M.post make (Ok made) → Suits kind made }
        ensures gives { IfOk result (λ a. IsCoalesced sees coalesced kind when key self.old self.new
            (FnOnceReturnsAt P.FnOnce replace_if) (λ made. M.post make (Ok made)) a.0 a.1) }
        ensures suits { IfOk result (λ a. Suits kind a.0) }
        ensures err { OnErr result (self.new ≡ self.old) }
        ensures cause { IfErr result (refuses_coalesced self.old kind key) };

    /// Calls `decide` with the visible value of a key, does what it decides, and returns what was done; or returns the error of `decide`,
    /// and writes nothing. Returns a `CacheError` if the cache refuses the call; a lent cache is then as before.
    fn compute<E: Drop, D: FnOnce(Option<V>) -> Result<Op<V>, E> + Drop>(
        &mut self,
        key: Shared<K>,
        when: Self::When,
        decide: D,
    ) -> Result<Result<Computed<V>, E>, CacheError>
        requires exact { (x y : V) → V.is_clone x y → y ≡ x }
        requires free { may_call self.old when (Some turns.Compute) key }
        requires callable { D.IsAlwaysCallable decide }
        ensures decides { IfOk result (λ answer. IsComputed sees computed when key self.old self.new
            (λ seen decided. D.post decide seen decided) answer) }
        ensures err { OnErr result (self.new ≡ self.old) }
        ensures cause { IfErr result (refuses_computed self.old key) };
}
