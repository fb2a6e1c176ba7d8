//! Sources of moments and loaded values.
ghost use Rattle.std.specs.Prelude.{ℕ, List, Option};
ghost use Rattle.audit_model.specs.declared.event.Outcome.{Outcome};

use audit_model::Outcome;

/// A clock that says which readings are possible, so that contracts can describe the moments at which a connection was served.
pub trait Clock {
    /// In one state a reading is possible, and leads to another state.
    ghost reads: { Self → ℕ → Self → Type 0 };

    /// Returns the moment, in nanoseconds. A moment above 2^63 - 1 ends a run with `Moment`; one before the namespace's latest counts as
    /// the latest.
    fn now(&mut self) -> u64
        ensures { reads self.old result self.new };
}

/// A source of values by key, which says which results are possible.
pub trait Loader {
    /// In one state a result for a key is possible, or none, and leads to another state.
    ghost loads: { Self → List ℕ → Option Outcome → Self → Type 0 };

    /// Returns the outcome of a key's load: a value, that there is none, or a fault. `None` gives up the load, so that those that wait for
    /// it ask again.
    fn load(&mut self, key: &[u8]) -> Option<Outcome>
        ensures { loads self.old key.now result self.new };
}
