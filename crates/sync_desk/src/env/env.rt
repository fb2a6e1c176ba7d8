//! The source of moments and random words.
ghost use Rattle.std.specs.Prelude.{ℕ, ⊤};

use policy_base::Instant;
use rand_core::Rng;

/// Gives moments, to any number of threads at a time. A cache reads the moment of a call before the call takes the lock.
///
/// Moments may fall: a cache treats a moment before its last as the last.
pub trait Watch {
    /// Whether this is a moment that the watch may give.
    ghost may_give: { Self → ℕ → Type 0 } = { λ _ _. ⊤ };

    /// Returns the moment at which a call comes.
    fn now(&self) -> Instant
        ensures { may_give self.now result };
}

/// Gives a cache its moments and its random words. When a cache is built, its environment is split: the watch is read outside the cache's
/// lock, and the generator is used under the lock, by one call at a time. Threads share a cache if the watch is `Send` and `Sync`, and the
/// generator is `Send`.
pub trait Env: Watch {
    /// What gives the moments.
    type Watch: Watch + Drop;

    /// What gives the random words.
    type Generator: Rng + Drop;

    /// Returns the watch, which gives the environment's moments, and the generator.
    fn split(self) -> (Self::Watch, Self::Generator);
}
