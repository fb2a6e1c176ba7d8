//! Why a call is refused.

use std::alloc::AllocError;
use thiserror::Error;

/// Why a call of a cache is refused. After a refusal nothing has changed.
#[derive(Clone, Copy, Debug, PartialEq, Eq, Drop, Error)]
pub enum CacheError {
    /// There was not enough memory for a clone or an allocation.
    #[error("out of memory")]
    OutOfMemory,
    /// The cache was built without support for predicates.
    #[error("invalidation closures disabled")]
    InvalidationClosuresDisabled,
    /// Each of a thousand identifiers that were drawn is in use.
    #[error("ids in use")]
    IdsInUse,
    /// The 64-bit numbers of writes or of turns are used up.
    #[error("used up")]
    UsedUp,
    /// No turn of this number is under way.
    #[error("unknown turn")]
    UnknownTurn,
    /// Each of 200 turns that the call waited for was abandoned.
    #[error("abandoned")]
    Abandoned,
}

impl From<AllocError> for CacheError {
    ghost use Rattle.std.specs.Prelude.{◌≡◌};
    ghost use Rattle.front_reference.specs.declared.errors.CacheError.TheVariants.{OutOfMemory};

    ghost from_gives = { λ _ e. e ≡ OutOfMemory };

    fn from(_refused: AllocError) -> Self {
        CacheError::OutOfMemory
    }
}
