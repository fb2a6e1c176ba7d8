//! Why a cache cannot be built.

use std::alloc::AllocError;
use thiserror::Error;

/// Why a cache cannot be built, in the order in which the causes are checked.
#[derive(Clone, Copy, Debug, PartialEq, Eq, Drop, Error)]
pub enum BuildError {
    /// The time to live is longer than 1000 years of 365 days.
    #[error("time_to_live is longer than 1000 years")]
    TimeToLiveTooLong,
    /// The time to idle is longer than 1000 years of 365 days.
    #[error("time_to_idle is longer than 1000 years")]
    TimeToIdleTooLong,
    /// The number of segments is 0.
    #[error("no segments")]
    NoSegments,
    /// The number of segments is above 65,536.
    #[error("too many segments")]
    TooManySegments,
    /// There was not enough memory.
    #[error("out of memory")]
    OutOfMemory,
}

impl From<AllocError> for BuildError {
    ghost use Rattle.std.specs.Prelude.{◌≡◌};
    ghost use Rattle.moka.specs.declared.errors.BuildError.TheVariants.{OutOfMemory};

    ghost from_gives = { λ _ e. e ≡ OutOfMemory };

    fn from(_refused: AllocError) -> Self {
        BuildError::OutOfMemory
    }
}
