//! Refusals.
ghost use Rattle.std.specs.Prelude.{◌≡◌};
ghost use Rattle.cache_commands.specs.declared.error.StoreError.TheVariants.{OutOfMemory};

use std::alloc::AllocError;

/// Why a store refuses a call.
#[derive(Clone, Copy, Debug, PartialEq, Eq, Drop)]
pub enum StoreError {
    /// There is not enough memory.
    OutOfMemory,
    /// A 64-bit number that the call raises is used up.
    UsedUp,
}

impl From<AllocError> for StoreError {
    ghost from_gives = { λ _ e. e ≡ OutOfMemory };

    fn from(_error: AllocError) -> StoreError {
        StoreError::OutOfMemory
    }
}
