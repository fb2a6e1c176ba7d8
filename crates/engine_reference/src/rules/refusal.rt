//! Why a call of a cache is refused.

use std::alloc::AllocError;
use thiserror::Error;

/// Why a call is refused. After a refusal nothing has changed.
#[derive(Clone, Copy, Debug, PartialEq, Eq, Drop, Error)]
pub enum Refusal {
    /// There was not enough memory.
    #[error("out of memory")]
    OutOfMemory,
    /// No write waits under this ticket.
    #[error("unknown ticket")]
    UnknownTicket,
    /// The queue of writes is full until the next run: 128 writes wait.
    #[error("queue full")]
    QueueFull,
    /// The cache was created without support for predicates.
    #[error("invalidation closures disabled")]
    InvalidationClosuresDisabled,
    /// Each of a thousand identifiers that were drawn is registered.
    #[error("ids in use")]
    IdsInUse,
    /// The 64-bit tickets are used up.
    #[error("used up")]
    UsedUp,
}

impl From<AllocError> for Refusal {
    ghost use Rattle.std.specs.Prelude.{◌≡◌};
    ghost use Rattle.engine_reference.specs.declared.rules.refusal.Refusal.TheVariants.{OutOfMemory};

    ghost from_gives = { λ _ e. e ≡ OutOfMemory };

    fn from(_refused: AllocError) -> Self {
        Refusal::OutOfMemory
    }
}
