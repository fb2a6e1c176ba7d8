//! Why a connection stops before its end.
use thiserror::Error;

/// Why `run`, or `serve` of a shared service, stopped before its end. What was written is a prefix of the replies.
#[derive(Clone, Copy, Debug, PartialEq, Eq, Drop, Error)]
pub enum RunError {
    /// The reader failed in a read that was not interrupted.
    #[error("read")]
    Read,
    /// The writer failed, took none of the bytes, or was interrupted again and again.
    #[error("write")]
    Write,
    /// There was not enough memory for the buffer, for an event, or for a line, which was held back.
    #[error("out of memory")]
    OutOfMemory,
    /// A 64-bit count (of turns, of inputs) was used up.
    #[error("used up")]
    UsedUp,
    /// The clock gave a moment above 2^63 - 1 nanoseconds.
    #[error("moment")]
    Moment,
}
