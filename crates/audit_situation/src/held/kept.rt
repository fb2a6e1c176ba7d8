//! What is kept of a value beside its key.
use audit_model::Bytes;

/// A value without its key. Moments are in nanoseconds.
#[derive(Drop)]
pub struct StoredValue {
    /// The bytes of the value.
    pub bytes: Bytes,
    /// The number of the value's part.
    pub part: u64,
    /// What the value weighs.
    pub weight: u64,
    /// The moment at which the value was accepted.
    pub accepted_at: u64,
    /// The value's own deadline, or `None` if it has none.
    pub own_deadline: Option<u64>,
    /// The moment at which the value was last used.
    pub last_use: u64,
    /// The value's number, which distinguishes it from values that were accepted later.
    pub stamp: u64,
}
