//! What a connection is owed.
use audit_model::{Bytes, Closing, LoadId};

/// What a connection is owed, moved out.
#[derive(Drop)]
pub struct Owed {
    /// The replies of the connection that were not taken; `None` if there was not enough memory for a copy: the replies then come when
    /// replies are next taken.
    pub replies: Option<Vec<u8>>,
    /// The loads of the namespace of the connection that had gone out and were not taken, if they were requested.
    pub loads: Option<Vec<(LoadId, Bytes)>>,
    /// Why the connection is closed, if it is.
    pub closing: Option<Closing>,
    /// Whether a `LOAD` of the connection waits for its load.
    pub waits: bool,
}
