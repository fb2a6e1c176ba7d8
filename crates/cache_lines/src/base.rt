//! What a connection's lines run over.

use crate::tape::Tape;
use cache_commands::{Keyed, Loads, Store};

/// What a connection's lines run over: the store, the loads under way, and the tape of the record under way.
#[derive(Drop)]
pub struct Base<S: Store, T: Tape> {
    /// The store.
    pub store: Keyed<S>,
    /// The loads under way.
    pub loads: Loads,
    /// The tape of the record under way.
    pub tape: T,
}
