//! The inside of a namespace.
use crate::connections::Connections;
use cache_commands::Store;
use cache_lines::{Base, Tape};

/// The connections of a namespace, and what their lines run over.
#[derive(Drop)]
pub struct Interior<S: Store, T: Tape> {
    /// What lines run over.
    pub base: Base<S, T>,
    /// The connections.
    pub connections: Connections,
}
