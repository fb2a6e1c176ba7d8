//! What a server of the memcache text protocol is asked and what is right: the types, and the definitions that contracts cite.
#![tactic(auto)]

mod command;
mod counters;
mod fault;
pub mod laws;

pub use command::{Direction, Exptime, Meta, Storage, Verb};
pub use counters::{Counters, Looks, add, up};
pub use fault::ProtocolError;

/// The maximum number of bytes of a key.
pub const MAX_KEY: usize = 250;

/// The maximum number of bytes of a line before its line feed, unless it may name many keys.
pub const MAX_LINE: usize = 65_536;

/// The maximum number of bytes of a `get`, `gets`, `gat` or `gats` before its line feed.
pub const MAX_KEYS_LINE: usize = 2_097_152;
