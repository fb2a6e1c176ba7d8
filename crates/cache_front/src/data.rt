//! What a store over a front has, and what it does with it: calls of the front, notices on their way out, live keys, and how it is made.
mod calling;
mod draining;
mod listing;
mod making;

use crate::entries::StoredValue;
use audit_model::{Key, Weight};
pub use calling::{
    at_last_step, bytes_found, clear, cover, insert, invalidate, prepare, read_bytes,
};
pub use draining::{WaitingNote, drain, drain_at};
pub use front_state::{LentState, Segmented};
pub use listing::write_keys;
pub use making::{bits_of, settings_of};
use std::collections::VecDeque;

/// The front of a store, which hashes its keys with `S`.
pub type Front<S> = LentState<Key, StoredValue, S, Weight, Segmented>;

/// Notes of what a front reported, the oldest first.
pub type Notes = VecDeque<WaitingNote>;
