//! Who waits for which turn of a cache that threads share, how turns end, and what names a key of one.
mod names;
mod slot;
mod slots;

pub use names::{Asked, SharedName, WaitingName};
pub use slot::Ending;
pub use slots::{Slots, copy_made};
