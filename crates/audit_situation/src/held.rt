//! The values held: by key, oldest first, with what is true of them, and the part of each key.
mod held;
mod holding;
mod kept;
mod open;
mod parts;
mod sums;
mod table;

pub use held::{Held, Seen};
pub use holding::Holding;
pub use parts::Parts;
