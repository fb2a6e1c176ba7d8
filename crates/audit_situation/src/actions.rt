//! What a step of a transcript does, and the load that it owes.
mod doing;
mod owing;

pub use doing::Doing;
pub use owing::{found, loads_rightly, may_refuse};
