//! One namespace.
#![tactic(auto)]

mod answering;
pub mod connection;
pub mod connections;
mod giving_up;
pub mod interior;
mod namespace;
mod owing;
mod places;
mod recording;
mod refusing;
mod reserving;
mod settling;

pub use namespace::Namespace;
pub use owing::Owed;
