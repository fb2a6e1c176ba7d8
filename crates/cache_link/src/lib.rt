//! One connection between the wake-ups of its socket.
#![tactic(auto)]

mod attending;
mod backlog;
mod link;
mod patient;
mod tools;

pub use backlog::Backlog;
pub use link::{Link, Next, Report};
pub use patient::Patient;
pub use tools::{Room, Tools};
