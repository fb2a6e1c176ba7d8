//! What a cache of one part keeps beside its records: pending operations, notices, predicates, the sketch, counts and settings.
#![tactic(auto)]

mod backlog;
mod covering;
mod deadlines;
pub mod fifo;
pub mod laws;
mod tickets;
pub mod timers;

pub use backlog::{Backlog, MAX_READS, MAX_WRITES};
pub use deadlines::is_dead;
pub use tickets::Ticketed;
pub use timers::Expirations;
