//! The queues of a cache's entries: one in order of use for each region, and one in order of writes.
mod deques;
mod nodes;

pub use deques::Deques;
