//! Calls on all parts of a cache at once: taking notices, and registering predicates in all parts or in none.
mod clones;
mod covering;
mod notices;
mod rooms;

pub use clones::{clone_each, write_id};
pub use covering::cover_all;
pub use notices::next_notice;
