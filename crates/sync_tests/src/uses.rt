//! Uses to copy, topic by topic. `docs/FROM_MOKA.md` shows them beside the Rust's.
mod basic;
mod expiry;
mod failing;
mod hasher;
pub mod iteration;
pub mod making;
mod names;
pub mod notices;
mod pages;
mod predicates;
mod shared;
mod template;
mod texts;
pub mod times;
pub mod upserts;
mod weigher;
