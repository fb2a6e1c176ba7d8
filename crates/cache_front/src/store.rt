//! The values of a namespace over the cache: a `Store` on a front of one or several parts.
mod store;

pub use store::FrontStore;
