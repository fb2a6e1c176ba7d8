//! An iterator over what is visible in a cache.
mod iter;
mod keys;
mod scanning;

pub use iter::Iter;
pub use scanning::ScanningGet;
