//! When places expire: the first of them is found at once.
mod expirations;
mod firsts;
mod places;

pub use expirations::Expirations;
