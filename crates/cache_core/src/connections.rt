//! The connections of a namespace, of which little stays once they have closed.
mod connections;
mod guesses;
mod residents;
mod words;

pub use connections::Connections;
