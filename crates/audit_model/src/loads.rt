//! Numbers of loads under way, by their keys and by the connections that wait for them.
mod joined;
mod keys;

pub use joined::{load_of, put_waiting, take_waiting};
pub use keys::{number_at, put_key, remove_key};
