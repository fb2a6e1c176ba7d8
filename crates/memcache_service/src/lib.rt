//! A server of the memcache text protocol over a shelf of items: connections, what requests do, statistics.
#![tactic(auto)]

mod connection;
mod item;
pub mod laws;
mod replies;
mod service;
mod shelf;
mod stock;

pub use connection::Connection;
pub use item::StoredItem;
pub use service::{Conn, Service};
pub use shelf::Shelf;
pub use stock::{Setup, Stock};
