//! One connection of a namespace, over any store and any tape.
mod again;
mod connection;
mod feeding;
mod standing;
mod taking;
mod telling;

pub use again::run_again;
pub use connection::{Connection, new_connection};
pub use feeding::{feed_connection, feed_ready};
pub use taking::{Taken, take_owed};
pub use telling::deliver;
