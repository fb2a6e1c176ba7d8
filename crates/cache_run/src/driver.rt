//! The driver of a connection, for any host.
mod driving;
mod feeding;
mod handing;
mod host;
mod inbox;
mod session;
mod settling;

pub use driving::{Progress, close, converse, open, outcome_of};
pub use feeding::feed_piece;
pub use host::{Given, Host};
pub use inbox::Inbox;
pub use session::{Footing, Session};
pub use settling::settle_next;
