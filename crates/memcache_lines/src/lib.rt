//! Bytes of a connection to requests of the memcache text protocol.
#![tactic(auto)]

mod arrival;
mod line;
mod numbers;
mod storing;
mod tokens;

pub use arrival::{Arrived, Request, read_request};
pub use line::{Command, Line, read_line};
pub use numbers::{exptime, number, short_number};
pub use storing::{Head, MetaHead};
pub use tokens::next_token;
