//! The server that serves a namespace by a few threads, each of which waits for many connections at once.
#![tactic(auto)]

mod alarms;
mod daemon;
mod fates;
mod heralds;
mod house;
mod listening;
mod memcache;
mod paths;
mod serving;
mod starting;
mod stopping;
mod watch;
mod words;
mod writing;

pub use alarms::Alarms;
pub use daemon::{Orders, Stopped, bivrangd, serve_text};
pub use serving::{Handed, LineLoop, Report, SeatMissing, serve_namespace};
pub use starting::Told;
pub use words::{Asked, take_words};
