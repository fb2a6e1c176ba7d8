//! One connection of a service over a reader and a writer.
#![tactic(auto)]

pub mod devices;
pub mod driver;
mod drops;
mod giving;
mod lent;
mod loads;
mod serving;

pub use cache_spaces::Owed;
pub use devices::{Clock, Loader, RunError, Watched, send};
pub use driver::{
    Footing, Given, Host, Inbox, Progress, Session, close, converse, feed_piece, open, outcome_of,
    settle_next,
};
pub use serving::run;
