//! What the judge of transcripts keeps between two steps: the situation of the definitions, as data.
#![tactic(auto)]

pub mod actions;
pub mod held;
mod joined;
mod link;
mod links;
mod loads;
pub mod notes;
mod numbered;
mod pending;
mod state;
mod waiters;

pub use actions::{Doing, found, loads_rightly, may_refuse};
pub use held::{Held, Holding, Parts, Seen};
pub use link::{Link, LinkStanding, Moving, first_line};
pub use links::Links;
pub use loads::LoadTable;
pub use notes::{Covering, Deed, PARTS, do_deed, is_live, is_over, limit_of, live, part_count};
pub use pending::Pending;
pub use state::{
    Moved, State, begin, close, feed, find_link, find_load, find_pending, is_holding, may_run,
    open, pass, settle, waited,
};
pub use waiters::Waiters;
