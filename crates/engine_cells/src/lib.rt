//! The cells of the fast tables of a cache of one part, and what is done with several of them: finding, listing, walks, totals, timers.
#![tactic(auto)]

mod cell;
mod cell_slab;
mod finding;
pub mod keys;
mod listing;
mod looking;
mod noting;
mod rooms;
mod showing;
mod tally;
mod timing;
mod trail;
mod write_order;

pub use cell::Cell;
pub use cell_slab::CellSlab;
pub use finding::{find_held, find_number, take_if};
pub use keys::{Keys, MOST_PLACES};
pub use listing::push_held_keys;
pub use looking::{first_expired, first_settled};
pub use noting::{Noted, PlacedWrite, WaitingWrite};
pub use rooms::grow;
pub use showing::count_shown;
pub use tally::Tally;
pub use timing::{set_changed, time_all};
pub use trail::Trail;
pub use write_order::{WriteOrder, put_last, take_off};
