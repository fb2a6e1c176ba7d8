//! What each command does over any store.
#![tactic(auto)]

mod asking;
mod commands;
mod covering;
mod error;
mod keyed;
mod loading;
pub mod loads;
mod running;
mod store;
mod sums;
mod writing;

pub use asking::{has, keys, quit};
pub use commands::{SHORT, accepts, del, fault, get, set, sync};
pub use covering::{clear, drop_prefix};
pub use error::StoreError;
pub use keyed::Keyed;
pub use loading::{load, write_abandoned, write_outcome};
pub use loads::{Load, Loads, Standing, is_holding, is_waiting};
pub use running::Ran;
pub use store::{Counts, Store};
pub use sums::add;
pub use writing::push_within;
