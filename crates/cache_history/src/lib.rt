//! What is done to a value under a lock, hold by hold: a history that exists in proofs alone, and tokens that claim holds of it.
#![tactic(auto)]

mod claims;
mod keeper;
mod known;

pub use claims::Claims;
pub use keeper::{Keeper, Opened};
pub use known::{Kept, Known, Law, Naming, Own};
