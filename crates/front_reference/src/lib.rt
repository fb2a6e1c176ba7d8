//! The reference front: definitions of a cache of several parts, with turns, over the reference cache of one part.
#![tactic(auto)]

mod data;
mod errors;
pub mod keys;
pub mod laws;

pub use data::{At, Computed, Made, Op, OpenTurn, TurnKind, TurnStart};
pub use errors::CacheError;
pub use keys::{ClonedKey, IntoKey, LentKey, OwnedKey, Shared};
pub use laws::{calls_keep, calls_stay_close, coalesces_keep, computes_keep, runs_leave_none_idle};
