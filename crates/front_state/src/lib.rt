//! A cache of one or several parts, lent by `&mut`.
#![tactic(auto)]

mod state;

pub use front_parts::{EvictionPolicy, Notice, RemovalCause, Settings};
pub use state::{
    BytesName, HashedName, LentState, PredicateId, Segmented, Sharded, Single, TextName,
};
