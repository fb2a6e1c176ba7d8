//! The reference cache: definitions of a cache of one part, and their laws.
#![tactic(auto)]

mod data;
pub mod housekeeper;
pub mod identifiers;
pub mod laws;
pub mod rules;
pub mod run_laws;

pub use data::{Entry, Notice, Read, Record, Registered, Settings, Unsent, Upsert, Write};
pub use housekeeper::{Housekeeper, InnerSync};
pub use identifiers::{draw, is_registered};
pub use rules::{
    Bundle, EvictionPolicy, Expiration, ExpirationPolicy, Expiry, Hashes, IntoKey, Names, NoExpiry,
    NoPredicate, Policy, Predicate, PredicateError, Refusal, RemovalCause, Rules, WeighOne,
    Weigher,
};
