//! The rules of a cache: how much a value weighs, how long it lives, what a predicate covers, what is evicted, and why a value left.
mod causes;
mod expiry;
mod hashing;
mod names;
mod refusal;
mod rules;
mod settings;

pub use causes::{PredicateError, RemovalCause};
pub use expiry::{Expiration, Expiry, NoExpiry};
pub use hashing::Hashes;
pub use names::{IntoKey, Names};
pub use refusal::Refusal;
pub use rules::{Bundle, NoPredicate, Predicate, Rules, WeighOne, Weigher};
pub use settings::{EvictionPolicy, ExpirationPolicy, Policy};
