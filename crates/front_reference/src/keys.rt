//! Shared keys, hashers, rules, predicates and values. Contracts see the value that is shared, and not who shares it.
mod into_key;
mod lent;
mod rules;
mod shared;

pub use engine_reference::IntoKey;
pub use into_key::{ClonedKey, OwnedKey};
pub use lent::LentKey;
pub use shared::Shared;
