//! The values of a namespace over the cache: the store `FrontStore` on a front of one or several parts, and what it keeps there.
#![tactic(auto)]

pub mod data;
pub mod entries;
pub mod store;

pub use data::{
    Front, LentState, Notes, Segmented, bits_of, clear, cover, drain, insert, invalidate, prepare,
    settings_of, write_keys,
};
pub use entries::{KeyedHasher, StoredValue, WordBuilder, WordHasher};
pub use store::FrontStore;
