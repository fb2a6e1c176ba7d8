//! What the service keeps in its cache: values, the rules that they follow, and the hasher of their keys.
mod hasher;
mod rules;
mod value;

pub use hasher::{KeyedHasher, WordBuilder, WordHasher};
pub use value::StoredValue;
