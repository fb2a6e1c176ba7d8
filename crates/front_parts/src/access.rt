//! Selectors of an entry, over anything that gives access to a cache.
mod access;
mod entry;
mod made;
mod selector;

pub use access::Access;
pub use entry::{CompResult, Entry};
pub use made::{option_made, result_made, value_made};
pub use selector::{EntrySelector, OwnedKeyEntrySelector, RefKeyEntrySelector};
