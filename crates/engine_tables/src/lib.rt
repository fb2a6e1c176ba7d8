//! The fast tables of a cache of one part: records in a slab, lists in queues, places by hash. Contracts speak of the reference cache's state.
#![tactic(auto)]

mod tables;

pub use tables::Tables;
