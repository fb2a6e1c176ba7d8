//! What queues, sketch, timers and the cache above them share: moments, names of nodes, entries and their records, and a slab of 32-bit keys.
#![tactic(auto)]

mod cells;
mod config;
mod entry_info;
mod moment;
mod name;
mod records;
mod sketch;

pub use cells::{Cells, MOST_CELLS};
pub use config::{HousekeeperConfig, sketch_capacity};
pub use entry_info::{EntryInfo, UsedUp};
pub use moment::{AccessTime, Instant, MAX_NANOS};
pub use name::{CacheRegion, NodeId};
pub use records::{
    DeqNode, DeqNodes, KeyHash, KeyHashDate, KvEntry, OldEntryInfo, ReadOp, Slot, ValueEntry,
    WriteOp,
};
pub use sketch::{FrequencySketch, own_counts_stand};
