//! The structures behind a cache's policy: moments, records, queues, a frequency sketch and timers.
#![tactic(auto)]

pub mod deques;

pub use deques::Deques;
pub use policy_base::{
    AccessTime, CacheRegion, DeqNode, DeqNodes, EntryInfo, FrequencySketch, HousekeeperConfig,
    Instant, KeyHash, KeyHashDate, KvEntry, MAX_NANOS, NodeId, OldEntryInfo, ReadOp, Slot, UsedUp,
    ValueEntry, WriteOp, sketch_capacity,
};
pub use policy_queue::{
    Cursor, Deque, Due, Node, PushError, ReschedulingResult, ReserveError, ScheduleError, Stale,
    StaleTimer, Timer, TimerEvent, TimerEventsIter, TimerNode, TimerWheel,
};

/// Functions whose contracts are laws.
pub mod laws {
    pub use crate::deques::Deques;
    pub use policy_base::own_counts_stand;
    pub use policy_queue::timers::laws::{advances_give_the_due, next_event};
    pub use policy_queue::{names_stand, stale_names_stay_stale, walks_give_each_once};
}
