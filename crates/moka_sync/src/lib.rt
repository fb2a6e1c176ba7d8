//! Bounded caches of values by key that threads share, under one lock or one for each shard. Each missing value is made by only one of
//! several callers.
#![tactic(auto)]

mod attached;
mod building;
mod cache;
mod coalescing;
mod computing;
mod covering;
mod inner;
mod iterator;
mod making;
mod naming;
mod refusable;
mod selecting;
mod sharded;
mod shared;
mod sizing;
mod spreading;
mod turns;
mod wholes;

pub use attached::Attached;
pub use building::{Build, OneLock, PlainCache};
pub use cache::{Cache, SegmentedCache, SharedCache};
pub use covering::AllDesks;
pub use iterator::Iter;
pub use moka::{
    Access, BuildError, Bundle, ByCreation, BytesName, CacheBuilder, CacheError, CompResult,
    Computed, Entry, EntrySelector, EvictionPolicy, Expiration, ExpirationPolicy, Expiry,
    HashedName, Instant, KeyPrefix, Lifetime, Made, Names, NoExpiry, NoPredicate, Notice, Op,
    OwnedKeyEntrySelector, PlainBuilder, PlainRules, Policy, Predicate, PredicateError,
    PredicateId, RefKeyEntrySelector, RemovalCause, Rules, Segmented, Sharded, Shared, Single,
    StdHasher, TextName, TurnKind, WeighBytes, WeighOne, Weigher,
};
pub use selecting::SharedSelector;
pub use sharded::ShardedCache;
pub use shared::SharedDesk;
pub use sizing::shards_for;
pub use sync_desk::{
    Dial, DialEnv, Ending as WaiterValue, Env, Fork, MachineEnv, MachineWatch, Watch,
};
pub use wholes::ConcurrentCacheExt;
