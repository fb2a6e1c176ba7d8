//! A bounded cache of values by key, on a state that its owner lends: capacity by number or weight, times to live and to idle, own
//! expirations, calls that make a value once per key, selectors of an entry.
#![tactic(auto)]

mod bounding;
mod builder;
mod calling;
mod errors;
mod ready;
mod settling;
mod states;

pub use builder::{CacheBuilder, Shards};
pub use calling::next_call;
pub use errors::BuildError;
pub use front_parts::{
    Access, CompResult, Entry, EntrySelector, HasWays, Iter, OwnedKeyEntrySelector,
    RefKeyEntrySelector, ScanningGet,
};
pub use front_reference::{
    At, CacheError, ClonedKey, Computed, IntoKey, LentKey, Made, Op, OpenTurn, OwnedKey, Shared,
    TurnKind, TurnStart,
};
pub use front_state::{
    BytesName, HashedName, LentState, PredicateId, Segmented, Sharded, Single, TextName,
};
pub use moka_engine::{
    Bundle, EvictionPolicy, Expiration, ExpirationPolicy, Expiry, Instant, Names, NoExpiry,
    NoPredicate, Notice, Policy, Predicate, PredicateError, RemovalCause, Rules, Settings,
    WeighOne, Weigher,
};
pub use ready::{ByCreation, KeyPrefix, Lifetime, WeighBytes};
pub use states::{
    CacheState, NewSegmentedState, NewState, PlainBuilder, PlainRules, SegmentedState, StdHasher,
};

/// Functions whose contracts are laws of the definitions that contracts cite.
pub mod laws {
    pub use front_reference::{
        calls_keep, calls_stay_close, coalesces_keep, computes_keep, runs_leave_none_idle,
    };
    pub use moka_engine::laws::{only_writes_show, run_tells_justly, size_has_point};
}
