//! A cache of one part: expiry, admission, eviction, invalidation, maintenance. Its owner passes hashes, moments and steps, sends the
//! tickets of its writes, and takes its notices.
#![tactic(auto)]

mod cache;
mod noting;
mod showing;

pub use cache::BaseCache;
pub use engine_reference::{
    Bundle, Entry, EvictionPolicy, Expiration, ExpirationPolicy, Expiry, Housekeeper, InnerSync,
    IntoKey, Names, NoExpiry, NoPredicate, Notice, Policy, Predicate, PredicateError, Read, Record,
    Refusal, Registered, RemovalCause, Rules, Settings, Unsent, Upsert, WeighOne, Weigher, Write,
};
pub use policy_base::{HousekeeperConfig, Instant};

/// Functions whose contracts are laws of the definitions that contracts cite.
pub mod laws {
    pub use engine_reference::laws::{
        calls_stay_sound, counts_are_exact, counts_are_kept, cover_shows_nothing,
        evicts_shortest_front, halves_are_whole, name_is_kept, nothing_taken_for_size,
        runs_keep_rest, runs_keep_visible, runs_stay_sound, runs_tell, sending_keeps_visible,
        steps_tell, unapplied_stay,
    };
    pub use engine_reference::run_laws::laws::{
        calls_keep_apart, calls_stay_in_order, calls_stay_timely, looking_at_all_sweeps,
        only_writes_show, run_tells_justly, runs_evict_shortest_front, runs_leave_order,
        runs_stay_in_order, size_has_point, uncut_runs_leave_none_due, uncut_runs_stay_timely,
    };
}
