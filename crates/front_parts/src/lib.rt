//! The calls of the front on one part. Each sends the ticket of its write, and runs maintenance if it is due.
#![tactic(auto)]

pub mod access;
mod coalesced;
mod computed;
pub mod iterator;
mod part;
pub mod places;
mod removals;
pub mod wholes;

pub use access::{
    Access, CompResult, Entry, EntrySelector, OwnedKeyEntrySelector, RefKeyEntrySelector,
    option_made, result_made, value_made,
};
pub use coalesced::coalesce;
pub use computed::{compute, shown_put, shown_removed, shown_unchanged};
pub use iterator::{Iter, ScanningGet};
pub use moka_engine::{BaseCache, EvictionPolicy, Notice, RemovalCause, Settings};
pub use part::{
    insert, insert_by_name, insert_or_back, insert_reserved, reserve_insert, run_pending_tasks,
};
pub use places::{
    HasWays, Turns, clear_all, count_visible, for_part, is_table_refused, keys_at, make_turn,
    new_parts, next_notice_at, place_of, run_all, sum_numbers, sum_weights,
};
pub use removals::{invalidate, remove};
pub use wholes::{clone_each, cover_all, next_notice, write_id};
