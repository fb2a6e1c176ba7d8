//! The place of a part, calls on all parts, how parts are made, and which turns are under way: what a cache of several parts is put together from.
mod hashing;
mod making;
mod places;
mod turns;
mod ways;
mod wholes;

pub use crate::{BaseCache, EvictionPolicy, Notice, RemovalCause, Settings};
pub use hashing::place_of;
pub use making::{for_part, new_parts};
pub use places::{keys_at, next_notice_at};
pub use turns::{Turns, make_turn};
pub use ways::HasWays;
pub use wholes::{clear_all, count_visible, is_table_refused, run_all, sum_numbers, sum_weights};
