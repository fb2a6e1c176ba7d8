//! Rows of a cache that threads share, held by counted gates, and a use of it.
//!
//! Which rows cover the tests of Rust's `moka`:
//!
//! - `build_cache`, `build_segmented_cache`, `non_power_of_two_segments`: `builders`, `parts_are_rounded`;
//!   `front_tests`: `a_cache_shows_its_settings`, `rows_of_segments`
//! - `build_cache_too_long_ttl`, `.._tti`: `front_tests`: `rows_of_builders`
//! - `max_capacity_zero`: `capacity_zero_keeps_nothing`; `front_tests`: `parts_have_their_shares`
//! - `basic_single_thread`, `basic_lru_single_thread`: `calls_of_one_thread`; who is evicted: `what_leaves_is_told`;
//!   `front_tests`: `what_leaves_is_told`, and `engine_tests`
//! - `size_aware_eviction`: `engine_tests`: `frequencies_of_the_engine`
//! - `basic_multi_threads`: `four_threads_make_count_and_write` (`Work::Write`)
//! - `invalidate_all`, `get_with_if`: `calls_of_one_thread`
//! - `invalidate_entries_if`: `names_are_covered`, `predicates_have_identifiers`; `front_tests`: `predicates`
//! - `test_iter`, `test_iter_multi_threads`: `iterators_beside_writers`
//! - `get_with`, `try_get_with`, `optionally_get_with`: `a_turn_is_answered_to_all`; `get_with` also
//!   `four_threads_make_count_and_write`
//! - `borrowed_forms_of_key`: `prices_are_named`; `front_tests`: `names_find_their_keys`
//! - `drop_value_immediately_after_eviction`: `six_hundred_into_five_hundred`
//! - `test_debug_format`: `prints_as_map`
//! - those of times (`time_to_live`, `time_to_idle`, `.._by_expiry_type`, `test_expiry_using_get_with`,
//!   `expire_after_update_none_on_expired_entry`, `ensure_access_time_is_updated_immediately_after_read`):
//!   `what_leaves_is_told`, `an_idle_login_ends`, `a_ticket_ends_by_itself`; `front_tests`:
//!   `calls_make_values`, `what_leaves_is_told`; `engine_tests`
#![tactic(auto)]

#[cfg(test)]
mod caches;
#[cfg(test)]
mod calls;
#[cfg(test)]
mod choosing;
#[cfg(test)]
mod clock;
#[cfg(test)]
mod covering;
#[cfg(test)]
mod crowds;
#[cfg(test)]
mod entries;
#[cfg(test)]
mod forms;
#[cfg(test)]
mod leaving;
#[cfg(test)]
mod machines;
#[cfg(test)]
mod making;
#[cfg(test)]
mod numbers;
#[cfg(test)]
mod plain;
#[cfg(test)]
mod refusing;
#[cfg(test)]
mod replacing;
#[cfg(test)]
mod resolver;
#[cfg(test)]
mod resolving;
#[cfg(test)]
mod rows;
#[cfg(test)]
mod scenes;
#[cfg(test)]
mod sharding;
#[cfg(test)]
mod telling;
#[cfg(test)]
mod turns;
#[cfg(test)]
mod uses;
#[cfg(test)]
mod visiting;
#[cfg(test)]
mod wholes;
