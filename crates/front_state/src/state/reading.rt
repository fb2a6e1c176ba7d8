//! Properties of a cache.
ghost use Rattle.std.specs.Prelude.{◌≡◌, option_map};
ghost use Rattle.std.specs.Duration.{as_nanos};
ghost use Rattle.front_reference.specs.Wholes.{total_number, total_weight};
ghost use Rattle.front_state.specs.Reading.{ShowsPolicy};

use crate::state::LentState;
use engine_reference::{Policy, Rules};
use front_parts::{sum_numbers, sum_weights};
use front_reference::At;
use std::hash::{BuildHasher, Hash};
use std::time::Duration;

impl<K: Eq + Hash, V, S: BuildHasher, R: Rules<K, V>, C> LentState<K, V, S, R, C> {
    /// Returns the name of the cache, or `None` if it has none.
    /// ```
    /// let title = cache.name().unwrap_or("a cache");
    /// ```
    pub fn name(&self) -> Option<&str>
        ensures { option_map (λ text. text.now) result ≡ self.now.name }
    {
        match &self.name {
            Some(name) => Some(name.as_str()),
            None => None,
        }
    }

    /// Returns the settings of the cache: the maximum capacity, the number of parts, and the time to live and to idle, each at most 2^64 -
    /// 2 nanoseconds.
    /// ```
    /// let capacity = cache.policy().max_capacity();
    /// ```
    pub fn policy(&self) -> Policy
        ensures { ShowsPolicy self.now result }
    {
        Policy::new(
            self.capacity,
            self.parts.len(),
            as_duration(self.settings.live),
            as_duration(self.settings.idle),
        )
    }

    /// Returns whether the cache accepts predicates (`invalidate_entries_if`).
    /// ```
    /// assert!(rt; cache.takes_predicates());
    /// ```
    pub fn takes_predicates(&self) -> bool
        ensures { result ≡ self.now.common.settings.takes_predicates }
    {
        self.settings.takes_predicates
    }

    /// Returns the number of entries as of the last run of each part, at most 2^64 - 1.
    /// Writes and removals since then are not counted yet, and expired values still are: after `run_pending_tasks` the number is exact.
    /// `count_visible` counts what is visible now.
    /// ```
    /// cache.run_pending_tasks(at);
    /// let number = cache.entry_count();
    /// ```
    pub fn entry_count(&self) -> u64
        ensures { result ≡ total_number self.now }
    {
        sum_numbers(self.parts.as_slice())
    }

    /// Returns the total weight of the entries as of the last run of each part, at most 2^64 - 1. The weight is as approximate as
    /// `entry_count`.
    /// ```
    /// cache.run_pending_tasks(at);
    /// let weight = cache.weighted_size();
    /// ```
    pub fn weighted_size(&self) -> u64
        ensures { result ≡ total_weight self.now }
    {
        sum_weights(self.parts.as_slice())
    }

    /// Returns the moment and the step of the last call. The next call may not have an earlier moment or step, and needs a later step if it
    /// covers what was written before.
    /// ```
    /// let last = cache.last_call();
    /// let at = At { now: clock.max(last.now), step: last.step.checked_add(1)? };
    /// ```
    pub fn last_call(&self) -> At
        ensures now { result.now ≡ self.now.moment }
        ensures step { result.step ≡ self.now.step }
    {
        At {
            now: self.moment,
            step: self.step,
        }
    }
}

/// A time as a `Duration`.
fn as_duration(nanos: Option<u64>) -> Option<Duration>
    ensures { option_map as_nanos result ≡ nanos }
{
    match nanos {
        Some(nanos) => Some(Duration::from_nanos(nanos)),
        None => None,
    }
}
