//! Settings of a cache.
ghost use Rattle.std.specs.Prelude.{◌≡◌, ℕ, ◌≤◌, ◌-◌, ◌^◌, min, max};
ghost use Rattle.std.specs.Duration.{as_nanos};

use std::time::Duration;

/// The limits of maintenance: for how long a run goes on, how often it goes through the pending operations, and how many records it looks
/// at in one batch.
#[derive(Clone, Copy, Debug, PartialEq, Eq)]
pub struct HousekeeperConfig {
    /// For how long a run goes on.
    pub maintenance_task_timeout: Duration,
    /// How many times a run goes through the pending operations.
    pub max_log_sync_repeats: u32,
    /// How many records a run looks at in one batch, at least 1.
    pub eviction_batch_size: u32,
    /// The range of `eviction_batch_size`.
    pub ghost has_batch: { 1 ≤ eviction_batch_size },
}

impl HousekeeperConfig {
    /// Creates limits. `eviction_batch_size` must be at least 1.
    pub fn new(
        maintenance_task_timeout: Duration,
        max_log_sync_repeats: u32,
        eviction_batch_size: u32,
    ) -> Self
        requires { 1 ≤ eviction_batch_size }
        ensures timeout { result.maintenance_task_timeout ≡ maintenance_task_timeout }
        ensures repeats { result.max_log_sync_repeats ≡ max_log_sync_repeats }
        ensures batch { result.eviction_batch_size ≡ eviction_batch_size }
    {
        HousekeeperConfig {
            maintenance_task_timeout,
            max_log_sync_repeats,
            eviction_batch_size,
        }
    }
}

impl Default for HousekeeperConfig {
    ghost is_default = { λ c. (as_nanos c.maintenance_task_timeout ≡ 100_000_000)
        × (c.max_log_sync_repeats ≡ 4) × (c.eviction_batch_size ≡ 500) };

    /// Runs of at most a tenth of a second, which go through the pending operations at most 4 times, and look at 500 records in one batch.
    fn default() -> Self {
        HousekeeperConfig {
            maintenance_task_timeout: Duration::from_millis(100),
            max_log_sync_repeats: 4,
            eviction_batch_size: 500,
        }
    }
}

/// Returns the number of hashes for which a sketch is made if a cache has this capacity: the capacity itself, at least 128 and at most 2^32
/// - 1.
pub fn sketch_capacity(capacity: u64) -> u32
    ensures { result ≡ min (max capacity 128) (2 ^ 32 - 1) }
{
    capacity.max(128).min(u32::MAX as u64) as u32
}
