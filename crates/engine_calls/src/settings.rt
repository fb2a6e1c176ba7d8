//! What a cache shows of its settings.
ghost use Rattle.std.specs.Prelude.{◌≡◌, option_map};
ghost use Rattle.std.specs.Duration.{as_nanos};
ghost use Rattle.engine_reference.specs.Calls.{removal_rooms};

use engine_reference::{Policy, Settings};
use std::time::Duration;

/// A time of this many nanoseconds, if there is one.
fn time_of(nanos: Option<u64>) -> Option<Duration>
    ensures { option_map as_nanos result ≡ nanos }
{
    match nanos {
        Some(nanos) => Some(Duration::from_nanos(nanos)),
        None => None,
    }
}

/// Returns what a cache of one part shows of its settings.
pub fn policy_of(settings: Settings) -> Policy
    ensures capacity { result.max_capacity ≡ settings.capacity }
    ensures parts { result.num_segments ≡ 1 }
    ensures live { option_map as_nanos result.time_to_live ≡ settings.live }
    ensures idle { option_map as_nanos result.time_to_idle ≡ settings.idle }
{
    Policy::new(
        settings.capacity,
        1,
        time_of(settings.live),
        time_of(settings.idle),
    )
}

/// Returns how many writes' room a removal by key needs: one for its own write and, if removals are reported, one for its notice.
pub fn rooms_of_removal(settings: Settings) -> u64
    ensures { result ≡ removal_rooms settings }
{
    if settings.tells { 2 } else { 1 }
}
