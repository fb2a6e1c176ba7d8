//! Checking and converting a builder's settings.
ghost use Rattle.std.specs.Prelude.{◌≡◌, ◌+◌, ◌<◌, ◌≤◌, ◌^◌, ℕ, Some, None};
ghost use Rattle.std.specs.Duration.{as_nanos};
ghost use Rattle.moka.specs.Building.{as_limit, is_too_long, segments_fault, time_fault};

use crate::errors::BuildError;
use policy_base::Instant;
use std::time::Duration;

/// The longest time to live or to idle, in nanoseconds: 1000 years of 365 days.
const MAX_TIME: u128 = 31_536_000_000_000_000_000;

/// The maximum number of segments of a cache.
const MAX_SEGMENTS: usize = 65_536;

/// Whether a time is longer than 1000 years.
fn is_too_long(time: Option<Duration>) -> bool
    ensures { result ≡ is_too_long time }
{
    match time {
        Some(time) => MAX_TIME < time.as_nanos(),
        None => false,
    }
}

/// What is wrong with the times, if anything.
pub(crate) fn time_fault(live: Option<Duration>, idle: Option<Duration>) -> Option<BuildError>
    ensures { result ≡ time_fault live idle }
{
    if is_too_long(live) {
        Some(BuildError::TimeToLiveTooLong)
    } else if is_too_long(idle) {
        Some(BuildError::TimeToIdleTooLong)
    } else {
        None
    }
}

/// What is wrong with the number of segments, if anything.
pub(crate) fn segments_fault(segments: usize) -> Option<BuildError>
    ensures { result ≡ segments_fault segments }
{
    if segments == 0 {
        Some(BuildError::NoSegments)
    } else if MAX_SEGMENTS < segments {
        Some(BuildError::TooManySegments)
    } else {
        None
    }
}

/// A time in nanoseconds, at most the last moment.
pub(crate) fn as_limit(time: Option<Duration>) -> Option<u64>
    ensures { result ≡ as_limit time }
{
    match time {
        Some(time) => Some(Instant::duration_to_saturating_nanoseconds(time)),
        None => None,
    }
}

/// The number of bits that are needed to number this many segments.
pub(crate) fn bits_for(segments: usize) -> u32
    requires { segments ≤ 65536 }
    ensures enough { segments ≤ 2 ^ result }
    ensures few { result ≤ 16 }
    ensures least { (bits : ℕ) → segments ≤ 2 ^ bits → result ≤ bits }
{
    let mut bits = 0u32;
    while bits < 16 && 2_usize.pow(bits) < segments {
        bits += 1;
    }
    bits
}
