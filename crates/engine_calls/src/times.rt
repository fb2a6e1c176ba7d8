//! Deadlines.
ghost use Rattle.std.specs.Prelude.{◌≡◌, ◌-◌, option_map};
ghost use Rattle.std.specs.Duration.{as_nanos};
ghost use Rattle.policy_base.specs.Info.{kept_time};
ghost use Rattle.engine_reference.specs.Times.{end_of, own_expiration, earlier_of};

use engine_reference::Settings;
use policy_base::{Instant, MAX_NANOS};
use std::time::Duration;

/// A moment as an own expiration is kept: a multiple of 4096 nanoseconds.
fn kept(moment: Instant) -> u64
    ensures { result ≡ kept_time moment }
{
    (moment.as_nanos() / 4096 * 4096).min(0xFFFF_FFFF_FFFF_E000)
}

/// Returns the moment that is so long after `now`, in nanoseconds, as an entry keeps it, or `None` without a time.
pub fn own_expiration(now: Instant, time: Option<Duration>) -> Option<u64>
    ensures { result ≡ own_expiration now (option_map as_nanos time) }
{
    match time {
        Some(time) => Some(kept(now.saturating_add(time))),
        None => None,
    }
}

/// The end of a time that began at a moment.
fn end_of(since: u64, time: Option<u64>) -> Option<u64>
    ensures { result ≡ end_of since time }
{
    let time = time?;
    Some(since.saturating_add(time).min(MAX_NANOS))
}

/// The earlier of two moments, of those that there are.
fn earlier_of(a: Option<u64>, b: Option<u64>) -> Option<u64>
    ensures { result ≡ earlier_of a b }
{
    match (a, b) {
        (None, b) => b,
        (Some(a), None) => Some(a),
        (Some(a), Some(b)) => Some(a.min(b)),
    }
}

/// Returns the time until the deadline, at `now`, of what expires by itself at `expires`, and was written and used at these moments: zero
/// if the deadline has passed, `None` if there is none. All moments are in nanoseconds.
pub fn time_left(
    settings: Settings,
    now: u64,
    expires: Option<u64>,
    written: u64,
    used: u64,
) -> Option<Duration>
    ensures { option_map as_nanos result ≡ option_map (λ deadline. deadline - now)
        (earlier_of expires (earlier_of (end_of written settings.live) (end_of used settings.idle))) }
{
    let ends = earlier_of(end_of(written, settings.live), end_of(used, settings.idle));
    let deadline = earlier_of(expires, ends)?;
    Some(Duration::from_nanos(deadline.saturating_sub(now)))
}
