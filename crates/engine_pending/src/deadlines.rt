//! Deadlines that have come.
ghost use Rattle.std.specs.Prelude.{◌≡◌};
ghost use Rattle.engine_reference.specs.Times.{earlier_of, end_of, is_reached};

use engine_reference::Settings;
use policy_base::MAX_NANOS;

/// Whether a time that began at a moment has ended.
fn has_ended(time: Option<u64>, since: u64, now: u64) -> bool
    ensures { result ≡ is_reached (end_of since time) now }
{
    match time {
        None => false,
        Some(time) => since.saturating_add(time).min(MAX_NANOS) <= now,
    }
}

/// Whether a moment is there and has been reached.
fn is_reached(moment: Option<u64>, now: u64) -> bool
    ensures { result ≡ is_reached moment now }
{
    match moment {
        None => false,
        Some(moment) => moment <= now,
    }
}

/// Returns whether a deadline has come at `now`: of what expires by itself at `expires`, and was written and used at these moments. All
/// moments are in nanoseconds.
pub fn is_dead(settings: Settings, now: u64, expires: Option<u64>, written: u64, used: u64) -> bool
    ensures { result ≡ is_reached (earlier_of expires
        (earlier_of (end_of written settings.live) (end_of used settings.idle))) now }
{
    is_reached(expires, now)
        || has_ended(settings.live, written, now)
        || has_ended(settings.idle, used, now)
}
