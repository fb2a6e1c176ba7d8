//! The time of day.

use std::time::{Clock, Duration, SystemTime, UNIX_EPOCH};

/// The time since 1970 began. `None` if the clock cannot be read, or says an earlier time.
pub fn unix_time<R: Clock>(rt: &R) -> Option<Duration> {
    let now = SystemTime::now(rt).ok()?;
    now.duration_since(UNIX_EPOCH).ok()
}
