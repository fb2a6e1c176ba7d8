//! Pausing between tries.

use std::sync::Wait;
use std::thread::Parker;
use std::time::Duration;

/// Waits about a millisecond, before something that was refused for memory is tried again.
pub fn pause(rt: &impl Wait) {
    Parker::new().park_timeout(rt, Duration::from_millis(1));
}
