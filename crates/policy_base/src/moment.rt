//! Moments.
ghost use Rattle.std.specs.Prelude.{◌≡◌, ℕ, ◌+◌, ◌-◌, ◌^◌, ◌<◌, ◌≤◌, min};
ghost use Rattle.std.specs.Duration.{as_nanos};

use std::marker::Model;
use std::time::Duration;

/// The last moment, in nanoseconds.
pub const MAX_NANOS: u64 = u64::MAX - 1;

/// A moment: nanoseconds from the clock's start, up to `MAX_NANOS`.
#[derive(Clone, Copy, PartialEq, Eq, PartialOrd, Ord)]
pub struct Instant {
    nanos: u64,
}

impl Model for Instant {
    ghost Value = { ℕ };

    ghost view = { λ i. i.nanos };

    ghost invariant = { λ i. i.nanos < 2 ^ 64 - 1 };

    ghost inverse = { λ n. record { nanos = n } };
}

impl Instant {
    /// Returns the moment with this number of nanoseconds, at most `MAX_NANOS`.
    pub fn from_nanos(nanos: u64) -> Self
        requires { nanos ≤ MAX_NANOS }
        ensures { result ≡ nanos }
    {
        Instant { nanos }
    }

    /// Returns the moment this long after the clock's start, at most the last moment.
    pub fn from_duration_since_clock_start(duration: Duration) -> Self
        ensures { result ≡ min (as_nanos duration) MAX_NANOS }
    {
        Instant {
            nanos: Instant::duration_to_saturating_nanoseconds(duration),
        }
    }

    /// Returns the number of nanoseconds from the clock's start to the moment.
    pub fn as_nanos(self) -> u64
        ensures nanos { result ≡ self }
        ensures in_range { result ≤ MAX_NANOS }
    {
        self.nanos
    }

    /// Returns the nanoseconds of a duration, at most those of the last moment.
    pub fn duration_to_saturating_nanoseconds(duration: Duration) -> u64
        ensures { result ≡ min (as_nanos duration) MAX_NANOS }
    {
        let nanos = duration.as_nanos();
        if nanos < MAX_NANOS as u128 {
            nanos as u64
        } else {
            MAX_NANOS
        }
    }

    /// Returns the moment this much later, at most the last moment.
    pub fn saturating_add(self, duration: Duration) -> Self
        ensures { result ≡ min (self + as_nanos duration) MAX_NANOS }
    {
        let later = self
            .nanos
            .saturating_add(Instant::duration_to_saturating_nanoseconds(duration));
        Instant {
            nanos: later.min(MAX_NANOS),
        }
    }

    /// Returns the time since an earlier moment, or zero if it is not earlier.
    pub fn saturating_duration_since(self, earlier: Instant) -> Duration
        ensures { as_nanos result ≡ self - earlier }
    {
        Duration::from_nanos(self.nanos.saturating_sub(earlier.nanos))
    }
}

/// A type that knows when it was last used and last written.
pub trait AccessTime {
    /// The moment of the last use.
    ghost accessed: { Self → ℕ };

    /// The moment of the last write.
    ghost modified: { Self → ℕ };

    /// Returns the moment of the last use.
    fn last_accessed(&self) -> Instant
        ensures { result ≡ accessed self.now };

    /// Returns the moment of the last write.
    fn last_modified(&self) -> Instant
        ensures { result ≡ modified self.now };

    /// Sets the moment of the last use. The moment of the last write stays.
    fn set_last_accessed(&mut self, moment: Instant)
        ensures accessed { accessed self.new ≡ moment }
        ensures modified { modified self.new ≡ modified self.old };

    /// Sets the moment of the last write. The moment of the last use stays.
    fn set_last_modified(&mut self, moment: Instant)
        ensures accessed { accessed self.new ≡ accessed self.old }
        ensures modified { modified self.new ≡ moment };
}
