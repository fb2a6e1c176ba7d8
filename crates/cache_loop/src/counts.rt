//! What a loop counts.
ghost use Rattle.std.specs.Prelude.{◌≡◌};
ghost use Rattle.cache_loop.specs.Counted.{counted_both, counts_both, departed, departed_both};

use crate::replies::Found;
use audit_model::RemovalCause;
use cache_run::RunError;
use std::io;
use std::io::{Read, Write};
use std::time::{Clock, Instant};

/// The bounds of the turns that are counted together, in nanoseconds: a turn belongs to the first that is not below its length.
pub const TURN_BOUNDS: [u64; 13] = [
    10_000,
    20_000,
    50_000,
    100_000,
    200_000,
    500_000,
    1_000_000,
    2_000_000,
    5_000_000,
    10_000_000,
    20_000_000,
    50_000_000,
    100_000_000,
];

/// How many values have left a namespace, by cause.
#[derive(Clone, Copy, Drop)]
pub struct Departures {
    /// How many values expired.
    pub expired: u64,
    /// How many values were removed, or hidden by a clear or a predicate.
    pub explicit: u64,
    /// How many values were replaced.
    pub replaced: u64,
    /// How many values left for lack of capacity.
    pub size: u64,
}

impl Departures {
    /// None has left.
    pub fn new() -> Departures
        ensures { result ≡ record { expired = 0; explicit = 0; replaced = 0; size = 0 } }
    {
        Departures {
            expired: 0,
            explicit: 0,
            replaced: 0,
            size: 0,
        }
    }

    /// Counts one.
    pub fn count(&mut self, cause: RemovalCause)
        ensures { self.new ≡ departed cause self.old }
    {
        match cause {
            RemovalCause::Expired => self.expired = self.expired.saturating_add(1),
            RemovalCause::Explicit => self.explicit = self.explicit.saturating_add(1),
            RemovalCause::Replaced => self.replaced = self.replaced.saturating_add(1),
            RemovalCause::Size => self.size = self.size.saturating_add(1),
        }
    }

    /// Adds those that were counted elsewhere.
    pub fn add(&mut self, other: &Departures)
        ensures { self.new ≡ departed_both self.old other.now }
    {
        self.expired = self.expired.saturating_add(other.expired);
        self.explicit = self.explicit.saturating_add(other.explicit);
        self.replaced = self.replaced.saturating_add(other.replaced);
        self.size = self.size.saturating_add(other.size);
    }
}

/// What a loop has counted since it began.
#[derive(Clone, Copy, Drop)]
pub struct Counts {
    /// How many connections were accepted.
    pub accepted: u64,
    /// How many accepted connections were closed because there was no place for them.
    pub refused: u64,
    /// How many connections were closed because they were idle.
    pub idle: u64,
    /// How many accepts failed for lack of descriptors or memory.
    pub starved: u64,
    /// How many connections were closed for lack of memory.
    pub lacking: u64,
    /// How many bytes were read.
    pub read: u64,
    /// How many bytes were written.
    pub written: u64,
    /// How many replies there were, and what they told.
    pub found: Found,
    /// How many values have left, by cause, as far as the steward counts that.
    pub departures: Departures,
    /// How many loads a loader was asked for.
    pub loads: u64,
    /// How many turns were within each of the bounds and above the one before, and how many were above the last.
    pub turns: [u64; 14],
    /// How many nanoseconds all turns took.
    pub nanos: u64,
}

impl Counts {
    /// Creates counts of nothing.
    pub fn new() -> Counts {
        Counts {
            accepted: 0,
            refused: 0,
            idle: 0,
            starved: 0,
            lacking: 0,
            read: 0,
            written: 0,
            found: Found::new(),
            departures: Departures::new(),
            loads: 0,
            turns: [0; 14],
            nanos: 0,
        }
    }

    /// Adds what another loop has counted.
    pub fn add(&mut self, other: &Counts)
        ensures { self.new
            ≡ record (counts_both self.old other.now) { turns = self.new.turns } }
    {
        self.accepted = self.accepted.saturating_add(other.accepted);
        self.refused = self.refused.saturating_add(other.refused);
        self.idle = self.idle.saturating_add(other.idle);
        self.starved = self.starved.saturating_add(other.starved);
        self.lacking = self.lacking.saturating_add(other.lacking);
        self.read = self.read.saturating_add(other.read);
        self.written = self.written.saturating_add(other.written);
        self.found.add(&other.found);
        self.departures.add(&other.departures);
        self.loads = self.loads.saturating_add(other.loads);
        for (turns, more) in self.turns.iter_mut().zip(&other.turns) {
            *turns = turns.saturating_add(*more);
        }
        self.nanos = self.nanos.saturating_add(other.nanos);
    }

    /// Counts a connection that is closed with this outcome, if it is for lack of memory.
    pub fn note_outcome(&mut self, outcome: Result<(), RunError>) {
        if matches!(outcome, Err(RunError::OutOfMemory)) {
            self.lacking = self.lacking.saturating_add(1);
        }
    }

    /// Counts a turn that took so many nanoseconds.
    pub fn count_turn(&mut self, nanos: u64)
        ensures { self.new ≡ record self.old
            { turns = self.new.turns; nanos = counted_both self.old.nanos nanos } }
    {
        let place = TURN_BOUNDS.iter().position(|bound| nanos <= *bound);
        if let Some(turns) = self.turns.get_mut(place.unwrap_or(TURN_BOUNDS.len())) {
            *turns = turns.saturating_add(1);
        }
        self.nanos = self.nanos.saturating_add(nanos);
    }
}

/// A reader or a writer whose bytes are counted.
#[derive(Drop)]
pub struct Metered<'a, T> {
    inner: T,
    bytes: &'a mut u64,
}

impl<'a, T> Metered<'a, T> {
    /// Wraps a device whose bytes are added to a count.
    pub fn new(inner: T, bytes: &'a mut u64) -> Metered<'a, T>
        ensures { result.inner ≡ inner }
    {
        Metered { inner, bytes }
    }
}

impl<T: Read> Read for Metered<'_, T> {
    ghost remaining = { λ metered. T.remaining metered.inner };

    fn read(&mut self, buf: &mut [u8]) -> io::Result<usize> {
        let count = self.inner.read(buf)?;
        *self.bytes = self.bytes.saturating_add(count as u64);
        Ok(count)
    }
}

impl<T: Write> Write for Metered<'_, T> {
    ghost contents = { λ metered. T.contents metered.inner };

    fn write(&mut self, buf: &[u8]) -> io::Result<usize> {
        let count = self.inner.write(buf)?;
        *self.bytes = self.bytes.saturating_add(count as u64);
        Ok(count)
    }

    fn flush(&mut self) -> io::Result<()> {
        self.inner.flush()
    }
}

/// A reader that does not wait, each of whose reads goes on until its room is full or there is no more: one read of a socket may stop before
/// bytes that the system tells apart, such as urgent ones, or those with which descriptors were passed.
#[derive(Drop)]
pub struct Thorough<T> {
    inner: T,
    // whether reads go on
    goes_on: bool,
}

impl<T> Thorough<T> {
    /// Wraps a device, by one read at a time unless reads go on.
    pub fn new(inner: T, goes_on: bool) -> Thorough<T> {
        Thorough { inner, goes_on }
    }
}

impl<T: Read> Read for Thorough<T> {
    fn read(&mut self, buf: &mut [u8]) -> io::Result<usize> {
        let mut count = self.inner.read(buf)?;
        while self.goes_on && 0 < count && count < buf.len() {
            match self.inner.read(&mut buf[count..]) {
                Ok(0) | Err(_) => break,
                Ok(more) => count += more,
            }
        }
        Ok(count)
    }
}

/// A stopwatch of a machine's clock.
#[derive(Drop)]
pub struct Stopwatch {
    since: Option<Instant>,
}

impl Stopwatch {
    /// Creates a stopwatch that begins at its first lap.
    pub fn new() -> Stopwatch {
        Stopwatch { since: None }
    }

    /// Returns how many nanoseconds have passed since the last lap: 0 at the first one, or if the clock cannot be read.
    pub fn lap<R: Clock>(&mut self, rt: &R) -> u64 {
        let Ok(now) = Instant::now(rt) else {
            return 0;
        };
        let nanos = self.nanos_to(now);
        self.since = Some(now);
        nanos
    }

    /// Returns how many nanoseconds have passed since the last lap, or `None` if there was none or the clock cannot be read.
    pub fn passed<R: Clock>(&self, rt: &R) -> Option<u64> {
        let since = self.since?;
        let now = Instant::now(rt).ok()?;
        u64::try_from(now.saturating_duration_since(since).as_nanos()).ok()
    }

    /// How many nanoseconds have passed since the last lap, at this time.
    fn nanos_to(&self, now: Instant) -> u64 {
        match &self.since {
            Some(since) => {
                u64::try_from(now.saturating_duration_since(*since).as_nanos()).unwrap_or(u64::MAX)
            }
            None => 0,
        }
    }
}
