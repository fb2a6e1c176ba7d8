//! A reader or a writer that does not wait.
ghost use Rattle.std.specs.Prelude.{◌≡◌, ◌≤◌, ◌<◌, [], false, not, length, MatchResult};
ghost use Rattle.std.specs.Io.{WritesAtMost};
ghost use Rattle.std.specs.Io.KnownBytes.{WriteAppends};
ghost use Rattle.std.specs.IoError.{error_kind};
ghost use Rattle.cache_run.specs.Devices.Failures.{failures_after};
ghost use Rattle.cache_run.specs.Driver.Causes.{Obtains};
ghost use Rattle.cache_link.specs.Patience.{BreaksDown, device_of, is_broken_at, is_broken_by, is_for_now, would_wait, would_wait_by};

use cache_run::Inbox;
use std::io;
use std::io::{ErrorKind, Read, Write};

/// Returns whether a call failed only for now: it was interrupted, or would have had to wait.
pub fn is_for_now(error: &io::Error) -> bool
    ensures { result ≡ is_for_now (error_kind error.now) }
{
    matches!(error.kind(), ErrorKind::Interrupted | ErrorKind::WouldBlock)
}

/// Returns whether a call would have had to wait.
pub fn would_wait(error: &io::Error) -> bool
    ensures { result ≡ would_wait (error_kind error.now) }
{
    matches!(error.kind(), ErrorKind::WouldBlock)
}

/// A reader or a writer that does not wait, how many of its calls failed not only for now, or took none of some bytes, and how many of its
/// reads would have had to wait. So a contract can say that an error comes only if the device broke down, and that bytes are not left
/// unread.
#[derive(Drop)]
pub struct Patient<T> {
    inner: T,
    broken: u64,
    waited: u64,
}

impl<T> Patient<T> {
    /// Wraps a device, none of whose calls is counted.
    pub fn new(inner: T) -> Patient<T>
        ensures holds { device_of result ≡ inner }
        ensures none { (result.broken ≡ 0) × (result.waited ≡ 0) }
    {
        Patient {
            inner,
            broken: 0,
            waited: 0,
        }
    }
}

impl<R: Read> Patient<R> {
    /// Reads once into an empty inbox, as many bytes as there is room for. Returns how many: none at the end of the input. An error is
    /// passed on; then none was read.
    pub fn fill(&mut self, inbox: &mut Inbox) -> io::Result<usize>
        requires { inbox.old ≡ [] }
        ensures bytes { Obtains (R.remaining (device_of self.old))
            (R.remaining (device_of self.new)) inbox.new result }
        ensures counts { self.new.broken ≡ failures_after (is_broken_by result) self.old.broken }
        ensures waits { self.new.waited ≡ failures_after (would_wait_by result) self.old.waited }
        ensures later { self.old.broken ≤ self.new.broken }
    {
        let result = inbox.fill(&mut self.inner);
        if let Err(error) = &result {
            self.note(error);
        }
        result
    }

    /// Counts an error of a read.
    fn note(&mut self, error: &io::Error)
        ensures counts { self.new.broken
            ≡ failures_after (not (is_for_now (error_kind error.now))) self.old.broken }
        ensures waits { self.new.waited
            ≡ failures_after (would_wait (error_kind error.now)) self.old.waited }
        ensures later { self.old.broken ≤ self.new.broken }
        ensures same { self.new.inner ≡ self.old.inner }
    {
        if !is_for_now(error) {
            self.broken = self.broken.saturating_add(1);
        } else if would_wait(error) {
            self.waited = self.waited.saturating_add(1);
        }
    }
}

impl<W: Write> Patient<W> {
    /// Writes a prefix of the bytes, and returns how many bytes were taken. An error is passed on.
    pub fn write(&mut self, bytes: &[u8]) -> io::Result<usize>
        ensures bound { WritesAtMost result bytes.now }
        ensures bytes { WriteAppends (W.contents (device_of self.old))
            (W.contents (device_of self.new)) result bytes.now }
        ensures counts { self.new.broken
            ≡ failures_after (is_broken_at bytes.now result) self.old.broken }
        ensures later { self.old.broken ≤ self.new.broken }
        ensures failed { MatchResult result
            (λ n. n ≡ 0 → 0 < length bytes.now → BreaksDown self.old self.new)
            (λ e. is_for_now (error_kind e) ≡ false → BreaksDown self.old self.new) }
    {
        let result = self.inner.write(bytes);
        let is_broken = match &result {
            Ok(count) => *count == 0 && !bytes.is_empty(),
            Err(error) => !is_for_now(error),
        };
        if is_broken {
            self.broken = self.broken.saturating_add(1);
        }
        result
    }
}
