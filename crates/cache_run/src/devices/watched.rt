//! A reader or a writer whose failed calls are counted.
ghost use Rattle.std.specs.Prelude.{◌≡◌, ◌<◌, ◌≤◌, MatchResult, OnErr, length};
ghost use Rattle.std.specs.Result.{is_err};
ghost use Rattle.std.specs.Io.KnownBytes.{Keeps, ReadConsumes, WriteAppends};
ghost use Rattle.std.specs.Io.{ReadsAtMost, WritesAtMost};
ghost use Rattle.cache_run.specs.Devices.Watched.{device, failures};
ghost use Rattle.cache_run.specs.Devices.Failures.{HasFailed, failures_after, took_none};

use std::io;
use std::io::{Read, Write};

/// A reader or a writer, and how many of its calls failed: with an error (including an interruption), or a write that took nothing of a
/// piece that is not empty. So a contract can say that an error comes only if the device failed in the call.
#[derive(Drop)]
pub struct Watched<T> {
    inner: T,
    failed: u64,
}

impl<T> Watched<T> {
    /// Wraps a device none of whose calls has failed.
    pub fn new(inner: T) -> Watched<T>
        ensures holds { device result ≡ inner }
        ensures none_failed { failures result ≡ 0 }
    {
        Watched { inner, failed: 0 }
    }

    /// Returns the device, and drops the count.
    pub fn into_inner(self) -> T
        ensures { result ≡ device self }
    {
        let Watched { inner, .. } = self;
        inner
    }

    /// Returns the device.
    pub fn inner(&self) -> &T
        ensures { result.now ≡ device self.now }
    {
        &self.inner
    }

    /// Returns how many of the device's calls failed. The count stops at `u64::MAX`.
    pub fn failed(&self) -> u64
        ensures { result ≡ failures self.now }
    {
        self.failed
    }
}

impl<R: Read> Watched<R> {
    /// Reads what there is, at most as much as fits, and returns how many bytes. An error is counted and passed on.
    pub fn read(&mut self, buf: &mut [u8]) -> io::Result<usize>
        ensures bound { ReadsAtMost result buf.new }
        ensures bytes { ReadConsumes (R.remaining (device self.old)) (R.remaining (device self.new))
            result buf.new }
        ensures counts { failures self.new ≡ failures_after (is_err result) (failures self.old) }
        ensures later { failures self.old ≤ failures self.new }
        ensures failed { OnErr result (HasFailed (failures self.old) (failures self.new)) }
    {
        let result = self.inner.read(buf);
        if result.is_err() {
            self.failed = self.failed.saturating_add(1);
        }
        result
    }
}

impl<W: Write> Watched<W> {
    /// Writes a prefix of the bytes, and returns how many bytes were taken. An error is counted and passed on; that none of some bytes were
    /// taken is counted.
    pub fn write(&mut self, buf: &[u8]) -> io::Result<usize>
        ensures bound { WritesAtMost result buf.now }
        ensures bytes { WriteAppends (W.contents (device self.old)) (W.contents (device self.new))
            result buf.now }
        ensures counts { failures self.new
            ≡ failures_after (took_none buf.now result) (failures self.old) }
        ensures later { failures self.old ≤ failures self.new }
        ensures failed { MatchResult result
            (λ n. n ≡ 0 → 0 < length buf.now → HasFailed (failures self.old) (failures self.new))
            (λ _. HasFailed (failures self.old) (failures self.new)) }
    {
        let result = self.inner.write(buf);
        let took_none = match &result {
            Ok(count) => *count == 0 && !buf.is_empty(),
            Err(_) => true,
        };
        if took_none {
            self.failed = self.failed.saturating_add(1);
        }
        result
    }

    /// Flushes the device. An error is counted and passed on.
    pub fn flush(&mut self) -> io::Result<()>
        ensures bytes { Keeps (W.contents (device self.old)) (W.contents (device self.new)) }
        ensures counts { failures self.new ≡ failures_after (is_err result) (failures self.old) }
        ensures later { failures self.old ≤ failures self.new }
        ensures failed { OnErr result (HasFailed (failures self.old) (failures self.new)) }
    {
        let result = self.inner.flush();
        if result.is_err() {
            self.failed = self.failed.saturating_add(1);
        }
        result
    }
}
