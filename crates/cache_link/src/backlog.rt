//! Replies that were not written.
ghost use Rattle.std.specs.Prelude.{◌≡◌, ◌==◌, ◌≤◌, [], true, drop, length, IfErr, IfOk};
ghost use Rattle.cache_run.specs.Devices.Sent.{SentBut};
ghost use Rattle.cache_link.specs.Patience.{BreaksDown, device_of};

use crate::patient::{Patient, is_for_now, would_wait};
use cache_run::RunError;
use std::io::Write;
use std::marker::Model;

/// Replies that a connection is owed and that were not written.
#[derive(Drop)]
pub struct Backlog {
    bytes: Vec<u8>,
    written: usize,
}

impl Model for Backlog {
    ghost use Rattle.std.specs.Prelude.{ℕ, ◌≤◌, List, drop, length};

    ghost Value = { List ℕ };

    ghost view = { λ b. drop b.written b.bytes.items };

    ghost invariant = { λ b. b.written ≤ length b.bytes.items };
}

impl Backlog {
    /// Creates a backlog of these bytes, none of which was written.
    pub fn new(bytes: Vec<u8>) -> Backlog
        ensures { result ≡ bytes.items }
    {
        Backlog { bytes, written: 0 }
    }

    /// Returns the memory of the backlog, whatever is in it.
    pub fn into_bytes(self) -> Vec<u8> {
        let Backlog { bytes, .. } = self;
        bytes
    }

    /// Returns whether all was written.
    pub fn is_empty(&self) -> bool
        ensures { result ≡ (length self.now == 0) }
    {
        self.written == self.bytes.len()
    }

    /// The bytes that were not written.
    fn as_slice(&self) -> &[u8]
        ensures { result.now ≡ self.now }
    {
        &self.bytes[self.written..]
    }

    /// Notes that this many more bytes were written.
    fn skip(&mut self, count: usize)
        requires { count ≤ length self.old }
        ensures { self.new ≡ drop count self.old }
    {
        self.written += count;
    }

    /// Writes as much as the writer takes at once, and returns whether that is all. Returns `Write` if the writer broke down.
    pub fn write_to<W: Write>(&mut self, writer: &mut Patient<W>) -> Result<bool, RunError>
        ensures sent { SentBut self.new self.old (W.contents (device_of writer.old))
            (W.contents (device_of writer.new)) }
        ensures all { IfOk result (λ done. done ≡ true → self.new ≡ []) }
        ensures why { IfErr result
            (λ e. (e ≡ RunError.Write) × BreaksDown writer.old writer.new) }
        ensures later { writer.old.broken ≤ writer.new.broken }
    {
        for _try in 0..u64::MAX {
            if self.is_empty() {
                return Ok(true);
            }
            match writer.write(self.as_slice()) {
                Ok(0) => return Err(RunError::Write),
                Ok(count) => self.skip(count),
                Err(error) if !is_for_now(&error) => return Err(RunError::Write),
                Err(error) if would_wait(&error) => return Ok(false),
                Err(_) => {}
            }
        }
        Ok(self.is_empty())
    }
}
