//! What was read of a connection and not fed.
ghost use Rattle.std.specs.Prelude.{◌≡◌, ◌==◌, ◌≤◌, ◌<◌, [], false, drop, length, IfOk};
ghost use Rattle.cache_run.specs.Driver.Causes.{Fills, Obtains};

use crate::devices::{RunError, Watched};
use std::alloc::{AllocError, Global};
use std::io;
use std::io::{ErrorKind, Read};
use std::marker::Model;

/// The maximum number of bytes that are read at once.
const PIECE_BYTES: usize = 8192;

/// Bytes of a connection that were read and not fed.
#[derive(Drop)]
pub struct Inbox {
    buffer: Vec<u8>,
    from: usize,
    to: usize,
}

impl Model for Inbox {
    ghost use Rattle.std.specs.Prelude.{ℕ, ◌≤◌, ◌<◌, List, drop, length, take};

    ghost Value = { List ℕ };

    ghost view = { λ i. drop i.from (take i.to i.buffer.items) };

    ghost invariant = { λ i. (i.from ≤ i.to) × (i.to ≤ length i.buffer.items)
        × (0 < length i.buffer.items) × (length i.buffer.items ≤ 8192) };
}

impl Inbox {
    /// Creates an empty inbox. Returns an error if there is not enough memory.
    pub fn new(alloc: Global) -> Result<Inbox, AllocError>
        ensures { IfOk result (λ inbox. inbox ≡ []) }
    {
        let buffer = vec![in alloc; 0u8; PIECE_BYTES]?;
        Ok(Inbox {
            buffer,
            from: 0,
            to: 0,
        })
    }

    /// Creates an empty inbox with room for one byte, for a connection of which nothing is read for now. Returns an error if there is not
    /// enough memory.
    pub fn small(alloc: Global) -> Result<Inbox, AllocError>
        ensures { IfOk result (λ inbox. inbox ≡ []) }
    {
        let buffer = vec![in alloc; 0u8]?;
        Ok(Inbox {
            buffer,
            from: 0,
            to: 0,
        })
    }

    /// Returns the bytes.
    pub fn as_slice(&self) -> &[u8]
        ensures { result.now ≡ self.now }
    {
        &self.buffer[self.from..self.to]
    }

    /// Returns whether all bytes were fed.
    pub fn is_empty(&self) -> bool
        ensures { result ≡ (length self.now == 0) }
    {
        self.from == self.to
    }

    /// Drops this many bytes at the front, which were fed.
    pub fn skip(&mut self, count: usize)
        requires { count ≤ length self.old }
        ensures { self.new ≡ drop count self.old }
    {
        self.from += count;
    }

    /// Reads once, if all bytes were fed, as many bytes as there is room for. Returns how many: none at the end of the input. Returns the
    /// reader's error; then no byte was read.
    pub fn fill<I: Read>(&mut self, reader: &mut I) -> io::Result<usize>
        requires { self.old ≡ [] }
        ensures { Obtains (I.remaining reader.old) (I.remaining reader.new) self.new result }
    {
        self.from = 0;
        self.to = 0;
        let count = reader.read(&mut self.buffer)?;
        self.to = count;
        Ok(count)
    }

    /// Returns whether the inbox has no room for more than this many bytes. An inbox never has room for more than 8,192.
    pub fn is_filled_by(&self, count: usize) -> bool
        ensures { result ≡ false → count < 8192 }
    {
        self.buffer.len() <= count
    }

    /// Drops all bytes.
    pub fn clear(&mut self)
        ensures { self.new ≡ [] }
    {
        self.from = 0;
        self.to = 0;
    }

    /// Reads a piece, if all bytes were fed. Returns whether there may be more: not at the end of the input. After an interrupted read
    /// there is no piece. Returns `Read` if the reader failed otherwise.
    pub fn refill<I: Read>(&mut self, reader: &mut Watched<I>) -> Result<bool, RunError>
        ensures { Fills I.remaining self.old self.new reader.old reader.new result }
    {
        if !self.is_empty() {
            return Ok(true);
        }
        self.from = 0;
        self.to = 0;
        let count = match reader.read(&mut self.buffer) {
            Ok(count) => count,
            Err(error) if error.kind() == ErrorKind::Interrupted => return Ok(true),
            Err(_) => return Err(RunError::Read),
        };
        self.to = count;
        Ok(count != 0)
    }
}
