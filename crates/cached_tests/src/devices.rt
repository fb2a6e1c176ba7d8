//! Readers and writers that fail.
use std::alloc::Global;
use std::io;
use std::io::{ErrorKind, Read, Write};

/// A reader that gives at most one piece a call, and fails at a chosen call.
#[derive(Drop)]
pub struct Pieces<'a> {
    /// What is left of the piece that was begun.
    piece: &'a [u8],
    pieces: &'a [&'a [u8]],
    calls: u64,
    fails_at: u64,
}

pub fn make_pieces<'a>(pieces: &'a [&'a [u8]], fails_at: u64) -> Pieces<'a> {
    Pieces {
        piece: b"",
        pieces,
        calls: 0,
        fails_at,
    }
}

impl Read for Pieces<'_> {
    fn read(&mut self, buf: &mut [u8]) -> io::Result<usize> {
        self.calls = self.calls.saturating_add(1);
        if self.calls == self.fails_at {
            return Err(io::Error::from(ErrorKind::Other));
        }
        if let ([], [piece, pieces @ ..]) = (self.piece, self.pieces) {
            self.piece = piece;
            self.pieces = pieces;
        }
        let piece = self.piece;
        let count = piece.len().min(buf.len());
        buf[..count].copy_from_slice(&piece[..count]);
        self.piece = &piece[count..];
        Ok(count)
    }
}

/// How much a writer takes.
#[derive(Clone, Copy)]
pub struct Limits {
    /// How many bytes in all.
    pub room: usize,
    /// How many bytes a call.
    pub most: usize,
    /// The call of `write` or `flush` at which it fails, or 0.
    pub fails_at: u64,
}

/// No limit.
pub const AMPLE: Limits = Limits {
    room: usize::MAX,
    most: usize::MAX,
    fails_at: 0,
};

/// A writer with limits.
#[derive(Drop)]
pub struct Page {
    pub text: Vec<u8>,
    limits: Limits,
    calls: u64,
}

pub fn make_page(alloc: Global, limits: Limits) -> Page {
    Page {
        text: Vec::new(alloc),
        limits,
        calls: 0,
    }
}

impl Write for Page {
    fn write(&mut self, buf: &[u8]) -> io::Result<usize> {
        self.calls = self.calls.saturating_add(1);
        let count = buf.len().min(self.limits.room).min(self.limits.most);
        if self.calls == self.limits.fails_at || (count == 0 && !buf.is_empty()) {
            return Err(io::Error::from(ErrorKind::BrokenPipe));
        }
        self.limits.room -= count;
        match self.text.extend_from_slice(&buf[..count]) {
            Ok(()) => Ok(count),
            Err(_) => Err(io::Error::from(ErrorKind::OutOfMemory)),
        }
    }

    fn flush(&mut self) -> io::Result<()> {
        self.calls = self.calls.saturating_add(1);
        if self.calls == self.limits.fails_at {
            Err(io::Error::from(ErrorKind::Other))
        } else {
            Ok(())
        }
    }
}
