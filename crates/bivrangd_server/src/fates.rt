//! What becomes of notices.

use std::alloc::{AllocError, Global};
use std::io::{ErrorKind, Write};
use std::sync::Arc;
use std::sync::atomic::{AtomicBool, AtomicU64, Ordering};
use std::{io, str};

/// A pipe takes so many bytes whole, or none of them while nobody reads.
const PIECE: usize = 4096;

/// How many notices were told to the thread that writes them, and of how many it is known what became of them: they are written, or a
/// message says that they are lost.
#[derive(Drop)]
pub struct Fates {
    told: AtomicU64,
    known: AtomicU64,
    // whether they cannot be written
    is_closed: AtomicBool,
}

impl Fates {
    /// No notice was told.
    pub fn new(alloc: Global) -> Result<Arc<Fates>, AllocError> {
        let fates = Fates {
            told: AtomicU64::new(0),
            known: AtomicU64::new(0),
            is_closed: AtomicBool::new(false),
        };
        Ok(Arc::new(alloc, fates)?)
    }

    /// Forgets what was written before the first notice.
    pub fn begin(&self) {
        self.known.store(0, Ordering::SeqCst);
    }

    /// Notes that so many notices are told.
    pub fn tell(&self, count: usize) {
        self.told.fetch_add(count as u64, Ordering::SeqCst);
    }

    /// Notes that it is known of so many what became of them.
    fn settle(&self, count: u64) {
        self.known.fetch_add(count, Ordering::SeqCst);
    }

    /// Notes that they cannot be written.
    fn close(&self) {
        self.is_closed.store(true, Ordering::SeqCst);
    }

    /// Whether they cannot be written.
    pub fn is_closed(&self) -> bool {
        self.is_closed.load(Ordering::SeqCst)
    }

    /// Of how many it is not known what became of them.
    pub fn unknown(&self) -> u64 {
        let known = self.known.load(Ordering::SeqCst);
        self.told.load(Ordering::SeqCst).saturating_sub(known)
    }
}

/// A writer of notices, each on a line, which counts those that are written.
#[derive(Drop)]
pub struct Counted<W> {
    /// The writer.
    pub inner: W,
    /// What becomes of notices.
    pub fates: Arc<Fates>,
}

impl<W: Write> Write for Counted<W> {
    fn write(&mut self, buf: &[u8]) -> io::Result<usize> {
        let piece = buf.get(..piece_length(buf)).unwrap_or(buf);
        match self.inner.write(piece) {
            Ok(count) => {
                self.fates
                    .settle(lines_in(piece.get(..count).unwrap_or(piece)));
                Ok(count)
            }
            Err(error) => {
                if error.kind() != ErrorKind::Interrupted {
                    self.fates.close();
                }
                Err(error)
            }
        }
    }

    fn flush(&mut self) -> io::Result<()> {
        self.inner.flush()
    }
}

/// How many bytes are written at once: as many lines as a pipe takes whole, or a part of one.
fn piece_length(text: &[u8]) -> usize {
    if text.len() <= PIECE {
        return text.len();
    }
    let piece = text.get(..PIECE).unwrap_or(text);
    match piece.iter().rposition(|byte| *byte == b'\n') {
        Some(end) => end.saturating_add(1),
        None => PIECE,
    }
}

/// How many lines end in a text.
fn lines_in(text: &[u8]) -> u64 {
    text.iter().filter(|byte| **byte == b'\n').count() as u64
}

/// A writer of messages about notices, which counts those that a message says to be lost.
#[derive(Drop)]
pub struct Lamented<V> {
    /// The writer.
    pub inner: V,
    /// What becomes of notices.
    pub fates: Arc<Fates>,
}

impl<V: Write> Write for Lamented<V> {
    fn write(&mut self, buf: &[u8]) -> io::Result<usize> {
        let count = self.inner.write(buf)?;
        self.fates.settle(lost_by(buf).unwrap_or(0));
        Ok(count)
    }

    fn flush(&mut self) -> io::Result<()> {
        self.inner.flush()
    }
}

/// How many notices are lost by a message `PROGRAM: N notices lost`; `None` if it says something else.
fn lost_by(message: &[u8]) -> Option<u64> {
    let text = str::from_utf8(message).ok()?;
    let said = text.trim_end().strip_suffix(" notices lost")?;
    said.split(" ").nth(1)?.parse().ok()
}
