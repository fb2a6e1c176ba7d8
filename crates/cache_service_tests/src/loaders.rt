//! Loaders that are held, and writers that fail.
use crate::inputs::{bytes, conn};
use audit_model::Outcome;
use cache_run::Loader;
use cache_shared::{Seating, Shareable, SharedService};
use std::alloc::Global;
use std::io::{ErrorKind, Write};
use std::sync::Wait;
use std::sync::atomic::{AtomicU64, Ordering};
use std::time::{Clock, Duration};
use std::{io, thread};

/// How often a loader looks whether it is held, a millisecond apart.
const TURNS: u32 = 10_000;

/// What came about meanwhile.
#[derive(Drop)]
pub struct News {
    /// How often a loader was asked.
    pub asked: AtomicU64,
    /// How often a writer was sent a text that ends in a value.
    pub answered: AtomicU64,
}

/// Until when a loader is held.
#[derive(Clone, Copy, Drop)]
pub enum Hold {
    /// It is not.
    Not,
    /// Until a value was written.
    UntilAnswered,
    /// Until the first two connections wait.
    UntilBothWait,
}

/// A loader that is held, up to a limit of turns. It finds nothing for `n`, fails for `f`, asks for a give-up for `g`, finds a value with a
/// line end for `b` when it is asked first of all, and else the value `v`; where it was held too long it fails.
#[derive(Drop)]
pub struct Held<'a, L: Seating, C: Shareable, R: Wait + Clock> {
    pub rt: &'a R,
    pub alloc: Global,
    pub shared: &'a SharedService<L, C>,
    pub news: &'a News,
    pub hold: Hold,
}

impl<L: Seating, C: Shareable, R: Wait + Clock> Held<'_, L, C, R> {
    /// Whether a connection waits for a load.
    fn waits(&self, number: u64) -> bool {
        self.shared.waiting(self.rt, conn(number)) == Ok(true)
    }

    /// Whether it is held no more.
    fn is_free(&self) -> bool {
        match self.hold {
            Hold::Not => true,
            Hold::UntilAnswered => self.news.answered.load(Ordering::SeqCst) > 0,
            Hold::UntilBothWait => self.waits(1) && self.waits(2),
        }
    }

    /// Waits until it is held no more. Answers whether that came in time.
    fn is_in_time(&self) -> bool {
        for _turn in 0..TURNS {
            if self.is_free() {
                return true;
            }
            thread::sleep(self.rt, Duration::from_millis(1));
        }
        false
    }
}

/// A value with this text.
fn value_of(alloc: Global, text: &[u8]) -> Option<Outcome> {
    match bytes(alloc, text) {
        Some(value) => Some(Outcome::Value(value, None)),
        None => None,
    }
}

/// A fault that says this text.
fn fault_of(alloc: Global, text: &[u8]) -> Option<Outcome> {
    match bytes(alloc, text) {
        Some(text) => Some(Outcome::Fault(text)),
        None => None,
    }
}

/// What is found for a key by a loader that was asked so often before.
fn found(alloc: Global, key: &[u8], asked: u64) -> Option<Outcome> {
    match (key, asked) {
        (b"n", _) => Some(Outcome::None),
        (b"f", _) => fault_of(alloc, b"down"),
        (b"g", _) => None,
        (b"b", 0) => value_of(alloc, b"x\ny"),
        _ => value_of(alloc, b"v"),
    }
}

impl<L: Seating, C: Shareable, R: Wait + Clock> Loader for Held<'_, L, C, R> {
    ghost loads = { λ c key answer d. Unit {0} };

    fn load(&mut self, key: &[u8]) -> Option<Outcome> {
        let asked = self.news.asked.fetch_add(1, Ordering::SeqCst);
        if self.is_in_time() {
            found(self.alloc, key, asked)
        } else {
            fault_of(self.alloc, b"late")
        }
    }
}

/// A writer that takes so many bytes and then fails, and says when a text was written that ends in a value.
#[derive(Drop)]
pub struct Page<'a> {
    pub text: Vec<u8>,
    pub room: usize,
    pub news: &'a News,
}

impl Write for Page<'_> {
    fn write(&mut self, buf: &[u8]) -> io::Result<usize> {
        let count = buf.len().min(self.room);
        if count == 0 && !buf.is_empty() {
            return Err(io::Error::from(ErrorKind::BrokenPipe));
        }
        self.room -= count;
        if self.text.extend_from_slice(&buf[..count]).is_err() {
            return Err(io::Error::from(ErrorKind::OutOfMemory));
        }
        if self.text.ends_with(b"VAL 1\n") {
            self.news.answered.fetch_add(1, Ordering::SeqCst);
        }
        Ok(count)
    }

    fn flush(&mut self) -> io::Result<()> {
        Ok(())
    }
}
