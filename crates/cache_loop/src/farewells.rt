//! Sockets whose connections are over, while their clients may still send.

use crate::counts::Stopwatch;
use crate::doorway::{Dropped, Stream};
use mio::{Registry, Token};
use slab::Slab;
use std::alloc::Global;
use std::time::{Clock, Duration};

/// The token of the first of them. No connection that is served has it, nor one above it.
const FIRST: usize = 1 << 62;

/// So many are kept at once. One more is closed as soon as what came in is read.
const MOST: usize = 256;

/// They are looked through every so many nanoseconds.
const TICK: u64 = 100_000_000;

/// A socket is closed when it was looked at so often.
const TICKS: u64 = 10;

/// A socket whose connection is over.
#[derive(Drop)]
struct Farewell {
    stream: Stream,
    // how often it was looked at
    ticks: u64,
    // whether there may be bytes to read
    is_readable: bool,
}

/// Sockets whose connections are over. Nothing more is written to them, and what comes in is read and dropped until their clients end them
/// too, for about a second at most: the system takes back what was written to a socket that is closed with something to read.
#[derive(Drop)]
pub struct Farewells {
    kept: Slab<Farewell>,
    // whether one may have bytes to read
    is_readable: bool,
    // since they were looked through
    watch: Stopwatch,
}

impl Farewells {
    /// Creates a place for sockets, in which there are none.
    pub fn new(alloc: Global) -> Farewells {
        Farewells {
            kept: Slab::new(alloc),
            is_readable: false,
            watch: Stopwatch::new(),
        }
    }

    /// Returns whether there is none.
    pub fn is_empty(&self) -> bool {
        self.kept.is_empty()
    }

    /// Returns how long to wait for events, or `None`, without end, if there is none.
    pub fn patience(&self) -> Option<Duration> {
        if self.is_readable {
            return Some(Duration::from_millis(0));
        }
        if self.kept.is_empty() {
            return None;
        }
        Some(Duration::from_nanos(TICK))
    }

    /// Ends the writing of a socket, and keeps it unless its client has ended it too. It is closed at once if there is no room for it.
    pub fn take<R: Clock>(&mut self, rt: &R, registry: &Registry, stream: Stream) {
        let mut stream = stream;
        stream.end_writing();
        if stream.drop_input() == Dropped::All {
            return;
        }
        if self.kept.is_empty() {
            let _before = self.watch.lap(rt);
        }
        self.keep(registry, stream);
    }

    /// Keeps a socket, if there is room for it.
    fn keep(&mut self, registry: &Registry, stream: Stream) {
        if self.kept.len() >= MOST || self.kept.reserve(1).is_err() {
            return;
        }
        let mut stream = stream;
        let token = Token(FIRST.saturating_add(self.kept.vacant_key()));
        // It reports once more what was not read.
        if stream.report_as(registry, token).is_ok() {
            let _ = self.kept.insert(Farewell {
                stream,
                ticks: 0,
                is_readable: false,
            });
        }
    }

    /// Notes that the socket of a token reported something. Returns whether it is one of these.
    pub fn note(&mut self, token: Token) -> bool {
        let Some(key) = token.0.checked_sub(FIRST) else {
            return false;
        };
        if let Some(farewell) = self.kept.get_mut(key) {
            farewell.is_readable = true;
            self.is_readable = true;
        }
        true
    }

    /// Drops what has come in, and closes the sockets whose clients have ended them, or that were kept for about a second.
    pub fn work<R: Clock>(&mut self, rt: &R) {
        if self.is_readable {
            self.drop_input();
        }
        if !self.kept.is_empty() && self.watch.passed(rt).is_none_or(|nanos| nanos >= TICK) {
            let _passed = self.watch.lap(rt);
            self.tick();
        }
    }

    /// Drops some of what has come in.
    fn drop_input(&mut self) {
        self.is_readable = false;
        for key in 0..self.kept.capacity() {
            self.drop_input_of(key);
        }
    }

    /// Drops some of what has come in at a socket, and closes it if its client has ended it.
    fn drop_input_of(&mut self, key: usize) {
        let Some(farewell) = self.kept.get_mut(key) else {
            return;
        };
        if !farewell.is_readable {
            return;
        }
        match farewell.stream.drop_input() {
            Dropped::All => {
                let _closed = self.kept.try_remove(key);
            }
            Dropped::Some => self.is_readable = true,
            Dropped::Present => farewell.is_readable = false,
        }
    }

    /// Counts that each was looked at once more, and closes those that were often enough.
    fn tick(&mut self) {
        for key in 0..self.kept.capacity() {
            if self.is_old(key) {
                let _closed = self.kept.try_remove(key);
            }
        }
    }

    /// Counts that a socket was looked at once more. Returns whether that was often enough.
    fn is_old(&mut self, key: usize) -> bool {
        let Some(farewell) = self.kept.get_mut(key) else {
            return false;
        };
        farewell.ticks = farewell.ticks.saturating_add(1);
        farewell.ticks >= TICKS
    }

    /// Closes all sockets at once. Returns whether there was one.
    pub fn clear(&mut self) -> bool {
        let had_some = !self.kept.is_empty();
        self.kept.clear();
        self.is_readable = false;
        had_some
    }
}
