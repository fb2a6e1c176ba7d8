//! What replies say.
ghost use Rattle.std.specs.Prelude.{◌≡◌};
ghost use Rattle.cache_loop.specs.Counted.{found_both};

use memchr::memchr;
use std::io;
use std::io::Write;

/// How far the beginning of a reply has been read.
#[derive(Clone, Copy, PartialEq, Eq, Drop)]
enum Begun {
    /// Nothing of it.
    Nothing,
    /// `N`.
    N,
    /// `NO`.
    No,
    /// That of a reply to `KEYS`, and perhaps some digits.
    Keys,
    /// As much as there is to know.
    Enough,
}

/// How many replies there were, and what they told.
#[derive(Clone, Copy, Drop)]
pub struct Found {
    /// How many replies told a value.
    pub hits: u64,
    /// How many replies told that there is none.
    pub misses: u64,
    /// How many replies there were, whatever they told.
    pub replies: u64,
    /// How many replies told an error.
    pub errors: u64,
}

impl Found {
    /// Creates counts of no replies.
    pub fn new() -> Found
        ensures { result ≡ record { hits = 0; misses = 0; replies = 0; errors = 0 } }
    {
        Found {
            hits: 0,
            misses: 0,
            replies: 0,
            errors: 0,
        }
    }

    /// Adds what another loop has read.
    pub fn add(&mut self, other: &Found)
        ensures { self.new ≡ found_both self.old other.now }
    {
        self.hits = self.hits.saturating_add(other.hits);
        self.misses = self.misses.saturating_add(other.misses);
        self.replies = self.replies.saturating_add(other.replies);
        self.errors = self.errors.saturating_add(other.errors);
    }
}

/// A reader of a connection's replies as they are written, in whatever pieces.
#[derive(Clone, Copy, Drop)]
pub struct Replies {
    begun: Begun,
    // so many lines of keys follow
    keys: u64,
}

impl Replies {
    /// Creates a reader of replies of which nothing was written.
    pub fn new() -> Replies {
        Replies {
            begun: Begun::Nothing,
            keys: 0,
        }
    }

    /// Reads what is written next, and counts the replies that end in it, values that are told, replies that there is none, and errors.
    pub fn read(&mut self, bytes: &[u8], found: &mut Found) {
        let mut rest = bytes;
        for _line in 0..bytes.len() {
            match memchr(b'\n', rest) {
                Some(end) => {
                    self.begin(rest.get(..end).unwrap_or(&[]), found);
                    self.end(found);
                    rest = rest.get(end.saturating_add(1)..).unwrap_or(&[]);
                }
                None => {
                    self.begin(rest, found);
                    return;
                }
            }
        }
    }

    /// Reads bytes within a line.
    fn begin(&mut self, bytes: &[u8], found: &mut Found) {
        for byte in bytes {
            if self.begun == Begun::Enough {
                return;
            }
            self.take(*byte, found);
        }
    }

    /// Reads the next byte of a line's beginning.
    fn take(&mut self, byte: u8, found: &mut Found) {
        self.begun = match (self.begun, byte) {
            (Begun::Nothing, b'V') if self.keys == 0 => {
                found.hits = found.hits.saturating_add(1);
                Begun::Enough
            }
            (Begun::Nothing, b'E') if self.keys == 0 => {
                found.errors = found.errors.saturating_add(1);
                Begun::Enough
            }
            (Begun::Nothing, b'N') if self.keys == 0 => Begun::N,
            (Begun::Nothing, b'K') if self.keys == 0 => Begun::Keys,
            (Begun::N, b'O') => Begun::No,
            (Begun::No, b'N') => {
                found.misses = found.misses.saturating_add(1);
                Begun::Enough
            }
            (Begun::Keys, digit @ b'0'..=b'9') => {
                let digit = u64::from(digit.saturating_sub(b'0'));
                self.keys = self.keys.saturating_mul(10).saturating_add(digit);
                Begun::Keys
            }
            (Begun::Keys, _) => Begun::Keys,
            _ => Begun::Enough,
        };
    }

    /// Reads the end of a line, and counts a reply unless the line is a key of one.
    fn end(&mut self, found: &mut Found) {
        if self.begun == Begun::Keys || self.keys == 0 {
            found.replies = found.replies.saturating_add(1);
        } else {
            self.keys = self.keys.saturating_sub(1);
        }
        self.begun = Begun::Nothing;
    }
}

/// A writer of replies, which are read as they are written.
#[derive(Drop)]
pub struct Overheard<'a, T> {
    inner: T,
    replies: &'a mut Replies,
    found: &'a mut Found,
}

impl<'a, T> Overheard<'a, T> {
    /// Wraps a device: what is written on it is read, and counted.
    pub fn new(inner: T, replies: &'a mut Replies, found: &'a mut Found) -> Overheard<'a, T>
        ensures { result.inner ≡ inner }
    {
        Overheard {
            inner,
            replies,
            found,
        }
    }
}

impl<T: Write> Write for Overheard<'_, T> {
    ghost contents = { λ overheard. T.contents overheard.inner };

    fn write(&mut self, buf: &[u8]) -> io::Result<usize> {
        let count = self.inner.write(buf)?;
        self.replies
            .read(buf.get(..count).unwrap_or(buf), self.found);
        Ok(count)
    }

    fn flush(&mut self) -> io::Result<()> {
        self.inner.flush()
    }
}
