//! The bytes of a connection that no line has used yet, and where its next line ends.
ghost use Rattle.std.specs.Prelude.{◌≡◌, ◌==◌, ◌+◌, ◌-◌, ◌<◌, ◌≤◌, [], ◌++◌, drop, length, take, IsOk, OnOk, vec_len};
ghost use Rattle.std.specs.Vec.{vec_capacity};
ghost use Rattle.audit_model.specs.Stream.{without_return};
ghost use Rattle.audit_lines.specs.Next.{IsNext};

use memchr::memchr;
use std::alloc::{AllocError, Global};
use std::marker::Model;

/// The maximum number of bytes of a line before its line feed.
pub const MAX_LINE: usize = 8192;

/// Bytes of a connection that came and that no line has used.
#[derive(Drop)]
pub struct Buffer {
    bytes: Vec<u8>,
    start: usize,
}

impl Model for Buffer {
    ghost use Rattle.std.specs.Prelude.{◌-◌, ◌≤◌, drop, length, vec_len};
    ghost use Rattle.std.specs.Vec.{vec_capacity};
    ghost use Rattle.audit_lines.specs.Unread.{Unread};

    ghost Value = { Unread };

    ghost view = { λ b. record
        { bytes = drop b.start b.bytes.items; room = vec_capacity b.bytes - vec_len b.bytes } };

    ghost invariant = { λ b. b.start ≤ length b.bytes.items };
}

/// What stands at the front of a stream of bytes.
#[derive(Clone, Copy, Debug, PartialEq, Eq)]
pub enum Next {
    /// A line of this many bytes before its line feed.
    Line(usize),
    /// Less than a whole line.
    More,
    /// More than 8192 bytes without a line feed.
    TooLong,
}

impl Buffer {
    /// Creates an empty buffer. The call allocates nothing.
    pub fn new(alloc: Global) -> Buffer
        ensures { result ≡ record { bytes = []; room = 0 } }
    {
        Buffer {
            bytes: Vec::new(alloc),
            start: 0,
        }
    }

    /// Makes room for `n` more bytes. Returns an error only if there was less room and there is not enough memory; the bytes are then as
    /// before.
    pub fn reserve(&mut self, n: usize) -> Result<(), AllocError>
        ensures ok { OnOk result (n ≤ self.new.room) }
        ensures bytes { self.new.bytes ≡ self.old.bytes }
        ensures room { self.old.room ≤ self.new.room }
        ensures succeeds { n ≤ self.old.room → IsOk result }
    {
        self.start = compact(&mut self.bytes, self.start);
        self.bytes.reserve(n)
    }

    /// Appends a piece for which there is room.
    pub fn append(&mut self, piece: &[u8])
        requires { length piece.now ≤ self.old.room }
        ensures bytes { self.new.bytes ≡ self.old.bytes ++ piece.now }
        ensures room { self.old.room ≤ self.new.room + length piece.now }
    {
        append_within(&mut self.bytes, piece);
    }

    /// Returns what stands at the front of the buffer.
    pub fn next(&self) -> Next
        ensures { IsNext self.now.bytes result }
    {
        next_in(&self.bytes[self.start..])
    }

    /// Returns the line of `n` bytes at the front, without one carriage return at its end.
    pub fn line(&self, n: usize) -> &[u8]
        requires { n < length self.now.bytes }
        ensures line { result.now ≡ without_return (take n self.now.bytes) }
        ensures short { length result.now ≤ n }
    {
        without_return(&self.bytes[self.start..self.start + n])
    }

    /// Removes the line of `n` bytes at the front, and its line feed.
    pub fn skip(&mut self, n: usize)
        requires { n < length self.old.bytes }
        ensures bytes { self.new.bytes ≡ drop (n + 1) self.old.bytes }
        ensures room { self.new.room ≡ self.old.room }
    {
        self.start = self.start + n + 1;
    }

    /// Removes all bytes, and gives their memory back.
    pub fn clear(&mut self)
        ensures { self.new ≡ record { bytes = []; room = 0 } }
    {
        let alloc = *self.bytes.allocator();
        self.bytes = Vec::new(alloc);
        self.start = 0;
    }

    /// Returns the bytes that no line has used.
    pub fn as_slice(&self) -> &[u8]
        ensures { result.now ≡ self.now.bytes }
    {
        &self.bytes[self.start..]
    }

    /// Returns how many bytes no line has used.
    pub fn len(&self) -> usize
        ensures { result ≡ length self.now.bytes }
    {
        self.bytes.len() - self.start
    }

    /// Returns whether lines have used each byte.
    pub fn is_empty(&self) -> bool
        ensures { result ≡ (length self.now.bytes == 0) }
    {
        self.len() == 0
    }
}

/// Moves what no line has used to the front, if that is at most half of all bytes, and returns where it begins.
fn compact(bytes: &mut Vec<u8>, start: usize) -> usize
    requires { start ≤ vec_len bytes.old }
    ensures rest { drop result bytes.new.items ≡ drop start bytes.old.items }
    ensures within { result ≤ vec_len bytes.new }
    ensures len { vec_len bytes.new ≤ vec_len bytes.old }
    ensures capacity { vec_capacity bytes.new ≡ vec_capacity bytes.old }
{
    if start == 0 || start < bytes.len() - start {
        return start;
    }
    drop_front(bytes, start);
    0
}

/// Drops the first `count` bytes.
fn drop_front(bytes: &mut Vec<u8>, count: usize)
    requires { count ≤ vec_len bytes.old }
    ensures items { bytes.new.items ≡ drop count bytes.old.items }
    ensures len { vec_len bytes.new ≡ vec_len bytes.old - count }
    ensures capacity { vec_capacity bytes.new ≡ vec_capacity bytes.old }
{
    let len = bytes.len();
    bytes.as_mut_slice().copy_within(count..len, 0);
    bytes.truncate(len - count);
}

/// Appends a piece for which there is room.
fn append_within(bytes: &mut Vec<u8>, piece: &[u8])
    requires { vec_len bytes.old + length piece.now ≤ vec_capacity bytes.old }
    ensures items { bytes.new.items ≡ bytes.old.items ++ piece.now }
    ensures len { vec_len bytes.new ≡ vec_len bytes.old + length piece.now }
    ensures capacity { vec_capacity bytes.old ≤ vec_capacity bytes.new }
{
    let Ok(()) = bytes.extend_from_slice(piece) else {
        unreachable!();
    };
}

/// Returns what stands at the front of the bytes: a line of at most 8192 bytes and its line feed, less than a line, or more bytes than a
/// line may have.
pub fn next_in(bytes: &[u8]) -> Next
    ensures { IsNext bytes.now result }
{
    let end = bytes.len().min(MAX_LINE + 1);
    match memchr(b'\n', &bytes[..end]) {
        Some(at) => Next::Line(at),
        None if bytes.len() <= MAX_LINE => Next::More,
        None => Next::TooLong,
    }
}

/// Returns the line without one carriage return at its end.
pub fn without_return(line: &[u8]) -> &[u8]
    ensures line { result.now ≡ without_return line.now }
    ensures short { length result.now ≤ length line.now }
{
    let len = line.len();
    if len == 0 {
        return line;
    }
    if line[len - 1] == b'\r' {
        &line[..len - 1]
    } else {
        line
    }
}
