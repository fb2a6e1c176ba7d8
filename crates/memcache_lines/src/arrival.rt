//! What stands at the front of a stream of bytes.
ghost use Rattle.std.specs.Prelude.{◌≡◌, ◌+◌, ◌<◌, ◌≤◌, ◌^◌, length, take, IfSome};
ghost use Rattle.std.specs.List.{position};
ghost use Rattle.memcache_model.specs.Bytes.{is_feed, without_one_return};
ghost use Rattle.memcache_model.specs.Grammar.{arrived, arrives, arrived_line, block_in, has_end, line_within, line_limit, unended};
ghost use Rattle.memcache_lines.specs.Said.{asks, comes, said_by};
ghost use Rattle.memcache_lines.specs.Blocks.{blocks, meta_set_with, store_with};

use crate::line::{Command, Line, read_line};
use crate::storing::{Head, MetaHead};
use memcache_model::{MAX_KEYS_LINE, MAX_LINE, ProtocolError};
use memchr::memchr;

/// A request of a client.
#[derive(Clone, Copy)]
pub struct Request<'a> {
    /// What the request asks for.
    pub command: Command<'a>,
    /// Whether the request is to have no reply.
    pub quiet: bool,
}

/// What stands at the front of a stream: less than a request, or one, and how many bytes it takes. A request whose data block is too large
/// is whole once its line is, and then takes more bytes than may have come.
#[derive(Clone, Copy)]
pub enum Arrived<'a> {
    /// Less than a request.
    Part,
    /// A request, and how many bytes of the stream it takes.
    Request { request: Request<'a>, used: usize },
}

/// A data block: larger than it may be, not whole yet, without its end, or whole.
#[derive(Clone, Copy)]
enum Block<'a> {
    TooLarge,
    Unfinished,
    Broken,
    Filled(&'a [u8]),
}

/// Returns what stands at the front of a stream whose data blocks have at most `most` bytes.
pub fn read_request<'a>(most: u32, bytes: &'a [u8]) -> Arrived<'a>
    ensures { comes result ≡ arrived most bytes.now }
{
    if bytes.starts_with(b"\x80") {
        arrives(Command::Malformed(ProtocolError::Foreign), false, 1)
    } else {
        read_within(most, line_limit(bytes), bytes)
    }
}

/// How many bytes a line may have: those that name many keys have more.
fn line_limit(bytes: &[u8]) -> usize
    ensures line { result ≡ line_limit bytes.now }
    ensures most { result ≤ 2097152 }
{
    if bytes.starts_with(b"get ")
        || bytes.starts_with(b"gets ")
        || bytes.starts_with(b"gat ")
        || bytes.starts_with(b"gats ")
    {
        MAX_KEYS_LINE
    } else {
        MAX_LINE
    }
}

/// What stands at the front of a stream whose first line has at most `longest` bytes.
fn read_within<'a>(most: u32, longest: usize, bytes: &'a [u8]) -> Arrived<'a>
    requires { longest ≤ 2097152 }
    ensures { comes result ≡ line_within most longest bytes.now }
{
    match first_feed(longest, bytes) {
        Some(at) => behind(
            most,
            read_line(without_return(&bytes[..at])),
            at + 1,
            &bytes[at + 1..],
        ),
        None => unended(longest, bytes.len()),
    }
}

/// Where the first line feed is, if at most `longest` bytes stand before it.
fn first_feed(longest: usize, bytes: &[u8]) -> Option<usize>
    requires { longest ≤ 2097152 }
    ensures place { result ≡ position is_feed (take (longest + 1) bytes.now) }
    ensures inside { IfSome result (λ at. (at < length bytes.now) × (at ≤ longest)) }
{
    let end = bytes.len().min(longest + 1);
    memchr(b'\n', &bytes[..end])
}

/// What stands at the front of this many bytes that have no end of a line, which may have at most `longest`.
fn unended<'a>(longest: usize, count: usize) -> Arrived<'a>
    requires { longest ≤ 2097152 }
    ensures { comes result ≡ unended longest count }
{
    if count <= longest {
        Arrived::Part
    } else {
        arrives(
            Command::Malformed(ProtocolError::TooLong),
            false,
            longest + 1,
        )
    }
}

/// A request that takes so many bytes.
fn arrives<'a>(command: Command<'a>, quiet: bool, used: usize) -> Arrived<'a>
    ensures { comes result ≡ arrives (asks command.entry) quiet used }
{
    Arrived::Request {
        request: Request { command, quiet },
        used,
    }
}

/// A line of `used` bytes with its line feed, and what stands behind it.
fn behind<'a>(most: u32, line: Line<'a>, used: usize, rest: &'a [u8]) -> Arrived<'a>
    requires { used ≤ 2097153 }
    ensures { comes result ≡ arrived_line most (said_by line.entry) used rest.now }
{
    match line {
        Line::Whole { command, quiet } => arrives(command, quiet, used),
        Line::Head(head) => {
            let size = head.size as usize;
            stores(head, used + size + 2, block_in(most, size, rest))
        }
        Line::MetaHead(head) => {
            let size = head.size as usize;
            meta_sets(head, used + size + 2, block_in(most, size, rest))
        }
    }
}

/// The data block of so many bytes that stands at the front.
fn block_in<'a>(most: u32, size: usize, rest: &'a [u8]) -> Block<'a>
    requires { size < 2 ^ 32 }
    ensures { blocks result ≡ block_in most size rest.now }
{
    if size > most as usize {
        Block::TooLarge
    } else if rest.len() < size + 2 {
        Block::Unfinished
    } else if has_end(size, rest) {
        Block::Filled(&rest[..size])
    } else {
        Block::Broken
    }
}

/// A storage command of so many bytes, with its block.
fn stores<'a>(head: Head<'a>, used: usize, block: Block<'a>) -> Arrived<'a>
    ensures { comes result ≡ store_with head.entry used (blocks block.entry) }
{
    let Head {
        storage,
        key,
        flags,
        exptime,
        size: _,
        quiet,
    } = head;
    match block {
        Block::TooLarge => arrives(Command::Oversize { storage, key }, quiet, used),
        Block::Unfinished => Arrived::Part,
        Block::Broken => arrives(Command::Malformed(ProtocolError::Chunk), quiet, used),
        Block::Filled(block) => arrives(
            Command::Store {
                storage,
                key,
                flags,
                exptime,
                block,
            },
            quiet,
            used,
        ),
    }
}

/// A `ms` of so many bytes, with its block.
fn meta_sets<'a>(head: MetaHead<'a>, used: usize, block: Block<'a>) -> Arrived<'a>
    ensures { comes result ≡ meta_set_with head.entry used (blocks block.entry) }
{
    let MetaHead {
        key,
        flags,
        size: _,
    } = head;
    match block {
        Block::TooLarge => arrives(Command::MetaOversize { key, flags }, false, used),
        Block::Unfinished => Arrived::Part,
        Block::Broken => arrives(Command::Malformed(ProtocolError::Chunk), false, used),
        Block::Filled(block) => arrives(Command::MetaSet { key, flags, block }, false, used),
    }
}

/// Whether a carriage return and a line feed stand behind a data block of so many bytes.
fn has_end(size: usize, rest: &[u8]) -> bool
    requires { size + 2 ≤ length rest.now }
    ensures { result ≡ has_end size rest.now }
{
    let end = &rest[size..];
    &end[..2] == b"\r\n".as_slice()
}

/// The line without one carriage return at its end.
fn without_return(line: &[u8]) -> &[u8]
    ensures { result.now ≡ without_one_return line.now }
{
    let len = line.len();
    if len == 0 {
        return line;
    }
    if line[len - 1] == b'\r' {
        &line[..len - 1]
    } else {
        line
    }
}
