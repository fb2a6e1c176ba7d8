//! A connection that is open.
ghost use Rattle.std.specs.Prelude.{◌≡◌, ◌<◌, ◌+◌, [], ◌++◌, ◌||◌, OnOk, MatchOption, Some, None, length, take, drop, option_map, nat_lt, IfOk, if◌then◌else◌};
ghost use Rattle.audit_model.specs.Bytewise.{cut_at};
ghost use Rattle.audit_model.specs.Stream.{first_line, behind_lines};
ghost use Rattle.audit_model.specs.Situation.{Ready, is_ready, is_holding, is_waiting_now, is_overlong};
ghost use Rattle.audit_situation.specs.Standings.{kept_line, shown_standing, left_standing, waits_after, moved_as, fed_with};

use audit_lines::{Buffer, without_return};
use audit_model::{Bytes, Seq};
use memchr::memchr;
use std::alloc::{AllocError, Global};
use std::marker::Model;

/// A line has at most this many bytes, and so many may stand behind a `LOAD` that waits.
const MAX: usize = 8192;

/// Whether a connection runs lines, holds one back, or waits with a `LOAD`.
#[derive(Drop)]
pub enum LinkStanding {
    /// The connection runs lines.
    Ready,
    /// The connection holds this line back.
    Held(Bytes),
    /// The connection waits with this `LOAD`.
    Waiting(Bytes),
}

/// A connection that is open.
#[derive(Drop)]
pub struct Link {
    number: u64,
    unread: Buffer,
    standing: LinkStanding,
    waited: u64,
}

impl Model for Link {
    ghost use Rattle.audit_model.specs.Situation.{Connection};
    ghost use Rattle.audit_situation.specs.Standings.{shown_standing};

    ghost Value = { Connection };

    ghost view = { λ l. record {
      number = l.number;
      unread = l.unread.bytes;
      standing = shown_standing l.standing;
      waited = l.waited;
    } };
}

impl Link {
    /// Creates a connection to which no byte has come.
    pub fn new(alloc: Global, number: u64) -> Link
        ensures { result ≡ record { number = number; unread = []; standing = Ready; waited = 0 } }
    {
        Link {
            number,
            unread: Buffer::new(alloc),
            standing: LinkStanding::Ready,
            waited: 0,
        }
    }

    /// Returns the connection's number.
    pub fn number(&self) -> u64
        ensures { result ≡ self.now.number }
    {
        self.number
    }

    /// Returns how often the connection's `LOAD` that has no reply yet began to wait.
    pub fn waited(&self) -> u64
        ensures { result ≡ self.now.waited }
    {
        self.waited
    }

    /// Returns whether the connection runs lines.
    pub fn is_ready(&self) -> bool
        ensures { result ≡ is_ready self.now.standing }
    {
        match &self.standing {
            LinkStanding::Ready => true,
            LinkStanding::Held(_) => false,
            LinkStanding::Waiting(_) => false,
        }
    }

    /// Returns whether the connection holds a line back.
    pub fn is_holding(&self) -> bool
        ensures { result ≡ is_holding self.now.standing }
    {
        match &self.standing {
            LinkStanding::Ready => false,
            LinkStanding::Held(_) => true,
            LinkStanding::Waiting(_) => false,
        }
    }

    /// Returns whether the connection's `LOAD` waits.
    pub fn is_waiting(&self) -> bool
        ensures { result ≡ is_waiting_now self.now.standing }
    {
        match &self.standing {
            LinkStanding::Ready => false,
            LinkStanding::Held(_) => false,
            LinkStanding::Waiting(_) => true,
        }
    }

    /// Returns the line that the connection holds back or waits with, or `None` if it runs lines.
    pub fn kept_line(&self) -> Option<&[u8]>
        ensures { option_map (λ l. l.now) result ≡ kept_line self.now.standing }
    {
        match &self.standing {
            LinkStanding::Ready => None,
            LinkStanding::Held(line) => Some(line.as_slice()),
            LinkStanding::Waiting(line) => Some(line.as_slice()),
        }
    }

    /// Returns the connection's unread bytes.
    pub fn unread(&self) -> &[u8]
        ensures { result.now ≡ self.now.unread }
    {
        self.unread.as_slice()
    }

    /// Appends a piece to the connection's unread bytes. Returns an error if there is not enough memory.
    pub fn feed(&mut self, piece: &[u8]) -> Result<(), AllocError>
        ensures fed { OnOk result
            (self.new ≡ record self.old { unread = self.old.unread ++ piece.now }) }
        ensures number { self.new.number ≡ self.old.number }
    {
        self.unread.reserve(piece.len())?;
        self.unread.append(piece);
        Ok(())
    }

    /// Removes the connection's first line from its unread bytes.
    pub fn read_off(&mut self)
        ensures { self.new ≡ record self.old { unread = behind_lines 1 self.old.unread } }
    {
        match end_of_line(self.unread.as_slice()) {
            Some(at) => self.unread.skip(at),
            None => self.unread.clear(),
        }
    }

    /// Sets how the connection stands after a step of its own, and how often its `LOAD` began to wait.
    pub fn settle(&mut self, standing: LinkStanding, waited: u64)
        ensures { self.new
            ≡ record self.old { standing = shown_standing standing; waited = waited } }
    {
        self.standing = standing;
        self.waited = waited;
    }
}

/// Where the first line ends.
fn end_of_line(bytes: &[u8]) -> Option<usize>
    ensures { MatchOption result (cut_at 10 bytes.now ≡ (bytes.now, None))
        (λ n. (n < length bytes.now)
        × (cut_at 10 bytes.now ≡ (take n bytes.now, Some (drop (n + 1) bytes.now)))) }
{
    memchr(b'\n', bytes)
}

/// Returns the first line, or `None` if its line feed has not come.
pub fn first_line(bytes: &[u8]) -> Option<&[u8]>
    ensures { option_map (λ l. l.now) result ≡ first_line bytes.now }
{
    match end_of_line(bytes) {
        Some(at) => Some(without_return(&bytes[..at])),
        None => None,
    }
}

/// Whether more bytes come before the first line feed than a line may have.
fn is_long(bytes: &[u8]) -> bool
    ensures { result ≡ nat_lt 8192 (length (cut_at 10 bytes.now).0) }
{
    match end_of_line(bytes) {
        Some(at) => at > MAX,
        None => bytes.len() > MAX,
    }
}

/// Returns whether a connection closes, for too long a line or for too many bytes behind its waiting `LOAD`.
pub fn is_overlong(link: &Link) -> bool
    ensures { result ≡ is_overlong link.now }
{
    let unread = link.unread();
    (link.is_ready() && is_long(unread)) || (link.is_waiting() && unread.len() > MAX)
}

/// What a step of a connection does to the connection.
#[derive(Clone, Copy)]
pub struct Moving<'a> {
    /// Whether the step reads the connection's first line off.
    pub reads: bool,
    /// Whether the step is held back.
    pub holds: bool,
    /// Whether the step has a reply.
    pub replies: bool,
    /// The step's line.
    pub line: &'a [u8],
}

/// How a step leaves its connection.
fn standing_after(alloc: Global, moving: Moving<'_>) -> Result<LinkStanding, AllocError>
    ensures { IfOk result (λ standing. shown_standing standing
        ≡ left_standing moving.entry.holds moving.entry.replies moving.entry.line.now) }
{
    if !moving.holds && moving.replies {
        return Ok(LinkStanding::Ready);
    }
    let line = Seq::from_vec(Vec::from_slice(alloc, moving.line)?);
    if moving.holds {
        Ok(LinkStanding::Held(line))
    } else {
        Ok(LinkStanding::Waiting(line))
    }
}

/// How often a connection's `LOAD` that has no reply yet began to wait, after a step.
fn waited_after(moving: Moving<'_>, waited: u64) -> Result<u64, AllocError>
    ensures { IfOk result (λ n. n ≡ waits_after moving.entry.holds moving.entry.replies waited) }
{
    if moving.replies {
        return Ok(0);
    }
    if moving.holds {
        return Ok(waited);
    }
    match waited.checked_add(1) {
        Some(more) => Ok(more),
        None => Err(AllocError),
    }
}

/// Reads a connection's first line off, or not.
fn read_where(link: &mut Link, reads: bool)
    ensures { link.new ≡ record link.old
        { unread = if reads then behind_lines 1 link.old.unread else link.old.unread } }
{
    if reads {
        link.read_off();
    }
}

/// Does to a connection what its own step does. Returns an error if there is not enough memory.
pub fn move_on(alloc: Global, link: &mut Link, moving: Moving<'_>) -> Result<(), AllocError>
    ensures moved { OnOk result (link.new ≡ moved_as moving.entry link.old) }
    ensures number { link.new.number ≡ link.old.number }
{
    let standing = standing_after(alloc, moving)?;
    let waited = waited_after(moving, link.waited())?;
    read_where(link, moving.reads);
    link.settle(standing, waited);
    Ok(())
}

/// Whether a connection closes.
fn closes(link: &Link, quits: bool) -> bool
    ensures { result ≡ (quits || is_overlong link.now) }
{
    quits || is_overlong(link)
}

/// Feeds a connection, and returns whether it has to close. Returns an error if there is not enough memory.
pub fn feed_link(link: &mut Link, piece: &[u8]) -> Result<bool, AllocError>
    ensures closes { IfOk result (λ b. b ≡ is_overlong (fed_with piece.now link.old)) }
    ensures fed { OnOk result (link.new ≡ fed_with piece.now link.old) }
    ensures number { link.new.number ≡ link.old.number }
{
    link.feed(piece)?;
    Ok(is_overlong(link))
}

/// Does to a connection what its own step does, and returns whether the connection closes. Returns an error if there is not enough memory.
pub fn move_link(
    alloc: Global,
    link: &mut Link,
    moving: Moving<'_>,
    quits: bool,
) -> Result<bool, AllocError>
    ensures closes { IfOk result
        (λ b. b ≡ (quits || is_overlong (moved_as moving.entry link.old))) }
    ensures moved { OnOk result (link.new ≡ moved_as moving.entry link.old) }
    ensures number { link.new.number ≡ link.old.number }
{
    move_on(alloc, link, moving)?;
    Ok(closes(link, quits))
}
