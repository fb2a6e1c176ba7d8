//! Lines of notes that wait to be written.
ghost use Rattle.std.specs.Prelude.{◌≡◌, ◌≤◌, ◌+◌, ◌++◌, [], min, length, true, false, vec_len, vec_capacity, IfOk};
ghost use Rattle.cached_server.specs.Lines.{named_note_line};
ghost use Rattle.cached_server.specs.Outbox.{no_lines, has_room_for, with_line, waits_for_room, is_idle};

use audit_model::Note;
use std::alloc::{AllocError, Global};
use std::marker::Model;
use std::mem;

/// The maximum number of bytes of lines that wait.
pub const ROOM: usize = 1 << 20;

/// The lines of notes that wait to be written, at most `ROOM` bytes, and how many notes found no room.
#[derive(Drop)]
pub struct Outbox {
    waiting: Vec<u8>,
    lost: u64,
    // whether nobody reads what is written
    is_closed: bool,
    // whether room was waited for in vain since lines were taken
    is_stalled: bool,
    // whether no more will come
    is_over: bool,
}

impl Model for Outbox {
    ghost use Rattle.std.specs.Prelude.{◌≤◌, vec_len, vec_capacity};
    ghost use Rattle.cached_server.specs.Outbox.{Outgoing};

    ghost Value = { Outgoing };

    ghost view = { λ o. record {
      waiting = o.waiting.items;
      lost = o.lost;
      is_closed = o.is_closed;
      is_stalled = o.is_stalled;
      is_over = o.is_over;
    } };

    ghost invariant = { λ o.
        record { within : vec_len o.waiting ≤ 1048576; room : 1048576 ≤ vec_capacity o.waiting } };
}

impl Outbox {
    /// Creates an outbox without lines, with the memory for all that may wait. Returns an error if there is not enough memory.
    pub fn new(alloc: Global) -> Result<Outbox, AllocError>
        ensures { IfOk result (λ outbox. outbox ≡ no_lines) }
    {
        Ok(Outbox {
            waiting: Vec::with_capacity(alloc, ROOM)?,
            lost: 0,
            is_closed: false,
            is_stalled: false,
            is_over: false,
        })
    }

    /// Returns whether there is nothing to write or to report yet, and more will come.
    pub fn is_idle(&self) -> bool
        ensures { result ≡ is_idle self.now }
    {
        self.waiting.len() == 0 && self.lost == 0 && !self.is_over
    }

    /// Returns whether no more will come.
    pub fn is_over(&self) -> bool
        ensures { result ≡ self.now.is_over }
    {
        self.is_over
    }

    /// Whether there is room for this many bytes.
    fn has_room_for(&self, length: usize) -> bool
        ensures { result ≡ has_room_for length self.now }
    {
        length <= ROOM - self.waiting.len()
    }

    /// Returns whether the line of a note of a namespace has to wait for room: there is none, and lines are read.
    pub fn waits_for_room(&self, name: &[u8], note: &Note) -> bool
        ensures { result ≡ waits_for_room (named_note_line name.now note.now) self.now }
    {
        !self.is_closed && !self.is_stalled && !self.has_room_for(line_length(name, note))
    }

    /// Appends the line of a note of a namespace to those that wait. If there is no room for it, the note is counted as lost.
    pub fn put(&mut self, name: &[u8], note: &Note)
        ensures { self.new ≡ with_line (named_note_line name.now note.now) self.old }
    {
        if self.is_closed {
            return;
        }
        if self.has_room_for(line_length(name, note)) {
            push_line(&mut self.waiting, name, note);
        } else {
            self.lost = self.lost.saturating_add(1);
        }
    }

    /// Notes that room was waited for in vain: until lines are taken, nobody waits for it again.
    pub fn stall(&mut self)
        ensures { self.new ≡ record self.old { is_stalled = true } }
    {
        self.is_stalled = true;
    }

    /// Notes that nobody reads what is written: no line waits from now on.
    pub fn close(&mut self)
        ensures { self.new ≡ record self.old { is_closed = true } }
    {
        self.is_closed = true;
    }

    /// Notes that no more will come.
    pub fn end(&mut self)
        ensures { self.new ≡ record self.old { is_over = true } }
    {
        self.is_over = true;
    }

    /// Takes the lines that wait, for an empty buffer of as much room, and returns how many notes were lost.
    pub fn take(&mut self, lines: &mut Vec<u8>) -> u64
        requires empty { lines.old.items ≡ [] }
        requires room { 1048576 ≤ vec_capacity lines.old }
        ensures lines { lines.new.items ≡ self.old.waiting }
        ensures lost { result ≡ self.old.lost }
        ensures none { self.new ≡ record self.old { waiting = []; lost = 0; is_stalled = false } }
        ensures room { 1048576 ≤ vec_capacity lines.new }
    {
        mem::swap(&mut self.waiting, lines);
        self.is_stalled = false;
        mem::replace(&mut self.lost, 0)
    }
}

/// How many bytes the line of a note has, as far as they can be counted.
fn line_length(name: &[u8], note: &Note) -> usize
    ensures { result ≡ min (length (named_note_line name.now note.now)) 18446744073709551615 }
{
    name.len().saturating_add(1).saturating_add(note.line_len())
}

/// Appends the line of a note to others, for which there is room.
fn push_line(lines: &mut Vec<u8>, name: &[u8], note: &Note)
    requires { vec_len lines.old + length (named_note_line name.now note.now)
        ≤ vec_capacity lines.old }
    ensures pushed { lines.new.items ≡ lines.old.items ++ named_note_line name.now note.now }
    ensures room { vec_capacity lines.old ≤ vec_capacity lines.new }
{
    lines.extend_from_slice(name).unwrap();
    lines.extend_from_slice(b" ").unwrap();
    note.write_to(lines).unwrap();
}
