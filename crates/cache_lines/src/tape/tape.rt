//! What a tape does.
ghost use Rattle.std.specs.Prelude.{◌≡◌, ◌≤◌, [], Option, None, Some, true, is_some, length, IfOk, OnOk, OnErr, vec_capacity};
ghost use Rattle.std.specs.Option.{option_map};
ghost use Rattle.cache_commands.specs.Loading.{step_silent};
ghost use Rattle.cache_commands.specs.Right.{step_saying};
ghost use Rattle.cache_lines.specs.Tape.Taped.{Taped, IsAtRest, IsBegun, IsDrafted, HasSpare, started, drafts, ends, spends, between_records, finishes, step_held, text_left};

use audit_lines::MAX_LINE;
use audit_model::{Accepted, Event, Note, Seq};
use std::alloc::AllocError;

/// Where the record of a turn goes: nowhere, or after others.
///
/// A turn calls `start` and for each line `begin` before it changes anything, so that no later call is refused; a refusal leaves the tape
/// as it was.
pub trait Tape: Drop {
    // what it keeps, if it keeps anything
    ghost view: { Self → Option Taped };

    /// Returns whether the tape keeps records.
    fn keeps(&self) -> bool
        ensures { result ≡ is_some (view self.now) };

    /// Begins a record, if any are kept, with room to add this many lines to it without allocating (`hold`, `say`). Returns an error if
    /// there is not enough memory; then nothing has changed.
    fn start(&mut self, spare: usize) -> Result<(), AllocError>
        requires { IsAtRest (view self.old) }
        ensures started { OnOk result (view self.new ≡ option_map (started spare) (view self.old)) }
        ensures unchanged { OnErr result (self.new ≡ self.old) }
        ensures kept { OnErr result (is_some (view self.old) ≡ true) };

    /// Makes room for a step of this line, and returns room for its notes, as many as `most` if records are kept. Returns an error if there
    /// is not enough memory; then nothing has changed.
    fn begin(&mut self, line: &[u8], most: usize) -> Result<Vec<Note>, AllocError>
        ensures drafted { OnOk result
            (view self.new ≡ option_map (drafts line.now) (view self.old)) }
        ensures empty { IfOk result (λ notes. notes.items ≡ []) }
        ensures room { IfOk result
            (λ notes. is_some (view self.old) ≡ true → most ≤ vec_capacity notes) }
        ensures unchanged { OnErr result (self.new ≡ self.old) };

    /// Adds the step for which there is room, with what was written as its reply, and its notes.
    fn end(&mut self, conn: u64, accepted: Option<Accepted>, text: &mut Vec<u8>, notes: Vec<Note>)
        requires { IsDrafted (view self.old) }
        ensures step { view self.new
            ≡ option_map (ends (λ line. step_saying conn line text.old.items accepted notes.items))
            (view self.old) }
        ensures text { text.new.items ≡ text_left (view self.old) text.old.items };

    /// Adds the step for which there is room, of a `LOAD` that begins to wait, with the number of the load that it sent, if any.
    fn wait(&mut self, conn: u64, load: Option<u64>)
        requires { IsDrafted (view self.old) }
        ensures { view self.new
            ≡ option_map (ends (λ line. step_silent conn line load None [])) (view self.old) };

    /// Adds a step that holds a line back, in the room for one line.
    fn hold(&mut self, conn: u64, line: &[u8])
        requires spare { HasSpare (view self.old) }
        requires short { length line.now ≤ MAX_LINE }
        ensures { view self.new ≡ option_map (spends (step_held conn line.now)) (view self.old) };

    /// Adds a step of that line with what was written as its reply, in the room for one line.
    fn say(&mut self, conn: u64, line: &[u8], text: &mut Vec<u8>)
        requires spare { HasSpare (view self.old) }
        requires short { length line.now ≤ MAX_LINE }
        ensures step { view self.new ≡ option_map
            (spends (step_saying conn line.now text.old.items None [])) (view self.old) }
        ensures text { text.new.items ≡ text_left (view self.old) text.old.items };

    /// Drops the record under way. The tape is then as it was before the record, apart from room.
    fn abandon(&mut self)
        ensures { (before : Self) → view before ≡ option_map between_records (view self.old)
            → self.new ≡ before };

    /// Puts the record under way behind the others.
    fn finish(&mut self, event: Event, own: Option<Accepted>, notices: Seq<Note>)
        requires { IsBegun (view self.old) }
        ensures { view self.new ≡ option_map (finishes event own notices) (view self.old) };
}
