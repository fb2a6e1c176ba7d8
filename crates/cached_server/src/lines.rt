//! Whole lines on one writer.
ghost use Rattle.std.specs.Prelude.{◌≡◌, [], true, IsErr, IfOk, OnOk, OnErr, false};
ghost use Rattle.std.specs.Io.KnownBytes.{Appends};
ghost use Rattle.cache_run.specs.Devices.Watched.{device};
ghost use Rattle.cached_server.specs.Lines.{joined_texts, listening_line, lost_line, unwritten_line};

use crate::script::{put, write_out};
use cache_run::{RunError, Watched};
use itoa::Buffer;
use std::alloc::{AllocError, Global};
use std::io::Write;

/// This many bytes of a line are gathered before they are written. The longest line that a server writes is shorter.
const LINE_BYTES: usize = 16384;

/// A writer of whole lines. Once a line could not be written whole, nothing more is written.
#[derive(Drop)]
pub struct Lines<W: Write + Drop> {
    gathered: Vec<u8>,
    writer: Watched<W>,
    is_cut: bool,
}

impl<W: Write + Drop> Lines<W> {
    /// Creates a writer of whole lines, with room for 16,384 bytes. Returns an error if there is no memory for them.
    pub fn new(alloc: Global, writer: W) -> Result<Lines<W>, AllocError>
        ensures { IfOk result (λ lines. (device lines.writer ≡ writer) × (lines.is_cut ≡ false)) }
    {
        Ok(Lines {
            gathered: Vec::with_capacity(alloc, LINE_BYTES)?,
            writer: Watched::new(writer),
            is_cut: false,
        })
    }

    /// Writes a text of whole lines. The call allocates nothing. Returns `Write` if the writer fails, and in each later call.
    pub fn send(&mut self, text: &[u8]) -> Result<(), RunError>
        ensures ok { OnOk result (Appends (W.contents (device self.old.writer))
            (W.contents (device self.new.writer)) text.now) }
        ensures whole { OnOk result (self.new.is_cut ≡ self.old.is_cut) }
        ensures cut { OnErr result (self.new.is_cut ≡ true) }
        ensures still { self.old.is_cut ≡ true → (self.new ≡ self.old) × IsErr result }
    {
        self.send_joined(&[text])
    }

    /// Writes the line `listening NAME 127.0.0.1:PORT` in one piece. The call allocates nothing, and returns the error of `send`.
    pub fn show(&mut self, name: &[u8], port: u16) -> Result<(), RunError>
        ensures ok { OnOk result (Appends (W.contents (device self.old.writer))
            (W.contents (device self.new.writer)) (listening_line name.now port)) }
        ensures whole { OnOk result (self.new.is_cut ≡ self.old.is_cut) }
        ensures cut { OnErr result (self.new.is_cut ≡ true) }
        ensures still { self.old.is_cut ≡ true → (self.new ≡ self.old) × IsErr result }
    {
        let mut digits = Buffer::new();
        let port = digits.format(port).as_bytes();
        self.send_joined(&[b"listening ", name, b" 127.0.0.1:", port, b"\n"])
    }

    /// Writes the line `PROGRAM: N notices lost` in one piece. The call allocates nothing, and returns the error of `send`.
    pub fn show_lost(&mut self, program: &[u8], lost: u64) -> Result<(), RunError>
        ensures ok { OnOk result (Appends (W.contents (device self.old.writer))
            (W.contents (device self.new.writer)) (lost_line program.now lost)) }
        ensures whole { OnOk result (self.new.is_cut ≡ self.old.is_cut) }
        ensures cut { OnErr result (self.new.is_cut ≡ true) }
        ensures still { self.old.is_cut ≡ true → (self.new ≡ self.old) × IsErr result }
    {
        let mut digits = Buffer::new();
        let lost = digits.format(lost).as_bytes();
        self.send_joined(&[program, b": ", lost, b" notices lost\n"])
    }

    /// Writes the line `PROGRAM: notices cannot be written` in one piece. The call allocates nothing, and returns the error of `send`.
    pub fn show_unwritten(&mut self, program: &[u8]) -> Result<(), RunError>
        ensures ok { OnOk result (Appends (W.contents (device self.old.writer))
            (W.contents (device self.new.writer)) (unwritten_line program.now)) }
        ensures whole { OnOk result (self.new.is_cut ≡ self.old.is_cut) }
        ensures cut { OnErr result (self.new.is_cut ≡ true) }
        ensures still { self.old.is_cut ≡ true → (self.new ≡ self.old) × IsErr result }
    {
        self.send_joined(&[program, b": notices cannot be written\n"])
    }

    /// Writes texts one after another, which are whole lines, in one piece if there is room for it.
    fn send_joined(&mut self, texts: &[&[u8]]) -> Result<(), RunError>
        ensures ok { OnOk result (Appends (W.contents (device self.old.writer))
            (W.contents (device self.new.writer)) (joined_texts texts.now)) }
        ensures whole { OnOk result (self.new.is_cut ≡ self.old.is_cut) }
        ensures cut { OnErr result (self.new.is_cut ≡ true) }
        ensures still { self.old.is_cut ≡ true → (self.new ≡ self.old) × IsErr result }
    {
        if self.is_cut {
            return Err(RunError::Write);
        }
        self.is_cut = true;
        self.gathered.clear();
        for text in texts {
            put(&mut self.gathered, text, &mut self.writer)?;
        }
        write_out(&mut self.gathered, &mut self.writer)?;
        self.is_cut = false;
        Ok(())
    }
}
