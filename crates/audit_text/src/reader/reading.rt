//! Text to transcripts.
ghost use Rattle.std.specs.Prelude.{◌≡◌, ◌++◌, IfOk, OnOk};
ghost use Rattle.audit_model.specs.declared.config.Config.{Config};
ghost use Rattle.audit_model.specs.declared.transcript.Transcript.{Transcript};
ghost use Rattle.audit_text.specs.Reader.Fits.{FitsConfig, FitsTranscript, OneText};
ghost use Rattle.audit_text.specs.Reader.Gathered.{gathered_text};
ghost use Rattle.audit_text.specs.Reader.Gathering.{IsMade, IsGiven, IsReadText, add_lines, transcript_in_words};
ghost use Rattle.audit_text.specs.Reader.Lines.{kept, telling_line, said_line};
ghost use Rattle.audit_text.specs.Text.{transcript_text};

use crate::reader::fields::{LineFault, TextError};
use crate::reader::gathering::{Gathered, add_item, finish, nothing};
use crate::reader::item::read_item;
use crate::reader::lines::{cut_line, is_skipped};
use audit_model::{Config, Transcript};
use std::alloc::Global;

/// Returns the transcript that a text writes, with its configuration.
///
/// What is read has this text, except for empty lines and comments. Otherwise the call returns `Line` with the number of the malformed
/// line, or `OutOfMemory` if there is not enough memory.
pub fn read_transcript(alloc: Global, text: &[u8]) -> Result<(Config, Transcript), TextError>
    ensures written { IfOk result (λ r. transcript_text r.0 r.1 ≡ kept text.now) }
    ensures exact { (config : Config) → (transcript : Transcript)
        → FitsConfig config → FitsTranscript transcript
        → transcript_text config transcript ≡ kept text.now → IsGiven result config transcript }
{
    read_lines(alloc, text)
}

/// A law: two transcripts with one text are one, and so are their configurations. The call does nothing.
pub fn texts_tell_transcripts_apart()
    ensures { OneText }
{}

/// The transcript that the lines of a text write, with its configuration.
#[tactic(auto, using(crate::proofs::reader::Gatherings::add_lines_append), unfolding(crate::specs::Reader::Gathering::transcript_in_words))]
fn read_lines(alloc: Global, text: &[u8]) -> Result<(Config, Transcript), TextError>
    ensures text { IfOk result (λ r. transcript_text r.0 r.1 ≡ kept text.now) }
    ensures said { IsReadText (transcript_in_words text.now) result }
{
    let mut gathered = nothing(alloc);
    let mut rest = text;
    let mut number: u64 = 0;
    while !rest.is_empty() {
        let (line, behind) = cut_line(rest);
        rest = behind;
        number += 1;
        match take_line(alloc, &mut gathered, line) {
            Ok(()) => {}
            Err(fault) => return Err(fault.at(number)),
        }
    }
    match finish(gathered) {
        Ok(read) => Ok(read),
        Err(fault) => Err(fault.at(number + 1)),
    }
}

/// Gathers what a line says, if it says something.
fn take_line(alloc: Global, gathered: &mut Gathered, line: &[u8]) -> Result<(), LineFault>
    ensures text { OnOk result
        (gathered_text gathered.new ≡ gathered_text gathered.old ++ telling_line line.now) }
    ensures said { IsMade (add_lines gathered.old (said_line line.now)) result gathered.new }
{
    if is_skipped(line) {
        return Ok(());
    }
    let item = read_item(alloc, line)?;
    add_item(alloc, gathered, item)
}
