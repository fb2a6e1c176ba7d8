//! Transcripts to text.
ghost use Rattle.std.specs.Prelude.{◌≡◌, ◌++◌, IfOk, OnOk};
ghost use Rattle.std.specs.List.{flat_map};
ghost use Rattle.audit_text.specs.Text.{note_line, record_text, step_text, transcript_text};

use crate::line::{put_config, put_event, put_made, put_note, put_own, put_step};
use audit_model::{Config, Note, Record, Step, Transcript};
use std::alloc::{AllocError, Global};

/// Returns the text of a transcript with its configuration. Returns an error if there is not enough memory.
pub fn write_transcript(
    alloc: Global,
    config: &Config,
    transcript: &Transcript,
) -> Result<Vec<u8>, AllocError>
    ensures { IfOk result (λ text. text.items ≡ transcript_text config.now transcript.now) }
{
    let mut text = Vec::new(alloc);
    put_config(&mut text, config)?;
    put_made(&mut text, transcript.made)?;
    put_records(&mut text, transcript.records.as_slice())?;
    Ok(text)
}

fn put_records(text: &mut Vec<u8>, records: &[Record]) -> Result<(), AllocError>
    ensures { OnOk result (text.new.items ≡ text.old.items ++ flat_map record_text records.now) }
{
    for record in records {
        put_record(text, record)?;
    }
    Ok(())
}

fn put_record(text: &mut Vec<u8>, record: &Record) -> Result<(), AllocError>
    ensures { OnOk result (text.new.items ≡ text.old.items ++ record_text «record».now) }
{
    put_event(text, &record.event)?;
    put_own(text, record.own)?;
    put_notes(text, b"ownnote", record.notices.as_slice())?;
    put_steps(text, record.steps.as_slice())?;
    Ok(())
}

fn put_notes(text: &mut Vec<u8>, word: &[u8], notes: &[Note]) -> Result<(), AllocError>
    ensures { OnOk result
        (text.new.items ≡ text.old.items ++ flat_map (note_line word.now) notes.now) }
{
    for note in notes {
        put_note(text, word, note)?;
    }
    Ok(())
}

fn put_steps(text: &mut Vec<u8>, steps: &[Step]) -> Result<(), AllocError>
    ensures { OnOk result (text.new.items ≡ text.old.items ++ flat_map step_text steps.now) }
{
    for step in steps {
        put_whole_step(text, step)?;
    }
    Ok(())
}

/// Appends a step with its notes. Returns an error if there is not enough memory.
pub fn put_whole_step(text: &mut Vec<u8>, step: &Step) -> Result<(), AllocError>
    ensures { OnOk result (text.new.items ≡ text.old.items ++ step_text step.now) }
{
    put_step(text, step)?;
    put_notes(text, b"note", step.notices.as_slice())?;
    Ok(())
}
