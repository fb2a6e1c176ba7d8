//! Notes, as lines of text.
ghost use Rattle.std.specs.Prelude.{◌≡◌, ◌≤◌, ◌<◌, ◌∷◌, [], length, IfErr, IfNone, IfSome, OnOk};
ghost use Rattle.std.specs.Io.KnownBytes.{Appends};
ghost use Rattle.audit_model.specs.Notes.{note_text};
ghost use Rattle.cache_run.specs.Devices.Failures.{HasFailed};
ghost use Rattle.cache_run.specs.Devices.Watched.{device, failures};
ghost use Rattle.cached_server.specs.Script.Gathering.{Gathers};
ghost use Rattle.cached_server.specs.Script.Notes.{StopsTelling, notes_text, notices_at};

use crate::script::gathering::{put, write_out};
use audit_model::Note;
use cache_run::{RunError, Watched};
use cache_spaces::Service;
use std::io::Write;

/// Gathers the line of a note. The call allocates nothing. Returns `Write` if the writer fails.
pub fn write_note<W: Write>(
    note: &Note,
    gathered: &mut Vec<u8>,
    writer: &mut Watched<W>,
) -> Result<(), RunError>
    ensures ok { OnOk result (Gathers (W.contents (device writer.old)) gathered.old.items
        (note_text note.now) (W.contents (device writer.new)) gathered.new.items) }
    ensures cause { IfErr result
        (λ e. (e ≡ RunError.Write) × HasFailed (failures writer.old) (failures writer.new)) }
    ensures count { failures writer.old ≤ failures writer.new }
{
    put(gathered, b"NOTE ", writer)?;
    put(gathered, note.cause.word(), writer)?;
    put(gathered, b" ", writer)?;
    put(gathered, note.key.as_slice(), writer)?;
    put(gathered, b" ", writer)?;
    put(gathered, note.value.as_slice(), writer)?;
    put(gathered, b"\n", writer)
}

/// Takes the oldest note of a namespace, if there is one.
fn next_note(service: &mut Service, namespace: u64) -> Option<Note>
    requires known { namespace < length service.old }
    ensures none { IfNone result
        ((notices_at service.old namespace ≡ []) × (notices_at service.new namespace ≡ [])) }
    ensures first { IfSome result
        (λ note. notices_at service.old namespace ≡ note ∷ notices_at service.new namespace) }
    ensures count { length service.new ≡ length service.old }
{
    match service.next_notice(namespace) {
        Ok(note) => note,
        Err(_) => unreachable!(),
    }
}

/// Takes all notes of a namespace, and writes their lines. Lines are gathered within the capacity of `gathered`, so that few writes are
/// made, and nothing is allocated. Returns `Write` if the writer fails.
pub fn tell_notes<W: Write>(
    service: &mut Service,
    namespace: u64,
    gathered: &mut Vec<u8>,
    writer: &mut Watched<W>,
) -> Result<(), RunError>
    requires known { namespace < length service.old }
    requires none { gathered.old.items ≡ [] }
    ensures told { OnOk result (Appends (W.contents (device writer.old))
        (W.contents (device writer.new)) (notes_text (notices_at service.old namespace))) }
    ensures all { OnOk result (notices_at service.new namespace ≡ []) }
    ensures cause { IfErr result (StopsTelling (failures writer.old) (failures writer.new)
        (notices_at service.old namespace)) }
    ensures count { failures writer.old ≤ failures writer.new }
{
    for _note in 0..u64::MAX {
        match next_note(service, namespace) {
            Some(note) => write_note(&note, gathered, writer)?,
            None => return write_out(gathered, writer),
        }
    }
    Err(RunError::UsedUp)
}
