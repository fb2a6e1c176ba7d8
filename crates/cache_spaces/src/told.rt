//! Finding notes in records.
ghost use Rattle.std.specs.Prelude.{◌≡◌, ◌<◌, ◌∷◌, [], get_or, length, IfOk, IfSome, MatchOption};
ghost use Rattle.cache_spaces.specs.Cursors.{lists_of, notes_from, rest_in};

use audit_model::{Note, Record, copy_bytes};
use std::alloc::{AllocError, Global};

/// The position of the first note that was not taken. A record's first list of notes is that of an answer's value, and each step has one.
#[derive(Clone, Copy, Drop)]
pub struct Told {
    /// The number of records before the note's own.
    pub entry: usize,
    /// The number of lists before the note's own in its record.
    pub list: usize,
    /// The number of notes before it in its list.
    pub note: usize,
}

/// Returns the first note from that position on, and the position after it, or `None` if there is none.
pub fn find_note(records: &[Record], told: Told) -> Option<(&Note, Told)>
    ensures first { MatchOption result (notes_from records.now told ≡ [])
        (λ found. notes_from records.now told ≡ found.0.now ∷ notes_from records.now found.1) }
    ensures within { IfSome result (λ found. found.1.entry < length records.now) }
{
    let mut list = told.list;
    let mut note = told.note;
    for entry in told.entry..records.len() {
        if let Some((found, list, note)) = find_in(&records[entry], list, note) {
            return Some((found, Told { entry, list, note }));
        }
        list = 0;
        note = 0;
    }
    None
}

/// The first note of a record from this place on, and the place after it.
fn find_in(entry: &Record, list: usize, note: usize) -> Option<(&Note, usize, usize)>
    ensures { MatchOption result (rest_in (lists_of entry.now) list note ≡ [])
        (λ found. rest_in (lists_of entry.now) list note ≡ found.0.now
        ∷ rest_in (lists_of entry.now) found.1 found.2) }
{
    let mut from = note;
    for at in list..entry.steps.as_slice().len() + 1 {
        let notes = list_at(entry, at);
        if from < notes.len() {
            return Some((&notes[from], at, from + 1));
        }
        from = 0;
    }
    None
}

/// One of a record's lists.
fn list_at(entry: &Record, at: usize) -> &[Note]
    ensures { result.now ≡ get_or (lists_of entry.now) at [] }
{
    if at == 0 {
        return entry.notices.as_slice();
    }
    match entry.steps.as_slice().get(at - 1) {
        Some(step) => step.notices.as_slice(),
        None => &[],
    }
}

/// Returns a copy of a note. Returns an error if there is no memory for its key and value.
pub fn copy_note(alloc: Global, note: &Note) -> Result<Note, AllocError>
    ensures { IfOk result (λ copy. copy ≡ note.now) }
{
    Ok(Note {
        cause: note.cause,
        key: note.key.clone()?,
        value: copy_bytes(alloc, &note.value)?,
    })
}
