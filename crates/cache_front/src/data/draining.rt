//! Notes on their way out.
ghost use Rattle.std.specs.Prelude.{◌≡◌, ◌+◌, ◌++◌, ◌≤◌, length};
ghost use Rattle.std.specs.VecDeque.{deque_capacity};
ghost use Rattle.cache_front.specs.Parts.{cause_of, note_from};
ghost use Rattle.cache_front.specs.View.{all_drained, waiting};
ghost use Rattle.cache_front.specs.Draining.{drained_at, waiting_at};

use crate::data::{Front, Notes};
use crate::entries::StoredValue;
use audit_model::{Key, Note, NoteKey, RemovalCause, Seq};
use front_parts::ScanningGet;
use front_reference::Shared;
use front_state::Notice;
use std::hash::BuildHasher;
use std::marker::Model;
use std::sync::Arc;

/// Takes what the parts of a front reported, and appends it as notes to those that wait, for which there is room. `count`, the number of
/// values held, falls by as many.
pub fn drain<S: BuildHasher>(front: &mut Front<S>, notes: &mut Notes, count: &mut usize)
    requires room { length notes.old.items + length (waiting front.old.parts)
        ≤ deque_capacity notes.old }
    requires held { length (waiting front.old.parts) ≤ count.old }
    ensures drained { front.new ≡ record front.old { parts = all_drained front.old.parts } }
    ensures queued { notes.new.items ≡ notes.old.items ++ waiting front.old.parts }
    ensures room { deque_capacity notes.new ≡ deque_capacity notes.old }
    ensures number { count.new + length (waiting front.old.parts) ≡ count.old }
{
    for place in 0..front.num_cht_segments() {
        drain_at(front, place, notes, count);
    }
}

/// Takes what the part at an index reported, and appends it in the same way. `count` falls by as many.
#[inline(always)]
pub fn drain_at<S: BuildHasher>(
    front: &mut Front<S>,
    place: usize,
    notes: &mut Notes,
    count: &mut usize,
)
    requires room { length notes.old.items + length (waiting_at place front.old.parts)
        ≤ deque_capacity notes.old }
    requires held { length (waiting_at place front.old.parts) ≤ count.old }
    ensures drained { front.new ≡ record front.old { parts = drained_at place front.old.parts } }
    ensures queued { notes.new.items ≡ notes.old.items ++ waiting_at place front.old.parts }
    ensures room { deque_capacity notes.new ≡ deque_capacity notes.old }
    ensures number { count.new + length (waiting_at place front.old.parts) ≡ count.old }
{
    while let Some(notice) = front.next_notice_of_part(place) {
        notes.push_back(note_of(notice)).unwrap();
        *count -= 1;
    }
}

/// A note that waits, which shares its key with the cache. A waiting note takes 24 bytes less than a `Note`, and room for one is kept for
/// each value held.
#[derive(Drop)]
pub struct WaitingNote {
    cause: RemovalCause,
    key: Arc<Key>,
    value: Vec<u8>,
}

impl Model for WaitingNote {
    ghost use Rattle.std.specs.Arc.{arc_value};
    ghost use Rattle.audit_model.specs.declared.transcript.Note.{Note};

    ghost Value = { Note };

    ghost view = { λ n. record { cause = n.cause; key = arc_value n.key; value = n.value.items } };
}

impl WaitingNote {
    /// Returns the note as the service reports it. The call allocates nothing.
    pub fn into_note(self) -> Note
        ensures { result ≡ self }
    {
        let WaitingNote { cause, key, value } = self;
        Note {
            cause,
            key: NoteKey::from(key),
            value: Seq::from_vec(value),
        }
    }
}

/// The note of a notice, for which no memory is taken either.
fn note_of(notice: Notice<Shared<Key>, StoredValue>) -> WaitingNote
    ensures { result ≡ note_from notice }
{
    let Notice { cause, key, value } = notice;
    WaitingNote {
        cause: cause_of(cause),
        key: key.into_arc(),
        value: value.into_vec(),
    }
}

/// The cause, as the service names it.
fn cause_of(cause: front_state::RemovalCause) -> RemovalCause
    ensures { result ≡ cause_of cause }
{
    match cause {
        front_state::RemovalCause::Expired => RemovalCause::Expired,
        front_state::RemovalCause::Explicit => RemovalCause::Explicit,
        front_state::RemovalCause::Replaced => RemovalCause::Replaced,
        front_state::RemovalCause::Size => RemovalCause::Size,
    }
}
