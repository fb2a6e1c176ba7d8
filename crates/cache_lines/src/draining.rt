//! The notes that a line told, and its step.
ghost use Rattle.std.specs.Prelude.{◌≡◌, ◌+◌, ◌<◌, ◌≤◌, ◌++◌, ◌∷◌, [], true, is_some, length, vec_len, vec_capacity, if◌then◌else◌};
ghost use Rattle.std.specs.Option.{option_map};
ghost use Rattle.cache_commands.specs.Right.{step_saying};
ghost use Rattle.cache_commands.specs.Values.{GivesNote};
ghost use Rattle.cache_lines.specs.Tape.Taped.{IsDrafted, ends, text_left};

use crate::tape::Tape;
use audit_model::{Accepted, Note};
use cache_commands::{Keyed, Store, push_within};

/// Returns how many notes a line or an answer reports at most.
pub fn most_notes<S: Store>(store: &Keyed<S>) -> usize
    ensures { result ≡ (S.view store.now).count + 1 }
{
    store.sound();
    store.store().len() + 1
}

/// Takes all notes that the store has, for which there is room. Nothing else changes.
pub fn drain<S: Store>(store: &mut Keyed<S>, notes: &mut Vec<Note>)
    requires { vec_len notes.old + length (S.view store.old).untaken ≤ vec_capacity notes.old }
    ensures drained { notes.new.items ≡ notes.old.items ++ (S.view store.old).untaken }
    ensures none { (S.view store.new).untaken ≡ [] }
    ensures gives { GivesNote (S.view store.old) (S.view store.new) }
{
    while let Some(note) = store.next_notice() {
        push_within(notes, note);
    }
}

/// Adds the step of the line, for which there is room, with what was written as its reply, and the notes that wait, if a record is made. If
/// none is made, both stay where they are.
pub fn end_step<S: Store, T: Tape>(
    store: &mut Keyed<S>,
    tape: &mut T,
    number: u64,
    accepted: Option<Accepted>,
    text: &mut Vec<u8>,
    mut notes: Vec<Note>,
)
    requires drafted { IsDrafted (T.view tape.old) }
    requires empty { notes.items ≡ [] }
    requires room { is_some (T.view tape.old) ≡ true → length (S.view store.old).untaken
        ≤ vec_capacity notes }
    ensures gives { GivesNote (S.view store.old) (S.view store.new) }
    ensures untaken { (S.view store.new).untaken
        ≡ (if is_some (T.view tape.old) then [] else (S.view store.old).untaken) }
    ensures step { T.view tape.new ≡ option_map
        (ends (λ line. step_saying number line text.old.items accepted (S.view store.old).untaken))
        (T.view tape.old) }
    ensures text { text.new.items ≡ text_left (T.view tape.old) text.old.items }
{
    if tape.keeps() {
        drain(store, &mut notes);
    }
    tape.end(number, accepted, text, notes);
}
